//! The command `check`: a certificate in, the verdict on it out.

ghost use Rattle.std.specs.Prelude.{◌≡◌, ◌≢◌, ◌⊎◌, codes, decimal, true, false, Ok};
ghost use Rattle.std.specs.Fmt.{signed_decimal};
ghost use Rattle.qna_edges.specs.Count.{Rose};
ghost use Rattle.qna_edges.specs.Paper.{grown, BreaksOff, Writes};
ghost use Rattle.qna_parts.specs.StatusLine.{named_line, pair_line};
ghost use Rattle.command_words.specs.Command.{words_in, is_check, OnCheck};
ghost use Rattle.cert_read.specs.Found.{found, IsFound, CertifiesItsGap};
ghost use Rattle.qna_cli.specs.Check.{verdict_text};
ghost use Rattle.qna_cli.specs.CheckEnd.{ends_at_yes, ends_at_verdict, IsCheckEnd, ChecksComplete};

use cert_read::{CertFault, read_cert};
use command_words::{check_words, plain_words};
use dual_cert::{Verdict, check as check_document};
use itoa::Buffer;
use qna_base::Memory;
use qna_edges::{Cabinet, Sink, Status};
use qna_parts::{read_file, tell, tell_pair, tell_unread, tell_usage, tell_word, write_status};
use std::alloc::Global;

/// The most bytes of a certificate.
const LIMIT: usize = 1_048_576;

/// What is found of a certificate's text: the verdict on it, or why it isn't read.
fn find(alloc: Global, text: &[u8]) -> Result<Verdict, CertFault>
    ensures found { IsFound result (found text.now) }
    ensures certified { result ≡ Ok Verdict.Yes → CertifiesItsGap text.now }
{
    let doc = read_cert(alloc, text)?;
    Ok(check_document(alloc, &doc)?)
}

/// Reports the verdict yes. Where its line is refused the status says so.
fn tell_yes<K: Sink>(report: &mut K) -> Status
    ensures told { result ≡ Status.Done →
        K.paper report.new ≡ grown (K.paper report.old) (codes "yes\n") }
    ensures cut { result ≡ Status.WriteFault →
        Rose (K.paper report.old).faults (K.paper report.new).faults
        × BreaksOff (K.paper report.old) (K.paper report.new) (codes "yes\n") }
    ensures memory { result ≡ Status.Memory →
        Rose (K.paper report.old).wants (K.paper report.new).wants
        × BreaksOff (K.paper report.old) (K.paper report.new) (codes "yes\n") }
    ensures stands { result ≡ Status.Memory →
        (K.paper report.new).faults ≡ (K.paper report.old).faults }
    ensures ends { (result ≡ Status.Done)
        ⊎ ((result ≡ Status.WriteFault) ⊎ (result ≡ Status.Memory)) }
{
    match tell_word(report, "yes") {
        Ok(()) => Status::Done,
        Err(refused) => write_status(refused),
    }
}

/// Reports a verdict that isn't yes by its word and the number of a year or a line.
#[tactic(auto, using(qna_edges::proofs::Paper::printed))]
fn tell_number<K: Sink>(report: &mut K, word: &str, number: u64) -> Status
    ensures status { result ≡ Status.CheckNo }
    ensures told { Writes (K.paper report.old) (K.paper report.new)
        (named_line word.now (decimal number)) }
{
    let mut buffer = Buffer::new();
    let _ = tell(report, word, buffer.format(number));
    Status::CheckNo
}

/// Reports that a certificate's gap is another than the one of its numbers.
#[tactic(auto, using(qna_edges::proofs::Paper::printed))]
fn tell_gap<K: Sink>(report: &mut K, said: i128, found: i128) -> Status
    ensures status { result ≡ Status.CheckNo }
    ensures told { Writes (K.paper report.old) (K.paper report.new)
        (pair_line (codes "no,gap") (signed_decimal said) (signed_decimal found)) }
{
    let mut first = Buffer::new();
    let mut second = Buffer::new();
    let _ = tell_pair(report, "no,gap", first.format(said), second.format(found));
    Status::CheckNo
}

/// Reports what is found of a certificate's text.
#[tactic(auto, unfolding(crate::specs::Check::verdict_text))]
fn tell_found<K: Sink>(alloc: Global, text: &[u8], report: &mut K) -> Status
    ensures yes { ends_at_yes result ≡ true →
        (found text.now ≡ Ok Verdict.Yes) × CertifiesItsGap text.now }
    ensures told_yes { result ≡ Status.Done →
        K.paper report.new ≡ grown (K.paper report.old) (codes "yes\n") }
    ensures cut_yes { result ≡ Status.WriteFault →
        Rose (K.paper report.old).faults (K.paper report.new).faults
        × BreaksOff (K.paper report.old) (K.paper report.new) (codes "yes\n") }
    ensures no { result ≡ Status.CheckNo → (found text.now ≢ Ok Verdict.Yes)
        × Writes (K.paper report.old) (K.paper report.new) (verdict_text text.now) }
    ensures memory { result ≡ Status.Memory → (K.paper report.new ≡ K.paper report.old)
        ⊎ (Rose (K.paper report.old).wants (K.paper report.new).wants
        × BreaksOff (K.paper report.old) (K.paper report.new) (codes "yes\n")
        × (found text.now ≡ Ok Verdict.Yes)) }
    ensures stands { result ≡ Status.Memory →
        (K.paper report.new).faults ≡ (K.paper report.old).faults }
    ensures ends { (result ≡ Status.Memory) ⊎ (ends_at_verdict result ≡ true) }
{
    match find(alloc, text) {
        Ok(Verdict::Yes) => tell_yes(report),
        Ok(Verdict::Sum(year)) => tell_number(report, "no,sum", u64::from(year)),
        Ok(Verdict::Gap { said, found }) => tell_gap(report, said, found),
        Err(CertFault::Shape(line)) => tell_number(report, "no,shape", line),
        Err(CertFault::Range(line)) => tell_number(report, "no,range", line),
        Err(CertFault::Memory) => Status::Memory,
    }
}

/// Carries out the command `check` with a file's name: reads the certificate, at most 2^20 bytes, and reports the
/// verdict on it.
#[tactic(auto, using(crate::proofs::CheckEnds::unfailed_whole))]
fn check<C: Cabinet, K: Sink>(alloc: Global, name: &str, cabinet: &mut C, report: &mut K) -> Status
    ensures { IsCheckEnd (C.shelves cabinet.old) (C.shelves cabinet.new)
        (K.paper report.old) (K.paper report.new) name.now result }
{
    match read_file(alloc, cabinet, name, LIMIT) {
        Ok(text) => tell_found(alloc, &text, report),
        Err(unread) => tell_unread(report, unread, name),
    }
}

/// Carries out the command `check CERT`: reads the certificate, at most 2^20 bytes, and reports the verdict on it.
/// `Done` is the answer exactly where the verdict is yes and its line was written, `CheckNo` where the certificate was
/// read to its end and the verdict isn't yes.
#[tactic(auto, using(command_words::proofs::Callers::on_check, crate::proofs::Wanting::check_wanting))]
pub fn run_check<C: Cabinet, K: Sink>(
    alloc: Global,
    words: &[&str],
    cabinet: &mut C,
    report: &mut K,
) -> Status
    ensures usage { result ≡ Status.Usage → is_check (words_in words.now) ≡ false }
    ensures form { is_check (words_in words.now) ≡ false →
        (result ≡ Status.Usage) ⊎ (result ≡ Status.Memory) }
    ensures untouched { is_check (words_in words.now) ≡ false → cabinet.new ≡ cabinet.old }
    ensures quiet { is_check (words_in words.now) ≡ false → result ≡ Status.Memory →
        report.new ≡ report.old }
    ensures told { result ≡ Status.Usage →
        Writes (K.paper report.old) (K.paper report.new) (codes "usage\n") }
    ensures ends { OnCheck (words_in words.now) (λ name.
        IsCheckEnd (C.shelves cabinet.old) (C.shelves cabinet.new)
        (K.paper report.old) (K.paper report.new) name result) }
{
    let plain = match plain_words(alloc, words) {
        Ok(Some(plain)) => plain,
        Ok(None) => return tell_usage(report),
        Err(Memory) => return Status::Memory,
    };
    match check_words(alloc, &plain) {
        Ok(Some(name)) => check(alloc, name, cabinet, report),
        Ok(None) => tell_usage(report),
        Err(Memory) => Status::Memory,
    }
}

/// Law: where no count of the certificate or of the report rose, and the certificate is within its limit, an end of
/// `check` is at a verdict or for want of memory.
pub fn checks_complete()
    ensures { ChecksComplete }
{}
