//! The report's lines of one, two or three words, and those of each status. A line's refusal leaves a beginning of it
//! behind what the report held.

ghost use Rattle.std.specs.Prelude.{◌≡◌, ◌≤◌, ◌++◌, ◌⊎◌, codes, OnOk, IsErrOf};
ghost use Rattle.qna_edges.specs.Paper.{Prints, Writes};
ghost use Rattle.qna_parts.specs.StatusLine.{word_line, named_line, pair_line, status_of_unread, unread_line};
ghost use Rattle.qna_parts.specs.StatusLine.{status_of_untaken, untaken_line, plan_line};

use crate::intake::Untaken;
use crate::read::Unread;
use itoa::Buffer;
use qna_edges::{Refused, Sink, Status, write_all};
use series_tables::PlanCause;

/// Writes the line `WORD`.
#[tactic(auto, using(qna_edges::proofs::Paper::printed))]
pub fn tell_word<K: Sink>(report: &mut K, word: &str) -> Result<(), Refused>
    ensures { Prints (K.paper report.old) (K.paper report.new) (word_line word.now) result }
{
    write_both(report, word.as_bytes(), "\n".as_bytes())
}

/// Writes the line `WORD,NAME`.
#[tactic(auto, using(qna_edges::proofs::Paper::printed))]
pub fn tell<K: Sink>(report: &mut K, word: &str, name: &str) -> Result<(), Refused>
    ensures { Prints (K.paper report.old) (K.paper report.new)
        (named_line word.now name.now) result }
{
    write_both(report, word.as_bytes(), ",".as_bytes())?;
    write_both(report, name.as_bytes(), "\n".as_bytes())
}

/// Writes the line `WORD,FIRST,SECOND`.
#[tactic(auto, using(qna_edges::proofs::Paper::printed))]
pub fn tell_pair<K: Sink>(
    report: &mut K,
    word: &str,
    first: &str,
    second: &str,
) -> Result<(), Refused>
    ensures { Prints (K.paper report.old) (K.paper report.new)
        (pair_line word.now first.now second.now) result }
{
    write_both(report, word.as_bytes(), ",".as_bytes())?;
    tell(report, first, second)
}

/// Writes one text and then another.
#[tactic(auto, using(qna_edges::proofs::Paper::printed))]
fn write_both<K: Sink>(report: &mut K, first: &[u8], second: &[u8]) -> Result<(), Refused>
    ensures { Prints (K.paper report.old) (K.paper report.new) (first.now ++ second.now) result }
{
    write_all(report, first)?;
    write_all(report, second)
}

/// The status of a line whose refusal counts: want of memory, or a fault of the report.
pub fn write_status(refused: Refused) -> Status
    ensures failed { refused ≡ Refused.Failed → result ≡ Status.WriteFault }
    ensures memory { refused ≡ Refused.Memory → result ≡ Status.Memory }
    ensures back { result ≡ Status.WriteFault → refused ≡ Refused.Failed }
    ensures one { (result ≡ Status.WriteFault) ⊎ (result ≡ Status.Memory) }
{
    match refused {
        Refused::Failed => Status::WriteFault,
        Refused::Memory => Status::Memory,
    }
}

/// Reports why a file wasn't read to its end, with its name, and answers the status, which is the same where the line
/// is refused. Want of memory has no line.
#[tactic(auto, using(qna_edges::proofs::Paper::printed))]
pub fn tell_unread<K: Sink>(report: &mut K, unread: Unread, name: &str) -> Status
    ensures status { result ≡ status_of_unread unread }
    ensures told { Writes (K.paper report.old) (K.paper report.new) (unread_line unread name.now) }
    ensures memory { unread ≡ Unread.Memory → report.new ≡ report.old }
{
    match unread {
        Unread::Open => {
            let _ = tell(report, "open", name);
            Status::OpenFault
        }
        Unread::Read => {
            let _ = tell(report, "read", name);
            Status::ReadFault
        }
        Unread::TooMuch => {
            let _ = tell(report, "toomuch", name);
            Status::TooMuch
        }
        Unread::Memory => Status::Memory,
    }
}

/// Reports that the words are of no stated form, and answers that status, which is the same where the line is refused.
#[tactic(auto, using(qna_edges::proofs::Paper::printed))]
pub fn tell_usage<K: Sink>(report: &mut K) -> Status
    ensures status { result ≡ Status.Usage }
    ensures told { Writes (K.paper report.old) (K.paper report.new) (codes "usage\n") }
{
    let _ = tell_word(report, "usage");
    Status::Usage
}

/// Reports why an input wasn't taken to its end, with its name, and answers the status, which is the same where the
/// line is refused. Want of memory and a fault of the report have no line.
#[tactic(auto, using(qna_edges::proofs::Paper::printed))]
pub fn tell_untaken<K: Sink>(report: &mut K, untaken: Untaken, name: &str) -> Status
    ensures status { result ≡ status_of_untaken untaken }
    ensures told { Writes (K.paper report.old) (K.paper report.new)
        (untaken_line untaken name.now) }
    ensures memory { untaken ≡ Untaken.Memory → report.new ≡ report.old }
    ensures report { untaken ≡ Untaken.Report → report.new ≡ report.old }
{
    match untaken {
        Untaken::Read => {
            let _ = tell(report, "read", name);
            Status::ReadFault
        }
        Untaken::TooMuch => {
            let _ = tell(report, "toomuch", name);
            Status::TooMuch
        }
        Untaken::Report => Status::WriteFault,
        Untaken::Memory => Status::Memory,
    }
}

/// Reports which line of a plan is refused and why, and answers that status, which is the same where the line is
/// refused.
#[tactic(auto, using(qna_edges::proofs::Paper::printed))]
pub fn tell_plan<K: Sink>(report: &mut K, line: u64, cause: PlanCause) -> Status
    ensures status { result ≡ Status.PlanFault }
    ensures told { Writes (K.paper report.old) (K.paper report.new)
        (plan_line (record { line = line; cause = cause })) }
{
    let mut buffer = Buffer::new();
    let _ = tell_pair(report, "plan", buffer.format(line), cause.text());
    Status::PlanFault
}
