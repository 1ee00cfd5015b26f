//! From an input to an output: the input taken, a text made of it, and the text written.

ghost use Rattle.std.specs.Prelude.{◌≡◌, ◌≢◌, ◌<◌, ◌≤◌, ◌+◌, ◌-◌, ◌⊎◌, ℕ, List, Some, [], length, take, codes, true};
ghost use Rattle.qna_edges.specs.Count.{Rose};
ghost use Rattle.qna_edges.specs.Paper.{grown, BreaksOff, Writes, WasWritten};
ghost use Rattle.qna_edges.specs.Stock.{OnLeft, OnLeftAndRest, WasRead};
ghost use Rattle.input_rules.specs.Accepted.{accepted};
ghost use Rattle.qna_parts.specs.Intake.{most_bytes, refusals_text, ended_refusals_text, IsTakenWhole};
ghost use Rattle.qna_parts.specs.StatusLine.{named_line};
ghost use Rattle.qna_parts.specs.Report.{ReportsFirst, ReportsThen, WritesBoth};
ghost use Rattle.qna_parts.specs.CommandEnd.{ends_a_transfer};
ghost use Rattle.qna_parts.specs.Trace.{Passes};
ghost use Rattle.qna_parts.specs.Transfer.{transfer_of, ReportBreaks, OutputBreaks};

use crate::intake::take_input;
use crate::making::Make;
use crate::status_line::{tell, tell_untaken};
use qna_base::Memory;
use qna_edges::{Refused, Sink, Source, Status, write_all};
use series_tables::Plan;
use std::alloc::Global;

/// Writes a text to the output. Where the output can't be written, its name is reported.
#[tactic(auto, using(qna_edges::proofs::Paper::printed, qna_edges::proofs::Paper::told_of))]
fn deliver<K: Sink, R: Sink>(text: &[u8], sink: &mut K, name: &str, report: &mut R) -> Status
    ensures done { result ≡ Status.Done →
        K.paper sink.new ≡ grown (K.paper sink.old) text.now }
    ensures broken { (result ≡ Status.WriteFault) ⊎ (result ≡ Status.Memory) →
        BreaksOff (K.paper sink.old) (K.paper sink.new) text.now }
    ensures failed { result ≡ Status.WriteFault →
        Rose (K.paper sink.old).faults (K.paper sink.new).faults }
    ensures stands { (result ≡ Status.Done) ⊎ (result ≡ Status.Memory) →
        (K.paper sink.new).faults ≡ (K.paper sink.old).faults }
    ensures told { result ≡ Status.WriteFault →
        Writes (R.paper report.old) (R.paper report.new) (named_line (codes "write") name.now) }
    ensures silent { (result ≡ Status.Done) ⊎ (result ≡ Status.Memory) →
        R.paper report.new ≡ R.paper report.old }
    ensures ends { (result ≡ Status.Done)
        ⊎ ((result ≡ Status.WriteFault) ⊎ (result ≡ Status.Memory)) }
    ensures only { WasWritten (K.paper sink.old) (K.paper sink.new) }
{
    match write_all(sink, text) {
        Ok(()) => Status::Done,
        Err(Refused::Failed) => {
            let _ = tell(report, "write", name);
            Status::WriteFault
        }
        Err(Refused::Memory) => Status::Memory,
    }
}

/// Takes the input, reporting each refused line, makes a text of all accepted inputs, and writes it to the output.
#[tactic(auto, using(qna_edges::proofs::Paper::told_of))]
pub(crate) fn transfer<M: Make, S: Source, K: Sink, R: Sink>(
    alloc: Global,
    maker: &M,
    plan: &Plan,
    source: &mut S,
    input: &str,
    sink: &mut K,
    output: &str,
    report: &mut R,
) -> Status
    ensures done { result ≡ Status.Done → OnLeft (S.stock source.old) (λ text.
        K.paper sink.new ≡ grown (K.paper sink.old)
        (M.text maker.now plan.now (accepted plan.now text))) }
    ensures told { result ≡ Status.Done → OnLeft (S.stock source.old) (λ text.
        R.paper report.new ≡ grown (R.paper report.old) (refusals_text plan.now text)) }
    ensures ended { result ≡ Status.Done →
        IsTakenWhole (S.stock source.old) (S.stock source.new) }
    ensures unread { result ≡ Status.Memory →
        (S.stock source.new).faults ≡ (S.stock source.old).faults }
    ensures unwritten { (result ≡ Status.Done) ⊎ (result ≡ Status.Memory) →
        (K.paper sink.new).faults ≡ (K.paper sink.old).faults }
    ensures unreported { (result ≡ Status.Done) ⊎ (result ≡ Status.Memory) →
        (R.paper report.new).faults ≡ (R.paper report.old).faults }
    ensures memory { result ≡ Status.Memory → OnLeft (S.stock source.old) (λ text.
        ReportsFirst plan.now (R.paper report.old) (R.paper report.new) text) }
    ensures memory_part { result ≡ Status.Memory → (K.paper sink.new ≡ K.paper sink.old)
        ⊎ OnLeft (S.stock source.old) (λ text. BreaksOff (K.paper sink.old) (K.paper sink.new)
        (M.text maker.now plan.now (accepted plan.now text))) }
    ensures untouched { (result ≡ Status.ReadFault) ⊎ (result ≡ Status.TooMuch) →
        K.paper sink.new ≡ K.paper sink.old }
    ensures read_failed { result ≡ Status.ReadFault →
        Rose (S.stock source.old).faults (S.stock source.new).faults }
    ensures read_within { result ≡ Status.ReadFault →
        OnLeftAndRest (S.stock source.old) (S.stock source.new) (λ text rest.
        length text ≤ most_bytes + length rest) }
    ensures read_told { result ≡ Status.ReadFault →
        OnLeftAndRest (S.stock source.old) (S.stock source.new) (λ text rest.
        ReportsThen (R.paper report.old) (R.paper report.new)
        (ended_refusals_text plan.now (take (length text - length rest) text))
        (named_line (codes "read") input.now)) }
    ensures passed { result ≡ Status.TooMuch →
        OnLeftAndRest (S.stock source.old) (S.stock source.new) (λ text rest.
        Passes most_bytes 65536 (length text) (length rest)) }
    ensures passed_told { result ≡ Status.TooMuch → OnLeft (S.stock source.old) (λ text.
        WritesBoth (R.paper report.old) (R.paper report.new)
        (ended_refusals_text plan.now (take most_bytes text))
        (named_line (codes "toomuch") input.now)) }
    ensures write_fault { result ≡ Status.WriteFault →
        let before = transfer_of (S.stock source.old) (K.paper sink.old) (R.paper report.old) in
        let after = transfer_of (S.stock source.new) (K.paper sink.new) (R.paper report.new) in
        ReportBreaks plan.now before after
        ⊎ OutputBreaks (M.text maker.now) plan.now before after output.now }
    ensures ends { ends_a_transfer result ≡ true }
    ensures only_read { WasRead (S.stock source.old) (S.stock source.new) }
    ensures only_written { WasWritten (K.paper sink.old) (K.paper sink.new) }
{
    let taken = match take_input(alloc, plan, source, report) {
        Ok(taken) => taken,
        Err(untaken) => return tell_untaken(report, untaken, input),
    };
    match maker.make(alloc, plan, &taken.tables, taken.accepted) {
        Ok(text) => deliver(&text, sink, output, report),
        Err(Memory) => Status::Memory,
    }
}
