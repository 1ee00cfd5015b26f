//! An input, taken line by line as its bytes come.

ghost use Rattle.std.specs.Prelude.{◌≡◌, ◌≢◌, ◌<◌, ◌≤◌, ◌+◌, ◌-◌, ◌++◌, ◌⊎◌, [], Some, ℕ, List, length, take};
ghost use Rattle.std.specs.Prelude.{IfOk, IsOk, OnOk, OnErr, IfErr, IsErrOf};
ghost use Rattle.qna_edges.specs.Count.{Rose};
ghost use Rattle.qna_edges.specs.Paper.{Paper, grown, BreaksOff, Writes};
ghost use Rattle.qna_edges.specs.Stock.{OnLeft, OnLeftAndRest, WasRead};
ghost use Rattle.line_form.specs.Lines.{TextLine, IsCutOf, lines_of};
ghost use Rattle.series_tables.specs.LastValue.{last_from};
ghost use Rattle.series_tables.specs.Cells.{cell};
ghost use Rattle.series_tables.specs.declared.input.Kind.{Kind as KindOf};
ghost use Rattle.input_rules.specs.Accepted.{refusals_after};
ghost use Rattle.qna_parts.specs.Intake.{Stops, Breaks, most_bytes, refusal_lines, accepted_after};
ghost use Rattle.qna_parts.specs.Intake.{HasTaken, IsTakenTo, IsTakenWhole, IsReady, refusals_text};
ghost use Rattle.qna_parts.specs.Intake.{ended_refusals_text};
ghost use Rattle.qna_parts.specs.Report.{ReportsFirst};
ghost use Rattle.qna_parts.specs.Trace.{Passes};
ghost use Rattle.qna_parts.specs.Faults.{untaken_of};
ghost use Rattle.qna_parts.specs.declared.intake.Untaken.TheVariants.{Memory as WantOfMemory};

use crate::lines::take_waiting;
use line_form::Lines;
use qna_base::Memory;
use qna_edges::{Failed, Refused, Sink, Source, write_all};
use series_tables::{Plan, Tables};
use std::alloc::Global;

/// The most bytes of an input.
const MOST_BYTES: usize = 1_073_741_824;

/// How many bytes are asked of a source at once.
const PIECE: usize = 65_536;

/// Why an input wasn't taken to its end.
#[derive(Clone, Copy, Debug, PartialEq, Eq)]
pub enum Untaken {
    /// Want of memory.
    Memory,
    /// A read failed.
    Read,
    /// The source has more than 2^30 bytes.
    TooMuch,
    /// A write of the report failed.
    Report,
}

impl From<Memory> for Untaken {
    ghost from_gives = { λ _ untaken. untaken ≡ WantOfMemory };

    fn from(_memory: Memory) -> Self {
        Untaken::Memory
    }
}

impl From<Refused> for Untaken {
    ghost from_gives = { λ refused untaken. untaken ≡ untaken_of refused };

    fn from(refused: Refused) -> Self {
        match refused {
            Refused::Failed => Untaken::Report,
            Refused::Memory => Untaken::Memory,
        }
    }
}

/// What a whole input gave.
#[derive(Drop)]
pub struct Taken {
    /// The last value of each kind, leaf and period of the accepted inputs.
    pub tables: Tables,
    /// The number of accepted inputs, at most 262,144.
    pub accepted: u64,
}

/// How far an input was taken.
#[derive(Drop)]
struct Intake {
    lines: Lines,
    tables: Tables,
    accepted: u64,
    refused: Vec<u8>,
}

/// Takes an input to its end: its lines as they are ended, the inputs that they give, and a report line for each
/// refused line, which is written before more of the input is read.
///
/// An input of more than 2^30 bytes is taken as far as that, and no further. `TooMuch` is then the answer also where
/// the piece that passes the limit holds a refused line that the report refuses; only want of memory comes before it.
/// A report that refuses a line of an earlier piece ends the taking with `Report`.
#[tactic(auto, using(qna_edges::proofs::Stock::of_reads))]
pub fn take_input<S: Source, R: Sink>(
    alloc: Global,
    plan: &Plan,
    source: &mut S,
    report: &mut R,
) -> Result<Taken, Untaken>
    ensures items { IfOk result (λ taken. taken.tables.items ≡ length plan.now.names) }
    ensures few { IfOk result (λ taken. taken.accepted ≤ 262144) }
    ensures taken { IfOk result (λ taken. OnLeft (S.stock source.old) (λ text.
        HasTaken plan.now (lines_of text) taken.tables taken.accepted)) }
    ensures reported { OnOk result (OnLeft (S.stock source.old) (λ text.
        R.paper report.new ≡ grown (R.paper report.old) (refusals_text plan.now text))) }
    ensures ended { OnOk result (IsTakenWhole (S.stock source.old) (S.stock source.new)) }
    ensures read { IsErrOf result Untaken.Read →
        OnLeftAndRest (S.stock source.old) (S.stock source.new) (λ text rest.
        R.paper report.new ≡ grown (R.paper report.old)
        (ended_refusals_text plan.now (take (length text - length rest) text))) }
    ensures read_failed { IsErrOf result Untaken.Read →
        Rose (S.stock source.old).faults (S.stock source.new).faults }
    ensures passed { IsErrOf result Untaken.TooMuch →
        OnLeftAndRest (S.stock source.old) (S.stock source.new) (λ text rest.
        Passes most_bytes 65536 (length text) (length rest)) }
    ensures passed_reported { IsErrOf result Untaken.TooMuch → OnLeft (S.stock source.old) (λ text.
        Writes (R.paper report.old) (R.paper report.new)
        (ended_refusals_text plan.now (take most_bytes text))) }
    ensures report { IsErrOf result Untaken.Report → OnLeft (S.stock source.old) (λ text.
        BreaksOff (R.paper report.old) (R.paper report.new) (refusals_text plan.now text)) }
    ensures report_failed { IsErrOf result Untaken.Report →
        Rose (R.paper report.old).faults (R.paper report.new).faults }
    ensures within { IsErrOf result Untaken.Read ⊎ IsErrOf result Untaken.Report →
        OnLeftAndRest (S.stock source.old) (S.stock source.new) (λ text rest.
        length text ≤ most_bytes + length rest) }
    ensures memory { IsErrOf result Untaken.Memory → OnLeft (S.stock source.old) (λ text.
        ReportsFirst plan.now (R.paper report.old) (R.paper report.new) text) }
    ensures unread { IsErrOf result Untaken.Memory →
        (S.stock source.new).faults ≡ (S.stock source.old).faults }
    ensures unfailed { IsOk result ⊎ IsErrOf result Untaken.Memory →
        (R.paper report.new).faults ≡ (R.paper report.old).faults }
    ensures only { WasRead (S.stock source.old) (S.stock source.new) }
{
    let mut intake = begin(alloc, plan)?;
    let mut buffer = [0; PIECE];
    let mut size = 0;
    'reading: loop {
        match source.read(&mut buffer) {
            Ok(0) => {
                take_end(alloc, plan, &mut intake, report)?;
                return Ok(Taken {
                    tables: intake.tables,
                    accepted: intake.accepted,
                });
            }
            Ok(count) => {
                let fits = count.min(MOST_BYTES - size);
                let taken = take_piece(alloc, plan, &buffer[..fits], &mut intake, report);
                if fits < count {
                    return Err(passed_limit(taken));
                }
                taken?;
                size += count;
            }
            Err(Failed) => return Err(Untaken::Read),
        }
    }
}

/// Why an input isn't taken whose limit was passed by a piece, of which this was taken: for want of memory, or else for
/// its size, also where the report refused a line of the piece.
fn passed_limit(taken: Result<(), Untaken>) -> Untaken
    ensures memory { result ≡ Untaken.Memory → IsErrOf taken Untaken.Memory }
    ensures size { result ≡ Untaken.TooMuch → IfErr taken (λ untaken. untaken ≢ Untaken.Memory) }
    ensures ends { (result ≡ Untaken.Memory) ⊎ (result ≡ Untaken.TooMuch) }
{
    match taken {
        Err(Untaken::Memory) => Untaken::Memory,
        _ => Untaken::TooMuch,
    }
}

/// An input of which nothing was taken.
fn begin(alloc: Global, plan: &Plan) -> Result<Intake, Memory>
    ensures ready { IfOk result (λ intake.
        IsReady plan.now intake.lines intake.tables intake.accepted intake.refused.items) }
    ensures taken { IfOk result (λ intake.
        IsTakenTo plan.now [] intake.lines intake.tables intake.accepted) }
{
    Ok(Intake {
        lines: Lines::new(alloc)?,
        tables: Tables::new(alloc, plan)?,
        accepted: 0,
        refused: Vec::new(alloc),
    })
}

/// Takes the lines that a piece of the input ends.
fn take_piece<R: Sink>(
    alloc: Global,
    plan: &Plan,
    piece: &[u8],
    intake: &mut Intake,
    report: &mut R,
) -> Result<(), Untaken>
    requires ready { IsReady plan.now
        intake.old.lines intake.old.tables intake.old.accepted intake.old.refused.items }
    ensures ready { OnOk result (IsReady plan.now
        intake.new.lines intake.new.tables intake.new.accepted intake.new.refused.items) }
    ensures taken { (stream : List ℕ)
        → IsTakenTo plan.now stream intake.old.lines intake.old.tables intake.old.accepted
        → OnOk result (IsTakenTo plan.now (stream ++ piece.now)
        intake.new.lines intake.new.tables intake.new.accepted) }
    ensures reported { (stream : List ℕ) (origin : Paper)
        → IsTakenTo plan.now stream intake.old.lines intake.old.tables intake.old.accepted
        → R.paper report.old ≡ grown origin (ended_refusals_text plan.now stream)
        → OnOk result (R.paper report.new ≡ grown origin
        (ended_refusals_text plan.now (stream ++ piece.now))) }
    ensures stops { (stream : List ℕ) (origin : Paper)
        → IsTakenTo plan.now stream intake.old.lines intake.old.tables intake.old.accepted
        → R.paper report.old ≡ grown origin (ended_refusals_text plan.now stream)
        → OnErr result (Stops origin (R.paper report.new)
        (ended_refusals_text plan.now stream)
        (ended_refusals_text plan.now (stream ++ piece.now))) }
    ensures report { (stream : List ℕ) (origin : Paper)
        → IsTakenTo plan.now stream intake.old.lines intake.old.tables intake.old.accepted
        → R.paper report.old ≡ grown origin (ended_refusals_text plan.now stream)
        → IsErrOf result Untaken.Report → Breaks origin (R.paper report.new)
        (ended_refusals_text plan.now (stream ++ piece.now)) }
    ensures failed { IsErrOf result Untaken.Report →
        Rose (R.paper report.old).faults (R.paper report.new).faults }
    ensures others { IfErr result (λ untaken.
        (untaken ≢ Untaken.Read) × (untaken ≢ Untaken.TooMuch)) }
    ensures later { (R.paper report.old).faults ≤ (R.paper report.new).faults }
    ensures stands { ¬ IsErrOf result Untaken.Report →
        (R.paper report.new).faults ≡ (R.paper report.old).faults }
{
    intake.lines.feed(piece)?;
    take_lines(alloc, plan, intake, report)
}

/// Takes the last line, where the input doesn't end with a line feed.
fn take_end<R: Sink>(
    alloc: Global,
    plan: &Plan,
    intake: &mut Intake,
    report: &mut R,
) -> Result<(), Untaken>
    requires ready { IsReady plan.now
        intake.old.lines intake.old.tables intake.old.accepted intake.old.refused.items }
    ensures items { intake.new.tables.items ≡ length plan.now.names }
    ensures few { OnOk result (intake.new.accepted ≤ 262144) }
    ensures taken { (stream : List ℕ)
        → IsTakenTo plan.now stream intake.old.lines intake.old.tables intake.old.accepted
        → OnOk result (HasTaken plan.now (lines_of stream)
        intake.new.tables intake.new.accepted) }
    ensures reported { (stream : List ℕ) (origin : Paper)
        → IsTakenTo plan.now stream intake.old.lines intake.old.tables intake.old.accepted
        → R.paper report.old ≡ grown origin (ended_refusals_text plan.now stream)
        → OnOk result (R.paper report.new ≡ grown origin (refusals_text plan.now stream)) }
    ensures stops { (stream : List ℕ) (origin : Paper)
        → IsTakenTo plan.now stream intake.old.lines intake.old.tables intake.old.accepted
        → R.paper report.old ≡ grown origin (ended_refusals_text plan.now stream)
        → OnErr result (Stops origin (R.paper report.new)
        (ended_refusals_text plan.now stream) (refusals_text plan.now stream)) }
    ensures report { (stream : List ℕ) (origin : Paper)
        → IsTakenTo plan.now stream intake.old.lines intake.old.tables intake.old.accepted
        → R.paper report.old ≡ grown origin (ended_refusals_text plan.now stream)
        → IsErrOf result Untaken.Report →
        Breaks origin (R.paper report.new) (refusals_text plan.now stream) }
    ensures failed { IsErrOf result Untaken.Report →
        Rose (R.paper report.old).faults (R.paper report.new).faults }
    ensures others { IfErr result (λ untaken.
        (untaken ≢ Untaken.Read) × (untaken ≢ Untaken.TooMuch)) }
    ensures later { (R.paper report.old).faults ≤ (R.paper report.new).faults }
    ensures stands { ¬ IsErrOf result Untaken.Report →
        (R.paper report.new).faults ≡ (R.paper report.old).faults }
{
    intake.lines.finish()?;
    take_lines(alloc, plan, intake, report)
}

/// Takes the lines that wait, and writes the report lines of those that are refused.
#[tactic(auto, using(qna_edges::proofs::Paper::told_of, qna_edges::proofs::Paper::stopping))]
fn take_lines<R: Sink>(
    alloc: Global,
    plan: &Plan,
    intake: &mut Intake,
    report: &mut R,
) -> Result<(), Untaken>
    requires items { intake.old.tables.items ≡ length plan.now.names }
    requires few { intake.old.accepted ≤ 262144 }
    requires nothing_kept { intake.old.refused.items ≡ [] }
    ensures items { intake.new.tables.items ≡ intake.old.tables.items }
    ensures few { OnOk result (intake.new.accepted ≤ 262144) }
    ensures nothing_kept { OnOk result (intake.new.refused.items ≡ []) }
    ensures count { OnOk result (intake.new.accepted ≡ intake.old.accepted
        + length (accepted_after plan.now intake.old.accepted intake.old.lines.waiting)) }
    ensures cells { OnOk result ((kind : KindOf) (leaf period : ℕ)
        → cell intake.new.tables kind leaf period
        ≡ last_from (cell intake.old.tables kind leaf period)
        (accepted_after plan.now intake.old.accepted intake.old.lines.waiting)
        kind leaf period) }
    ensures reported { OnOk result (R.paper report.new ≡ grown (R.paper report.old)
        (refusal_lines (refusals_after plan.now intake.old.accepted intake.old.lines.waiting))) }
    ensures stops { OnErr result (Stops (R.paper report.old) (R.paper report.new) []
        (refusal_lines (refusals_after plan.now intake.old.accepted intake.old.lines.waiting))) }
    ensures report { IsErrOf result Untaken.Report →
        Breaks (R.paper report.old) (R.paper report.new)
        (refusal_lines (refusals_after plan.now intake.old.accepted intake.old.lines.waiting)) }
    ensures none_waits { OnOk result (intake.new.lines.waiting ≡ []) }
    ensures cut { OnOk result ((stream : List ℕ) (handed : List TextLine)
        → IsCutOf intake.old.lines stream handed
        → IsCutOf intake.new.lines stream (handed ++ intake.old.lines.waiting)) }
    ensures ended { intake.new.lines.ended ≡ intake.old.lines.ended }
    ensures failed { IsErrOf result Untaken.Report →
        Rose (R.paper report.old).faults (R.paper report.new).faults }
    ensures others { IfErr result (λ untaken.
        (untaken ≢ Untaken.Read) × (untaken ≢ Untaken.TooMuch)) }
    ensures later { (R.paper report.old).faults ≤ (R.paper report.new).faults }
    ensures stands { ¬ IsErrOf result Untaken.Report →
        (R.paper report.new).faults ≡ (R.paper report.old).faults }
{
    intake.accepted = take_waiting(
        alloc,
        plan,
        &mut intake.lines,
        &mut intake.tables,
        intake.accepted,
        &mut intake.refused,
    )?;
    write_all(report, &intake.refused)?;
    intake.refused.clear();
    Ok(())
}
