//! A plan's text, line by line.

ghost use Rattle.std.specs.Prelude.{◌≡◌, ◌++◌, ◌∷◌, [], List, ℕ, Ok, None, IfOk, IfErr, OnOk};
ghost use Rattle.line_form.specs.Lines.{TextLine, IsCutOf, line_view, lines_of};
ghost use Rattle.series_tables.specs.PlanLine.{said};
ghost use Rattle.series_tables.specs.Plan.{plan_of, cause_of};
ghost use Rattle.series_tables.specs.PlanError.{Refuses, Explains, IsCauseAt};
ghost use Rattle.series_tables.specs.PlanReading.{outcome, nothing, with_said};

use crate::cause::{PlanCause, PlanError};
use crate::draft::Draft;
use crate::entry::entry_of;
use crate::plan::Plan;
use line_form::{Line, LineFault, Lines, fields, is_passed_over};
use std::alloc::Global;
use std::marker::Model;

/// How many bytes are cut into lines at once, so that few lines wait however many a text has.
const PIECE: usize = 4096;

/// What the lines so far give, and how many they are.
#[derive(Drop)]
struct Progress {
    draft: Draft,
    count: u64,
}

impl Model for Progress {
    ghost use Rattle.series_tables.specs.PlanReading.{Progress as Told};

    ghost Value = { Told };

    ghost view = { λ p. record { given = p.draft; count = p.count } };
}

/// Reads the plan that a text spells, or the first line of it that is refused.
#[tactic(auto, using(crate::proofs::Outcomes::plan_is_outcome))]
pub(crate) fn read_text(alloc: Global, text: &[u8]) -> Result<Plan, PlanError>
    ensures plan { IfOk result (λ plan. plan_of text.now ≡ Ok plan) }
    ensures fault { IfErr result (Explains text.now) }
{
    let mut progress = Progress::new(alloc);
    take_text(alloc, text, &mut progress)?;
    progress.finish(alloc)
}

/// Takes what a line says that isn't passed over.
fn take_line(alloc: Global, line: &Line, draft: &mut Draft) -> Result<(), PlanError>
    ensures free { OnOk result (cause_of draft.old (said (line_view line.now)) ≡ None) }
    ensures taken { OnOk result (draft.new ≡ with_said draft.old (said (line_view line.now))) }
    ensures fault { IfErr result
        (IsCauseAt line.now.number (cause_of draft.old (said (line_view line.now)))) }
{
    let record = match fields(alloc, line) {
        Ok(record) => record,
        Err(LineFault::Memory) => return Err(PlanError::Memory),
        Err(LineFault::Long | LineFault::Form) => return Err(fault_at(line, PlanCause::Form)),
    };
    let Some(entry) = entry_of(&record) else {
        return Err(fault_at(line, PlanCause::Form));
    };
    if let Some(cause) = draft.cause(entry) {
        return Err(fault_at(line, cause));
    }
    draft.add(alloc, entry)?;
    Ok(())
}

/// The refusal of a line for a cause.
fn fault_at(line: &Line, cause: PlanCause) -> PlanError
    ensures { result ≡ PlanError.Fault line.now.number cause }
{
    PlanError::Fault {
        line: line.number,
        cause,
    }
}

/// Takes all lines of a text, a piece of it at a time.
fn take_text(alloc: Global, text: &[u8], progress: &mut Progress) -> Result<(), PlanError>
    ensures taken { OnOk result
        (outcome progress.old (lines_of text.now) ≡ outcome progress.new []) }
    ensures fault { IfErr result (Refuses (outcome progress.old (lines_of text.now))) }
{
    let mut lines = Lines::new(alloc)?;
    let mut done = 0;
    'pieces: while done < text.len() {
        let end = text.len().min(done + PIECE);
        lines.feed(&text[done..end])?;
        take_waiting(alloc, &mut lines, progress)?;
        done = end;
    }
    lines.finish()?;
    take_waiting(alloc, &mut lines, progress)
}

/// Takes the lines that wait.
fn take_waiting(alloc: Global, lines: &mut Lines, progress: &mut Progress) -> Result<(), PlanError>
    ensures taken { (rest : List TextLine) →
        OnOk result (outcome progress.old (lines.old.waiting ++ rest) ≡ outcome progress.new rest) }
    ensures fault { (rest : List TextLine) →
        IfErr result (Refuses (outcome progress.old (lines.old.waiting ++ rest))) }
    ensures none { OnOk result (lines.new.waiting ≡ []) }
    ensures lines { (stream : List ℕ) (handed : List TextLine) →
        IsCutOf lines.old stream handed →
        OnOk result (IsCutOf lines.new stream (handed ++ lines.old.waiting)) }
    ensures ended { OnOk result (lines.new.ended ≡ lines.old.ended) }
{
    'lines: while let Some(line) = lines.next_line() {
        progress.take(alloc, &line)?;
    }
    Ok(())
}

impl Progress {
    /// Before the first line.
    fn new(alloc: Global) -> Progress
        ensures { result ≡ record { given = nothing; count = 0 } }
    {
        Progress {
            draft: Draft::new(alloc),
            count: 0,
        }
    }

    /// Takes the next line.
    #[tactic(auto, using(crate::proofs::Outcomes::outcome_past, crate::proofs::Outcomes::outcome_taken, crate::proofs::Outcomes::fault_of_line))]
    fn take(&mut self, alloc: Global, line: &Line) -> Result<(), PlanError>
        ensures taken { (rest : List TextLine) →
            OnOk result (outcome self.old (line_view line.now ∷ rest) ≡ outcome self.new rest) }
        ensures fault { (rest : List TextLine) →
            IfErr result (Refuses (outcome self.old (line_view line.now ∷ rest))) }
    {
        if !is_passed_over(line) {
            take_line(alloc, line, &mut self.draft)?;
        }
        self.count = self.count.saturating_add(1);
        Ok(())
    }

    /// The plan of what all lines give.
    #[tactic(auto, unfolding(crate::specs::PlanReading::outcome))]
    fn finish(self, alloc: Global) -> Result<Plan, PlanError>
        ensures plan { IfOk result (λ plan. outcome self [] ≡ Ok plan) }
        ensures fault { IfErr result (Refuses (outcome self [])) }
    {
        self.draft.finish(alloc, self.count.saturating_add(1))
    }
}
