//! How far a reader of a certificate has come.

ghost use Rattle.std.specs.Prelude.{◌≡◌, ◌∷◌, [], List, true, None, Some, IsTrue, IfOk, IfErr, if◌then◌else◌};
ghost use Rattle.line_form.specs.Lines.{TextLine, line_view};
ghost use Rattle.cert_read.specs.Statement.{entry_view};
ghost use Rattle.cert_read.specs.Content.{nothing, follows, is_in_range, HasRanges};
ghost use Rattle.cert_read.specs.Progress.{outcome, first_noted, with_statement, IsEntryFault};
ghost use Rattle.cert_read.specs.Reading.{Fails, Gives};

use crate::draft::Draft;
use crate::entry::Entry;
use crate::fault::CertFault;
use crate::reading::said;
use line_form::{Line, is_passed_over};
use std::alloc::Global;
use std::marker::Model;

/// What the lines so far say, the first of them that is out of range, and the number of the last.
#[derive(Drop)]
pub(crate) struct Progress {
    draft: Draft,
    late: Option<u64>,
    last: u64,
}

impl Model for Progress {
    ghost use Rattle.std.specs.Prelude.{◌≡◌, None};
    ghost use Rattle.cert_read.specs.Content.{HasRanges};
    ghost use Rattle.cert_read.specs.Progress.{Progress as Told};

    ghost Value = { Told };

    ghost view = { λ p. record { content = p.draft; late = p.late; last = p.last } };

    ghost invariant = { λ p. p.late ≡ None → HasRanges p.draft };
}

impl Progress {
    /// Before the first line.
    pub(crate) fn new(alloc: Global) -> Progress
        ensures { result ≡ record { content = nothing; late = None; last = 0 } }
    {
        Progress {
            draft: Draft::new(alloc),
            late: None,
            last: 0,
        }
    }

    /// Takes the next line.
    #[tactic(auto, using(crate::proofs::Outcomes::outcome_past, crate::proofs::Outcomes::outcome_taken, crate::proofs::Outcomes::outcome_strange, crate::proofs::Outcomes::fault_of_entry))]
    pub(crate) fn take(self, alloc: Global, line: &Line) -> Result<Progress, CertFault>
        ensures goes_on { (rest : List TextLine) → IfOk result (λ p.
            outcome self (line_view line.now ∷ rest) ≡ outcome p rest) }
        ensures fault { (rest : List TextLine) → IfErr result (λ e.
            Fails e (outcome self (line_view line.now ∷ rest))) }
    {
        if is_passed_over(line) {
            return Ok(self.past(line.number));
        }
        match said(alloc, line)? {
            Some(entry) => self.with_entry(entry, line.number),
            None => Err(CertFault::Shape(line.number)),
        }
    }

    /// The same behind a line that is passed over.
    fn past(self, number: u64) -> Progress
        ensures { result ≡ record self { last = number } }
    {
        Progress {
            draft: self.draft,
            late: self.late,
            last: number,
        }
    }

    /// Takes what the line of a number says.
    #[tactic(auto, using(crate::proofs::Ranges::ranges_more))]
    fn with_entry(self, entry: Entry, number: u64) -> Result<Progress, CertFault>
        ensures taken { IfOk result (λ p. (follows self.content (entry_view entry) ≡ true)
            × (p ≡ with_statement self (entry_view entry) number)) }
        ensures fault { IfErr result (λ e.
            IsEntryFault e (follows self.content (entry_view entry)) number) }
    {
        if !self.draft.admits(&entry) {
            return Err(CertFault::Shape(number));
        }
        let late = self.late_with(&entry, number);
        let mut draft = self.draft;
        draft.add(entry)?;
        Ok(Progress {
            draft,
            late,
            last: number,
        })
    }

    /// The first line out of range, where the line of a number follows.
    fn late_with(&self, entry: &Entry, number: u64) -> Option<u64>
        requires { IsTrue (follows self.now.content (entry_view entry.now)) }
        ensures { result ≡ first_noted self.now.late
            (if is_in_range self.now.content (entry_view entry.now) then None else Some number) }
    {
        if self.late.is_some() || self.draft.ranges_over(entry) {
            return self.late;
        }
        Some(number)
    }

    /// What all lines say, at their end.
    #[tactic(auto, unfolding(crate::specs::Progress::outcome))]
    pub(crate) fn finish(self) -> Result<Draft, CertFault>
        ensures gives { Gives (λ d. d) result (outcome self []) }
        ensures whole { IfOk result (λ d. d.tail ≡ 2) }
        ensures ranges { IfOk result HasRanges }
    {
        if self.draft.tail != 2 {
            return Err(CertFault::Shape(self.last.saturating_add(1)));
        }
        match self.late {
            Some(line) => Err(CertFault::Range(line)),
            None => Ok(self.draft),
        }
    }
}
