//! The call that submits an input.

ghost use Rattle.std.specs.Option.{ForSome};
ghost use Rattle.desk_lock.specs.Passes.{IsPassOf};
ghost use Rattle.office.specs.Calls.{Submits};
ghost use Rattle.office.specs.Holds.{IsLater};
ghost use Rattle.series_tables.specs.Fits.{FitsPlan};

use crate::book::CoreBook;
use crate::office::Office;
use crate::replies::{Helped, Submitted};
use accounts_core::Accept;
use desk_lock::Pass;
use qna_base::Steps;
use qna_edges::Gate;
use series_tables::Input;
use std::sync::Wait;
use std::sync::ledger::Ledger;

impl Office {
    /// Submits an input that fits the office's plan. Where the journal is too far ahead of the published release, it
    /// helps and tries again.
    pub fn submit<G: Gate, L: Ledger, R: Wait>(
        &self,
        rt: &R,
        pass: Pass<CoreBook>,
        input: Input,
        gate: &G,
        steps: &mut Steps<L>,
    ) -> (Pass<CoreBook>, Submitted)
        requires office { IsPassOf self.now pass }
        requires fits { ForSome pass.label (λ plan. FitsPlan plan input) }
        ensures pass { IsLater pass result.0 }
        ensures reply { Submits input result.1 pass result.0 }
    {
        let mut pass = pass;
        for _ in rt.forever() {
            let (seen, reply) = self.offer(rt, pass, input);
            let Ok(answer) = reply else {
                return (seen, Submitted::Memory);
            };
            match answer {
                Accept::Number(number) => return (seen, Submitted::Accepted(number)),
                Accept::Full => return (seen, Submitted::Full),
                Accept::Behind { .. } => {
                    let (helped, help) = self.help(rt, seen, gate, steps);
                    if help == Helped::Memory {
                        return (helped, Submitted::Memory);
                    }
                    pass = helped;
                }
            }
        }
        unreachable!()
    }
}
