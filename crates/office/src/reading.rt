//! The calls that read what is published.

ghost use Rattle.std.specs.Prelude.{◌≡◌, ◌<◌, ◌≤◌, length, IfOk};
ghost use Rattle.std.specs.Option.{ForSome};
ghost use mathlib.Core.List.{IsPrefix};
ghost use Rattle.accounts_history.specs.History.{front_of, journal, party_of};
ghost use Rattle.desk_lock.specs.Passes.{IsPassOf, own};
ghost use Rattle.node_compile.specs.Release.{tables_in};
ghost use Rattle.office.specs.Calls.{ShowsRelease, ShowsTable};
ghost use Rattle.office.specs.Holds.{IsLater};
ghost use Rattle.office.specs.Seen.{MadeNothing, SentNothing};
ghost use Rattle.round_works.specs.Tables.{shared_table};

use crate::book::CoreBook;
use crate::office::Office;
use crate::replies::Helped;
use desk_lock::Pass;
use node_compile::{NodeTable, Release};
use qna_base::{Memory, Steps};
use qna_edges::Gate;
use std::sync::ledger::Ledger;
use std::sync::{Arc, Wait};

impl Office {
    /// The front of the published release with its table of an item, which is one of the plan's.
    pub fn read<R: Wait>(
        &self,
        rt: &R,
        pass: Pass<CoreBook>,
        node: u16,
    ) -> (Pass<CoreBook>, Result<(u64, Arc<NodeTable>), Memory>)
        requires office { IsPassOf self.now pass }
        requires item { ForSome pass.label (λ plan. node < length plan.names) }
        ensures pass { IsLater pass result.0 }
        ensures nothing { MadeNothing pass.party pass.seen result.0.seen }
        ensures table { IfOk result.1 (λ shown.
            ShowsTable result.0 node shown.0 (shared_table shown.1)) }
    {
        let mut held = self.desk.enter(rt, pass);
        let shown = held.book().read(node);
        (held.leave(), shown)
    }

    /// The published release.
    pub fn read_all<R: Wait>(
        &self,
        rt: &R,
        pass: Pass<CoreBook>,
    ) -> (Pass<CoreBook>, Result<Release, Memory>)
        requires { IsPassOf self.now pass }
        ensures pass { IsLater pass result.0 }
        ensures nothing { MadeNothing pass.party pass.seen result.0.seen }
        ensures release { IfOk result.1 (λ release.
            ShowsRelease result.0 release.front (tables_in release)) }
    {
        let mut held = self.desk.enter(rt, pass);
        let release = held.book().read_all();
        (held.leave(), release)
    }

    /// Helps until so many inputs are published, which the pass has seen accepted, and gives the published front.
    pub fn sync<G: Gate, L: Ledger, R: Wait>(
        &self,
        rt: &R,
        pass: Pass<CoreBook>,
        n: u64,
        gate: &G,
        steps: &mut Steps<L>,
    ) -> (Pass<CoreBook>, Result<u64, Memory>)
        requires office { IsPassOf self.now pass }
        requires accepted { n ≤ length (journal pass.seen) }
        ensures pass { IsLater pass result.0 }
        ensures nothing { SentNothing pass.party pass.seen result.0.seen }
        ensures front { IfOk result.1 (λ front. (front ≡ front_of result.0.seen) × (n ≤ front)) }
    {
        let mut pass = pass;
        for _ in rt.forever() {
            let (seen, front) = self.front(rt, pass);
            if n <= front {
                return (seen, Ok(front));
            }
            let (helped, help) = self.help(rt, seen, gate, steps);
            if help == Helped::Memory {
                return (helped, Err(Memory));
            }
            pass = helped;
        }
        unreachable!()
    }

    /// How many entries the history has, by a single load, while others may hold the lock. The pass has then seen so
    /// many, which are no fewer than before.
    pub fn history_now(&self, pass: &mut Pass<CoreBook>) -> u64
        requires { IsPassOf self.now pass.old }
        ensures count { result ≡ length pass.new.seen }
        ensures pass { IsLater pass.old pass.new }
        ensures begins { IsPrefix pass.old.seen pass.new.seen }
        ensures own { own party_of pass.new ≡ own party_of pass.old }
    {
        self.desk.history_now(pass)
    }
}
