//! The calls that join passes and close an office.

ghost use Rattle.std.specs.Prelude.{◌≡◌, ℕ, Some};
ghost use mathlib.Core.List.{IsPrefix};
ghost use Rattle.accounts_history.specs.History.{IsLawful, party_of};
ghost use Rattle.desk_lock.specs.Passes.{IsClosed, IsJoined, IsLastPass, IsPassOf, IsTested};
ghost use Rattle.desk_lock.specs.Passes.{account, entries_by, entries_under, is_in, is_named, own};

use crate::book::CoreBook;
use crate::office::Office;
use accounts_core::Core;
use desk_lock::Pass;

impl Office {
    /// One pass of two, with the first one's party. It has seen the longer of the two histories, which both begin. The
    /// second one's party, and those that ended in it, end in this pass with the entries that they made.
    pub fn join(&self, a: Pass<CoreBook>, b: Pass<CoreBook>) -> Pass<CoreBook>
        requires first { IsPassOf self.now a }
        requires second { IsPassOf self.now b }
        ensures joined { IsJoined party_of a b result }
        ensures begins { IsPrefix a.seen result.seen × IsPrefix b.seen result.seen }
        ensures own { own party_of result ≡ own party_of a }
        ensures lawful { IsTested IsLawful result }
    {
        self.desk.join(a, b)
    }

    /// Closes the office with the pass into which all others were joined, and gives the core back. Its history is what
    /// the pass has seen. Of each party it has the entries that stand under the party in the pass's account, each once
    /// and in order. No call takes the pass any more.
    pub fn close(self, pass: Pass<CoreBook>) -> (Core, Pass<CoreBook>)
        requires office { IsPassOf self pass }
        requires last { IsLastPass party_of pass }
        ensures history { result.0.history ≡ pass.seen }
        ensures plan { Some result.0.plan ≡ pass.label }
        ensures each { (p : ℕ) →
            entries_by party_of p result.0.history ≡ entries_under p (account party_of pass) }
        ensures given { (p : ℕ) → is_in p pass.given ≡ is_named p (account party_of pass) }
        ensures closed { IsClosed pass result.1 }
        ensures lawful { IsTested IsLawful result.1 }
    {
        let Office { desk, .. } = self;
        let (book, pass) = desk.close(pass);
        (book.into_core(), pass)
    }
}
