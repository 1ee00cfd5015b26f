//! The holds of the lock, each one event of the core. The party that holds it does nothing else until it leaves.

ghost use Rattle.std.specs.Prelude.{◌≡◌};
ghost use Rattle.std.specs.Option.{ForSome};
ghost use Rattle.accounts_core.specs.Step.{Accepts, Begins, HandsIn, Publishes, PutsBack, Takes};
ghost use Rattle.accounts_history.specs.History.{front_of};
ghost use Rattle.desk_lock.specs.Passes.{IsPassOf};
ghost use Rattle.office.specs.Holds.{Answers, IsLater, OneHold};
ghost use Rattle.office.specs.Seen.{MadeNothing};
ghost use Rattle.series_tables.specs.Fits.{FitsPlan};

use crate::book::CoreBook;
use crate::office::Office;
use accounts_core::{Accept, Begin, Compiled, Done, Job, Publish, PutBack, Take};
use desk_lock::Pass;
use qna_base::Memory;
use series_tables::Input;
use std::sync::Wait;

impl Office {
    /// Offers an input of the pass's party.
    pub(crate) fn offer<R: Wait>(
        &self,
        rt: &R,
        pass: Pass<CoreBook>,
        input: Input,
    ) -> (Pass<CoreBook>, Result<Accept, Memory>)
        requires office { IsPassOf self.now pass }
        requires fits { ForSome pass.label (λ plan. FitsPlan plan input) }
        ensures pass { IsLater pass result.0 }
        ensures hold { OneHold (Answers (λ reply found left.
            Accepts found pass.party input reply left) result.1) pass result.0 }
    {
        let party = pass.party();
        let mut held = self.desk.enter(rt, pass);
        let reply = held.book().accept(party, input);
        (held.leave(), reply)
    }

    /// Begins a round, if none is open and there is anything to compile.
    pub(crate) fn begin<R: Wait>(
        &self,
        rt: &R,
        pass: Pass<CoreBook>,
    ) -> (Pass<CoreBook>, Result<Begin, Memory>)
        requires { IsPassOf self.now pass }
        ensures pass { IsLater pass result.0 }
        ensures hold { OneHold (Answers (λ reply found left. Begins found reply left)
            result.1) pass result.0 }
    {
        let mut held = self.desk.enter(rt, pass);
        let reply = held.book().begin();
        (held.leave(), reply)
    }

    /// Takes a job, if one is ready.
    pub(crate) fn take<R: Wait>(&self, rt: &R, pass: Pass<CoreBook>) -> (Pass<CoreBook>, Take)
        requires { IsPassOf self.now pass }
        ensures pass { IsLater pass result.0 }
        ensures hold { OneHold (λ found left. Takes found result.1 left) pass result.0 }
    {
        let mut held = self.desk.enter(rt, pass);
        let reply = held.book().take();
        (held.leave(), reply)
    }

    /// Hands in what was made of a job.
    pub(crate) fn hand_in<R: Wait>(
        &self,
        rt: &R,
        pass: Pass<CoreBook>,
        made: Compiled,
    ) -> (Pass<CoreBook>, Done)
        requires { IsPassOf self.now pass }
        ensures pass { IsLater pass result.0 }
        ensures hold { OneHold (λ found left. HandsIn found made result.1 left) pass result.0 }
    {
        let mut held = self.desk.enter(rt, pass);
        let reply = held.book().done(made);
        (held.leave(), reply)
    }

    /// Puts a job back.
    pub(crate) fn give_back<R: Wait>(
        &self,
        rt: &R,
        pass: Pass<CoreBook>,
        job: Job,
    ) -> (Pass<CoreBook>, PutBack)
        requires { IsPassOf self.now pass }
        ensures pass { IsLater pass result.0 }
        ensures hold { OneHold (λ found left. PutsBack found job result.1 left) pass result.0 }
    {
        let mut held = self.desk.enter(rt, pass);
        let reply = held.book().put_back(job);
        (held.leave(), reply)
    }

    /// Publishes the round of the pass's party, if all its jobs are done.
    pub(crate) fn publish<R: Wait>(&self, rt: &R, pass: Pass<CoreBook>) -> (Pass<CoreBook>, Publish)
        requires { IsPassOf self.now pass }
        ensures pass { IsLater pass result.0 }
        ensures hold { OneHold (λ found left. Publishes found pass.party result.1 left)
            pass result.0 }
    {
        let party = pass.party();
        let mut held = self.desk.enter(rt, pass);
        let reply = held.book().publish(party);
        (held.leave(), reply)
    }

    /// The published front.
    pub(crate) fn front<R: Wait>(&self, rt: &R, pass: Pass<CoreBook>) -> (Pass<CoreBook>, u64)
        requires { IsPassOf self.now pass }
        ensures pass { IsLater pass result.0 }
        ensures nothing { MadeNothing pass.party pass.seen result.0.seen }
        ensures front { result.1 ≡ front_of result.0.seen }
    {
        let mut held = self.desk.enter(rt, pass);
        let front = held.book().front();
        (held.leave(), front)
    }
}
