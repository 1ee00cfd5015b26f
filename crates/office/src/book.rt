//! The core as the book of a lock.

ghost use Rattle.std.specs.Prelude.{◌≡◌, ◌<◌, length, IfOk};
ghost use Rattle.accounts_core.specs.State.{first_core, published as published_of};
ghost use Rattle.accounts_core.specs.Step.{Accepts, Begins, HandsIn, Publishes, PutsBack, Reads, ReadsAll, Takes};
ghost use Rattle.accounts_history.specs.History.{IsLawful};
ghost use Rattle.node_compile.specs.Release.{tables_in};
ghost use Rattle.office.specs.Unique.{IsLawful-prop};
ghost use Rattle.accounts_core.specs.Sound.{IsSound};
ghost use Rattle.office.specs.Holds.{Answers, Grows, Stays};
ghost use Rattle.round_works.specs.Tables.{shared_table};
ghost use Rattle.series_tables.specs.Fits.{FitsPlan};

use accounts_core::{Accept, Begin, Compiled, Core, Done, Entry, Job, Publish, PutBack, Take};
use desk_lock::Story;
use node_compile::{NodeTable, Release};
use qna_base::Memory;
use series_tables::{Input, Plan};
use std::alloc::Global;
use std::sync::Arc;

/// The core as a story: its entries are those of its history, which is lawful under the plan, its label.
#[derive(Drop)]
pub struct CoreBook {
    pub(crate) core: Core,
    pub ghost lawful: { IsLawful core.plan core.history } by { IsLawful-prop core.plan core.history },
}

impl Story for CoreBook {
    ghost use Rattle.accounts_history.specs.History.{IsLawful, party_of};

    type Entry = Entry;

    type Label = Plan;

    ghost list = { λ book. book.core.history };

    ghost party = { λ entry. party_of entry };

    ghost label = { λ book. book.core.plan };

    ghost test = { λ plan history. IsLawful plan history };

    fn count(&self) -> u64 {
        self.core.history().len() as u64
    }

    ghost passes = { λ book. book.lawful };
}

impl CoreBook {
    /// The book of a plan's core before anything was accepted.
    pub(crate) fn new(alloc: Global, plan: Plan) -> Result<CoreBook, Memory>
        ensures { IfOk result (λ book. book.core ≡ first_core plan) }
    {
        let core = Core::new(alloc, plan)?;
        core.stays_sound();
        Ok(CoreBook { core })
    }

    /// The core.
    pub(crate) fn into_core(self) -> Core
        ensures { result ≡ self.core }
    {
        self.core
    }

    /// Offers an input of a party.
    pub(crate) fn accept(&mut self, party: u16, input: Input) -> Result<Accept, Memory>
        requires { FitsPlan self.old.core.plan input }
        ensures step { Answers (λ reply found left. Accepts found party input reply left)
            result self.old.core self.new.core }
        ensures grows { Grows party self.old.core self.new.core }
    {
        let core = &mut self.core;
        let reply = core.accept(party, input);
        core.stays_sound();
        reply
    }

    /// Begins a round, if none is open and there is anything to compile.
    pub(crate) fn begin(&mut self) -> Result<Begin, Memory>
        ensures step { Answers (λ reply found left. Begins found reply left)
            result self.old.core self.new.core }
        ensures stays { Stays self.old.core self.new.core }
    {
        let core = &mut self.core;
        let reply = core.begin();
        core.stays_sound();
        reply
    }

    /// Takes a job, if one is ready.
    pub(crate) fn take(&mut self) -> Take
        ensures step { Takes self.old.core result self.new.core }
        ensures stays { Stays self.old.core self.new.core }
    {
        let core = &mut self.core;
        let reply = core.take();
        core.stays_sound();
        reply
    }

    /// Hands in what was made of a job.
    pub(crate) fn done(&mut self, made: Compiled) -> Done
        ensures step { HandsIn self.old.core made result self.new.core }
        ensures stays { Stays self.old.core self.new.core }
    {
        let core = &mut self.core;
        let reply = core.done(made);
        core.stays_sound();
        reply
    }

    /// Puts a job back.
    pub(crate) fn put_back(&mut self, job: Job) -> PutBack
        ensures step { PutsBack self.old.core job result self.new.core }
        ensures stays { Stays self.old.core self.new.core }
    {
        let core = &mut self.core;
        let reply = core.put_back(job);
        core.stays_sound();
        reply
    }

    /// Publishes the round of a party, if all its jobs are done.
    pub(crate) fn publish(&mut self, party: u16) -> Publish
        ensures step { Publishes self.old.core party result self.new.core }
        ensures grows { Grows party self.old.core self.new.core }
    {
        let core = &mut self.core;
        let reply = core.publish(party);
        core.stays_sound();
        reply
    }

    /// The published front.
    pub(crate) fn front(&self) -> u64
        ensures front { result ≡ published_of self.now.core }
        ensures sound { IsSound self.now.core }
    {
        self.core.stays_sound();
        self.core.published()
    }

    /// The published front, with the published table of an item.
    pub(crate) fn read(&self, node: u16) -> Result<(u64, Arc<NodeTable>), Memory>
        requires { node < length self.now.core.plan.names }
        ensures shown { IfOk result (λ shown.
            Reads self.now.core node shown.0 (shared_table shown.1)) }
        ensures sound { IsSound self.now.core }
    {
        self.core.stays_sound();
        let (front, table) = self.core.read(node);
        Ok((front, Arc::try_clone(table)?))
    }

    /// The published release.
    pub(crate) fn read_all(&self) -> Result<Release, Memory>
        ensures shown { IfOk result (λ release.
            ReadsAll self.now.core release.front (tables_in release)) }
        ensures sound { IsSound self.now.core }
    {
        self.core.stays_sound();
        self.core.read_all()
    }
}
