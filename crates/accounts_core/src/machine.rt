//! The core: the history, the published release and the open round.

ghost use Rattle.std.specs.Prelude.{◌≡◌, ◌<◌, length, IfOk, OnErr};
ghost use Rattle.accounts_history.specs.History.{IsLawful, MayFollow};
ghost use Rattle.accounts_core.specs.State.{accepted as accepted_of, first_core, published as published_of};
ghost use Rattle.accounts_core.specs.Step.{Accepts, Begins, HandsIn, Publishes, PutsBack, Reads, ReadsAll, Takes};
ghost use Rattle.accounts_core.specs.Finishing.{IsCopyOf};
ghost use Rattle.accounts_core.specs.Sound.{IsSound};
ghost use Rattle.accounts_core.specs.Step.{HasMore, HasRoom, IsNear, taken_of};
ghost use Rattle.node_compile.specs.Release.{tables_in};
ghost use Rattle.round_works.specs.Tables.{shared_table};
ghost use Rattle.series_tables.specs.Fits.{FitsPlan};

use crate::first::first_board;
use crate::replies::{Accept, Begin, Done, Publish, PutBack, Take};
use accounts_history::{Entry, named_since};
use node_compile::{NodeTable, Release};
use qna_base::Memory;
use round_works::{Compiled, Job, OpenRound};
use series_tables::{Input, Plan, Tables};
use std::alloc::Global;
use std::marker::Model;
use std::sync::Arc;
use vintage_board::Board;

/// The most inputs that a journal takes.
const MOST_INPUTS: u64 = 262144;

/// The most inputs by which a journal may be ahead of the published release.
const MOST_AHEAD: u64 = 1024;

/// The accounts of a plan: their history, which is lawful, the published release, and the round that compiles the next.
#[derive(Drop)]
pub struct Core {
    alloc: Global,
    plan: Plan,
    history: Vec<Entry>,
    accepted: u64,
    tables: Tables,
    board: Board<NodeTable>,
    round: Option<OpenRound>,
}

impl Model for Core {
    ghost use Rattle.std.specs.Prelude.{◌<◌, vec_len, vec_capacity};
    ghost use Rattle.std.specs.Option.{ForSome, option_map};
    ghost use Rattle.accounts_core.specs.Kept.{IsKept};
    ghost use Rattle.accounts_core.specs.State.{CoreState};
    ghost use Rattle.round_works.specs.Rounds.{round_in};

    ghost Value = { CoreState };

    ghost view = { λ core. record {
      plan = core.plan;
      history = core.history.items;
      round = option_map round_in core.round;
    } };

    ghost invariant = { λ core.
        IsKept core.plan core.history.items core.accepted core.tables core.board core.round
        × ForSome core.round (λ round. vec_len core.history < vec_capacity core.history) };
}

impl Core {
    /// The core of a plan, with an empty history and the release of no inputs.
    pub fn new(alloc: Global, plan: Plan) -> Result<Core, Memory>
        ensures { IfOk result (λ core. core ≡ first_core plan) }
    {
        let tables = Tables::new(alloc, &plan)?;
        let board = first_board(alloc, &plan, &tables)?;
        Ok(Core {
            alloc,
            plan,
            history: Vec::new(alloc),
            accepted: 0,
            tables,
            board,
            round: None,
        })
    }

    /// The plan.
    pub fn plan(&self) -> &Plan
        ensures { result.now ≡ self.now.plan }
    {
        &self.plan
    }

    /// How many inputs were accepted.
    pub fn accepted(&self) -> u64
        ensures { result ≡ accepted_of self.now }
    {
        self.accepted
    }

    /// The front of the published release: how many inputs it is compiled from.
    pub fn published(&self) -> u64
        ensures { result ≡ published_of self.now }
    {
        self.board.front()
    }

    /// The history: what was accepted and what was published, in order.
    pub fn history(&self) -> &[Entry]
        ensures entries { result.now ≡ self.now.history }
        ensures lawful { IsLawful self.now.plan self.now.history }
    {
        &self.history
    }

    /// Does nothing, and tells that the history is lawful and that an open round compiles what was touched between the
    /// published front and a later one.
    pub fn stays_sound(&self)
        ensures { IsSound self.now }
    {
        let _accepted = self.accepted;
    }

    /// The allocator from which the core takes its memory.
    pub(crate) fn alloc(&self) -> Global {
        self.alloc
    }

    /// A copy of an item's job that is out. None where no such job is out.
    pub(crate) fn copy_out(&self, node: u16) -> Result<Option<Job>, Memory>
        ensures { IfOk result (IsCopyOf self.now node) }
    {
        match &self.round {
            None => Ok(None),
            Some(round) => round.copy_out(&self.plan, node),
        }
    }

    /// Accepts an input of a party, unless the journal is full or too far ahead of the published release. Only an input
    /// that would be accepted can want memory.
    pub fn accept(&mut self, party: u16, input: Input) -> Result<Accept, Memory>
        requires { FitsPlan self.old.plan input }
        ensures step { IfOk result (λ reply. Accepts self.old party input reply self.new) }
        ensures memory { OnErr result (HasRoom self.old × IsNear self.old × (self.new ≡ self.old)) }
    {
        if self.accepted == MOST_INPUTS {
            return Ok(Accept::Full);
        }
        let published = self.board.front();
        if self.accepted == published + MOST_AHEAD {
            return Ok(Accept::Behind {
                accepted: self.accepted,
                published,
            });
        }
        self.history.reserve(2)?;
        self.history.push_reserved(Entry::Accept { party, input });
        self.tables.set(&input);
        self.accepted += 1;
        Ok(Accept::Number(self.accepted))
    }

    /// Begins a round up to all that was accepted, with a job for each item that was touched since the published
    /// release. All memory that the round needs until it is published is taken here, and none where no round begins.
    pub fn begin(&mut self) -> Result<Begin, Memory>
        ensures step { IfOk result (λ reply. Begins self.old reply self.new) }
        ensures memory { OnErr result (HasMore self.old × (self.new ≡ self.old)) }
    {
        if let Some(round) = &self.round {
            return Ok(Begin::RoundOpen(round.front()));
        }
        let front = self.board.front();
        if self.accepted == front {
            return Ok(Begin::Nothing(front));
        }
        let touched = named_since(self.alloc, &self.plan, &self.history, front, self.accepted)?;
        self.history.reserve(1)?;
        let round = OpenRound::open(
            self.alloc,
            &self.plan,
            &self.tables,
            self.accepted,
            &touched,
            &self.board,
        )?;
        let jobs = round.jobs();
        self.round = Some(round);
        Ok(Begin::Opened {
            front: self.accepted,
            jobs,
        })
    }

    /// Hands out a job that is ready: it waits, and no child of its item has an unfinished job. It can't want memory.
    pub fn take(&mut self) -> Take
        ensures { Takes self.old result self.new }
    {
        match self.round.take() {
            None => Take::NoneReady,
            Some(mut round) => {
                let job = round.hand_out(&self.plan);
                self.round = Some(round);
                taken(job)
            }
        }
    }

    /// Keeps what was made of a job that is out. It can't want memory.
    pub fn done(&mut self, made: Compiled) -> Done
        ensures { HandsIn self.old made result self.new }
    {
        match self.round.take() {
            None => Done::NotOut(made),
            Some(mut round) => {
                if round.is_made_out(&self.plan, &made) {
                    let node = made.node;
                    let table = round.finish(&self.plan, made);
                    self.board.stage(node, table);
                    self.round = Some(round);
                    Done::Kept
                } else {
                    self.round = Some(round);
                    Done::NotOut(made)
                }
            }
        }
    }

    /// Takes a job back that is out, to be handed out again. It can't want memory.
    pub fn put_back(&mut self, job: Job) -> PutBack
        ensures { PutsBack self.old job result self.new }
    {
        match self.round.take() {
            None => PutBack::NotOut(job),
            Some(mut round) => {
                if round.is_out(&self.plan, &job) {
                    round.take_back(job);
                    self.round = Some(round);
                    PutBack::Kept
                } else {
                    self.round = Some(round);
                    PutBack::NotOut(job)
                }
            }
        }
    }

    /// Publishes the release of the round, once all its jobs are done, and closes the round. It can't want memory.
    pub fn publish(&mut self, party: u16) -> Publish
        ensures { Publishes self.old party result self.new }
    {
        match self.round.take() {
            None => Publish::NoRound,
            Some(round) => match round.first_left() {
                Some(item) => {
                    self.round = Some(round);
                    Publish::Waiting(item)
                }
                None => {
                    let front = round.front();
                    let jobs = round.jobs();
                    self.board.put(front);
                    self.history
                        .push_reserved(Entry::Publish { party, front, jobs });
                    Publish::Published(front)
                }
            },
        }
    }

    /// The front of the published release, and its table of an item.
    pub fn read(&self, node: u16) -> (u64, &Arc<NodeTable>)
        requires { node < length self.now.plan.names }
        ensures { Reads self.now node result.0 (shared_table result.1.now) }
    {
        (self.board.front(), self.board.show(node))
    }

    /// The published release.
    pub fn read_all(&self) -> Result<Release, Memory>
        ensures { IfOk result (λ release. ReadsAll self.now release.front (tables_in release)) }
    {
        let mut nodes = Vec::with_capacity(self.alloc, self.plan.len() as usize)?;
        for node in 0..self.plan.len() {
            nodes.push(Arc::try_clone(self.board.show(node))?)?;
        }
        Ok(Release {
            front: self.board.front(),
            nodes,
        })
    }
}

/// The answer with a job that was handed out, or none.
fn taken(job: Option<Job>) -> Take
    ensures { result ≡ taken_of job }
{
    match job {
        None => Take::NoneReady,
        Some(job) => Take::Job(job),
    }
}
