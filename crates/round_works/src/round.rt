//! An open round.

ghost use Rattle.std.specs.Prelude.{◌≡◌, ◌<◌, ◌↔◌, List, length, IsTrue, IfOk, MatchOption};
ghost use Rattle.std.specs.Arc.{arc_value};
ghost use Rattle.dirty_plan.specs.Round.{IsLeast, has_flag, is_left, job_count, state_of};
ghost use Rattle.dirty_plan.specs.Touched.{NamesLeaves};
ghost use Rattle.dirty_plan.specs.declared.job.JobState.TheVariants.{Done, Out, Waiting};
ghost use Rattle.series_tables.specs.Plan.{PlanShape};
ghost use Rattle.series_tables.specs.declared.input.Input.{Input};

use crate::copying::copy_of;
use crate::opening::first_works;
use crate::sameness::is_kept;
use crate::summing::add_to_parent;
use crate::work::{Compiled, Job, Work};
use dirty_plan::PlanRound;
use node_compile::NodeTable;
use period_keys::Year;
use qna_base::Memory;
use series_tables::{Plan, Tables};
use std::alloc::Global;
use std::sync::Arc;
use vintage_board::Board;

/// A round up to a front: its jobs, and two copies of each touched item's work, one to hand out and one to compare with
/// what comes back. Only `open` and `copy_out` take memory.
#[derive(Drop)]
pub struct OpenRound {
    alloc: Global,
    front: u64,
    jobs: PlanRound,
    kept: Vec<Option<Work>>,
    ready: Vec<Option<Work>>,
    ghost all_kept: { length kept.items ≡ length jobs.jobs },
    ghost all_ready: { length ready.items ≡ length jobs.jobs },
}

impl OpenRound {
    ghost use Rattle.round_works.specs.Jobs.{job_in, job_made, job_of};
    ghost use Rattle.round_works.specs.Rounds.{CanOpen, HandsOut, IsCopyOut, IsOpening, IsOut, IsOutIn, IsRoundOver};
    ghost use Rattle.round_works.specs.Rounds.{opened, round_in, with_job};
    ghost use Rattle.round_works.specs.Tables.{shared_table};
    ghost use Rattle.round_works.specs.Works.{table_after, work_in};

    /// Opens a round at a front, which is the number of inputs whose last values the tables have. There is a flag for
    /// each item, and a leaf has it set where some of these inputs named it since the tables on the board; the board
    /// shows what the items that aren't touched since then have at the front. All memory that the round needs is taken
    /// here.
    pub fn open(
        alloc: Global,
        plan: &Plan,
        tables: &Tables,
        front: u64,
        touched: &[bool],
        board: &Board<NodeTable>,
    ) -> Result<OpenRound, Memory>
        requires flags { length touched.now ≡ length plan.now.names }
        requires leaves { NamesLeaves plan.now (has_flag touched.now) }
        requires tables { tables.now.items ≡ length plan.now.names }
        requires shown { length board.now.shown ≡ length plan.now.names }
        requires inputs { CanOpen plan.now front tables.now (has_flag touched.now) board.now.shown }
        ensures jobs { IfOk result (λ round.
            round_in round ≡ opened plan.now front (has_flag touched.now)) }
        ensures works { (inputs : List Input) →
            IsOpening plan.now inputs front tables.now (has_flag touched.now) board.now.shown →
            IfOk result (IsRoundOver plan.now inputs) }
    {
        let jobs = PlanRound::new(alloc, plan, touched)?;
        let kept = first_works(alloc, plan, tables, &jobs, board)?;
        let ready = first_works(alloc, plan, tables, &jobs, board)?;
        Ok(OpenRound {
            alloc,
            front,
            jobs,
            kept,
            ready,
        })
    }

    /// How many accepted inputs the round goes up to.
    pub fn front(&self) -> u64
        ensures { result ≡ (round_in self.now).front }
    {
        self.front
    }

    /// How many jobs the round has, done or not.
    pub fn jobs(&self) -> u16
        ensures { result ≡ job_count (round_in self.now).jobs }
    {
        self.jobs.jobs()
    }

    /// The least item whose job isn't done. None where all are.
    pub fn first_left(&self) -> Option<u16>
        ensures { let jobs = (round_in self.now).jobs in
            IsLeast (is_left jobs) (length jobs) result }
    {
        self.jobs.first_left()
    }

    /// Hands out the least job that is ready: its work is what the item has at the round's front. It is out from then
    /// on. None where no job is ready. It takes no memory.
    pub fn hand_out(&mut self, plan: &Plan) -> Option<Job>
        ensures job { (inputs : List Input) → IsRoundOver plan.now inputs self.old →
            HandsOut plan.now inputs (round_in self.old) result (round_in self.new) }
        ensures works { (inputs : List Input) → IsRoundOver plan.now inputs self.old →
            IsRoundOver plan.now inputs self.new }
    {
        let item = self.jobs.ready()?;
        let work = self.ready[item as usize].take()?;
        self.jobs.take(item);
        Some(Job {
            front: self.front,
            node: item,
            reference: plan.reference(),
            work,
        })
    }

    /// Whether a job with this front, item, reference year and work is out.
    fn has_out(&self, plan: &Plan, front: u64, node: u16, reference: Year, work: &Work) -> bool
        ensures { (inputs : List Input) → IsRoundOver plan.now inputs self.now →
            (IsTrue result ↔ IsOut plan.now inputs (round_in self.now)
            (job_of front node reference.0 (work_in work.now))) }
    {
        front == self.front
            && reference.0 == plan.reference().0
            && self.jobs.is_out(node)
            && is_kept(&self.kept, node, work)
    }

    /// Whether a job is out: one of its item, with its front, its reference year and its work.
    pub fn is_out(&self, plan: &Plan, job: &Job) -> bool
        ensures { (inputs : List Input) → IsRoundOver plan.now inputs self.now →
            (IsTrue result ↔ IsOut plan.now inputs (round_in self.now) (job_in job.now)) }
    {
        self.has_out(plan, job.front, job.node, job.reference, &job.work)
    }

    /// Whether the job is out from which something was made.
    pub fn is_made_out(&self, plan: &Plan, made: &Compiled) -> bool
        ensures { (inputs : List Input) → IsRoundOver plan.now inputs self.now →
            (IsTrue result ↔ IsOut plan.now inputs (round_in self.now) (job_made made.now)) }
    {
        self.has_out(plan, made.front, made.node, made.reference, &made.work)
    }

    /// Takes a job back that is out. It waits again, and is handed out again. It takes no memory.
    pub fn take_back(&mut self, job: Job)
        requires { state_of (round_in self.old).jobs job.node ≡ Out }
        ensures job { round_in self.new ≡ with_job (round_in self.old) job.node Waiting }
        ensures works { (plan : PlanShape) (inputs : List Input) →
            IsRoundOver plan inputs self.old → IsOut plan inputs (round_in self.old) (job_in job) →
            IsRoundOver plan inputs self.new }
    {
        self.jobs.put_back(job.node);
        self.ready[job.node as usize] = Some(job.work);
    }

    /// Ends a job that is out, and gives its table, which is the one that the item has at the round's front. A parent
    /// that has a job gets the table's flows. It takes no memory.
    pub fn finish(&mut self, plan: &Plan, made: Compiled) -> Arc<NodeTable>
        requires { IsOutIn plan.now self.old (job_made made) }
        ensures job { round_in self.new ≡ with_job (round_in self.old) made.node Done }
        ensures table { result ≡ made.table }
        ensures worth { (inputs : List Input) →
            IsOut plan.now inputs (round_in self.old) (job_made made) →
            shared_table result ≡ table_after plan.now inputs made.node }
        ensures works { (inputs : List Input) → IsRoundOver plan.now inputs self.old →
            IsOut plan.now inputs (round_in self.old) (job_made made) →
            IsRoundOver plan.now inputs self.new }
    {
        self.jobs.finish(made.node);
        let parent = plan.parent(made.node);
        add_to_parent(&mut self.kept, parent, &made.table.flows);
        add_to_parent(&mut self.ready, parent, &made.table.flows);
        made.table
    }

    /// A copy of an item's job that is out. None where it isn't out.
    pub fn copy_out(&self, plan: &Plan, node: u16) -> Result<Option<Job>, Memory>
        ensures { (inputs : List Input) → IsRoundOver plan.now inputs self.now →
            IfOk result (IsCopyOut plan.now inputs (round_in self.now) node) }
    {
        if !self.jobs.is_out(node) {
            return Ok(None);
        }
        match self.kept[node as usize].as_ref() {
            None => Ok(None),
            Some(work) => Ok(Some(Job {
                front: self.front,
                node,
                reference: plan.reference(),
                work: copy_of(self.alloc, work)?,
            })),
        }
    }
}
