//! The jobs of a round.

ghost use Rattle.std.specs.Prelude.{◌≡◌, ◌≤◌, ◌↔◌, length, IsTrue, IfOk};
ghost use Rattle.dirty_plan.specs.Round.{IsLeast, has_flag, is_job as is_job_of, is_left, is_ready as is_ready_of};
ghost use Rattle.dirty_plan.specs.Round.{job_count, opened_round, state_of, with_state};
ghost use Rattle.dirty_plan.specs.Touched.{NamesLeaves};

use crate::job::{JobState, is_job, is_unfinished};
use crate::marking::{first_states, mark, parents_of};
use crate::readiness::is_ready;
use qna_base::Memory;
use series_tables::Plan;
use std::alloc::Global;
use std::marker::Model;

/// The jobs of a round, one for each touched item of a plan. Only `new` takes memory.
#[derive(Drop)]
pub struct PlanRound {
    parents: Vec<Option<u16>>,
    jobs: Vec<JobState>,
}

impl Model for PlanRound {
    ghost use Rattle.std.specs.Prelude.{◌≡◌, ◌≤◌, length};
    ghost use Rattle.dirty_plan.specs.Round.{RoundShape};

    ghost Value = { RoundShape };

    ghost view = { λ round. record { parents = round.parents.items; jobs = round.jobs.items } };

    ghost invariant = { λ round.
        (length round.parents.items ≡ length round.jobs.items)
        × (length round.jobs.items ≤ 512) };
}

impl PlanRound {
    /// The jobs of a round that begins, all waiting: the leaves with a flag and every item above one of them. There
    /// is one flag for each item, and only leaves have it set.
    pub fn new(alloc: Global, plan: &Plan, touched: &[bool]) -> Result<PlanRound, Memory>
        requires all { length touched.now ≡ length plan.now.names }
        requires leaves { NamesLeaves plan.now (has_flag touched.now) }
        ensures { IfOk result (λ round. round ≡ opened_round plan.now (has_flag touched.now)) }
    {
        let parents = parents_of(alloc, plan)?;
        let mut jobs = first_states(alloc, touched)?;
        for item in (0..plan.len()).rev() {
            if is_job(jobs[item as usize]) {
                mark(&mut jobs, plan.parent(item));
            }
        }
        Ok(PlanRound { parents, jobs })
    }

    /// How many jobs the round has, done or not.
    pub fn jobs(&self) -> u16
        ensures { result ≡ job_count self.now.jobs }
    {
        self.jobs.iter().filter(|state| is_job(**state)).count() as u16
    }

    /// Whether the item of a number has a job, done or not. A number that is no item's has none.
    pub fn has_job(&self, node: u16) -> bool
        ensures { result ≡ is_job_of (state_of self.now.jobs node) }
    {
        match self.jobs.get(node as usize) {
            Some(state) => is_job(*state),
            None => false,
        }
    }

    /// The least item whose job can be taken: it waits, and no child of the item has an unfinished job. None where
    /// there is no such job.
    pub fn ready(&self) -> Option<u16>
        ensures { let is_ready = is_ready_of self.now.parents self.now.jobs in
            IsLeast is_ready (length self.now.jobs) result }
    {
        for item in 0..self.jobs.len() {
            if is_ready(&self.parents, &self.jobs, item) {
                return Some(item as u16);
            }
        }
        None
    }

    /// Hands out a job that is ready.
    pub fn take(&mut self, node: u16)
        requires { IsTrue (is_ready_of self.old.parents self.old.jobs node) }
        ensures { self.new ≡ with_state self.old node JobState.Out }
    {
        self.jobs[node as usize] = JobState::Out;
    }

    /// Makes a job that is out one that is done.
    pub fn finish(&mut self, node: u16)
        requires { state_of self.old.jobs node ≡ JobState.Out }
        ensures { self.new ≡ with_state self.old node JobState.Done }
    {
        self.jobs[node as usize] = JobState::Done;
    }

    /// Makes a job that is out one that waits, to be handed out again.
    pub fn put_back(&mut self, node: u16)
        requires { state_of self.old.jobs node ≡ JobState.Out }
        ensures { self.new ≡ with_state self.old node JobState.Waiting }
    {
        self.jobs[node as usize] = JobState::Waiting;
    }

    /// Whether the job of a number is out. A number that is no item's has none.
    pub fn is_out(&self, node: u16) -> bool
        ensures { IsTrue result ↔ (state_of self.now.jobs node ≡ JobState.Out) }
    {
        match self.jobs.get(node as usize) {
            Some(JobState::Out) => true,
            _ => false,
        }
    }

    /// The least item whose job isn't done. None where all are.
    pub fn first_left(&self) -> Option<u16>
        ensures { IsLeast (is_left self.now.jobs) (length self.now.jobs) result }
    {
        for item in 0..self.jobs.len() {
            if is_unfinished(self.jobs[item]) {
                return Some(item as u16);
            }
        }
        None
    }
}
