//! Rounds that are run to their end in a row, by one holder of the core.

ghost use Rattle.std.specs.Prelude.{◌≡◌, ◌≤◌, ◌+◌, IfOk, OnErr, OnOk};
ghost use Rattle.accounts_core.specs.Finishing.{HasOnlyPublished, IsBack, IsFinished, IsRoundEnded, IsSameRound};
ghost use Rattle.accounts_core.specs.Finishing.{NoMoreOut, NoneLeft, NoneOut, RunsOne, jobs_now};
ghost use Rattle.accounts_core.specs.Finishing.{next_front, steps_ahead, steps_between, steps_left};
ghost use Rattle.accounts_core.specs.Finishing.{with_state_of, work_steps};
ghost use Rattle.accounts_core.specs.Run.{Reaches};
ghost use Rattle.accounts_core.specs.State.{IsOutNow, published as published_of};
ghost use Rattle.dirty_plan.specs.declared.job.JobState.TheVariants.{Done, Waiting};
ghost use Rattle.round_works.specs.Jobs.{job_in};

use crate::machine::Core;
use crate::replies::{Begin, Take};
use qna_base::{Memory, Steps};
use round_works::{CompileEnd, Job, compile};
use std::sync::ledger::Ledger;

impl Core {
    /// Publishes all that was accepted: the open round first, whose jobs that are out are treated as put back, and then
    /// one up to the last accepted input. The publications are of party 0. Where all is finished no memory can be
    /// wanted. After want of it the core is one to which its calls lead, no job is out that wasn't, and what is left
    /// can be finished later. A step is one joint of one sweep of the solver, by the counter that is lent.
    pub fn finish<L: Ledger>(&mut self, steps: &mut Steps<L>) -> Result<(), Memory>
        ensures reached { Reaches self.old self.new }
        ensures published { HasOnlyPublished 0 self.old self.new }
        ensures finished { OnOk result (IsFinished self.new) }
        ensures wanting { OnErr result (¬ IsFinished self.old) }
        ensures back { OnErr result (NoMoreOut (jobs_now self.old) (jobs_now self.new)) }
        ensures steps { steps.new ≤ steps.old + steps_ahead self.old }
    {
        finish_round(self, steps)?;
        finish_round(self, steps)
    }
}

/// Runs the open round to its end, or else one up to all that was accepted, if there is anything to compile.
fn finish_round<L: Ledger>(core: &mut Core, steps: &mut Steps<L>) -> Result<(), Memory>
    ensures reached { Reaches core.old core.new }
    ensures published { HasOnlyPublished 0 core.old core.new }
    ensures ended { OnOk result (IsRoundEnded core.old core.new) }
    ensures wanting { OnErr result (¬ IsFinished core.old) }
    ensures back { OnErr result (NoMoreOut (jobs_now core.old) (jobs_now core.new)) }
    ensures steps { steps.new ≤ steps.old
        + steps_between core.old (published_of core.old) (next_front core.old) }
{
    if let Begin::Nothing(_) = core.begin()? {
        return Ok(());
    }
    put_all_back(core)?;
    core.stays_sound();
    run_jobs(core, steps)?;
    core.publish(0);
    Ok(())
}

/// Puts each job back that is out.
fn put_all_back(core: &mut Core) -> Result<(), Memory>
    ensures reached { Reaches core.old core.new }
    ensures same { IsSameRound core.old core.new }
    ensures back { OnOk result (NoneOut (jobs_now core.new)) }
    ensures fewer { OnErr result (NoMoreOut (jobs_now core.old) (jobs_now core.new)) }
{
    for node in 0..core.plan().len() {
        put_one_back(core, node)?;
    }
    core.stays_sound();
    Ok(())
}

/// Puts an item's job back, if it is out.
fn put_one_back(core: &mut Core, node: u16) -> Result<(), Memory>
    ensures reached { Reaches core.old core.new }
    ensures same { IsSameRound core.old core.new }
    ensures back { OnOk result (IsBack node (jobs_now core.old) (jobs_now core.new)) }
    ensures kept { OnErr result (core.new ≡ core.old) }
{
    if let Some(job) = core.copy_out(node)? {
        core.put_back(job);
    }
    Ok(())
}

/// Takes, compiles and hands in one job after another, until none is left.
fn run_jobs<L: Ledger>(core: &mut Core, steps: &mut Steps<L>) -> Result<(), Memory>
    requires { NoneOut (jobs_now core.old) }
    ensures reached { Reaches core.old core.new }
    ensures same { IsSameRound core.old core.new }
    ensures done { OnOk result (NoneLeft (jobs_now core.new)) }
    ensures back { OnErr result (NoneOut (jobs_now core.new)) }
    ensures steps { steps.new ≤ steps.old + steps_left core.old }
{
    let mut more = true;
    while more {
        more = run_next(core, steps)?;
    }
    Ok(())
}

/// Takes a job that is ready, compiles it and hands it in. False where none is ready.
fn run_next<L: Ledger>(core: &mut Core, steps: &mut Steps<L>) -> Result<bool, Memory>
    ensures reached { Reaches core.old core.new }
    ensures same { IsSameRound core.old core.new }
    ensures run { IfOk result (λ more. RunsOne core.old more core.new steps.old steps.new) }
    ensures back { OnErr result (NoMoreOut (jobs_now core.old) (jobs_now core.new)) }
    ensures steps { steps.new ≤ steps.old + steps_left core.old }
{
    core.stays_sound();
    match core.take() {
        Take::NoneReady => Ok(false),
        Take::Job(job) => {
            run_job(core, job, steps)?;
            Ok(true)
        }
    }
}

/// Compiles a job that is out and hands in what is made of it, or puts it back for want of memory.
fn run_job<L: Ledger>(core: &mut Core, job: Job, steps: &mut Steps<L>) -> Result<(), Memory>
    requires { IsOutNow core.old (job_in job) }
    ensures reached { Reaches core.old core.new }
    ensures same { IsSameRound core.old core.new }
    ensures done { OnOk result (core.new ≡ with_state_of core.old job.node Done) }
    ensures back { OnErr result (core.new ≡ with_state_of core.old job.node Waiting) }
    ensures steps { steps.new ≤ steps.old + work_steps job }
{
    match compile(core.alloc(), job, steps) {
        CompileEnd::Compiled(made) => {
            core.done(made);
            Ok(())
        }
        CompileEnd::Memory(job) => {
            core.put_back(job);
            Err(Memory)
        }
    }
}
