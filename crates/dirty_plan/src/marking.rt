//! Which items have a job in a round that begins.

ghost use Rattle.std.specs.Prelude.{◌≡◌, ◌<◌, length, map, IfOk};
ghost use Rattle.std.specs.Option.{ForSome};
ghost use Rattle.dirty_plan.specs.Round.{first_state as first_state_of, marked};

use crate::job::JobState;
use qna_base::Memory;
use series_tables::Plan;
use std::alloc::Global;

/// A job for each item with a flag.
pub(crate) fn first_states(alloc: Global, touched: &[bool]) -> Result<Vec<JobState>, Memory>
    ensures { IfOk result (λ jobs. jobs.items ≡ map first_state_of touched.now) }
{
    Ok(
        touched
            .iter()
            .map(|flag| first_state(*flag))
            .collect(alloc)?,
    )
}

/// Waiting, where there is a job.
fn first_state(touched: bool) -> JobState
    ensures { result ≡ first_state_of touched }
{
    if touched {
        JobState::Waiting
    } else {
        JobState::Clean
    }
}

/// A job for the parent too, where there is one.
pub(crate) fn mark(jobs: &mut [JobState], parent: Option<u16>)
    requires { ForSome parent (λ item. item < length jobs.old) }
    ensures { jobs.new ≡ marked parent jobs.old }
{
    if let Some(item) = parent {
        jobs[item as usize] = JobState::Waiting;
    }
}

/// The number of each item's parent, or none.
pub(crate) fn parents_of(alloc: Global, plan: &Plan) -> Result<Vec<Option<u16>>, Memory>
    ensures { IfOk result (λ parents. parents.items ≡ plan.now.parents) }
{
    let mut parents = Vec::with_capacity(alloc, plan.len() as usize)?;
    for item in 0..plan.len() {
        parents.push(plan.parent(item))?;
    }
    Ok(parents)
}
