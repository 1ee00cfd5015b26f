//! Compiling a job.

ghost use Rattle.std.specs.Prelude.{◌≡◌, ◌≤◌, ◌+◌, IfOk};
ghost use Rattle.std.specs.Arc.{arc_value};
ghost use Rattle.node_compile.specs.Table.{table_in};
ghost use Rattle.round_works.specs.Jobs.{IsEndOf};
ghost use Rattle.round_works.specs.Works.{most_steps_of, table_of_work, work_in};

use crate::work::{Compiled, Job, Work};
use node_compile::{NodeTable, compile_inner, compile_leaf};
use period_keys::Year;
use qna_base::{Memory, Steps};
use std::alloc::Global;
use std::sync::Arc;
use std::sync::ledger::Ledger;

/// What compiling a job comes to.
#[derive(Drop)]
pub enum CompileEnd {
    /// The job with its table.
    Compiled(Compiled),
    /// Want of memory, with the job itself.
    Memory(Job),
}

/// Makes the table of a job, beside the round that handed it out. A step is one joint of one sweep of the solver: a
/// leaf takes at most 192 a joint of its benchmarked years, an inner item none.
pub fn compile<L: Ledger>(alloc: Global, job: Job, steps: &mut Steps<L>) -> CompileEnd
    ensures end { IsEndOf job result }
    ensures steps { steps.new ≤ steps.old + most_steps_of (work_in job.work) }
{
    match shared_table(alloc, &job, steps) {
        Ok(table) => CompileEnd::Compiled(Compiled {
            front: job.front,
            node: job.node,
            reference: job.reference,
            work: job.work,
            table,
        }),
        Err(Memory) => CompileEnd::Memory(job),
    }
}

/// The table of a job, for several owners.
fn shared_table<L: Ledger>(
    alloc: Global,
    job: &Job,
    steps: &mut Steps<L>,
) -> Result<Arc<NodeTable>, Memory>
    ensures worth { IfOk result (λ table. table_in (arc_value table)
        ≡ table_of_work job.now.reference.0 (work_in job.now.work)) }
    ensures steps { steps.new ≤ steps.old + most_steps_of (work_in job.now.work) }
{
    let table = table_of(alloc, &job.work, job.reference, steps)?;
    Ok(Arc::new(alloc, table)?)
}

/// The table that a work is worth, chained from a reference year.
fn table_of<L: Ledger>(
    alloc: Global,
    work: &Work,
    reference: Year,
    steps: &mut Steps<L>,
) -> Result<NodeTable, Memory>
    ensures worth { IfOk result (λ table. table_in table
        ≡ table_of_work reference.0 (work_in work.now)) }
    ensures steps { steps.new ≤ steps.old + most_steps_of (work_in work.now) }
{
    match work {
        Work::Leaf(input) => compile_leaf(alloc, input, reference, steps),
        Work::Inner(sum) => compile_inner(alloc, sum, reference),
    }
}
