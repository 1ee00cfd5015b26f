//! The works with which a round opens.

ghost use Rattle.std.specs.Prelude.{◌≡◌, ◌<◌, List, Some, suc, length, IfOk};
ghost use Rattle.round_works.specs.Making.{IsPartWork, IsSumFrom};
ghost use Rattle.round_works.specs.Opening.{AreFirstWorks, CanBegin, CanShow, IsBeginning, IsFirstWork};
ghost use Rattle.round_works.specs.Opening.{IsOnePerItem, ShowsOthers, is_other_child as is_other_child_of};
ghost use Rattle.series_tables.specs.declared.input.Input.{Input};

use crate::work::Work;
use aggregate_tree::FlowSum;
use dirty_plan::PlanRound;
use node_compile::NodeTable;
use qna_base::Memory;
use series_tables::{Plan, Tables};
use std::alloc::Global;
use vintage_board::Board;

/// The quarters of a plan's 64 years.
const QUARTERS: u16 = 256;

/// The works with which a round opens, one for each item that has a job.
pub(crate) fn first_works(
    alloc: Global,
    plan: &Plan,
    tables: &Tables,
    jobs: &PlanRound,
    board: &Board<NodeTable>,
) -> Result<Vec<Option<Work>>, Memory>
    requires tables { tables.now.items ≡ length plan.now.names }
    requires shown { length board.now.shown ≡ length plan.now.names }
    requires inputs { CanBegin plan.now tables.now jobs.now.jobs board.now.shown }
    ensures all { IfOk result (λ works. IsOnePerItem plan.now (length works.items)) }
    ensures works { (inputs : List Input) →
        IsBeginning plan.now inputs tables.now jobs.now.jobs board.now.shown →
        IfOk result (λ works. AreFirstWorks plan.now inputs jobs.now.jobs works.items) }
{
    let mut works = Vec::with_capacity(alloc, plan.len() as usize)?;
    for item in 0..plan.len() {
        works.push(first_work(alloc, plan, tables, jobs, board, item)?)?;
    }
    Ok(works)
}

/// The work with which an item's job opens. None where it has no job.
fn first_work(
    alloc: Global,
    plan: &Plan,
    tables: &Tables,
    jobs: &PlanRound,
    board: &Board<NodeTable>,
    item: u16,
) -> Result<Option<Work>, Memory>
    requires item { item < length plan.now.names }
    requires tables { tables.now.items ≡ length plan.now.names }
    requires shown { length board.now.shown ≡ length plan.now.names }
    requires inputs { CanBegin plan.now tables.now jobs.now.jobs board.now.shown }
    ensures { (inputs : List Input) →
        IsBeginning plan.now inputs tables.now jobs.now.jobs board.now.shown →
        IfOk result (IsFirstWork plan.now inputs jobs.now.jobs item) }
{
    if jobs.has_job(item) {
        Ok(Some(work_of(alloc, plan, tables, jobs, board, item)?))
    } else {
        Ok(None)
    }
}

/// A leaf's inputs, or the sum of an inner item's children that have no job.
fn work_of(
    alloc: Global,
    plan: &Plan,
    tables: &Tables,
    jobs: &PlanRound,
    board: &Board<NodeTable>,
    item: u16,
) -> Result<Work, Memory>
    requires item { item < length plan.now.names }
    requires tables { tables.now.items ≡ length plan.now.names }
    requires shown { length board.now.shown ≡ length plan.now.names }
    requires inputs { CanBegin plan.now tables.now jobs.now.jobs board.now.shown }
    ensures { (inputs : List Input) →
        IsBeginning plan.now inputs tables.now jobs.now.jobs board.now.shown →
        IfOk result (λ work. IsPartWork plan.now inputs jobs.now.jobs item (Some work)) }
{
    if plan.is_leaf(item) {
        Ok(Work::Leaf(tables.leaf_input(item)?))
    } else {
        Ok(Work::Inner(sum_of_others(alloc, plan, jobs, board, item)?))
    }
}

/// The sum of an item's children that have no job, as the board shows them.
fn sum_of_others(
    alloc: Global,
    plan: &Plan,
    jobs: &PlanRound,
    board: &Board<NodeTable>,
    item: u16,
) -> Result<FlowSum, Memory>
    requires item { item < length plan.now.names }
    requires shown { length board.now.shown ≡ length plan.now.names }
    requires inputs { CanShow plan.now jobs.now.jobs board.now.shown }
    ensures { (inputs : List Input) → ShowsOthers plan.now inputs jobs.now.jobs board.now.shown →
        IfOk result (IsSumFrom plan.now inputs jobs.now.jobs item (suc item)) }
{
    let items = plan.len();
    let mut sum = FlowSum::new(alloc, QUARTERS)?;
    for child in (item + 1..items).rev() {
        if is_other_child(plan, jobs, item, child) {
            sum.add(&board.show(child).flows);
        }
    }
    Ok(sum)
}

/// Whether an item is a child of another and has no job.
fn is_other_child(plan: &Plan, jobs: &PlanRound, item: u16, child: u16) -> bool
    requires { child < length plan.now.names }
    ensures { result ≡ is_other_child_of plan.now jobs.now.jobs item child }
{
    match plan.parent(child) {
        Some(parent) => parent == item && !jobs.has_job(child),
        None => false,
    }
}
