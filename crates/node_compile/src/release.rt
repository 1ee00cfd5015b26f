//! The tables of all items of a plan.

ghost use Rattle.std.specs.Prelude.{◌≡◌, ◌≤◌, ◌<◌, ◌+◌, ◌*◌, true, false, not, suc, None, length, slice_index_or, IfOk};
ghost use Rattle.series_tables.specs.Cells.{cell};
ghost use Rattle.series_tables.specs.Plan.{is_parent, is_leaf};
ghost use Rattle.node_compile.specs.Items.{AreLastItems, AreLastFlows, AreChildSums, IsKnownOf, MakesItem, has_child};
ghost use Rattle.node_compile.specs.Laws.{MeetsItsBenchmarks, IsWithinItsGap, IsGapWithinLimit, IsTrulyChained};
ghost use Rattle.node_compile.specs.Release.{joints_of, most_steps, item_table, item_tables, tables_in, EachTable};
ghost use Rattle.node_compile.specs.Release.{Shows, IsCompiledFrom};
ghost use Rattle.node_compile.specs.Table.{node_tables, Makes};

use crate::inner::compile_inner;
use crate::leaf::compile_leaf;
use crate::table::NodeTable;
use aggregate_tree::FlowSum;
use qna_base::{Memory, Steps};
use series_tables::{Plan, Tables};
use std::alloc::Global;
use std::sync::Arc;
use std::sync::ledger::Ledger;

/// The quarters of a plan's 64 years.
const QUARTERS: u16 = 256;

/// The accounts as they stand after so many accepted inputs.
#[derive(Drop)]
pub struct Release {
    /// how many inputs were accepted
    pub front: u64,
    /// the table of each item, in the plan's order
    pub nodes: Vec<Arc<NodeTable>>,
}

/// Compiles every item of the plan from the tables, which are the plan's: each leaf from its last values alone, and
/// each inner item as the sum over the leaves under it, both chained from the plan's reference year. So the release is
/// the compilation from scratch of any inputs that have these last values. A leaf's values meet its benchmarks within
/// the gap, which is at most the limit for its indicators, and every item's chained volumes are the products of its
/// links up to the drift. `front` is passed on. A step is one joint of one sweep of the solver.
pub fn compile_all<L: Ledger>(
    alloc: Global,
    plan: &Plan,
    tables: &Tables,
    front: u64,
    steps: &mut Steps<L>,
) -> Result<Release, Memory>
    requires { tables.now.items ≡ length plan.now.names }
    ensures front { IfOk result (λ release. release.front ≡ front) }
    ensures nodes { Shows result (item_tables (cell tables.now) plan.now) }
    ensures items { IfOk result (λ release. length (tables_in release) ≡ length plan.now.names) }
    ensures compiled { IfOk result (IsCompiledFrom plan.now tables.now) }
    ensures meets { IfOk result (EachTable MeetsItsBenchmarks) }
    ensures within { IfOk result (EachTable IsWithinItsGap) }
    ensures limit { IfOk result (EachTable IsGapWithinLimit) }
    ensures chained { IfOk result (EachTable (IsTrulyChained plan.now.reference)) }
    ensures steps { steps.new ≤ steps.old + most_steps (cell tables.now) plan.now }
{
    let mut nodes = Vec::with_capacity(alloc, plan.len() as usize)?;
    for item in (0..plan.len()).rev() {
        let table = compile_item(alloc, plan, tables, item, &nodes, steps)?;
        nodes.push(Arc::new(alloc, table)?)?;
    }
    nodes.reverse();
    Ok(Release { front, nodes })
}

// The table of an item, given those of the items behind it, the last item's first.
fn compile_item<L: Ledger>(
    alloc: Global,
    plan: &Plan,
    tables: &Tables,
    item: u16,
    behind: &[Arc<NodeTable>],
    steps: &mut Steps<L>,
) -> Result<NodeTable, Memory>
    requires tables { tables.now.items ≡ length plan.now.names }
    requires parents { length plan.now.parents ≡ length plan.now.names }
    requires item { item < length plan.now.names }
    requires behind { AreLastItems (cell tables.now) plan.now (suc item) (node_tables behind.now) }
    ensures table { Makes result (item_table (cell tables.now) plan.now item) }
    ensures known { IfOk result (IsKnownOf plan.now item) }
    ensures steps { steps.new ≤ steps.old + 192 * joints_of (cell tables.now) plan.now item }
{
    if plan.is_leaf(item) {
        leaf_of_plan(alloc, plan, tables, item, steps)
    } else {
        inner_of_plan(alloc, plan, item, behind)
    }
}

// The table of a leaf.
fn leaf_of_plan<L: Ledger>(
    alloc: Global,
    plan: &Plan,
    tables: &Tables,
    item: u16,
    steps: &mut Steps<L>,
) -> Result<NodeTable, Memory>
    requires tables { item < tables.now.items }
    requires item { item < length plan.now.parents }
    requires leaf { is_leaf plan.now item ≡ true }
    ensures table { Makes result (item_table (cell tables.now) plan.now item) }
    ensures known { IfOk result (IsKnownOf plan.now item) }
    ensures steps { steps.new ≤ steps.old + 192 * joints_of (cell tables.now) plan.now item }
{
    let input = tables.leaf_input(item)?;
    compile_leaf(alloc, &input, plan.reference(), steps)
}

// The table of an inner item, given those of the items behind it, the last item's first.
fn inner_of_plan(
    alloc: Global,
    plan: &Plan,
    item: u16,
    behind: &[Arc<NodeTable>],
) -> Result<NodeTable, Memory>
    requires parents { length plan.now.parents ≡ length plan.now.names }
    requires inner { is_leaf plan.now item ≡ false }
    requires parent { not (has_child plan.now item) ≡ false }
    requires whole { suc item + length behind.now ≡ length plan.now.names }
    requires known { AreLastFlows plan.now behind.now }
    ensures table { MakesItem plan.now item behind.now result }
    ensures known { IfOk result (IsKnownOf plan.now item) }
{
    let sum = sum_of_children(alloc, plan, item, behind)?;
    compile_inner(alloc, &sum, plan.reference())
}

// The sum of an item's children, given the tables of the items behind it, the last item's first.
fn sum_of_children(
    alloc: Global,
    plan: &Plan,
    item: u16,
    behind: &[Arc<NodeTable>],
) -> Result<FlowSum, Memory>
    requires whole { suc item + length behind.now ≡ length plan.now.names }
    requires known { AreLastFlows plan.now behind.now }
    ensures { IfOk result (AreChildSums plan.now item behind.now) }
{
    let items = plan.len();
    let mut sum = FlowSum::new(alloc, QUARTERS)?;
    for place in 0..behind.len() {
        let child = items - 1 - place as u16;
        if is_child(plan, item, child) {
            sum.add(&behind[place].flows);
        }
    }
    Ok(sum)
}

// Whether an item has another as its parent.
fn is_child(plan: &Plan, item: u16, child: u16) -> bool
    requires { child < length plan.now.names }
    ensures { result ≡ is_parent item (slice_index_or plan.now.parents child None) }
{
    match plan.parent(child) {
        Some(parent) => parent == item,
        None => false,
    }
}
