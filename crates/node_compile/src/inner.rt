//! The table of one inner item.

ghost use Rattle.std.specs.Prelude.{List, None, map};
ghost use Rattle.std.specs.List.{All};
ghost use Rattle.aggregate_tree.specs.Leaves.{added, all_leaves, HasLeaf};
ghost use Rattle.aggregate_tree.specs.Tallies.{IsSumOf, cells_of};
ghost use Rattle.price_base.specs.declared.Cell.{Cell as CellOf};
ghost use Rattle.node_compile.specs.Leaf.{chained_table};
ghost use Rattle.node_compile.specs.Release.{inner_table};
ghost use Rattle.node_compile.specs.Table.{Makes};

use crate::chaining::chained;
use crate::table::NodeTable;
use aggregate_tree::FlowSum;
use period_keys::Year;
use qna_base::Memory;
use std::alloc::Global;

/// The table of an inner item, from the sum of its children: the cells of the sum, and their chain from `reference`,
/// which is counted from the first year. Where the sum is that of children each of which is the sum over the leaves
/// under it, the table is the one over all these leaves. Chained volumes aren't added up: the chain is that of the
/// item's own values and volumes.
pub fn compile_inner(alloc: Global, sum: &FlowSum, reference: Year) -> Result<NodeTable, Memory>
    ensures table { Makes result
        (chained_table None (cells_of sum.now.value) (cells_of sum.now.prev) reference.0) }
    ensures leaves { (values volumes : List (List (List CellOf))) →
        All HasLeaf values → All HasLeaf volumes →
        IsSumOf (map added values) sum.now.value → IsSumOf (map added volumes) sum.now.prev →
        Makes result (inner_table (all_leaves values) (all_leaves volumes) reference.0) }
{
    let flows = sum.flows()?;
    chained(alloc, None, flows, reference)
}
