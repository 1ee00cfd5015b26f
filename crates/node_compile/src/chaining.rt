//! What every item's table has: its flows and their chain.

ghost use Rattle.std.specs.Prelude.{◌≤◌, ◌*◌, ◌^◌, length, All};
ghost use Rattle.annual_overlap.specs.Years.{IsSizedCell};
ghost use Rattle.node_compile.specs.Leaf.{chained_table};
ghost use Rattle.node_compile.specs.Shape.{IsBenchmarkedPart};
ghost use Rattle.node_compile.specs.Table.{leaf_in, Makes};

use crate::table::{LeafPart, NodeTable};
use annual_overlap::chain;
use period_keys::Year;
use price_base::NodeFlows;
use qna_base::Memory;
use std::alloc::Global;

/// The table of these flows, with their chain from a reference year, which is counted from the first year.
pub(crate) fn chained(
    alloc: Global,
    leaf: Option<LeafPart>,
    flows: NodeFlows,
    reference: Year,
) -> Result<NodeTable, Memory>
    requires few { length flows.value ≤ 512 }
    requires values { All (IsSizedCell (10 ^ 27)) flows.value }
    requires volumes { All (IsSizedCell (512 * 10 ^ 15)) flows.prev }
    requires benchmarked { IsBenchmarkedPart leaf flows.value }
    ensures { Makes result (chained_table (leaf_in leaf) flows.value flows.prev reference.0) }
{
    let chain = chain(alloc, &flows, reference)?;
    Ok(NodeTable { leaf, flows, chain })
}
