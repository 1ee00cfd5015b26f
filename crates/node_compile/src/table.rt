//! One item's table.

ghost use Rattle.std.specs.Prelude.{◌≤◌, length};
ghost use Rattle.node_compile.specs.Shape.{IsBenchmarkedPart, IsChainShaped};

use annual_overlap::ChainTable;
use dual_cert::Cert;
use price_base::NodeFlows;

/// What stands behind the values of a leaf that has a benchmarked year.
#[derive(Debug, Drop)]
pub struct LeafPart {
    /// the indicators of the run of quarters, each from 1 to 10^9
    pub ind: Vec<u32>,
    /// the benchmarked years, counted from 0 at the first year and rising, each with its four quarters
    pub years: Vec<u8>,
    /// their benchmarks in whole currency units, each within 10^12
    pub bench: Vec<i64>,
    /// the scale, the multipliers between each benchmarked year and the next, and the gap of the values
    pub cert: Cert,
}

/// An item's table: its figures quarter by quarter, of at most 512 quarters, their chain, and what stands behind a
/// leaf's values.
#[derive(Debug, Drop)]
pub struct NodeTable {
    /// none for an inner item, and for a leaf without a benchmarked year, all of whose values are then missing
    pub leaf: Option<LeafPart>,
    /// the values, and the volumes at previous-year prices, of the quarters from the start year's first on
    pub flows: NodeFlows,
    /// the chain of these values and volumes: the figures of the years that have a quarter, and the chained volumes of
    /// years and quarters
    pub chain: ChainTable,
    pub ghost few: { length flows.value ≤ 512 },
    pub ghost shaped: { IsChainShaped chain (length flows.value) },
    pub ghost benchmarked: { IsBenchmarkedPart leaf flows.value },
}
