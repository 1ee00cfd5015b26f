//! Jobs, and what is made of them.

ghost use Rattle.std.specs.Prelude.{◌≡◌};
ghost use Rattle.std.specs.Arc.{arc_value};
ghost use Rattle.node_compile.specs.Table.{table_in};
ghost use Rattle.round_works.specs.Works.{table_of_work, work_in};

use aggregate_tree::FlowSum;
use node_compile::NodeTable;
use period_keys::Year;
use series_tables::LeafInput;
use std::sync::Arc;

/// What an item's table is made from.
#[derive(Drop)]
pub enum Work {
    /// A leaf's run of quarters, with the prices and benchmarks beside it.
    Leaf(LeafInput),
    /// The sum of an inner item's children.
    Inner(FlowSum),
}

/// The job of one item in a round: its table is to be made.
#[derive(Drop)]
pub struct Job {
    /// How many accepted inputs the round goes up to.
    pub front: u64,
    /// The number of the item.
    pub node: u16,
    /// The year from which the item's volumes are chained, counted from the plan's first.
    pub reference: Year,
    /// What the table is made from.
    pub work: Work,
}

/// A job with the table that its work is worth.
#[derive(Drop)]
pub struct Compiled {
    /// How many accepted inputs the round goes up to.
    pub front: u64,
    /// The number of the item.
    pub node: u16,
    /// The year from which the item's volumes are chained, counted from the plan's first.
    pub reference: Year,
    /// What the table is made from.
    pub work: Work,
    /// The table, which is what the work is worth.
    pub table: Arc<NodeTable>,
    pub ghost worth: { table_in (arc_value table) ≡ table_of_work reference.0 (work_in work) },
}
