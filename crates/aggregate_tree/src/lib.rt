//! Sums of the children of an item, which are the sums over all leaves under it.
#![tactic(auto)]

mod laws;
mod sum;
mod tally;

pub use laws::{leaf_is_own_sum, sum_of_children_is_over_leaves};
pub use sum::FlowSum;

#[cfg(test)]
mod tests;
