//! The compilation of accounts: the table of one leaf, of one inner item, and of all items of a plan.
#![tactic(auto)]

mod chaining;
mod inner;
mod laws;
mod leaf;
mod quarters;
mod release;
mod table;
mod years;

pub use inner::compile_inner;
pub use laws::figures_are_in_range;
pub use leaf::compile_leaf;
pub use release::{Release, compile_all};
pub use table::{LeafPart, NodeTable};
