//! What the desks send, kept: the plan with its items, and tables with the last value of each kind, leaf and period.
#![tactic(auto)]

mod cause;
mod draft;
mod entry;
mod input;
mod item;
mod items;
mod laws;
mod leaf_input;
mod plan;
mod reading;
mod tables;

pub use cause::{PlanCause, PlanError};
pub use input::{Input, Kind};
pub use item::Item;
pub use laws::{last_values_go_on, spelled_plans_are_plans};
pub use leaf_input::LeafInput;
pub use plan::Plan;
pub use tables::Tables;
