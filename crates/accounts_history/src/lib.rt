//! The history of the accounts: the inputs that were accepted and the releases that were published, in order.
#![tactic(auto)]

mod entry;
mod laws;
mod naming;

pub use entry::Entry;
pub use laws::{
    beginnings_are_lawful, empty_histories_are_lawful, lawful_histories_are_within_bounds,
    lawful_histories_grow,
};
pub use naming::named_since;
