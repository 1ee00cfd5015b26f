//! The event core of the accounts: inputs are accepted, rounds of jobs compile them, and releases are published. It is
//! a machine of steps without threads, which whoever holds it drives.
#![tactic(auto)]

mod finishing;
mod first;
mod laws;
mod machine;
mod replies;

pub use accounts_history::Entry;
pub use laws::untouched_items_keep_their_tables;
pub use machine::Core;
pub use replies::{Accept, Begin, Done, Publish, PutBack, Take};
pub use round_works::{CompileEnd, Compiled, Job, Work, compile};

#[cfg(test)]
mod tests;
