//! The office: the event core of the accounts behind a lock, for desks and workers that share it. Each hold of the lock
//! is one event of the core, and jobs are compiled outside it.
#![tactic(auto)]

mod book;
mod closing;
mod helping;
mod holds;
mod office;
mod opening;
mod reading;
mod replies;
mod submitting;
#[cfg(test)]
mod tests;

pub use book::CoreBook;
pub use office::Office;
pub use replies::{Helped, Submitted};
