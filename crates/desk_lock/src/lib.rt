//! A lock that keeps a book with a history, of which every pass knows a beginning.
//!
//! The parties that use the lock carry passes. A party enters with its pass, reads the book or adds one entry to it,
//! and leaves with a pass that has seen the whole list. All passes of a lock have seen beginnings of one history, and
//! once they are joined into one again, the closed book has every party's entries, each once and in order.
#![tactic(auto)]

mod desk;
mod held;
mod lends;
mod pass;
mod plays;
mod story;
#[cfg(test)]
mod tests;

pub use desk::{Desk, Refused2};
pub use held::Held;
pub use pass::Pass;
pub use story::Story;
