//! Tests of the crates that a round of works stands on.
//!
//! They stand apart, so that a crate is proved once and not once more for its tests.
#![tactic(auto)]

#[cfg(test)]
mod boards;
#[cfg(test)]
mod rounds;
