//! Tests of the crates that read and write texts, and of those at the program's edges.
//!
//! They stand apart, so that a crate is proved once and not once more for its tests.
#![tactic(auto)]

#[cfg(test)]
mod certificates;
#[cfg(test)]
mod edges;
#[cfg(test)]
mod judging;
#[cfg(test)]
mod lines;
#[cfg(test)]
mod periods;
#[cfg(test)]
mod plans;
#[cfg(test)]
mod words;
