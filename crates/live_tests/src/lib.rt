//! Tests of the command `live` at the edges of its devices, of its lines and of its plans.
//!
//! They stand apart, so that the command is proved once and not once more for its tests.
#![tactic(auto)]

#[cfg(test)]
mod devices;
#[cfg(test)]
mod limits;
#[cfg(test)]
mod lines;
#[cfg(test)]
mod serving;
