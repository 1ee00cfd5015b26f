//! The parties of an office: desks, each of which is answered line by line from its source into its sink, and workers,
//! which help to compile and to publish until no desk is open.
#![tactic(auto)]

mod answers;
mod desk;
mod laws;
mod lines;
mod parties;
mod service;
mod workers;

pub use desk::{DeskEnd, serve_desk};
pub use laws::{parts_stay, served_stays, sole_desk_sends};
pub use parties::{DeskEnds, Served, serve_parties};
pub use workers::work;

#[cfg(test)]
mod tests;
