//! A board of published tables: they are staged one by one and shown together.
#![tactic(auto)]

mod board;

pub use board::Board;
