//! The command `trial`: a large compilation that a few numbers fix, and what it comes to.
#![tactic(auto)]

mod figures;
mod report;
mod trial;

pub use trial::{run_trial, trials_complete};
