//! The plan and the inputs of a trial: a large compilation that a few numbers fix.
#![tactic(auto)]

mod inputs;
mod plan;

pub use inputs::trial_inputs;
pub use plan::trial_plan;

#[cfg(test)]
mod tests;
