//! The jobs of a round with what each is made from: works that are handed out, come back, or are done.
#![tactic(auto)]

mod compiling;
mod copying;
mod opening;
mod round;
mod sameness;
mod summing;
mod work;

pub use compiling::{CompileEnd, compile};
pub use round::OpenRound;
pub use work::{Compiled, Job, Work};

#[cfg(test)]
mod tests;
