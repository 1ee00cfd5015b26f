//! The words of a command, read by `clap`: what `batch`, `check`, `live` and `trial` say, if they have the form.
#![tactic(auto)]

mod batch;
mod live;
mod names;
mod texts;
mod trial;
mod words;

pub use batch::{BatchWords, batch_words, check_words};
pub use live::{DeskNames, LiveWords, live_words};
pub use trial::{TrialWords, trial_words};
pub use words::{PlainWords, plain_words};
