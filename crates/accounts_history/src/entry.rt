//! The entries of a history.

use series_tables::Input;

/// One entry of the history of the accounts. Its party is the number of the desk or worker that made it.
#[derive(Clone, Copy, Debug, PartialEq, Eq)]
pub enum Entry {
    /// An input of a desk was accepted.
    Accept { party: u16, input: Input },
    /// The release of the first so many accepted inputs, its front, was published after a round with so many jobs.
    Publish { party: u16, front: u64, jobs: u16 },
}
