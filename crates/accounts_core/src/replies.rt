//! What the calls of the core answer.

use round_works::{Compiled, Job};

/// The answer to an input.
#[derive(Clone, Copy, Debug, PartialEq, Eq)]
pub enum Accept {
    /// 262,144 inputs are accepted, and the journal takes no more.
    Full,
    /// The journal is 1,024 inputs ahead of the published release, and takes no more until another is published.
    Behind { accepted: u64, published: u64 },
    /// The input is accepted, as the one with this number.
    Number(u64),
}

/// The answer to the wish for a round.
#[derive(Clone, Copy, Debug, PartialEq, Eq)]
pub enum Begin {
    /// A round up to this front is open.
    RoundOpen(u64),
    /// No round is open, and nothing was accepted since this front.
    Nothing(u64),
    /// A round up to all that was accepted is open now, with so many jobs.
    Opened { front: u64, jobs: u16 },
}

/// The answer to the wish for a job.
#[derive(Drop)]
pub enum Take {
    /// No round is open, or no job is ready.
    NoneReady,
    /// A job that was ready. It is out from now on.
    Job(Job),
}

/// The answer to what was made of a job.
#[derive(Drop)]
pub enum Done {
    /// No such job is out.
    NotOut(Compiled),
    /// The table is kept, and the job is done.
    Kept,
}

/// The answer to a job that comes back.
#[derive(Drop)]
pub enum PutBack {
    /// No such job is out.
    NotOut(Job),
    /// The job waits again.
    Kept,
}

/// The answer to the wish to publish.
#[derive(Clone, Copy, Debug, PartialEq, Eq)]
pub enum Publish {
    /// No round is open.
    NoRound,
    /// This is the least item whose job isn't done.
    Waiting(u16),
    /// The release up to this front is published now.
    Published(u64),
}
