//! What the calls of an office answer.

/// What became of an input.
#[derive(Clone, Copy, Debug, PartialEq, Eq)]
pub enum Submitted {
    /// It was accepted, as the one with this number.
    Accepted(u64),
    /// 262,144 inputs are accepted, and no more will be.
    Full,
    /// Memory was wanted, and the input wasn't accepted.
    Memory,
}

/// What a party did to help.
#[derive(Clone, Copy, Debug, PartialEq, Eq)]
pub enum Helped {
    /// It compiled the job of this item.
    Compiled(u16),
    /// It published the release of this front.
    Published(u64),
    /// It opened a round up to this front, with so many jobs.
    Opened { front: u64, jobs: u16 },
    /// Nothing: every accepted input was published, up to this front.
    Quiet(u64),
    /// Nothing: there was no job to take when the party asked for one, and a round was open after that.
    Idle,
    /// Memory was wanted. A job that was taken for this call was put back.
    Memory,
}

/// What became of a job that was taken.
#[derive(Clone, Copy, Debug, PartialEq, Eq)]
pub(crate) enum Ran {
    /// Its table was made and kept.
    Finished,
    /// Its table was made, but the job isn't out any more, so the table was dropped.
    NotOut,
    /// Memory was wanted, and the job was put back.
    Wanting,
}
