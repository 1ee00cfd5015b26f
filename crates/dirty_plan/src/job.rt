//! Where a job stands.

ghost use Rattle.std.specs.Prelude.{◌≡◌};
ghost use Rattle.dirty_plan.specs.Round.{is_job as is_job_of, is_unfinished as is_unfinished_of};

/// Where the job of an item stands in a round.
#[derive(Clone, Copy, Debug, PartialEq, Eq)]
pub enum JobState {
    /// The item isn't touched and has no job.
    Clean,
    /// The job wasn't handed out yet, or it was put back.
    Waiting,
    /// The job is handed out.
    Out,
    /// The job is done.
    Done,
}

/// Whether an item has a job.
pub(crate) fn is_job(state: JobState) -> bool
    ensures { result ≡ is_job_of state }
{
    match state {
        JobState::Clean => false,
        JobState::Waiting | JobState::Out | JobState::Done => true,
    }
}

/// Whether an item has a job that isn't done.
pub(crate) fn is_unfinished(state: JobState) -> bool
    ensures { result ≡ is_unfinished_of state }
{
    match state {
        JobState::Waiting | JobState::Out => true,
        JobState::Clean | JobState::Done => false,
    }
}
