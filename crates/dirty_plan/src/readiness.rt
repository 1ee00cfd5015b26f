//! Which jobs are ready.

ghost use Rattle.std.specs.Prelude.{◌≡◌, ◌<◌, ◌&&◌, length};
ghost use Rattle.dirty_plan.specs.Round.{has_unfinished_child as has_unfinished_child_of, is_ready as is_ready_of};
ghost use Rattle.dirty_plan.specs.Round.{is_unfinished as is_unfinished_of};
ghost use Rattle.series_tables.specs.Plan.{is_parent};

use crate::job::{JobState, is_unfinished};

/// Whether an item's job waits and no child of the item has an unfinished job.
pub(crate) fn is_ready(parents: &[Option<u16>], jobs: &[JobState], item: usize) -> bool
    requires all { length parents.now ≡ length jobs.now }
    requires within { item < length jobs.now }
    ensures { result ≡ is_ready_of parents.now jobs.now item }
{
    match jobs[item] {
        JobState::Waiting => !has_unfinished_child(parents, jobs, item),
        JobState::Clean | JobState::Out | JobState::Done => false,
    }
}

/// Whether some child of an item has an unfinished job.
fn has_unfinished_child(parents: &[Option<u16>], jobs: &[JobState], item: usize) -> bool
    requires all { length parents.now ≡ length jobs.now }
    requires within { item < length jobs.now }
    ensures { result ≡ has_unfinished_child_of parents.now jobs.now item }
{
    let mut found = false;
    for child in (item + 1..jobs.len()).rev() {
        found = is_unfinished_child(item, parents[child], jobs[child]) || found;
    }
    found
}

/// Whether an item with this parent and this state is a child of an item and has an unfinished job.
fn is_unfinished_child(item: usize, parent: Option<u16>, state: JobState) -> bool
    ensures { result ≡ (is_parent item parent && is_unfinished_of state) }
{
    match parent {
        Some(parent) => parent as usize == item && is_unfinished(state),
        None => false,
    }
}
