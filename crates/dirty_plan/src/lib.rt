//! A round's jobs: the leaves that new inputs name and every item above one of them, each with where its job stands.
#![tactic(auto)]

mod job;
mod laws;
mod marking;
mod readiness;
mod round;

pub use job::JobState;
pub use laws::{
    all_children_are_looked_at, items_are_touched_from_below,
    rounds_have_what_is_touched_between_fronts, touched_items_have_the_jobs,
};
pub use round::PlanRound;
