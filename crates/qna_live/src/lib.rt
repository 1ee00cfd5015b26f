//! The command `live`: desks and workers over one journal.
#![tactic(auto)]

mod laws;
mod live;
mod opening;
mod serving;

pub use laws::{
    journals_are_certified, lives_complete, lives_have_causes, one_desk_batches, one_desk_sends,
};
pub use live::run_live;
