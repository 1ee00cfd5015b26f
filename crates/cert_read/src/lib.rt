//! Reading of certificates' texts: the document that a text spells, or the first line at fault.
#![tactic(auto)]

mod document;
mod draft;
mod entry;
mod fault;
mod laws;
mod progress;
mod reading;

pub use fault::CertFault;
pub use laws::{cut_is_past_ranges, cutting_changes_nothing, read_is_spelled, spelled_is_read};
pub use reading::read_cert;
