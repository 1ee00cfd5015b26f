//! Laws over the definitions. Each is the contract of a public function that does nothing, so whoever calls it knows
//! the law. A body that does nothing can't be turned wrong: what stands here is refused by its proof alone, and no edit
//! of it shows anything.
#![tactic(auto)]

mod certificates;
mod journals;
mod releases;
mod sweeps;

pub use certificates::{
    accepted_certificates_are_found_true, compiled_certificate_is_true,
    printed_certificate_is_read, printed_certificate_is_true,
};
pub use journals::{written_journals_are_read, written_journals_fix_what_was_accepted};
pub use releases::releases_are_certified;
pub use sweeps::sweeps_come_near;
