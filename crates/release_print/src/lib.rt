//! The texts of a release, of a leaf's certificate and of a journal.
#![tactic(auto)]

mod certificate;
mod journal;
mod line;
mod release;

pub use certificate::print_cert;
pub use journal::print_journal;
pub use line::push_line;
pub use release::{cell_text, print_node, print_release};

#[cfg(test)]
mod tests;
