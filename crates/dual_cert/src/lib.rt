//! Certificates of benchmarked series. A certificate carries a series, the multipliers that a solver found, and a gap.
//! Whoever trusts neither the solver nor the office can check it: weak duality, which holds for any multipliers, shows
//! that no series that meets the same benchmarks has a sum of squared ratio changes smaller by more than the gap.
#![tactic(auto)]

mod certificate;
mod distance;
mod document;
mod gap;
mod verdict;

ghost use Rattle.dual_cert.specs.Laws.{GapBoundsAll};

pub use certificate::Cert;
pub use document::CertDoc;
pub use gap::gap_of;
pub use verdict::{Verdict, check};

/// Weak duality, as a law: whatever the multipliers, a series that meets its benchmarks is within its gap of every
/// other series that meets them.
#[tactic(auto, using(crate::proofs::Whole::within_gap))]
pub fn weak_duality()
    ensures { GapBoundsAll }
{}
