//! What every release is worth, as a law.

ghost use Rattle.qna_laws.specs.Releases.{ReleasesAreCertified};

/// Law: whatever the plan and the text of inputs, in the compilation of the accepted inputs each leaf's quarters are
/// numbers that add up to the benchmarks sent last for its benchmarked years, no series that meets these benchmarks has
/// a sum of squared ratio changes smaller by more than the gap, the gap is at most the limit for the leaf's indicators,
/// and each item's chained volumes are the products of its own annual links up to the drift, with quarters that add up
/// to the level of a complete year.
pub fn releases_are_certified()
    ensures { ReleasesAreCertified }
{}
