//! How the solver's sweeps come near, as a law.

ghost use Rattle.denton_solve.specs.Settling.{SweepsComeNear};

/// Law: a sweep of the solver over any benchmarked years brings two rows of multipliers nearer to one another, whatever
/// they are. Their greatest difference becomes at most 84 of 100 of what it was, and 15. So the multipliers after 192
/// sweeps hardly depend on those before the first.
pub fn sweeps_come_near()
    ensures { SweepsComeNear }
{}
