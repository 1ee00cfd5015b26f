//! What one leaf is compiled from.

ghost use Rattle.std.specs.Prelude.{◌≡◌, ◌≤◌, ◌/◌, vec_len, All};
ghost use Rattle.series_tables.specs.Ranges.{IsPositiveInRange, IsPositiveOrNone, IsBenchmarkOrNone};

/// A leaf's run of quarters from the start year's first on, with what else is known of them. The number of quarters is
/// that of the run: those before the first one without an indicator.
#[derive(Drop)]
pub struct LeafInput {
    /// The indicators of the run, each from 1 to 10^9.
    pub ind: Vec<u32>,
    /// For each quarter of the run its price from 1 to 10^9, or none.
    pub price: Vec<Option<u32>>,
    /// For each year with four quarters in the run its benchmark in whole currency units, from -10^12 to 10^12, or
    /// none.
    pub bench: Vec<Option<i64>>,
    ghost run: { vec_len ind ≤ 256 },
    ghost priced: { vec_len price ≡ vec_len ind },
    ghost benchmarked: { vec_len bench ≡ vec_len ind / 4 },
    ghost indicators: { All IsPositiveInRange ind.items },
    ghost prices: { All IsPositiveOrNone price.items },
    ghost benchmarks: { All IsBenchmarkOrNone bench.items },
}
