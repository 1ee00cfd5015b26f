//! The figures of one benchmarked year.

ghost use Rattle.std.specs.Prelude.{◌≡◌, ◌≤◌, ◌<◌, ◌*◌, ◌^◌, pos, map};
ghost use Rattle.denton_parts.specs.Year.{AreIndicators, IsBenchmark, sums_before, year_sum};

/// The figures of one benchmarked year, wherever it stands. Its numbers are in range and its sums are those of its
/// indicators.
#[derive(Clone, Copy, Debug, PartialEq, Eq)]
pub struct YearPart {
    /// the four quarters' indicators, each from 1 to 10^9
    pub ind: [u32; 4],
    /// for each quarter, the sum of the year's indicators before it
    pub before: [i128; 4],
    /// the sum of the four indicators
    pub sum: i128,
    /// the year's benchmark in whole currency units, within 10^12
    pub bench: i64,
    pub ghost sums: { before ≡ map pos (sums_before ind) },
    pub ghost total: { sum ≡ pos (year_sum ind) },
    pub ghost indicators: { AreIndicators ind },
    pub ghost benchmark: { IsBenchmark bench },
}

impl YearPart {
    /// The year with these indicators and this benchmark.
    pub fn of(ind: [u32; 4], bench: i64) -> YearPart
        requires indicators { AreIndicators ind }
        requires benchmark { IsBenchmark bench }
        ensures indicators { result.ind ≡ ind }
        ensures benchmark { result.bench ≡ bench }
    {
        let [first, second, third, fourth] = ind;
        let first = i128::from(first);
        let two = first + i128::from(second);
        let three = two + i128::from(third);
        YearPart {
            ind,
            before: [0, first, two, three],
            sum: three + i128::from(fourth),
            bench,
        }
    }
}
