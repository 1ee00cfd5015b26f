//! The years of a run of quarters.

ghost use Rattle.std.specs.Prelude.{◌≡◌, ◌≤◌, ◌+◌, ◌*◌, length, slice_index, EachIndex};
ghost use Rattle.denton_parts.specs.Year.{IsIndicator, IsBenchmark};
ghost use Rattle.denton_parts.specs.Years.{year_in, year_at};

use crate::year::YearPart;

/// The figures of a year of a run of quarters, the year counted from 0, with a benchmark.
pub fn part_at(ind: &[u32], year: u8, bench: i64) -> YearPart
    requires inside { 4 * year + 4 ≤ length ind.now }
    requires indicators { EachIndex ind.now (λ t. IsIndicator (slice_index ind.now t)) }
    requires benchmark { IsBenchmark bench }
    ensures { year_in year result ≡ year_at ind.now year bench }
{
    let first = first_quarter(year);
    YearPart::of(
        [ind[first], ind[first + 1], ind[first + 2], ind[first + 3]],
        bench,
    )
}

/// The first quarter of a year, both counted from 0.
pub fn first_quarter(year: u8) -> usize
    ensures { result ≡ 4 * year }
{
    4 * usize::from(year)
}
