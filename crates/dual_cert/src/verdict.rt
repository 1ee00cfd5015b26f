//! The verdict on a certificate.

ghost use Rattle.std.specs.Prelude.{◌≡◌, ◌≢◌, ◌↔◌, ◌≤◌, ◌<◌, ◌+◌, ◌*◌, ◌^◌, ℕ, ℤ, List, pos, ◌+ℤ◌, unsigned_abs};
ghost use Rattle.std.specs.Prelude.{slice_index, length, slice_index_or, IfOk, MatchOption, EachIndex};
ghost use Rattle.denton_parts.specs.Benchmarks.{MeetsBenchmarks, year_total};
ghost use Rattle.denton_parts.specs.Year.{IsIndicator, IsBenchmark};
ghost use Rattle.denton_parts.specs.Years.{ArePlaces, years_at, years_in};
ghost use Rattle.dual_cert.specs.Sums.{IsFirstMissed};
ghost use Rattle.dual_cert.specs.Verdict.{MeetsAll, IsFirstMissedYear, gap_of_document, IsWithinItsGap};

use crate::document::CertDoc;
use crate::gap::gap_of;
use denton_parts::{YearPart, first_quarter, part_at};
use qna_base::Memory;
use std::alloc::Global;

/// What a check of a certificate finds.
#[derive(Clone, Copy, Debug, PartialEq, Eq)]
pub enum Verdict {
    /// The series meets its benchmarks and the gap is the gap of its numbers: so no series that meets them is better by
    /// more than the gap.
    Yes,
    /// The quarters of this calendar year, the first such, don't add up to its benchmark.
    Sum(u16),
    /// The series meets its benchmarks, but the stated gap isn't the gap of its numbers.
    Gap {
        /// the gap that the certificate states
        said: i128,
        /// the gap of the certificate's own numbers
        found: i128,
    },
}

/// Checks a certificate on its own numbers alone. Where the answer is `Yes`, no series of fractions that meets the
/// certificate's benchmarks has a sum of squared ratio changes smaller than that of its series by more than its gap
/// over 10^(2 * scale), whatever multipliers it carries.
pub fn check(alloc: Global, doc: &CertDoc) -> Result<Verdict, Memory>
    ensures sum { IfOk result (λ verdict. (year : ℕ) →
        (verdict ≡ Verdict.Sum year) ↔ IsFirstMissedYear doc.now year) }
    ensures gap { IfOk result (λ verdict. (said found : ℤ) → (verdict ≡ Verdict.Gap said found)
        ↔ (MeetsAll doc.now × (said ≡ doc.now.gap) × (found ≡ gap_of_document doc.now)
        × (said ≢ found))) }
    ensures yes { IfOk result (λ verdict. (verdict ≡ Verdict.Yes)
        ↔ (MeetsAll doc.now × (doc.now.gap ≡ gap_of_document doc.now))) }
    ensures within { IfOk result (λ verdict. verdict ≡ Verdict.Yes → IsWithinItsGap doc.now) }
{
    if let Some(year) = first_missed(&doc.years, &doc.bench, &doc.x) {
        return Ok(Verdict::Sum(doc.start + u16::from(year)));
    }
    let parts = parts_of(alloc, &doc.ind, &doc.years, &doc.bench)?;
    let found = gap_of(&parts, &doc.years, doc.scale, &doc.u, &doc.ind, &doc.x);
    if found == doc.gap {
        Ok(Verdict::Yes)
    } else {
        Ok(Verdict::Gap {
            said: doc.gap,
            found,
        })
    }
}

// The first year whose quarters don't add up to its benchmark, the years counted from 0.
fn first_missed(years: &[u8], bench: &[i64], x: &[i128]) -> Option<u8>
    requires placed { length years.now ≡ length bench.now }
    requires whole_years { ArePlaces (length x.now) years.now }
    requires values { EachIndex x.now (λ t. unsigned_abs (slice_index_or x.now t (pos 0)) ≤ 10 ^ 25) }
    ensures { (ind : List ℕ) → let run = years_at ind years.now bench.now in
        MatchOption result (MeetsBenchmarks run (pos 1) x.now) (IsFirstMissed run x.now) }
{
    for y in 0..years.len() {
        if year_sum(x, years[y]) != i128::from(bench[y]) {
            return Some(years[y]);
        }
    }
    None
}

// The sum of a year's four quarters.
fn year_sum(x: &[i128], year: u8) -> i128
    requires inside { 4 * year + 4 ≤ length x.now }
    requires values { EachIndex x.now (λ t. unsigned_abs (slice_index_or x.now t (pos 0)) ≤ 10 ^ 25) }
    ensures { result ≡ year_total x.now year }
{
    let first = first_quarter(year);
    sum_of_four(x[first], x[first + 1], x[first + 2], x[first + 3])
}

// The sum of four numbers.
fn sum_of_four(a: i128, b: i128, c: i128, d: i128) -> i128
    requires a { unsigned_abs a ≤ 10 ^ 25 }
    requires b { unsigned_abs b ≤ 10 ^ 25 }
    requires c { unsigned_abs c ≤ 10 ^ 25 }
    requires d { unsigned_abs d ≤ 10 ^ 25 }
    ensures { result ≡ a +ℤ b +ℤ c +ℤ d }
{
    let two = a + b;
    let three = two + c;
    three + d
}

// The figures of the benchmarked years of a run of quarters.
fn parts_of(
    alloc: Global,
    ind: &[u32],
    years: &[u8],
    bench: &[i64],
) -> Result<Vec<YearPart>, Memory>
    requires placed { length years.now ≡ length bench.now }
    requires whole_years { ArePlaces (length ind.now) years.now }
    requires indicators { EachIndex ind.now (λ t. IsIndicator (slice_index ind.now t)) }
    requires benchmarks { EachIndex bench.now (λ y.
        IsBenchmark (slice_index_or bench.now y (pos 0))) }
    ensures count { IfOk result (λ parts. length parts.items ≡ length bench.now) }
    ensures years { IfOk result (λ parts.
        years_in years.now parts.items ≡ years_at ind.now years.now bench.now) }
{
    let mut parts = Vec::with_capacity(alloc, bench.len())?;
    for y in 0..bench.len() {
        parts.push(part_at(ind, years[y], bench[y]))?;
    }
    Ok(parts)
}
