//! One joint between two benchmarked years: its width, its weight, and how its multiplier moves.

ghost use Rattle.std.specs.Prelude.{◌≡◌, ◌≤◌, ◌<◌, ◌+◌, ◌*◌, ◌^◌, pos, ◌+ℤ◌, ◌-ℤ◌, ◌*ℤ◌, ◌≤ℤ◌, neg_ℤ, length};
ghost use Rattle.std.specs.Prelude.{unsigned_abs, slice_index};
ghost use Rattle.ratio_arith.specs.Division.{floor_of};
ghost use Rattle.denton_parts.specs.Year.{IsMultiplier, year_sum};
ghost use Rattle.denton_parts.specs.Years.{year_in, years_apart};
ghost use Rattle.denton_solve.specs.Conditions.{AreFew, AreWeights};
ghost use Rattle.denton_solve.specs.Sweeps.{thousandths, before_quarter, from_quarter, weight_behind, weight_ahead};
ghost use Rattle.denton_solve.specs.Sweeps.{cut_of};

use denton_parts::YearPart;
use ratio_arith::{ceil_div, floor_div};

const LEAST: i128 = -1_000_000_000_000_000;

const MOST: i128 = 1_000_000_000_000_000;

/// How many changes lead from the last quarter of a year to the first of the next benchmarked year, where so many years
/// between them miss a benchmark.
pub fn width(missing: u8) -> i128
    requires { missing ≤ 126 }
    ensures value { result ≡ pos (1 + 4 * missing) }
    ensures least { pos 1 ≤ℤ result }
    ensures most { result ≤ℤ pos 505 }
{
    1 + 4 * i128::from(missing)
}

/// Writes the weights of the joints, first to last.
pub fn weigh(parts: &[YearPart], miss: &[u8], out: &mut [i128])
    requires most { length parts.now ≤ 128 }
    requires between { length miss.now + 1 ≡ length parts.now }
    requires few { AreFew miss.now }
    requires room { length out.old ≡ length miss.now }
    ensures { AreWeights (years_apart 0 miss.now parts.now) out.new }
{
    for y in 0..miss.len() {
        out[y] = joined(width(miss[y]), behind(&parts[y]), ahead(&parts[y + 1]));
    }
}

// The weight of a joint: a thousand for each change that it spans, and the thousandths of the two years.
fn joined(width: i128, behind: i128, ahead: i128) -> i128
    requires least_width { pos 1 ≤ℤ width }
    requires most_width { width ≤ℤ pos 505 }
    requires behind { pos 0 ≤ℤ behind }
    requires ahead { pos 0 ≤ℤ ahead }
    requires behind_most { behind ≤ℤ pos 3000 }
    requires ahead_most { ahead ≤ℤ pos 3000 }
    ensures value { result ≡ pos 1000 *ℤ width +ℤ behind +ℤ ahead }
    ensures least { pos 1000 ≤ℤ result }
{
    let own = 1000 * width + behind;
    own + ahead
}

// The thousandths of the year before a joint.
fn behind(year: &YearPart) -> i128
    ensures value { result ≡ weight_behind (year_in 0 year.now) }
    ensures least { pos 0 ≤ℤ result }
    ensures most { result ≤ℤ pos 3000 }
{
    three(
        earlier(year, 1),
        earlier(year, 2),
        earlier(year, 3),
        year.sum,
    )
}

// The thousandths of the year after a joint.
fn ahead(next: &YearPart) -> i128
    ensures value { result ≡ weight_ahead (year_in 0 next.now) }
    ensures least { pos 0 ≤ℤ result }
    ensures most { result ≤ℤ pos 3000 }
{
    three(rest(next, 1), rest(next, 2), rest(next, 3), next.sum)
}

// The sum of the indicators of the year before quarter j.
fn earlier(year: &YearPart, j: usize) -> i128
    requires quarter { j < 4 }
    ensures value { result ≡ before_quarter (year_in 0 year.now) j }
    ensures least { pos 0 ≤ℤ result }
    ensures most { result ≤ℤ year.now.sum }
{
    year.before[j]
}

// The sum of the indicators of the year from quarter j on.
fn rest(year: &YearPart, j: usize) -> i128
    requires quarter { j < 4 }
    ensures value { result ≡ from_quarter (year_in 0 year.now) j }
    ensures least { pos 0 ≤ℤ result }
    ensures most { result ≤ℤ year.now.sum }
{
    year.sum - year.before[j]
}

// The squares of three parts over the square of their whole, each in thousandths and rounded up.
fn three(first: i128, second: i128, third: i128, whole: i128) -> i128
    requires positive { pos 1 ≤ℤ whole }
    requires small { whole ≤ℤ pos (4 * 10 ^ 9) }
    requires first { pos 0 ≤ℤ first }
    requires second { pos 0 ≤ℤ second }
    requires third { pos 0 ≤ℤ third }
    requires first_most { first ≤ℤ whole }
    requires second_most { second ≤ℤ whole }
    requires third_most { third ≤ℤ whole }
    ensures value { result ≡ thousandths first whole +ℤ thousandths second whole +ℤ thousandths third whole }
    ensures least { pos 0 ≤ℤ result }
    ensures most { result ≤ℤ pos 3000 }
{
    let one = share(first, whole);
    let two = one + share(second, whole);
    two + share(third, whole)
}

// The square of a part over the square of its whole, in thousandths and rounded up.
fn share(part: i128, whole: i128) -> i128
    requires positive { pos 1 ≤ℤ whole }
    requires small { whole ≤ℤ pos (4 * 10 ^ 9) }
    requires part { pos 0 ≤ℤ part }
    requires part_most { part ≤ℤ whole }
    ensures value { result ≡ thousandths part whole }
    ensures least { pos 0 ≤ℤ result }
    ensures most { result ≤ℤ pos 1000 }
{
    ceil_div(1000 * square(part), square(whole))
}

// A square.
fn square(a: i128) -> i128
    requires { unsigned_abs a ≤ 4 * 10 ^ 9 }
    ensures value { result ≡ a *ℤ a }
    ensures least { pos 0 ≤ℤ result }
    ensures most { result ≤ℤ pos (16 * 10 ^ 18) }
{
    a * a
}

/// A joint's multiplier after a sweep: moved by its residual over its weight, and cut to 10^15. `first` is the ratio
/// with which the year after the joint begins, `last` the one with which the year before it ends, and `width` says how
/// many changes lead from the one to the other.
pub fn moved(own: i128, width: i128, first: i128, last: i128, weight: i128) -> i128
    requires own { IsMultiplier own }
    requires least_width { pos 1 ≤ℤ width }
    requires most_width { width ≤ℤ pos 505 }
    requires first { unsigned_abs first ≤ 7 * 10 ^ 15 }
    requires last { unsigned_abs last ≤ 7 * 10 ^ 15 }
    requires weight { pos 1000 ≤ℤ weight }
    ensures value { let residual = first -ℤ last -ℤ width *ℤ own in
        result ≡ cut_of (own +ℤ floor_of (pos 1000 *ℤ residual) weight) }
{
    cut(
        own,
        small_floor(1000 * residual(own, width, first, last), weight),
    )
}

// How far the step of the ratio at the joint is from the multiplier at each change.
fn residual(own: i128, width: i128, first: i128, last: i128) -> i128
    requires own { IsMultiplier own }
    requires least_width { pos 1 ≤ℤ width }
    requires most_width { width ≤ℤ pos 505 }
    requires first { unsigned_abs first ≤ 7 * 10 ^ 15 }
    requires last { unsigned_abs last ≤ 7 * 10 ^ 15 }
    ensures value { result ≡ first -ℤ last -ℤ width *ℤ own }
    ensures size { unsigned_abs result ≤ 10 ^ 18 }
{
    let step = first - last;
    step - width * own
}

// The floor of a quotient whose numerator is small.
fn small_floor(n: i128, d: i128) -> i128
    requires positive { pos 1 ≤ℤ d }
    requires size { unsigned_abs n ≤ 10 ^ 21 }
    ensures value { result ≡ floor_of n d }
    ensures size { unsigned_abs result ≤ 10 ^ 21 }
{
    floor_div(n, d)
}

// A multiplier and its move, cut to 10^15 on either side.
fn cut(own: i128, step: i128) -> i128
    requires own { IsMultiplier own }
    requires step { unsigned_abs step ≤ 10 ^ 21 }
    ensures value { result ≡ cut_of (own +ℤ step) }
{
    let moved = own + step;
    moved.clamp(LEAST, MOST)
}
