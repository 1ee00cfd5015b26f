//! One sweep over the joints.

ghost use Rattle.std.specs.Prelude.{◌≡◌, ◌⊎◌, ◌↔◌, ◌≤◌, ◌<◌, ◌+◌, ◌*◌, ◌^◌, pos, ◌≤ℤ◌, length, drop, slice_index_or};
ghost use Rattle.std.specs.Prelude.{unsigned_abs, IsTrue};
ghost use Rattle.denton_parts.specs.Level.{ratio_floor};
ghost use Rattle.denton_parts.specs.declared.year.YearPart.{YearPart};
ghost use Rattle.denton_parts.specs.Year.{IsMultiplier};
ghost use Rattle.denton_parts.specs.Years.{year_in, years_apart};
ghost use Rattle.denton_solve.specs.Conditions.{AreFew, AreMultipliers, AreScaled, AreWeights, IsScaled};
ghost use Rattle.denton_solve.specs.Sweeps.{first_of, sweep_of};

use crate::joint::{moved, width};
use denton_parts::{Ends, YearPart, ends_of};
use qna_base::Steps;
use std::sync::ledger::Ledger;

/// Writes into `into` what one sweep makes of the multipliers `from`, and answers whether they are those multipliers,
/// or what stood there before.
pub fn sweep<L: Ledger>(
    parts: &[YearPart],
    miss: &[u8],
    scale: u8,
    weights: &[i128],
    from: &[i128],
    into: &mut [i128],
    steps: &mut Steps<L>,
) -> bool
    requires joints { length from.now + 1 ≡ length parts.now }
    requires most { length parts.now ≤ 128 }
    requires between { length miss.now ≡ length from.now }
    requires few { AreFew miss.now }
    requires room { length into.old ≡ length from.now }
    requires scale { scale ≤ 15 }
    requires scaled { AreScaled scale (years_apart 0 miss.now parts.now) }
    requires weights { AreWeights (years_apart 0 miss.now parts.now) weights.now }
    requires sizes { AreMultipliers from.now }
    ensures value { into.new ≡ sweep_of scale (years_apart 0 miss.now parts.now) from.now }
    ensures steps { steps.new ≡ steps.old + length from.now }
    ensures back { IsTrue result → (into.new ≡ from.now) ⊎ (into.new ≡ into.old) }
    ensures still { into.new ≡ from.now → IsTrue result }
{
    let mut still = true;
    let mut back = true;
    let mut last = ends_at(parts, scale, from, 0, 0).last;
    for y in 0..from.len() {
        steps.tick();
        let own = multiplier_at(from, y);
        let next = ends_at(parts, scale, from, y + 1, own);
        let after = moved(own, width(miss[y]), next.first, last, weights[y]);
        still = kept(still, after, own);
        back = kept(back, after, into[y]);
        into[y] = after;
        last = next.last;
    }
    still || back
}

// The ratios with which a year begins and ends, between the multiplier `left` before it and the one at its own place.
fn ends_at(parts: &[YearPart], scale: u8, from: &[i128], y: usize, left: i128) -> Ends
    requires inside { y < length parts.now }
    requires scale { scale ≤ 15 }
    requires scaled { (other : YearPart) →
        IsScaled scale (year_in 0 (slice_index_or parts.now y other)) }
    requires sizes { AreMultipliers from.now }
    requires left { IsMultiplier left }
    ensures first { (other : YearPart) → let year = year_in 0 (slice_index_or parts.now y other) in
        result.first ≡ ratio_floor scale year left (first_of (drop y from.now)) 0 }
    ensures last { (other : YearPart) → let year = year_in 0 (slice_index_or parts.now y other) in
        result.last ≡ ratio_floor scale year left (first_of (drop y from.now)) 3 }
    ensures first_size { unsigned_abs result.first ≤ 7 * 10 ^ 15 }
    ensures last_size { unsigned_abs result.last ≤ 7 * 10 ^ 15 }
{
    ends_of(&parts[y], scale, left, multiplier_at(from, y))
}

// Whether all was the same so far, and this number is.
fn kept(same: bool, after: i128, before: i128) -> bool
    ensures { IsTrue result ↔ (IsTrue same × (after ≡ before)) }
{
    same && after == before
}

/// The multiplier at a joint, 0 past the last.
pub fn multiplier_at(u: &[i128], y: usize) -> i128
    requires sizes { AreMultipliers u.now }
    ensures value { result ≡ first_of (drop y u.now) }
    ensures size { IsMultiplier result }
{
    if y < u.len() { u[y] } else { 0 }
}
