//! A quotient between whole numbers.

ghost use Rattle.std.specs.Prelude.{◌≡◌, ◌≤◌, ◌^◌, pos, ◌*ℤ◌, ◌≤ℤ◌, unsigned_abs};
ghost use Rattle.ratio_arith.specs.Division.{floor_of, ceil_of};

use ratio_arith::floor_div;

/// The whole numbers next to a quotient: equal where the division leaves no remainder.
#[derive(Clone, Copy, Debug, PartialEq, Eq)]
pub struct Quotient {
    /// the greatest whole number at most the quotient
    pub floor: i128,
    /// the least whole number at least the quotient
    pub ceiling: i128,
}

/// The floor and the ceiling of `n / d`, by one division.
pub fn quotient_of(n: i128, d: i128) -> Quotient
    requires positive { pos 1 ≤ℤ d }
    requires divisor { d ≤ℤ pos (10 ^ 37) }
    requires size { unsigned_abs n ≤ 10 ^ 38 }
    ensures floor { result.floor ≡ floor_of n d }
    ensures ceiling { result.ceiling ≡ ceil_of n d }
{
    let floor = floor_div(n, d);
    let reached = d * floor;
    let ceiling = if reached < n { floor + 1 } else { floor };
    Quotient { floor, ceiling }
}
