//! Exact division of whole numbers: floor, ceiling, rounding with halves up, and products tested against a bound.
#![tactic(auto)]

ghost use Rattle.std.specs.Prelude.{◌≡◌, ◌↔◌, ◌≤◌, ◌^◌, ◌*◌, pos, negsuc, ◌-◌, ◌*ℤ◌, ◌≤ℤ◌, ◌<ℤ◌};
ghost use Rattle.std.specs.Prelude.{IsNone, IfSome, unsigned_abs};
ghost use Rattle.ratio_arith.specs.Division.{floor_of, ceil_of, round_of, IsFloor, IsCeiling, IsNearest};

/// The floor of `n / d`: the greatest whole number at most the quotient.
pub fn floor_div(n: i128, d: i128) -> i128
    requires positive { pos 0 <ℤ d }
    ensures value { result ≡ floor_of n d }
    ensures floor { IsFloor n d result }
{
    match (i64::try_from(n), i64::try_from(d)) {
        (Ok(narrow), Ok(by)) => i128::from(narrow.div_euclid(by)),
        _ => n.div_euclid(d),
    }
}

/// The ceiling of `n / d`: the least whole number at least the quotient.
pub fn ceil_div(n: i128, d: i128) -> i128
    requires positive { pos 0 <ℤ d }
    requires above_least { negsuc (2 ^ 127 - 1) <ℤ n }
    ensures value { result ≡ ceil_of n d }
    ensures ceiling { IsCeiling n d result }
{
    -floor_div(-n, d)
}

/// `n / d` rounded to the nearest whole number, halves up: the floor of `(2n + d) / (2d)`.
pub fn round_div(n: i128, d: i128) -> i128
    requires positive { pos 1 ≤ℤ d }
    requires divisor { d ≤ℤ pos (10 ^ 37) }
    requires size { unsigned_abs n ≤ 8 * 10 ^ 37 }
    ensures value { result ≡ round_of n d }
    ensures nearest { IsNearest n d result }
{
    floor_div(2 * n + d, 2 * d)
}

/// The product of `a` and `b`, or `None` exactly where its absolute value passes `bound`.
pub fn mul_within(a: i128, b: i128, bound: i128) -> Option<i128>
    requires bound { pos 0 ≤ℤ bound }
    ensures none { IsNone result ↔ (bound <ℤ pos (unsigned_abs (a *ℤ b))) }
    ensures product { IfSome result (λ product. product ≡ a *ℤ b) }
{
    let product = a.checked_mul(b)?;
    if bound.unsigned_abs() < product.unsigned_abs() {
        None
    } else {
        Some(product)
    }
}
