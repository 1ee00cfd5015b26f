//! One quarter's distance from the change that the multipliers give.

ghost use Rattle.std.specs.Prelude.{◌≡◌, ◌≤◌, ◌*◌, ◌^◌, max, pos, ◌-ℤ◌, ◌≤ℤ◌, unsigned_abs};

/// The square of the greater size of two numbers.
pub(crate) fn greater_square(low: i128, high: i128) -> i128
    requires low { unsigned_abs low ≤ 3 * 10 ^ 16 }
    requires high { unsigned_abs high ≤ 3 * 10 ^ 16 }
    ensures value { let distance = max (unsigned_abs low) (unsigned_abs high) in
        result ≡ pos (distance * distance) }
    ensures size { result ≤ℤ pos (10 ^ 33) }
{
    let distance = low.unsigned_abs().max(high.unsigned_abs());
    let square = distance * distance;
    square as i128
}

/// `a` less `b` and `c`.
pub(crate) fn less_both(a: i128, b: i128, c: i128) -> i128
    requires a { unsigned_abs a ≤ 10 ^ 16 }
    requires b { unsigned_abs b ≤ 10 ^ 16 }
    requires c { unsigned_abs c ≤ 10 ^ 15 }
    ensures value { result ≡ a -ℤ b -ℤ c }
    ensures size { unsigned_abs result ≤ 3 * 10 ^ 16 }
{
    let rest = a - b;
    rest - c
}
