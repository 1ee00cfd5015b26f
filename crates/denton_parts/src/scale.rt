//! The scale of benchmarked years.

ghost use Rattle.std.specs.Prelude.{◌≡◌, ◌≤◌, ◌<◌, ◌↔◌, ◌*◌, ◌^◌, ℕ, length, IsTrue, unsigned_abs, nat_le};
ghost use Rattle.std.specs.List.{list_all};
ghost use Rattle.denton_parts.specs.Scale.{fits_scale, scale_of_years};
ghost use Rattle.denton_parts.specs.Years.{year_in, Wherever};

use crate::year::YearPart;

/// The scale of the years, wherever they stand, as a power of ten: the greatest k from 0 to 15 at which each annual
/// ratio times 10^k is within 10^13.
pub fn scale_of(parts: &[YearPart]) -> u8
    requires some_year { 1 ≤ length parts.now }
    ensures value { Wherever parts.now (λ years. result ≡ scale_of_years years) }
    ensures most { result ≤ 15 }
    ensures fits { Wherever parts.now (λ years. IsTrue (list_all (fits_scale result) years)) }
    ensures greatest { (k : ℕ) → k ≤ 15 →
        Wherever parts.now (λ years. IsTrue (list_all (fits_scale k) years) → k ≤ result) }
{
    let mut scale = 15;
    while 0 < scale && !all_fit(parts, scale) {
        scale -= 1;
    }
    scale
}

// Whether each year fits the scale.
fn all_fit(parts: &[YearPart], scale: u8) -> bool
    requires { scale ≤ 15 }
    ensures { result ≡ list_all (λ part. fits_scale scale (year_in 0 part)) parts.now }
{
    parts.iter().all(|part| fits(part, scale))
}

// Whether the year's annual ratio fits the scale.
fn fits(part: &YearPart, scale: u8) -> bool
    requires { scale ≤ 15 }
    ensures { result ≡ fits_scale scale (year_in 0 part.now) }
{
    let ratio = 10_u128.pow(u32::from(scale)) * u128::from(part.bench.unsigned_abs());
    ratio <= 10_u128.pow(13) * part.sum.unsigned_abs()
}
