// Whole numbers in fields.

ghost use Rattle.std.specs.Prelude.{◌≡◌, ◌≤◌, pos, ◌≤ℤ◌, ◌^◌, min, option_map};
ghost use Rattle.line_form.specs.Number.{magnitude_of, digits_from, number_of, cut_to};

/// Reads a whole number: a `-` or none, and one decimal digit or more, with leading zeros or none, and `-0` as 0.
///
/// `None` is the answer exactly where the field isn't spelled so. A number above `most` is cut to `most`, and one below
/// `-most` to `-most`, so a caller that asks for a bound above its own range sees each number outside it.
pub fn read_number(field: &[u8], most: i128) -> Option<i128>
    requires low { pos 0 ≤ℤ most }
    requires high { most ≤ℤ pos (10 ^ 37) }
    ensures { result ≡ option_map (cut_to most) (number_of field.now) }
{
    match field {
        [b'-', digits @ ..] => {
            let magnitude = read_magnitude(digits, most.unsigned_abs())?;
            Some(-(magnitude as i128))
        }
        _ => {
            let magnitude = read_magnitude(field, most.unsigned_abs())?;
            Some(magnitude as i128)
        }
    }
}

/// The number that one digit or more spells, or `most` where it is above that.
fn read_magnitude(digits: &[u8], most: u128) -> Option<u128>
    requires { most ≤ 10 ^ 37 }
    ensures value { result ≡ option_map (λ n. min n most) (magnitude_of digits.now) }
{
    if digits.is_empty() {
        return None;
    }
    let mut value = 0;
    for digit in digits {
        if !digit.is_ascii_digit() {
            return None;
        }
        value = most.min(10 * value + (*digit - b'0') as u128);
    }
    Some(value)
}
