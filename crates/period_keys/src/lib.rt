//! Quarters and years of accounts: places counted from a plan's start year, read from their texts and written back.
#![tactic(auto)]

ghost use Rattle.std.specs.Prelude.{◌≡◌, ◌≤◌, ◌<◌, ◌+◌, ◌-◌, ◌↔◌, ◌++◌, [], ◌∷◌, ℕ, false, if◌then◌else◌, IfSome};
ghost use Rattle.std.specs.Prelude.{IsSomeAnd, OnOk, OnErr};
ghost use Rattle.period_keys.specs.Period.{Named, year_of, number_of, quarter_of, is_within, year_from, quarter_from};
ghost use Rattle.period_keys.specs.Period.{year_text, quarter_text, year_at, quarter_at};

use qna_base::Memory;
use thiserror::Error;

/// How many years a plan has, its start year among them.
pub const YEARS: u16 = 64;

/// A quarter, counted from the first quarter of the start year, from 0.
#[derive(Clone, Copy, Debug, PartialEq, Eq, PartialOrd, Ord)]
pub struct Quarter(pub u16);

/// A year, counted from the start year, from 0.
#[derive(Clone, Copy, Debug, PartialEq, Eq, PartialOrd, Ord)]
pub struct Year(pub u16);

/// Why a text is read as no period.
#[derive(Clone, Copy, Debug, PartialEq, Eq, Drop, Error)]
pub enum PeriodFault {
    /// The text isn't spelled as a year, or as a quarter.
    #[error("the text is not spelled as a period")]
    Form,
    /// The text is a period's, and its year isn't one of the 64 from the start year.
    #[error("the year is not one of the 64 from the start year")]
    Range,
}

/// Reads a quarter: a year of four digits, a hyphen or none, the letter `Q` or `q`, and a digit from 1 to 4.
///
/// `Form` is the answer exactly where the text isn't spelled so, and `Range` exactly where it is and its year isn't
/// one of the 64 from `start`. The spelling is this product's own.
pub fn read_quarter(field: &[u8], start: u16) -> Result<Quarter, PeriodFault>
    ensures read { result ≡ quarter_from start (quarter_of field.now) }
    ensures form { (result ≡ Err PeriodFault.Form) ↔ (quarter_of field.now ≡ None) }
    ensures range { (result ≡ Err PeriodFault.Range)
        ↔ IsSomeAnd (quarter_of field.now) (λ q. is_within start q.year ≡ false) }
{
    let (year, number) = match *field {
        [a, b, c, d, letter, digit] => (year_number(a, b, c, d), quarter_number(letter, digit)),
        [a, b, c, d, b'-', letter, digit] => {
            (year_number(a, b, c, d), quarter_number(letter, digit))
        }
        _ => (None, None),
    };
    match (year, number) {
        (Some(year), Some(number)) => {
            let years = years_from(year, start)?;
            Ok(Quarter(4 * years + (number - 1)))
        }
        _ => Err(PeriodFault::Form),
    }
}

/// Reads a year: four digits.
///
/// `Form` is the answer exactly where the text isn't spelled so, and `Range` exactly where it is and the year isn't
/// one of the 64 from `start`. The spelling is this product's own.
pub fn read_year(field: &[u8], start: u16) -> Result<Year, PeriodFault>
    ensures read { result ≡ year_from start (year_of field.now) }
    ensures form { (result ≡ Err PeriodFault.Form) ↔ (year_of field.now ≡ None) }
    ensures range { (result ≡ Err PeriodFault.Range)
        ↔ IsSomeAnd (year_of field.now) (λ y. is_within start y ≡ false) }
{
    match calendar_year(field) {
        Some(year) => Ok(Year(years_from(year, start)?)),
        None => Err(PeriodFault::Form),
    }
}

/// The calendar year that four digits spell, or none where the text isn't four digits.
pub fn calendar_year(field: &[u8]) -> Option<u16>
    ensures year { result ≡ year_of field.now }
    ensures size { IfSome result (λ year. year < 10000) }
{
    match *field {
        [a, b, c, d] => year_number(a, b, c, d),
        _ => None,
    }
}

/// Appends a quarter's canonical text, as `2021Q1`. Want of memory leaves `out` as it was.
pub fn write_quarter(q: Quarter, start: u16, out: &mut Vec<u8>) -> Result<(), Memory>
    requires first { 1900 ≤ start }
    requires last { start ≤ 2200 }
    requires within { q.0 < 256 }
    ensures text { OnOk result (out.new.items
        ≡ out.old.items ++ quarter_text (quarter_at start q)) }
    ensures again { quarter_from start (quarter_of (quarter_text (quarter_at start q))) ≡ Ok q }
    ensures unchanged { OnErr result (out.new.items ≡ out.old.items) }
{
    let [a, b, c, d] = year_digits(start + q.0 / 4);
    let number = b'1' + (q.0 % 4) as u8;
    out.extend_from_slice(&[a, b, c, d, b'Q', number])?;
    Ok(())
}

/// Appends a year's canonical text, four digits. Want of memory leaves `out` as it was.
pub fn write_year(y: Year, start: u16, out: &mut Vec<u8>) -> Result<(), Memory>
    requires first { 1900 ≤ start }
    requires last { start ≤ 2200 }
    requires within { y.0 < 64 }
    ensures text { OnOk result (out.new.items ≡ out.old.items ++ year_text (year_at start y)) }
    ensures again { year_from start (year_of (year_text (year_at start y))) ≡ Ok y }
    ensures unchanged { OnErr result (out.new.items ≡ out.old.items) }
{
    out.extend_from_slice(&year_digits(start + y.0))?;
    Ok(())
}

/// What is written for a period is read again as the same period, for each year of four digits.
pub fn written_is_read()
    ensures year { (y : ℕ) → y < 10000 → year_of (year_text y) ≡ Some y }
    ensures quarter { (q : Named) → q.year < 10000 → 1 ≤ q.number → q.number ≤ 4 →
        quarter_of (quarter_text q) ≡ Some q }
{}

/// The number that four digits spell, where they are digits.
fn year_number(a: u8, b: u8, c: u8, d: u8) -> Option<u16>
    ensures year { result ≡ year_of (a ∷ b ∷ c ∷ d ∷ []) }
    ensures size { IfSome result (λ year. year < 10000) }
{
    if a.is_ascii_digit() && b.is_ascii_digit() && c.is_ascii_digit() && d.is_ascii_digit() {
        Some(
            1000 * (a - b'0') as u16
                + 100 * (b - b'0') as u16
                + 10 * (c - b'0') as u16
                + (d - b'0') as u16,
        )
    } else {
        None
    }
}

/// The number of a quarter in its year, from 1 to 4.
fn quarter_number(letter: u8, digit: u8) -> Option<u16>
    ensures { result ≡ number_of letter digit }
{
    if (letter == b'Q' || letter == b'q') && digit >= b'1' && digit <= b'4' {
        Some((digit - b'0') as u16)
    } else {
        None
    }
}

/// How many years lie between the start year and one of the 64 from it.
fn years_from(year: u16, start: u16) -> Result<u16, PeriodFault>
    ensures { result ≡ (if is_within start year then Ok (year - start) else Err PeriodFault.Range) }
{
    if year >= start && year - start < YEARS {
        Ok(year - start)
    } else {
        Err(PeriodFault::Range)
    }
}

/// The four digits of a year.
fn year_digits(year: u16) -> [u8; 4]
    requires { year < 10000 }
    ensures { result ≡ year_text year }
{
    [
        b'0' + (year / 1000) as u8,
        b'0' + (year / 100 % 10) as u8,
        b'0' + (year / 10 % 10) as u8,
        b'0' + (year % 10) as u8,
    ]
}
