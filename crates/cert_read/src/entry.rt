//! What one line of a certificate says.

ghost use Rattle.std.specs.Prelude.{◌≡◌, IfOk, option_map};
ghost use Rattle.period_keys.specs.Period.{quarter_of};
ghost use Rattle.line_form.specs.Number.{number_of};
ghost use Rattle.cert_read.specs.Cutting.{cut_number, cut_line};
ghost use Rattle.cert_read.specs.Statement.{statement_of, entry_view, named_view, single, plain, dated, periodic};

use line_form::{Fields, read_number};
use period_keys::{calendar_year, read_quarter};
use qna_base::Memory;
use std::alloc::Global;

/// Where numbers are cut, past every range of a certificate.
const MOST: i128 = 10_000_000_000_000_000_000_000_000_000_000_000_000;

/// A quarter by its calendar year and its number in the year, from 1 to 4.
#[derive(Clone, Copy, Debug, PartialEq, Eq)]
pub(crate) struct NamedQuarter {
    pub(crate) year: u16,
    pub(crate) number: u16,
}

/// What one line of a certificate says. A number past 10^37 on either side is cut to that.
#[derive(Debug, Drop)]
pub(crate) enum Entry {
    /// the leaf's name as it stands, and the front
    Certificate(Vec<u8>, i128),
    Scale(i128),
    Start(u16),
    Indicator(NamedQuarter, i128),
    Benchmark(u16, i128),
    Value(NamedQuarter, i128),
    Multiplier(u16, i128),
    Gap(i128),
    End,
}

/// What a record says, its number cut; none where it is no line of a certificate.
#[tactic(auto, unfolding(crate::specs::Statement::statement_of), using(crate::proofs::Records::one_field, crate::proofs::Records::two_fields, crate::proofs::Records::three_fields, crate::proofs::Records::other_fields))]
pub(crate) fn entry_of(alloc: Global, fields: &Fields) -> Result<Option<Entry>, Memory>
    ensures { IfOk result (λ e.
        option_map entry_view e ≡ option_map cut_line (statement_of fields.now)) }
{
    match fields.len() {
        1 => Ok(single_entry(fields.get(0))),
        2 => Ok(plain_entry(fields.get(0), fields.get(1))),
        3 => dated_entry(alloc, fields.get(0), fields.get(1), fields.get(2)),
        _ => Ok(None),
    }
}

/// What a line of one field says.
fn single_entry(word: &[u8]) -> Option<Entry>
    ensures { option_map entry_view result ≡ option_map cut_line (single word.now) }
{
    if word == b"end".as_slice() {
        Some(Entry::End)
    } else {
        None
    }
}

/// What a line of a word and one field says.
#[tactic(auto, using(crate::proofs::CutEntries::cut_entries))]
fn plain_entry(word: &[u8], field: &[u8]) -> Option<Entry>
    ensures { option_map entry_view result ≡ option_map cut_line (plain word.now field.now) }
{
    if word == b"scale".as_slice() {
        Some(Entry::Scale(number(field)?))
    } else if word == b"start".as_slice() {
        Some(Entry::Start(calendar_year(field)?))
    } else if word == b"gap".as_slice() {
        Some(Entry::Gap(number(field)?))
    } else {
        None
    }
}

/// What a line of a word, a name or a period, and a number says.
#[tactic(auto, using(crate::proofs::CutEntries::cut_entries))]
fn dated_entry(
    alloc: Global,
    word: &[u8],
    field: &[u8],
    value: &[u8],
) -> Result<Option<Entry>, Memory>
    ensures { IfOk result (λ e.
        option_map entry_view e ≡ option_map cut_line (dated word.now field.now value.now)) }
{
    if word == b"cert".as_slice() {
        return match number(value) {
            Some(front) => Ok(Some(Entry::Certificate(Vec::from_slice(alloc, field)?, front))),
            None => Ok(None),
        };
    }
    Ok(period_entry(word, field, value))
}

/// What a line of a word, a period and a number says.
#[tactic(auto, using(crate::proofs::CutEntries::cut_entries))]
fn period_entry(word: &[u8], period: &[u8], value: &[u8]) -> Option<Entry>
    ensures { option_map entry_view result
        ≡ option_map cut_line (periodic word.now period.now value.now) }
{
    if word == b"i".as_slice() {
        Some(Entry::Indicator(quarter(period)?, number(value)?))
    } else if word == b"b".as_slice() {
        Some(Entry::Benchmark(calendar_year(period)?, number(value)?))
    } else if word == b"x".as_slice() {
        Some(Entry::Value(quarter(period)?, number(value)?))
    } else if word == b"u".as_slice() {
        Some(Entry::Multiplier(calendar_year(period)?, number(value)?))
    } else {
        None
    }
}

/// The number that a field spells, cut to 10^37 on either side.
fn number(field: &[u8]) -> Option<i128>
    ensures { result ≡ option_map cut_number (number_of field.now) }
{
    read_number(field, MOST)
}

/// The quarter that a field spells.
fn quarter(field: &[u8]) -> Option<NamedQuarter>
    ensures { option_map named_view result ≡ quarter_of field.now }
{
    if field.len() < 4 {
        return None;
    }
    let year = calendar_year(&field[..4])?;
    match read_quarter(field, year) {
        Ok(place) => Some(NamedQuarter {
            year,
            number: place.0 + 1,
        }),
        Err(_) => None,
    }
}
