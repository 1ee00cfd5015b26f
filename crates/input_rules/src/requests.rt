// What a line asks for, read from its fields.

ghost use Rattle.std.specs.Prelude.{◌≡◌, ◌↔◌, ◌∷◌, [], true, IfOk, option_map, pos, ◌≤◌, length, get_or};
ghost use Rattle.line_form.specs.Lines.{line_view};
ghost use Rattle.line_form.specs.Number.{number_of};
ghost use Rattle.period_keys.specs.Period.{year_of, quarter_of};
ghost use Rattle.input_rules.specs.Requests.{kind_of, year_place as year_place_of, quarter_place as quarter_place_of};
ghost use Rattle.input_rules.specs.Requests.{period_of, value_of, is_desk as is_desk_of};
ghost use Rattle.input_rules.specs.Requests.{input_of_kind, request_of, fields_of_line};
ghost use Rattle.input_rules.specs.Views.{request_view};

use crate::lines::Cause;
use line_form::{Fields, Line, LineFault, fields, is_passed_over, read_number};
use period_keys::{PeriodFault, read_quarter, read_year};
use series_tables::Kind;
use std::alloc::Global;

/// An input as a line spells it.
#[derive(Clone, Copy, Debug)]
pub struct LineInput<'a> {
    /// What the value is.
    pub kind: Kind,
    /// The name of the leaf: any bytes.
    pub name: &'a [u8],
    /// The quarter from the start year's first on, or for a benchmark the year from the start year on, both from 0;
    /// none where it lies outside the 64 years from the start year.
    pub period: Option<u16>,
    /// The value, cut to 10^15 on either side.
    pub value: i64,
}

/// What a line of right form asks for. The forms are this product's own.
#[derive(Clone, Copy, Debug)]
pub enum Request<'a> {
    /// `ind`, `bench` or `price`: to take an input.
    Input(LineInput<'a>),
    /// `release`: to print the whole release.
    Release,
    /// `release,NAME`: to print the release of one item. The name is any bytes.
    ReleaseOf(&'a [u8]),
    /// `cert,NAME`: to print the certificate of a leaf. The name is any bytes.
    Certificate(&'a [u8]),
    /// `sync`: to be told the published front, once all that came before is published.
    Sync,
}

/// The bound to which values are cut; it is above the values of every kind.
const VALUE_BOUND: i128 = 1_000_000_000_000_000;

/// The most desks that there are.
const DESKS: i128 = 16;

/// The fields of a line, and none of a line that is passed over: an empty one, or one whose first byte is `#`. A long
/// line is never passed over.
///
/// `Long` is the answer exactly where the line is long, and `Form` exactly where it is neither long nor passed over and
/// no record is read from it.
pub fn line_fields(alloc: Global, line: &Line) -> Result<Option<Fields<'_>>, LineFault>
    ensures read { IfOk result (λ read. fields_of_line (line_view line.now) ≡ Ok read) }
    ensures long { (result ≡ Err LineFault.Long) ↔ (line.now.long ≡ true) }
    ensures form { (result ≡ Err LineFault.Form)
        ↔ (fields_of_line (line_view line.now) ≡ Err Cause.Form) }
{
    if is_passed_over(line) {
        return Ok(None);
    }
    match fields(alloc, line) {
        Ok(read) => Ok(Some(read)),
        Err(fault) => Err(fault),
    }
}

/// What the fields of a line ask for, from a plan's start year on; `None` is the answer exactly where they have none of
/// the forms.
///
/// An input has four fields: `ind`, `bench` or `price`; a name; a quarter, or a year for `bench`; and a number. A fifth
/// one, a number from 1 to 16, is passed over. The other forms are `release`, `release,NAME`, `cert,NAME` and `sync`.
pub fn read_request<'a>(start: u16, fields: &'a Fields<'_>) -> Option<Request<'a>>
    ensures { option_map request_view result ≡ request_of start fields.now }
{
    match fields.len() {
        1 => read_word(fields.get(0)),
        2 => read_named(fields.get(0), fields.get(1)),
        4 => read_input(start, fields),
        5 => if is_desk(fields.get(4)) {
            read_input(start, fields)
        } else {
            None
        },
        _ => None,
    }
}

/// What a line of one field asks for.
fn read_word<'a>(word: &[u8]) -> Option<Request<'a>>
    ensures { option_map request_view result ≡ request_of 0 (word.now ∷ []) }
{
    if word == b"release".as_slice() {
        Some(Request::Release)
    } else if word == b"sync".as_slice() {
        Some(Request::Sync)
    } else {
        None
    }
}

/// What a line of a word and a name asks for.
fn read_named<'a>(word: &[u8], name: &'a [u8]) -> Option<Request<'a>>
    ensures { option_map request_view result ≡ request_of 0 (word.now ∷ name.now ∷ []) }
{
    if word == b"release".as_slice() {
        Some(Request::ReleaseOf(name))
    } else if word == b"cert".as_slice() {
        Some(Request::Certificate(name))
    } else {
        None
    }
}

/// The input that the first four fields spell.
fn read_input<'a>(start: u16, fields: &'a Fields<'_>) -> Option<Request<'a>>
    requires { 4 ≤ length fields.now }
    ensures { option_map request_view result
        ≡ input_of_kind (kind_of (get_or fields.now 0 [])) start
        (get_or fields.now 1 []) (get_or fields.now 2 []) (get_or fields.now 3 []) }
{
    let kind = read_kind(fields.get(0))?;
    let period = read_period(kind, start, fields.get(2))?;
    let value = read_value(fields.get(3))?;
    Some(Request::Input(LineInput {
        kind,
        name: fields.get(1),
        period,
        value,
    }))
}

/// The kind that a first word names.
fn read_kind(word: &[u8]) -> Option<Kind>
    ensures { result ≡ kind_of word.now }
{
    if word == b"ind".as_slice() {
        Some(Kind::Indicator)
    } else if word == b"bench".as_slice() {
        Some(Kind::Benchmark)
    } else if word == b"price".as_slice() {
        Some(Kind::Price)
    } else {
        None
    }
}

/// The place of the period that a field spells, none where it lies outside the 64 years; no place at all where the
/// field spells no period of the kind.
fn read_period(kind: Kind, start: u16, field: &[u8]) -> Option<Option<u16>>
    ensures { result ≡ period_of kind start field.now }
{
    match kind {
        Kind::Benchmark => year_place(start, field),
        Kind::Indicator | Kind::Price => quarter_place(start, field),
    }
}

/// The place of the year that a field spells.
fn year_place(start: u16, field: &[u8]) -> Option<Option<u16>>
    ensures { result ≡ option_map (year_place_of start) (year_of field.now) }
{
    match read_year(field, start) {
        Ok(year) => Some(Some(year.0)),
        Err(PeriodFault::Range) => Some(None),
        Err(PeriodFault::Form) => None,
    }
}

/// The place of the quarter that a field spells.
fn quarter_place(start: u16, field: &[u8]) -> Option<Option<u16>>
    ensures { result ≡ option_map (quarter_place_of start) (quarter_of field.now) }
{
    match read_quarter(field, start) {
        Ok(quarter) => Some(Some(quarter.0)),
        Err(PeriodFault::Range) => Some(None),
        Err(PeriodFault::Form) => None,
    }
}

/// The value that a field spells, cut to the bound.
fn read_value(field: &[u8]) -> Option<i64>
    ensures { result ≡ value_of field.now }
{
    match read_number(field, VALUE_BOUND) {
        Some(value) => Some(value as i64),
        None => None,
    }
}

/// Whether a field spells a desk's number.
fn is_desk(field: &[u8]) -> bool
    ensures { result ≡ is_desk_of (number_of field.now) }
{
    match read_number(field, DESKS + 1) {
        Some(number) => 1 <= number && number <= DESKS,
        None => false,
    }
}
