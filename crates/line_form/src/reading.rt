// The fields of a line.

ghost use Rattle.std.specs.Prelude.{◌≡◌, ◌≢◌, ◌==◌, ◌↔◌, ℕ, List, [], true, false, is_some, IfOk, IfErr};
ghost use Rattle.std.specs.Bool.{OnTrue, OnFalse};
ghost use Rattle.std.specs.List.{list_any, list_all};
ghost use Rattle.csv.specs.Machine.{carriage_return, line_feed};
ghost use Rattle.csv.specs.Reading.{strip_bom};
ghost use Rattle.line_form.specs.Fields.{csv_record, record_of, parts_from, is_special};

use crate::cutting::{Line, first_piece};
use crate::row::Fields;
use csv::{ByteRecord, ReaderBuilder};
use memchr::memchr3;
use smallvec::SmallVec;
use std::alloc::Global;
use thiserror::Error;

/// Why a line has no fields.
#[derive(Clone, Copy, Debug, PartialEq, Eq, Drop, Error)]
pub enum LineFault {
    /// The line has more than 256 bytes.
    #[error("the line is long")]
    Long,
    /// A carriage return stands in the line, or no record is read from it.
    #[error("the line is no record")]
    Form,
    /// Want of memory.
    #[error("out of memory")]
    Memory,
}

/// Reads the one record of a line: fields between commas, with double quotes, no header and no trimming, as the crate
/// `csv` reads it.
///
/// `Long` is the answer exactly where the line is long, and `Form` exactly where it isn't and a carriage return is left
/// in it or `csv` reads no record from its bytes. A quote that is never closed ends with the line.
pub fn fields(alloc: Global, line: &Line) -> Result<Fields<'_>, LineFault>
    ensures long { (result ≡ Err LineFault.Long) ↔ (line.now.long ≡ true) }
    ensures form { (result ≡ Err LineFault.Form)
        ↔ ((line.now.long ≡ false) × (record_of line.now.text.items ≡ None)) }
    ensures read { IfOk result (λ f. record_of line.now.text.items ≡ Some f) }
{
    if line.long {
        return Err(LineFault::Long);
    }
    let text = line.text.as_slice();
    if is_plain(text) {
        return cut_at_commas(alloc, text);
    }
    if is_refused(text) {
        return Err(LineFault::Form);
    }
    read_by_csv(alloc, text)
}

/// A text in which no double quote, line feed or carriage return stands, and which doesn't begin with a byte order
/// mark, reads as its parts between commas.
pub fn plain_text_is_its_parts()
    ensures { (text : List ℕ) →
        text ≢ [] → list_any is_special text ≡ false → strip_bom text ≡ text →
        csv_record text ≡ Some (parts_from [] text) }
{}

/// Whether the bytes of a line are nothing but fields and commas: no quote and no line end stands in them, and they
/// begin with no byte of a mark.
fn is_plain(text: &[u8]) -> bool
    ensures { OnTrue result (record_of text.now ≡ Some (parts_from [] text.now)) }
{
    if text.is_empty() {
        return false;
    }
    text[0] != 0xEF && memchr3(b'"', b'\n', b'\r', text).is_none()
}

/// Whether no record is read from the bytes of a line.
fn is_refused(text: &[u8]) -> bool
    ensures yes { OnTrue result (record_of text.now ≡ None) }
    ensures no { OnFalse result (record_of text.now ≡ csv_record text.now) }
    ensures some { OnFalse result (is_some (csv_record text.now) ≡ true) }
{
    has_return(text) || is_feeds(first_piece(text, 0))
}

/// Whether a carriage return stands in the bytes.
fn has_return(bytes: &[u8]) -> bool
    ensures { result ≡ list_any (λ b. b == carriage_return) bytes.now }
{
    bytes.iter().any(|b| *b == b'\r')
}

/// Whether the bytes are line feeds and nothing else.
fn is_feeds(bytes: &[u8]) -> bool
    ensures { result ≡ list_all (λ b. b == line_feed) bytes.now }
{
    bytes.iter().all(|b| *b == b'\n')
}

/// Cuts a plain line at its commas.
fn cut_at_commas(alloc: Global, text: &[u8]) -> Result<Fields<'_>, LineFault>
    ensures cut { IfOk result (λ f. f ≡ parts_from [] text.now) }
    ensures fault { IfErr result (λ e. e ≡ LineFault.Memory) }
{
    let mut commas = SmallVec::new(alloc);
    for (i, b) in text.iter().enumerate() {
        if *b == b',' && commas.push(i).is_err() {
            return Err(LineFault::Memory);
        }
    }
    Ok(Fields::cut(text, commas))
}

/// Reads the record of a line by `csv`.
fn read_by_csv<'a>(alloc: Global, text: &'a [u8]) -> Result<Fields<'a>, LineFault>
    requires { is_some (csv_record text.now) ≡ true }
    ensures read { IfOk result (λ f. csv_record text.now ≡ Some f) }
    ensures fault { IfErr result (λ e. e ≡ LineFault.Memory) }
{
    let mut reader = ReaderBuilder::new()
        .has_headers(false)
        .from_reader(alloc, text);
    let mut row = ByteRecord::new(alloc);
    match reader.read_byte_record(&mut row) {
        Ok(_) => Ok(Fields::read(row)),
        Err(_) => Err(LineFault::Memory),
    }
}
