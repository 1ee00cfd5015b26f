//! One printed line.

ghost use Rattle.std.specs.Prelude.{◌≡◌, ◌<◌, ◌≤◌, map};
ghost use Rattle.period_keys.specs.Period.{quarter_text as quarter_text_of, year_text as year_text_of};
ghost use Rattle.cert_read.specs.Content.{quarter_from};
ghost use Rattle.release_print.specs.Line.{line_text};
ghost use Rattle.release_print.specs.Part.{Appends};

use qna_base::Memory;

/// Appends a line: its word, its fields, each behind a comma, and a line feed. After `Memory` a part of the line stands
/// there.
pub fn push_line(out: &mut Vec<u8>, word: &[u8], fields: &[&[u8]]) -> Result<(), Memory>
    ensures { Appends result out.old.items out.new.items
        (line_text word.now (map (λ field. field.now) fields.now)) }
{
    out.extend_from_slice(word)?;
    for field in fields {
        out.push(b',')?;
        out.extend_from_slice(field)?;
    }
    out.push(b'\n')?;
    Ok(())
}

/// The text of a quarter, counted from the start year's first.
pub(crate) fn quarter_text(start: u16, quarter: usize) -> [u8; 6]
    requires last { start ≤ 2200 }
    requires within { quarter < 512 }
    ensures { result ≡ quarter_text_of (quarter_from start quarter) }
{
    let [a, b, c, d] = year_text(start + (quarter / 4) as u16);
    [a, b, c, d, b'Q', b'1' + (quarter % 4) as u8]
}

/// The text of a calendar year: its four digits.
pub(crate) fn year_text(year: u16) -> [u8; 4]
    requires { year < 10000 }
    ensures { result ≡ year_text_of year }
{
    [
        b'0' + (year / 1000) as u8,
        b'0' + (year / 100 % 10) as u8,
        b'0' + (year / 10 % 10) as u8,
        b'0' + (year % 10) as u8,
    ]
}
