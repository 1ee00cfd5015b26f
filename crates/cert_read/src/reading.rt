//! A certificate's text, line by line.

ghost use Rattle.std.specs.Prelude.{◌≡◌, [], ◌∷◌, List, ℕ, None, IfOk, map, option_map};
ghost use Rattle.line_form.specs.Lines.{lines_of, line_view};
ghost use Rattle.cert_read.specs.Cutting.{cut_line};
ghost use Rattle.cert_read.specs.Statement.{entry_view};
ghost use Rattle.cert_read.specs.Content.{nothing, HasRanges};
ghost use Rattle.cert_read.specs.Reading.{said as said_of, reading, content_of, Gives};
ghost use Rattle.cert_read.specs.Progress.{outcome};

use crate::document::document;
use crate::draft::Draft;
use crate::entry::{Entry, entry_of};
use crate::fault::CertFault;
use crate::progress::Progress;
use dual_cert::CertDoc;
use line_form::{Line, LineFault, Lines, fields};
use qna_base::Memory;
use std::alloc::Global;

/// Reads a certificate: the leaf's name and the front, the scale, the start year, the indicators, the benchmarks, the
/// values, the multipliers, the gap and the end, one line each number. The years of the benchmarks rise, and each has
/// its four quarters; a multiplier stands at the first of the two benchmarked years that it is between. Empty lines and
/// lines that begin with `#` are passed over, and counted.
///
/// `Shape` is the answer exactly where the form is broken, and `Range` exactly where it is kept and a number is out of
/// range, each with the first such line. The form is this product's own.
pub fn read_cert(alloc: Global, text: &[u8]) -> Result<CertDoc, CertFault>
    ensures exact { Gives content_of result (reading text.now) }
{
    let draft = read_text(alloc, text)?;
    Ok(document(alloc, draft)?)
}

/// What all lines of a text say.
#[tactic(auto, using(crate::proofs::Stands::outcome_is_reading))]
fn read_text(alloc: Global, text: &[u8]) -> Result<Draft, CertFault>
    ensures gives { Gives (λ d. d) result (reading text.now) }
    ensures whole { IfOk result (λ d. d.tail ≡ 2) }
    ensures ranges { IfOk result HasRanges }
{
    let mut lines = cut(alloc, text)?;
    read_all(alloc, &mut lines)
}

/// The lines of a text.
fn cut(alloc: Global, text: &[u8]) -> Result<Lines, Memory>
    ensures { IfOk result (λ l. l.waiting ≡ lines_of text.now) }
{
    let mut lines = Lines::new(alloc)?;
    lines.feed(text)?;
    lines.finish()?;
    Ok(lines)
}

/// What all lines that wait say.
fn read_all(alloc: Global, lines: &mut Lines) -> Result<Draft, CertFault>
    ensures gives { Gives (λ d. d) result
        (outcome (record { content = nothing; late = None; last = 0 }) lines.old.waiting) }
    ensures whole { IfOk result (λ d. d.tail ≡ 2) }
    ensures ranges { IfOk result HasRanges }
{
    let mut progress = Progress::new(alloc);
    'lines: while let Some(line) = lines.next_line() {
        progress = progress.take(alloc, &line)?;
    }
    progress.finish()
}

/// What a line says, its number cut; none where it is long or no line of a certificate.
pub(crate) fn said(alloc: Global, line: &Line) -> Result<Option<Entry>, Memory>
    ensures { IfOk result (λ e.
        option_map entry_view e ≡ option_map cut_line (said_of (line_view line.now))) }
{
    if line.long {
        return Ok(None);
    }
    match fields(alloc, line) {
        Ok(record) => entry_of(alloc, &record),
        Err(LineFault::Long) => Ok(None),
        Err(LineFault::Form) => Ok(None),
        Err(LineFault::Memory) => Err(Memory),
    }
}
