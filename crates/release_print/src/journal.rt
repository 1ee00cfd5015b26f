//! The text of a journal.

ghost use Rattle.std.specs.Prelude.{◌∷◌, [], decimal, All};
ghost use Rattle.std.specs.Fmt.{signed_decimal};
ghost use Rattle.accounts_history.specs.History.{inputs_of, journal};
ghost use Rattle.series_tables.specs.Fits.{FitsPlan};
ghost use Rattle.release_print.specs.Journal.{journal_text, sent_line, sent_lines};
ghost use Rattle.release_print.specs.Line.{line_text};
ghost use Rattle.release_print.specs.Part.{Appends};

use crate::line::{push_line, quarter_text, year_text};
use accounts_history::Entry;
use itoa::Buffer;
use qna_base::Memory;
use series_tables::{Input, Kind, Plan};

/// Appends the line of an input: its word, the item's name, the period, the value, and the number of the desk that sent
/// it.
fn push_fields(
    out: &mut Vec<u8>,
    word: &[u8],
    name: &[u8],
    period: &[u8],
    value: i64,
    desk: u16,
) -> Result<(), Memory>
    ensures { Appends result out.old.items out.new.items
        (line_text word.now (name.now ∷ period.now ∷ signed_decimal value ∷ decimal desk ∷ [])) }
{
    let mut values = Buffer::new();
    let mut desks = Buffer::new();
    let fields = [
        name,
        period,
        values.format(value).as_bytes(),
        desks.format(desk).as_bytes(),
    ];
    push_line(out, word, &fields)
}

/// Appends the line of an input that a desk sent.
fn push_sent(out: &mut Vec<u8>, plan: &Plan, desk: u16, input: &Input) -> Result<(), Memory>
    requires { FitsPlan plan.now input.now }
    ensures { Appends result out.old.items out.new.items
        (sent_line plan.now (record { party = desk; input = input.now })) }
{
    let name = plan.name(input.leaf);
    let start = plan.start();
    let quarter = input.period as usize;
    let value = input.value;
    match input.kind {
        Kind::Indicator => {
            push_fields(
                out,
                b"ind",
                name,
                &quarter_text(start, quarter),
                value,
                desk,
            )
        }
        Kind::Benchmark => {
            push_fields(
                out,
                b"bench",
                name,
                &year_text(start + input.period),
                value,
                desk,
            )
        }
        Kind::Price => push_fields(
            out,
            b"price",
            name,
            &quarter_text(start, quarter),
            value,
            desk,
        ),
    }
}

/// Appends the line of an entry's input; a publication prints nothing.
fn push_entry(out: &mut Vec<u8>, plan: &Plan, entry: &Entry) -> Result<(), Memory>
    requires { All (FitsPlan plan.now) (inputs_of (entry.now ∷ [])) }
    ensures { Appends result out.old.items out.new.items
        (sent_lines plan.now (journal (entry.now ∷ []))) }
{
    match entry {
        Entry::Accept { party, input } => push_sent(out, plan, *party, input),
        Entry::Publish { .. } => Ok(()),
    }
}

/// Appends the text of a journal: a line for each accepted input of the history, in order, as it stands in an input,
/// with the number of the desk that sent it as a fifth field. Values are in the unit of their kind. Publications print
/// nothing. The inputs fit the plan. After `Memory` a part of the text stands behind what `out` held.
#[tactic(auto, unfolding(crate::specs::Journal::journal_text))]
pub fn print_journal(plan: &Plan, history: &[Entry], out: &mut Vec<u8>) -> Result<(), Memory>
    requires { All (FitsPlan plan.now) (inputs_of history.now) }
    ensures { Appends result out.old.items out.new.items (journal_text plan.now history.now) }
{
    for entry in history {
        push_entry(out, plan, entry)?;
    }
    Ok(())
}
