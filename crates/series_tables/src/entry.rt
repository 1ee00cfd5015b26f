//! What one line of a plan says.

ghost use Rattle.std.specs.Prelude.{◌≡◌, option_map};
ghost use Rattle.series_tables.specs.PlanLine.{year_entry as year_entry_of, named_entry, entry_of as entry_of_fields};
ghost use Rattle.series_tables.specs.PlanEntries.{entry_view};

use line_form::{Fields, is_name};
use period_keys::calendar_year;

/// What a line of one of the three forms says.
#[derive(Clone, Copy)]
pub(crate) enum Entry<'a> {
    /// The first year.
    Start(u16),
    /// The reference year, in the calendar.
    Reference(u16),
    /// An item's name and its parent's, which is empty for a root.
    Item(&'a [u8], &'a [u8]),
}

/// What a record says; none where it is of none of the three forms.
#[tactic(auto, unfolding(crate::specs::PlanLine::entry_of), using(crate::proofs::Entries::two_fields, crate::proofs::Entries::three_fields, crate::proofs::Entries::other_fields))]
pub(crate) fn entry_of<'f>(fields: &'f Fields) -> Option<Entry<'f>>
    ensures { option_map entry_view result ≡ entry_of_fields fields.now }
{
    match fields.len() {
        2 => year_entry(fields.get(0), fields.get(1)),
        3 => item_entry(fields.get(0), fields.get(1), fields.get(2)),
        _ => None,
    }
}

/// What a record of a word and a year says.
fn year_entry<'f>(word: &[u8], year: &[u8]) -> Option<Entry<'f>>
    ensures { option_map entry_view result ≡ year_entry_of word.now year.now }
{
    if word == b"start".as_slice() {
        Some(Entry::Start(calendar_year(year)?))
    } else if word == b"reference".as_slice() {
        Some(Entry::Reference(calendar_year(year)?))
    } else {
        None
    }
}

/// What a record of a word, a name and a parent says.
fn item_entry<'f>(word: &[u8], name: &'f [u8], parent: &'f [u8]) -> Option<Entry<'f>>
    ensures { option_map entry_view result ≡ named_entry word.now name.now parent.now }
{
    if word == b"item".as_slice() && is_name(name) {
        Some(Entry::Item(name, parent))
    } else {
        None
    }
}
