// The fields of one line.

ghost use Rattle.std.specs.Prelude.{◌≡◌, ◌≤◌, ◌<◌, ◌+◌, ◌-◌, [], List, ℕ, get_or, length, take, drop};
ghost use Rattle.line_form.specs.Commas.{cut_at, Rising, start_at, end_at};

use csv::ByteRecord;
use smallvec::SmallVec;
use std::marker::Model;

/// How many commas of a line are kept with no allocation.
const INLINE: usize = 4;

/// The fields of one line, in their order; each is the bytes between two commas, or between its quotes.
#[derive(Drop)]
pub struct Fields<'a> {
    held: Held<'a>,
}

/// Where the fields lie: in the line, between these commas, or in a record that was read from it.
#[derive(Drop)]
enum Held<'a> {
    Cut(&'a [u8], SmallVec<usize, INLINE>),
    Read(ByteRecord),
}

impl<'a> Model for Fields<'a> {
    ghost use Rattle.std.specs.Prelude.{List, ℕ};

    ghost Value = { List (List ℕ) };

    ghost use Rattle.line_form.specs.Held.{fields_in, IsHeld};

    ghost view = { λ f. fields_in f.held };

    ghost invariant = { λ f. IsHeld f.held };
}

impl<'a> Fields<'a> {
    ghost use Rattle.std.specs.Prelude.{◌≡◌, ◌<◌, [], List, ℕ, get_or, length};
    ghost use Rattle.csv.specs.Records.{fields_of};
    ghost use Rattle.line_form.specs.Commas.{cut_at, Rising};

    /// The fields between the commas at these places of a line.
    pub(crate) fn cut(text: &'a [u8], commas: SmallVec<usize, INLINE>) -> Fields<'a>
        requires { Rising 0 commas.items (length text.now) }
        ensures { result ≡ cut_at 0 commas.items text.now }
    {
        Fields {
            held: Held::Cut(text, commas),
        }
    }

    /// The fields of a record that was read from a line.
    pub(crate) fn read(row: ByteRecord) -> Fields<'a>
        ensures { result ≡ fields_of row }
    {
        Fields {
            held: Held::Read(row),
        }
    }

    /// How many fields there are.
    pub fn len(&self) -> usize
        ensures { result ≡ length self.now }
    {
        match &self.held {
            Held::Cut(_, commas) => commas.as_slice().len() + 1,
            Held::Read(row) => row.len(),
        }
    }

    /// The field at a place, from 0.
    pub fn get(&self, i: usize) -> &[u8]
        requires { i < length self.now }
        ensures { result.now ≡ get_or self.now i [] }
    {
        match &self.held {
            Held::Cut(text, commas) => part(text, commas.as_slice(), i),
            Held::Read(row) => row.get(i).unwrap(),
        }
    }
}

/// What stands before the comma at a place, or after the last one.
fn part<'t>(text: &'t [u8], commas: &[usize], i: usize) -> &'t [u8]
    requires rising { Rising 0 commas.now (length text.now) }
    requires within { i ≤ length commas.now }
    ensures { result.now ≡ get_or (cut_at 0 commas.now text.now) i [] }
{
    &text[start_of(commas, text.len(), i)..end_of(commas, text.len(), i)]
}

/// Where the part at a place starts, in so many bytes.
fn start_of(commas: &[usize], size: usize, i: usize) -> usize
    requires rising { Rising 0 commas.now size }
    requires within { i ≤ length commas.now }
    ensures start { result ≡ start_at 0 commas.now i }
    ensures bound { result ≤ end_at commas.now i size }
{
    if i == 0 { 0 } else { commas[i - 1] + 1 }
}

/// Where it ends.
fn end_of(commas: &[usize], size: usize, i: usize) -> usize
    requires rising { Rising 0 commas.now size }
    requires within { i ≤ length commas.now }
    ensures end { result ≡ end_at commas.now i size }
    ensures bound { result ≤ size }
{
    if i < commas.len() { commas[i] } else { size }
}
