// A stream of bytes, cut into lines.

ghost use Rattle.std.specs.Prelude.{◌≡◌, ◌≤◌, ◌<◌, ◌+◌, ◌++◌, [], ◌∷◌, ℕ, List, false, true, take, drop, min, length};
ghost use Rattle.std.specs.Prelude.{IfOk, IfSome, IfNone, OnOk, OnErr, option_map, vec_len};
ghost use Rattle.std.specs.Option.{option_to_list};
ghost use Rattle.std.specs.Vec.{vec_capacity};
ghost use Rattle.csv.specs.Reading.{strip_bom};
ghost use Rattle.line_form.specs.Lines.{TextLine, line_view, lines_view, ended_from, rest_from, without_return};
ghost use Rattle.line_form.specs.Lines.{line_at, unmarked, next_number, numbered, number_after, last_piece};
ghost use Rattle.line_form.specs.Lines.{kept_most, is_comment as is_comment_of, is_passed_over as is_passed_over_of};

use memchr::memchr;
use qna_base::Memory;
use std::alloc::Global;
use std::collections::VecDeque;
use std::marker::Model;

/// How many bytes a line may have, behind the droppings. A longer one is long.
pub const LONGEST: usize = 256;

/// How many bytes are kept of a line that isn't ended: a mark's three, a line's, a carriage return's, and one more.
const KEPT: usize = 261;

/// A line of a stream.
#[derive(Debug, Drop)]
pub struct Line {
    /// The line's number in the stream, from 1.
    pub number: u64,
    /// Whether the line has more than 256 bytes.
    pub long: bool,
    /// The line's bytes without its end; none of a long line.
    pub text: Vec<u8>,
}

/// Whether a line is passed over: an empty one and one whose first byte is `#` are, a long one never.
pub fn is_passed_over(line: &Line) -> bool
    ensures { result ≡ is_passed_over_of (line_view line.now) }
{
    !line.long && is_comment(&line.text)
}

/// Whether a line's bytes are none, or begin with a number sign.
fn is_comment(text: &[u8]) -> bool
    ensures { result ≡ is_comment_of text.now }
{
    match text {
        [] => true,
        [first, ..] => *first == b'#',
    }
}

/// A stream of bytes that comes in any pieces, cut into its lines.
///
/// A line feed ends a line, and bytes after the last one are a line once the stream is finished. One carriage return at
/// a line's end is dropped, and so is a byte order mark at the stream's very start. The lines are numbered from 1.
/// Of a line that isn't ended at most 261 bytes are kept, however long it is. The form of lines is this product's own.
#[derive(Drop)]
pub struct Lines {
    alloc: Global,
    waiting: VecDeque<Line>,
    count: u64,
    rest: Vec<u8>,
    ended: bool,
}

impl Model for Lines {
    ghost use Rattle.std.specs.Prelude.{◌≤◌, vec_len};
    ghost use Rattle.std.specs.Vec.{vec_capacity};
    ghost use Rattle.line_form.specs.Lines.{Cutting, lines_view};

    ghost Value = { Cutting };

    ghost view = { λ l. record {
      waiting = lines_view l.waiting.items;
      count = l.count;
      rest = l.rest.items;
      ended = l.ended;
    } };

    ghost invariant = { λ l. (vec_len l.rest ≤ 261) × (261 ≤ vec_capacity l.rest) };
}

impl Lines {
    ghost use Rattle.line_form.specs.Lines.{IsCutOf};

    /// The lines of a stream of which nothing has come.
    pub fn new(alloc: Global) -> Result<Lines, Memory>
        ensures { IfOk result (λ l. IsCutOf l [] [] × (l.ended ≡ false)) }
    {
        let rest = Vec::with_capacity(alloc, KEPT)?;
        Ok(Lines {
            alloc,
            waiting: VecDeque::new(alloc),
            count: 0,
            rest,
            ended: false,
        })
    }

    /// Takes the next piece of the stream, and cuts the lines that are ended now.
    ///
    /// The lines handed out, followed by the waiting ones, are then the ended lines of the stream so far, however it
    /// was cut into pieces. Want of memory changes nothing, so the same piece may be fed again.
    pub fn feed(&mut self, piece: &[u8]) -> Result<(), Memory>
        requires { self.old.ended ≡ false }
        ensures lines { (stream : List ℕ) (handed : List TextLine) →
            IsCutOf self.old stream handed →
            OnOk result (IsCutOf self.new (stream ++ piece.now) handed) }
        ensures goes_on { OnOk result (self.new.ended ≡ false) }
        ensures unchanged { OnErr result (self.new ≡ self.old) }
    {
        let Some((head, after)) = split_line(piece) else {
            keep(&mut self.rest, piece);
            return Ok(());
        };
        let waited = self.waiting.len();
        let kept = self.rest.len();
        keep(&mut self.rest, head);
        match cut(self.alloc, &self.rest, after, self.count, &mut self.waiting) {
            Ok((count, rest)) => {
                self.count = count;
                self.rest.clear();
                keep(&mut self.rest, rest);
                Ok(())
            }
            Err(Memory) => {
                self.waiting.truncate(waited);
                self.rest.truncate(kept);
                Err(Memory)
            }
        }
    }

    /// Ends the stream: bytes after the last line feed are a line now.
    ///
    /// The lines handed out, followed by the waiting ones, are then the lines of the whole stream. Want of memory
    /// changes nothing, so the stream may be finished again.
    pub fn finish(&mut self) -> Result<(), Memory>
        requires { self.old.ended ≡ false }
        ensures lines { (stream : List ℕ) (handed : List TextLine) →
            IsCutOf self.old stream handed → OnOk result (IsCutOf self.new stream handed) }
        ensures ended { OnOk result (self.new.ended ≡ true) }
        ensures unchanged { OnErr result (self.new ≡ self.old) }
    {
        let piece = first_piece(&self.rest, self.count);
        add_last(self.alloc, piece, self.count, &mut self.waiting)?;
        self.ended = true;
        Ok(())
    }

    /// Hands out the first line that waits; `None` is the answer exactly where none waits.
    pub fn next_line(&mut self) -> Option<Line>
        ensures first { self.old.waiting
            ≡ option_to_list (option_map line_view result) ++ self.new.waiting }
        ensures none { IfNone result (self.old.waiting ≡ []) }
        ensures lines { (stream : List ℕ) (handed : List TextLine) →
            IsCutOf self.old stream handed →
            IsCutOf self.new stream (handed ++ option_to_list (option_map line_view result)) }
        ensures ended { self.new.ended ≡ self.old.ended }
    {
        self.waiting.pop_front()
    }
}

/// The bytes before the first line feed, and those after it.
fn split_line(bytes: &[u8]) -> Option<(&[u8], &[u8])>
    ensures shorter { IfSome result (λ p. length p.1.now < length bytes.now) }
    ensures found { IfSome result (λ p. (q : List ℕ) →
        ended_from q bytes.now ≡ (q ++ p.0.now) ∷ ended_from [] p.1.now) }
    ensures after { IfSome result (λ p. (q : List ℕ) →
        rest_from q bytes.now ≡ rest_from [] p.1.now) }
    ensures none { IfNone result ((q : List ℕ) → ended_from q bytes.now ≡ []) }
    ensures all { IfNone result ((q : List ℕ) → rest_from q bytes.now ≡ q ++ bytes.now) }
{
    let Some(at) = memchr(b'\n', bytes) else {
        return None;
    };
    Some((&bytes[..at], &bytes[at + 1..]))
}

/// Adds bytes to those kept of a line, as far as they tell more of it.
fn keep(kept: &mut Vec<u8>, bytes: &[u8])
    requires few { vec_len kept.old ≤ 261 }
    requires room { 261 ≤ vec_capacity kept.old }
    ensures items { kept.new.items ≡ take kept_most (kept.old.items ++ bytes.now) }
    ensures few { vec_len kept.new ≤ 261 }
    ensures room { 261 ≤ vec_capacity kept.new }
{
    let more = bytes.len().min(KEPT - kept.len());
    let _ = kept.extend_from_slice(&bytes[..more]);
}

/// A piece without a byte order mark at its start, where it begins a stream.
#[tactic(auto, using(crate::proofs::Streams::mark_dropped, crate::proofs::Streams::mark_absent))]
pub(crate) fn first_piece(piece: &[u8], before: u64) -> &[u8]
    ensures { result.now ≡ unmarked before piece.now }
{
    if before != 0 {
        return piece;
    }
    match piece.strip_prefix(&[0xEF, 0xBB, 0xBF]) {
        Some(rest) => rest,
        None => piece,
    }
}

/// A piece without one carriage return at its end.
fn text_of(piece: &[u8]) -> &[u8]
    ensures { result.now ≡ without_return piece.now }
{
    if !piece.is_empty() && piece[piece.len() - 1] == b'\r' {
        &piece[..piece.len() - 1]
    } else {
        piece
    }
}

/// The line that a piece makes.
#[tactic(auto, unfolding(crate::specs::Lines::line_at))]
fn line_of(alloc: Global, piece: &[u8], number: u64) -> Result<Line, Memory>
    ensures { IfOk result (λ l. line_view l ≡ line_at number piece.now) }
{
    let piece = text_of(piece);
    if piece.len() > LONGEST {
        return Ok(Line {
            number,
            long: true,
            text: Vec::new(alloc),
        });
    }
    let mut text = Vec::with_capacity(alloc, piece.len())?;
    text.extend_from_slice(piece)?;
    Ok(Line {
        number,
        long: false,
        text,
    })
}

/// Adds the line that a piece makes to those that wait. Want of memory changes nothing.
fn add_line(
    alloc: Global,
    piece: &[u8],
    number: u64,
    waiting: &mut VecDeque<Line>,
) -> Result<(), Memory>
    ensures ok { OnOk result (lines_view waiting.new.items
        ≡ lines_view waiting.old.items ++ line_at number piece.now ∷ []) }
    ensures err { OnErr result (waiting.new.items ≡ waiting.old.items) }
    ensures kept { take (length waiting.old.items) waiting.new.items ≡ waiting.old.items }
{
    waiting.push_back(line_of(alloc, piece, number)?)?;
    Ok(())
}

/// Adds the line of a last piece, where that has one byte at least. Want of memory changes nothing.
#[tactic(auto, unfolding(crate::specs::Lines::numbered))]
fn add_last(
    alloc: Global,
    piece: &[u8],
    before: u64,
    waiting: &mut VecDeque<Line>,
) -> Result<(), Memory>
    ensures ok { OnOk result (lines_view waiting.new.items
        ≡ lines_view waiting.old.items ++ numbered before (last_piece piece.now)) }
    ensures err { OnErr result (waiting.new.items ≡ waiting.old.items) }
{
    if piece.is_empty() {
        return Ok(());
    }
    add_line(alloc, piece, before.saturating_add(1), waiting)
}

/// Adds the line of a first piece to those that wait, and the lines that follow it; answers the number of the last of
/// them and the bytes after it. Want of memory leaves the lines that waited at the front.
fn cut<'a>(
    alloc: Global,
    first: &[u8],
    after: &'a [u8],
    before: u64,
    waiting: &mut VecDeque<Line>,
) -> Result<(u64, &'a [u8]), Memory>
    ensures waiting { OnOk result (lines_view waiting.new.items
        ≡ lines_view waiting.old.items
        ++ numbered before (unmarked before first.now ∷ ended_from [] after.now)) }
    ensures count { IfOk result (λ p.
        p.0 ≡ number_after before (first.now ∷ ended_from [] after.now)) }
    ensures rest { IfOk result (λ p. p.1.now ≡ rest_from [] after.now) }
    ensures kept { take (length waiting.old.items) waiting.new.items ≡ waiting.old.items }
{
    let mut number = before.saturating_add(1);
    add_line(alloc, first_piece(first, before), number, waiting)?;
    let mut rest = after;
    'lines: while let Some((piece, more)) = split_line(rest) {
        number = number.saturating_add(1);
        add_line(alloc, piece, number, waiting)?;
        rest = more;
    }
    Ok((number, rest))
}
