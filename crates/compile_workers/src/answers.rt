//! A desk's answers. They wait in memory that is there before a line is answered, so that no want of it comes between
//! an accepted input and its answer, and they are written before more of the desk's input is asked for.

ghost use Rattle.std.specs.Prelude.{◌≡◌, [], codes, decimal, Err, IfOk, OnErr};
ghost use Rattle.compile_workers.specs.Answering.{HasBegun, HasMoved};
ghost use Rattle.compile_workers.specs.Serving.{IsSaid};
ghost use Rattle.input_rules.specs.Lines.{cause_text};
ghost use Rattle.qna_edges.specs.Paper.{Prints};
ghost use Rattle.qna_parts.specs.StatusLine.{named_line};
ghost use Rattle.release_print.specs.Part.{Appends};

use input_rules::Cause;
use itoa::Buffer;
use qna_base::Memory;
use qna_edges::{Refused, Sink, write_all};
use std::alloc::Global;

/// How many bytes there is room for before a line is answered, at least.
const ROOM: usize = 8192;

/// From how many bytes on the answers that wait are written.
const MANY: usize = 4096;

/// No answers yet, and room for those that wait.
pub(crate) fn no_answers(alloc: Global) -> Result<Vec<u8>, Memory>
    ensures { IfOk result (λ answers. answers.items ≡ []) }
{
    let answers = Vec::with_capacity(alloc, ROOM)?;
    Ok(answers)
}

/// Answers with the number of an accepted input: `ok,n`.
pub(crate) fn say_accepted(answers: &mut Vec<u8>, number: u64) -> Result<(), Memory>
    ensures { Appends result answers.old.items answers.new.items
        (named_line (codes "ok") (decimal number)) }
{
    let mut buffer = Buffer::new();
    say(answers, b"ok", buffer.format(number).as_bytes())
}

/// Answers with the published front: `synced,n`.
pub(crate) fn say_synced(answers: &mut Vec<u8>, front: u64) -> Result<(), Memory>
    ensures { Appends result answers.old.items answers.new.items
        (named_line (codes "synced") (decimal front)) }
{
    let mut buffer = Buffer::new();
    say(answers, b"synced", buffer.format(front).as_bytes())
}

/// Answers why a line is refused: `no,CAUSE`.
pub(crate) fn say_refused(answers: &mut Vec<u8>, cause: Cause) -> Result<(), Memory>
    ensures { Appends result answers.old.items answers.new.items
        (named_line (codes "no") (cause_text cause)) }
{
    say(answers, b"no", cause.text())
}

/// Appends the line `WORD,NAME`.
fn say(answers: &mut Vec<u8>, word: &[u8], name: &[u8]) -> Result<(), Memory>
    ensures { Appends result answers.old.items answers.new.items (named_line word.now name.now) }
{
    answers.extend_from_slice(word)?;
    answers.push(b',')?;
    answers.extend_from_slice(name)?;
    answers.push(b'\n')?;
    Ok(())
}

/// Writes the answers that wait. None waits any more.
pub(crate) fn write_out<K: Sink>(answers: &mut Vec<u8>, sink: &mut K) -> Result<(), Refused>
    ensures written { Prints (K.paper sink.old) (K.paper sink.new) answers.old.items result }
    ensures none { answers.new.items ≡ [] }
{
    let written = write_all(sink, answers);
    answers.clear();
    written
}

/// Writes the answers that wait, where they are many.
pub(crate) fn write_many<K: Sink>(answers: &mut Vec<u8>, sink: &mut K) -> Result<(), Refused>
    ensures moved { HasMoved (K.paper sink.old) (K.paper sink.new)
        answers.old.items answers.new.items result }
    ensures none { OnErr result (answers.new.items ≡ []) }
    ensures said { IsSaid (K.paper sink.old) (K.paper sink.new) result }
{
    if answers.len() < MANY {
        return Ok(());
    }
    write_out(answers, sink)
}

/// Writes the answers that wait where memory is wanted for the next, and tells why the desk ends.
pub(crate) fn break_off<K: Sink>(answers: &mut Vec<u8>, sink: &mut K) -> Refused
    ensures begun { HasBegun (K.paper sink.old) (K.paper sink.new) answers.old.items }
    ensures none { answers.new.items ≡ [] }
    ensures said { IsSaid (K.paper sink.old) (K.paper sink.new) (Err result) }
{
    match write_out(answers, sink) {
        Ok(()) => Refused::Memory,
        Err(refused) => refused,
    }
}
