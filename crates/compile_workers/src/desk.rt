//! Serving a desk from its source into its sink.

ghost use Rattle.std.specs.Prelude.{◌≡◌, ◌+◌, ◌≤◌, ◌<◌, [], false, length, IfOk, OnErr, OnOk, Some};
ghost use Rattle.std.specs.Io.KnownBytes.{ReadConsumes};
ghost use Rattle.accounts_history.specs.History.{journal};
ghost use Rattle.compile_workers.specs.DeskEnd.{IsDeskEnd, end_for, ends_told};
ghost use Rattle.compile_workers.specs.Serving.{IsSaid, IsServing, ServesEnd, ServesPiece, position};
ghost use Rattle.desk_lock.specs.Passes.{IsPassOf, IsSameButSeen};
ghost use Rattle.office.specs.Seen.{sent_by};
ghost use Rattle.qna_edges.specs.Stock.{GivesBytes, ReadFails};

use crate::answers::no_answers;
use crate::lines::serve_waiting;
use crate::service::{Progress, Service};
use desk_lock::Pass;
use line_form::Lines;
use office::{CoreBook, Office};
use qna_base::{Memory, Steps};
use qna_edges::{Failed, Gate, Refused, Sink, Source};
use series_tables::Plan;
use std::alloc::Global;
use std::marker::Brand;
use std::sync::Wait;
use std::sync::ledger::{Blank, Ledger};

/// The most bytes of a desk's input.
const MOST_BYTES: usize = 1_073_741_824;

/// The most bytes that are asked of a source at once.
const PIECE: usize = 65_536;

/// How a desk ended.
#[derive(Clone, Copy, Debug, PartialEq, Eq)]
pub enum DeskEnd {
    /// The source was read to its end, and every line of it was answered.
    Ended,
    /// A read of the source failed.
    ReadFault,
    /// A write to the sink failed.
    WriteFault,
    /// The source has more than 2^30 bytes.
    TooMuch,
    /// Want of memory.
    Memory,
}

/// How a desk ends whose answer couldn't be written.
fn end_of(refused: Refused) -> DeskEnd
    ensures { result ≡ end_for refused }
{
    match refused {
        Refused::Failed => DeskEnd::WriteFault,
        Refused::Memory => DeskEnd::Memory,
    }
}

/// How many bytes are asked for of an input of which so many were taken: no more than the limit leaves, but one at
/// the limit, since only a byte past it shows that there is more.
fn room_after(size: usize) -> usize
    requires few { size ≤ 1073741824 }
    ensures some { 0 < result }
    ensures piece { result ≤ 65536 }
    ensures within { size < 1073741824 → size + result ≤ 1073741824 }
{
    (MOST_BYTES - size).clamp(1, PIECE)
}

/// Reads more of an input, of which so many bytes were taken, into the front of a buffer.
fn read_piece<S: Source>(
    source: &mut S,
    buffer: &mut [u8; PIECE],
    size: usize,
) -> Result<usize, Failed>
    requires few { size ≤ 1073741824 }
    ensures piece { IfOk result (λ count. count ≤ 65536) }
    ensures within { IfOk result (λ count. size < 1073741824 → size + count ≤ 1073741824) }
    ensures bytes { ReadConsumes (S.stock source.old).left (S.stock source.new).left
        result buffer.new }
    ensures ok { OnOk result (GivesBytes (S.stock source.old) (S.stock source.new)) }
    ensures failed { OnErr result (ReadFails (S.stock source.old) (S.stock source.new)) }
{
    let room = room_after(size);
    source.read(&mut buffer[..room])
}

/// Answers the lines that a piece of an input ends.
fn serve_piece<G: Gate, K: Sink, L: Ledger, R: Wait>(
    rt: &R,
    service: &Service<G>,
    progress: Progress,
    lines: &mut Lines,
    piece: &[u8],
    answers: &mut Vec<u8>,
    sink: &mut K,
    steps: &mut Steps<L>,
) -> (Progress, Result<(), Refused>)
    requires serving { IsServing service.now.office.now service.now.plan.now
        progress.own progress.pass }
    requires goes_on { lines.old.ended ≡ false }
    requires none { answers.old.items ≡ [] }
    ensures pass { IsSameButSeen progress.pass result.0.pass }
    ensures known { result.0.own ≤ length (journal result.0.pass.seen) }
    ensures goes_on { OnOk result.1 (lines.new.ended ≡ false) }
    ensures serves { ServesPiece service.now.plan.now progress.pass.party lines.old lines.new
        (position (K.paper sink.old) progress.own progress.pass.seen)
        (position (K.paper sink.new) result.0.own result.0.pass.seen) piece.now result.1 }
    ensures said { IsSaid (K.paper sink.old) (K.paper sink.new) result.1 }
    ensures none { answers.new.items ≡ [] }
{
    if let Err(Memory) = lines.feed(piece) {
        return (progress, Err(Refused::Memory));
    }
    serve_waiting(rt, service, progress, lines, answers, sink, steps)
}

/// Answers the last line of an input, if no line feed ends it.
fn serve_end<G: Gate, K: Sink, L: Ledger, R: Wait>(
    rt: &R,
    service: &Service<G>,
    progress: Progress,
    lines: &mut Lines,
    answers: &mut Vec<u8>,
    sink: &mut K,
    steps: &mut Steps<L>,
) -> (Progress, Result<(), Refused>)
    requires serving { IsServing service.now.office.now service.now.plan.now
        progress.own progress.pass }
    requires goes_on { lines.old.ended ≡ false }
    requires none { answers.old.items ≡ [] }
    ensures pass { IsSameButSeen progress.pass result.0.pass }
    ensures serves { ServesEnd service.now.plan.now progress.pass.party lines.old
        (position (K.paper sink.old) progress.own progress.pass.seen)
        (position (K.paper sink.new) result.0.own result.0.pass.seen) result.1 }
    ensures said { IsSaid (K.paper sink.old) (K.paper sink.new) result.1 }
    ensures none { answers.new.items ≡ [] }
{
    if let Err(Memory) = lines.finish() {
        return (progress, Err(Refused::Memory));
    }
    serve_waiting(rt, service, progress, lines, answers, sink, steps)
}

/// Serves a desk, whose pass has sent nothing yet, and counts it as ended: each line of the source that isn't passed
/// over is answered, in order, into the sink.
///
/// At `Ended` the sink has the whole transcript of the source's lines over the history that the pass has seen, at
/// `ReadFault` that of the lines that line feeds end among the bytes that were taken, and at `TooMuch` that of the
/// lines that line feeds end within the limit of 2^30 bytes, which is passed at no other end. After any end it has the
/// beginning of one. A line that asks to publish or waits for it may call the gate.
pub fn serve_desk<S: Source, K: Sink, G: Gate, R: Wait>(
    rt: &R,
    alloc: Global,
    office: &Office,
    plan: &Plan,
    pass: Pass<CoreBook>,
    source: &mut S,
    sink: &mut K,
    gate: &G,
) -> (Pass<CoreBook>, DeskEnd)
    requires office { IsPassOf office.now pass }
    requires plan { pass.label ≡ Some plan.now }
    requires unused { sent_by pass.party pass.seen ≡ [] }
    ensures pass { IsSameButSeen pass result.0 }
    ensures end { IsDeskEnd plan.now pass.party
        (ends_told (S.stock source.old) (K.paper sink.old))
        (ends_told (S.stock source.new) (K.paper sink.new)) result.1 (journal result.0.seen) }
{
    let service = Service {
        alloc,
        office,
        plan,
        gate,
    };
    let (pass, end) = serve_source::<Brand, S, K, G, R>(
        Blank::new(1),
        rt,
        &service,
        pass,
        source,
        sink,
    );
    office.desk_ended();
    (pass, end)
}

/// Serves a desk with a ledger for the solver's steps, which nobody asks for.
fn serve_source<L: Ledger, S: Source, K: Sink, G: Gate, R: Wait>(
    blank: Blank,
    rt: &R,
    service: &Service<G>,
    pass: Pass<CoreBook>,
    source: &mut S,
    sink: &mut K,
) -> (Pass<CoreBook>, DeskEnd)
    requires name { blank.name ≡ L.name }
    requires parts { blank.parts ≡ L.parts }
    requires some { 0 < blank.parts }
    requires office { IsPassOf service.now.office.now pass }
    requires plan { pass.label ≡ Some service.now.plan.now }
    requires unused { sent_by pass.party pass.seen ≡ [] }
    ensures pass { IsSameButSeen pass result.0 }
    ensures end { IsDeskEnd service.now.plan.now pass.party
        (ends_told (S.stock source.old) (K.paper sink.old))
        (ends_told (S.stock source.new) (K.paper sink.new)) result.1 (journal result.0.seen) }
{
    let Ok(mut lines) = Lines::new(service.alloc) else {
        return (pass, DeskEnd::Memory);
    };
    let Ok(mut answers) = no_answers(service.alloc) else {
        return (pass, DeskEnd::Memory);
    };
    let mut steps = Steps::<L>::open(blank);
    let mut progress = Progress { pass, own: 0 };
    let mut buffer = [0; PIECE];
    let mut size = 0;
    'reading: loop {
        match read_piece(source, &mut buffer, size) {
            Ok(0) => {
                let (last, said) = serve_end(
                    rt,
                    service,
                    progress,
                    &mut lines,
                    &mut answers,
                    sink,
                    &mut steps,
                );
                if let Err(refused) = said {
                    return (last.pass, end_of(refused));
                }
                return (last.pass, DeskEnd::Ended);
            }
            Ok(count) => {
                if size == MOST_BYTES {
                    return (progress.pass, DeskEnd::TooMuch);
                }
                let piece = &buffer[..count];
                let (next, said) = serve_piece(
                    rt,
                    service,
                    progress,
                    &mut lines,
                    piece,
                    &mut answers,
                    sink,
                    &mut steps,
                );
                if let Err(refused) = said {
                    return (next.pass, end_of(refused));
                }
                progress = next;
                size += count;
            }
            Err(Failed) => return (progress.pass, DeskEnd::ReadFault),
        }
    }
}
