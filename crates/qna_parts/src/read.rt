//! Reading a whole source, or a whole file of a cabinet, up to a limit.

ghost use Rattle.std.specs.Prelude.{◌≡◌, ◌≢◌, ◌<◌, ◌≤◌, ◌+◌, Some, [], length, IfOk, OnOk, IfErr, IsErrOf};
ghost use Rattle.qna_edges.specs.Count.{Rose};
ghost use Rattle.qna_edges.specs.Stock.{OnLeft, OnLeftAndRest, WasRead};
ghost use Rattle.qna_edges.specs.Shelves.{OnFile, ReadRose, OnlyRead};
ghost use Rattle.qna_parts.specs.Trace.{trace_of, IsReadWhole, IsUnfailed, IsUnopened, Passes};

use qna_edges::{Cabinet, Failed, Refused, Source};
use std::alloc::Global;

/// Why a file wasn't read to its end.
#[derive(Clone, Copy, Debug, PartialEq, Eq)]
pub enum Unread {
    /// Want of memory.
    Memory,
    /// The file couldn't be opened.
    Open,
    /// A read failed.
    Read,
    /// The file has more bytes than its limit.
    TooMuch,
}

/// Reads a source to its end, if it gives no more bytes than a limit.
#[tactic(auto, using(qna_edges::proofs::Stock::of_reads))]
pub fn read_all<S: Source>(alloc: Global, source: &mut S, limit: usize) -> Result<Vec<u8>, Unread>
    ensures text { IfOk result (λ bytes. OnLeft (S.stock source.old) (λ text. bytes.items ≡ text)) }
    ensures ended { OnOk result (OnLeft (S.stock source.old) (λ text.
        (S.stock source.new).left ≡ Some [])) }
    ensures well { ¬ IsErrOf result Unread.Read →
        (S.stock source.new).faults ≡ (S.stock source.old).faults }
    ensures within { IfOk result (λ bytes. length bytes.items ≤ limit) }
    ensures passed { IsErrOf result Unread.TooMuch →
        OnLeftAndRest (S.stock source.old) (S.stock source.new) (λ text rest.
        Passes limit 8192 (length text) (length rest)) }
    ensures read_within { IsErrOf result Unread.Read →
        OnLeftAndRest (S.stock source.old) (S.stock source.new) (λ text rest.
        length text ≤ limit + length rest) }
    ensures failed { IsErrOf result Unread.Read →
        Rose (S.stock source.old).faults (S.stock source.new).faults }
    ensures opened { IfErr result (λ unread. unread ≢ Unread.Open) }
    ensures only { WasRead (S.stock source.old) (S.stock source.new) }
{
    let mut bytes = Vec::new(alloc);
    let mut buffer = [0; 8192];
    'reading: loop {
        match source.read(&mut buffer) {
            Ok(0) => return Ok(bytes),
            Ok(count) => {
                if bytes.extend_from_slice(&buffer[..count]).is_err() {
                    return Err(Unread::Memory);
                }
                if bytes.len() > limit {
                    return Err(Unread::TooMuch);
                }
            }
            Err(Failed) => return Err(Unread::Read),
        }
    }
}

/// Reads the file of a name to its end, if it has no more bytes than a limit, and hands its source back.
#[tactic(auto, using(qna_edges::proofs::Stock::capped_none))]
pub fn read_file<C: Cabinet>(
    alloc: Global,
    cabinet: &mut C,
    name: &str,
    limit: usize,
) -> Result<Vec<u8>, Unread>
    ensures text { IfOk result (λ bytes.
        OnFile (C.shelves cabinet.old) name.now (λ text. bytes.items ≡ text)) }
    ensures whole { OnOk result (IsReadWhole limit
        (trace_of (C.shelves cabinet.old) (C.shelves cabinet.new) name.now)) }
    ensures within { IfOk result (λ bytes. length bytes.items ≤ limit) }
    ensures passed { IsErrOf result Unread.TooMuch →
        OnFile (C.shelves cabinet.old) name.now (λ text.
        Passes limit 8192 (length text) ((C.shelves cabinet.new).under name.now).rest) }
    ensures opened { IsErrOf result Unread.Open → IsUnopened
        (trace_of (C.shelves cabinet.old) (C.shelves cabinet.new) name.now) }
    ensures memory { IsErrOf result Unread.Memory → IsUnfailed
        (trace_of (C.shelves cabinet.old) (C.shelves cabinet.new) name.now) }
    ensures read { IsErrOf result Unread.Read →
        ReadRose (C.shelves cabinet.old) (C.shelves cabinet.new) name.now }
    ensures read_within { IsErrOf result Unread.Read →
        OnFile (C.shelves cabinet.old) name.now (λ text.
        length text ≤ limit + ((C.shelves cabinet.new).under name.now).rest) }
    ensures only { OnlyRead (C.shelves cabinet.old) (C.shelves cabinet.new) name.now }
{
    let mut source = match cabinet.open(name) {
        Ok(source) => source,
        Err(Refused::Failed) => return Err(Unread::Open),
        Err(Refused::Memory) => return Err(Unread::Memory),
    };
    let read = read_all(alloc, &mut source, limit);
    cabinet.back_in(source);
    read
}
