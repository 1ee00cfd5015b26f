// A run of `live` over files in memory.

ghost use Rattle.std.specs.Prelude.{◌<◌};

use qna_edges::{MemCabinet, MemSink, MemSource, OpenGate, Status};
use qna_live::run_live;
use std::alloc::Global;
use std::sync::Wait;
use std::test::Fail;
use std::thread::Threads;

/// Four indicators and a benchmark.
pub(crate) const YEAR: &'static [u8] =
    b"ind,FOOD,2021Q1,100\nind,FOOD,2021Q2,100\nind,FOOD,2021Q3,100\nind,FOOD,2021Q4,100\nbench,FOOD,2021,1000\n";

/// Their journal.
pub(crate) const YEAR_SENT: &'static [u8] =
    b"ind,FOOD,2021Q1,100,1\nind,FOOD,2021Q2,100,1\nind,FOOD,2021Q3,100,1\nind,FOOD,2021Q4,100,1\nbench,FOOD,2021,1000,1\n";

/// Their answers.
pub(crate) const YEAR_TAKEN: &'static [u8] = b"ok,1\nok,2\nok,3\nok,4\nok,5\n";

/// Their release.
pub(crate) const YEAR_RELEASE: &'static [u8] =
    b"release,5\nv,FOOD,2021Q1,250\nv,FOOD,2021Q2,250\nv,FOOD,2021Q3,250\nv,FOOD,2021Q4,250\nk,FOOD,2021Q1,missing\nk,FOOD,2021Q2,missing\nk,FOOD,2021Q3,missing\nk,FOOD,2021Q4,missing\nc,FOOD,2021Q1,missing\nc,FOOD,2021Q2,missing\nc,FOOD,2021Q3,missing\nc,FOOD,2021Q4,missing\na,FOOD,2021,1000,missing,10000000,0\ng,FOOD,1,12,0\nend,5\n";

/// The files of a run, and which calls of their devices fail, by their numbers from 1.
#[derive(Clone, Copy)]
pub(crate) struct Files<'a> {
    /// the plan, under `p`
    pub plan: &'a [u8],
    /// the lines of the first desk, under `i`
    pub first: &'a [u8],
    /// the lines of the second, under `h`
    pub second: &'a [u8],
    /// openings and creations, counted together
    pub opens: &'a [u64],
    /// reads of the plan
    pub plan_reads: &'a [u64],
    /// reads of the first desk's lines
    pub first_reads: &'a [u64],
    /// reads of the second's
    pub second_reads: &'a [u64],
    /// writes of the first desk's answers, under `o`
    pub first_writes: &'a [u64],
    /// writes of the second's, under `g`
    pub second_writes: &'a [u64],
    /// writes of the journal, under `j`
    pub journal_writes: &'a [u64],
    /// writes of the report
    pub report_writes: &'a [u64],
    /// the most bytes of one write of the journal and of the report
    pub piece: usize,
}

/// One item, desks that send nothing, and devices that never fail.
pub(crate) const QUIET: Files = Files {
    plan: b"start,2021\nitem,FOOD,\n",
    first: b"",
    second: b"",
    opens: &[],
    plan_reads: &[],
    first_reads: &[],
    second_reads: &[],
    first_writes: &[],
    second_writes: &[],
    journal_writes: &[],
    report_writes: &[],
    piece: 4096,
};

/// What a run left: the status, the files, where they stand, and the report.
#[derive(Drop)]
pub(crate) struct Left {
    pub status: Status,
    pub first: Option<Vec<u8>>,
    pub second: Option<Vec<u8>>,
    pub journal: Option<Vec<u8>>,
    pub report: Vec<u8>,
}

/// Runs `live` with these words.
pub(crate) fn left_by<R: Threads + Wait + Sync>(
    rt: &R,
    alloc: Global,
    words: &[&str],
    files: &Files,
) -> Result<Left, Fail>
    requires { 0 < files.now.piece }
{
    let mut cabinet = MemCabinet::new(alloc);
    for (name, text, reads) in [
        ("p", files.plan, files.plan_reads),
        ("i", files.first, files.first_reads),
        ("h", files.second, files.second_reads),
    ] {
        let source = MemSource::new(text.to_vec(alloc)?, 4096, reads.to_vec(alloc)?);
        cabinet.put_file(name, source)?;
    }
    for (name, writes) in [("o", files.first_writes), ("g", files.second_writes)] {
        cabinet.plan_sink(name, MemSink::new(alloc, 4096, writes.to_vec(alloc)?))?;
    }
    let journal = MemSink::new(alloc, files.piece, files.journal_writes.to_vec(alloc)?);
    cabinet.plan_sink("j", journal)?;
    cabinet.fail_opens(files.opens.to_vec(alloc)?);
    let mut report = MemSink::new(alloc, files.piece, files.report_writes.to_vec(alloc)?);
    let status = run_live(rt, alloc, words, &mut cabinet, &mut report, &OpenGate);
    Ok(Left {
        status,
        first: held_under(alloc, &cabinet, "o")?,
        second: held_under(alloc, &cabinet, "g")?,
        journal: held_under(alloc, &cabinet, "j")?,
        report: report.held().to_vec(alloc)?,
    })
}

/// What stands under a name.
fn held_under(alloc: Global, cabinet: &MemCabinet, name: &str) -> Result<Option<Vec<u8>>, Fail> {
    match cabinet.file(name) {
        Some(bytes) => Ok(Some(bytes.to_vec(alloc)?)),
        None => Ok(None),
    }
}

/// Whether a file stands there with these bytes, or none stands where none should.
pub(crate) fn holds(file: &Option<Vec<u8>>, bytes: Option<&[u8]>) -> bool {
    match (file, bytes) {
        (Some(held), Some(bytes)) => held.as_slice() == bytes,
        (None, None) => true,
        _ => false,
    }
}
