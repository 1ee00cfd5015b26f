// `live` over files in memory: one desk's answers line by line, a device that fails within, words, and a desk that says
// nothing.

ghost use Rattle.std.specs.Prelude.{◌<◌, ◌≤◌, length};

use crate::run;
use qna_edges::{MemCabinet, MemSink, MemSource, OpenGate, Status};
use std::alloc::Global;
use std::sync::Wait;
use std::test::Fail;
use std::thread::Threads;

/// One item.
const PLAN: &'static [u8] = b"start,2021\nitem,FOOD,\n";

/// The most bytes of one read or write of the desk, and which of its writes fail, by their numbers from 1.
#[derive(Clone, Copy)]
struct Devices<'a> {
    piece: usize,
    output: &'a [u64],
}

/// Devices that never fail.
const WORKING: Devices = Devices {
    piece: 4096,
    output: &[],
};

/// What a command left.
#[derive(Drop)]
struct Left {
    status: Status,
    journal: Vec<u8>,
    answers: Vec<u8>,
    report: Vec<u8>,
}

/// What stands under a name, or nothing.
fn held_under(alloc: Global, cabinet: &MemCabinet, name: &str) -> Result<Vec<u8>, Fail> {
    match cabinet.file(name) {
        Some(bytes) => Ok(bytes.to_vec(alloc)?),
        None => Ok(Vec::new(alloc)),
    }
}

/// Runs words over the files of a desk in memory.
fn left_by<R: Threads + Wait + Sync>(
    rt: &R,
    alloc: Global,
    words: &[&str],
    lines: &[u8],
    devices: &Devices,
) -> Result<Left, Fail>
    requires { 0 < devices.now.piece }
{
    let mut cabinet = MemCabinet::new(alloc);
    cabinet.put_file(
        "p",
        MemSource::new(PLAN.to_vec(alloc)?, 4096, Vec::new(alloc)),
    )?;
    cabinet.put_file(
        "i",
        MemSource::new(lines.to_vec(alloc)?, devices.piece, Vec::new(alloc)),
    )?;
    let output = devices.output.to_vec(alloc)?;
    cabinet.plan_sink("o", MemSink::new(alloc, devices.piece, output))?;
    let mut report = MemSink::new(alloc, 4096, Vec::new(alloc));
    let status = run(rt, alloc, words, &mut cabinet, &mut report, &OpenGate);
    Ok(Left {
        status,
        journal: held_under(alloc, &cabinet, "j")?,
        answers: held_under(alloc, &cabinet, "o")?,
        report: report.held().to_vec(alloc)?,
    })
}

/// A desk alone, without a worker.
const ALONE: &'static [&str] = &["live", "p", "j", "i", "o", "--workers", "0"];

/// A desk with two workers.
const HELPED: &'static [&str] = &["live", "p", "j", "i", "o"];

/// Lines of every refusal, and two that are accepted, at the ends of their ranges. Before them stands a long one.
const LINES: &'static [u8] =
    b"ind,FOOD,2021Q1,0\nind,FOOD,2021Q1,-1\nind,FOOD,2021Q1,1000000001\nind,RENT,2021Q1,0\nind,FOOD,2085Q1,0\nind,FOOD,2085Q1,5\nbench,FOOD,2021,1000000000001\nprice,FOOD,2021Q1,0\nind,FOOD,2021Q5,5\nind,FOOD,2021,5\nind,FOOD,2084-Q4,1000000000\nbench,FOOD,2021,-1000000000000\n\n# note\ncert,FOOD\n";

/// Their answers but the last.
const ANSWERS: &str =
    "no,long\nno,zero\nno,range\nno,range\nno,unknown\nno,zero\nno,range\nno,range\nno,range\nno,form\nno,form\nok,1\nok,2\n";

/// The journal of them.
const JOURNAL: &'static [u8] = b"ind,FOOD,2084Q4,1000000000,1\nbench,FOOD,2021,-1000000000000,1\n";

/// A line of 257 letters, and the other lines.
fn long_and_lines(alloc: Global) -> Result<Vec<u8>, Fail> {
    let mut text = vec![in alloc; b'a'; 257]?;
    text.push(b'\n')?;
    text.extend_from_slice(LINES)?;
    Ok(text)
}

#[test]
fn each_line_has_its_answer(rt: HostRuntime) -> Result<(), Fail> {
    let alloc = rt.alloc();
    let text = long_and_lines(alloc)?;
    for words in [ALONE, HELPED] {
        let left = left_by(&rt, alloc, words, &text, &WORKING)?;
        assert!(&rt; left.answers.starts_with(ANSWERS.as_bytes()));
        let last = &left.answers[ANSWERS.len()..];
        let fronts: [&[u8]; 3] = [b"nocert,FOOD,0\n", b"nocert,FOOD,1\n", b"nocert,FOOD,2\n"];
        assert!(&rt; fronts.iter().any(|front| *front == last));
        assert_eq!(&rt; left.journal.as_slice(), JOURNAL);
        assert_eq!(&rt; left.report.as_slice(), b"release,2\nend,2\n".as_slice());
        assert_eq!(&rt; left.status, Status::Done);
    }
    Ok(())
}

/// Four indicators and a benchmark, and the question for their release.
const YEAR: &'static [u8] =
    b"ind,FOOD,2021Q1,100\nind,FOOD,2021Q2,100\nind,FOOD,2021Q3,100\nind,FOOD,2021Q4,100\nbench,FOOD,2021,1000\nrelease\n";

/// Their journal.
const YEAR_SENT: &'static [u8] =
    b"ind,FOOD,2021Q1,100,1\nind,FOOD,2021Q2,100,1\nind,FOOD,2021Q3,100,1\nind,FOOD,2021Q4,100,1\nbench,FOOD,2021,1000,1\n";

/// Their release.
const RELEASE: &'static [u8] =
    b"release,5\nv,FOOD,2021Q1,250\nv,FOOD,2021Q2,250\nv,FOOD,2021Q3,250\nv,FOOD,2021Q4,250\nk,FOOD,2021Q1,missing\nk,FOOD,2021Q2,missing\nk,FOOD,2021Q3,missing\nk,FOOD,2021Q4,missing\nc,FOOD,2021Q1,missing\nc,FOOD,2021Q2,missing\nc,FOOD,2021Q3,missing\nc,FOOD,2021Q4,missing\na,FOOD,2021,1000,missing,10000000,0\ng,FOOD,1,12,0\nend,5\n";

#[test]
fn a_broken_desk_leaves_journal_and_report(rt: HostRuntime) -> Result<(), Fail> {
    let alloc = rt.alloc();
    let broken = Devices {
        piece: 30,
        output: &[2],
        ..WORKING
    };
    let left = left_by(&rt, alloc, HELPED, YEAR, &broken)?;
    assert_eq!(&rt; left.status, Status::WriteFault);
    assert_eq!(&rt; left.answers.as_slice(), b"ok,1\n".as_slice());
    assert_eq!(&rt;
        left.journal.as_slice(),
        b"ind,FOOD,2021Q1,100,1\nind,FOOD,2021Q2,100,1\nind,FOOD,2021Q3,100,1\n".as_slice()
    );
    assert!(rt; left.report.starts_with(b"release,3\n") && left.report.ends_with(b"end,3\n"));
    Ok(())
}

#[test]
fn a_silent_desk_leaves_an_empty_journal(rt: HostRuntime) -> Result<(), Fail> {
    let alloc = rt.alloc();
    let left = left_by(&rt, alloc, HELPED, b"", &WORKING)?;
    assert_eq!(&rt; left.status, Status::Done);
    assert!(&rt; left.answers.is_empty() && left.journal.is_empty());
    assert_eq!(rt; left.report.as_slice(), b"release,0\nend,0\n".as_slice());
    Ok(())
}

#[test]
fn one_desk_reports_what_batch_writes(rt: HostRuntime) -> Result<(), Fail> {
    let alloc = rt.alloc();
    let left = left_by(&rt, alloc, ALONE, YEAR, &WORKING)?;
    assert_eq!(&rt; left.status, Status::Done);
    assert_eq!(&rt; left.journal.as_slice(), YEAR_SENT);
    assert_eq!(&rt; left.report.as_slice(), RELEASE);
    let batch = left_by(&rt, alloc, &["batch", "p", "i", "o"], YEAR, &WORKING)?;
    assert_eq!(rt; batch.answers.as_slice(), RELEASE);
    Ok(())
}

#[test]
fn other_words_are_no_form_of_live(rt: HostRuntime) -> Result<(), Fail> {
    let alloc = rt.alloc();
    let cases: [&[&str]; 12] = [
        &["live"],
        &["live", "p", "j"],
        &["live", "p", "j", "i"],
        &["live", "p", "j", "i", "o", "h"],
        &["live", "p", "j", "i", "i"],
        &["live", "p", "j", "", "o"],
        &["live", "--workers", "17", "p", "j", "i", "o"],
        &["live", "--workers", "p", "j", "i", "o"],
        &["live", "p", "j", "i", "o", "--workers"],
        &[
            "live",
            "--workers",
            "1",
            "--workers",
            "1",
            "p",
            "j",
            "i",
            "o",
        ],
        &["live", "--worker", "1", "p", "j", "i", "o"],
        &["batch", "--workers", "1", "p", "i", "o"],
    ];
    for words in cases {
        let left = left_by(&rt, alloc, words, YEAR, &WORKING)?;
        assert_eq!(&rt; left.status, Status::Usage);
        assert_eq!(&rt; left.report.as_slice(), b"usage\n".as_slice());
        assert!(&rt; left.journal.is_empty() && left.answers.is_empty());
    }
    for workers in ["0", "16", "00000000000000000002"] {
        let words = ["live", "p", "j", "--workers", workers, "i", "o"];
        let left = left_by(&rt, alloc, &words, b"", &WORKING)?;
        assert_eq!(&rt; left.status, Status::Done);
    }
    Ok(())
}
