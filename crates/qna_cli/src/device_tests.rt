// Devices that fail, by one table: what each command leaves, and with which status.

use crate::repeating::RepeatingCabinet;
use crate::run;
use qna_cases::FOOD_PLAN;
use qna_edges::{MemCabinet, MemSink, MemSource, OpenGate};
use std::alloc::Global;
use std::process::Abort;
use std::sync::Wait;
use std::test::Fail;
use std::thread::Threads;

/// A command over failing devices, by a name, and what it leaves.
#[derive(Clone, Copy)]
struct DeviceCase<'a> {
    name: &'a str,
    words: &'a [&'a str],
    /// The bytes under `i` and under `h`.
    first: &'a [u8],
    second: &'a [u8],
    /// The file that has 2^30 + 1 bytes of comments before its own.
    repeats: &'a str,
    /// Which calls fail, by their numbers from 1: of opening and creating together, of reading `p` and `i`, and of
    /// writing `o`, `g`, `j` and the report.
    opens: &'a [u64],
    plan: &'a [u64],
    input: &'a [u64],
    output: &'a [u64],
    other: &'a [u64],
    journal: &'a [u64],
    told: &'a [u64],
    status: u8,
    report: &'a [u8],
    /// What stands under `o`, `g` and `j`, if anything does.
    o: Option<&'a [u8]>,
    g: Option<&'a [u8]>,
    j: Option<&'a [u8]>,
}

/// `batch` over devices that never fail, with two lines to refuse.
const BATCH: DeviceCase = DeviceCase {
    name: "batch",
    words: &["batch", "p", "i", "o"],
    first: b"bench,FOOD,2085,1400\nsync,1\n",
    second: b"",
    repeats: "",
    opens: &[],
    plan: &[],
    input: &[],
    output: &[],
    other: &[],
    journal: &[],
    told: &[],
    status: 0,
    report: b"1,no,range\n2,no,form\n",
    o: Some(b"release,0\nend,0\n"),
    g: None,
    j: None,
};

/// A year of lines.
const YEAR: &'static [u8] =
    b"ind,FOOD,2021Q1,100\nind,FOOD,2021Q2,100\nind,FOOD,2021Q3,100\nind,FOOD,2021Q4,100\nbench,FOOD,2021,1000\n";

/// Their answers.
const TAKEN: &'static [u8] = b"ok,1\nok,2\nok,3\nok,4\nok,5\n";

/// Their journal, where the first desk sends them.
const SENT: &'static [u8] =
    b"ind,FOOD,2021Q1,100,1\nind,FOOD,2021Q2,100,1\nind,FOOD,2021Q3,100,1\nind,FOOD,2021Q4,100,1\nbench,FOOD,2021,1000,1\n";

/// Their journal, where the second desk sends them.
const SENT_BY_SECOND: &'static [u8] =
    b"ind,FOOD,2021Q1,100,2\nind,FOOD,2021Q2,100,2\nind,FOOD,2021Q3,100,2\nind,FOOD,2021Q4,100,2\nbench,FOOD,2021,1000,2\n";

/// The answers to the second desk's lines.
const REFUSED: &'static [u8] = b"no,unknown\nno,range\n";

/// `live` with two desks over devices that never fail. The first sends a year, the second lines that are refused.
const LIVE: DeviceCase = DeviceCase {
    name: "live",
    words: &["live", "p", "j", "i", "o", "h", "g", "--workers", "0"],
    first: YEAR,
    second: b"cert,RENT\nind,FOOD,2085Q1,1\n",
    report: b"release,5\nv,FOOD,2021Q1,250\nv,FOOD,2021Q2,250\nv,FOOD,2021Q3,250\nv,FOOD,2021Q4,250\nk,FOOD,2021Q1,missing\nk,FOOD,2021Q2,missing\nk,FOOD,2021Q3,missing\nk,FOOD,2021Q4,missing\nc,FOOD,2021Q1,missing\nc,FOOD,2021Q2,missing\nc,FOOD,2021Q3,missing\nc,FOOD,2021Q4,missing\na,FOOD,2021,1000,missing,10000000,0\ng,FOOD,1,12,0\nend,5\n",
    o: Some(TAKEN),
    g: Some(REFUSED),
    j: Some(SENT),
    ..BATCH
};

/// The devices fail in turn.
const CASES: &'static [DeviceCase] = &[
    DeviceCase {
        name: "batch: the plan can't be opened",
        opens: &[1],
        status: 4,
        report: b"open,p\n",
        o: None,
        g: None,
        j: None,
        ..BATCH
    },
    DeviceCase {
        name: "batch: the input can't be opened",
        opens: &[2],
        status: 4,
        report: b"open,i\n",
        o: None,
        g: None,
        j: None,
        ..BATCH
    },
    DeviceCase {
        name: "batch: the output can't be created",
        opens: &[3],
        status: 4,
        report: b"open,o\n",
        o: None,
        g: None,
        j: None,
        ..BATCH
    },
    DeviceCase {
        name: "batch: the plan's first read fails",
        plan: &[1],
        status: 5,
        report: b"read,p\n",
        o: None,
        g: None,
        j: None,
        ..BATCH
    },
    DeviceCase {
        name: "batch: the input's first read fails",
        input: &[1],
        status: 5,
        report: b"read,i\n",
        o: Some(b""),
        g: None,
        j: None,
        ..BATCH
    },
    DeviceCase {
        name: "batch: the output's first write fails",
        output: &[1],
        status: 6,
        report: b"1,no,range\n2,no,form\nwrite,o\n",
        o: Some(b""),
        g: None,
        j: None,
        ..BATCH
    },
    DeviceCase {
        name: "batch: the report's first write fails on a refused line",
        told: &[1],
        status: 6,
        report: b"",
        o: Some(b""),
        g: None,
        j: None,
        ..BATCH
    },
    DeviceCase {
        name: "live: the first desk's second read fails",
        input: &[2],
        status: 5,
        ..LIVE
    },
    DeviceCase {
        name: "live: the first desk's first write fails, and the second sends too much",
        repeats: "h",
        output: &[1],
        status: 6,
        o: Some(b""),
        g: Some(b""),
        j: Some(SENT),
        ..LIVE
    },
    DeviceCase {
        name: "live: the first desk sends too much, and the second's first write fails",
        first: b"",
        second: YEAR,
        repeats: "i",
        other: &[1],
        status: 8,
        o: Some(b""),
        g: Some(b""),
        j: Some(SENT_BY_SECOND),
        ..LIVE
    },
    DeviceCase {
        name: "live: the journal's first write fails",
        journal: &[1],
        status: 6,
        o: Some(TAKEN),
        g: Some(REFUSED),
        j: Some(b""),
        ..LIVE
    },
    DeviceCase {
        name: "live: none fails",
        ..LIVE
    },
    DeviceCase {
        name: "batch: none fails",
        ..BATCH
    },
];

/// Files in memory with the devices of a case.
fn cabinet_of(alloc: Global, case: &DeviceCase) -> Result<MemCabinet, Fail> {
    let mut files = MemCabinet::new(alloc);
    for (name, text, fails) in [
        ("p", FOOD_PLAN, case.plan),
        ("i", case.first, case.input),
        ("h", case.second, &[]),
    ] {
        let source = MemSource::new(text.to_vec(alloc)?, 4096, fails.to_vec(alloc)?);
        files.put_file(name, source)?;
    }
    for (name, fails) in [("o", case.output), ("g", case.other), ("j", case.journal)] {
        files.plan_sink(name, MemSink::new(alloc, 4096, fails.to_vec(alloc)?))?;
    }
    files.fail_opens(case.opens.to_vec(alloc)?);
    Ok(files)
}

/// Runs a case and asserts what it leaves.
fn assert_case<R: Abort + Threads + Wait + Sync>(
    rt: &R,
    alloc: Global,
    case: &DeviceCase,
) -> Result<(), Fail> {
    let mut cabinet = RepeatingCabinet {
        files: cabinet_of(alloc, case)?,
        repeats: case.repeats,
    };
    let mut report = MemSink::new(alloc, 4096, case.told.to_vec(alloc)?);
    let status = run(rt, alloc, case.words, &mut cabinet, &mut report, &OpenGate);
    assert_eq!(rt; status.number(), case.status, "{}", case.name);
    assert_eq!(rt; report.held(), case.report, "{}", case.name);
    for (name, left) in [("o", case.o), ("g", case.g), ("j", case.j)] {
        assert!(rt; cabinet.files.file(name) == left, "{}: {name}", case.name);
    }
    Ok(())
}

#[test]
fn devices_that_fail_are_told_and_leave_beginnings(rt: HostRuntime) -> Result<(), Fail> {
    let alloc = rt.alloc();
    for case in CASES {
        assert_case(&rt, alloc, case)?;
    }
    Ok(())
}
