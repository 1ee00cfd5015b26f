// Words of another form, and devices that fail within a file or with another.

use super::{Devices, WORKING, assert_left, left_by_batch};
use crate::run;
use qna_cases::{FOOD_PLAN, words};
use qna_edges::{MemCabinet, MemSink, OpenGate};
use std::alloc::Global;
use std::process::Abort;
use std::sync::Wait;
use std::test::Fail;
use std::thread::Threads;

/// Two refused lines, of 21 and of 7 bytes.
const INPUT: &[u8] = b"bench,FOOD,2085,1400\nsync,1\n";

/// The report of the two.
const REFUSED: &[u8] = b"1,no,range\n2,no,form\n";

/// Devices by a name, and the status, the output and the report that they lead to.
struct FaultCase<'a> {
    name: &'a str,
    devices: Devices<'a>,
    status: u8,
    output: Option<&'a [u8]>,
    report: &'a [u8],
}

/// Runs the plan and the input of two refused lines over the devices of each case.
fn assert_faults(rt: &impl Abort, alloc: Global, cases: &[FaultCase]) -> Result<(), Fail> {
    for case in cases {
        assert!(rt; case.devices.piece > 0);
        let left = left_by_batch(alloc, FOOD_PLAN, INPUT, &case.devices)?;
        assert_left(rt, &left, case.name, case.status, case.output, case.report)?;
    }
    Ok(())
}

#[test]
fn a_file_that_cant_be_opened_is_named(rt: HostRuntime) -> Result<(), Fail> {
    assert_faults(
        &rt,
        rt.alloc(),
        &[
            FaultCase {
                name: "nor can the line of the plan be written",
                devices: Devices {
                    opens: &[1],
                    report: &[1],
                    ..WORKING
                },
                status: 4,
                output: None,
                report: b"",
            },
            FaultCase {
                name: "the line of the input breaks off",
                devices: Devices {
                    opens: &[2],
                    report: &[3],
                    piece: 2,
                    ..WORKING
                },
                status: 4,
                output: None,
                report: b"open",
            },
        ],
    )
}

#[test]
fn a_read_that_fails_names_its_file(rt: HostRuntime) -> Result<(), Fail> {
    assert_faults(
        &rt,
        rt.alloc(),
        &[
            FaultCase {
                name: "the plan's third read fails",
                devices: Devices {
                    plan: &[3],
                    piece: 2,
                    ..WORKING
                },
                status: 5,
                output: None,
                report: b"read,p\n",
            },
            FaultCase {
                name: "the input's ninth read fails",
                devices: Devices {
                    input: &[9],
                    piece: 2,
                    ..WORKING
                },
                status: 5,
                output: Some(b""),
                report: b"read,i\n",
            },
            FaultCase {
                name: "a read fails before the first line feed",
                devices: Devices {
                    input: &[2],
                    piece: 20,
                    ..WORKING
                },
                status: 5,
                output: Some(b""),
                report: b"read,i\n",
            },
            FaultCase {
                name: "a read fails behind the first line feed",
                devices: Devices {
                    input: &[2],
                    piece: 21,
                    ..WORKING
                },
                status: 5,
                output: Some(b""),
                report: b"1,no,range\nread,i\n",
            },
            FaultCase {
                name: "a read fails before the last line feed",
                devices: Devices {
                    input: &[2],
                    piece: 27,
                    ..WORKING
                },
                status: 5,
                output: Some(b""),
                report: b"1,no,range\nread,i\n",
            },
            FaultCase {
                name: "a read fails behind the last line feed",
                devices: Devices {
                    input: &[2],
                    piece: 28,
                    ..WORKING
                },
                status: 5,
                output: Some(b""),
                report: b"1,no,range\n2,no,form\nread,i\n",
            },
            FaultCase {
                name: "nor can the line of the read be written",
                devices: Devices {
                    input: &[1],
                    report: &[1],
                    ..WORKING
                },
                status: 5,
                output: Some(b""),
                report: b"",
            },
        ],
    )
}

#[test]
fn a_write_that_fails_leaves_a_beginning(rt: HostRuntime) -> Result<(), Fail> {
    assert_faults(
        &rt,
        rt.alloc(),
        &[
            FaultCase {
                name: "the output's third write fails",
                devices: Devices {
                    output: &[3],
                    piece: 4,
                    ..WORKING
                },
                status: 6,
                output: Some(b"release,"),
                report: b"1,no,range\n2,no,form\nwrite,o\n",
            },
            FaultCase {
                name: "nor can the line of the write be written",
                devices: Devices {
                    output: &[1],
                    report: &[2],
                    ..WORKING
                },
                status: 6,
                output: Some(b""),
                report: REFUSED,
            },
            FaultCase {
                name: "the report breaks off within a line",
                devices: Devices {
                    report: &[2],
                    piece: 4,
                    ..WORKING
                },
                status: 6,
                output: Some(b""),
                report: b"1,no",
            },
            FaultCase {
                name: "the report breaks off between two lines",
                devices: Devices {
                    report: &[2],
                    piece: 21,
                    ..WORKING
                },
                status: 6,
                output: Some(b""),
                report: b"1,no,range\n",
            },
        ],
    )
}

/// Runs the words over no files, and asserts the status and the report.
fn assert_words<R: Abort + Threads + Wait + Sync>(
    rt: &R,
    alloc: Global,
    words: &[&str],
    status: u8,
    told: &[u8],
) {
    let mut cabinet = MemCabinet::new(alloc);
    let mut report = MemSink::new(alloc, 4096, Vec::new(alloc));
    let ended = run(rt, alloc, words, &mut cabinet, &mut report, &OpenGate);
    assert_eq!(rt; ended.number(), status, "{words:?}");
    assert_eq!(rt; report.held(), told, "{words:?}");
}

#[test]
fn words_of_another_form_are_told(rt: HostRuntime) -> Result<(), Fail> {
    let alloc = rt.alloc();
    for case in words() {
        assert_words(&rt, alloc, case.words, case.status, case.report);
    }
    Ok(())
}
