// `check` over files in memory: the worked certificate and changed ones, the limits, the devices, and other words.

ghost use Rattle.std.specs.Prelude.{◌<◌, ◌≤◌};

use crate::{run, run_check};
use qna_cases::{CERTIFICATE, verdicts};
use qna_edges::{MemCabinet, MemSink, MemSource, OpenGate, Status};
use std::alloc::Global;
use std::process::Abort;
use std::test::Fail;

/// The years' benchmarks shared out by the year's ratio, with no multiplier; the gap stands in another row.
const ANNUAL_RATIOS: [(usize, &[u8]); 9] = [
    (14, b"x,2021Q1,250"),
    (15, b"x,2021Q2,250"),
    (16, b"x,2021Q3,250"),
    (17, b"x,2021Q4,250"),
    (18, b"x,2022Q1,350"),
    (19, b"x,2022Q2,350"),
    (20, b"x,2022Q3,350"),
    (21, b"x,2022Q4,350"),
    (22, b"u,2021,0"),
];

/// Which calls of each device fail, by their numbers from 1, and the most bytes of one read or write.
#[derive(Clone, Copy)]
struct Devices<'a> {
    opens: &'a [u64],
    reads: &'a [u64],
    report: &'a [u64],
    piece: usize,
}

const WORKING: Devices = Devices {
    opens: &[],
    reads: &[],
    report: &[],
    piece: 4096,
};

/// What the command left.
#[derive(Drop)]
struct Left {
    status: Status,
    report: Vec<u8>,
}

/// Runs `check c` over a file in memory.
fn left_by_check(alloc: Global, text: &[u8], devices: &Devices) -> Result<Left, Fail>
    requires { 0 < devices.now.piece }
{
    let mut cabinet = MemCabinet::new(alloc);
    let source = MemSource::new(
        text.to_vec(alloc)?,
        devices.piece,
        devices.reads.to_vec(alloc)?,
    );
    cabinet.put_file("c", source)?;
    cabinet.fail_opens(devices.opens.to_vec(alloc)?);
    let mut report = MemSink::new(alloc, devices.piece, devices.report.to_vec(alloc)?);
    let status = run_check(alloc, &["check", "c"], &mut cabinet, &mut report);
    Ok(Left {
        status,
        report: report.held().to_vec(alloc)?,
    })
}

/// The line of a number, or another text in its place.
fn line_at<'a>(number: usize, line: &'a [u8], changes: &[(usize, &'a [u8])]) -> &'a [u8] {
    for (place, other) in changes {
        if *place == number {
            return other;
        }
    }
    line
}

/// So many of the lines, with other texts in place of some.
fn text_with(alloc: Global, count: usize, changes: &[(usize, &[u8])]) -> Result<Vec<u8>, Fail> {
    let mut text = Vec::new(alloc);
    for (i, line) in CERTIFICATE.iter().enumerate() {
        if i < count {
            text.extend_from_slice(line_at(i + 1, line, changes))?;
            text.push(b'\n')?;
        }
    }
    Ok(text)
}

/// Asserts what is reported of a text, whether it is read and written whole or byte by byte.
fn check_report(
    rt: &impl Abort,
    alloc: Global,
    text: &[u8],
    name: &str,
    report: &[u8],
) -> Result<(), Fail> {
    let status = if report == b"yes\n".as_slice() {
        Status::Done
    } else {
        Status::CheckNo
    };
    for piece in [1, 4096] {
        let left = left_by_check(alloc, text, &Devices { piece, ..WORKING })?;
        assert_eq!(rt; left.report.as_slice(), report, "{name}");
        assert_eq!(rt; left.status, status, "{name}");
    }
    Ok(())
}

#[test]
fn certificates_get_their_verdict(rt: HostRuntime) -> Result<(), Fail> {
    let alloc = rt.alloc();
    for case in verdicts() {
        let text = text_with(alloc, case.lines, &[(case.line, case.text)])?;
        check_report(&rt, alloc, &text, case.name, case.report)?;
    }
    Ok(())
}

#[test]
fn annual_ratios_have_a_true_and_large_gap(rt: HostRuntime) -> Result<(), Fail> {
    let alloc = rt.alloc();
    for (gap, report) in [
        (
            b"gap,1000000000000000000000000".as_slice(),
            b"yes\n".as_slice(),
        ),
        (b"gap,0", b"no,gap,0,1000000000000000000000000\n"),
    ] {
        let mut changes = ANNUAL_RATIOS.to_vec(alloc)?;
        changes.push((23, gap))?;
        let text = text_with(alloc, 24, &changes)?;
        check_report(&rt, alloc, &text, "annual ratios", report)?;
    }
    Ok(())
}

#[test]
fn cut_certificates_lack_the_next_line(rt: HostRuntime) -> Result<(), Fail> {
    let alloc = rt.alloc();
    for count in 0..24u8 {
        let text = text_with(alloc, usize::from(count), &[])?;
        let report = format!(in alloc; "no,shape,{}\n", count + 1)?;
        check_report(&rt, alloc, &text, "a cut certificate", report.as_bytes())?;
    }
    let mut text = text_with(alloc, 24, &[])?;
    text.pop();
    check_report(&rt, alloc, &text, "no last line feed", b"yes\n")
}

/// A certificate of so many quarters with the indicator 100 and the value 250, of which the first year is benchmarked.
fn text_of_quarters(alloc: Global, quarters: u16) -> Result<Vec<u8>, Fail>
    requires { quarters ≤ 512 }
{
    let mut text = Vec::new(alloc);
    text.extend_from_slice(b"cert,FOOD,10\nscale,12\nstart,2021\n")?;
    for t in 0..quarters {
        let line = format!(in alloc; "i,{}Q{},100\n", 2021 + t / 4, t % 4 + 1)?;
        text.extend_from_slice(line.as_bytes())?;
    }
    text.extend_from_slice(b"b,2021,1000\n")?;
    for t in 0..quarters {
        let line = format!(in alloc; "x,{}Q{},250\n", 2021 + t / 4, t % 4 + 1)?;
        text.extend_from_slice(line.as_bytes())?;
    }
    text.extend_from_slice(b"gap,0\nend\n")?;
    Ok(text)
}

#[test]
fn certificates_have_256_quarters_at_most(rt: HostRuntime) -> Result<(), Fail> {
    let alloc = rt.alloc();
    for (quarters, report) in [
        (256, b"yes\n".as_slice()),
        (257, b"no,range,260\n"),
        (512, b"no,range,260\n"),
    ] {
        let text = text_of_quarters(alloc, quarters)?;
        check_report(&rt, alloc, &text, "many quarters", report)?;
    }
    Ok(())
}

#[test]
fn failing_devices_end_a_check_with_their_status(rt: HostRuntime) -> Result<(), Fail> {
    let alloc = rt.alloc();
    let refused = text_with(alloc, 24, &[(14, b"x,2021Q1,228")])?;
    let accepted = text_with(alloc, 24, &[])?;
    let whole = vec![in alloc; b'#'; 1_048_576]?;
    let long = vec![in alloc; b'#'; 1_048_577]?;
    for (text, opens, reads, writes, piece, status, report) in [
        (
            &accepted,
            [1].as_slice(),
            [].as_slice(),
            [].as_slice(),
            4096,
            Status::OpenFault,
            b"open,c\n".as_slice(),
        ),
        (&accepted, &[1], &[], &[1], 4096, Status::OpenFault, b""),
        (
            &accepted,
            &[],
            &[1],
            &[],
            4096,
            Status::ReadFault,
            b"read,c\n",
        ),
        (
            &accepted,
            &[],
            &[9],
            &[],
            16,
            Status::ReadFault,
            b"read,c\n",
        ),
        (&accepted, &[], &[2], &[3], 2, Status::ReadFault, b"read"),
        (&accepted, &[], &[], &[1], 4096, Status::WriteFault, b""),
        (&accepted, &[], &[], &[3], 1, Status::WriteFault, b"ye"),
        (&refused, &[], &[], &[1], 4096, Status::CheckNo, b""),
        (&refused, &[], &[], &[2], 4, Status::CheckNo, b"no,s"),
        (
            &whole,
            &[],
            &[],
            &[],
            4096,
            Status::CheckNo,
            b"no,shape,1\n",
        ),
        (&long, &[], &[], &[], 4096, Status::TooMuch, b"toomuch,c\n"),
    ] {
        assert!(rt; piece > 0);
        let devices = Devices {
            opens,
            reads,
            report: writes,
            piece,
        };
        let left = left_by_check(alloc, text, &devices)?;
        assert_eq!(rt; left.report.as_slice(), report);
        assert_eq!(rt; left.status, status);
    }
    Ok(())
}

#[test]
fn words_of_check_have_one_form(rt: HostRuntime) -> Result<(), Fail> {
    let alloc = rt.alloc();
    let mut cabinet = MemCabinet::new(alloc);
    cabinet.put_file(
        "c",
        MemSource::new(text_with(alloc, 24, &[])?, 4096, Vec::new(alloc)),
    )?;
    for (words, status, report) in [
        (["check"].as_slice(), Status::Usage, b"usage\n".as_slice()),
        (&["check", ""], Status::Usage, b"usage\n"),
        (&["check", "-x"], Status::Usage, b"usage\n"),
        (&["check", "c", "d"], Status::Usage, b"usage\n"),
        (&["check", "d"], Status::OpenFault, b"open,d\n"),
        (&["check", "c"], Status::Done, b"yes\n"),
    ] {
        let mut paper = MemSink::new(alloc, 4096, Vec::new(alloc));
        let ended = run(&rt, alloc, words, &mut cabinet, &mut paper, &OpenGate);
        assert_eq!(rt; ended, status, "{words:?}");
        assert_eq!(rt; paper.held(), report, "{words:?}");
    }
    Ok(())
}
