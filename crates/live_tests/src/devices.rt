// Devices that fail: what the command leaves, and with which status.

use crate::serving::{Files, QUIET, YEAR, YEAR_RELEASE, YEAR_SENT, YEAR_TAKEN, holds, left_by};
use qna_edges::Status;
use std::test::Fail;

/// One desk.
const ONE: &'static [&str] = &["live", "p", "j", "i", "o", "--workers", "0"];

/// Two desks.
const TWO: &'static [&str] = &["live", "p", "j", "i", "o", "h", "g", "--workers", "0"];

#[test]
fn the_first_file_that_cant_be_opened_or_created_ends_the_run(rt: HostRuntime) -> Result<(), Fail> {
    let alloc = rt.alloc();
    let (none, empty): (Option<&[u8]>, Option<&[u8]>) = (None, Some(b""));
    for (call, report, first, second) in [
        (1, b"open,p\n", none, none),
        (2, b"open,i\n", none, none),
        (3, b"open,o\n", none, none),
        (4, b"open,h\n", empty, none),
        (5, b"open,g\n", empty, none),
        (6, b"open,j\n", empty, empty),
    ] {
        let files = Files {
            opens: &[call],
            first: YEAR,
            ..QUIET
        };
        let left = left_by(&rt, alloc, TWO, &files)?;
        assert_eq!(&rt; left.status, Status::OpenFault);
        assert_eq!(&rt; left.report.as_slice(), report.as_slice());
        assert!(&rt; holds(&left.first, first) && holds(&left.second, second));
        assert!(&rt; holds(&left.journal, none));
    }
    Ok(())
}

#[test]
fn a_plan_that_ends_the_run_creates_nothing(rt: HostRuntime) -> Result<(), Fail> {
    let alloc = rt.alloc();
    let long = vec![in alloc; b'#'; 1_048_577]?;
    for (plan, plan_reads, status, report) in [
        (
            QUIET.plan,
            [1].as_slice(),
            Status::ReadFault,
            b"read,p\n".as_slice(),
        ),
        (&long, &[], Status::TooMuch, b"toomuch,p\n"),
        (
            b"start,2021\nitem,A,B\n",
            &[],
            Status::PlanFault,
            b"plan,2,noparent\n",
        ),
    ] {
        let files = Files {
            plan,
            plan_reads,
            first: YEAR,
            ..QUIET
        };
        let left = left_by(&rt, alloc, ONE, &files)?;
        assert_eq!(&rt; left.status, status);
        assert_eq!(&rt; left.report.as_slice(), report);
        assert!(&rt; holds(&left.first, None) && holds(&left.journal, None));
    }
    Ok(())
}

#[test]
fn a_broken_report_leaves_answers_and_journal(rt: HostRuntime) -> Result<(), Fail> {
    let alloc = rt.alloc();
    for (report_writes, piece, report) in [
        ([1].as_slice(), 4096, b"".as_slice()),
        (&[2], 7, b"release"),
    ] {
        assert!(&rt; piece > 0);
        let files = Files {
            first: YEAR,
            report_writes,
            piece,
            ..QUIET
        };
        let left = left_by(&rt, alloc, ONE, &files)?;
        assert_eq!(&rt; left.status, Status::WriteFault);
        assert_eq!(&rt; left.report.as_slice(), report);
        assert!(&rt; holds(&left.first, Some(YEAR_TAKEN)) && holds(&left.journal, Some(YEAR_SENT)));
    }
    Ok(())
}

#[test]
fn a_broken_journal_ends_within_a_line(rt: HostRuntime) -> Result<(), Fail> {
    let files = Files {
        first: YEAR,
        journal_writes: &[2],
        piece: 20,
        ..QUIET
    };
    let left = left_by(&rt, rt.alloc(), ONE, &files)?;
    assert_eq!(&rt; left.status, Status::WriteFault);
    assert!(&rt; holds(&left.journal, Some(b"ind,FOOD,2021Q1,100,")));
    assert!(&rt; holds(&left.first, Some(YEAR_TAKEN)));
    assert_eq!(rt; left.report.as_slice(), YEAR_RELEASE);
    Ok(())
}

#[test]
fn the_first_desk_that_ends_badly_gives_the_status(rt: HostRuntime) -> Result<(), Fail> {
    let alloc = rt.alloc();
    let (works, fails): (&[u64], &[u64]) = (&[], &[1]);
    for (first_reads, first_writes, second_reads, second_writes, status) in [
        (fails, works, works, fails, Status::ReadFault),
        (works, fails, fails, works, Status::WriteFault),
        (works, works, fails, works, Status::ReadFault),
        (works, works, works, fails, Status::WriteFault),
    ] {
        let files = Files {
            first: YEAR,
            second: b"sync\n",
            first_reads,
            first_writes,
            second_reads,
            second_writes,
            ..QUIET
        };
        let left = left_by(&rt, alloc, TWO, &files)?;
        assert_eq!(&rt; left.status, status);
        assert!(&rt; left.report.starts_with(b"release,") && left.report.ends_with(b"\n"));
    }
    Ok(())
}

#[test]
fn a_broken_source_ends_its_desk_alone(rt: HostRuntime) -> Result<(), Fail> {
    let files = Files {
        first: YEAR,
        second: b"price,FOOD,2021Q1,7\nsync\n",
        first_reads: &[2],
        ..QUIET
    };
    let left = left_by(&rt, rt.alloc(), TWO, &files)?;
    assert_eq!(&rt; left.status, Status::ReadFault);
    for answers in [&left.first, &left.second] {
        let text = answers.as_deref().unwrap_or(b"");
        assert!(&rt; text.starts_with(b"ok,") && text.ends_with(b"\n"));
    }
    assert!(rt; left.report.starts_with(b"release,6\n") && left.report.ends_with(b"end,6\n"));
    Ok(())
}
