// The rows of `qna_cases`.

use super::{Devices, WORKING, assert_left, left_by_batch};
use qna_cases::{BatchCase, FOOD_PLAN, PLAN_STATUS, batches, hostile_batches, plans};
use std::alloc::Global;
use std::process::Abort;
use std::test::Fail;

/// Asserts what `batch` leaves of each row, whether its files are read and written whole or in pieces.
fn assert_rows(rt: &impl Abort, alloc: Global, cases: &[BatchCase]) -> Result<(), Fail> {
    for case in cases {
        for piece in [1, 2, 7, 4096] {
            let devices = Devices { piece, ..WORKING };
            let left = left_by_batch(alloc, case.plan, case.input, &devices)?;
            assert_left(rt, &left, case.name, case.status, case.release, case.report)?;
        }
    }
    Ok(())
}

#[test]
fn releases_and_reports_follow_the_rows(rt: HostRuntime) -> Result<(), Fail> {
    let alloc = rt.alloc();
    assert_rows(&rt, alloc, batches())
}

#[test]
fn hostile_lines_are_reported(rt: HostRuntime) -> Result<(), Fail> {
    let alloc = rt.alloc();
    assert_rows(&rt, alloc, hostile_batches())
}

#[test]
fn refused_plans_are_told_with_line_and_cause(rt: HostRuntime) -> Result<(), Fail> {
    let alloc = rt.alloc();
    for case in plans() {
        for piece in [1, 4096] {
            let devices = Devices { piece, ..WORKING };
            let left = left_by_batch(alloc, case.plan, b"sync,1\n", &devices)?;
            assert_left(&rt, &left, "a refused plan", PLAN_STATUS, None, case.report)?;
        }
    }
    Ok(())
}

#[test]
fn a_plan_that_is_read_lets_the_input_be_read(rt: HostRuntime) -> Result<(), Fail> {
    let left = left_by_batch(rt.alloc(), FOOD_PLAN, b"sync,1\n", &WORKING)?;
    assert_left(
        &rt,
        &left,
        "a right plan",
        0,
        Some(b"release,0\nend,0\n"),
        b"1,no,form\n",
    )
}
