// The command `batch` over files in memory: what it leaves in the output and in the report.
ghost use Rattle.std.specs.Prelude.{◌<◌};

mod certificates;
mod faults;
mod files;
mod journals;
mod limits;
mod nine_years;
mod pieces;
mod rows;

use crate::run_batch;
use qna_edges::{MemCabinet, MemSink, MemSource, Status};
use std::alloc::Global;
use std::process::Abort;
use std::test::Fail;

/// Which calls of each device fail, by their numbers from 1, and the most bytes of one read or write.
#[derive(Clone, Copy)]
struct Devices<'a> {
    opens: &'a [u64],
    plan: &'a [u64],
    input: &'a [u64],
    output: &'a [u64],
    report: &'a [u64],
    piece: usize,
}

/// Devices that never fail.
const WORKING: Devices = Devices {
    opens: &[],
    plan: &[],
    input: &[],
    output: &[],
    report: &[],
    piece: 4096,
};

/// What a command left.
#[derive(Drop)]
struct Left {
    status: Status,
    output: Option<Vec<u8>>,
    report: Vec<u8>,
}

/// Runs `batch p i o` over files in memory.
fn left_by_batch(alloc: Global, plan: &[u8], input: &[u8], devices: &Devices) -> Result<Left, Fail>
    requires { 0 < devices.now.piece }
{
    let mut cabinet = MemCabinet::new(alloc);
    let plan = MemSource::new(
        plan.to_vec(alloc)?,
        devices.piece,
        devices.plan.to_vec(alloc)?,
    );
    cabinet.put_file("p", plan)?;
    let input = MemSource::new(
        input.to_vec(alloc)?,
        devices.piece,
        devices.input.to_vec(alloc)?,
    );
    cabinet.put_file("i", input)?;
    let output = MemSink::new(alloc, devices.piece, devices.output.to_vec(alloc)?);
    cabinet.plan_sink("o", output)?;
    cabinet.fail_opens(devices.opens.to_vec(alloc)?);
    let mut report = MemSink::new(alloc, devices.piece, devices.report.to_vec(alloc)?);
    let status = run_batch(alloc, &["batch", "p", "i", "o"], &mut cabinet, &mut report);
    let output = match cabinet.file("o") {
        Some(bytes) => Some(bytes.to_vec(alloc)?),
        None => None,
    };
    Ok(Left {
        status,
        output,
        report: report.held().to_vec(alloc)?,
    })
}

/// Asserts what a command left in the case of this name; no output is none at all.
fn assert_left(
    rt: &impl Abort,
    left: &Left,
    name: &str,
    status: u8,
    output: Option<&[u8]>,
    report: &[u8],
) -> Result<(), Fail> {
    assert_eq!(rt; left.report.as_slice(), report, "{name}");
    assert_eq!(rt; left.status.number(), status, "{name}");
    assert_eq!(rt; left.output.is_some(), output.is_some(), "{name}");
    if let (Some(held), Some(wanted)) = (&left.output, output) {
        assert_eq!(rt; held.as_slice(), wanted, "{name}");
    }
    Ok(())
}
