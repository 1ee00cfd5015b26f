// `batch` over files of the system: every file that the words name is read back.

use crate::run_batch;
use qna_cases::batches;
use qna_edges::{Cabinet, FileCabinet, MemSink, write_all};
use qna_parts::read_file;
use std::alloc::Global;
use std::fs;
use std::process::Abort;
use std::test::Fail;

/// The names of the plan, the input and the output.
const NAMES: [&str; 3] = ["qna_cli_plan", "qna_cli_input", "qna_cli_output"];

/// Puts a file under a name.
fn put<C: Cabinet>(cabinet: &mut C, name: &str, bytes: &[u8]) -> Result<(), Fail> {
    let mut sink = cabinet.create(name)?;
    write_all(&mut sink, bytes)?;
    cabinet.back_out(sink);
    Ok(())
}

/// Asserts what stands under a name.
fn assert_file<C: Cabinet>(
    rt: &impl Abort,
    alloc: Global,
    cabinet: &mut C,
    name: &str,
    bytes: &[u8],
) -> Result<(), Fail> {
    let held = read_file(alloc, cabinet, name, 1_048_576)
        .ok()
        .ok_or("not read")?;
    assert_eq!(rt; held.as_slice(), bytes, "{name}");
    Ok(())
}

#[test]
fn a_batch_leaves_its_plan_and_input_as_they_are(rt: HostRuntime) -> Result<(), Fail> {
    let alloc = rt.alloc();
    let case = batches().first().ok_or("no case")?;
    let release = case.release.ok_or("no release")?;
    let [plan, input, output] = NAMES;
    let mut cabinet = FileCabinet::new(&rt, alloc);
    put(&mut cabinet, plan, case.plan)?;
    put(&mut cabinet, input, case.input)?;
    put(
        &mut cabinet,
        output,
        b"an older and much longer text, of which nothing stays\n",
    )?;
    let mut report = MemSink::new(alloc, 4096, Vec::new(alloc));
    let words = ["batch", plan, input, output];
    let status = run_batch(alloc, &words, &mut cabinet, &mut report);
    assert_eq!(rt; status.number(), case.status, "{}", case.name);
    assert_eq!(rt; report.held(), case.report, "{}", case.name);
    assert_file(&rt, alloc, &mut cabinet, plan, case.plan)?;
    assert_file(&rt, alloc, &mut cabinet, input, case.input)?;
    assert_file(&rt, alloc, &mut cabinet, output, release)?;
    for name in NAMES {
        fs::remove_file(&rt, name)?;
    }
    Ok(())
}
