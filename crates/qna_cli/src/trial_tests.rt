// `trial`: what it reports, and a report that takes no more.

use crate::{run, run_trial};
use qna_cases::trials;
use qna_edges::{MemCabinet, MemSink, OpenGate, Status};
use std::test::Fail;

#[test]
fn trials_come_to_what_the_rows_have(rt: HostRuntime) -> Result<(), Fail> {
    let alloc = rt.alloc();
    for case in trials() {
        let mut cabinet = MemCabinet::new(alloc);
        let mut report = MemSink::new(alloc, 7, Vec::new(alloc));
        let status = run(&rt, alloc, case.words, &mut cabinet, &mut report, &OpenGate);
        assert_eq!(rt; status.number(), case.status);
        assert!(rt; report.held() == case.report);
    }
    Ok(())
}

#[test]
fn a_report_that_takes_no_more_is_a_fault(rt: HostRuntime) -> Result<(), Fail> {
    let alloc = rt.alloc();
    let fails = vec![in alloc; 3; 1]?;
    let mut report = MemSink::new(alloc, 8, fails);
    let status = run_trial(alloc, &["trial", "9", "1", "1", "1"], &mut report);
    assert_eq!(rt; status, Status::WriteFault);
    assert!(rt; report.held() == b"trial,9,1,1,1\nin".as_slice());
    Ok(())
}
