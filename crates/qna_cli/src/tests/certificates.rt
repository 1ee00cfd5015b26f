// Certificates that are printed of what was compiled, and checked again.

ghost use Rattle.std.specs.Prelude.{◌≡◌, ◌<◌};

use crate::run_check;
use node_compile::compile_all;
use qna_base::Steps;
use qna_cases::{FOOD_PLAN, certificates};
use qna_edges::{MemCabinet, MemSink, MemSource};
use qna_parts::take_input;
use release_print::print_cert;
use series_tables::Plan;
use std::alloc::Global;
use std::marker::Brand;
use std::process::Abort;
use std::sync::ledger::{Blank, Ledger};
use std::test::Fail;

/// The certificate of the plan's first item, as it is printed behind all lines of an input.
fn printed<L: Ledger>(
    rt: &impl Abort,
    alloc: Global,
    blank: Blank,
    input: &[u8],
) -> Result<Vec<u8>, Fail>
    requires name { blank.name ≡ L.name }
    requires parts { blank.parts ≡ L.parts }
    requires some { 0 < blank.parts }
{
    let plan = Plan::read(alloc, FOOD_PLAN)?;
    let mut source = MemSource::new(input.to_vec(alloc)?, 4096, Vec::new(alloc));
    let mut report = MemSink::new(alloc, 4096, Vec::new(alloc));
    let taken = take_input(alloc, &plan, &mut source, &mut report)
        .ok()
        .ok_or("not taken")?;
    let mut steps = Steps::<L>::open(blank);
    let release = compile_all(alloc, &plan, &taken.tables, taken.accepted, &mut steps)?;
    let table = release.nodes.first().ok_or("no item")?;
    assert!(rt; plan.len() > 0);
    assert!(rt; plan.is_leaf(0));
    assert!(rt; table.flows.value.as_slice().len() <= 256);
    let mut text = Vec::new(alloc);
    print_cert(&plan, release.front, 0, table, &mut text)?;
    Ok(text)
}

/// The same, with a ledger for the solver's steps, which nobody asks for.
fn printed_behind(rt: &impl Abort, alloc: Global, input: &[u8]) -> Result<Vec<u8>, Fail> {
    printed::<Brand>(rt, alloc, Blank::new(1), input)
}

/// What `check` reports of a text.
fn verdict_on(alloc: Global, text: &[u8]) -> Result<Vec<u8>, Fail> {
    let mut cabinet = MemCabinet::new(alloc);
    let source = MemSource::new(text.to_vec(alloc)?, 4096, Vec::new(alloc));
    cabinet.put_file("c", source)?;
    let mut report = MemSink::new(alloc, 4096, Vec::new(alloc));
    run_check(alloc, &["check", "c"], &mut cabinet, &mut report);
    Ok(report.held().to_vec(alloc)?)
}

#[test]
fn printed_certificates_are_checked_yes(rt: HostRuntime) -> Result<(), Fail> {
    let alloc = rt.alloc();
    for case in certificates() {
        let text = printed_behind(&rt, alloc, case.input)?;
        assert_eq!(rt; text.as_slice(), case.text, "{}", case.name);
        let verdict: &[u8] = if text.starts_with(b"cert,") {
            b"yes\n"
        } else {
            b"no,shape,1\n"
        };
        assert_eq!(rt; verdict_on(alloc, &text)?.as_slice(), verdict);
    }
    Ok(())
}
