// A desk over a source and a sink in memory.

ghost use Rattle.std.specs.Prelude.{◌≤◌, vec_len};

use crate::{DeskEnd, DeskEnds, Served, serve_parties};
use office::Office;
use qna_edges::{MemSink, MemSource, OpenGate};
use series_tables::Plan;
use std::alloc::Global;
use std::sync::Wait;
use std::test::Fail;
use std::thread::Threads;

/// One item.
const PLAN: &'static [u8] = b"start,2021\nitem,FOOD,\n";

/// A desk over bytes in memory.
fn desk(alloc: Global, text: &[u8]) -> Result<DeskEnds<MemSource, MemSink>, Fail> {
    Ok(DeskEnds {
        source: MemSource::new(text.to_vec(alloc)?, 7, Vec::new(alloc)),
        sink: MemSink::new(alloc, 4096, Vec::new(alloc)),
    })
}

/// Serves desks with so many workers.
fn serve<R: Threads + Wait + Sync>(
    rt: &R,
    alloc: Global,
    plan: &Plan,
    desks: Vec<DeskEnds<MemSource, MemSink>>,
    workers: u16,
) -> Result<Served<MemSource, MemSink>, Fail>
    requires desks { (1 ≤ vec_len desks) × (vec_len desks ≤ 16) }
    requires workers { workers ≤ 16 }
{
    let (office, passes) = Office::new(alloc, plan.copy(alloc)?, desks.len() as u16, workers)?;
    Ok(serve_parties(rt, alloc, office, plan, passes, desks, &OpenGate))
}

/// Every kind of line, and its answers where nobody publishes before the desk asks.
const LINES: &'static [u8] =
    b"ind,FOOD,2021Q1,100\n\n# note\nind,RENT,2021Q1,5\nind,FOOD,2021Q2,100\nind,FOOD,2021Q3,100\nind,FOOD,2021Q4,100\nbench,FOOD,2021,1000\ncert,FOOD\nsync\nrelease,FOOD\ncert,FOOD\ncert,RENT\nrelease,RENT\nind,FOOD,2021Q1\nrelease";

const BLOCK: &str =
    "release,5\nv,FOOD,2021Q1,250\nv,FOOD,2021Q2,250\nv,FOOD,2021Q3,250\nv,FOOD,2021Q4,250\nk,FOOD,2021Q1,missing\nk,FOOD,2021Q2,missing\nk,FOOD,2021Q3,missing\nk,FOOD,2021Q4,missing\nc,FOOD,2021Q1,missing\nc,FOOD,2021Q2,missing\nc,FOOD,2021Q3,missing\nc,FOOD,2021Q4,missing\na,FOOD,2021,1000,missing,10000000,0\ng,FOOD,1,12,0\nend,5\n";

const CERTIFICATE: &str =
    "cert,FOOD,5\nscale,12\nstart,2021\ni,2021Q1,100\ni,2021Q2,100\ni,2021Q3,100\ni,2021Q4,100\nb,2021,1000\nx,2021Q1,250\nx,2021Q2,250\nx,2021Q3,250\nx,2021Q4,250\ngap,0\nend\n";

/// What is left of a desk that was served alone, without a worker.
#[derive(Drop)]
struct Told {
    ends: Vec<DeskEnd>,
    answers: Vec<u8>,
    accepted: u64,
    published: u64,
}

/// What is left of what was served.
fn told_of(alloc: Global, served: &Served<MemSource, MemSink>) -> Result<Told, Fail> {
    let mut answers = Vec::new(alloc);
    for desk in &served.desks {
        answers.extend_from_slice(desk.sink.held())?;
    }
    Ok(Told {
        ends: served.ends.to_vec(alloc)?,
        answers,
        accepted: served.core.accepted(),
        published: served.core.published(),
    })
}

/// Serves a desk with these lines.
fn told_by<R: Threads + Wait + Sync>(
    rt: &R,
    alloc: Global,
    plan: &Plan,
    lines: &[u8],
) -> Result<Told, Fail> {
    let mut desks = Vec::new(alloc);
    desks.push(desk(alloc, lines)?)?;
    let served = serve(rt, alloc, plan, desks, 0)?;
    told_of(alloc, &served)
}

#[test]
fn one_desk_is_answered_line_by_line(rt: HostRuntime) -> Result<(), Fail> {
    let alloc = rt.alloc();
    let plan = Plan::read(alloc, PLAN)?;
    let told = told_by(&rt, alloc, &plan, LINES)?;
    let wanted = format!(in alloc;
        "ok,1\nno,unknown\nok,2\nok,3\nok,4\nok,5\nnocert,FOOD,0\nsynced,5\n{BLOCK}{CERTIFICATE}no,unknown\nno,unknown\nno,form\n{BLOCK}"
    )?;
    assert_eq!(&rt; told.ends.as_slice(), [DeskEnd::Ended].as_slice());
    assert_eq!(&rt; told.answers.as_slice(), wanted.as_bytes());
    assert!(rt; told.accepted == 5 && told.published == 5);
    Ok(())
}
