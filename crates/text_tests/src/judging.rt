// Judgements and lines by examples.

use input_rules::{Cause, Judged, RawInput, Refusal, judge, judge_line, leaf_with_name};
use line_form::Lines;
use series_tables::{Input, Kind, Plan};
use std::alloc::Global;
use std::test::Fail;

/// A plan with a total and one item under it.
const PLAN: &'static [u8] = b"start,2021\nitem,TOTAL,\nitem,FOOD,TOTAL\n";

/// Why a benchmark of 5 is refused, or none.
fn judgement(alloc: Global, plan: &Plan, name: &[u8], year: u16) -> Result<Option<Refusal>, Fail> {
    let raw = RawInput {
        kind: Kind::Benchmark,
        name: name.to_vec(alloc)?,
        period: Some(year),
        value: 5,
    };
    Ok(judge(plan, &raw).err())
}

#[test]
fn an_input_is_judged_by_its_leaf_and_its_year(rt: HostRuntime) -> Result<(), Fail> {
    let alloc = rt.alloc();
    let plan = Plan::read(alloc, PLAN)?;
    assert_eq!(rt; judgement(alloc, &plan, b"FOOD", 63)?, None);
    assert_eq!(rt; judgement(alloc, &plan, b"FOOD", 64)?, Some(Refusal::Range));
    assert_eq!(rt;
        judgement(alloc, &plan, b"TOTAL", 0)?,
        Some(Refusal::Unknown)
    );
    assert_eq!(rt; leaf_with_name(&plan, b"FOOD"), Some(1));
    assert_eq!(rt; leaf_with_name(&plan, b"TOTAL"), None);
    Ok(())
}

/// What is said of the first line of a stream.
fn judged(alloc: Global, plan: &Plan, stream: &[u8]) -> Result<Judged, Fail> {
    let mut lines = Lines::new(alloc)?;
    lines.feed(stream)?;
    lines.finish()?;
    let line = lines.next_line().ok_or("no line")?;
    Ok(judge_line(alloc, plan, &line)?)
}

/// An input of the second item is taken.
fn taken(kind: Kind, period: u16, value: i64) -> Judged {
    Judged::Taken(Input {
        kind,
        leaf: 1,
        period,
        value,
    })
}

#[test]
fn lines_are_judged_by_the_table(rt: HostRuntime) -> Result<(), Fail> {
    let alloc = rt.alloc();
    let plan = Plan::read(alloc, PLAN)?;
    let rows: [(&[u8], Judged); 13] = [
        (b"# no\rte", Judged::Passed),
        (b"\"release\",FOOD", Judged::Passed),
        (b"cert,\xFF", Judged::Passed),
        (
            b"\xEF\xBB\xBFind,FOOD,2021-q1,005\r\n",
            taken(Kind::Indicator, 0, 5),
        ),
        (b"\"bench\",FOOD,2084,-0,16", taken(Kind::Benchmark, 63, 0)),
        (b"price,FOOD,2022q2,9", taken(Kind::Price, 5, 9)),
        (&[b'#'; 257], Judged::Refused(Cause::Long)),
        (&[b'a'; 256], Judged::Refused(Cause::Form)),
        (b"ind,FOOD,2021Q1,5,17", Judged::Refused(Cause::Form)),
        (b"ind,TOTAL,2021Q1,0", Judged::Refused(Cause::Unknown)),
        (b"ind,FOOD,2085Q1,0", Judged::Refused(Cause::Zero)),
        (b"ind,FOOD,2085Q1,5", Judged::Refused(Cause::Range)),
        (
            b"bench,FOOD,2021,-99999999999999999999999999999999999999999",
            Judged::Refused(Cause::Range),
        ),
    ];
    for (line, want) in rows {
        assert_eq!(rt; judged(alloc, &plan, line)?, want, "{line:?}");
    }
    Ok(())
}

#[test]
fn causes_have_their_words(rt: HostRuntime) {
    for (cause, word) in [
        (Cause::Long, b"long".as_slice()),
        (Cause::Form, b"form"),
        (Cause::Unknown, b"unknown"),
        (Cause::Zero, b"zero"),
        (Cause::Range, b"range"),
        (Cause::Full, b"full"),
    ] {
        assert_eq!(rt; cause.text(), word);
    }
}
