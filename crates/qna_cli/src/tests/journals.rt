// A journal is written as an input has it, with the desks' numbers.

ghost use Rattle.series_tables.specs.Fits.{FitsPlan};

use accounts_history::Entry;
use input_rules::judge_input;
use qna_base::Memory;
use qna_cases::FOOD_PLAN;
use release_print::print_journal;
use series_tables::{Input, Kind, Plan};
use std::alloc::Global;
use std::test::Fail;

/// The journal of two inputs, of desks 1 and 16, with a publication between them.
#[tactic(auto, using(crate::proofs::Journal::two_fit))]
fn journal_of(alloc: Global, plan: &Plan, first: &Input, second: &Input) -> Result<Vec<u8>, Memory>
    requires first { FitsPlan plan.now first.now }
    requires second { FitsPlan plan.now second.now }
{
    let history = [
        Entry::Accept {
            party: 1,
            input: *first,
        },
        Entry::Publish {
            party: 0,
            front: 1,
            jobs: 1,
        },
        Entry::Accept {
            party: 16,
            input: *second,
        },
    ];
    let mut text = Vec::new(alloc);
    print_journal(plan, &history, &mut text)?;
    Ok(text)
}

#[test]
fn a_journal_is_written_as_an_input_has_it(rt: HostRuntime) -> Result<(), Fail> {
    let alloc = rt.alloc();
    let plan = Plan::read(alloc, FOOD_PLAN)?;
    let Ok(first) = judge_input(&plan, Kind::Indicator, b"FOOD", Some(0), 100) else {
        return Err(Fail::new("an indicator that fits"));
    };
    let Ok(second) = judge_input(&plan, Kind::Benchmark, b"FOOD", Some(1), -400) else {
        return Err(Fail::new("a benchmark that fits"));
    };
    let text = journal_of(alloc, &plan, &first, &second)?;
    let lines = b"ind,FOOD,2021Q1,100,1\nbench,FOOD,2022,-400,16\n";
    assert_eq!(rt; text.as_slice(), lines.as_slice());
    Ok(())
}
