//! What a trial comes to.

ghost use Rattle.std.specs.Prelude.{◌≡◌, ◌≤◌, ◌<◌, List, length, IfOk};
ghost use Rattle.std.specs.List.{All};
ghost use Rattle.command_words.specs.TrialWords.{IsTrial, trial_view};
ghost use Rattle.node_compile.specs.Release.{HoldLastValues, compilation};
ghost use Rattle.node_compile.specs.Table.{node_tables, table_in};
ghost use Rattle.series_tables.specs.Fits.{FitsPlan};
ghost use Rattle.series_tables.specs.declared.input.Input.{Input as InputOf};
ghost use Rattle.qna_trial.specs.Trial.{benchmarked_years as benchmarked_years_of, figures_of_trial, figures_view};
ghost use Rattle.qna_trial.specs.Trial.{last_level as last_level_of, years_in};

use command_words::TrialWords;
use node_compile::{NodeTable, compile_all};
use price_base::Cell;
use qna_base::{Memory, Steps};
use series_tables::{Input, Plan, Tables, last_values_go_on};
use std::alloc::Global;
use std::sync::Arc;
use std::sync::ledger::{Blank, Ledger};
use trial_gen::{trial_inputs, trial_plan};

/// What a trial's report tells beside its words.
#[derive(Clone, Copy)]
pub(crate) struct Figures {
    /// How many inputs there are.
    pub(crate) inputs: u64,
    /// How many benchmarked years all leaves have together.
    pub(crate) benchmarked: u64,
    /// The chained volume of the first item in the last year, in ten-thousandths.
    pub(crate) level: Cell,
}

/// Makes a trial's plan and inputs, compiles them twice, and tells what they come to.
pub(crate) fn figures_of<L: Ledger>(
    alloc: Global,
    blank: Blank,
    said: TrialWords,
) -> Result<Figures, Memory>
    requires name { blank.name ≡ L.name }
    requires parts { blank.parts ≡ L.parts }
    requires some { 0 < blank.parts }
    requires trial { IsTrial (trial_view said) }
    ensures { IfOk result (λ figures.
        figures_view figures ≡ figures_of_trial (trial_view said)) }
{
    let plan = trial_plan(alloc, said.items, said.years)?;
    let inputs = trial_inputs(alloc, &plan, said.seed, said.years)?;
    let tables = tables_of(alloc, &plan, &inputs)?;
    let front = inputs.len() as u64;
    let mut steps = Steps::<L>::open(blank);
    let (benchmarked, level) = compile_twice(alloc, &plan, &tables, front, said.years, &mut steps)?;
    Ok(Figures {
        inputs: front,
        benchmarked,
        level,
    })
}

/// Tables with the last values of these inputs.
fn tables_of(alloc: Global, plan: &Plan, inputs: &[Input]) -> Result<Tables, Memory>
    requires { All (FitsPlan plan.now) inputs.now }
    ensures items { IfOk result (λ tables. tables.items ≡ length plan.now.names) }
    ensures last { IfOk result (λ tables. HoldLastValues tables inputs.now) }
{
    last_values_go_on();
    let mut tables = Tables::new(alloc, plan)?;
    for input in inputs {
        tables.set(input);
    }
    Ok(tables)
}

/// Compiles the tables of a plan once and once more, and tells how many benchmarked years the first release has, and
/// the level of the first item in the last of so many years in the second. The two are the same.
fn compile_twice<L: Ledger>(
    alloc: Global,
    plan: &Plan,
    tables: &Tables,
    front: u64,
    years: u16,
    steps: &mut Steps<L>,
) -> Result<(u64, Cell), Memory>
    requires items { tables.now.items ≡ length plan.now.names }
    requires few { length plan.now.names ≤ 512 }
    requires years { 1 ≤ years }
    ensures benchmarked { IfOk result (λ figures. (given : List InputOf) →
        HoldLastValues tables.now given →
        figures.0 ≡ benchmarked_years_of (compilation plan.now given)) }
    ensures level { IfOk result (λ figures. (given : List InputOf) →
        HoldLastValues tables.now given →
        figures.1 ≡ last_level_of years (compilation plan.now given)) }
{
    let alone = compile_all(alloc, plan, tables, front, steps)?;
    let benchmarked = benchmarked_years(&alone.nodes);
    drop(alone);
    let together = compile_all(alloc, plan, tables, front, steps)?;
    Ok((benchmarked, last_level(&together.nodes, years)))
}

/// How many benchmarked years these items have together.
fn benchmarked_years(nodes: &[Arc<NodeTable>]) -> u64
    requires { length nodes.now ≤ 512 }
    ensures { result ≡ benchmarked_years_of (node_tables nodes.now) }
{
    let mut years = 0;
    for node in nodes {
        years += benchmarked_of(node);
    }
    years
}

/// How many benchmarked years an item has: a leaf's, and none for an inner item.
fn benchmarked_of(table: &NodeTable) -> u64
    ensures years { result ≡ years_in (table_in table.now).leaf }
    ensures few { result ≤ 128 }
{
    match &table.leaf {
        Some(part) => part.bench.len() as u64,
        None => 0,
    }
}

/// The level of the first of some items in the last of so many years, which is missing where there is none.
fn last_level(nodes: &[Arc<NodeTable>], years: u16) -> Cell
    requires { 1 ≤ years }
    ensures { result ≡ last_level_of years (node_tables nodes.now) }
{
    let Some(first) = nodes.first() else {
        return Cell::Missing;
    };
    match first.chain.level.as_slice().get(years as usize - 1) {
        Some(level) => *level,
        None => Cell::Missing,
    }
}
