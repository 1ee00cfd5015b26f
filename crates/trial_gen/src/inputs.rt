//! The inputs of a trial.

ghost use Rattle.std.specs.Prelude.{◌≡◌, ◌≤◌, ◌<◌, ◌+◌, ◌*◌, ◌%◌, ◌++◌, pos, IfOk, OnOk};
ghost use Rattle.std.specs.List.{All};
ghost use Rattle.rand_core.specs.Steps.{stream_of};
ghost use Rattle.rand_xoshiro.specs.SplitMix64.{splitmix_steps};
ghost use Rattle.series_tables.specs.Fits.{FitsPlan};
ghost use Rattle.trial_gen.specs.TrialInputs.{behind, first_word, quarter_inputs, year_inputs};
ghost use Rattle.trial_gen.specs.TrialInputs.{leaf_inputs, inputs_of_trial};

use qna_base::Memory;
use rand_core::{Rng, SeedableRng};
use rand_xoshiro::SplitMix64;
use series_tables::{Input, Kind, Plan};
use std::alloc::Global;

/// The inputs of a trial of 1 to 64 years: for each leaf of the plan and each year, four quarters with an indicator and
/// a price, and then the year's benchmark. Each value is drawn from a word of its own, in the order of the inputs; the
/// words are those of SplitMix64 whose seed has the eight bytes of the number, the lowest first. The ranges of the
/// values are this product's own.
pub fn trial_inputs(alloc: Global, plan: &Plan, seed: u64, years: u16) -> Result<Vec<Input>, Memory>
    requires { (1 ≤ years) × (years ≤ 64) }
    ensures inputs { IfOk result (λ inputs. inputs.items ≡ inputs_of_trial plan.now seed years) }
    ensures fit { IfOk result (λ inputs. All (FitsPlan plan.now) inputs.items) }
{
    let mut rng = SplitMix64::from_seed(seed.to_le_bytes());
    let mut inputs = Vec::new(alloc);
    for leaf in 0..plan.len() {
        if plan.is_leaf(leaf) {
            add_leaf(&mut rng, leaf, years, &mut inputs)?;
        }
    }
    Ok(inputs)
}

/// Draws and adds the inputs of a leaf's years.
fn add_leaf(
    rng: &mut SplitMix64,
    leaf: u16,
    years: u16,
    inputs: &mut Vec<Input>,
) -> Result<(), Memory>
    requires { years ≤ 64 }
    ensures inputs { OnOk result (inputs.new.items
        ≡ inputs.old.items ++ leaf_inputs (stream_of splitmix_steps rng.old) leaf years) }
    ensures words { OnOk result (stream_of splitmix_steps rng.new
        ≡ behind (9 * years) (stream_of splitmix_steps rng.old)) }
{
    for year in 0..years {
        add_year(rng, leaf, year, inputs)?;
    }
    Ok(())
}

/// Draws and adds the inputs of a leaf's year.
fn add_year(
    rng: &mut SplitMix64,
    leaf: u16,
    year: u16,
    inputs: &mut Vec<Input>,
) -> Result<(), Memory>
    requires { year < 64 }
    ensures inputs { OnOk result (inputs.new.items
        ≡ inputs.old.items ++ year_inputs (stream_of splitmix_steps rng.old) leaf year) }
    ensures words { OnOk result (stream_of splitmix_steps rng.new
        ≡ behind 9 (stream_of splitmix_steps rng.old)) }
{
    for quarter in 0..4 {
        add_quarter(rng, leaf, 4 * year + quarter, inputs)?;
    }
    inputs.push(Input {
        kind: Kind::Benchmark,
        leaf,
        period: year,
        value: draw(rng, 4000, 4001),
    })?;
    Ok(())
}

/// Draws and adds the indicator and the price of a leaf's quarter.
fn add_quarter(
    rng: &mut SplitMix64,
    leaf: u16,
    quarter: u16,
    inputs: &mut Vec<Input>,
) -> Result<(), Memory>
    ensures inputs { OnOk result (inputs.new.items
        ≡ inputs.old.items ++ quarter_inputs (stream_of splitmix_steps rng.old) leaf quarter) }
    ensures words { OnOk result (stream_of splitmix_steps rng.new
        ≡ behind 2 (stream_of splitmix_steps rng.old)) }
{
    inputs.push(Input {
        kind: Kind::Indicator,
        leaf,
        period: quarter,
        value: draw(rng, 1000, 1000),
    })?;
    inputs.push(Input {
        kind: Kind::Price,
        leaf,
        period: quarter,
        value: draw(rng, 900_000, 200_001),
    })?;
    Ok(())
}

/// The least value and what the next word leaves, divided by the number of values.
fn draw(rng: &mut SplitMix64, least: u32, values: u32) -> i64
    requires { 0 < values }
    ensures value { result
        ≡ pos (least + first_word (stream_of splitmix_steps rng.old) % values) }
    ensures words { stream_of splitmix_steps rng.new
        ≡ behind 1 (stream_of splitmix_steps rng.old) }
{
    let word = rng.next_u64();
    (u64::from(least) + word % u64::from(values)) as i64
}
