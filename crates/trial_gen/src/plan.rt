//! The plan of a trial.

ghost use Rattle.std.specs.Prelude.{◌≡◌, ◌≤◌, ◌+◌, ◌%◌, IfOk};
ghost use Rattle.series_tables.specs.IsPlan.{names_of, parents_of};
ghost use Rattle.trial_gen.specs.TrialPlan.{trial_name, trial_parent, trial_names, trial_parents};
ghost use Rattle.trial_gen.specs.TrialPlan.{plan_of_trial};

use period_keys::Year;
use qna_base::Memory;
use series_tables::{Item, Plan};
use std::alloc::Global;

/// The first year of every trial.
const START: u16 = 2000;

/// How many children an item has: the items behind it, four by four, until there are no more.
const CHILDREN: u16 = 4;

/// The plan of a trial of 1 to 512 items and 1 to 64 years: a tree in which each item has four children, as far as
/// there are items. The items are named by their numbers, the first year is 2000, and the reference year is the middle
/// one of the trial's years, the earlier one where two are.
pub fn trial_plan(alloc: Global, items: u16, years: u16) -> Result<Plan, Memory>
    requires items { (1 ≤ items) × (items ≤ 512) }
    requires years { (1 ≤ years) × (years ≤ 64) }
    ensures { IfOk result (λ plan. plan ≡ plan_of_trial items years) }
{
    let items = items_of(alloc, items)?;
    Plan::new(alloc, START, Year((years - 1) / 2), &items)
}

/// So many items.
fn items_of(alloc: Global, items: u16) -> Result<Vec<Item>, Memory>
    requires { items ≤ 512 }
    ensures names { IfOk result (λ made. names_of made.items ≡ trial_names items) }
    ensures parents { IfOk result (λ made. parents_of made.items ≡ trial_parents items) }
{
    let mut made = Vec::with_capacity(alloc, items as usize)?;
    for number in 0..items {
        let name = name_of(alloc, number)?;
        made.push(Item {
            name,
            parent: parent_of(number),
        })?;
    }
    Ok(made)
}

/// The name of an item: `N` and the three digits of its number.
fn name_of(alloc: Global, number: u16) -> Result<Vec<u8>, Memory>
    ensures { IfOk result (λ name. name.items ≡ trial_name number) }
{
    let name = [
        b'N',
        last_digit(number / 100),
        last_digit(number / 10),
        last_digit(number),
    ];
    Ok(Vec::from_slice(alloc, &name)?)
}

/// The last decimal digit of a number.
fn last_digit(number: u16) -> u8
    ensures { result ≡ 48 + number % 10 }
{
    b'0' + (number % 10) as u8
}

/// The number of an item's parent; the first item has none.
fn parent_of(number: u16) -> Option<u16>
    ensures { result ≡ trial_parent number }
{
    if number == 0 {
        None
    } else {
        Some((number - 1) / CHILDREN)
    }
}
