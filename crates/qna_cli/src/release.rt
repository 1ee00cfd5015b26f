//! The release: every item compiled from the tables, and its text.

ghost use Rattle.std.specs.Prelude.{◌≡◌, ◌<◌, ℕ, List, length, IfOk};
ghost use Rattle.series_tables.specs.declared.input.Input.{Input as InputOf};
ghost use Rattle.qna_parts.specs.Making.{HoldsLast};
ghost use Rattle.compile_workers.specs.Release.{release_of};

use node_compile::compile_all;
use qna_base::{Memory, Steps};
use qna_parts::Make;
use release_print::print_release;
use series_tables::{Plan, Tables};
use std::alloc::Global;
use std::marker::Brand;
use std::sync::ledger::{Blank, Ledger};

/// What `batch` makes: the release of all accepted inputs. Its number is theirs.
#[derive(Clone, Copy)]
pub(crate) struct Releases;

impl Make for Releases {
    ghost text = { λ _. release_of };

    fn make(
        &self,
        alloc: Global,
        plan: &Plan,
        tables: &Tables,
        inputs: u64,
    ) -> Result<Vec<u8>, Memory> {
        counted_release::<Brand>(alloc, Blank::new(1), plan, tables, inputs)
    }
}

/// The text of the release, with a ledger for the solver's steps, which nobody asks for.
#[tactic(auto, unfolding(compile_workers::specs::Release::release_of))]
fn counted_release<L: Ledger>(
    alloc: Global,
    blank: Blank,
    plan: &Plan,
    tables: &Tables,
    inputs: u64,
) -> Result<Vec<u8>, Memory>
    requires name { blank.name ≡ L.name }
    requires parts { blank.parts ≡ L.parts }
    requires some { 0 < blank.parts }
    requires items { tables.now.items ≡ length plan.now.names }
    ensures { IfOk result (λ text. (given : List InputOf) → length given ≡ inputs →
        HoldsLast tables.now given → text.items ≡ release_of plan.now given) }
{
    let mut steps = Steps::<L>::open(blank);
    let compiled = compile_all(alloc, plan, tables, inputs, &mut steps)?;
    let mut text = Vec::new(alloc);
    print_release(plan, &compiled, &mut text)?;
    Ok(text)
}
