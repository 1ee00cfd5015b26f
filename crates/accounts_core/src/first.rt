//! The board with which a core begins.

ghost use Rattle.std.specs.Prelude.{◌≡◌, ◌<◌, ℕ, None, length, IfOk};
ghost use Rattle.accounts_core.specs.Kept.{IsFirstBoard};
ghost use Rattle.series_tables.specs.Cells.{cell};
ghost use Rattle.series_tables.specs.declared.input.Kind.{Kind};

use node_compile::{NodeTable, compile_all};
use qna_base::{Memory, Steps};
use series_tables::{Plan, Tables};
use std::alloc::Global;
use std::marker::Brand;
use std::sync::ledger::{Blank, Ledger};
use vintage_board::Board;

/// The board that shows the release of no inputs. The tables have no value yet.
pub(crate) fn first_board(
    alloc: Global,
    plan: &Plan,
    tables: &Tables,
) -> Result<Board<NodeTable>, Memory>
    requires items { tables.now.items ≡ length plan.now.names }
    requires empty { (kind : Kind) (leaf period : ℕ) → cell tables.now kind leaf period ≡ None }
    ensures { IfOk result (IsFirstBoard plan.now) }
{
    counted_board::<Brand>(alloc, Blank::new(1), plan, tables)
}

/// The same with a ledger for the solver's steps, which nobody asks for.
fn counted_board<L: Ledger>(
    alloc: Global,
    blank: Blank,
    plan: &Plan,
    tables: &Tables,
) -> Result<Board<NodeTable>, Memory>
    requires name { blank.name ≡ L.name }
    requires parts { blank.parts ≡ L.parts }
    requires some { 0 < blank.parts }
    requires items { tables.now.items ≡ length plan.now.names }
    requires empty { (kind : Kind) (leaf period : ℕ) → cell tables.now kind leaf period ≡ None }
    ensures { IfOk result (IsFirstBoard plan.now) }
{
    let mut steps = Steps::<L>::open(blank);
    let release = compile_all(alloc, plan, tables, 0, &mut steps)?;
    Board::new(alloc, release.nodes)
}
