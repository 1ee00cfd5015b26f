//! The call that opens an office.

ghost use Rattle.std.specs.Prelude.{◌≡◌, ◌≤◌, ◌<◌, ◌+◌, IfOk};
ghost use Rattle.std.specs.List.{range_with_len};
ghost use Rattle.desk_lock.specs.Passes.{IsFreeFrom, IsPassOf};
ghost use Rattle.office.specs.Opening.{AddsPasses, first_passes};

use crate::book::CoreBook;
use crate::office::Office;
use desk_lock::{Desk, Pass};
use qna_base::Memory;
use series_tables::Plan;
use std::alloc::Global;
use std::sync::atomic::AtomicU64;

impl Office {
    /// An office of 1 to 16 desks and up to 16 workers over a plan, and their passes in the order of parties: desks
    /// count from 1, workers from 17. The first desk's pass knows which parties there are. Where memory is wanted,
    /// the plan is dropped.
    pub fn new(
        alloc: Global,
        plan: Plan,
        desks: u16,
        workers: u16,
    ) -> Result<(Office, Vec<Pass<CoreBook>>), Memory>
        requires desks { (1 ≤ desks) × (desks ≤ 16) }
        requires workers { workers ≤ 16 }
        ensures { IfOk result (λ r. r.1.items ≡ first_passes r.0 plan desks workers) }
    {
        let book = CoreBook::new(alloc, plan)?;
        let (desk, first) = Desk::new(alloc, book, 1)?;
        let (first, passes) = add_passes(&desk, first, Vec::new(alloc), 2, desks - 1)?;
        let (first, mut passes) = add_passes(&desk, first, passes, 17, workers)?;
        passes.insert(0, first)?;
        let open = AtomicU64::new(u64::from(desks));
        Ok((Office { alloc, desk, open }, passes))
    }
}

/// Adds the passes of so many parties from one on, and gives back the pass that knows which were given.
fn add_passes(
    desk: &Desk<CoreBook>,
    pass: Pass<CoreBook>,
    passes: Vec<Pass<CoreBook>>,
    first: u16,
    count: u16,
) -> Result<(Pass<CoreBook>, Vec<Pass<CoreBook>>), Memory>
    requires desk { IsPassOf desk.now pass }
    requires free { IsFreeFrom first pass }
    requires room { first + count < 65536 }
    ensures adds { IfOk result (λ r.
        AddsPasses (range_with_len first count) pass passes.items r.0 r.1.items) }
    ensures free { IfOk result (λ r. IsFreeFrom (first + count) r.0) }
{
    let (mut pass, mut passes) = (pass, passes);
    for step in 0..count {
        let Ok((giving, other)) = desk.split(pass, first + step) else {
            unreachable!()
        };
        passes.push(other)?;
        pass = giving;
    }
    Ok((pass, passes))
}
