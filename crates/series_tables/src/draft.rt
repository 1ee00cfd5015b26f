//! What the lines of a plan give so far, and whether a further one may stand behind them.

ghost use Rattle.std.specs.Prelude.{◌≡◌, ◌<◌, ◌≤◌, Some, None, Ok, false, is_some, length, IfOk, IfErr, OnOk};
ghost use Rattle.series_tables.specs.Plan.{plan_given, years_on as years_on_of, is_early as is_early_of};
ghost use Rattle.series_tables.specs.Plan.{is_second as is_second_of, is_out_of_range as is_out_of_range_of};
ghost use Rattle.series_tables.specs.Plan.{is_orphan as is_orphan_of, is_past_last as is_past_last_of, cause_of_entry};
ghost use Rattle.period_keys.specs.Period.{is_within as is_within_of};
ghost use Rattle.series_tables.specs.PlanError.{Refuses};
ghost use Rattle.series_tables.specs.PlanReading.{nothing, with_entry};
ghost use Rattle.series_tables.specs.PlanEntries.{entry_view, IsNamed, IsStartInRange, IsReferenceInRange};

use crate::cause::{PlanCause, PlanError};
use crate::entry::Entry;
use crate::items::{Items, MOST_ITEMS};
use crate::plan::Plan;
use period_keys::{YEARS, Year};
use qna_base::Memory;
use std::alloc::Global;
use std::marker::Model;

/// The least first year.
const FIRST: u16 = 1900;

/// The greatest first year.
const LAST: u16 = 2200;

/// The first year and the reference year, each where a line gave one, and the items.
#[derive(Drop)]
pub(crate) struct Draft {
    start: Option<u16>,
    reference: Option<u16>,
    items: Items,
}

impl Model for Draft {
    ghost use Rattle.series_tables.specs.Plan.{Gathered};
    ghost use Rattle.series_tables.specs.PlanEntries.{IsStartInRange, IsReferenceInRange};

    ghost Value = { Gathered };

    ghost view = { λ d. record {
      start = d.start;
      reference = d.reference;
      names = d.items.names;
      parents = d.items.parents;
    } };

    ghost invariant = { λ d. IsStartInRange d.start × IsReferenceInRange d.start d.reference };
}

impl Draft {
    /// Before the first line.
    pub(crate) fn new(alloc: Global) -> Draft
        ensures { result ≡ nothing }
    {
        Draft {
            start: None,
            reference: None,
            items: Items::new(alloc),
        }
    }

    /// Why an entry is refused behind those before it, or none.
    #[tactic(auto, unfolding(crate::specs::Plan::cause_of_entry))]
    pub(crate) fn cause(&self, said: Entry) -> Option<PlanCause>
        ensures { result ≡ cause_of_entry self.now (entry_view said.entry) }
    {
        if self.is_early(said) {
            Some(PlanCause::NoStart)
        } else if self.is_second(said) {
            Some(PlanCause::Twice)
        } else if self.is_out_of_range(said) {
            Some(PlanCause::Year)
        } else if self.is_orphan(said) {
            Some(PlanCause::NoParent)
        } else if self.is_past_last(said) {
            Some(PlanCause::TooMany)
        } else {
            None
        }
    }

    /// Whether an entry stands before the first year.
    fn is_early(&self, said: Entry) -> bool
        ensures { result ≡ is_early_of self.now (entry_view said.entry) }
    {
        match said {
            Entry::Start(_) => false,
            Entry::Reference(_) | Entry::Item(_, _) => self.start.is_none(),
        }
    }

    /// Whether an entry gives what an entry before it gave.
    fn is_second(&self, said: Entry) -> bool
        ensures { result ≡ is_second_of self.now (entry_view said.entry) }
    {
        match said {
            Entry::Start(_) => self.start.is_some(),
            Entry::Reference(_) => self.reference.is_some(),
            Entry::Item(name, _) => self.items.has(name),
        }
    }

    /// Whether an entry's year is out of range.
    fn is_out_of_range(&self, said: Entry) -> bool
        ensures { result ≡ is_out_of_range_of self.now (entry_view said.entry) }
    {
        match said {
            Entry::Start(year) => year < FIRST || LAST < year,
            Entry::Reference(year) => !is_within(self.start.unwrap_or(0), year),
            Entry::Item(_, _) => false,
        }
    }

    /// Whether an entry names a parent that no item before it has as its name.
    fn is_orphan(&self, said: Entry) -> bool
        ensures { result ≡ is_orphan_of self.now (entry_view said.entry) }
    {
        match said {
            Entry::Start(_) | Entry::Reference(_) => false,
            Entry::Item(_, parent) => !parent.is_empty() && !self.items.has(parent),
        }
    }

    /// Whether an entry is an item that comes after 512 items.
    fn is_past_last(&self, said: Entry) -> bool
        ensures { result ≡ is_past_last_of self.now (entry_view said.entry) }
    {
        match said {
            Entry::Start(_) | Entry::Reference(_) => false,
            Entry::Item(_, _) => MOST_ITEMS <= self.items.len(),
        }
    }

    /// Adds what an entry gives that isn't refused.
    pub(crate) fn add(&mut self, alloc: Global, said: Entry) -> Result<(), Memory>
        requires free { cause_of_entry self.old (entry_view said) ≡ None }
        requires named { IsNamed (entry_view said) }
        ensures { OnOk result (self.new ≡ with_entry self.old (entry_view said.entry)) }
    {
        match said {
            Entry::Start(year) => self.start = Some(year),
            Entry::Reference(year) => self.reference = Some(year),
            Entry::Item(name, parent) => {
                let parent = self.items.parent_among(parent);
                self.items.add(alloc, name, parent)?;
            }
        }
        Ok(())
    }

    /// The plan of what all lines give, where one of them gives the first year; `missing` is the number of the line
    /// after the last.
    pub(crate) fn finish(self, alloc: Global, missing: u64) -> Result<Plan, PlanError>
        ensures plan { IfOk result (λ plan. plan_given self missing ≡ Ok plan) }
        ensures fault { IfErr result (Refuses (plan_given self missing)) }
    {
        let Some(start) = self.start else {
            return Err(PlanError::Fault {
                line: missing,
                cause: PlanCause::NoStart,
            });
        };
        let reference = Year(years_on(start, self.reference));
        let leaves = self.items.leaves(alloc)?;
        Ok(Plan::of(start, reference, self.items, leaves))
    }
}

/// Whether a year is one of the 64 from the start year on.
fn is_within(start: u16, year: u16) -> bool
    ensures { result ≡ is_within_of start year }
{
    start <= year && year - start < YEARS
}

/// The reference year counted from the start year on, which it is where no line gives one.
fn years_on(start: u16, reference: Option<u16>) -> u16
    requires { IsReferenceInRange (Some start) reference }
    ensures value { result ≡ years_on_of start reference }
    ensures within { result < 64 }
{
    match reference {
        Some(year) => year - start,
        None => 0,
    }
}
