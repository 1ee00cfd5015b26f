//! The plan: the first year, the reference year and the items.

ghost use Rattle.std.specs.Prelude.{◌≡◌, ◌<◌, ◌≤◌, ◌↔◌, Some, None, Ok, not, suc, drop, length};
ghost use Rattle.std.specs.Prelude.{slice_get, slice_index_or, IsTrue, IfOk, IfErr, IfSome};
ghost use Rattle.period_keys.specs.declared.Year.{Year as YearPlace};
ghost use Rattle.std.specs.List.{list_any};
ghost use Rattle.line_form.specs.Name.{is_name};
ghost use Rattle.series_tables.specs.IsPlan.{IsPlan, plan_with};
ghost use Rattle.series_tables.specs.Items.{leaf_flags, leaf_flags_behind};
ghost use Rattle.series_tables.specs.Plan.{plan_of, item_with_name, is_parent, is_leaf as is_leaf_of};

use crate::cause::PlanError;
use crate::item::Item;
use crate::items::Items;
use crate::reading::read_text;
use period_keys::Year;
use qna_base::Memory;
use std::alloc::Global;
use std::marker::Model;

/// The first year, the reference year, and the items in their order. Items are numbered from 0, and a parent has a
/// smaller number than its children. Their names are names, and no two are one.
#[derive(Drop)]
pub struct Plan {
    start: u16,
    reference: Year,
    items: Items,
    leaves: Vec<bool>,
}

impl Model for Plan {
    ghost use Rattle.std.specs.Prelude.{◌≡◌, ◌<◌, ◌≤◌, length};
    ghost use Rattle.series_tables.specs.Items.{leaf_flags, leaf_flags_behind};
    ghost use Rattle.series_tables.specs.Plan.{PlanShape};

    ghost Value = { PlanShape };

    ghost view = { λ plan. record {
      start = plan.start;
      reference = plan.reference.0;
      names = plan.items.names;
      parents = plan.items.parents;
    } };

    ghost invariant = { λ plan.
        ((1900 ≤ plan.start) × (plan.start ≤ 2200) × (plan.reference.0 < 64))
        × ((length plan.leaves.items ≡ length plan.items.names)
        × (plan.leaves.items ≡ leaf_flags plan.items.parents)
        × (plan.leaves.items ≡ leaf_flags_behind plan.items.parents)) };
}

impl Plan {
    ghost use Rattle.series_tables.specs.PlanError.{Explains};

    /// Reads a plan: lines `start,YEAR`, `reference,YEAR` and `item,NAME,PARENT`, with empty lines and lines that begin
    /// with `#` passed over and counted. `start` comes first and once, with a year from 1900 to 2200; `reference` once
    /// at most, with one of the 64 years from the first on. A name is 1 to 32 ASCII letters, digits, `_`, `.` or `-`,
    /// no two items have one name, PARENT is empty or the name of an earlier item, and there are at most 512 items.
    ///
    /// A fault names the first line that is refused, with the first cause that applies to it. The form is this
    /// product's own.
    pub fn read(alloc: Global, text: &[u8]) -> Result<Plan, PlanError>
        ensures plan { IfOk result (λ plan. plan_of text.now ≡ Ok plan) }
        ensures fault { IfErr result (Explains text.now) }
    {
        read_text(alloc, text)
    }

    /// Makes a plan of its parts: a first year from 1900 to 2200, a reference year of the 64 from there on, and at most
    /// 512 items, numbered from 0 in their order. No two items have one name, and each parent stands before its
    /// children.
    pub fn new(alloc: Global, start: u16, reference: Year, items: &[Item]) -> Result<Plan, Memory>
        requires { IsPlan (plan_with start reference.0 items.now) }
        ensures { IfOk result (λ plan. plan ≡ plan_with start reference.0 items.now) }
    {
        let items = Items::of(alloc, items)?;
        let leaves = items.leaves(alloc)?;
        Ok(Plan::of(start, reference, items, leaves))
    }

    /// The plan of these years and items, with a flag for each item that says whether it is a leaf.
    pub(crate) fn of(start: u16, reference: Year, items: Items, leaves: Vec<bool>) -> Plan
        requires first { 1900 ≤ start }
        requires last { start ≤ 2200 }
        requires within { reference.0 < 64 }
        requires all { length leaves.items ≡ length items.names }
        requires leaves { leaves.items ≡ leaf_flags items.parents }
        requires behind { leaves.items ≡ leaf_flags_behind items.parents }
        ensures { result ≡ record {
          start = start;
          reference = reference.0;
          names = items.names;
          parents = items.parents;
        } }
    {
        Plan {
            start,
            reference,
            items,
            leaves,
        }
    }

    /// The first year, from 1900 to 2200.
    pub fn start(&self) -> u16
        ensures year { result ≡ self.now.start }
        ensures range { (1900 ≤ result) × (result ≤ 2200) }
    {
        self.start
    }

    /// The reference year, one of the 64 from the first on; the first where the text gives none.
    pub fn reference(&self) -> Year
        ensures year { result ≡ record { 0 = self.now.reference } }
        ensures range { result.0 < 64 }
    {
        self.reference
    }

    /// The number of items, at most 512.
    pub fn len(&self) -> u16
        ensures items { result ≡ length self.now.names }
        ensures parents { result ≡ length self.now.parents }
        ensures few { result ≤ 512 }
    {
        self.items.len() as u16
    }

    /// Whether the plan has no items.
    pub fn is_empty(&self) -> bool
        ensures { IsTrue result ↔ (length self.now.names ≡ 0) }
    {
        self.items.len() == 0
    }

    /// The name of an item, by which `find` finds it.
    pub fn name(&self, node: u16) -> &[u8]
        requires { node < length self.now.names }
        ensures item { slice_get self.now.names node ≡ Some result.now }
        ensures name { IsTrue (is_name result.now) }
        ensures found { item_with_name self.now result.now ≡ Some node }
    {
        self.items.name(node)
    }

    /// The number of an item's parent, which is smaller than its own, or none for a root.
    pub fn parent(&self, node: u16) -> Option<u16>
        requires { node < length self.now.names }
        ensures parent { result ≡ slice_index_or self.now.parents node None }
        ensures smaller { IfSome result (λ parent. parent < node) }
    {
        self.items.parent(node)
    }

    /// Whether an item is a leaf: no item of the whole plan names it as its parent. Only items behind it can.
    pub fn is_leaf(&self, node: u16) -> bool
        requires { node < length self.now.names }
        ensures leaf { result ≡ is_leaf_of self.now node }
        ensures behind { result
            ≡ not (list_any (is_parent node) (drop (suc node) self.now.parents)) }
    {
        self.leaves[node as usize]
    }

    /// The number of the item that has a name, or none where no item has it.
    pub fn find(&self, name: &[u8]) -> Option<u16>
        ensures item { result ≡ item_with_name self.now name.now }
        ensures within { IfSome result (λ node. node < length self.now.names) }
    {
        self.items.find(name)
    }

    /// An equal plan.
    pub fn copy(&self, alloc: Global) -> Result<Plan, Memory>
        ensures { IfOk result (λ plan. plan ≡ self.now) }
    {
        let items = self.items.copy(alloc)?;
        let leaves = Vec::from_slice(alloc, &self.leaves)?;
        Ok(Plan {
            start: self.start,
            reference: self.reference,
            items,
            leaves,
        })
    }
}
