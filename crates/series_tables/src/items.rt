//! The items of a plan: their names, each found by its bytes, and their parents.

ghost use Rattle.std.specs.Prelude.{◌≡◌, ◌<◌, ◌≤◌, ◌++◌, ◌∷◌, [], Some, None, true, false, length, map, position};
ghost use Rattle.std.specs.Prelude.{replicate, slice_get, slice_index_or, IsTrue, IfOk, IfSome, OnOk, OnErr};
ghost use Rattle.std.specs.Option.{ForSome};
ghost use Rattle.std.specs.List.{list_any};
ghost use Rattle.std.specs.Str.{bytes_eq};
ghost use Rattle.line_form.specs.Name.{is_name};
ghost use Rattle.series_tables.specs.IsPlan.{names_of, parents_of};
ghost use Rattle.series_tables.specs.Items.{AreBackward as AreBackwardOf, AreNames, leaf_flags as leaf_flags_of};
ghost use Rattle.series_tables.specs.Items.{leaf_flags_behind, marked};
ghost use Rattle.series_tables.specs.Plan.{parent_among as parent_among_of};

use crate::item::Item;
use indexmap::IndexSet;
use qna_base::Memory;
use std::alloc::Global;
use std::marker::Model;

/// How many items a plan may have.
pub(crate) const MOST_ITEMS: usize = 512;

/// The items in their order, numbered from 0. A parent has a smaller number than its children.
#[derive(Drop)]
pub(crate) struct Items {
    names: IndexSet<Vec<u8>>,
    parents: Vec<Option<u16>>,
}

impl Model for Items {
    ghost use Rattle.std.specs.Prelude.{◌≡◌, ◌≤◌, length, map};
    ghost use Rattle.series_tables.specs.Items.{ItemList, AreBackward, AreNames};

    ghost Value = { ItemList };

    ghost view = { λ items. record {
      names = map (λ name. name.items) items.names.keys;
      parents = items.parents.items;
    } };

    ghost invariant = { λ items.
        (length items.names.keys ≤ 512)
        × (length items.parents.items ≡ length items.names.keys)
        × AreBackward items.parents.items
        × AreNames (map (λ name. name.items) items.names.keys) };
}

impl Items {
    /// No items.
    pub(crate) fn new(alloc: Global) -> Items
        ensures { result ≡ record { names = []; parents = [] } }
    {
        Items {
            names: IndexSet::new(alloc),
            parents: Vec::new(alloc),
        }
    }

    /// These items in their order.
    pub(crate) fn of(alloc: Global, items: &[Item]) -> Result<Items, Memory>
        requires few { length items.now ≤ 512 }
        requires names { AreNames (names_of items.now) }
        requires parents { AreBackwardOf (parents_of items.now) }
        ensures { IfOk result (λ made.
            made ≡ record { names = names_of items.now; parents = parents_of items.now }) }
    {
        let mut made = Items::new(alloc);
        for item in items {
            made.add(alloc, &item.name, item.parent)?;
        }
        Ok(made)
    }

    /// How many items there are, at most 512.
    pub(crate) fn len(&self) -> usize
        ensures items { result ≡ length self.now.names }
        ensures parents { result ≡ length self.now.parents }
        ensures few { result ≤ 512 }
    {
        self.names.len()
    }

    /// The name of an item, by which it is found.
    pub(crate) fn name(&self, node: u16) -> &[u8]
        requires { node < length self.now.names }
        ensures item { slice_get self.now.names node ≡ Some result.now }
        ensures name { IsTrue (is_name result.now) }
        ensures found { position (bytes_eq result.now) self.now.names ≡ Some node }
    {
        self.names[node as usize].as_slice()
    }

    /// The number of an item's parent, or none for a root.
    #[tactic(auto, using(crate::proofs::Parents::smaller_parent))]
    pub(crate) fn parent(&self, node: u16) -> Option<u16>
        requires { node < length self.now.names }
        ensures parent { result ≡ slice_index_or self.now.parents node None }
        ensures smaller { IfSome result (λ parent. parent < node) }
    {
        self.parents[node as usize]
    }

    /// For each item whether it is a leaf: no item has it as its parent. Only items behind it can.
    pub(crate) fn leaves(&self, alloc: Global) -> Result<Vec<bool>, Memory>
        ensures leaf { IfOk result (λ flags. flags.items ≡ leaf_flags_of self.now.parents) }
        ensures behind { IfOk result (λ flags. flags.items ≡ leaf_flags_behind self.now.parents) }
        ensures all { IfOk result (λ flags. length flags.items ≡ length self.now.names) }
    {
        leaf_flags(alloc, &self.parents)
    }

    /// The number of the item that has a name, or none where no item has it.
    #[tactic(auto, using(crate::proofs::Names::position_map))]
    pub(crate) fn find(&self, name: &[u8]) -> Option<u16>
        ensures item { result ≡ position (bytes_eq name.now) self.now.names }
        ensures within { IfSome result (λ node. node < length self.now.names) }
    {
        match self.names.get_index_of(name) {
            Some(node) => Some(node as u16),
            None => None,
        }
    }

    /// Whether an item has a name.
    #[tactic(auto, using(crate::proofs::Names::names_of_keys))]
    pub(crate) fn has(&self, name: &[u8]) -> bool
        ensures { result ≡ list_any (bytes_eq name.now) self.now.names }
    {
        self.names.contains(name)
    }

    /// The number of the item whose name stands in a parent's field, or none where the field is empty.
    pub(crate) fn parent_among(&self, parent: &[u8]) -> Option<u16>
        ensures parent { result ≡ parent_among_of self.now.names parent.now }
        ensures within { IfSome result (λ node. node < length self.now.names) }
    {
        if parent.is_empty() {
            None
        } else {
            self.find(parent)
        }
    }

    /// Adds an item. Want of memory changes nothing.
    pub(crate) fn add(
        &mut self,
        alloc: Global,
        name: &[u8],
        parent: Option<u16>,
    ) -> Result<(), Memory>
        requires few { length self.old.names < 512 }
        requires name { IsTrue (is_name name.now) }
        requires unused { list_any (bytes_eq name.now) self.old.names ≡ false }
        requires smaller { ForSome parent (λ node. node < length self.old.names) }
        ensures names { OnOk result (self.new.names ≡ self.old.names ++ name.now ∷ []) }
        ensures parents { OnOk result (self.new.parents ≡ self.old.parents ++ parent ∷ []) }
        ensures unchanged { OnErr result (self.new ≡ self.old) }
    {
        let name = Vec::from_slice(alloc, name)?;
        self.parents.push(parent)?;
        match self.names.insert(name) {
            Ok(_) => Ok(()),
            Err(name) => {
                self.parents.pop();
                Err(Memory::from(name))
            }
        }
    }

    /// The same items once more.
    pub(crate) fn copy(&self, alloc: Global) -> Result<Items, Memory>
        ensures { IfOk result (λ items. items ≡ self.now) }
    {
        Ok(Items {
            names: self.names.clone()?,
            parents: Vec::from_slice(alloc, &self.parents)?,
        })
    }
}

/// For each item whether no item has it as its parent, where each parent stands before its children.
fn leaf_flags(alloc: Global, parents: &[Option<u16>]) -> Result<Vec<bool>, Memory>
    requires { AreBackwardOf parents.now }
    ensures { IfOk result (λ flags. flags.items ≡ leaf_flags_of parents.now) }
{
    let mut flags = vec![in alloc; true; parents.len()]?;
    mark_parents(parents, &mut flags);
    Ok(flags)
}

/// Takes the flags of all parents away.
fn mark_parents(parents: &[Option<u16>], flags: &mut [bool])
    requires backward { AreBackwardOf parents.now }
    requires all { flags.old ≡ replicate (length parents.now) true }
    ensures { flags.new ≡ leaf_flags_of parents.now }
{
    for node in 0..parents.len() {
        mark(parents[node], flags);
    }
}

/// Takes a parent's flag away.
fn mark(parent: Option<u16>, flags: &mut [bool])
    requires { ForSome parent (λ node. node < length flags.old) }
    ensures { flags.new ≡ marked parent flags.old }
{
    if let Some(parent) = parent {
        flags[parent as usize] = false;
    }
}
