ghost use Rattle.std.specs.Prelude.{◌≡◌, ◌<◌, ◌≤◌, ◌+◌, ◌↔◌, ◌∷◌, [], ℕ, List, map, length, IsTrue, IfOk};
ghost use Rattle.std.specs.List.{All};
ghost use Rattle.price_base.specs.declared.Cell.{Cell};
ghost use Rattle.aggregate_tree.specs.Leaves.{added, all_leaves, HasLeaf};
ghost use Rattle.aggregate_tree.specs.Tallies.{IsSumOf, cells_of, with_cells, AreValueSums};
ghost use Rattle.aggregate_tree.specs.Tallies.{AreVolumeSums, IsValueInRange, IsVolumeInRange};
ghost use Rattle.aggregate_tree.specs.Sum.{empty_sum, with_child, HaveSameCells};

use crate::tally::{Tally, add_cells, cells, have_same_cells};
use price_base::{Cells, NodeFlows};
use qna_base::Memory;
use std::alloc::Global;
use std::marker::Model;

/// The sum of an item's children, quarter by quarter: of their values in whole currency units, and of their volumes at
/// previous-year prices in the same unit. It takes at most 512 children of at most 512 quarters. Sums of values stay
/// below 10^27, sums of volumes within 512 * 10^15.
#[derive(Drop)]
pub struct FlowSum {
    alloc: Global,
    children: u16,
    value: Vec<Tally>,
    prev: Vec<Tally>,
}

impl Model for FlowSum {
    ghost use Rattle.aggregate_tree.specs.Sum.{Sum, IsKept};

    ghost Value = { Sum };

    ghost view = { λ sum. record {
      children = sum.children;
      value = sum.value.items;
      prev = sum.prev.items;
    } };

    ghost invariant = { λ sum. IsKept sum.children sum.value.items sum.prev.items };
}

impl FlowSum {
    /// The sum of no children, with room for so many quarters, at most 512.
    pub fn new(alloc: Global, quarters: u16) -> Result<FlowSum, Memory>
        requires quarters { quarters ≤ 512 }
        ensures empty { IfOk result (λ sum. sum ≡ empty_sum quarters) }
        ensures value { IfOk result (λ sum. IsSumOf [] sum.value) }
        ensures prev { IfOk result (λ sum. IsSumOf [] sum.prev) }
    {
        let quarters = quarters as usize;
        Ok(FlowSum {
            alloc,
            children: 0,
            value: vec![in alloc; Tally::NONE; quarters]?,
            prev: vec![in alloc; Tally::NONE; quarters]?,
        })
    }

    /// Adds a child that is no longer than the sum has room for. In each quarter the sums over the children whose cells
    /// are values must stay in their ranges. A sum of some children is then the sum of this child and those.
    pub fn add(&mut self, child: &NodeFlows)
        requires children { self.old.children < 512 }
        requires quarters { length child.now.value ≤ length self.old.value }
        requires value_sums { AreValueSums (with_cells child.now.value self.old.value) }
        requires prev_sums { AreVolumeSums (with_cells child.now.prev self.old.prev) }
        ensures added { self.new ≡ with_child child.now.value child.now.prev self.old }
        ensures children { self.new.children ≡ self.old.children + 1 }
        ensures quarters { length self.new.value ≡ length self.old.value }
        ensures value { (lists : List (List Cell)) → IsSumOf lists self.old.value →
            IsSumOf (child.now.value ∷ lists) self.new.value }
        ensures prev { (lists : List (List Cell)) → IsSumOf lists self.old.prev →
            IsSumOf (child.now.prev ∷ lists) self.new.prev }
    {
        add_cells(&mut self.value, child.value.as_slice());
        add_cells(&mut self.prev, child.prev.as_slice());
        self.children += 1;
    }

    /// An equal sum.
    pub fn copy(&self) -> Result<FlowSum, Memory>
        ensures copy { IfOk result (λ sum. sum ≡ self.now) }
    {
        Ok(FlowSum {
            alloc: self.alloc,
            children: self.children,
            value: Vec::from_slice(self.alloc, &self.value)?,
            prev: Vec::from_slice(self.alloc, &self.prev)?,
        })
    }

    /// Whether two sums have the same cells. The room and the children behind the cells may differ.
    pub fn same(&self, other: &FlowSum) -> bool
        ensures same { IsTrue result ↔ HaveSameCells self.now other.now }
    {
        have_same_cells(&self.value, &other.value) && have_same_cells(&self.prev, &other.prev)
    }

    /// The cells of the sum, as many as the longest child has, none without children. In each quarter that is the sum
    /// of the children's cells where all are values, else the first mark among them in the order missing, no base,
    /// range; a child that ends before the quarter counts as missing. Where each child is the sum over the leaves under
    /// it, so is the sum.
    pub fn flows(&self) -> Result<NodeFlows, Memory>
        ensures few { IfOk result (λ flows. length flows.value ≤ 512) }
        ensures value { IfOk result (λ flows. flows.value ≡ cells_of self.now.value) }
        ensures prev { IfOk result (λ flows. flows.prev ≡ cells_of self.now.prev) }
        ensures value_of_children { (lists : List (List Cell)) → IsSumOf lists self.now.value →
            IfOk result (λ flows. flows.value ≡ added lists) }
        ensures prev_of_children { (lists : List (List Cell)) → IsSumOf lists self.now.prev →
            IfOk result (λ flows. flows.prev ≡ added lists) }
        ensures value_over_leaves { (children : List (List (List Cell))) →
            All HasLeaf children → IsSumOf (map added children) self.now.value →
            IfOk result (λ flows. flows.value ≡ added (all_leaves children)) }
        ensures prev_over_leaves { (children : List (List (List Cell))) →
            All HasLeaf children → IsSumOf (map added children) self.now.prev →
            IfOk result (λ flows. flows.prev ≡ added (all_leaves children)) }
        ensures value_range { IfOk result (λ flows. All IsValueInRange flows.value) }
        ensures prev_range { IfOk result (λ flows. All IsVolumeInRange flows.prev) }
    {
        let value = cells(self.alloc, &self.value)?;
        let prev = cells(self.alloc, &self.prev)?;
        Ok(NodeFlows::new(Cells::from(value), Cells::from(prev)))
    }
}
