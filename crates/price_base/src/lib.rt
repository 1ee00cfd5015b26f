//! Cells of quarterly and yearly figures, and a leaf's volumes at previous-year prices.
#![tactic(auto)]

/// One figure of an item for a quarter or a year, or the mark that says why there is none.
#[derive(Clone, Copy, Debug, PartialEq, Eq)]
pub enum Cell {
    /// An input that the figure is made from is not there.
    Missing,
    /// The figure, a whole number in the unit of its list.
    Value(i128),
    /// The base year has no quantity above zero.
    NoBase,
    /// A year's volume or the value before it is not above zero, so there is no link.
    NoLink,
    /// The figure, or a number that it is made from, passes its limit.
    Range,
}

/// A quarter's value in whole currency units, and its quantity in millionths.
#[derive(Clone, Copy)]
pub struct Sold {
    pub value: i128,
    pub quantity: i128,
}

/// A year's value and quantity, and whether its value and the quantities of its four quarters are at most 10^15 in
/// size.
#[derive(Clone, Copy)]
pub struct Base {
    pub value: i128,
    pub quantity: i128,
    pub small: bool,
}

mod flows;
mod volumes;

pub use flows::{Cells, NodeFlows};
pub use volumes::{at_previous_prices, quantity};
