//! One input of a desk.

/// What an input gives.
#[derive(Clone, Copy, Debug, PartialEq, Eq)]
pub enum Kind {
    /// A quarterly indicator: a whole number from 1 to 10^9.
    Indicator,
    /// An annual benchmark: a whole number of currency units from -10^12 to 10^12.
    Benchmark,
    /// A quarterly price: a whole number from 1 to 10^9, an index in a unit of the user's choice.
    Price,
}

/// One value of one leaf in one period. It fits a plan where its item is a leaf of the plan, the period is below 256
/// (below 64 for a benchmark), and the value is in its kind's range.
#[derive(Clone, Copy, Debug, PartialEq, Eq)]
pub struct Input {
    /// What the value is.
    pub kind: Kind,
    /// The leaf's number.
    pub leaf: u16,
    /// The quarter from the start year's first on, or for a benchmark the year from the start year on; both from 0.
    pub period: u16,
    /// The value, in the range of its kind.
    pub value: i64,
}
