//! Tests of the numeric crates: worked values, and each public call on its way.
//!
//! They stand apart, so that a crate is proved once and not once more for its tests.
#![tactic(auto)]

#[cfg(test)]
mod accounts;
#[cfg(test)]
mod carrying;
#[cfg(test)]
mod chains;
#[cfg(test)]
mod division;
#[cfg(test)]
mod prices;
#[cfg(test)]
mod shares;
#[cfg(test)]
mod solving;
#[cfg(test)]
mod verdicts;
#[cfg(test)]
mod years;
