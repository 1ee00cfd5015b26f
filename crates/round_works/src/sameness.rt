//! Whether a work is the one that is kept.

ghost use Rattle.std.specs.Prelude.{◌≡◌, ◌↔◌, IsTrue};
ghost use Rattle.round_works.specs.Making.{work_at};
ghost use Rattle.round_works.specs.Sameness.{HaveSameInputs, IsWork};
ghost use Rattle.round_works.specs.Works.{work_in};

use crate::work::Work;
use series_tables::LeafInput;

/// Whether the work that is kept for an item is this one.
pub(crate) fn is_kept(kept: &[Option<Work>], node: u16, work: &Work) -> bool
    ensures { IsTrue result ↔ IsWork (work_in work.now) (work_at kept.now node) }
{
    match kept.get(node as usize) {
        Some(Some(own)) => is_same_work(own, work),
        _ => false,
    }
}

/// Whether two works are the same.
fn is_same_work(one: &Work, other: &Work) -> bool
    ensures { IsTrue result ↔ (work_in one.now ≡ work_in other.now) }
{
    match (one, other) {
        (Work::Leaf(one), Work::Leaf(other)) => is_same_leaf(one, other),
        (Work::Inner(one), Work::Inner(other)) => one.same(other),
        _ => false,
    }
}

/// Whether two leaves' inputs are the same.
fn is_same_leaf(one: &LeafInput, other: &LeafInput) -> bool
    ensures { IsTrue result ↔ HaveSameInputs one.now other.now }
{
    is_same_run(&one.ind, &other.ind)
        && are_same_prices(&one.price, &other.price)
        && are_same_benchmarks(&one.bench, &other.bench)
}

/// Whether two runs of indicators are the same.
fn is_same_run(one: &[u32], other: &[u32]) -> bool
    ensures { IsTrue result ↔ (one.now ≡ other.now) }
{
    one == other
}

/// Whether two lists of prices are the same.
fn are_same_prices(one: &[Option<u32>], other: &[Option<u32>]) -> bool
    ensures { IsTrue result ↔ (one.now ≡ other.now) }
{
    if one.len() != other.len() {
        return false;
    }
    for t in 0..one.len() {
        if !is_same_price(one[t], other[t]) {
            return false;
        }
    }
    true
}

/// Whether two prices are the same, or none both.
fn is_same_price(one: Option<u32>, other: Option<u32>) -> bool
    ensures { IsTrue result ↔ (one ≡ other) }
{
    match (one, other) {
        (Some(one), Some(other)) => one == other,
        (None, None) => true,
        _ => false,
    }
}

/// Whether two lists of benchmarks are the same.
fn are_same_benchmarks(one: &[Option<i64>], other: &[Option<i64>]) -> bool
    ensures { IsTrue result ↔ (one.now ≡ other.now) }
{
    if one.len() != other.len() {
        return false;
    }
    for t in 0..one.len() {
        if !is_same_benchmark(one[t], other[t]) {
            return false;
        }
    }
    true
}

/// Whether two benchmarks are the same, or none both.
fn is_same_benchmark(one: Option<i64>, other: Option<i64>) -> bool
    ensures { IsTrue result ↔ (one ≡ other) }
{
    match (one, other) {
        (Some(one), Some(other)) => one == other,
        (None, None) => true,
        _ => false,
    }
}
