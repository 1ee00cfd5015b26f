//! What the lines of a certificate say so far.

ghost use Rattle.std.specs.Prelude.{◌≡◌, ◌==◌, ◌≤◌, ◌^◌, ◌<◌, ◌+◌, ◌*◌, ◌/◌, ◌∷◌, List, None, pos, ℤ, ◌≤ℤ◌, length};
ghost use Rattle.std.specs.Prelude.{map, IsTrue, IfOk, IfErr, OnOk, unsigned_abs, slice_index_or};
ghost use Rattle.period_keys.specs.Period.{Named};
ghost use Rattle.line_form.specs.Lines.{TextLine, line_view};
ghost use Rattle.cert_read.specs.Statement.{entry_view, named_view};
ghost use Rattle.cert_read.specs.Content.{Content, nothing, follows, with_line, is_in_range};
ghost use Rattle.cert_read.specs.Content.{is_quarter as is_quarter_at, is_year_behind as is_behind};
ghost use Rattle.cert_read.specs.Content.{place_behind as behind, is_between as is_between_of, IsInOrder, HasRanges};

use crate::entry::{Entry, NamedQuarter};
use line_form::is_name;
use qna_base::Memory;
use std::alloc::Global;
use std::marker::Model;

/// A benchmark and the place of its year, counted from the start year.
#[derive(Clone, Copy, Debug, PartialEq, Eq)]
pub(crate) struct DatedBenchmark {
    pub(crate) place: u16,
    pub(crate) value: i128,
}

/// What the lines so far say, each number as it stands.
#[derive(Drop)]
pub(crate) struct Draft {
    /// how many of the three lines at the head stand
    pub(crate) heads: u8,
    pub(crate) name: Vec<u8>,
    pub(crate) front: i128,
    pub(crate) scale: i128,
    pub(crate) start: u16,
    pub(crate) ind: Vec<i128>,
    pub(crate) bench: Vec<DatedBenchmark>,
    pub(crate) x: Vec<i128>,
    pub(crate) u: Vec<i128>,
    pub(crate) gap: i128,
    /// how many of the two lines at the end stand
    pub(crate) tail: u8,
}

impl Model for Draft {
    ghost use Rattle.std.specs.Prelude.{map};
    ghost use Rattle.cert_read.specs.Content.{Content, IsInOrder};

    ghost Value = { Content };

    ghost view = { λ d. record {
      heads = d.heads;
      name = d.name.items;
      front = d.front;
      scale = d.scale;
      start = d.start;
      ind = d.ind.items;
      places = map (λ b. b.place) d.bench.items;
      bench = map (λ b. b.value) d.bench.items;
      x = d.x.items;
      u = d.u.items;
      gap = d.gap;
      tail = d.tail;
    } };

    ghost invariant = { λ d. IsInOrder (record {
      heads = d.heads;
      name = d.name.items;
      front = d.front;
      scale = d.scale;
      start = d.start;
      ind = d.ind.items;
      places = map (λ b. b.place) d.bench.items;
      bench = map (λ b. b.value) d.bench.items;
      x = d.x.items;
      u = d.u.items;
      gap = d.gap;
      tail = d.tail;
    }) };
}

impl Draft {
    /// What no line says.
    pub(crate) fn new(alloc: Global) -> Draft
        ensures { result ≡ nothing }
    {
        Draft {
            heads: 0,
            name: Vec::new(alloc),
            front: 0,
            scale: 0,
            start: 0,
            ind: Vec::new(alloc),
            bench: Vec::new(alloc),
            x: Vec::new(alloc),
            u: Vec::new(alloc),
            gap: 0,
            tail: 0,
        }
    }

    /// Whether a line may follow those so far.
    pub(crate) fn admits(&self, entry: &Entry) -> bool
        ensures { result ≡ follows self.now (entry_view entry.now) }
    {
        match entry {
            Entry::Certificate(name, _) => self.heads == 0 && is_name(name),
            Entry::Scale(_) => self.heads == 1,
            Entry::Start(_) => self.heads == 2,
            Entry::Indicator(quarter, _) => {
                self.heads == 3
                    && self.bench.is_empty()
                    && is_quarter(self.start, self.ind.len(), *quarter)
            }
            Entry::Benchmark(year, _) => {
                self.x.is_empty() && is_year_behind(self.start, &self.bench, self.ind.len(), *year)
            }
            Entry::Value(quarter, _) => {
                self.bench.len() >= 1
                    && self.x.len() < self.ind.len()
                    && is_quarter(self.start, self.x.len(), *quarter)
            }
            Entry::Multiplier(year, _) => {
                self.x.len() == self.ind.len()
                    && self.u.len() + 1 < self.bench.len()
                    && is_year(self.start, self.bench[self.u.len()].place, *year)
            }
            Entry::Gap(_) => {
                self.tail == 0
                    && self.x.len() == self.ind.len()
                    && self.u.len() + 1 == self.bench.len()
            }
            Entry::End => self.tail == 1,
        }
    }

    /// Whether the number of a line that follows is in range.
    pub(crate) fn ranges_over(&self, entry: &Entry) -> bool
        requires follows { IsTrue (follows self.now (entry_view entry.now)) }
        requires ranges { HasRanges self.now }
        ensures { result ≡ is_in_range self.now (entry_view entry.now) }
    {
        match entry {
            Entry::Certificate(_, front) => is_between(0, *front, 262_144),
            Entry::Scale(scale) => is_between(0, *scale, 15),
            Entry::Start(year) => 1900 <= *year && *year <= 2200,
            Entry::Indicator(_, value) => {
                is_between(1, *value, 1_000_000_000) && self.ind.len() < 256
            }
            Entry::Benchmark(_, value) => value.unsigned_abs() <= 1_000_000_000_000,
            Entry::Value(_, value) => {
                value.unsigned_abs() <= value_bound(self.ind[self.x.len()], self.scale)
            }
            Entry::Multiplier(_, value) => value.unsigned_abs() <= 1_000_000_000_000_000,
            Entry::Gap(value) => {
                is_between(0, *value, 1_000_000_000_000_000_000_000_000_000_000_000_000)
            }
            Entry::End => true,
        }
    }

    /// Adds a line that follows.
    pub(crate) fn add(&mut self, entry: Entry) -> Result<(), Memory>
        requires { IsTrue (follows self.old (entry_view entry)) }
        ensures { OnOk result (self.new ≡ with_line self.old (entry_view entry)) }
    {
        match entry {
            Entry::Certificate(name, front) => {
                self.heads += 1;
                self.name = name;
                self.front = front;
            }
            Entry::Scale(scale) => {
                self.heads += 1;
                self.scale = scale;
            }
            Entry::Start(start) => {
                self.heads += 1;
                self.start = start;
            }
            Entry::Indicator(_, value) => self.ind.push(value)?,
            Entry::Benchmark(year, value) => {
                let place = year - self.start;
                self.bench.push(DatedBenchmark { place, value })?;
            }
            Entry::Value(_, value) => self.x.push(value)?,
            Entry::Multiplier(_, value) => self.u.push(value)?,
            Entry::Gap(value) => {
                self.tail += 1;
                self.gap = value;
            }
            Entry::End => self.tail += 1,
        }
        Ok(())
    }
}

/// Whether a quarter is the one at a place, counted from a start year's first.
fn is_quarter(start: u16, place: usize, quarter: NamedQuarter) -> bool
    ensures { result ≡ is_quarter_at start place (named_view quarter) }
{
    quarter.year as usize == start as usize + place / 4 && quarter.number as usize == place % 4 + 1
}

/// Whether a year is behind those of the benchmarks, and has its four quarters among so many.
fn is_year_behind(start: u16, bench: &[DatedBenchmark], quarters: usize, year: u16) -> bool
    ensures { result ≡ is_behind start (map (λ b. b.place) bench.now) quarters year }
{
    start as usize + place_behind(bench) <= year as usize
        && 4 * (year as usize - start as usize) + 4 <= quarters
}

/// The first place behind those of the benchmarks.
fn place_behind(bench: &[DatedBenchmark]) -> usize
    ensures value { result ≡ behind 0 (map (λ b. b.place) bench.now) }
    ensures most { result ≤ 65536 }
{
    match bench.last() {
        Some(last) => last.place as usize + 1,
        None => 0,
    }
}

/// Whether a year is the one at a place, counted from a start year.
fn is_year(start: u16, place: u16, year: u16) -> bool
    ensures { result ≡ (year == start + place) }
{
    year as usize == start as usize + place as usize
}

/// Whether a number lies between two.
fn is_between(least: i128, value: i128, most: i128) -> bool
    ensures { result ≡ is_between_of least value most }
{
    least <= value && value <= most
}

/// The greatest size of a value: 10^16 times its indicator, over 10^k.
fn value_bound(indicator: i128, scale: i128) -> u128
    requires least { pos 0 ≤ℤ indicator }
    requires most { indicator ≤ℤ pos (10 ^ 9) }
    requires least_scale { pos 0 ≤ℤ scale }
    requires most_scale { scale ≤ℤ pos 15 }
    ensures { result ≡ 10 ^ 16 * unsigned_abs indicator / 10 ^ unsigned_abs scale }
{
    10_000_000_000_000_000 * indicator.unsigned_abs() / power_of_ten(scale)
}

/// 10^k.
fn power_of_ten(scale: i128) -> u128
    requires least { pos 0 ≤ℤ scale }
    requires most { scale ≤ℤ pos 15 }
    ensures value { result ≡ 10 ^ unsigned_abs scale }
    ensures positive { 1 ≤ result }
{
    10u128.pow(scale as u32)
}
