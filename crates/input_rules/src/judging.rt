// The judgement of one input by the plan.

ghost use Rattle.std.specs.Prelude.{◌≡◌, ◌<◌, IfOk, IfSome, IsTrue, length};
ghost use Rattle.series_tables.specs.Fits.{FitsPlan};
ghost use Rattle.series_tables.specs.Plan.{is_leaf};
ghost use Rattle.input_rules.specs.Judgement.{is_zero_indicator as is_zero_indicator_of, is_in_range as is_in_range_of};
ghost use Rattle.input_rules.specs.Judgement.{leaf_with_name as leaf_with_name_of, judgement, judgement_of_leaf};

use series_tables::{Input, Kind, Plan};

/// An input as a line gives it: its leaf by name, its period if the period is one of the plan's years, and its value.
#[derive(Debug, Drop)]
pub struct RawInput {
    /// What the value is.
    pub kind: Kind,
    /// The name of the leaf, in bytes.
    pub name: Vec<u8>,
    /// The quarter from the start year's first on, or for a benchmark the year from the start year on, both from 0;
    /// none where it lies outside the 64 years from the start year.
    pub period: Option<u16>,
    /// The value, cut to 10^15 on either side.
    pub value: i64,
}

/// Why an input is refused.
#[derive(Clone, Copy, Debug, PartialEq, Eq)]
pub enum Refusal {
    /// No leaf of the plan has the name: no item has it, or one that another item names as its parent.
    Unknown,
    /// An indicator of 0: the method divides by indicators.
    Zero,
    /// The period isn't one of the plan's 64 years, or the value isn't in its kind's range.
    Range,
}

/// The quarters of a plan's 64 years.
const QUARTERS: u16 = 256;
/// The years of a plan, from its start year on.
const YEARS: u16 = 64;

/// Judges an input: `Unknown` exactly where no leaf has its name; else `Zero` exactly where it is an indicator of 0;
/// else `Range` exactly where its period or its value is out of range. An input that is taken fits the plan, with the
/// leaf's number.
pub fn judge(plan: &Plan, raw: &RawInput) -> Result<Input, Refusal>
    ensures judgement { result
        ≡ judgement plan.now raw.now.kind raw.now.name.items raw.now.period raw.now.value }
    ensures fits { IfOk result (FitsPlan plan.now) }
{
    judge_input(plan, raw.kind, &raw.name, raw.period, raw.value)
}

/// Judges an input given by its parts, alike.
pub fn judge_input(
    plan: &Plan,
    kind: Kind,
    name: &[u8],
    period: Option<u16>,
    value: i64,
) -> Result<Input, Refusal>
    ensures judgement { result ≡ judgement plan.now kind name.now period value }
    ensures fits { IfOk result (FitsPlan plan.now) }
{
    let Some(leaf) = leaf_with_name(plan, name) else {
        return Err(Refusal::Unknown);
    };
    if is_zero_indicator(kind, value) {
        return Err(Refusal::Zero);
    }
    judge_leaf(kind, leaf, period, value)
}

/// The number of the leaf that has a name, or none where no item has it or the item isn't a leaf.
pub fn leaf_with_name(plan: &Plan, name: &[u8]) -> Option<u16>
    ensures named { result ≡ leaf_with_name_of plan.now name.now }
    ensures within { IfSome result (λ item. item < length plan.now.names) }
    ensures leaf { IfSome result (λ item. IsTrue (is_leaf plan.now item)) }
{
    match plan.find(name) {
        Some(item) if plan.is_leaf(item) => Some(item),
        _ => None,
    }
}

/// Whether an input is an indicator of 0.
fn is_zero_indicator(kind: Kind, value: i64) -> bool
    ensures { result ≡ is_zero_indicator_of kind value }
{
    match kind {
        Kind::Indicator => 0 <= value && value <= 0,
        Kind::Benchmark | Kind::Price => false,
    }
}

/// Judges a leaf's period and value.
fn judge_leaf(kind: Kind, leaf: u16, period: Option<u16>, value: i64) -> Result<Input, Refusal>
    ensures { result ≡ judgement_of_leaf kind leaf period value }
{
    let Some(period) = period else {
        return Err(Refusal::Range);
    };
    if is_in_range(kind, period, value) {
        Ok(Input {
            kind,
            leaf,
            period,
            value,
        })
    } else {
        Err(Refusal::Range)
    }
}

/// Whether a period is one of the plan's years, and the value in its kind's range.
fn is_in_range(kind: Kind, period: u16, value: i64) -> bool
    ensures { result ≡ is_in_range_of kind period value }
{
    match kind {
        Kind::Benchmark => period < YEARS
            && -1_000_000_000_000 <= value
            && value <= 1_000_000_000_000,
        Kind::Indicator | Kind::Price => period < QUARTERS && 1 <= value && value <= 1_000_000_000,
    }
}
