//! The solver of proportional benchmarking: the multipliers between the benchmarked years of one leaf, and the series
//! that they give (IMF Quarterly National Accounts Manual 2017, chapter 6; the sweeps are this product's own).
#![tactic(auto)]

mod joint;
mod quarters;
mod sweep;

ghost use Rattle.std.specs.Prelude.{◌≡◌, ◌≤◌, ◌+◌, ◌*◌, ◌-◌, ℕ, length};
ghost use Rattle.denton_parts.specs.Scale.{scale_of_years};
ghost use Rattle.denton_parts.specs.Years.{Wherever, years_apart};
ghost use Rattle.denton_solve.specs.Conditions.{AreFew, AreMultipliers};
ghost use Rattle.denton_solve.specs.Settling.{AreSettled, SweepsComeNear};
ghost use Rattle.denton_solve.specs.Sweeps.{multipliers_of, IsEnough};

use denton_parts::YearPart;
use joint::weigh;
use qna_base::Steps;
pub use quarters::series;
use std::sync::ledger::Ledger;
use sweep::sweep;

/// Leaves in `u` the multipliers of the years at their scale, one between each two, in units of 1 over 10^scale: those
/// after 192 sweeps from 0. `miss` says how many years between each two miss a benchmark; where the first year stands
/// makes no difference. A step is one joint of one sweep. The sweeps stop early where one leaves the multipliers as
/// they were, or as they were two sweeps before, since those that follow are then known. `spare` has room for a second
/// row of multipliers and, behind it, for the weights of the joints; what it holds at the end means nothing.
pub fn solve<L: Ledger>(
    parts: &[YearPart],
    miss: &[u8],
    scale: u8,
    u: &mut [i128],
    spare: &mut [i128],
    steps: &mut Steps<L>,
)
    requires some_year { 1 ≤ length parts.now }
    requires most { length parts.now ≤ 128 }
    requires between { length miss.now + 1 ≡ length parts.now }
    requires few { AreFew miss.now }
    requires scale { Wherever parts.now (λ years. scale ≡ scale_of_years years) }
    requires joints { length u.old + 1 ≡ length parts.now }
    requires spare { length spare.old ≡ 2 * length u.old }
    ensures multipliers { (first : ℕ) →
        u.new ≡ multipliers_of scale (years_apart first miss.now parts.now) }
    ensures sizes { AreMultipliers u.new }
    ensures residuals { (first : ℕ) →
        AreSettled scale (years_apart first miss.now parts.now) u.new }
    ensures steps { (first sweeps : ℕ) →
        IsEnough scale (years_apart first miss.now parts.now) sweeps →
        steps.new ≤ steps.old + sweeps * (length parts.now - 1) }
{
    let (row, weights) = spare.split_at_mut(u.len());
    weigh(parts, miss, weights);
    u.fill(0);
    row.fill(0);
    for _pair in 0..96_usize {
        if sweep(parts, miss, scale, weights, u, row, steps) {
            return;
        }
        if sweep(parts, miss, scale, weights, row, u, steps) {
            return;
        }
    }
}
