//! Shares a whole total out over four quarters, so that the quarters add up to the total exactly.
#![tactic(auto)]

ghost use Rattle.ratio_arith.specs.Division.{floor_of};
ghost use Rattle.std.specs.Prelude.{◌≡◌, ◌≤◌, ◌^◌, ◌+◌, ◌*◌, ℤ, pos, ◌<ℤ◌, ◌≤ℤ◌, ◌*ℤ◌, ◌-ℤ◌, ◌+ℤ◌, map, int_lt};
ghost use Rattle.std.specs.Prelude.{if◌then◌else◌, [], ◌∷◌, unsigned_abs, length, ◌<◌};
ghost use Rattle.std.specs.List.{All};
ghost use Rattle.sum_rounding.specs.ShareOut.{share_of, sum_of, remainder_of, rank_of, units_of, added};
ghost use Rattle.sum_rounding.specs.ShareOut.{IsShareOut, RanksShareOut, IsOnlyShareOut};

use ratio_arith::floor_div;

/// Divides each part: the floor of its quotient, and what is left of it.
fn divide(parts: &[i128; 4], den: i128, floors: &mut [i128; 4], rests: &mut [i128; 4])
    requires positive { pos 0 <ℤ den }
    ensures floors { floors.new ≡ map (λ part. floor_of part den) parts.now }
    ensures rests { rests.new ≡ map (λ part. remainder_of part den) parts.now }
{
    for quarter in 0..4 {
        floors[quarter] = floor_div(parts[quarter], den);
        rests[quarter] = parts[quarter].rem_euclid(den);
    }
}

/// The sum of four numbers.
fn sum(floors: &[i128; 4]) -> i128
    requires small { All (λ floor. unsigned_abs floor ≤ 10 ^ 37) floors.now }
    ensures value { result ≡ sum_of floors.now }
    ensures small { unsigned_abs result ≤ 4 * 10 ^ 37 }
{
    let front = floors[0] + floors[1];
    let back = floors[2] + floors[3];
    front + back
}

/// How many remainders come before this one.
fn rank(before: &[i128], mine: &i128, after: &[i128]) -> usize
    requires room { length before.now + length after.now < 4 }
    ensures value { result ≡ rank_of before.now mine.now after.now }
{
    let earlier = before.iter().filter(|rest| *mine <= **rest).count();
    let later = after.iter().filter(|rest| *mine < **rest).count();
    earlier + later
}

/// One unit where fewer remainders come first than units are left.
fn unit(ahead: usize, left: i128) -> i128
    ensures value { result ≡ (if int_lt (pos ahead) left then pos 1 else pos 0) }
{
    if (ahead as i128) < left { 1 } else { 0 }
}

/// Writes each floor, with one unit more for the quarters whose rank is below what is left.
fn hand_out(floors: &[i128; 4], rests: &[i128; 4], left: i128, out: &mut [i128; 4])
    requires small { All (λ floor. unsigned_abs floor ≤ 10 ^ 37) floors.now }
    ensures value { out.new ≡ added floors.now (units_of left [] rests.now) }
{
    for quarter in 0..4 {
        let ahead = rank(&rests[..quarter], &rests[quarter], &rests[quarter + 1..]);
        out[quarter] = floors[quarter] + unit(ahead, left);
    }
}

/// Shares a total out over four quarters: each gets the floor of its part over the divisor, and the units that are then
/// left, none to three, go one each to the quarters with the largest remainders, the earlier quarter first on a tie. So
/// the quarters add up to the total. The numbers are whole, in any unit. The rule of rounding is this product's own.
pub fn share_out(parts: &[i128; 4], den: i128, total: i128, out: &mut [i128; 4])
    requires positive { pos 0 <ℤ den }
    requires divisor { den ≤ℤ pos (10 ^ 37) }
    requires sizes { All (λ part. unsigned_abs part ≤ 10 ^ 37) parts.now }
    requires adds_up { sum_of parts.now ≡ den *ℤ total }
    ensures share { out.new ≡ share_of parts.now den total }
    ensures relation { IsShareOut parts.now den total out.new }
{
    let mut floors = [0; 4];
    let mut rests = [0; 4];
    divide(parts, den, &mut floors, &mut rests);
    let left = total - sum(&floors);
    hand_out(&floors, &rests, left, out);
}

/// `share_out` of four parts that are given one by one.
pub fn share_four(
    first: i128,
    second: i128,
    third: i128,
    fourth: i128,
    den: i128,
    total: i128,
) -> [i128; 4]
    requires positive { pos 0 <ℤ den }
    requires divisor { den ≤ℤ pos (10 ^ 37) }
    requires first { unsigned_abs first ≤ 10 ^ 37 }
    requires second { unsigned_abs second ≤ 10 ^ 37 }
    requires third { unsigned_abs third ≤ 10 ^ 37 }
    requires fourth { unsigned_abs fourth ≤ 10 ^ 37 }
    requires adds_up { sum_of (first ∷ second ∷ third ∷ fourth ∷ []) ≡ den *ℤ total }
    ensures share { result ≡ share_of (first ∷ second ∷ third ∷ fourth ∷ []) den total }
    ensures relation { IsShareOut (first ∷ second ∷ third ∷ fourth ∷ []) den total result }
{
    let mut out = [0; 4];
    share_out(&[first, second, third, fourth], den, total, &mut out);
    out
}

/// Law: the function of ranks, which `share_out` computes, gives a share-out for any four parts that add up to a
/// positive divisor times the total.
pub fn ranks_share_out()
    ensures law { RanksShareOut }
{}

/// Law: four parts have one share-out at most, so the relation fixes the four numbers.
pub fn only_share_out()
    ensures law { IsOnlyShareOut }
{}
