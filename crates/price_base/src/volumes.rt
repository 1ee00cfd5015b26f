ghost use Rattle.std.specs.Prelude.{◌≡◌, ◌≢◌, ◌≤◌, ◌<◌, ◌^◌, ◌+◌, ◌*◌, ◌%◌, ℕ, pos, ◌*ℤ◌, ◌+ℤ◌, ◌<ℤ◌, ◌≤ℤ◌};
ghost use Rattle.std.specs.Prelude.{unsigned_abs, length, slice_get, slice_index_or, IfSome, nat_le, ◌&&◌, ◌⊎◌};
ghost use Rattle.std.specs.List.{All};
ghost use Rattle.price_base.specs.Cells.{IsFlow};
ghost use Rattle.ratio_arith.specs.Division.{round_of};
ghost use Rattle.price_base.specs.Volumes.{IsPrice, IsSoldInRange, IsBaseInRange, quantity_of, is_small};
ghost use Rattle.price_base.specs.Volumes.{are_small, sold_of, sold_at, base_from, base_of, base_at, base_start};
ghost use Rattle.price_base.specs.Volumes.{volume_within, volume_of, volumes_of};

use crate::{Base, Cell, Sold};
use ratio_arith::round_div;

/// The greatest size of quantities, of a base year's value and of volumes.
const LIMIT: u128 = 1_000_000_000_000_000;

/// The quantity behind a value at a price, in millionths: `value * 10^6 / price`, rounded with halves up. `value` is in
/// whole currency units, within 10^24; `price` is 1 to 10^9. The quantity of a leaf is this product's own.
pub fn quantity(x: i128, price: u32) -> i128
    requires value { unsigned_abs x ≤ 10 ^ 24 }
    requires price { IsPrice price }
    ensures quantity { result ≡ quantity_of x price }
    ensures size { unsigned_abs result ≤ 10 ^ 30 }
{
    round_div(x * 1_000_000, i128::from(price))
}

/// A quarter's value, or none past the last quarter.
fn value_at(x: &[i128], quarter: usize) -> Option<i128>
    requires sizes { (k : ℕ) → unsigned_abs (slice_index_or x.now k (pos 0)) ≤ 10 ^ 24 }
    ensures value { result ≡ slice_get x.now quarter }
    ensures size { IfSome result (λ value. unsigned_abs value ≤ 10 ^ 24) }
{
    x.get(quarter).copied()
}

/// A quarter's price, or none past the last quarter.
fn price_at(price: &[Option<u32>], quarter: usize) -> Option<u32>
    requires prices { (k : ℕ) → IfSome (slice_index_or price.now k None) IsPrice }
    ensures price { result ≡ slice_index_or price.now quarter None }
    ensures range { IfSome result IsPrice }
{
    if quarter < price.len() {
        price[quarter]
    } else {
        None
    }
}

/// What is sold in a quarter, where its value and its price are there.
fn quarter_sold(value: Option<i128>, price: Option<u32>) -> Option<Sold>
    requires size { IfSome value (λ value. unsigned_abs value ≤ 10 ^ 24) }
    requires range { IfSome price IsPrice }
    ensures sold { result ≡ sold_of value price }
    ensures range { IfSome result IsSoldInRange }
{
    match (value, price) {
        (Some(value), Some(price)) => {
            let quantity = quantity(value, price);
            Some(Sold { value, quantity })
        }
        _ => None,
    }
}

/// The sum of four values or quantities.
fn sum_of(first: i128, second: i128, third: i128, fourth: i128) -> i128
    requires first { unsigned_abs first ≤ 10 ^ 30 }
    requires second { unsigned_abs second ≤ 10 ^ 30 }
    requires third { unsigned_abs third ≤ 10 ^ 30 }
    requires fourth { unsigned_abs fourth ≤ 10 ^ 30 }
    ensures value { result ≡ first +ℤ second +ℤ third +ℤ fourth }
    ensures size { unsigned_abs result ≤ 4 * 10 ^ 30 }
{
    let two = first + second;
    let three = two + third;
    three + fourth
}

/// Whether a number is at most 10^15 in size.
fn is_small_number(number: i128) -> bool
    ensures small { result ≡ is_small number }
{
    number.unsigned_abs() <= LIMIT
}

/// Whether two numbers are small.
fn are_both_small(first: i128, second: i128) -> bool
    ensures small { result ≡ (is_small first && is_small second) }
{
    is_small_number(first) && is_small_number(second)
}

/// Whether four numbers are small.
fn are_four_small(first: i128, second: i128, third: i128, fourth: i128) -> bool
    ensures small { result ≡ are_small first second third fourth }
{
    are_both_small(first, second) && are_both_small(third, fourth)
}

/// The value of a year.
fn year_value(first: Sold, second: Sold, third: Sold, fourth: Sold) -> i128
    requires first { IsSoldInRange first }
    requires second { IsSoldInRange second }
    requires third { IsSoldInRange third }
    requires fourth { IsSoldInRange fourth }
    ensures value { result ≡ first.value +ℤ second.value +ℤ third.value +ℤ fourth.value }
    ensures size { unsigned_abs result ≤ 4 * 10 ^ 30 }
{
    sum_of(first.value, second.value, third.value, fourth.value)
}

/// The quantity of a year.
fn year_quantity(first: Sold, second: Sold, third: Sold, fourth: Sold) -> i128
    requires first { IsSoldInRange first }
    requires second { IsSoldInRange second }
    requires third { IsSoldInRange third }
    requires fourth { IsSoldInRange fourth }
    ensures value { result
        ≡ first.quantity +ℤ second.quantity +ℤ third.quantity +ℤ fourth.quantity }
    ensures size { unsigned_abs result ≤ 4 * 10 ^ 30 }
{
    sum_of(
        first.quantity,
        second.quantity,
        third.quantity,
        fourth.quantity,
    )
}

/// Whether a year's value and its four quantities are small.
fn is_small_year(value: i128, first: Sold, second: Sold, third: Sold, fourth: Sold) -> bool
    ensures small { result ≡ (is_small value
        && are_small first.quantity second.quantity third.quantity fourth.quantity) }
{
    is_small_number(value)
        && are_four_small(
            first.quantity,
            second.quantity,
            third.quantity,
            fourth.quantity,
        )
}

/// The base that four quarters make.
fn base_made(first: Sold, second: Sold, third: Sold, fourth: Sold) -> Base
    requires first { IsSoldInRange first }
    requires second { IsSoldInRange second }
    requires third { IsSoldInRange third }
    requires fourth { IsSoldInRange fourth }
    ensures base { result ≡ base_from first second third fourth }
    ensures range { IsBaseInRange result }
{
    let value = year_value(first, second, third, fourth);
    let quantity = year_quantity(first, second, third, fourth);
    let small = is_small_year(value, first, second, third, fourth);
    Base {
        value,
        quantity,
        small,
    }
}

/// The base of four quarters, where each has a value and a price.
fn base_year(
    first: Option<Sold>,
    second: Option<Sold>,
    third: Option<Sold>,
    fourth: Option<Sold>,
) -> Option<Base>
    requires first { IfSome first IsSoldInRange }
    requires second { IfSome second IsSoldInRange }
    requires third { IfSome third IsSoldInRange }
    requires fourth { IfSome fourth IsSoldInRange }
    ensures base { result ≡ base_of first second third fourth }
    ensures range { IfSome result IsBaseInRange }
{
    match (first, second, third, fourth) {
        (Some(first), Some(second), Some(third), Some(fourth)) => Some(base_made(
            first, second, third, fourth,
        )),
        _ => None,
    }
}

/// A volume, where it is within its range.
fn cell_within(volume: i128) -> Cell
    ensures cell { result ≡ volume_within volume }
{
    if is_small_number(volume) {
        Cell::Value(volume)
    } else {
        Cell::Range
    }
}

/// The product of two small numbers.
#[tactic(auto, using(crate::proofs::Sizes::small_product, crate::proofs::Sizes::small_fits, crate::proofs::Sizes::small_kept))]
fn product(first: i128, second: i128) -> i128
    requires first { unsigned_abs first ≤ 10 ^ 15 }
    requires second { unsigned_abs second ≤ 10 ^ 15 }
    ensures value { result ≡ first *ℤ second }
    ensures size { unsigned_abs result ≤ 10 ^ 30 }
{
    first * second
}

/// A quarter's quantity at the average price of a base with a quantity above zero.
fn at_average_price(own: i128, value: i128, quantity: i128) -> Cell
    requires own { unsigned_abs own ≤ 10 ^ 15 }
    requires value { unsigned_abs value ≤ 10 ^ 15 }
    requires positive { pos 0 <ℤ quantity }
    requires quantity { unsigned_abs quantity ≤ 4 * 10 ^ 30 }
    ensures cell { result ≡ volume_within (round_of (own *ℤ value) quantity) }
{
    cell_within(round_div(product(own, value), quantity))
}

/// The volume of a quarter with a value and a price over a base.
fn volume_on(base: Base, own: Sold) -> Cell
    requires base { IsBaseInRange base }
    ensures cell { result ≡ volume_of (Some base) (Some own) }
{
    if is_small_number(own.quantity) && base.small {
        if base.quantity <= 0 {
            Cell::NoBase
        } else {
            at_average_price(own.quantity, base.value, base.quantity)
        }
    } else {
        Cell::Range
    }
}

/// The volume of a quarter: its quantity at the base's average price, or the first mark whose case holds.
fn volume(base: Option<Base>, own: Option<Sold>) -> Cell
    requires base { IfSome base IsBaseInRange }
    ensures cell { result ≡ volume_of base own }
{
    match (base, own) {
        (Some(base), Some(own)) => volume_on(base, own),
        _ => Cell::Missing,
    }
}

/// The first quarter of the base of a quarter's year: the year before, and for the first year itself.
fn first_of_base(quarter: usize) -> usize
    requires quarter { quarter < 512 }
    ensures start { result ≡ base_start quarter }
    ensures range { result < 512 }
{
    4 * (quarter / 4).saturating_sub(1)
}

/// What is sold in a quarter of a leaf's series.
fn sold(x: &[i128], price: &[Option<u32>], quarter: usize) -> Option<Sold>
    requires sizes { (k : ℕ) → unsigned_abs (slice_index_or x.now k (pos 0)) ≤ 10 ^ 24 }
    requires prices { (k : ℕ) → IfSome (slice_index_or price.now k None) IsPrice }
    ensures sold { result ≡ sold_at x.now price.now quarter }
    ensures range { IfSome result IsSoldInRange }
{
    quarter_sold(value_at(x, quarter), price_at(price, quarter))
}

/// The base of a quarter's year in a leaf's series.
fn base_at_quarter(x: &[i128], price: &[Option<u32>], quarter: usize) -> Option<Base>
    requires sizes { (k : ℕ) → unsigned_abs (slice_index_or x.now k (pos 0)) ≤ 10 ^ 24 }
    requires prices { (k : ℕ) → IfSome (slice_index_or price.now k None) IsPrice }
    requires quarter { quarter < 512 }
    ensures base { result ≡ base_at x.now price.now (base_start quarter) }
    ensures range { IfSome result IsBaseInRange }
{
    let start = first_of_base(quarter);
    base_year(
        sold(x, price, start),
        sold(x, price, start + 1),
        sold(x, price, start + 2),
        sold(x, price, start + 3),
    )
}

/// The base of a quarter's year: made at the year's first quarter, and kept for the others.
fn base_for(x: &[i128], price: &[Option<u32>], quarter: usize, kept: Option<Base>) -> Option<Base>
    requires sizes { (k : ℕ) → unsigned_abs (slice_index_or x.now k (pos 0)) ≤ 10 ^ 24 }
    requires prices { (k : ℕ) → IfSome (slice_index_or price.now k None) IsPrice }
    requires quarter { quarter < 512 }
    requires kept { (quarter % 4 ≡ 0) ⊎ (kept ≡ base_at x.now price.now (base_start quarter)) }
    requires range { IfSome kept IsBaseInRange }
    ensures base { result ≡ base_at x.now price.now (base_start quarter) }
    ensures range { IfSome result IsBaseInRange }
{
    if quarter.is_multiple_of(4) {
        base_at_quarter(x, price, quarter)
    } else {
        kept
    }
}

/// Writes a leaf's volumes at previous-year prices, quarter by quarter from a year's first quarter on: its quantity
/// times the average price of the base, which is the year before, and for the first year itself (chapter 8 of the IMF
/// Quarterly National Accounts Manual, 2017; the quantities, the first year's base and the ranges are this product's
/// own). The cell is, in this order, `Missing` where the quarter or one of the base's quarters has no value or no
/// price; `Range` where one of the quantities or the base's value passes 10^15; `NoBase` where the base's quantity is
/// not above zero; `Range` where the volume passes 10^15; else the volume. The values `x` are in whole currency units,
/// within 10^24; a price is 1 to 10^9; the three slices are equally long, at most 512.
pub fn at_previous_prices(x: &[i128], price: &[Option<u32>], out: &mut [Cell])
    requires sizes { All (λ value. unsigned_abs value ≤ 10 ^ 24) x.now }
    requires prices { All (λ price. IfSome price IsPrice) price.now }
    requires as_many_prices { length price.now ≡ length x.now }
    requires as_many_cells { length out.old ≡ length x.now }
    requires quarters { length x.now ≤ 512 }
    ensures cells { out.new ≡ volumes_of x.now price.now }
    ensures flows { All IsFlow out.new }
{
    let mut base = None;
    for quarter in 0..out.len() {
        base = base_for(x, price, quarter, base);
        out[quarter] = volume(base, sold(x, price, quarter));
    }
}
