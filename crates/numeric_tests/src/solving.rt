ghost use Rattle.std.specs.Prelude.{◌≡◌, ◌≤◌, ◌<◌, ◌+◌, ◌*◌, length};
ghost use Rattle.denton_solve.specs.Conditions.{AreFew};

use denton_parts::{YearPart, scale_of};
use denton_solve::{series, solve};
use qna_base::Steps;
use std::marker::Brand;
use std::process::Abort;
use std::sync::ledger::{Blank, Ledger};

// Years and how many between each two miss a benchmark, and what is wanted of them: the scale, the multipliers between
// them and the values of their quarters.
#[derive(Clone, Copy)]
struct Row<'a> {
    years: &'a [YearPart],
    miss: &'a [u8],
    scale: u8,
    multipliers: &'a [i128],
    values: &'a [i128],
    ghost some_year: { 1 ≤ length years.now },
    ghost most: { length years.now ≤ 3 },
    ghost between: { length miss.now + 1 ≡ length years.now },
    ghost few: { AreFew miss.now },
}

// Solves the years, writes their series and answers their scale.
fn solved<L: Ledger>(
    blank: Blank,
    years: &[YearPart],
    miss: &[u8],
    multipliers: &mut [i128],
    values: &mut [i128],
) -> u8
    requires name { blank.name ≡ L.name }
    requires parts { blank.parts ≡ L.parts }
    requires some { 0 < blank.parts }
    requires some_year { 1 ≤ length years.now }
    requires most { length years.now ≤ 3 }
    requires between { length miss.now + 1 ≡ length years.now }
    requires few { AreFew miss.now }
    requires joints { length multipliers.old + 1 ≡ length years.now }
    requires room { length values.old ≡ 4 * length years.now }
{
    let mut steps = Steps::<L>::open(blank);
    let mut spare = [0; 4];
    let scale = scale_of(years);
    solve(
        years,
        miss,
        scale,
        multipliers,
        &mut spare[..2 * miss.len()],
        &mut steps,
    );
    series(years, scale, multipliers, values);
    scale
}

// Solves the years of a row, and compares what comes with what the row wants.
fn follow(rt: &impl Abort, row: Row) {
    let mut multipliers = [0; 2];
    let mut values = [0; 12];
    let joints = row.years.len() - 1;
    let quarters = 4 * row.years.len();
    let scale = solved::<Brand>(
        Blank::new(1),
        row.years,
        row.miss,
        &mut multipliers[..joints],
        &mut values[..quarters],
    );
    assert_eq!(rt; scale, row.scale);
    assert_eq!(rt; &multipliers[..joints], row.multipliers);
    assert_eq!(rt; &values[..quarters], row.values);
}

// Rows: a level ratio; the least indicators with a tie between quarters; a step between two years; no benchmark but 0;
// a negative benchmark; indicators at the two ends of their range with the largest benchmarks; three years in a line;
// the same without a benchmark of the second, whose multiplier and values in the first and third are the same.
#[test]
fn series_follow_the_table(rt: HostRuntime) {
    for row in [
        Row {
            years: &[YearPart::of([100; 4], 1000)],
            miss: &[],
            scale: 12,
            multipliers: &[],
            values: &[250, 250, 250, 250],
        },
        Row {
            years: &[YearPart::of([1; 4], 10)],
            miss: &[],
            scale: 12,
            multipliers: &[],
            values: &[3, 3, 2, 2],
        },
        Row {
            years: &[YearPart::of([100; 4], 1000), YearPart::of([100; 4], 1400)],
            miss: &[0],
            scale: 12,
            multipliers: &[363636363636],
            values: &[227, 236, 255, 282, 318, 345, 364, 373],
        },
        Row {
            years: &[YearPart::of([100; 4], 0), YearPart::of([100; 4], 0)],
            miss: &[0],
            scale: 15,
            multipliers: &[0],
            values: &[0; 8],
        },
        Row {
            years: &[YearPart::of([1; 4], -10)],
            miss: &[],
            scale: 12,
            multipliers: &[],
            values: &[-2, -2, -3, -3],
        },
        Row {
            years: &[
                YearPart::of([1; 4], 1000000000000),
                YearPart::of([1000000000; 4], 1000000000000),
            ],
            miss: &[0],
            scale: 1,
            multipliers: &[-909090908182],
            values: &[
                306818181761,
                284090909057,
                238636363648,
                170454545534,
                79545454715975000000,
                11363636602275000000,
                -34090908806825000000,
                -56818181511425000000,
            ],
        },
        Row {
            years: &[
                YearPart::of([100; 4], 1000),
                YearPart::of([100; 4], 1200),
                YearPart::of([100; 4], 1400),
            ],
            miss: &[0, 0],
            scale: 12,
            multipliers: &[148148148148, 148148148148],
            values: &[241, 244, 252, 263, 278, 293, 307, 322, 337, 348, 356, 359],
        },
        Row {
            years: &[YearPart::of([100; 4], 1000), YearPart::of([100; 4], 1400)],
            miss: &[1],
            scale: 12,
            multipliers: &[148148148148],
            values: &[241, 244, 252, 263, 337, 348, 356, 359],
        },
    ] {
        follow(&rt, row);
    }
}
