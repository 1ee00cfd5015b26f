// The quarters outside the benchmarked years by examples.

use denton_parts::YearPart;
use extrapolate::{across, carry, carry_back};

// The year, the multiplier before it, three later indicators and their values, at the scale 12: a step before the year,
// an only year with whole values, a half that goes up, and a half below zero that goes up as well.
#[test]
fn last_ratio_is_carried(rt: HostRuntime) {
    for (last, left, rest, values) in [
        (
            YearPart::of([100; 4], 1400),
            363636363636,
            [110, 100, 1],
            [410, 373, 4],
        ),
        (
            YearPart::of([100; 4], 1000),
            0,
            [110, 100, 1],
            [275, 250, 3],
        ),
        (YearPart::of([4; 4], 40), 0, [1, 2, 3], [3, 5, 8]),
        (YearPart::of([4; 4], -40), 0, [1, 2, 3], [-2, -5, -7]),
    ] {
        let mut out = [0; 3];
        carry(&last, 12, left, &rest, &mut out);
        assert_eq!(rt; out, values);
    }
}

// The year, the multiplier after it, three earlier indicators and their values, at the scale 12: a step after the year,
// and an only year.
#[test]
fn first_ratio_is_carried_back(rt: HostRuntime) {
    for (first, right, rest, values) in [
        (
            YearPart::of([100; 4], 1000),
            363636363636,
            [110, 100, 1],
            [250, 227, 2],
        ),
        (
            YearPart::of([100; 4], 1400),
            0,
            [110, 100, 1],
            [385, 350, 4],
        ),
    ] {
        let mut out = [0; 3];
        carry_back(&first, 12, right, &rest, &mut out);
        assert_eq!(rt; out, values);
    }
}

// A year between two benchmarked ones, with equal indicators: the ratio goes on in even steps.
#[test]
fn ratio_goes_across_in_even_steps(rt: HostRuntime) {
    let mut out = [0; 4];
    across(
        &YearPart::of([100; 4], 1000),
        &YearPart::of([100; 4], 1400),
        12,
        [0, 148148148148, 0],
        &[100; 4],
        &mut out,
    );
    assert_eq!(rt; out, [278, 293, 307, 322]);
}
