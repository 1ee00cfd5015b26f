// The figures of benchmarked years.

use denton_parts::{
    Quotient, YearPart, change_bounds, change_ceil, change_floor, level, levels_of, scale_of,
};

// Left and right multipliers, the quarter, and the change's floor and ceiling, for a year with the indicators 1, 2, 3
// and 4.
#[test]
fn changes_are_weighed(rt: HostRuntime) {
    let part = YearPart::of([1, 2, 3, 4], 7);
    assert_eq!(rt; part.before, [0, 1, 3, 6]);
    assert_eq!(rt; part.sum, 10);
    assert_eq!(rt; part.bench, 7);
    assert_eq!(rt; change_floor(&part, 15, -4, 0), 15);
    assert_eq!(rt; change_ceil(&part, 15, -4, 0), 15);
    assert_eq!(rt; change_floor(&part, 15, -4, 1), 13);
    assert_eq!(rt; change_ceil(&part, 15, -4, 1), 14);
    assert_eq!(rt; change_floor(&part, -15, 4, 3), -4);
    assert_eq!(rt; change_ceil(&part, -15, 4, 3), -3);
    assert_eq!(rt;
        change_bounds(&part, -15, 4, 3),
        Quotient {
            floor: -4,
            ceiling: -3
        }
    );
}

// Indicators, a benchmark, and the scale: a usual ratio, none, and the largest.
#[test]
fn scales_follow_the_annual_ratio(rt: HostRuntime) {
    assert_eq!(rt;
        scale_of(&[YearPart::of([100; 4], 1000), YearPart::of([100; 4], 1400)]),
        12
    );
    assert_eq!(rt; scale_of(&[YearPart::of([100; 4], 0)]), 15);
    assert_eq!(rt; scale_of(&[YearPart::of([1; 4], 1000000000000)]), 1);
}

#[test]
fn levels_rise_with_the_changes(rt: HostRuntime) {
    let part = YearPart::of([100; 4], 1000);
    assert_eq!(rt; level(&part, 12, 0, 363636363636, 0), 909090909091000);
    assert_eq!(rt; level(&part, 12, 0, 363636363636, 3), 1127272727272600);
    assert_eq!(rt;
        levels_of(&part, 12, 0, 363636363636),
        [
            909090909091000,
            945454545454600,
            1018181818181800,
            1127272727272600
        ]
    );
}
