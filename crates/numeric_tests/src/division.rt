// Divisions and products.

use ratio_arith::{ceil_div, floor_div, mul_within, round_div};

#[test]
fn divides_either_sign(rt: HostRuntime) {
    for (n, d, floor, ceiling, nearest) in [
        (7, 2, 3, 4, 4),
        (-7, 2, -4, -3, -3),
        (8, 4, 2, 2, 2),
        (-9, 4, -3, -2, -2),
        (-10, 4, -3, -2, -2),
        (5, 3, 1, 2, 2),
    ] {
        assert_eq!(rt; floor_div(n, d), floor);
        assert_eq!(rt; ceil_div(n, d), ceiling);
        assert_eq!(rt; round_div(n, d), nearest);
    }
}

#[test]
fn tests_products(rt: HostRuntime) {
    assert_eq!(rt; mul_within(-6, 7, 42), Some(-42));
    assert_eq!(rt; mul_within(-6, 7, 41), None);
    assert_eq!(rt; mul_within(i128::MIN, 1, i128::MAX), None);
    assert_eq!(rt; mul_within(i128::MAX, i128::MAX, i128::MAX), None);
    assert_eq!(rt; mul_within(i128::MIN, 0, 0), Some(0));
}
