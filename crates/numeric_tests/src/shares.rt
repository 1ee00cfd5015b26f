// Share-outs.

ghost use Rattle.std.specs.Prelude.{◌≤◌, ◌^◌, ◌≡◌, pos, ◌*ℤ◌, ◌≤ℤ◌, ◌<ℤ◌, unsigned_abs};
ghost use Rattle.std.specs.List.{All};
ghost use Rattle.sum_rounding.specs.ShareOut.{sum_of};

use sum_rounding::share_out;

/// The share-out of four parts, a divisor and a total, in an array of its own.
fn shared(parts: &[i128; 4], den: i128, total: i128) -> [i128; 4]
    requires positive { pos 0 <ℤ den }
    requires divisor { den ≤ℤ pos (10 ^ 37) }
    requires sizes { All (λ part. unsigned_abs part ≤ 10 ^ 37) parts.now }
    requires adds_up { sum_of parts.now ≡ den *ℤ total }
{
    let mut out = [0; 4];
    share_out(parts, den, total, &mut out);
    out
}

#[test]
fn shares_follow_the_table(rt: HostRuntime) {
    assert_eq!(rt; shared(&[10, 10, 10, 10], 4, 10), [3, 3, 2, 2]);
    assert_eq!(rt; shared(&[-10, -10, -10, -10], 4, -10), [-2, -2, -3, -3]);
    assert_eq!(rt;
        shared(&[100_000, 100_000, 100_000, 100_000], 400, 1000),
        [250, 250, 250, 250]
    );
    assert_eq!(rt; shared(&[1, 2, 3, 4], 10, 1), [0, 0, 0, 1]);
    assert_eq!(rt; shared(&[7, -5, 0, 1], 3, 1), [3, -2, 0, 0]);
    assert_eq!(rt; shared(&[0, 0, 0, 0], 1, 0), [0, 0, 0, 0]);
}
