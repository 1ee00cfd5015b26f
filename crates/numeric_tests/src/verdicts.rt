ghost use Rattle.std.specs.Prelude.{◌≤◌, ◌^◌, pos, ◌≤ℤ◌, unsigned_abs, nat_le, IsTrue};
ghost use Rattle.std.specs.List.{list_all};

use dual_cert::{CertDoc, Verdict, check};
use std::alloc::{AllocError, Global};
use std::test::Fail;

// A certificate of two years with the indicator 100, the benchmarks 1000 and 1400, and the scale 12.
fn document(alloc: Global, x: [i128; 8], u: i128, gap: i128) -> Result<CertDoc, AllocError>
    requires values { IsTrue (list_all (λ value. nat_le (unsigned_abs value) 1000000) x) }
    requires multiplier { unsigned_abs u ≤ 10 ^ 15 }
    requires least { pos 0 ≤ℤ gap }
    requires most { gap ≤ℤ pos (10 ^ 36) }
{
    let name = Vec::from_slice(alloc, b"FOOD")?;
    let ind = Vec::from_slice(alloc, &[100; 8])?;
    let years = Vec::from_slice(alloc, &[0, 1])?;
    let bench = Vec::from_slice(alloc, &[1000, 1400])?;
    let x = Vec::from_slice(alloc, &x)?;
    let u = Vec::from_slice(alloc, &[u])?;
    Ok(CertDoc {
        name,
        front: 10,
        scale: 12,
        start: 2021,
        ind,
        years,
        bench,
        x,
        u,
        gap,
    })
}

#[test]
fn smooth_series_is_certified(rt: HostRuntime) -> Result<(), Fail> {
    let x = [227, 236, 255, 282, 318, 345, 364, 373];
    let doc = document(rt.alloc(), x, 363636363636, 163636363636363636364)?;
    assert_eq!(rt; check(rt.alloc(), &doc)?, Verdict::Yes);
    Ok(())
}

#[test]
fn smaller_gap_is_refused(rt: HostRuntime) -> Result<(), Fail> {
    let x = [227, 236, 255, 282, 318, 345, 364, 373];
    let doc = document(rt.alloc(), x, 363636363636, 163636363636363636363)?;
    let said = 163636363636363636363;
    let found = 163636363636363636364;
    assert_eq!(rt; check(rt.alloc(), &doc)?, Verdict::Gap { said, found });
    Ok(())
}

#[test]
fn missed_year_is_named(rt: HostRuntime) -> Result<(), Fail> {
    let x = [228, 236, 255, 282, 318, 345, 364, 373];
    let doc = document(rt.alloc(), x, 363636363636, 163636363636363636364)?;
    assert_eq!(rt; check(rt.alloc(), &doc)?, Verdict::Sum(2021));
    Ok(())
}

#[test]
fn annual_ratios_have_a_true_and_large_gap(rt: HostRuntime) -> Result<(), Fail> {
    let x = [250, 250, 250, 250, 350, 350, 350, 350];
    let found = 1000000000000000000000000;
    let doc = document(rt.alloc(), x, 0, found)?;
    assert_eq!(rt; check(rt.alloc(), &doc)?, Verdict::Yes);
    let doc = document(rt.alloc(), x, 0, 0)?;
    assert_eq!(rt; check(rt.alloc(), &doc)?, Verdict::Gap { said: 0, found });
    Ok(())
}

// The benchmarks 1000 and 1400 of the first and the third year, with the indicator 100: the ratio goes on in the
// second.
#[test]
fn missing_year_is_spanned(rt: HostRuntime) -> Result<(), Fail> {
    let alloc = rt.alloc();
    let doc = CertDoc {
        name: Vec::from_slice(alloc, b"FOOD")?,
        front: 14,
        scale: 12,
        start: 2021,
        ind: Vec::from_slice(alloc, &[100; 12])?,
        years: Vec::from_slice(alloc, &[0, 2])?,
        bench: Vec::from_slice(alloc, &[1000, 1400])?,
        x: Vec::from_slice(
            alloc,
            &[241, 244, 252, 263, 278, 293, 307, 322, 337, 348, 356, 359],
        )?,
        u: Vec::from_slice(alloc, &[148148148148])?,
        gap: 251851851851851851852,
    };
    assert_eq!(rt; check(alloc, &doc)?, Verdict::Yes);
    Ok(())
}
