// Periods as texts.

use period_keys::{
    PeriodFault, Quarter, Year, calendar_year, read_quarter, read_year, write_quarter, write_year,
};
use std::test::Fail;

#[test]
fn periods_are_read_and_written(rt: HostRuntime) -> Result<(), Fail> {
    let form = PeriodFault::Form;
    let range = PeriodFault::Range;
    let years: [(&[u8], Result<Year, PeriodFault>); 9] = [
        (b"2021", Ok(Year(0))),
        (b"2084", Ok(Year(63))),
        (b"2085", Err(range)),
        (b"2020", Err(range)),
        (b"9999", Err(range)),
        (b"20210", Err(form)),
        (b"202", Err(form)),
        (b"202a", Err(form)),
        (b"", Err(form)),
    ];
    for (text, want) in years {
        assert_eq!(rt; read_year(text, 2021), want, "{text:?}");
    }
    assert_eq!(rt; calendar_year(b"0007"), Some(7));
    assert_eq!(rt; calendar_year(b"9999"), Some(9999));
    assert_eq!(rt; calendar_year(b"21"), None);
    let quarters: [(&[u8], Result<Quarter, PeriodFault>); 12] = [
        (b"2021Q1", Ok(Quarter(0))),
        (b"2021-q4", Ok(Quarter(3))),
        (b"2022q2", Ok(Quarter(5))),
        (b"2084-Q4", Ok(Quarter(255))),
        (b"2085Q1", Err(range)),
        (b"2020Q4", Err(range)),
        (b"2021Q0", Err(form)),
        (b"2021Q5", Err(form)),
        (b"2085Q5", Err(form)),
        (b"2021--Q1", Err(form)),
        (b"2021.Q1", Err(form)),
        (b"2021Q1 ", Err(form)),
    ];
    for (text, want) in quarters {
        assert_eq!(rt; read_quarter(text, 2021), want, "{text:?}");
    }
    let mut out = Vec::new(rt.alloc());
    write_year(Year(63), 2200, &mut out).expect(&rt, "memory");
    write_quarter(Quarter(7), 2021, &mut out).expect(&rt, "memory");
    assert_eq!(rt; out.as_slice(), b"22632022Q4".as_slice());
    Ok(())
}
