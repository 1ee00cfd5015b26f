// Certificates by examples: one that is read, and changed ones.

use cert_read::{CertFault, read_cert};
use std::alloc::Global;
use std::process::Abort;
use std::test::Fail;

/// The lines of the certificate of two years with the indicator 100 and the benchmarks 1000 and 1400.
const LINES: [&[u8]; 24] = [
    b"cert,FOOD,10",
    b"scale,12",
    b"start,2021",
    b"i,2021Q1,100",
    b"i,2021Q2,100",
    b"i,2021Q3,100",
    b"i,2021Q4,100",
    b"i,2022Q1,100",
    b"i,2022Q2,100",
    b"i,2022Q3,100",
    b"i,2022Q4,100",
    b"b,2021,1000",
    b"b,2022,1400",
    b"x,2021Q1,227",
    b"x,2021Q2,236",
    b"x,2021Q3,255",
    b"x,2021Q4,282",
    b"x,2022Q1,318",
    b"x,2022Q2,345",
    b"x,2022Q3,364",
    b"x,2022Q4,373",
    b"u,2021,363636363636",
    b"gap,163636363636363636364",
    b"end",
];

/// So many of the lines, with another text in place of the line of a number.
fn text_with(alloc: Global, count: usize, number: usize, other: &[u8]) -> Result<Vec<u8>, Fail> {
    let mut text = Vec::new(alloc);
    for (i, line) in LINES.iter().enumerate() {
        if i < count {
            text.extend_from_slice(if i + 1 == number { other } else { line })?;
            text.push(b'\n')?;
        }
    }
    Ok(text)
}

/// The fault of a text; none where it is read.
fn fault_of(alloc: Global, text: &[u8]) -> Option<CertFault> {
    match read_cert(alloc, text) {
        Ok(_) => None,
        Err(fault) => Some(fault),
    }
}

fn check_document(rt: &impl Abort, alloc: Global) -> Result<(), Fail> {
    let mut text = text_with(alloc, 24, 0, b"")?;
    text.pop();
    match read_cert(alloc, &text) {
        Ok(doc) => {
            assert_eq!(rt; doc.name.as_slice(), b"FOOD".as_slice());
            assert_eq!(rt; (doc.front, doc.scale, doc.start), (10, 12, 2021));
            assert_eq!(rt; doc.ind.as_slice(), [100u32; 8].as_slice());
            assert_eq!(rt; doc.years.as_slice(), [0u8, 1].as_slice());
            assert_eq!(rt; doc.bench.as_slice(), [1000i64, 1400].as_slice());
            let x = [227i128, 236, 255, 282, 318, 345, 364, 373];
            assert_eq!(rt; doc.x.as_slice(), x.as_slice());
            assert_eq!(rt; doc.u.as_slice(), [363_636_363_636i128].as_slice());
            assert_eq!(rt; doc.gap, 163_636_363_636_363_636_364);
        }
        Err(fault) => assert_eq!(rt; Some(fault), None),
    }
    Ok(())
}

fn check_cuts(rt: &impl Abort, alloc: Global) -> Result<(), Fail> {
    for count in 0..24u8 {
        let text = text_with(alloc, count as usize, 0, b"")?;
        let want = Some(CertFault::Shape(count as u64 + 1));
        assert_eq!(rt; fault_of(alloc, &text), want, "{count} lines");
    }
    Ok(())
}

fn check_changes(rt: &impl Abort, alloc: Global) -> Result<(), Fail> {
    let shape = |line: u64| Some(CertFault::Shape(line));
    let range = |line: u64| Some(CertFault::Range(line));
    let long = [b'#'; 257];
    let rows: [(usize, usize, &[u8], Option<CertFault>); 39] = [
        (24, 1, b"cert,FOOD,262144", None),
        (24, 1, b"cert,FOOD,262145", range(1)),
        (24, 1, b"cert,FOOD,-1", range(1)),
        (24, 1, b"cert,FO OD,10", shape(1)),
        (24, 1, b"#\n\ncert,FOOD,262145", range(3)),
        (24, 2, b"scale,15", None),
        (24, 2, b"scale,16", range(2)),
        (23, 2, b"scale,16", shape(24)),
        (24, 3, b"start,21", shape(3)),
        (24, 3, b"start,2022", shape(4)),
        (24, 4, b"i,2021Q1,1", None),
        (24, 4, b"i,2021-q1,0100", None),
        (24, 4, b"i,2021Q1,0", range(4)),
        (24, 4, b"i,2021Q1,1000000000", None),
        (24, 4, b"i,2021Q1,1000000001", range(4)),
        (24, 5, b"i,2021Q3,100", shape(5)),
        (24, 12, b"b,2021,1000000000000", None),
        (24, 12, b"b,2021,-1000000000001", range(12)),
        (24, 12, b"b,2022,1000", shape(13)),
        (24, 12, b"b,2020,1000", shape(12)),
        (24, 13, b"b,2022,1400\nb,2023,1", shape(14)),
        (24, 14, b"x,2021Q1,1000000", None),
        (24, 14, b"x,2021Q1,1000001", range(14)),
        (24, 14, b"x,2021Q1,-1000001", range(14)),
        (24, 14, b"b,2023,1", shape(14)),
        (24, 22, b"u,2021,-1000000000000000", None),
        (24, 22, b"u,2021,1000000000000001", range(22)),
        (24, 22, b"u,2022,1", shape(22)),
        (24, 22, b"u,2021,1\nu,2022,1", shape(23)),
        (24, 22, b"gap,0", shape(22)),
        (24, 23, b"gap,1000000000000000000000000000000000000", None),
        (
            24,
            23,
            b"gap,1000000000000000000000000000000000001",
            range(23),
        ),
        (24, 23, b"gap,-1", range(23)),
        (24, 23, b"gap,x", shape(23)),
        (24, 24, b"end\n#\n\n", None),
        (24, 24, b"end\nend", shape(25)),
        (24, 24, b"end,", shape(24)),
        (24, 24, &long[..256], shape(25)),
        (24, 24, &long, shape(24)),
    ];
    for (count, number, other, want) in rows {
        let text = text_with(alloc, count, number, other)?;
        assert_eq!(rt; fault_of(alloc, &text), want, "{other:?}");
    }
    Ok(())
}

/// A certificate of so many quarters of indicators, and one benchmark.
fn text_of(alloc: Global, quarters: u16) -> Result<Vec<u8>, Fail> {
    let mut text = Vec::new(alloc);
    text.extend_from_slice(b"cert,FOOD,10\nscale,12\nstart,2021\n")?;
    for t in 0..quarters {
        let line = format!(in alloc; "i,{}Q{},100\n", 2021 + t / 4, t % 4 + 1)?;
        text.extend_from_slice(line.as_bytes())?;
    }
    text.extend_from_slice(b"b,2021,1000\n")?;
    for t in 0..quarters {
        let line = format!(in alloc; "x,{}Q{},250\n", 2021 + t / 4, t % 4 + 1)?;
        text.extend_from_slice(line.as_bytes())?;
    }
    text.extend_from_slice(b"gap,0\nend\n")?;
    Ok(text)
}

/// The lines of a certificate of three years, of which the second misses its benchmark.
const SPANNING: [&[u8]; 32] = [
    b"cert,FOOD,14",
    b"scale,12",
    b"start,2021",
    b"i,2021Q1,100",
    b"i,2021Q2,100",
    b"i,2021Q3,100",
    b"i,2021Q4,100",
    b"i,2022Q1,100",
    b"i,2022Q2,100",
    b"i,2022Q3,100",
    b"i,2022Q4,100",
    b"i,2023Q1,100",
    b"i,2023Q2,100",
    b"i,2023Q3,100",
    b"i,2023Q4,100",
    b"b,2021,1000",
    b"b,2023,1400",
    b"x,2021Q1,241",
    b"x,2021Q2,244",
    b"x,2021Q3,252",
    b"x,2021Q4,263",
    b"x,2022Q1,278",
    b"x,2022Q2,293",
    b"x,2022Q3,307",
    b"x,2022Q4,322",
    b"x,2023Q1,337",
    b"x,2023Q2,348",
    b"x,2023Q3,356",
    b"x,2023Q4,359",
    b"u,2021,148148148148",
    b"gap,251851851851851851852",
    b"end",
];

/// These lines, with another text in place of the line of a number.
fn spanning_with(alloc: Global, number: usize, other: &[u8]) -> Result<Vec<u8>, Fail> {
    let mut text = Vec::new(alloc);
    for (i, line) in SPANNING.iter().enumerate() {
        text.extend_from_slice(if i + 1 == number { other } else { line })?;
        text.push(b'\n')?;
    }
    Ok(text)
}

fn check_spanning(rt: &impl Abort, alloc: Global) -> Result<(), Fail> {
    match read_cert(alloc, &spanning_with(alloc, 0, b"")?) {
        Ok(doc) => {
            assert_eq!(rt; doc.years.as_slice(), [0u8, 2].as_slice());
            assert_eq!(rt; doc.bench.as_slice(), [1000i64, 1400].as_slice());
            assert_eq!(rt; doc.u.as_slice(), [148_148_148_148i128].as_slice());
        }
        Err(fault) => assert_eq!(rt; Some(fault), None),
    }
    let rows: [(usize, &[u8], Option<CertFault>); 5] = [
        (16, b"b,2022,1000", Some(CertFault::Shape(30))),
        (16, b"b,2020,1000", Some(CertFault::Shape(16))),
        (17, b"b,2021,1400", Some(CertFault::Shape(17))),
        (17, b"b,2024,1400", Some(CertFault::Shape(17))),
        (30, b"u,2022,148148148148", Some(CertFault::Shape(30))),
    ];
    for (number, other, want) in rows {
        let text = spanning_with(alloc, number, other)?;
        assert_eq!(rt; fault_of(alloc, &text), want, "{other:?}");
    }
    Ok(())
}

#[test]
fn certificates_are_read_and_faults_named(rt: HostRuntime) -> Result<(), Fail> {
    let alloc = rt.alloc();
    check_document(&rt, alloc)?;
    check_cuts(&rt, alloc)?;
    check_changes(&rt, alloc)?;
    check_spanning(&rt, alloc)?;
    assert_eq!(rt; fault_of(alloc, &text_of(alloc, 256)?), None);
    let late = Some(CertFault::Range(260));
    assert_eq!(rt; fault_of(alloc, &text_of(alloc, 257)?), late);
    Ok(())
}
