// Lines, fields and numbers by examples.

use line_form::{Line, LineFault, Lines, fields, read_number};
use std::alloc::Global;
use std::process::Abort;
use std::test::Fail;

/// The greatest bound of a number.
const MOST: i128 = 10_000_000_000_000_000_000_000_000_000_000_000_000;

/// Feeds a stream: a slash parts two pieces, and a piece `X` stands for 128 bytes.
fn fed_lines(alloc: Global, stream: &[u8]) -> Result<Lines, Fail> {
    let mut lines = Lines::new(alloc)?;
    let mut rest = stream;
    'pieces: for _ in 0..20_u8 {
        let end = rest.iter().position(|b| *b == b'/').unwrap_or(rest.len());
        let piece = &rest[..end];
        if piece == b"X".as_slice() {
            lines.feed(&[b'x'; 128])?;
        } else {
            lines.feed(piece)?;
        }
        rest = &rest[rest.len().min(end + 1)..];
    }
    lines.finish()?;
    Ok(lines)
}

/// The lines that wait, as text: a number, a colon or an `L` for a long line, eight bytes of the line at most, and a
/// bar.
fn shown_lines(alloc: Global, mut lines: Lines) -> Result<Vec<u8>, Fail> {
    let mut shown = Vec::new(alloc);
    'shown: for _ in 0..9_u8 {
        let Some(line) = lines.next_line() else {
            break;
        };
        shown.push(b'0' + (line.number % 10) as u8)?;
        shown.push(if line.long { b'L' } else { b':' })?;
        shown.extend_from_slice(&line.text[..line.text.len().min(8)])?;
        shown.push(b'|')?;
    }
    Ok(shown)
}

fn check_lines(rt: &impl Abort, alloc: Global) -> Result<(), Fail> {
    let rows: [(&[u8], &[u8]); 11] = [
        (b"a\nb", b"1:a|2:b|"),
        (b"a\r\nb\r", b"1:a|2:b|"),
        (b"\n\n", b"1:|2:|"),
        (b"\xEF\xBB\xBFa\n\xEF\xBB\xBFb", b"1:a|2:\xEF\xBB\xBFb|"),
        (b"\xEF/\xBB/\xBFa\r/\n/b", b"1:a|2:b|"),
        (b"\xEF\xBB\xBF", b""),
        (b"\r", b"1:|"),
        (b"a\rb\r\r\n\0", b"1:a\rb\r|2:\0|"),
        (b"", b""),
        (b"X/X/\r\n/X/X/y\nz", b"1:xxxxxxxx|2L|3:z|"),
        (b"\xEF\xBB\xBF/X/X/\r", b"1:xxxxxxxx|"),
    ];
    for (stream, want) in rows {
        let shown = shown_lines(alloc, fed_lines(alloc, stream)?)?;
        assert_eq!(rt; shown.as_slice(), want);
    }
    Ok(())
}

/// The fields of a line, each with a bar behind it, or a word for the fault.
fn shown_fields(alloc: Global, line: &Line) -> Result<Vec<u8>, Fail> {
    let mut shown = Vec::new(alloc);
    match fields(alloc, line) {
        Ok(record) => {
            'fields: for i in 0..record.len() {
                shown.extend_from_slice(record.get(i))?;
                shown.push(b'|')?;
            }
        }
        Err(LineFault::Form) => shown.extend_from_slice(b"form")?,
        Err(LineFault::Long) => shown.extend_from_slice(b"long")?,
        Err(LineFault::Memory) => shown.extend_from_slice(b"memory")?,
    }
    Ok(shown)
}

fn check_fields(rt: &impl Abort, alloc: Global) -> Result<(), Fail> {
    let rows: [(bool, &[u8], &[u8]); 16] = [
        (false, b"ind,FOOD,2021Q1,100", b"ind|FOOD|2021Q1|100|"),
        (false, b"a,,b,", b"a||b||"),
        (false, b" a , b", b" a | b|"),
        (false, b"a,b,c,d,e,f,g,h,i,j,", b"a|b|c|d|e|f|g|h|i|j||"),
        (false, b"\"a,b\",c", b"a,b|c|"),
        (false, b"\"a\"\"b\",c", b"a\"b|c|"),
        (false, b"\"a\"b,c", b"ab|c|"),
        (false, b"a\"b,c", b"a\"b|c|"),
        (false, b"ind,FOOD,2021Q1,\"5", b"ind|FOOD|2021Q1|5|"),
        (false, b"\"\"", b"|"),
        (false, b"\xEF\xBB\xBFa,b", b"a|b|"),
        (false, b"\xEF\xBB,\xFF\0", b"\xEF\xBB|\xFF\0|"),
        (false, b"", b"form"),
        (false, b"a\rb", b"form"),
        (false, b"\xEF\xBB\xBF", b"form"),
        (true, b"a\rb", b"long"),
    ];
    for (long, text, want) in rows {
        let mut kept = Vec::new(alloc);
        kept.extend_from_slice(text)?;
        let line = Line {
            number: 1,
            long,
            text: kept,
        };
        let shown = shown_fields(alloc, &line)?;
        assert_eq!(rt; shown.as_slice(), want);
    }
    Ok(())
}

fn check_numbers(rt: &impl Abort) {
    let rows: [(&[u8], i128, Option<i128>); 15] = [
        (b"007", 100, Some(7)),
        (b"-0", 100, Some(0)),
        (b"-5", 100, Some(-5)),
        (b"100", 100, Some(100)),
        (b"101", 100, Some(100)),
        (b"-101", 100, Some(-100)),
        (b"5", 0, Some(0)),
        (
            b"999999999999999999999999999999999999999999",
            MOST,
            Some(MOST),
        ),
        (
            b"-999999999999999999999999999999999999999999",
            MOST,
            Some(-MOST),
        ),
        (b"", 100, None),
        (b"-", 100, None),
        (b"+1", 100, None),
        (b"1.0", 100, None),
        (b" 1", 100, None),
        (b"--1", 100, None),
    ];
    for (field, bound, want) in rows {
        assert!(rt; bound >= 0 && bound <= MOST);
        assert_eq!(rt; read_number(field, bound), want);
    }
}

#[test]
fn lines_fields_and_numbers(rt: HostRuntime) -> Result<(), Fail> {
    check_lines(&rt, rt.alloc())?;
    check_fields(&rt, rt.alloc())?;
    check_numbers(&rt);
    Ok(())
}
