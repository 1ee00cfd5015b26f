// An input that comes in pieces of any size.

use super::{Devices, WORKING, assert_left, left_by_batch};
use line_form::{Lines, fields};
use qna_cases::{FOOD_PLAN, lines};
use std::alloc::Global;
use std::test::Fail;

/// Adds a byte so many times.
fn push_times(bytes: &mut Vec<u8>, byte: u8, count: usize) -> Result<(), Fail> {
    'times: for _ in 0..count {
        bytes.push(byte)?;
    }
    Ok(())
}

/// An input of 312 lines and more than 65,536 bytes, with a mark, carriage returns, lines of 256 and of 257 bytes, and
/// no line feed at its end.
fn long_input(alloc: Global) -> Result<Vec<u8>, Fail> {
    let mut bytes = Vec::new(alloc);
    bytes.extend_from_slice(b"\xEF\xBB\xBF# note\r\nind,FOOD,2021Q1,1\r\nind,FOOD,2021Q2,")?;
    push_times(&mut bytes, b'0', 239)?;
    bytes.extend_from_slice(b"1\r\nind,FOOD,2021Q3,")?;
    push_times(&mut bytes, b'0', 240)?;
    bytes.extend_from_slice(b"1\n#")?;
    push_times(&mut bytes, b'a', 255)?;
    bytes.extend_from_slice(b"\n#")?;
    push_times(&mut bytes, b'a', 256)?;
    bytes.extend_from_slice(
        b"\r\nind,\"FOOD\",2021q3,1\nind,FOOD,2021-Q4,1\r\nbench,FOOD,2021,10\nind,FO\rOD,2021Q1,1\n",
    )?;
    'comments: for _ in 0..300_u16 {
        push_times(&mut bytes, b'#', 256)?;
        bytes.extend_from_slice(b"\r\n")?;
    }
    bytes.extend_from_slice(b"bench,FOOD,2022,1\r\nind,FOOD,2022Q1,3\r")?;
    Ok(bytes)
}

#[test]
fn an_input_gives_the_same_in_pieces_of_any_size(rt: HostRuntime) -> Result<(), Fail> {
    let alloc = rt.alloc();
    let input = long_input(alloc)?;
    assert!(rt; input.len() > 65_536);
    for piece in [1, 3, 256, 257, 65_536] {
        let left = left_by_batch(alloc, FOOD_PLAN, &input, &Devices { piece, ..WORKING })?;
        assert_left(
            &rt,
            &left,
            "a long input",
            0,
            Some(
                b"release,7\nv,FOOD,2021Q1,3\nv,FOOD,2021Q2,3\nv,FOOD,2021Q3,2\nv,FOOD,2021Q4,2\nv,FOOD,2022Q1,8\nk,FOOD,2021Q1,missing\nk,FOOD,2021Q2,missing\nk,FOOD,2021Q3,missing\nk,FOOD,2021Q4,missing\nk,FOOD,2022Q1,missing\nc,FOOD,2021Q1,missing\nc,FOOD,2021Q2,missing\nc,FOOD,2021Q3,missing\nc,FOOD,2021Q4,missing\nc,FOOD,2022Q1,missing\na,FOOD,2021,10,missing,100000,0\na,FOOD,2022,missing,missing,missing,missing\ng,FOOD,1,12,1444444444444888888888889\nend,7\n",
            ),
            b"4,no,long\n6,no,long\n10,no,form\n",
        )?;
    }
    Ok(())
}

/// Feeds the pieces, one behind another.
fn fed_lines(alloc: Global, pieces: &[&[u8]]) -> Result<Lines, Fail> {
    let mut lines = Lines::new(alloc)?;
    'pieces: for piece in pieces {
        lines.feed(piece)?;
    }
    Ok(lines)
}

#[test]
fn a_line_is_the_same_in_pieces_and_whole(rt: HostRuntime) -> Result<(), Fail> {
    let alloc = rt.alloc();
    for case in lines() {
        let mut lines = fed_lines(alloc, case.pieces)?;
        let line = lines.next_line().ok_or("no line")?;
        assert!(rt; lines.next_line().is_none());
        assert_eq!(rt; line.text.as_slice(), case.text);
        let record = fields(alloc, &line)?;
        assert_eq!(rt; record.len(), case.fields.len());
        for (place, field) in case.fields.iter().enumerate() {
            assert_eq!(rt; record.get(place), *field);
        }
    }
    Ok(())
}
