// Hostile lines, and as many as a journal takes and one more.

use crate::serving::{Files, QUIET, holds, left_by};
use qna_edges::Status;
use std::test::Fail;

/// One desk.
const ONE: &'static [&str] = &["live", "p", "j", "i", "o", "--workers", "0"];

/// Quotes that are never closed, numbers past every range, the longest line and a longer one, bytes that are no text,
/// and one line that is accepted.
const HOSTILE: &'static [u8] =
    b"\"ind,FOOD,2021Q1,5\nbench,FOOD,2021,-99999999999999999999999999999999999999999\naaaaaaaaaaaaaaaaaaaaaaaaaaaaaaaaaaaaaaaaaaaaaaaaaaaaaaaaaaaaaaaaaaaaaaaaaaaaaaaaaaaaaaaaaaaaaaaaaaaaaaaaaaaaaaaaaaaaaaaaaaaaaaaaaaaaaaaaaaaaaaaaaaaaaaaaaaaaaaaaaaaaaaaaaaaaaaaaaaaaaaaaaaaaaaaaaaaaaaaaaaaaaaaaaaaaaaaaaaaaaaaaaaaaaaaaaaaaaaaaaaaaaaaaaaaaaaaa\naaaaaaaaaaaaaaaaaaaaaaaaaaaaaaaaaaaaaaaaaaaaaaaaaaaaaaaaaaaaaaaaaaaaaaaaaaaaaaaaaaaaaaaaaaaaaaaaaaaaaaaaaaaaaaaaaaaaaaaaaaaaaaaaaaaaaaaaaaaaaaaaaaaaaaaaaaaaaaaaaaaaaaaaaaaaaaaaaaaaaaaaaaaaaaaaaaaaaaaaaaaaaaaaaaaaaaaaaaaaaaaaaaaaaaaaaaaaaaaaaaaaaaaaaaaaaaaaa\n\xFF\nind,FO\0OD,2021Q1,5\nrelease,\xFF\ncert,\"FOOD\nrelease,\"\nsync,\n\"sync\"\nind,FOOD,2021Q1,5\r\n";

const ANSWERS: &'static [u8] =
    b"no,form\nno,range\nno,form\nno,long\nno,form\nno,unknown\nno,unknown\nnocert,FOOD,0\nno,unknown\nno,form\nsynced,0\nok,1\n";

#[test]
fn hostile_lines_get_their_answers(rt: HostRuntime) -> Result<(), Fail> {
    let files = Files {
        first: HOSTILE,
        ..QUIET
    };
    let left = left_by(&rt, rt.alloc(), ONE, &files)?;
    assert_eq!(&rt; left.status, Status::Done);
    assert!(&rt; holds(&left.first, Some(ANSWERS)));
    assert!(&rt; holds(&left.journal, Some(b"ind,FOOD,2021Q1,5,1\n")));
    assert!(rt;
        left.report
            .starts_with(b"release,1\nv,FOOD,2021Q1,missing\n")
    );
    Ok(())
}

/// Whether a file stands there and ends so.
fn ends_with(file: &Option<Vec<u8>>, end: &[u8]) -> bool {
    match file {
        Some(held) => held.ends_with(end),
        None => false,
    }
}

/// How many bytes a file has.
fn length_of(file: &Option<Vec<u8>>) -> usize {
    match file {
        Some(held) => held.len(),
        None => 0,
    }
}

#[test]
fn a_journal_takes_262144_inputs_and_no_more(rt: HostRuntime) -> Result<(), Fail> {
    let alloc = rt.alloc();
    let mut text = Vec::new(alloc);
    for _ in 0..262_145u32 {
        text.extend_from_slice(b"ind,FOOD,2021Q1,1\n")?;
    }
    let files = Files {
        first: &text,
        ..QUIET
    };
    let left = left_by(&rt, alloc, ONE, &files)?;
    assert_eq!(&rt; left.status, Status::Done);
    assert!(&rt; ends_with(&left.first, b"ok,262143\nok,262144\nno,full\n"));
    assert_eq!(&rt;
        length_of(&left.journal),
        262_144 * b"ind,FOOD,2021Q1,1,1\n".len()
    );
    assert!(rt; left.report.starts_with(b"release,262144\n"));
    Ok(())
}
