// Limits of the formats.

use super::{Devices, WORKING, assert_left, left_by_batch};
use itoa::Buffer;
use std::alloc::Global;
use std::test::Fail;

/// So many copies of a text behind another.
fn repeated(alloc: Global, first: &[u8], text: &[u8], count: u32) -> Result<Vec<u8>, Fail> {
    let mut bytes = first.to_vec(alloc)?;
    'copies: for _ in 0..count {
        bytes.extend_from_slice(text)?;
    }
    Ok(bytes)
}

/// A plan of so many items, named by numbers.
fn plan_of_items(alloc: Global, count: u32) -> Result<Vec<u8>, Fail> {
    let mut bytes = b"start,2021\n".to_vec(alloc)?;
    let mut buffer = Buffer::new();
    'items: for number in 0..count {
        bytes.extend_from_slice(b"item,")?;
        bytes.extend_from_slice(buffer.format(number).as_bytes())?;
        bytes.extend_from_slice(b",\n")?;
    }
    Ok(bytes)
}

#[test]
fn a_plan_of_more_than_its_limit_is_too_much(rt: HostRuntime) -> Result<(), Fail> {
    let alloc = rt.alloc();
    let release: &[u8] = b"release,0\nend,0\n";
    let most = repeated(
        alloc,
        b"start,2021\n######\n#####\n#######\n",
        b"# notes\n# notes\n",
        65_534,
    )?;
    assert_eq!(rt; most.len(), 1_048_576);
    let left = left_by_batch(alloc, &most, b"", &WORKING)?;
    assert_left(&rt, &left, "the longest plan", 0, Some(release), b"")?;
    let more = repeated(alloc, &most, b"\n", 1)?;
    let left = left_by_batch(alloc, &more, b"", &WORKING)?;
    assert_left(&rt, &left, "a byte more", 8, None, b"toomuch,p\n")?;
    let refused = repeated(alloc, b"", b"#", 1_048_577)?;
    let left = left_by_batch(alloc, &refused, b"", &WORKING)?;
    assert_left(&rt, &left, "one long line", 8, None, b"toomuch,p\n")
}

#[test]
fn a_plan_has_512_items_at_most(rt: HostRuntime) -> Result<(), Fail> {
    let alloc = rt.alloc();
    let input = b"ind,511,2021Q1,1\nind,512,2021Q1,1\n";
    let release: &[u8] =
        b"release,1\nv,511,2021Q1,missing\nk,511,2021Q1,missing\nc,511,2021Q1,missing\na,511,2021,missing,missing,missing,missing\nend,1\n";
    let left = left_by_batch(alloc, &plan_of_items(alloc, 512)?, input, &WORKING)?;
    assert_left(&rt, &left, "512 items", 0, Some(release), b"2,no,unknown\n")?;
    let left = left_by_batch(alloc, &plan_of_items(alloc, 513)?, input, &WORKING)?;
    assert_left(&rt, &left, "513 items", 3, None, b"plan,514,toomany\n")
}

#[test]
fn input_past_the_last_that_is_accepted_is_refused(rt: HostRuntime) -> Result<(), Fail> {
    let alloc = rt.alloc();
    let plan = b"start,2021\nitem,A,\n";
    let release: &[u8] =
        b"release,262144\nv,A,2021Q1,missing\nk,A,2021Q1,missing\nc,A,2021Q1,missing\na,A,2021,missing,missing,missing,missing\nend,262144\n";
    let full = repeated(alloc, b"", b"ind,A,2021Q1,1\n", 262_145)?;
    let input = repeated(
        alloc,
        &full,
        b"bench,A,2022,1\nind,A,2021Q1,0\nind,A,2021Q2,1\n",
        1,
    )?;
    let devices = Devices {
        piece: 65_536,
        ..WORKING
    };
    let left = left_by_batch(alloc, plan, &input, &devices)?;
    assert_left(
        &rt,
        &left,
        "a full input",
        0,
        Some(release),
        b"262145,no,full\n262146,no,full\n262147,no,zero\n262148,no,full\n",
    )
}
