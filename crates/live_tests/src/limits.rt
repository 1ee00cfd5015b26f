// The longest chain of a plan.

use crate::serving::{Files, QUIET, left_by};
use itoa::Buffer;
use qna_edges::Status;
use std::alloc::Global;
use std::test::Fail;

/// A desk alone, and a desk with two workers.
const WORDS: [&'static [&str]; 2] = [
    &["live", "p", "j", "i", "o", "--workers", "0"],
    &["live", "p", "j", "i", "o"],
];

/// A plan of 512 items, named by numbers, each the child of the one before it, and the value of each in its first
/// quarter.
fn chain(alloc: Global) -> Result<(Vec<u8>, Vec<u8>), Fail> {
    let mut plan = b"start,2021\nitem,0,\n".to_vec(alloc)?;
    let mut quarters = b"v,0,2021Q1,250\n".to_vec(alloc)?;
    let mut parent = Buffer::new();
    let mut item = Buffer::new();
    for number in 1..512_u16 {
        let name = item.format(number).as_bytes();
        plan.extend_from_slice(b"item,")?;
        plan.extend_from_slice(name)?;
        plan.extend_from_slice(b",")?;
        plan.extend_from_slice(parent.format(number - 1).as_bytes())?;
        plan.extend_from_slice(b"\n")?;
        quarters.extend_from_slice(b"v,")?;
        quarters.extend_from_slice(name)?;
        quarters.extend_from_slice(b",2021Q1,250\n")?;
    }
    Ok((plan, quarters))
}

/// The values of a release in its first quarter.
fn first_quarters(alloc: Global, release: &[u8]) -> Result<Vec<u8>, Fail> {
    let mut quarters = Vec::new(alloc);
    for line in release.split_inclusive(|byte| *byte == b'\n') {
        if line.starts_with(b"v,") && line.ends_with(b",2021Q1,250\n") {
            quarters.extend_from_slice(line)?;
        }
    }
    Ok(quarters)
}

/// Two years of the last item.
const YEARS: &'static [u8] =
    b"ind,511,2021Q1,100\nind,511,2021Q2,100\nind,511,2021Q3,100\nind,511,2021Q4,100\nind,511,2022Q1,100\nind,511,2022Q2,100\nind,511,2022Q3,100\nind,511,2022Q4,100\nbench,511,2021,1000\nbench,511,2022,1000\n";

#[test]
fn a_chain_of_512_items_is_compiled_to_its_top(rt: HostRuntime) -> Result<(), Fail> {
    let alloc = rt.alloc();
    let (plan, quarters) = chain(alloc)?;
    let files = Files {
        plan: &plan,
        first: YEARS,
        ..QUIET
    };
    for words in WORDS {
        let left = left_by(&rt, alloc, words, &files)?;
        assert_eq!(&rt; left.status, Status::Done);
        assert!(&rt; left.report.starts_with(b"release,10\n"));
        assert!(&rt; first_quarters(alloc, &left.report)? == quarters);
    }
    Ok(())
}
