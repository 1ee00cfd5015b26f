//! Rows of the command `batch` on hostile lines: quotes that are never closed, numbers past every range, lines at the
//! limit of their length, and bytes that are no text.

use crate::batch_rows::{BatchCase, FOOD_PLAN};

/// The rows of `batch` on hostile lines.
pub fn hostile_batches() -> &'static [BatchCase] {
    &HOSTILE_BATCHES
}

static HOSTILE_BATCHES: [BatchCase; 18] = [
    BatchCase {
        name: "a quote before the first field that is never closed",
        plan: FOOD_PLAN,
        input: b"\"ind,FOOD,2021Q1,5\n",
        release: Some(b"release,0\nend,0\n"),
        report: b"1,no,form\n",
        status: 0,
    },
    BatchCase {
        name: "a quote before the name that is never closed",
        plan: FOOD_PLAN,
        input: b"ind,\"FOOD,2021Q1,5\n",
        release: Some(b"release,0\nend,0\n"),
        report: b"1,no,form\n",
        status: 0,
    },
    BatchCase {
        name: "one quote, two quotes, and three",
        plan: FOOD_PLAN,
        input: b"\"\n\"\"\n\"\"\"\n",
        release: Some(b"release,0\nend,0\n"),
        report: b"1,no,form\n2,no,form\n3,no,form\n",
        status: 0,
    },
    BatchCase {
        name: "a value of 41 digits below 0",
        plan: FOOD_PLAN,
        input: b"bench,FOOD,2021,-99999999999999999999999999999999999999999\n",
        release: Some(b"release,0\nend,0\n"),
        report: b"1,no,range\n",
        status: 0,
    },
    BatchCase {
        name: "a value of 239 digits (a line of 256 bytes)",
        plan: FOOD_PLAN,
        input: b"bench,FOOD,2021,999999999999999999999999999999999999999999999999999999999999999999999999999999999999999999999999999999999999999999999999999999999999999999999999999999999999999999999999999999999999999999999999999999999999999999999999999999999999999999999999\n",
        release: Some(b"release,0\nend,0\n"),
        report: b"1,no,range\n",
        status: 0,
    },
    BatchCase {
        name: "a line of 256 letters, and of 257",
        plan: FOOD_PLAN,
        input: b"aaaaaaaaaaaaaaaaaaaaaaaaaaaaaaaaaaaaaaaaaaaaaaaaaaaaaaaaaaaaaaaaaaaaaaaaaaaaaaaaaaaaaaaaaaaaaaaaaaaaaaaaaaaaaaaaaaaaaaaaaaaaaaaaaaaaaaaaaaaaaaaaaaaaaaaaaaaaaaaaaaaaaaaaaaaaaaaaaaaaaaaaaaaaaaaaaaaaaaaaaaaaaaaaaaaaaaaaaaaaaaaaaaaaaaaaaaaaaaaaaaaaaaaaaaaaaaaa\naaaaaaaaaaaaaaaaaaaaaaaaaaaaaaaaaaaaaaaaaaaaaaaaaaaaaaaaaaaaaaaaaaaaaaaaaaaaaaaaaaaaaaaaaaaaaaaaaaaaaaaaaaaaaaaaaaaaaaaaaaaaaaaaaaaaaaaaaaaaaaaaaaaaaaaaaaaaaaaaaaaaaaaaaaaaaaaaaaaaaaaaaaaaaaaaaaaaaaaaaaaaaaaaaaaaaaaaaaaaaaaaaaaaaaaaaaaaaaaaaaaaaaaaaaaaaaaaa\n",
        release: Some(b"release,0\nend,0\n"),
        report: b"1,no,form\n2,no,long\n",
        status: 0,
    },
    BatchCase {
        name: "256 bytes and a carriage return; 256 bytes and two",
        plan: FOOD_PLAN,
        input: b"################################################################################################################################################################################################################################################################\r\n################################################################################################################################################################################################################################################################\r\r\n",
        release: Some(b"release,0\nend,0\n"),
        report: b"2,no,long\n",
        status: 0,
    },
    BatchCase {
        name: "bytes of 0, alone and in a name and a value",
        plan: FOOD_PLAN,
        input: b"\0\nind,\0,2021Q1,5\nind,FOOD,2021Q1,5\0\nind,FOOD\0,2021Q1,5\n",
        release: Some(b"release,0\nend,0\n"),
        report: b"1,no,form\n2,no,unknown\n3,no,form\n4,no,unknown\n",
        status: 0,
    },
    BatchCase {
        name: "bytes that are no UTF-8",
        plan: FOOD_PLAN,
        input: b"\xFF\nind,\xFF\xFE,2021Q1,5\nind,FOOD,2021Q1,\xFF\ncert,\xFF\nrelease,\xC3\n",
        release: Some(b"release,0\nend,0\n"),
        report: b"1,no,form\n2,no,unknown\n3,no,form\n",
        status: 0,
    },
    BatchCase {
        name: "Arabic digits",
        plan: FOOD_PLAN,
        input: b"ind,FOOD,2021Q1,\xD9\xA1\nind,FOOD,\xD9\xA2021Q1,1\n",
        release: Some(b"release,0\nend,0\n"),
        report: b"1,no,form\n2,no,form\n",
        status: 0,
    },
    BatchCase {
        name: "two marks at the start; a mark in the midst of a line",
        plan: FOOD_PLAN,
        input: b"\xEF\xBB\xBF\xEF\xBB\xBFind,FOOD,2021Q1,5\nind,\xEF\xBB\xBFFOOD,2021Q1,5\n",
        release: Some(
            b"release,1\nv,FOOD,2021Q1,missing\nk,FOOD,2021Q1,missing\nc,FOOD,2021Q1,missing\na,FOOD,2021,missing,missing,missing,missing\nend,1\n",
        ),
        report: b"2,no,unknown\n",
        status: 0,
    },
    BatchCase {
        name: "a line that is a mark alone, behind the first",
        plan: FOOD_PLAN,
        input: b"sync\n\xEF\xBB\xBF\n",
        release: Some(b"release,0\nend,0\n"),
        report: b"2,no,form\n",
        status: 0,
    },
    BatchCase {
        name: "commas alone",
        plan: FOOD_PLAN,
        input: b",\n,,,\n,,,,,,,,,,,,,,,,,,,,,,,,,,,,,,,,,,,,,,,,,,,,,,,,,,,,,,,,,,,,,,,,,,,,,,,,,,,,,,,,,,,,,,,,,,,,,,,,,,,,,,,,,,,,,,,,,,,,,,,,,,,,,,,,,,,,,,,,,,,,,,,,,,,,,,,,,,,,,,,,,,,,,,,,,,,,,,,,,,,,,,,,,,,,,,,,,,,,,,,,,,,,,,,,,,,,,,,,,,,,,,,,,,,,,,,,,,,,,,,,,,,,,,,,,,,,,,,,\n",
        release: Some(b"release,0\nend,0\n"),
        report: b"1,no,form\n2,no,form\n3,no,form\n",
        status: 0,
    },
    BatchCase {
        name: "numbers past 64 and 128 bits",
        plan: FOOD_PLAN,
        input: b"ind,FOOD,2021Q1,18446744073709551617\nind,FOOD,2021Q1,340282366920938463463374607431768211457\nbench,FOOD,2021,-170141183460469231731687303715884105729\nind,FOOD,2021Q1,1,18446744073709551617\n",
        release: Some(b"release,0\nend,0\n"),
        report: b"1,no,range\n2,no,range\n3,no,range\n4,no,form\n",
        status: 0,
    },
    BatchCase {
        name: "years of five digits, and past 16 bits",
        plan: FOOD_PLAN,
        input: b"ind,FOOD,12021Q1,5\nbench,FOOD,65557,5\nbench,FOOD,0000,5\nind,FOOD,9999Q4,5\n",
        release: Some(b"release,0\nend,0\n"),
        report: b"1,no,form\n2,no,form\n3,no,range\n4,no,range\n",
        status: 0,
    },
    BatchCase {
        name: "line ends of carriage returns alone",
        plan: FOOD_PLAN,
        input: b"ind,FOOD,2021Q1,5\rind,FOOD,2021Q2,5\r",
        release: Some(b"release,0\nend,0\n"),
        report: b"1,no,form\n",
        status: 0,
    },
    BatchCase {
        name: "a line that is cut before its value, at the end",
        plan: FOOD_PLAN,
        input: b"ind,FOOD,2021Q1,5\nind,FOOD,2021Q2,",
        release: Some(
            b"release,1\nv,FOOD,2021Q1,missing\nk,FOOD,2021Q1,missing\nc,FOOD,2021Q1,missing\na,FOOD,2021,missing,missing,missing,missing\nend,1\n",
        ),
        report: b"2,no,form\n",
        status: 0,
    },
    BatchCase {
        name: "two marks before a plan",
        plan: b"\xEF\xBB\xBF\xEF\xBB\xBFstart,2021\n",
        input: b"",
        release: Some(b"release,0\nend,0\n"),
        report: b"",
        status: 0,
    },
];
