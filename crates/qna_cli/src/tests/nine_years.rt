// An office's input of nine years: twelve items with prices in three groups, sent by two desks, with raises that come
// late.

ghost use Rattle.std.specs.Prelude.{◌<◌, length};

use super::{WORKING, left_by_batch};
use crate::noting::Noting;
use crate::{run, run_check};
use itoa::Buffer;
use qna_edges::{MemCabinet, MemSink, MemSource, OpenGate, Status};
use std::alloc::Global;
use std::test::Fail;

/// The items that the first desk sends.
const FIRST_DESK: [u16; 6] = [1, 3, 5, 7, 9, 11];

/// The items that the second desk sends.
const SECOND_DESK: [u16; 6] = [2, 4, 6, 8, 10, 12];

/// The quarters of a year.
const QUARTERS: [&[u8]; 4] = [b"Q1", b"Q2", b"Q3", b"Q4"];

/// Three groups of four items each, under one total.
const PLAN: &[u8] =
    b"start,2015\nreference,2019\nitem,TOTAL,\nitem,G1,TOTAL\nitem,G2,TOTAL\nitem,G3,TOTAL\nitem,L1,G1\nitem,L2,G1\nitem,L3,G1\nitem,L4,G1\nitem,L5,G2\nitem,L6,G2\nitem,L7,G2\nitem,L8,G2\nitem,L9,G3\nitem,L10,G3\nitem,L11,G3\nitem,L12,G3\n";

/// The years of the total.
const TOTAL_YEARS: &[u8] =
    b"a,TOTAL,2015,12804000,12804001,138150379247,7\na,TOTAL,2016,13015680,12763707,137715632822,5\na,TOTAL,2017,13227360,12976165,137297534557,3\na,TOTAL,2018,13439040,13188579,136894994996,1\na,TOTAL,2019,13650720,13400970,136507200000,0\na,TOTAL,2020,13862400,13613329,136133290000,1\na,TOTAL,2021,14074080,13825672,135772609059,2\na,TOTAL,2022,14285760,14037998,135424526109,3\na,TOTAL,2023,14497440,14250291,135088291109,4\n";

/// The years of the last item, its gap, and the end.
const LAST_LINES: &[u8] =
    b"a,L12,2015,1124200,1124200,12129220643,7\na,L12,2016,1141840,1119747,12081176327,5\na,L12,2017,1159480,1137473,12034971520,3\na,L12,2018,1177120,1155193,11990474053,1\na,L12,2019,1194760,1172911,11947600000,0\na,L12,2020,1212400,1190628,11906280000,1\na,L12,2021,1230040,1208341,11866418906,2\na,L12,2022,1247680,1226050,11827926653,3\na,L12,2023,1265320,1243760,11790765304,4\ng,L12,9,11,721974709168175\nend,996\n";

/// The indicator of an item in a quarter, counted from 0.
fn indicator(item: u16, quarter: u64) -> u64
    requires { quarter < 36 }
    ensures { result < 10000000 }
{
    9_540 + 40 * quarter + 100 * u64::from(item)
}

/// The price of an item in a quarter, counted from 0: an index in hundredths.
fn price(item: u16, quarter: u64) -> u64
    requires { quarter < 36 }
{
    10_050 + 50 * quarter + u64::from(item)
}

/// The benchmark of an item in a year, counted from 0: 26 times the sum of its four indicators, and 1,000 more each
/// year.
fn benchmark(item: u16, year: u64) -> u64
    requires { year < 9 }
{
    let sum = 38_400 + 640 * year + 400 * u64::from(item);
    26 * sum + 1_000 * (year + 1)
}

/// Adds a number's digits.
fn push_number(bytes: &mut Vec<u8>, number: u64) -> Result<(), Fail> {
    let mut buffer = Buffer::new();
    bytes.extend_from_slice(buffer.format(number).as_bytes())?;
    Ok(())
}

/// Adds the line of an item's value in a year, counted from 0, or in a quarter of it.
fn push_line(
    bytes: &mut Vec<u8>,
    kind: &[u8],
    item: u16,
    year: u64,
    quarter: &[u8],
    value: u64,
) -> Result<(), Fail>
    requires { year < 9 }
{
    bytes.extend_from_slice(kind)?;
    bytes.extend_from_slice(b",L")?;
    push_number(bytes, u64::from(item))?;
    bytes.push(b',')?;
    push_number(bytes, 2_015 + year)?;
    bytes.extend_from_slice(quarter)?;
    bytes.push(b',')?;
    push_number(bytes, value)?;
    bytes.push(b'\n')?;
    Ok(())
}

/// Adds the lines of an item's year: four indicators, four prices and a benchmark.
fn push_year(bytes: &mut Vec<u8>, item: u16, year: u64) -> Result<(), Fail>
    requires { year < 9 }
{
    'quarters: for place in 0..4_u8 {
        let quarter = 4 * year + u64::from(place);
        let name = QUARTERS[place as usize];
        push_line(bytes, b"ind", item, year, name, indicator(item, quarter))?;
        push_line(bytes, b"price", item, year, name, price(item, quarter))?;
    }
    push_line(bytes, b"bench", item, year, b"", benchmark(item, year))
}

/// Adds the lines of an item's nine years.
fn push_item(bytes: &mut Vec<u8>, item: u16) -> Result<(), Fail> {
    'years: for year in 0..9 {
        push_year(bytes, item, year)?;
    }
    Ok(())
}

/// Adds the lines that raise the last four indicators of an item by 15.
fn push_raises(bytes: &mut Vec<u8>, item: u16) -> Result<(), Fail> {
    'quarters: for place in 0..4_u8 {
        let raised = indicator(item, 32 + u64::from(place)) + 15;
        push_line(bytes, b"ind", item, 8, QUARTERS[place as usize], raised)?;
    }
    Ok(())
}

/// The lines of the first desk: its items, and then its raises.
fn push_first_desk(bytes: &mut Vec<u8>) -> Result<(), Fail> {
    'items: for item in FIRST_DESK {
        push_item(bytes, item)?;
    }
    'raises: for item in FIRST_DESK {
        push_raises(bytes, item)?;
    }
    bytes.extend_from_slice(b"sync\nrelease\n")?;
    Ok(())
}

/// The lines of the second desk.
fn push_second_desk(bytes: &mut Vec<u8>) -> Result<(), Fail> {
    'items: for item in SECOND_DESK {
        push_item(bytes, item)?;
    }
    bytes.extend_from_slice(b"release\ncert,L2\n")?;
    Ok(())
}

/// Whether the cell of some line is a mark: a word behind a comma.
fn has_mark(release: &[u8]) -> bool {
    release
        .windows(2)
        .any(|pair| matches!(pair, [b',', b'a'..=b'z']))
}

/// Whether a text stands somewhere in a release.
fn contains(release: &[u8], text: &[u8]) -> bool
    requires { 0 < length text.now }
{
    release.windows(text.len()).any(|window| window == text)
}

#[test]
fn an_office_gets_a_release_without_marks(rt: HostRuntime) -> Result<(), Fail> {
    let alloc = rt.alloc();
    let mut input = Vec::new(alloc);
    push_first_desk(&mut input)?;
    push_second_desk(&mut input)?;
    let left = left_by_batch(alloc, PLAN, &input, &WORKING)?;
    let release = left.output.ok_or("no release")?;
    assert_eq!(rt; left.status.number(), 0);
    assert!(rt; left.report.is_empty());
    assert!(rt; release.starts_with(b"release,996\n"));
    assert!(rt; release.ends_with(LAST_LINES));
    assert!(rt; contains(&release, TOTAL_YEARS));
    assert!(rt; !has_mark(&release));
    Ok(())
}

/// Puts a file of these bytes into a cabinet.
fn put(alloc: Global, cabinet: &mut MemCabinet, name: &str, text: &[u8]) -> Result<(), Fail> {
    let source = MemSource::new(text.to_vec(alloc)?, 4_096, Vec::new(alloc));
    cabinet.put_file(name, source)?;
    Ok(())
}

/// The words of a run with one desk, which asks for certificates.
const ASK: [&str; 7] = ["live", "p", "k", "a", "b", "--workers", "0"];

/// The last line of a certificate.
const END: &[u8] = b"end\n";

/// How many certificates stand in a text one behind the other, whose verdict is yes each.
fn checked(alloc: Global, text: &[u8]) -> Result<u64, Fail> {
    let mut count = 0_u64;
    let mut rest = text;
    'certificates: for _ in 0..16_u8 {
        let Some(place) = rest.windows(END.len()).position(|window| window == END) else {
            break;
        };
        let (certificate, others) = rest.split_at(place + END.len());
        let mut cabinet = MemCabinet::new(alloc);
        put(alloc, &mut cabinet, "c", certificate)?;
        let mut verdict = MemSink::new(alloc, 4_096, Vec::new(alloc));
        if run_check(alloc, &["check", "c"], &mut cabinet, &mut verdict) == Status::Done {
            count = count.saturating_add(1);
        }
        rest = others;
    }
    Ok(count)
}

/// The lines of a desk that sends a journal again, waits, and asks for the certificate of each leaf.
fn asking(alloc: Global, journal: &[u8]) -> Result<Vec<u8>, Fail> {
    let mut lines = journal.to_vec(alloc)?;
    lines.extend_from_slice(b"sync\n")?;
    'items: for item in 1..13_u64 {
        lines.extend_from_slice(b"cert,L")?;
        push_number(&mut lines, item)?;
        lines.push(b'\n')?;
    }
    Ok(lines)
}

/// How many jobs can be noted: three for each input.
const NOTES: usize = 2_988;

/// The number of the leaf that a line of a journal names.
fn leaf_named(line: &[u8]) -> u64 {
    let mut number = 0_u64;
    let mut is_named = false;
    for byte in line {
        if is_named && !byte.is_ascii_digit() {
            return number;
        }
        if is_named {
            number = number
                .saturating_mul(10)
                .saturating_add(u64::from(byte.saturating_sub(b'0')));
        }
        is_named = is_named || *byte == b'L';
    }
    number
}

/// The leaves that a journal names, line by line.
fn leaves_named(alloc: Global, journal: &[u8]) -> Result<Vec<u64>, Fail> {
    let mut leaves = Vec::new(alloc);
    for line in journal.split(|byte| *byte == b'\n') {
        if !line.is_empty() {
            leaves.push(leaf_named(line))?;
        }
    }
    Ok(leaves)
}

/// Whether inputs for these leaves touch an item: it is one of them, the group of one, or the total.
fn is_touched(leaves: &[u64], item: u64) -> bool {
    leaves.iter().any(|leaf| {
        item == 0 || item == leaf.saturating_add(3) || item == 1 + leaf.saturating_sub(1) / 4
    })
}

/// Whether the jobs that were noted at a front are those of the items that these leaves touch, once each; in the last
/// round, which may be ended without the gate, they are among these.
fn are_jobs_of(gate: &Noting, front: u64, leaves: &[u64], is_last: bool) -> bool {
    for item in 0..16_u64 {
        let times = gate.times(front, item);
        let wanted = usize::from(is_touched(leaves, item));
        if times > wanted || (times < wanted && !is_last) {
            return false;
        }
    }
    true
}

/// Whether each round that was noted has the jobs of the items that its inputs touch and no others.
fn rounds_have_their_jobs(gate: &Noting, leaves: &[u64]) -> bool {
    let mut before = 0_usize;
    let last = (1..=leaves.len())
        .rev()
        .find(|front| gate.has_front(*front as u64));
    for front in 1..=leaves.len() {
        if gate.has_front(front as u64) {
            let Some(sent) = leaves.get(before..front) else {
                return false;
            };
            if !are_jobs_of(gate, front as u64, sent, last == Some(front)) {
                return false;
            }
            before = front;
        }
    }
    true
}

/// The words of a run with two desks and three workers.
const LIVE: [&str; 9] = ["live", "p", "j", "i", "o", "h", "g", "--workers", "3"];

#[test]
fn two_desks_and_three_workers_make_the_office(rt: HostRuntime) -> Result<(), Fail> {
    let alloc = rt.alloc();
    let mut first = Vec::new(alloc);
    push_first_desk(&mut first)?;
    let mut second = Vec::new(alloc);
    push_second_desk(&mut second)?;
    let mut cabinet = MemCabinet::new(alloc);
    put(alloc, &mut cabinet, "p", PLAN)?;
    put(alloc, &mut cabinet, "i", &first)?;
    put(alloc, &mut cabinet, "h", &second)?;
    let mut report = MemSink::new(alloc, 65_536, Vec::new(alloc));
    let gate = Noting::new(alloc, NOTES)?;
    let status = run(&rt, alloc, &LIVE, &mut cabinet, &mut report, &gate);
    assert_eq!(&rt; status, Status::Done);
    let journal = cabinet.file("j").ok_or("no journal")?.to_vec(alloc)?;
    let leaves = leaves_named(alloc, &journal)?;
    assert!(&rt; leaves.len() == 996 && 0 < gate.count());
    assert!(&rt; rounds_have_their_jobs(&gate, &leaves));
    let batch = left_by_batch(alloc, PLAN, &journal, &WORKING)?;
    assert_eq!(&rt; batch.output.ok_or("no release")?.as_slice(), report.held());
    assert!(&rt; batch.report.is_empty() && report.held().starts_with(b"release,996\n"));
    assert!(&rt; !has_mark(report.held()));
    put(alloc, &mut cabinet, "a", &asking(alloc, &journal)?)?;
    let mut again = MemSink::new(alloc, 65_536, Vec::new(alloc));
    let asked = run(&rt, alloc, &ASK, &mut cabinet, &mut again, &OpenGate);
    assert!(&rt; asked == Status::Done && again.held() == report.held());
    let answers = cabinet.file("b").ok_or("no answers")?;
    let synced = b"synced,996\n".as_slice();
    let place = answers
        .windows(synced.len())
        .position(|window| window == synced);
    let behind = place.ok_or("no front")?.saturating_add(synced.len());
    let certificates = answers.get(behind..answers.len()).ok_or("no certificates")?;
    assert_eq!(rt; checked(alloc, certificates)?, 12);
    Ok(())
}
