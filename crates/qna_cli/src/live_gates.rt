// `live` with gates that hold parties up, or note what they do: that desks go on while jobs are compiled, that jobs are
// compiled by several parties, and that a round has the jobs of the items that its inputs touch and no others.

ghost use Rattle.std.specs.Prelude.{◌<◌, ◌≤◌, length};

use crate::noting::Noting;
use crate::run;
use qna_edges::{Gate, MemCabinet, MemSink, MemSource, Place, Status};
use std::alloc::Global;
use std::sync::Wait;
use std::sync::atomic::{AtomicU64, Ordering};
use std::test::Fail;
use std::thread;
use std::thread::Threads;

/// The most looks of a hold.
const LOOKS: u64 = 2_147_483_648;

/// A total of two leaves.
const PLAN: &'static [u8] =
    b"start,2021\nreference,2022\nitem,TOTAL,\nitem,FOOD,TOTAL\nitem,SERV,TOTAL\n";

/// One input of three years of two leaves, a question for the release, the other 53, and two questions more.
const LINES: &'static [u8] =
    b"ind,FOOD,2021Q1,100\nrelease\nprice,FOOD,2021Q1,1000000\nind,FOOD,2021Q2,100\nprice,FOOD,2021Q2,1000000\nind,FOOD,2021Q3,100\nprice,FOOD,2021Q3,1000000\nind,FOOD,2021Q4,100\nprice,FOOD,2021Q4,1000000\nind,FOOD,2022Q1,110\nprice,FOOD,2022Q1,1375000\nind,FOOD,2022Q2,110\nprice,FOOD,2022Q2,1375000\nind,FOOD,2022Q3,110\nprice,FOOD,2022Q3,1375000\nind,FOOD,2022Q4,110\nprice,FOOD,2022Q4,1375000\nind,FOOD,2023Q1,120\nprice,FOOD,2023Q1,1000000\nind,FOOD,2023Q2,120\nprice,FOOD,2023Q2,1000000\nind,FOOD,2023Q3,130\nprice,FOOD,2023Q3,1000000\nind,FOOD,2023Q4,130\nprice,FOOD,2023Q4,1000000\nbench,FOOD,2021,400\nbench,FOOD,2022,440\nbench,FOOD,2023,500\nind,SERV,2021Q1,200\nprice,SERV,2021Q1,1000000\nind,SERV,2021Q2,200\nprice,SERV,2021Q2,1000000\nind,SERV,2021Q3,200\nprice,SERV,2021Q3,1000000\nind,SERV,2021Q4,200\nprice,SERV,2021Q4,1000000\nind,SERV,2022Q1,210\nprice,SERV,2022Q1,700000\nind,SERV,2022Q2,210\nprice,SERV,2022Q2,700000\nind,SERV,2022Q3,210\nprice,SERV,2022Q3,700000\nind,SERV,2022Q4,210\nprice,SERV,2022Q4,700000\nind,SERV,2023Q1,250\nprice,SERV,2023Q1,1000000\nind,SERV,2023Q2,250\nprice,SERV,2023Q2,1000000\nind,SERV,2023Q3,250\nprice,SERV,2023Q3,1000000\nind,SERV,2023Q4,250\nprice,SERV,2023Q4,1000000\nbench,SERV,2021,800\nbench,SERV,2022,840\nbench,SERV,2023,1000\nrelease\nsync\n";

/// What a run left.
#[derive(Drop)]
struct Left {
    status: Status,
    journal: Vec<u8>,
    answers: Vec<u8>,
}

/// Runs one desk with two workers.
fn left_by_desk<R: Threads + Wait + Sync, G: Gate>(
    rt: &R,
    alloc: Global,
    lines: &[u8],
    gate: &G,
) -> Result<Left, Fail> {
    let mut cabinet = MemCabinet::new(alloc);
    cabinet.put_file(
        "p",
        MemSource::new(PLAN.to_vec(alloc)?, 4_096, Vec::new(alloc)),
    )?;
    cabinet.put_file(
        "i",
        MemSource::new(lines.to_vec(alloc)?, 4_096, Vec::new(alloc)),
    )?;
    let mut report = MemSink::new(alloc, 4_096, Vec::new(alloc));
    let words = ["live", "p", "j", "i", "o"];
    let status = run(rt, alloc, &words, &mut cabinet, &mut report, gate);
    Ok(Left {
        status,
        journal: held_under(alloc, &cabinet, "j")?,
        answers: held_under(alloc, &cabinet, "o")?,
    })
}

/// What stands under a name, or nothing.
fn held_under(alloc: Global, cabinet: &MemCabinet, name: &str) -> Result<Vec<u8>, Fail> {
    match cabinet.file(name) {
        Some(bytes) => Ok(bytes.to_vec(alloc)?),
        None => Ok(Vec::new(alloc)),
    }
}

/// Three holds. The desk is held after its first reading until a party has come to a job; the first party that comes to
/// a job until the desk has read twice; and the first that comes to a job of front 54 until another has come to another
/// one.
#[derive(Drop)]
struct Holds {
    reads: AtomicU64,
    jobs: AtomicU64,
    last: AtomicU64,
    lost: AtomicU64,
}

impl Gate for Holds {
    fn at(&self, _party: u16, place: Place) {
        match place {
            Place::AfterRead { .. } => {
                if self.reads.fetch_add(1, Ordering::SeqCst) == 0 {
                    self.hold(&self.jobs, 1);
                }
            }
            Place::BeforeJob { front, .. } => {
                if self.jobs.fetch_add(1, Ordering::SeqCst) == 0 {
                    self.hold(&self.reads, 2);
                }
                if front == 54 && self.last.fetch_add(1, Ordering::SeqCst) == 0 {
                    self.hold(&self.last, 2);
                }
            }
        }
    }
}

impl Holds {
    fn new() -> Holds {
        Holds {
            reads: AtomicU64::new(0),
            jobs: AtomicU64::new(0),
            last: AtomicU64::new(0),
            lost: AtomicU64::new(0),
        }
    }

    /// Waits until a count is so much, or notes that it let go before.
    fn hold(&self, count: &AtomicU64, enough: u64) {
        for _ in 0..LOOKS {
            if count.load(Ordering::SeqCst) >= enough {
                return;
            }
            thread::yield_now();
        }
        self.lost.fetch_add(1, Ordering::SeqCst);
    }

    /// Whether each hold began, and none let go before its time.
    fn all_held(&self) -> bool {
        self.reads.load(Ordering::SeqCst) >= 2
            && self.jobs.load(Ordering::SeqCst) >= 1
            && self.last.load(Ordering::SeqCst) >= 2
            && self.lost.load(Ordering::SeqCst) == 0
    }
}

#[test]
fn a_desk_reads_while_a_job_is_held(rt: HostRuntime) -> Result<(), Fail> {
    let alloc = rt.alloc();
    let gate = Holds::new();
    let left = left_by_desk(&rt, alloc, LINES, &gate)?;
    assert_eq!(&rt; left.status, Status::Done);
    assert!(&rt; gate.all_held());
    assert!(&rt; left.answers.starts_with(b"ok,1\nrelease,0\n"));
    assert!(rt; left.answers.ends_with(b"synced,54\n"));
    Ok(())
}

/// How many jobs can be noted.
const NOTES: usize = 64;

/// Each front with an item that its round has a job for: the leaf that the input names, and the total.
const JOBS: [(u64, u64); 4] = [(1, 1), (1, 0), (2, 2), (2, 0)];

#[test]
fn a_round_has_the_jobs_that_its_inputs_touch(rt: HostRuntime) -> Result<(), Fail> {
    let alloc = rt.alloc();
    let gate = Noting::new(alloc, NOTES)?;
    let lines = b"ind,FOOD,2021Q1,100\nsync\nind,SERV,2021Q1,200\nsync\n";
    let left = left_by_desk(&rt, alloc, lines, &gate)?;
    assert_eq!(&rt; left.status, Status::Done);
    assert_eq!(&rt;
        left.answers.as_slice(),
        b"ok,1\nsynced,1\nok,2\nsynced,2\n".as_slice()
    );
    assert_eq!(&rt; gate.count(), 4);
    for (front, node) in JOBS {
        assert_eq!(&rt; gate.times(front, node), 1);
    }
    assert!(rt; left.journal.starts_with(b"ind,FOOD,2021Q1,100,1\n"));
    Ok(())
}
