//! Threads that write into one book.
ghost use Rattle.std.specs.Prelude.{◌≡◌, ◌≤◌, ◌<◌, ◌+◌, ◌^◌, ◌++◌, ◌∷◌, [], length, leb, true, MatchBool};
ghost use Rattle.std.specs.Thread.{IsSync};
ghost use Rattle.desk_lock.specs.Passes.{IsPassOf, IsSameButSeen, IsFreeFrom, IsRegathered};

use crate::{Desk, Pass, Story};
use qna_base::Memory;
use std::alloc::Global;
use std::sync::{Arc, Wait};
use std::test::Fail;
use std::thread::{Threads, join};

const LINES: u64 = 40;

const LOOKS: u64 = 400;

#[derive(Clone, Copy)]
struct Line {
    party: u16,
    number: u64,
}

// A book with a limit on its lines, which is its label. Its test is that the limit is kept.
#[derive(Drop)]
struct Log {
    limit: u64,
    lines: Vec<Line>,
    token: Arc<u8>,
    ghost small: { limit ≤ 2 ^ 40 },
    ghost fits: { leb (length lines.items) limit ≡ true },
}

impl Story for Log {
    type Entry = Line;

    type Label = u64;

    ghost list = { λ b. b.lines.items };

    ghost party = { λ e. e.party };

    ghost label = { λ b. b.limit };

    ghost test = { λ limit lines. leb (length lines) limit ≡ true };

    fn count(&self) -> u64 {
        self.lines.len() as u64
    }

    ghost passes = { λ b. b.fits };
}

impl Log {
    fn new(alloc: Global, limit: u32, token: Arc<u8>) -> Log
        ensures { result.lines.items ≡ [] }
    {
        Log {
            limit: u64::from(limit),
            lines: Vec::new(alloc),
            token,
        }
    }

    // Says whether the line was added.
    fn add(&mut self, line: Line) -> bool
        ensures label { self.new.limit ≡ self.old.limit }
        ensures lines { MatchBool result (self.new.lines.items ≡ self.old.lines.items ++ line ∷ [])
            (self.new.lines.items ≡ self.old.lines.items) }
        ensures room { length self.new.lines.items ≤ 2 ^ 40 }
    {
        (self.lines.len() as u64) < self.limit && self.lines.push(line).is_ok()
    }
}

// One hold: the pass's party adds a line.
fn write<R: Wait>(rt: &R, desk: &Desk<Log>, pass: Pass<Log>, number: u64) -> Pass<Log>
    requires { IsPassOf desk.now pass }
    ensures { IsSameButSeen pass result }
{
    let party = pass.party();
    let mut held = desk.enter(rt, pass);
    held.book().add(Line { party, number });
    held.leave()
}

fn write_lines<R: Wait>(rt: &R, desk: &Desk<Log>, mut pass: Pass<Log>) -> Pass<Log>
    requires { IsPassOf desk.now pass }
    ensures { IsSameButSeen pass result }
{
    for number in 0..LINES {
        pass = write(rt, desk, pass, number);
    }
    pass
}

// Looks again and again, and says whether the number of entries never went down.
fn watch(desk: &Desk<Log>, mut pass: Pass<Log>) -> (Pass<Log>, bool)
    requires { IsPassOf desk.now pass }
    ensures { IsSameButSeen pass result.0 }
{
    let mut last = 0;
    let mut rises = true;
    for _ in 0..LOOKS {
        let now = desk.history_now(&mut pass);
        rises = rises && last <= now;
        last = now;
    }
    (pass, rises)
}

// Party 1 watches, and the others write.
fn work<R: Wait>(rt: &R, desk: &Desk<Log>, pass: Pass<Log>) -> (Pass<Log>, bool)
    requires { IsPassOf desk.now pass }
    ensures { IsSameButSeen pass result.0 }
{
    if pass.party() == 1 {
        watch(desk, pass)
    } else {
        (write_lines(rt, desk, pass), true)
    }
}

// A thread for each of the parties from `first` on. All passes end in the one that comes back.
fn crew<R: Threads + Wait + Sync>(
    rt: &R,
    desk: &Desk<Log>,
    pass: Pass<Log>,
    first: u16,
    left: u16,
) -> (Pass<Log>, bool)
    requires desk { IsPassOf desk.now pass }
    requires free { IsFreeFrom first pass }
    requires room { first + left < 65536 }
    ensures { IsRegathered pass result.0 }
{
    if left == 0 {
        return (pass, true);
    }
    let Ok((pass, other)) = desk.split(pass, first) else {
        unreachable!()
    };
    let (rest, one) = join(
        rt,
        || -> (Pass<Log>, bool)
            requires { IsPassOf desk.now pass × IsFreeFrom (first + 1) pass
                × (0 < left) × (first + left < 65536) × IsSync R.row }
            ensures { IsRegathered pass result.0 }
        { crew(rt, desk, pass, first + 1, left - 1) },
        || work(rt, desk, other),
    );
    (desk.join(rest.0, one.0), rest.1 && one.1)
}

fn run<R: Threads + Wait + Sync>(
    rt: &R,
    alloc: Global,
    log: Log,
    threads: u16,
) -> Result<(Log, bool), Memory>
    requires blank { log.lines.items ≡ [] }
    requires room { threads < 65535 }
{
    let (desk, pass) = Desk::new(alloc, log, 0)?;
    let (pass, rises) = crew(rt, &desk, pass, 1, threads);
    let (log, _last) = desk.close(pass);
    Ok((log, rises))
}

fn has_all_in_order(lines: &[Line], party: u16) -> bool {
    let count = lines.iter().filter(|line| line.party == party).count();
    let ordered = lines
        .iter()
        .filter(|line| line.party == party)
        .enumerate()
        .all(|(i, line)| line.number == i as u64);
    count as u64 == LINES && ordered
}

#[test]
fn threads_write_each_line_once_and_in_order(rt: HostRuntime) -> Result<(), Fail> {
    for writers in [2u16, 16] {
        let token = Arc::new(rt.alloc(), 0u8)?;
        let log = Log::new(rt.alloc(), 4096, token);
        let (log, rises) = run(&rt, rt.alloc(), log, writers + 1)?;
        let lines = log.lines.as_slice();
        assert!(rt;
            rises,
            "the number of entries rises under {writers} writers"
        );
        assert_eq!(rt;
            lines.len() as u64,
            LINES * u64::from(writers),
            "under {writers} writers"
        );
        for party in 2..writers + 2 {
            assert!(rt;
                has_all_in_order(lines, party),
                "party {party} under {writers} writers"
            );
        }
    }
    Ok(())
}

#[test]
fn a_lock_that_is_dropped_drops_its_book_once(rt: HostRuntime) -> Result<(), Fail> {
    let token = Arc::new(rt.alloc(), 0u8)?;
    let log = Log::new(rt.alloc(), 8, Arc::try_clone(&token)?);
    let (desk, pass) = Desk::new(rt.alloc(), log, 3)?;
    let pass = write(&rt, &desk, pass, 0);
    assert!(rt; pass.party() == 3 && Arc::strong_count(&token) == 2);
    drop(desk);
    assert!(rt; pass.party() == 3 && Arc::strong_count(&token) == 1);
    Ok(())
}

#[test]
fn a_pass_sees_that_another_party_made_an_entry(rt: HostRuntime) -> Result<(), Fail> {
    let token = Arc::new(rt.alloc(), 0u8)?;
    let log = Log::new(rt.alloc(), 8, token);
    let (desk, pass) = Desk::new(rt.alloc(), log, 1)?;
    let Ok((first, mut second)) = desk.split(pass, 2) else {
        unreachable!()
    };
    let before = desk.history_now(&mut second);
    let first = write(&rt, &desk, first, 0);
    let after = desk.history_now(&mut second);
    assert_eq!(rt; (before, after), (0, 1));
    assert!(rt; first.party() == 1 && second.party() == 2);
    Ok(())
}
