//! Workers.

ghost use Rattle.std.specs.Prelude.{◌≡◌, ◌<◌};
ghost use Rattle.desk_lock.specs.Passes.{IsPassOf, IsSameButSeen};
ghost use Rattle.office.specs.Seen.{SentNothing, MadeNothing};

use desk_lock::Pass;
use office::{CoreBook, Helped, Office};
use qna_base::Steps;
use qna_edges::Gate;
use std::marker::Brand;
use std::sync::Wait;
use std::sync::ledger::{Blank, Ledger};
use std::thread;

/// How often a worker that finds nothing to do looks at the history before it asks again.
const LOOKS: u8 = 64;

/// Helps to compile and to publish until no desk is open, or memory is wanted; then a job that was taken is put back.
/// Where there is nothing to do it asks again once the history has grown, or at its 64th look.
pub fn work<G: Gate, R: Wait>(
    rt: &R,
    office: &Office,
    pass: Pass<CoreBook>,
    gate: &G,
) -> Pass<CoreBook>
    requires { IsPassOf office.now pass }
    ensures pass { IsSameButSeen pass result }
    ensures nothing { SentNothing pass.party pass.seen result.seen }
{
    counted_work::<Brand, G, R>(Blank::new(1), rt, office, pass, gate)
}

/// Works with a ledger for the solver's steps, which nobody asks for.
fn counted_work<L: Ledger, G: Gate, R: Wait>(
    blank: Blank,
    rt: &R,
    office: &Office,
    pass: Pass<CoreBook>,
    gate: &G,
) -> Pass<CoreBook>
    requires name { blank.name ≡ L.name }
    requires parts { blank.parts ≡ L.parts }
    requires some { 0 < blank.parts }
    requires office { IsPassOf office.now pass }
    ensures pass { IsSameButSeen pass result }
    ensures nothing { SentNothing pass.party pass.seen result.seen }
{
    let mut steps = Steps::<L>::open(blank);
    let mut pass = pass;
    for _ in rt.forever() {
        if office.open_desks() == 0 {
            return pass;
        }
        let known = office.history_now(&mut pass);
        let (helped, reply) = office.help(rt, pass, gate, &mut steps);
        match reply {
            Helped::Memory => return helped,
            Helped::Quiet(_) | Helped::Idle => pass = look(office, helped, known),
            Helped::Compiled(_) | Helped::Published(_) | Helped::Opened { .. } => pass = helped,
        }
    }
    unreachable!()
}

/// Looks at the history until it has more than so many entries, or 64 times.
fn look(office: &Office, pass: Pass<CoreBook>, known: u64) -> Pass<CoreBook>
    requires { IsPassOf office.now pass }
    ensures pass { IsSameButSeen pass result }
    ensures nothing { MadeNothing pass.party pass.seen result.seen }
{
    let mut pass = pass;
    for _ in 0..LOOKS {
        if known < office.history_now(&mut pass) {
            return pass;
        }
        thread::yield_now();
    }
    pass
}
