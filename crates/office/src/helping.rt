//! The call by which a party helps to compile and to publish.

ghost use Rattle.desk_lock.specs.Passes.{IsPassOf};
ghost use Rattle.office.specs.Calls.{Helps};
ghost use Rattle.office.specs.Holds.{IsLater, Runs};

use crate::book::CoreBook;
use crate::office::Office;
use crate::replies::{Helped, Ran};
use accounts_core::{Begin, CompileEnd, Done, Job, Publish, Take, compile};
use desk_lock::Pass;
use qna_base::Steps;
use qna_edges::{Gate, Place};
use std::sync::Wait;
use std::sync::ledger::Ledger;

impl Office {
    /// Does what is to be done next: it takes a job, compiles it outside the lock and hands it in, or publishes the
    /// round where no job is ready, or begins one where none is open. Where the job isn't out any more once it is
    /// compiled, it starts again. The gate is called before the job is compiled.
    pub fn help<G: Gate, L: Ledger, R: Wait>(
        &self,
        rt: &R,
        pass: Pass<CoreBook>,
        gate: &G,
        steps: &mut Steps<L>,
    ) -> (Pass<CoreBook>, Helped)
        requires { IsPassOf self.now pass }
        ensures pass { IsLater pass result.0 }
        ensures reply { Helps result.1 pass result.0 }
    {
        let mut pass = pass;
        for _ in rt.forever() {
            let (seen, reply) = self.take(rt, pass);
            match reply {
                Take::NoneReady => return self.publish_or_begin(rt, seen),
                Take::Job(job) => {
                    let node = job.node;
                    let (after, ran) = self.run(rt, seen, job, gate, steps);
                    match ran {
                        Ran::Finished => return (after, Helped::Compiled(node)),
                        Ran::Wanting => return (after, Helped::Memory),
                        Ran::NotOut => pass = after,
                    }
                }
            }
        }
        unreachable!()
    }

    /// Compiles a job that was taken, outside the lock, and hands in its table. For want of memory the job is put back.
    fn run<G: Gate, L: Ledger, R: Wait>(
        &self,
        rt: &R,
        pass: Pass<CoreBook>,
        job: Job,
        gate: &G,
        steps: &mut Steps<L>,
    ) -> (Pass<CoreBook>, Ran)
        requires { IsPassOf self.now pass }
        ensures pass { IsLater pass result.0 }
        ensures ran { Runs job result.1 pass result.0 }
    {
        gate.at(
            pass.party(),
            Place::BeforeJob {
                front: job.front,
                node: job.node,
            },
        );
        match compile(self.alloc, job, steps) {
            CompileEnd::Compiled(made) => {
                let (seen, reply) = self.hand_in(rt, pass, made);
                let Done::Kept = reply else {
                    return (seen, Ran::NotOut);
                };
                (seen, Ran::Finished)
            }
            CompileEnd::Memory(job) => {
                let (seen, _) = self.give_back(rt, pass, job);
                (seen, Ran::Wanting)
            }
        }
    }

    /// Publishes the round if all its jobs are done, or begins one if none is open.
    fn publish_or_begin<R: Wait>(&self, rt: &R, pass: Pass<CoreBook>) -> (Pass<CoreBook>, Helped)
        requires { IsPassOf self.now pass }
        ensures pass { IsLater pass result.0 }
        ensures reply { Helps result.1 pass result.0 }
    {
        let (seen, reply) = self.publish(rt, pass);
        match reply {
            Publish::Published(front) => (seen, Helped::Published(front)),
            Publish::Waiting(_) => (seen, Helped::Idle),
            Publish::NoRound => self.begin_next(rt, seen),
        }
    }

    /// Begins a round if none is open.
    fn begin_next<R: Wait>(&self, rt: &R, pass: Pass<CoreBook>) -> (Pass<CoreBook>, Helped)
        requires { IsPassOf self.now pass }
        ensures pass { IsLater pass result.0 }
        ensures reply { Helps result.1 pass result.0 }
    {
        let (seen, reply) = self.begin(rt, pass);
        let Ok(begun) = reply else {
            return (seen, Helped::Memory);
        };
        match begun {
            Begin::Opened { front, jobs } => (seen, Helped::Opened { front, jobs }),
            Begin::Nothing(front) => (seen, Helped::Quiet(front)),
            Begin::RoundOpen(_) => (seen, Helped::Idle),
        }
    }
}
