//! The compiler of quarterly national accounts: words in, an exit status out.
#![tactic(auto)]

ghost use Rattle.std.specs.Prelude.{◌≡◌};
ghost use Rattle.std.specs.Process.{exit_status};
ghost use Rattle.qna_edges.specs.Status.{number_of};

mod batch;
mod check;
mod command;
mod release;

pub use batch::{batches_complete, batches_release};
pub use check::{checks_complete, run_check};
pub use command::{run, run_batch};
pub use command_words::{PlainWords, plain_words};
use qna_base::Memory;
use qna_edges::{FileCabinet, OpenGate, Status, StdoutSink};
pub use qna_live::{lives_complete, lives_have_causes, run_live};
use qna_parts::{Unread, tell_unread, tell_usage};
pub use qna_trial::{run_trial, trials_complete};
use std::alloc::Global;
use std::io::Stdout;
use std::process::ExitCode;
use std::rt::Files;
use std::{env, fs, io};

#[cfg(test)]
mod check_tests;
#[cfg(test)]
mod device_tests;
#[cfg(test)]
mod live_gates;
#[cfg(test)]
mod live_tests;
#[cfg(test)]
mod noting;
#[cfg(test)]
mod repeating;
#[cfg(test)]
mod tests;
#[cfg(test)]
mod trial_tests;

/// A file for reading that is always there and empty.
const NOTHING: &str = "/dev/null";

/// Takes the numbers of the three standard descriptors where they are closed. A file that is opened gets the lowest
/// number that is free. So where a program is started with its standard output closed, its first output file would
/// become its standard output, and the report would be written into it. While these three are held, a write to a closed
/// standard output fails.
fn hold_standard_descriptors<R: Files>(rt: &R) -> io::Result<[R::File; 3]> {
    Ok([
        fs::open(rt, NOTHING)?,
        fs::open(rt, NOTHING)?,
        fs::open(rt, NOTHING)?,
    ])
}

/// The words without the program's name, borrowed.
fn words_of(alloc: Global, texts: &[String]) -> Result<Vec<&str>, Memory> {
    let mut words = Vec::new(alloc);
    for text in texts.iter().skip(1) {
        words.push(text.as_str())?;
    }
    Ok(words)
}

/// The texts of the command line, the program's name first. The answer is a status where they can't be had: for want of
/// memory, or at a word that isn't UTF-8, which is of no command's form and is reported so.
fn texts_of(rt: &HostRuntime, report: &mut StdoutSink<Stdout>) -> Result<Vec<String>, Status> {
    match env::args(rt) {
        Ok(arguments) => arguments.collect(rt.alloc()).map_err(|_| Status::Memory),
        Err(error) => match error.kind() {
            io::ErrorKind::OutOfMemory => Err(Status::Memory),
            _ => Err(tell_usage(report)),
        },
    }
}

/// The exit code with a status's number.
fn exit_code(status: Status) -> ExitCode
    ensures { exit_status result ≡ number_of status }
{
    ExitCode::from(status.number())
}

fn main(rt: HostRuntime) -> ExitCode {
    let alloc = rt.alloc();
    let mut report = StdoutSink::new(rt.stdout());
    let Ok(_held) = hold_standard_descriptors(&rt) else {
        return exit_code(tell_unread(&mut report, Unread::Open, NOTHING));
    };
    let texts = match texts_of(&rt, &mut report) {
        Ok(texts) => texts,
        Err(status) => return exit_code(status),
    };
    let Ok(words) = words_of(alloc, &texts) else {
        return exit_code(Status::Memory);
    };
    let Ok(files) = rt.clone() else {
        return exit_code(Status::Memory);
    };
    let mut cabinet = FileCabinet::new(files, alloc);
    exit_code(run(&rt, alloc, &words, &mut cabinet, &mut report, &OpenGate))
}
