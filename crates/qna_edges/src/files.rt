// Files and standard output, by std. What the system does with them no clause can say, so nothing here tells its bytes;
// but whatever a file gives or takes is what the source gave and the sink took.
ghost use Rattle.std.specs.Prelude.{◌≡◌, ◌<◌, ◌≤◌, ℕ, List, IsTrue, length, false, None, IfOk, OnOk, OnErr, IsErrOf};
ghost use Rattle.std.specs.Io.{ReadsAtMost};
ghost use Rattle.std.specs.Io.KnownBytes.{ReadConsumes, WriteAppends};
ghost use Rattle.qna_edges.specs.Count.{capped};
ghost use Rattle.qna_edges.specs.Tally.{counts_of, has_room};
ghost use Rattle.qna_edges.specs.Untold.{untold, no_shelf};

use crate::tally::{Kind, Tally};
use crate::{Cabinet, Failed, Refused, Sink, Source};
use std::alloc::Global;
use std::fs;
use std::io::{Read, Write};
use std::rt::Files;

// One write to a device, which takes the first bytes of the piece and no others. An error is a fault, and so is a
// device that takes nothing.
#[tactic(auto, using(crate::proofs::Device::keeps_all))]
fn write_counted<W: Write>(device: &mut W, bytes: &[u8], faults: &mut u64) -> Result<usize, Refused>
    requires { 0 < length bytes.now }
    ensures some { IfOk result (λ n. 0 < n) }
    ensures bound { IfOk result (λ n. n ≤ length bytes.now) }
    ensures bytes { WriteAppends (W.contents device.old) (W.contents device.new) result bytes.now }
    ensures later { faults.old ≤ faults.new }
    ensures well { OnOk result (faults.new ≡ faults.old) }
    ensures fault { OnErr result (faults.new ≡ capped faults.old 1) }
    ensures failed { OnErr result (IsErrOf result Refused.Failed) }
{
    match device.write(bytes) {
        Ok(count) if count > 0 => Ok(count),
        _ => {
            *faults = faults.saturating_add(1);
            Err(Refused::Failed)
        }
    }
}

/// A file that is read. Each error of the system counts as a fault.
#[derive(Drop)]
pub struct FileSource<F: Read + Send + Drop> {
    file: F,
    faults: u64,
    name: String,
}

impl<F: Read + Send + Drop> Source for FileSource<F> {
    ghost use Rattle.std.specs.String.{string_bytes};

    ghost stock = { λ s. record { left = None; faults = s.faults; name = string_bytes s.name } };

    /// It gives what the file gives, in one read.
    fn read(&mut self, buf: &mut [u8]) -> Result<usize, Failed>
        requires { 0 < length buf.old }
        ensures bound { ReadsAtMost result buf.new }
        ensures well { OnOk result (self.new.faults ≡ self.old.faults) }
        ensures fault { OnErr result (self.new.faults ≡ capped self.old.faults 1) }
        ensures same_name { self.new.name ≡ self.old.name }
        ensures file { ReadConsumes (F.remaining self.old.file) (F.remaining self.new.file)
            result buf.new }
    {
        match self.file.read(buf) {
            Ok(count) => Ok(count),
            Err(_) => {
                self.faults = self.faults.saturating_add(1);
                Err(Failed)
            }
        }
    }
}

/// A file that is written. Each error of the system counts as a fault.
#[derive(Drop)]
pub struct FileSink<F: Write + Send + Drop> {
    file: F,
    faults: u64,
    name: String,
}

impl<F: Write + Send + Drop> Sink for FileSink<F> {
    ghost use Rattle.std.specs.String.{string_bytes};

    ghost paper = { λ k. record {
      held = None;
      faults = k.faults;
      wants = 0;
      name = string_bytes k.name;
    } };

    /// The file takes what is answered, in one write. It never answers `Memory`.
    fn write(&mut self, bytes: &[u8]) -> Result<usize, Refused>
        requires { 0 < length bytes.now }
        ensures some { IfOk result (λ n. 0 < n) }
        ensures bound { IfOk result (λ n. n ≤ length bytes.now) }
        ensures ok { OnOk result (self.new.faults ≡ self.old.faults) }
        ensures failed { IsErrOf result Refused.Failed →
            self.new.faults ≡ capped self.old.faults 1 }
        ensures same_name { self.new.name ≡ self.old.name }
        ensures memory { IsErrOf result Refused.Memory → ⊥ }
        ensures file { WriteAppends (F.contents self.old.file) (F.contents self.new.file)
            result bytes.now }
    {
        write_counted(&mut self.file, bytes, &mut self.faults)
    }
}

/// Standard output, or another writer of the program's own. Each error of the system counts as a fault.
#[derive(Drop)]
pub struct StdoutSink<W: Write + Send + Drop> {
    out: W,
    faults: u64,
}

impl<W: Write + Send + Drop> StdoutSink<W> {
    /// Standard output as a sink, with an empty name.
    pub fn new(out: W) -> StdoutSink<W>
        ensures { (⟦<StdoutSink<W> as Sink>⟧.paper result).faults ≡ 0 }
    {
        StdoutSink { out, faults: 0 }
    }
}

impl<W: Write + Send + Drop> Sink for StdoutSink<W> {
    ghost use Rattle.std.specs.Prelude.{[]};

    ghost paper = { λ k. record { held = None; faults = k.faults; wants = 0; name = [] } };

    /// The writer takes what is answered, in one write. It never answers `Memory`.
    fn write(&mut self, bytes: &[u8]) -> Result<usize, Refused>
        requires { 0 < length bytes.now }
        ensures some { IfOk result (λ n. 0 < n) }
        ensures bound { IfOk result (λ n. n ≤ length bytes.now) }
        ensures ok { OnOk result (self.new.faults ≡ self.old.faults) }
        ensures failed { IsErrOf result Refused.Failed →
            self.new.faults ≡ capped self.old.faults 1 }
        ensures memory { IsErrOf result Refused.Memory → ⊥ }
        ensures writer { WriteAppends (W.contents self.old.out) (W.contents self.new.out)
            result bytes.now }
    {
        write_counted(&mut self.out, bytes, &mut self.faults)
    }
}

/// The files of the system, by their paths.
#[derive(Drop)]
pub struct FileCabinet<R: Files + Drop> {
    rt: R,
    alloc: Global,
    tally: Tally,
    out: u64,
}

impl<R: Files + Drop> FileCabinet<R>
where
    R::File: Send,
{
    /// The files that `rt` reaches, none of which has failed so far.
    pub fn new(rt: R, alloc: Global) -> FileCabinet<R>
        ensures none { (n : List ℕ) →
            (⟦<FileCabinet<R> as Cabinet>⟧.shelves result).under n ≡ no_shelf }
        ensures out { (⟦<FileCabinet<R> as Cabinet>⟧.shelves result).out ≡ 0 }
    {
        FileCabinet {
            rt,
            alloc,
            tally: Tally::new(alloc),
            out: 0,
        }
    }
}

impl<R: Files + Drop> Cabinet for FileCabinet<R>
where
    R::File: Send,
{
    type In = FileSource<R::File>;

    type Out = FileSink<R::File>;

    ghost shelves = { λ c. record {
      under = λ n. untold (counts_of c.tally n);
      tells = false;
      out = c.out;
    } };

    ghost knows = { λ c n. IsTrue (has_room c.tally n) };

    fn open(&mut self, name: &str) -> Result<FileSource<R::File>, Refused> {
        if self.out == u64::MAX {
            return Err(Refused::Memory);
        }
        self.tally.reserve(name)?;
        if self.tally.sources(name) == u64::MAX {
            return Err(Refused::Memory);
        }
        let own = String::from_str(self.alloc, name)?;
        match fs::open(&self.rt, name) {
            Ok(file) => {
                self.tally.give_source(name);
                self.out += 1;
                Ok(FileSource {
                    file,
                    faults: 0,
                    name: own,
                })
            }
            Err(_) => {
                self.tally.raise(Kind::Open, 1, name);
                Err(Refused::Failed)
            }
        }
    }

    fn create(&mut self, name: &str) -> Result<FileSink<R::File>, Refused> {
        if self.out == u64::MAX {
            return Err(Refused::Memory);
        }
        self.tally.reserve(name)?;
        if self.tally.sinks(name) == u64::MAX {
            return Err(Refused::Memory);
        }
        let own = String::from_str(self.alloc, name)?;
        match fs::create(&self.rt, name) {
            Ok(file) => {
                self.tally.give_sink(name);
                self.out += 1;
                Ok(FileSink {
                    file,
                    faults: 0,
                    name: own,
                })
            }
            Err(_) => {
                self.tally.raise(Kind::Create, 1, name);
                Err(Refused::Failed)
            }
        }
    }

    fn back_in(&mut self, source: FileSource<R::File>) {
        self.out = self.out.saturating_sub(1);
        self.tally
            .raise(Kind::Read, source.faults, source.name.as_str());
    }

    fn back_out(&mut self, sink: FileSink<R::File>) {
        self.out = self.out.saturating_sub(1);
        self.tally
            .raise(Kind::Write, sink.faults, sink.name.as_str());
    }
}
