// Sinks in memory, and the writing of a whole text to any sink.
ghost use Rattle.std.specs.Prelude.{◌≡◌, ◌<◌, ◌≤◌, ◌+◌, ◌-◌, ◌^◌, ◌++◌, ℕ, List, [], min, length, take, IfOk};
ghost use Rattle.std.specs.Prelude.{OnOk, OnErr, IsErrOf, Some, unwrap_or};
ghost use Rattle.std.specs.Option.{option_map};
ghost use Rattle.std.specs.String.{string_bytes};
ghost use Rattle.qna_edges.specs.Count.{capped};
ghost use Rattle.qna_edges.specs.Paper.{Prints};
ghost use Rattle.qna_edges.specs.Refused.{is_failed};
ghost use Rattle.qna_edges.specs.Memory.{Store, Quiet, paper_of, fails_at, next_number};

use crate::{Refused, Sink};
use std::alloc::{AllocError, Global};
use std::marker::Model;

/// Writes all of `bytes`. After a refusal the sink's count of that rose, and the sink holds what it held,
/// followed by a beginning of `bytes`, but not all of them.
pub fn write_all<K: Sink>(sink: &mut K, bytes: &[u8]) -> Result<(), Refused>
    ensures { Prints (K.paper sink.old) (K.paper sink.new) bytes.now result }
{
    let mut done = 0;
    'writing: while done < bytes.len() {
        done += sink.write(&bytes[done..])?;
    }
    Ok(())
}

/// Bytes that are kept in memory, taken in pieces, with writes that fail where a test wants it.
#[derive(Drop)]
pub struct MemSink {
    held: Vec<u8>,
    piece: usize,
    fails: Vec<u64>,
    writes: u64,
    faults: u64,
    wants: u64,
    name: Option<String>,
}

impl Model for MemSink {
    ghost Value = { Store };

    ghost view = { λ s. record {
      held = s.held.items;
      piece = s.piece;
      fails = s.fails.items;
      writes = s.writes;
      faults = s.faults;
      wants = s.wants;
      name = unwrap_or (option_map string_bytes s.name) [];
    } };

    ghost invariant = { λ s. 0 < s.piece };
}

impl MemSink {
    ghost use Rattle.std.specs.Prelude.{None};
    ghost use Rattle.qna_edges.specs.MemCabinet.{created};

    /// A sink that takes at most `piece` bytes a write, and whose writes of the numbers in `fails`, from 1, fail,
    /// and no others. It holds nothing, and its name is empty.
    pub fn new(alloc: Global, piece: usize, fails: Vec<u64>) -> MemSink
        requires { 0 < piece }
        ensures { result ≡ record {
          held = [];
          piece = piece;
          fails = fails.items;
          writes = 0;
          faults = 0;
          wants = 0;
          name = [];
        } }
    {
        MemSink {
            held: Vec::new(alloc),
            piece,
            fails,
            writes: 0,
            faults: 0,
            wants: 0,
            name: None,
        }
    }

    /// The bytes that the sink holds.
    pub fn held(&self) -> &[u8]
        ensures { result.now ≡ self.now.held }
    {
        &self.held
    }

    // A sink that takes all and never fails.
    pub(crate) fn with_name(alloc: Global, name: String) -> MemSink
        ensures { result ≡ created None (string_bytes name) }
    {
        MemSink {
            held: Vec::new(alloc),
            piece: usize::MAX,
            fails: Vec::new(alloc),
            writes: 0,
            faults: 0,
            wants: 0,
            name: Some(name),
        }
    }

    // A sink that takes like this one, with another name, which holds nothing and has counted nothing.
    pub(crate) fn like(&self, alloc: Global, name: String) -> Result<MemSink, AllocError>
        ensures { IfOk result (λ k. k ≡ created (Some self.now) (string_bytes name)) }
    {
        Ok(MemSink {
            held: Vec::new(alloc),
            piece: self.piece,
            fails: self.fails.to_vec(alloc)?,
            writes: self.writes,
            faults: 0,
            wants: 0,
            name: Some(name),
        })
    }

    pub(crate) fn name(&self) -> &str
        ensures { result.now ≡ self.now.name }
    {
        match &self.name {
            Some(name) => name.as_str(),
            None => "",
        }
    }

    pub(crate) fn faults(&self) -> u64
        ensures { result ≡ self.now.faults }
    {
        self.faults
    }

    pub(crate) fn into_held(self) -> Vec<u8>
        ensures { result.items ≡ self.held }
    {
        self.held
    }
}

impl Sink for MemSink {
    ghost paper = { paper_of };

    /// Takes as many bytes as its piece allows, and fails exactly at the listed writes.
    /// A write that answers `Memory` is counted by itself.
    fn write(&mut self, bytes: &[u8]) -> Result<usize, Refused>
        requires { 0 < length bytes.now }
        ensures some { IfOk result (λ n. 0 < n) }
        ensures bound { IfOk result (λ n. n ≤ length bytes.now) }
        ensures fails { is_failed result ≡ fails_at self.old.fails (next_number self.old.writes) }
        ensures count { IfOk result (λ n. n ≡ min self.old.piece (length bytes.now)) }
        ensures ok { IfOk result (λ n. self.new ≡ record self.old {
          held = self.old.held ++ take n bytes.now;
          writes = next_number self.old.writes;
        }) }
        ensures failed { IsErrOf result Refused.Failed → self.new ≡ record self.old {
          writes = next_number self.old.writes;
          faults = capped self.old.faults 1;
        } }
        ensures memory { IsErrOf result Refused.Memory →
            self.new ≡ record self.old { wants = capped self.old.wants 1 } }
    {
        let number = self.writes.saturating_add(1);
        if self.fails.contains(&number) {
            self.writes = number;
            self.faults = self.faults.saturating_add(1);
            return Err(Refused::Failed);
        }
        let count = self.piece.min(bytes.len());
        if self.held.extend_from_slice(&bytes[..count]).is_err() {
            self.wants = self.wants.saturating_add(1);
            return Err(Refused::Memory);
        }
        self.writes = number;
        Ok(count)
    }
}

/// Bytes that are kept in memory, taken whole. Its writes never fail, and want of memory is counted.
#[derive(Drop)]
pub struct QuietSink {
    held: Vec<u8>,
    wants: u64,
}

impl Model for QuietSink {
    ghost Value = { Quiet };

    ghost view = { λ s. record { held = s.held.items; wants = s.wants } };
}

impl QuietSink {
    /// A sink that holds nothing, with an empty name.
    pub fn new(alloc: Global) -> QuietSink
        ensures { result ≡ record { held = []; wants = 0 } }
    {
        QuietSink {
            held: Vec::new(alloc),
            wants: 0,
        }
    }

    /// The bytes that the sink holds.
    pub fn held(&self) -> &[u8]
        ensures { result.now ≡ self.now.held }
    {
        &self.held
    }
}

impl Sink for QuietSink {
    ghost paper = { λ s. record { held = Some s.held; faults = 0; wants = s.wants; name = [] } };

    /// Takes all of `bytes`, or answers `Memory`.
    fn write(&mut self, bytes: &[u8]) -> Result<usize, Refused>
        requires { 0 < length bytes.now }
        ensures all { IfOk result (λ n. n ≡ length bytes.now) }
        ensures some { IfOk result (λ n. 0 < n) }
        ensures bound { IfOk result (λ n. n ≤ length bytes.now) }
        ensures ok { IfOk result (λ n.
            self.new ≡ record self.old { held = self.old.held ++ take n bytes.now }) }
        ensures failed { IsErrOf result Refused.Failed → ⊥ }
        ensures memory { IsErrOf result Refused.Memory →
            self.new ≡ record self.old { wants = capped self.old.wants 1 } }
    {
        if self.held.extend_from_slice(bytes).is_err() {
            self.wants = self.wants.saturating_add(1);
            return Err(Refused::Memory);
        }
        Ok(bytes.len())
    }
}
