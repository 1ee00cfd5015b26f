// Sources in memory.
ghost use Rattle.std.specs.Prelude.{◌≡◌, ◌<◌, ◌≤◌, ◌+◌, ◌-◌, ◌^◌, ◌++◌, ℕ, List, [], min, length, take, drop};
ghost use Rattle.std.specs.Prelude.{IfOk, IsOk, OnOk, OnErr, is_err, Some, unwrap_or};
ghost use Rattle.std.specs.Option.{option_map};
ghost use Rattle.std.specs.String.{string_bytes};
ghost use Rattle.std.specs.Io.{ReadsAtMost};
ghost use Rattle.std.specs.Io.KnownBytes.{ReadConsumes};
ghost use Rattle.qna_edges.specs.Stock.{GivesBytes, ReadFails};
ghost use Rattle.qna_edges.specs.Memory.{Supply, stock_of, fails_at, next_number};

use crate::{Failed, Source};
use std::alloc::{AllocError, Global};
use std::marker::Model;

/// Bytes in memory, given in pieces, with reads that fail where a test wants it.
#[derive(Drop)]
pub struct MemSource {
    bytes: Vec<u8>,
    at: usize,
    piece: usize,
    fails: Vec<u64>,
    reads: u64,
    faults: u64,
    name: Option<String>,
}

impl Model for MemSource {
    ghost Value = { Supply };

    ghost view = { λ s. record {
      left = drop s.at s.bytes.items;
      piece = s.piece;
      fails = s.fails.items;
      reads = s.reads;
      faults = s.faults;
      name = unwrap_or (option_map string_bytes s.name) [];
    } };

    ghost invariant = { λ s. (s.at ≤ length s.bytes.items) × (0 < s.piece) };
}

impl MemSource {
    /// A source of these bytes, at most `piece` of them a read, whose reads of the numbers in `fails`, from 1, fail,
    /// and no others. Its name is empty.
    pub fn new(bytes: Vec<u8>, piece: usize, fails: Vec<u64>) -> MemSource
        requires { 0 < piece }
        ensures { result ≡ record {
          left = bytes.items;
          piece = piece;
          fails = fails.items;
          reads = 0;
          faults = 0;
          name = [];
        } }
    {
        MemSource {
            bytes,
            at: 0,
            piece,
            fails,
            reads: 0,
            faults: 0,
            name: None,
        }
    }

    pub(crate) fn name(&self) -> &str
        ensures { result.now ≡ self.now.name }
    {
        match &self.name {
            Some(name) => name.as_str(),
            None => "",
        }
    }

    pub(crate) fn faults(&self) -> u64
        ensures { result ≡ self.now.faults }
    {
        self.faults
    }

    pub(crate) fn left(&self) -> usize
        ensures { result ≡ length self.now.left }
    {
        self.bytes.len() - self.at
    }

    pub(crate) fn bytes(&self) -> &[u8]
        ensures { result.now ≡ self.now.left }
    {
        &self.bytes[self.at..]
    }

    // A source that reads like this one, with another name and no fault.
    pub(crate) fn like(&self, alloc: Global, name: String) -> Result<MemSource, AllocError>
        ensures { IfOk result (λ s. s ≡ record self.now { faults = 0; name = string_bytes name }) }
    {
        Ok(MemSource {
            bytes: self.bytes().to_vec(alloc)?,
            at: 0,
            piece: self.piece,
            fails: self.fails.to_vec(alloc)?,
            reads: self.reads,
            faults: 0,
            name: Some(name),
        })
    }
}

// Copies the first bytes of `rest`, at most `piece`, to the front of `buf`, and answers how many.
fn give(rest: &[u8], piece: usize, buf: &mut [u8]) -> usize
    ensures count { result ≡ min piece (min (length buf.old) (length rest.now)) }
    ensures bytes { rest.now ≡ take result buf.new ++ drop result rest.now }
{
    let count = piece.min(buf.len()).min(rest.len());
    buf[..count].copy_from_slice(&rest[..count]);
    count
}

impl Source for MemSource {
    ghost stock = { stock_of };

    /// Gives as many bytes as the piece, the buffer and what is left allow, and fails exactly at the listed reads.
    fn read(&mut self, buf: &mut [u8]) -> Result<usize, Failed>
        requires { 0 < length buf.old }
        ensures bound { ReadsAtMost result buf.new }
        ensures bytes { ReadConsumes (Some self.old.left) (Some self.new.left) result buf.new }
        ensures ok { OnOk result (GivesBytes (stock_of self.old) (stock_of self.new)) }
        ensures failed { OnErr result (ReadFails (stock_of self.old) (stock_of self.new)) }

        ensures number { self.new.reads ≡ next_number self.old.reads }
        ensures fails { is_err result ≡ fails_at self.old.fails self.new.reads }
        ensures count { IfOk result (λ n.
            n ≡ min self.old.piece (min (length buf.old) (length self.old.left))) }
        ensures fault { OnErr result (self.new.faults ≡ next_number self.old.faults) }
        ensures same_piece { self.new.piece ≡ self.old.piece }
        ensures same_fails { self.new.fails ≡ self.old.fails }
    {
        self.reads = self.reads.saturating_add(1);
        if self.fails.contains(&self.reads) {
            self.faults = self.faults.saturating_add(1);
            return Err(Failed);
        }
        let count = give(&self.bytes[self.at..], self.piece, buf);
        self.at += count;
        Ok(count)
    }
}

/// Bytes in memory that are given whole, and never fail.
#[derive(Drop)]
pub struct QuietSource {
    bytes: Vec<u8>,
    at: usize,
}

impl Model for QuietSource {
    ghost Value = { List ℕ };

    ghost view = { λ s. drop s.at s.bytes.items };

    ghost invariant = { λ s. s.at ≤ length s.bytes.items };
}

impl QuietSource {
    /// A source of these bytes, with an empty name.
    pub fn new(bytes: Vec<u8>) -> QuietSource
        ensures { result ≡ bytes.items }
    {
        QuietSource { bytes, at: 0 }
    }
}

impl Source for QuietSource {
    ghost stock = { λ s. record { left = Some s; faults = 0; name = [] } };

    /// Gives as many bytes as the buffer and what is left allow.
    fn read(&mut self, buf: &mut [u8]) -> Result<usize, Failed>
        requires { 0 < length buf.old }
        ensures bound { ReadsAtMost result buf.new }
        ensures bytes { ReadConsumes (Some self.old) (Some self.new) result buf.new }
        ensures well { IsOk result }
        ensures count { IfOk result (λ n. n ≡ min (length buf.old) (length self.old)) }
    {
        let count = give(&self.bytes[self.at..], usize::MAX, buf);
        self.at += count;
        Ok(count)
    }
}
