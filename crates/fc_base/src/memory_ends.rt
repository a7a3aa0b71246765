// Sources and sinks in memory, which tell what they hold.
ghost use Rattle.std.specs.Prelude.{◌≡◌, ◌<◌, ◌≤◌, ◌+◌, [], ℕ, List, Some, length, take, drop, vec_len, IfOk, OnOk, OnErr};
ghost use Rattle.std.specs.Io.KnownBytes.{ReadConsumes, WriteAppends, Keeps};
ghost use Rattle.fc_base.specs.Causes.{HasCause};
ghost use Rattle.fc_base.specs.Content.{IsFlushed};
ghost use Rattle.fc_base.specs.Calls.{FailsByList};

use crate::{Sink, Source, Trouble};
use std::alloc::Global;

/// Bytes in memory, given in pieces, whose read fails at the calls that are listed.
#[derive(Drop)]
pub struct MemSource {
    bytes: Vec<u8>,
    at: usize,
    piece: usize,
    failing: Vec<u64>,
    calls: u64,
    faults: u64,
    ghost in_range: { at ≤ vec_len bytes },
    ghost some_piece: { 0 < piece },
}

impl MemSource {
    /// All bytes are left. Calls are counted from 1, and a read gives at most `piece` bytes.
    pub fn new(bytes: Vec<u8>, piece: usize, failing: Vec<u64>) -> Self
        requires { 0 < piece }
        ensures left { ⟦<MemSource as Source>⟧.left result ≡ Some bytes.items }
        ensures faults { ⟦<MemSource as Source>⟧.faults result ≡ 0 }
        ensures failing { result.failing.items ≡ failing.items }
        ensures piece { result.piece ≡ piece }
        ensures calls { result.calls ≡ 0 }
    {
        MemSource {
            bytes,
            at: 0,
            piece,
            failing,
            calls: 0,
            faults: 0,
        }
    }
}

impl Source for MemSource {
    ghost left = { λ s. Some (drop s.at s.bytes.items) };

    ghost faults = { λ s. s.faults };

    fn read(&mut self, into: &mut [u8]) -> Result<usize, Trouble>
        ensures bound { IfOk result (λ n. n ≤ length into.new) }
        ensures bytes { ReadConsumes (⟦<MemSource as Source>⟧.left self.old) (⟦<MemSource as Source>⟧.left self.new) result into.new }
        ensures cause { HasCause self.old.faults self.new.faults result }
        ensures fails { FailsByList self.old.failing.items self.old.calls self.new.calls result }
        ensures failing { self.new.failing ≡ self.old.failing }
        ensures most { IfOk result (λ n. n ≤ self.old.piece) }
        ensures piece { self.new.piece ≡ self.old.piece }
    {
        self.calls = self.calls.saturating_add(1);
        if self.failing.contains(&self.calls) {
            self.faults = self.faults.saturating_add(1);
            return Err(Trouble::Failed);
        }
        let left = &self.bytes.as_slice()[self.at..];
        let count = give(left, self.piece, into);
        self.at += count;
        Ok(count)
    }
}

// Puts the first bytes into the buffer, at most so many.
fn give(left: &[u8], piece: usize, into: &mut [u8]) -> usize
    requires { 0 < piece }
    ensures left { result ≤ length left.now }
    ensures most { result ≤ piece }
    ensures into { result ≤ length into.new }
    ensures copied { take result into.new ≡ take result left.now }
    ensures none { result ≡ 0 → 0 < length into.new → left.now ≡ [] }
{
    let count = left.len().min(piece).min(into.len());
    into[..count].copy_from_slice(&left[..count]);
    count
}

/// Bytes in memory, given in pieces, without failures.
#[derive(Drop)]
pub struct SureSource {
    bytes: Vec<u8>,
    at: usize,
    piece: usize,
    ghost in_range: { at ≤ vec_len bytes },
    ghost some_piece: { 0 < piece },
}

impl SureSource {
    /// All bytes are left, and a read gives at most `piece` of them.
    pub fn new(bytes: Vec<u8>, piece: usize) -> Self
        requires { 0 < piece }
        ensures left { ⟦<SureSource as Source>⟧.left result ≡ Some bytes.items }
        ensures piece { result.piece ≡ piece }
    {
        SureSource {
            bytes,
            at: 0,
            piece,
        }
    }
}

impl Source for SureSource {
    ghost left = { λ s. Some (drop s.at s.bytes.items) };

    ghost faults = { λ _. 0 };

    fn read(&mut self, into: &mut [u8]) -> Result<usize, Trouble>
        ensures bound { IfOk result (λ n. n ≤ length into.new) }
        ensures bytes { ReadConsumes (⟦<SureSource as Source>⟧.left self.old) (⟦<SureSource as Source>⟧.left self.new) result into.new }
        ensures cause { HasCause 0 0 result }
        ensures most { IfOk result (λ n. n ≤ self.old.piece) }
        ensures piece { self.new.piece ≡ self.old.piece }
    {
        let left = &self.bytes.as_slice()[self.at..];
        let count = give(left, self.piece, into);
        self.at += count;
        Ok(count)
    }
}

/// Bytes written to memory, whose write or flush fails at the calls that are listed.
#[derive(Drop)]
pub struct MemSink {
    bytes: Vec<u8>,
    flushed: usize,
    failing: Vec<u64>,
    calls: u64,
    faults: u64,
}

impl MemSink {
    /// Nothing was written. Calls of `write` and `flush` are counted together, from 1.
    pub fn new(alloc: Global, failing: Vec<u64>) -> Self
        ensures written { ⟦<MemSink as Sink>⟧.written result ≡ Some [] }
        ensures flushed { ⟦<MemSink as Sink>⟧.flushed result ≡ 0 }
        ensures faults { ⟦<MemSink as Sink>⟧.faults result ≡ 0 }
        ensures failing { result.failing.items ≡ failing.items }
        ensures calls { result.calls ≡ 0 }
    {
        MemSink {
            bytes: Vec::new(alloc),
            flushed: 0,
            failing,
            calls: 0,
            faults: 0,
        }
    }

    /// What was written.
    pub fn bytes(&self) -> &[u8]
        ensures { ⟦<MemSink as Sink>⟧.written self.now ≡ Some result.now }
    {
        &self.bytes
    }
}

impl Sink for MemSink {
    ghost written = { λ s. Some s.bytes.items };

    ghost flushed = { λ s. s.flushed };

    ghost faults = { λ s. s.faults };

    fn write(&mut self, piece: &[u8]) -> Result<usize, Trouble>
        ensures bound { IfOk result (λ n. n ≤ length piece.now) }
        ensures progress { IfOk result (λ n. 0 < length piece.now → 0 < n) }
        ensures bytes { WriteAppends (Some self.old.bytes.items) (Some self.new.bytes.items) result piece.now }
        ensures flushed { self.new.flushed ≡ self.old.flushed }
        ensures cause { HasCause self.old.faults self.new.faults result }
        ensures fails { FailsByList self.old.failing.items self.old.calls self.new.calls result }
        ensures failing { self.new.failing ≡ self.old.failing }
    {
        self.calls = self.calls.saturating_add(1);
        if self.failing.contains(&self.calls) {
            self.faults = self.faults.saturating_add(1);
            return Err(Trouble::Failed);
        }
        self.bytes.extend_from_slice(piece)?;
        Ok(piece.len())
    }

    fn flush(&mut self) -> Result<(), Trouble>
        ensures bytes { Keeps (Some self.old.bytes.items) (Some self.new.bytes.items) }
        ensures flushed { OnOk result (IsFlushed (Some self.new.bytes.items) self.new.flushed) }
        ensures err { OnErr result (self.new.flushed ≡ self.old.flushed) }
        ensures cause { HasCause self.old.faults self.new.faults result }
        ensures fails { FailsByList self.old.failing.items self.old.calls self.new.calls result }
        ensures failing { self.new.failing ≡ self.old.failing }
    {
        self.calls = self.calls.saturating_add(1);
        if self.failing.contains(&self.calls) {
            self.faults = self.faults.saturating_add(1);
            return Err(Trouble::Failed);
        }
        self.flushed = self.bytes.len();
        Ok(())
    }
}

/// Bytes written to memory, without failures.
#[derive(Drop)]
pub struct SureSink {
    bytes: Vec<u8>,
    flushed: usize,
}

impl SureSink {
    /// Nothing was written.
    pub fn new(alloc: Global) -> Self
        ensures written { ⟦<SureSink as Sink>⟧.written result ≡ Some [] }
        ensures flushed { ⟦<SureSink as Sink>⟧.flushed result ≡ 0 }
    {
        SureSink {
            bytes: Vec::new(alloc),
            flushed: 0,
        }
    }

    /// What was written.
    pub fn bytes(&self) -> &[u8]
        ensures { ⟦<SureSink as Sink>⟧.written self.now ≡ Some result.now }
    {
        &self.bytes
    }
}

impl Sink for SureSink {
    ghost written = { λ s. Some s.bytes.items };

    ghost flushed = { λ s. s.flushed };

    ghost faults = { λ _. 0 };

    fn write(&mut self, piece: &[u8]) -> Result<usize, Trouble> {
        self.bytes.extend_from_slice(piece)?;
        Ok(piece.len())
    }

    fn flush(&mut self) -> Result<(), Trouble> {
        self.flushed = self.bytes.len();
        Ok(())
    }
}
