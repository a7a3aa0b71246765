// Cuts a stream of bytes into frames, in whatever pieces it comes.
ghost use Rattle.std.specs.Prelude.{◌≡◌, ◌≤◌, ◌<◌, ◌+◌, ◌^◌, [], ℕ, List, ◌++◌, length, take, drop, vec_len, IfSome, IfNone, IfOk, OnOk, OnErr};
ghost use Rattle.std.specs.Io.KnownBytes.{Consumes, Keeps, IsAtEnd};
ghost use Rattle.fc_base.specs.Causes.{HasCause};
ghost use Rattle.fc_wire.specs.Frames.{frame_len, IsPartial, without_first};

use fc_base::{Memory, Source, Trouble};
use std::alloc::Global;
use std::marker::Model;

/// The bytes of a stream that were fed and not taken yet, which contracts see as that list. A frame has four times as
/// many bytes as the words that stand in its bytes 2 and 3, and 24 at least (RFC 5810, section 6.1).
#[derive(Drop)]
pub struct Splitter {
    bytes: Vec<u8>,
    taken: usize,
}

impl Model for Splitter {
    ghost use Rattle.std.specs.Prelude.{◌≤◌, List, ℕ, drop, vec_len};

    ghost Value = { List ℕ };

    ghost view = { λ s. drop s.taken s.bytes.items };

    ghost invariant = { λ s. s.taken ≤ vec_len s.bytes };
}

impl Splitter {
    ghost use Rattle.std.specs.Borrow.{sem};
    ghost use Rattle.fc_msg.specs.Lending.{EndsAs};

    /// Nothing was fed. It takes no memory.
    pub fn new(alloc: Global) -> Self
        ensures { result ≡ [] }
    {
        Splitter {
            bytes: Vec::new(alloc),
            taken: 0,
        }
    }

    /// Feeds the next piece of the stream. After an `Err` nothing has changed.
    pub fn feed(&mut self, piece: &[u8]) -> Result<(), Memory>
        ensures ok { OnOk result (self.new ≡ self.old ++ piece.now) }
        ensures err { OnErr result (self.new ≡ self.old) }
    {
        self.bytes.drain(..self.taken);
        self.taken = 0;
        self.bytes.extend_from_slice(piece)?;
        Ok(())
    }

    /// Reads the next piece of the stream, at most so many bytes, and feeds it. Zero says that the stream has ended.
    /// After an `Err` nothing has changed.
    pub fn feed_from<S: Source>(&mut self, input: &mut S, most: usize) -> Result<usize, Trouble>
        requires some { 0 < most }
        requires room { length self.old + most < 2 ^ 62 }
        ensures fed { IfOk result (λ n. (piece : List ℕ) × (self.new ≡ self.old ++ piece) × (length piece ≡ n) × (n ≤ most)
            × Consumes (S.left input.old) (S.left input.new) piece × (n ≡ 0 → IsAtEnd (S.left input.new))) }
        ensures err { OnErr result ((self.new ≡ self.old) × Keeps (S.left input.old) (S.left input.new)) }
        ensures cause { HasCause (S.faults input.old) (S.faults input.new) result }
    {
        self.bytes.drain(..self.taken);
        self.taken = 0;
        read_behind(&mut self.bytes, input, most)
    }

    /// Takes the first frame, or gives `None` where no whole frame stands.
    pub fn next(&mut self) -> Option<&[u8]>
        ensures* after { sem 𝓛 (EndsAs self.entry (without_first self.old)) }
        ensures frame { IfSome result (λ frame. frame.now ≡ take (frame_len self.old) self.old) }
        ensures whole { IfSome result (λ _. frame_len self.old ≤ length self.old) }
        ensures none { IfNone result (IsPartial self.old) }
    {
        let from = self.taken;
        let length = whole_frame(&self.bytes.as_slice()[from..])?;
        self.taken += length;
        Some(&self.bytes.as_slice()[from..from + length])
    }

    /// Takes so many bytes from the front.
    pub fn take(&mut self, count: usize)
        requires { count ≤ length self.old }
        ensures { self.new ≡ drop count self.old }
    {
        self.taken += count;
    }

    /// What was fed and not taken.
    #[inline(always)]
    pub fn rest(&self) -> &[u8]
        ensures { result.now ≡ self.now }
    {
        &self.bytes.as_slice()[self.taken..]
    }
}

/// Reads the next piece of a source, at most so many bytes, and appends it. Zero says that the source has ended. After an
/// `Err` nothing has changed.
pub fn read_behind<S: Source>(
    bytes: &mut Vec<u8>,
    input: &mut S,
    most: usize,
) -> Result<usize, Trouble>
    requires some { 0 < most }
    requires room { vec_len bytes.old + most < 2 ^ 62 }
    ensures fed { IfOk result (λ n. (piece : List ℕ) × (bytes.new.items ≡ bytes.old.items ++ piece) × (length piece ≡ n) × (n ≤ most)
        × Consumes (S.left input.old) (S.left input.new) piece × (n ≡ 0 → IsAtEnd (S.left input.new))) }
    ensures err { OnErr result ((bytes.new.items ≡ bytes.old.items) × Keeps (S.left input.old) (S.left input.new)) }
    ensures cause { HasCause (S.faults input.old) (S.faults input.new) result }
{
    let held = bytes.len();
    bytes.resize(held + most, 0)?;
    match input.read(&mut bytes[held..]) {
        Ok(given) => {
            bytes.truncate(held + given);
            Ok(given)
        }
        Err(trouble) => {
            bytes.truncate(held);
            Err(trouble)
        }
    }
}

/// How many bytes the frame has that stands whole at the front of the bytes, or `None` where none does: four times the words
/// in its bytes 2 and 3, and 24 at least (RFC 5810, section 6.1).
#[inline(always)]
pub fn whole_frame(bytes: &[u8]) -> Option<usize>
    ensures length { IfSome result (λ n. n ≡ frame_len bytes.now) }
    ensures whole { IfSome result (λ n. n ≤ length bytes.now) }
    ensures none { IfNone result (IsPartial bytes.now) }
    ensures few { IfNone result (length bytes.now < 262144) }
{
    if bytes.len() < 4 {
        return None;
    }
    let words = usize::from(bytes[2]) * 256 + usize::from(bytes[3]);
    let length = 4 * words.max(6);
    if bytes.len() < length {
        return None;
    }
    Some(length)
}
