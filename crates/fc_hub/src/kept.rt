// What is kept for a peer until it takes it.
ghost use Rattle.std.specs.Prelude.{◌≡◌, ◌≤◌, [], ◌++◌, length, drop, OnOk, OnErr};

use fc_base::Memory;
use std::alloc::Global;
use std::marker::Model;

// How many bytes that have gone may stand in front of those that are kept, before these are moved.
const SPENT: usize = 262_144;
// How much room is held where nothing is kept.
const HELD: usize = 65_536;

/// Bytes in the order in which they are to go.
#[derive(Drop)]
pub(crate) struct Kept {
    bytes: Vec<u8>,
    gone: usize,
}

impl Model for Kept {
    ghost use Rattle.std.specs.Prelude.{◌≤◌, List, ℕ, drop, vec_len};

    ghost Value = { List ℕ };

    ghost view = { λ s. drop s.gone s.bytes.items };

    ghost invariant = { λ s. s.gone ≤ vec_len s.bytes };
}

impl Kept {
    /// Nothing is kept.
    pub(crate) fn new(alloc: Global) -> Self
        ensures { result ≡ [] }
    {
        Kept {
            bytes: Vec::new(alloc),
            gone: 0,
        }
    }

    /// What is kept.
    pub(crate) fn rest(&self) -> &[u8]
        ensures { result.now ≡ self.now }
    {
        &self.bytes.as_slice()[self.gone..]
    }

    /// How many bytes are kept.
    pub(crate) fn len(&self) -> usize
        ensures { result ≡ length self.now }
    {
        self.rest().len()
    }

    /// Whether nothing is kept.
    pub(crate) fn is_empty(&self) -> bool {
        self.len() == 0
    }

    /// Keeps bytes behind the others. After an `Err` nothing has changed.
    pub(crate) fn push(&mut self, bytes: &[u8]) -> Result<(), Memory>
        ensures ok { OnOk result (self.new ≡ self.old ++ bytes.now) }
        ensures err { OnErr result (self.new ≡ self.old) }
    {
        self.tidy();
        self.bytes.extend_from_slice(bytes)?;
        Ok(())
    }

    // Moves what is kept to the front, where much has gone.
    fn tidy(&mut self)
        ensures { self.new ≡ self.old }
    {
        if self.gone >= SPENT {
            self.bytes.drain(..self.gone);
            self.gone = 0;
        }
    }

    /// So many bytes have gone from the front.
    pub(crate) fn take(&mut self, count: usize)
        requires { count ≤ length self.old }
        ensures { self.new ≡ drop count self.old }
    {
        self.gone += count;
    }

    /// Keeps nothing, and little room.
    pub(crate) fn clear(&mut self)
        ensures { self.new ≡ [] }
    {
        if self.bytes.capacity() > HELD {
            self.bytes = Vec::new(*self.bytes.allocator());
        }
        self.bytes.clear();
        self.gone = 0;
    }
}
