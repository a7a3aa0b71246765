// A small map that goes back by copies: the plainest thing that runs operations.
ghost use Rattle.std.specs.Prelude.{◌≡◌, ◌≢◌, [], ◌∷◌, ℕ, List, not, length, reverse, IfOk};
ghost use Rattle.std.specs.List.{filter, list_any};
ghost use Rattle.fc_modes.specs.Entries.{has_key, without_key, entry_effect, refused_keeps};

use crate::Runner;
use fc_base::{Code, List, Memory};
use std::alloc::Global;

/// An operation on a map from numbers to numbers.
#[derive(Clone, Copy, Debug, PartialEq, Eq)]
pub enum EntryOp {
    /// Enters this key with this value; refused where the key is there.
    Create(u32, u32),
    /// Takes this key out; refused where it is not there.
    Delete(u32),
}

/// A map from numbers to numbers, whose marks are copies of it.
#[derive(Drop)]
pub struct CopyingMap {
    entries: Vec<(u32, u32)>,
    copies: Vec<List<(u32, u32)>>,
}

/// A mark of such a map.
#[derive(Drop)]
pub struct CopyMark {
    below: usize,
}

impl CopyingMap {
    /// No entry, and no mark, which takes no memory.
    pub fn new(alloc: Global) -> Self
        ensures state { ⟦<CopyingMap as Runner>⟧.state result ≡ [] }
        ensures marks { ⟦<CopyingMap as Runner>⟧.marked result ≡ [] }
    {
        CopyingMap {
            entries: Vec::new(alloc),
            copies: Vec::new(alloc),
        }
    }

    /// The keys with their values, in the order in which they were entered.
    pub fn entries(&self) -> &[(u32, u32)]
        ensures { result.now ≡ ⟦<CopyingMap as Runner>⟧.state self.now }
    {
        &self.entries
    }

    /// How many marks stand.
    pub fn marks(&self) -> usize
        ensures { result ≡ length (⟦<CopyingMap as Runner>⟧.marked self.now) }
    {
        self.copies.len()
    }

    fn has(&self, key: u32) -> bool
        ensures { result ≡ has_key key self.now.entries.items }
    {
        self.entries.iter().any(|entry| entry.0 == key)
    }
}

impl Runner for CopyingMap {
    type Op = EntryOp;

    type Mark = CopyMark;

    ghost State = { List (ℕ × ℕ) };

    ghost state = { λ s. s.entries.items };

    ghost marked = { λ s. reverse s.copies.items };

    ghost below = { λ mark. mark.below };

    ghost effect = { entry_effect };

    fn mark(&mut self) -> Result<CopyMark, Memory> {
        let alloc = *self.entries.allocator();
        let copy = List::from_slice(alloc, self.entries.as_slice())?;
        let below = self.copies.len();
        self.copies.push(copy)?;
        Ok(CopyMark { below })
    }

    fn apply(&mut self, op: &EntryOp) -> Result<Code, Memory> {
        match *op {
            EntryOp::Create(key, _) if self.has(key) => Ok(Code::EXISTS),
            EntryOp::Create(key, value) => {
                self.entries.push((key, value))?;
                Ok(Code::SUCCESS)
            }
            EntryOp::Delete(key) if self.has(key) => {
                take_out(&mut self.entries, key);
                Ok(Code::SUCCESS)
            }
            EntryOp::Delete(_) => Ok(Code::NOT_FOUND),
        }
    }

    fn rollback(&mut self, _mark: CopyMark) {
        if let Some(copy) = self.copies.pop() {
            self.entries = copy.into_vec();
        }
    }

    fn release(&mut self, _mark: CopyMark) {
        self.copies.pop();
    }

    ghost refused = { refused_keeps };
}

// Takes the entries with this key out; the others keep their order.
fn take_out(entries: &mut Vec<(u32, u32)>, key: u32)
    ensures { entries.new.items ≡ without_key key entries.old.items }
{
    entries.retain(|entry| entry.0 != key);
}
