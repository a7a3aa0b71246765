// The associations of an element, which contracts see as a finite map.
ghost use Rattle.std.specs.Prelude.{◌≡◌, ◌<◌, ◌≤◌, ℕ, IfOk, OnOk, OnErr, slice_get, option_map, length, drop};
ghost use Rattle.std.specs.FinMap.{empty, contains_key, get, remove, len, entries};
ghost use Rattle.fc_assoc.specs.Associations.{takes_in, entered, renewed, silent, still_heard};
ghost use Rattle.fc_assoc.specs.Places.{IsPlace};

use crate::Heard;
use crate::silence::{ended, keep_heard};
use fc_base::{CeId, Duplicate, List, Memory};
use std::alloc::Global;
use std::marker::Model;

/// The associations of a forwarding element: a finite map from the ID of a control element to when it was last heard
/// and over which peer. At most 64 stand at once.
#[derive(Debug, Drop)]
pub struct Associations {
    // by rising ID
    pairs: Vec<(CeId, Heard)>,
}

impl Model for Associations {
    ghost use Rattle.std.specs.Prelude.{◌≤◌, length};
    ghost use Rattle.std.specs.Bool.{IsTrue};
    ghost use Rattle.std.specs.Ordering.{nat_cmp};
    ghost use Rattle.std.specs.FinMap.{from_sorted, is_sorted};
    ghost use Rattle.fc_assoc.specs.Associations.{AssociationMap, association_map_code};

    ghost Value = { AssociationMap };

    ghost coded = { association_map_code };

    ghost view = { λ s. from_sorted s.pairs.items };

    ghost invariant = { λ s. IsTrue (is_sorted nat_cmp s.pairs.items) × (length s.pairs.items ≤ 64) };
}

impl Duplicate for Associations {
    fn copy(&self) -> Result<Self, Memory> {
        let pairs = Vec::from_slice(*self.pairs.allocator(), self.pairs.as_slice())?;
        Ok(Associations { pairs })
    }
}

impl Associations {
    /// The most associations that stand at once.
    pub const MOST: usize = 64;

    /// No association, which takes no memory.
    pub fn new(alloc: Global) -> Associations
        ensures { result ≡ empty }
    {
        Associations {
            pairs: Vec::new(alloc),
        }
    }

    /// How many associations stand.
    pub fn len(&self) -> usize
        ensures same { result ≡ len self.now }
        ensures few { result ≤ 64 }
    {
        self.pairs.len()
    }

    /// A control element has accepted an association at this moment over this peer: enters or renews it. False exactly
    /// where the control element is new and 64 associations stand; then, and after an `Err`, nothing has changed.
    pub fn setup_answer(&mut self, ce: CeId, peer: u32, now: u64) -> Result<bool, Memory>
        ensures answer { IfOk result (λ taken. taken ≡ takes_in self.old ce) }
        ensures ok { OnOk result (self.new ≡ entered self.old ce peer now) }
        ensures err { OnErr result (self.new ≡ self.old) }
    {
        let heard = Heard { last: now, peer };
        match place_of(self.pairs.as_slice(), ce) {
            Ok(place) => {
                self.pairs[place] = (ce, heard);
                Ok(true)
            }
            Err(_) if self.pairs.len() >= Associations::MOST => Ok(false),
            Err(place) => {
                self.pairs.insert(place, (ce, heard))?;
                Ok(true)
            }
        }
    }

    /// A control element was heard at this moment over this peer: renews its association. False exactly where it has
    /// none, and then nothing has changed. It takes no memory.
    pub fn heard(&mut self, ce: CeId, peer: u32, now: u64) -> bool
        ensures answer { result ≡ contains_key self.old ce }
        ensures after { self.new ≡ renewed self.old ce peer now }
    {
        match place_of(self.pairs.as_slice(), ce) {
            Ok(place) => {
                self.pairs[place] = (ce, Heard { last: now, peer });
                true
            }
            Err(_) => false,
        }
    }

    /// Ends the association of a control element. False exactly where it has none, and then nothing has changed. It
    /// takes no memory.
    pub fn teardown(&mut self, ce: CeId) -> bool
        ensures answer { result ≡ contains_key self.old ce }
        ensures after { self.new ≡ remove self.old ce }
    {
        match place_of(self.pairs.as_slice(), ce) {
            Ok(place) => {
                self.pairs.remove(place);
                true
            }
            Err(_) => false,
        }
    }

    /// Ends the associations that were last heard more than `dead` milliseconds before now, and gives their control
    /// elements by rising ID. After an `Err` nothing has changed.
    pub fn moment(&mut self, now: u64, dead: u32) -> Result<List<CeId>, Memory>
        ensures ended { IfOk result (λ ids. ids ≡ silent self.old now dead) }
        ensures ok { OnOk result (self.new ≡ still_heard self.old now dead) }
        ensures err { OnErr result (self.new ≡ self.old) }
    {
        let alloc = *self.pairs.allocator();
        let ids = ended(alloc, self.pairs.as_slice(), now, dead)?;
        keep_heard(&mut self.pairs, now, dead);
        Ok(ids)
    }

    /// The peer of a control element's association; none exactly where it has none.
    pub fn peer_of(&self, ce: CeId) -> Option<u32>
        ensures { result ≡ option_map (λ heard. heard.peer) (get self.now ce) }
    {
        match place_of(self.pairs.as_slice(), ce) {
            Ok(place) => Some(self.pairs[place].1.peer),
            Err(_) => None,
        }
    }

    /// The control element and the peer of the association at a place, counted from 0 by rising ID; none exactly where
    /// no more than so many associations stand.
    pub fn entry(&self, place: usize) -> Option<(CeId, u32)>
        ensures { result ≡ option_map (λ pair. (pair.0, pair.1.peer)) (slice_get (entries self.now) place) }
    {
        match pair_at(self.pairs.as_slice(), place) {
            Some(pair) => Some((pair.0, pair.1.peer)),
            None => None,
        }
    }
}

// The pair at a place, if there is one.
fn pair_at(pairs: &[(CeId, Heard)], place: usize) -> Option<(CeId, Heard)>
    ensures { result ≡ slice_get pairs.now place }
{
    pairs.get(place).copied()
}

// Where the pair of a control element stands among pairs that rise, or else where it belongs.
fn place_of(pairs: &[(CeId, Heard)], ce: CeId) -> Result<usize, usize>
    ensures { IsPlace pairs.now ce result }
{
    for (place, pair) in pairs.iter().enumerate() {
        if pair.0 == ce {
            return Ok(place);
        }
        if pair.0.get() > ce.get() {
            return Err(place);
        }
    }
    Err(pairs.len())
}
