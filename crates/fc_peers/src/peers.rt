// The peers that are open, which contracts see as a finite map.
ghost use Rattle.std.specs.Prelude.{◌≡◌, false, [], OnOk, OnErr, IfSome, IfNone};
ghost use Rattle.std.specs.FinMap.{contains_key, empty, get, insert, len, remove};

use fc_base::Memory;
use fc_msg::Splitter;
use std::alloc::Global;
use std::collections::BTreeMap;
use std::marker::Model;

/// The peers that are open, each with the bytes that came from it and were not taken.
#[derive(Drop)]
pub struct Peers {
    // by the numbers of their byte carriers
    splitters: BTreeMap<u32, Splitter>,
}

impl Model for Peers {
    ghost use Rattle.fc_peers.specs.OpenPeers.{PeerMap, peer_map_code, peers_of};

    ghost Value = { PeerMap };

    ghost coded = { peer_map_code };

    ghost view = { λ s. peers_of s.splitters.entries };
}

impl Peers {
    /// No peer is open. It takes no memory.
    pub fn new(alloc: Global) -> Peers
        ensures { result ≡ empty }
    {
        Peers {
            splitters: BTreeMap::new(alloc),
        }
    }

    /// How many peers are open.
    pub fn len(&self) -> usize
        ensures { result ≡ len self.now }
    {
        self.splitters.len()
    }

    /// Opens a peer of which nothing came yet, in the place of what is left of it if it is open. After an `Err` nothing has
    /// changed.
    pub fn open(&mut self, alloc: Global, peer: u32) -> Result<(), Memory>
        ensures ok { OnOk result (self.new ≡ insert self.old peer []) }
        ensures err { OnErr result (self.new ≡ self.old) }
    {
        match self.splitters.insert(peer, Splitter::new(alloc)) {
            Ok(_) => Ok(()),
            Err(_) => Err(Memory),
        }
    }

    /// Puts other bytes in the place of those that are left of a peer, and gives these, if it is open.
    pub fn put(&mut self, peer: u32, splitter: Splitter) -> Option<Splitter>
        ensures left { result ≡ get self.old peer }
        ensures some { IfSome result (λ _. self.new ≡ insert self.old peer splitter) }
        ensures none { IfNone result (self.new ≡ self.old) }
    {
        let Some(left) = self.splitters.get_mut(&peer) else {
            return None;
        };
        Some(std::mem::replace(left, splitter))
    }

    /// Closes a peer, and says whether it was open.
    pub fn close(&mut self, peer: u32) -> bool
        ensures open { result ≡ contains_key self.old peer }
        ensures others { self.new ≡ remove self.old peer }
        ensures none { result ≡ false → self.new ≡ self.old }
    {
        self.splitters.remove(&peer).is_some()
    }
}
