// The acts of a node on its hub.
ghost use Rattle.std.specs.Prelude.{◌≡◌, [], ◌∷◌, OnOk, OnErr, IfErr};
ghost use Rattle.fc_hub.specs.declared.event.Act.TheVariants.{Sent, Shut};
ghost use Rattle.fc_peers.specs.Acting.{Acts, ActsUntil, HubCount, sending};

use fc_base::{Memory, Trouble, WriteFault};
use fc_hub::Hub;
use fc_msg::{Message, encode};
use std::alloc::Global;

/// Why a node stopped.
#[derive(Clone, Copy, Debug, PartialEq, Eq)]
pub enum NodeStop {
    /// The hub failed.
    HubFault,
    /// Out of memory.
    NoMemory,
}

impl From<Memory> for NodeStop {
    ghost use Rattle.fc_peers.specs.declared.acting.NodeStop.TheVariants.{NoMemory};

    ghost from_gives = { λ _ e. e ≡ NoMemory };

    fn from(_: Memory) -> Self {
        NodeStop::NoMemory
    }
}

/// Closes a peer. After an `Err` nothing was done.
pub fn shut<H: Hub>(hub: &mut H, peer: u32) -> Result<(), NodeStop>
    ensures ok { OnOk result (Acts (H.held hub.old) (H.held hub.new) (Shut peer ∷ [])) }
    ensures err { OnErr result (H.held hub.new ≡ H.held hub.old) }
    ensures count { HubCount result (H.faults hub.old) (H.faults hub.new) }
{
    match hub.close(peer) {
        Ok(()) => Ok(()),
        Err(Trouble::Failed) => Err(NodeStop::HubFault),
        Err(Trouble::Memory) => Err(NodeStop::NoMemory),
    }
}

// Sends bytes to a peer. After an `Err` nothing was done.
fn send_bytes<H: Hub>(hub: &mut H, peer: u32, bytes: &[u8]) -> Result<(), NodeStop>
    ensures ok { OnOk result (Acts (H.held hub.old) (H.held hub.new) (Sent peer bytes.now ∷ [])) }
    ensures err { OnErr result (H.held hub.new ≡ H.held hub.old) }
    ensures count { HubCount result (H.faults hub.old) (H.faults hub.new) }
{
    match hub.send(peer, bytes) {
        Ok(()) => Ok(()),
        Err(Trouble::Failed) => Err(NodeStop::HubFault),
        Err(Trouble::Memory) => Err(NodeStop::NoMemory),
    }
}

/// Sends a message to a peer, where it passes no length field. After an `Err` nothing was done.
pub fn send<H: Hub>(
    alloc: Global,
    hub: &mut H,
    peer: u32,
    message: &Message,
) -> Result<(), NodeStop>
    ensures ok { OnOk result (Acts (H.held hub.old) (H.held hub.new) (sending peer message.now)) }
    ensures err { IfErr result (λ stop. ActsUntil stop (H.held hub.old) (H.held hub.new) (sending peer message.now)) }
    ensures count { HubCount result (H.faults hub.old) (H.faults hub.new) }
{
    let mut bytes = Vec::new(alloc);
    match encode(message, &mut bytes) {
        Ok(()) => send_bytes(hub, peer, bytes.as_slice()),
        Err(WriteFault::TooLong) => Ok(()),
        Err(WriteFault::Memory) => Err(NodeStop::NoMemory),
    }
}
