// The frames of a peer as messages.
ghost use Rattle.std.specs.Prelude.{◌≡◌, IfOk};
ghost use Rattle.fc_wire.specs.Frames.{without_first};
ghost use Rattle.fc_peers.specs.Nexts.{IsNextOf, IsProperNext};

use fc_base::Memory;
use fc_msg::{Message, MsgFault, Splitter, decode};
use std::alloc::Global;

/// What stands first among the bytes of a peer.
#[derive(Debug, PartialEq, Eq, Drop)]
pub enum Next {
    /// Less than a frame.
    Nothing,
    /// A message.
    Arrived(Message),
    /// A frame that is no message.
    NoMessage,
}

/// Takes the first frame, and gives the message that it spells.
pub fn next_message(alloc: Global, splitter: &mut Splitter) -> Result<Next, Memory>
    ensures next { IfOk result (λ next. IsNextOf splitter.old next) }
    ensures left { splitter.new ≡ without_first splitter.old }
    ensures proper { IfOk result IsProperNext }
{
    let Some(frame) = splitter.next() else {
        return Ok(Next::Nothing);
    };
    match decode(alloc, frame) {
        Ok(message) => Ok(Next::Arrived(message)),
        Err(MsgFault::At(_)) => Ok(Next::NoMessage),
        Err(MsgFault::Memory) => Err(Memory),
    }
}
