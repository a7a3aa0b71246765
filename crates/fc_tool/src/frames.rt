// Goes over the whole frames at the front of bytes, and gathers their texts.
ghost use Rattle.std.specs.Prelude.{◌≡◌, ◌≤◌, ◌<◌, ◌++◌, List, None, Some, length, take, drop, IfSome, IfOk};
ghost use Rattle.fc_wire.specs.Frames.{frame_len, IsPartial};
ghost use Rattle.fc_msg.specs.Faults.{fault_of};
ghost use Rattle.fc_msg.specs.Messages.{Spells};
ghost use Rattle.fc_msg.specs.declared.message.Message.{Message as Spelled};
ghost use Rattle.fc_text.specs.Text.{message_text};
ghost use Rattle.fc_tool.specs.Show.{Reaches, text_of};

use fc_base::Memory;
use fc_msg::{MsgFault, Refusal, whole_frame};
use fc_showing::show_bytes;

/// How far the frames of some bytes were shown, and why no further: a frame is refused, or not whole.
#[derive(Clone, Copy, Debug, PartialEq, Eq)]
pub struct Cut {
    pub taken: usize,
    pub refused: Option<Refusal>,
}

/// Appends the text of each whole frame, up to the first that is refused. After an `Err` some of the texts were appended.
pub fn push_frames(bytes: &[u8], text: &mut Vec<u8>) -> Result<Cut, Memory>
    ensures taken { IfOk result (λ cut. cut.taken ≤ length bytes.now) }
    ensures shown { IfOk result (λ cut. (ms : List Spelled) × Reaches bytes.now ms (drop cut.taken bytes.now) × (text.new.items ≡ text.old.items ++ text_of ms)) }
    ensures partial { IfOk result (λ cut. cut.refused ≡ None → IsPartial (drop cut.taken bytes.now)) }
    ensures few { IfOk result (λ cut. cut.refused ≡ None → length (drop cut.taken bytes.now) < 262144) }
    ensures whole { IfOk result (λ cut. IfSome cut.refused (λ _. frame_len (drop cut.taken bytes.now) ≤ length (drop cut.taken bytes.now))) }
    ensures refused { IfOk result (λ cut. IfSome cut.refused (λ fault. fault_of (take (frame_len (drop cut.taken bytes.now)) (drop cut.taken bytes.now)) ≡ Some fault)) }
    ensures within { IfOk result (λ cut. IfSome cut.refused (λ fault. fault.place ≤ length (drop cut.taken bytes.now))) }
{
    let mut at = 0usize;
    'frames: while let Some(size) = whole_frame(&bytes[at..]) {
        let refused = push_frame(&bytes[at..at + size], text)?;
        if refused.is_some() {
            return Ok(Cut { taken: at, refused });
        }
        at += size;
    }
    Ok(Cut {
        taken: at,
        refused: None,
    })
}

// Appends the text of the message that a frame spells, or tells why it spells none.
fn push_frame(frame: &[u8], text: &mut Vec<u8>) -> Result<Option<Refusal>, Memory>
    ensures shown { IfOk result (λ refused. refused ≡ None → (m : Spelled) × Spells m frame.now × (text.new.items ≡ text.old.items ++ message_text m)) }
    ensures refused { IfOk result (λ refused. IfSome refused (λ fault. (fault_of frame.now ≡ Some fault) × (text.new.items ≡ text.old.items))) }
    ensures within { IfOk result (λ refused. IfSome refused (λ fault. fault.place ≤ length frame.now)) }
{
    match show_bytes(frame, text) {
        Ok(()) => Ok(None),
        Err(MsgFault::At(refusal)) => Ok(Some(refusal)),
        Err(MsgFault::Memory) => Err(Memory),
    }
}
