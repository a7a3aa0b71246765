// One number for all messages that were sent.
ghost use Rattle.std.specs.Prelude.{◌≡◌, IfOk, OnErr, OnOk};
ghost use Rattle.std.specs.List.{fold};
ghost use Rattle.fc_msg.specs.Messages.{canonical};
ghost use Rattle.fc_world.specs.Stages.{all_parcels, parcels_of};
ghost use Rattle.fc_world.specs.Trails as spec;

use crate::sent::{Batch, Outs};
use fc_base::Memory;
use fc_element::Out;
use fc_master::CeOut;
use fc_msg::{Encoder, Message};
use std::alloc::Global;

// The trail behind one more byte.
fn trodden(trail: u32, byte: u8) -> u32
    ensures { result ≡ spec.trodden trail byte }
{
    trail.wrapping_mul(31).wrapping_add(u32::from(byte))
}

// The trail behind these bytes.
fn behind(trail: u32, bytes: &[u8]) -> u32
    ensures { result ≡ fold spec.trodden trail bytes.now }
{
    let mut trail = trail;
    for byte in bytes {
        trail = trodden(trail, *byte);
    }
    trail
}

/// A walk over messages: the trail so far, and the room in which each is spelled.
#[derive(Drop)]
pub struct Walk {
    encoder: Encoder,
    bytes: Vec<u8>,
    pub trail: u32,
}

impl Walk {
    /// A walk before its first message.
    pub fn new(alloc: Global) -> Walk
        ensures { result.trail ≡ 0 }
    {
        Walk {
            encoder: Encoder::new(alloc),
            bytes: Vec::new(alloc),
            trail: 0,
        }
    }

    /// Past one more message. After an `Err` the trail is as it was.
    pub fn pass(&mut self, message: &Message) -> Result<(), Memory>
        ensures ok { OnOk result (self.new.trail ≡ fold spec.trodden self.old.trail (canonical message.now)) }
        ensures err { OnErr result (self.new.trail ≡ self.old.trail) }
    {
        self.bytes.clear();
        match self.encoder.encode(message, &mut self.bytes) {
            Ok(()) => {}
            Err(_) => return Err(Memory),
        }
        self.trail = behind(self.trail, self.bytes.as_slice());
        Ok(())
    }

    fn pass_outs(&mut self, outs: &[Out]) -> Result<(), Memory>
        ensures { OnOk result (self.new.trail ≡ fold spec.past_out self.old.trail outs.now) }
    {
        for out in outs {
            self.pass(&out.message)?;
        }
        Ok(())
    }

    fn pass_ce_outs(&mut self, outs: &[CeOut]) -> Result<(), Memory>
        ensures { OnOk result (self.new.trail ≡ fold spec.past_ce_out self.old.trail outs.now) }
    {
        for out in outs {
            self.pass(&out.message)?;
        }
        Ok(())
    }

    // Past one more batch.
    fn pass_batch(&mut self, batch: &Batch) -> Result<(), Memory>
        ensures { OnOk result (self.new.trail ≡ fold spec.past self.old.trail (parcels_of batch.now)) }
    {
        match &batch.outs {
            Outs::OfElement(_, outs) => self.pass_outs(outs.as_slice()),
            Outs::OfController(_, outs) => self.pass_ce_outs(outs.as_slice()),
        }
    }
}

/// The trail of these messages.
pub fn trail_of(alloc: Global, batches: &[Batch]) -> Result<u32, Memory>
    ensures { IfOk result (λ trail. trail ≡ spec.trail_of (all_parcels batches.now)) }
{
    let mut walk = Walk::new(alloc);
    for batch in batches {
        walk.pass_batch(batch)?;
    }
    Ok(walk.trail)
}
