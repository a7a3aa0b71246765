// The trail of a world, taken along as more is sent.
ghost use Rattle.std.specs.Prelude.{◌≡◌, IfOk, OnErr, OnOk, is_some, slice_get};
ghost use Rattle.fc_world.specs.Played.{world_of};
ghost use Rattle.fc_world.specs.Trails.{behind_next, gone_on, no_trail};

use crate::trailing::Walk;
use crate::world::World;
use fc_base::Memory;
use std::alloc::Global;
use std::marker::Model;

/// The trail of the first messages of a world, which can go on as more are sent: each message is then looked at once, soon after it was sent.
/// Contracts see of how many messages it is, and the number that these make.
#[derive(Drop)]
pub struct Trail {
    walk: Walk,
    count: usize,
}

impl Model for Trail {
    ghost use Rattle.fc_world.specs.Trails.{TrailSoFar};

    ghost Value = { TrailSoFar };

    ghost view = { λ t. record { count = t.count; number = t.walk.trail } };
}

impl Trail {
    /// The trail of no message, whose number is 0.
    pub fn new(alloc: Global) -> Trail
        ensures { result ≡ no_trail }
    {
        Trail {
            walk: Walk::new(alloc),
            count: 0,
        }
    }

    // Past the next message of a world, and whether there was one. After an `Err` nothing has changed.
    fn pass_next(&mut self, world: &World) -> Result<bool, Memory>
        ensures told { IfOk result (λ passed. passed ≡ is_some (slice_get (world_of world.now).sent self.old.count)) }
        ensures ok { OnOk result (self.new ≡ behind_next (slice_get (world_of world.now).sent self.old.count) self.old) }
        ensures err { OnErr result (self.new ≡ self.old) }
    {
        // No memory holds more messages than can be counted.
        let Some(number) = self.count.checked_add(1) else {
            return Err(Memory);
        };
        match world.message(number) {
            None => Ok(false),
            Some(message) => {
                self.walk.pass(message)?;
                self.count = number;
                Ok(true)
            }
        }
    }

    /// Goes on past all messages of a world that stand behind those it is of. After an `Err` it has gone past some of these, in their order,
    /// and can go on from there.
    pub fn go_on(&mut self, world: &World) -> Result<(), Memory>
        ensures ok { OnOk result (self.new ≡ gone_on (world_of world.now).sent self.old) }
        ensures err { OnErr result (gone_on (world_of world.now).sent self.new ≡ gone_on (world_of world.now).sent self.old) }
    {
        while self.pass_next(world)? {}
        Ok(())
    }

    /// The number that the messages make, as `World::trail` tells it of all.
    pub fn number(&self) -> u32
        ensures { result ≡ self.now.number }
    {
        self.walk.trail
    }
}
