// A large run of four transactions, the last of which is given up.
use crate::network::message;
use crate::steps::played;
use fc_generated::generated;
use fc_world::World;
use std::alloc::Global;
use std::test::Fail;

// How many messages are sent, and the trail of all their bytes.
const SENT: usize = 288;

const TRAIL: u32 = 0x22D4_9A36;

// The world of the run after its last step.
fn run(alloc: Global) -> Result<World, Fail> {
    let script = generated(alloc, 4).ok().ok_or("memory")?;
    played(alloc, &script)
}

// The trail behind the bytes of one more message.
fn past(trail: u32, bytes: &[u8]) -> u32 {
    let mut trail = trail;
    for byte in bytes {
        trail = trail.wrapping_mul(31).wrapping_add(u32::from(*byte));
    }
    trail
}

// The trail of all messages, one after the other.
fn folded(alloc: Global, world: &World) -> Result<u32, Fail> {
    let mut trail = 0;
    for place in 0..SENT {
        let bytes = message(alloc, world, place + 1)?;
        trail = past(trail, bytes.as_slice());
    }
    Ok(trail)
}

#[test]
fn the_trail_is_that_of_all_bytes(rt: HostRuntime) -> Result<(), Fail> {
    let alloc = rt.alloc();
    let world = run(alloc)?;
    assert_eq!(rt; world.sent(), SENT);
    assert_eq!(rt; folded(alloc, &world)?, TRAIL);
    assert_eq!(rt; world.trail().ok(), Some(TRAIL));
    Ok(())
}
