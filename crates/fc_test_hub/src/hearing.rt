// What a hub tells next, and what comes over the other end of its connections.
use crate::wanted::equal;
use fc_hub::{Hub, HubEvent};
use std::io::Read;
use std::test::Fail;

// The moment that the hub tells next.
pub(crate) fn moment<H: Hub>(hub: &mut H) -> Result<u64, Fail> {
    match hub.next()? {
        HubEvent::Moment(now) => Ok(now),
        _ => Err(Fail::from("no moment")),
    }
}

// The next event that is no moment.
fn event<H: Hub>(hub: &mut H) -> Result<HubEvent, Fail> {
    for _ in 0..100u32 {
        match hub.next()? {
            HubEvent::Moment(_) => {}
            event => return Ok(event),
        }
    }
    Err(Fail::from("nothing but moments"))
}

// The next event that is no moment is this one.
pub(crate) fn hears<H: Hub>(hub: &mut H, wanted: HubEvent) -> Result<(), Fail> {
    equal(&event(hub)?, &wanted)
}

// The next event that is no moment is that a peer has sent these bytes.
pub(crate) fn hears_bytes<H: Hub>(hub: &mut H, peer: u32, bytes: &[u8]) -> Result<(), Fail> {
    match &event(hub)? {
        HubEvent::Bytes(from, found) if *from == peer && found.as_slice() == bytes => Ok(()),
        event => Err(Fail::new(format_args!("{event:?} in place of bytes"))),
    }
}

// The next event, be it a moment or not, is this one.
pub(crate) fn tells<H: Hub>(hub: &mut H, wanted: HubEvent) -> Result<(), Fail> {
    equal(&hub.next()?, &wanted)
}

// The next bytes that come over a connection are these.
pub(crate) fn brings<S: Read, const N: usize>(stream: &mut S, wanted: [u8; N]) -> Result<(), Fail> {
    let mut bytes = [0; N];
    stream.read_exact(&mut bytes)?;
    equal(&bytes, &wanted)
}

// Nothing more comes over a connection, which has ended.
pub(crate) fn ends<S: Read>(stream: &mut S) -> Result<(), Fail> {
    equal(&stream.read(&mut [0; 24])?, &0)
}
