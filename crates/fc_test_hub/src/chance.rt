// Plays by chance, beside a model of what the hub may tell.
use crate::played::{Played, byte_at};
use crate::playing::{bytes_from, listening};
use crate::wanted::sure;
use fc_hub::{Hub, HubEvent, TcpHub};
use std::alloc::Global;
use std::test::Fail;

// How many connections come in one play.
const CONNECTIONS: u32 = 90;

// Numbers by chance, the same ones each time.
#[derive(Drop)]
struct Chance(u64);

impl Chance {
    // A number below this one.
    fn below(&mut self, limit: u64) -> u64 {
        self.0 = self
            .0
            .wrapping_mul(6_364_136_223_846_793_005)
            .wrapping_add(1_442_695_040_888_963_407);
        (self.0 >> 33).checked_rem(limit).unwrap_or(0)
    }
}

// What is known of a peer.
#[derive(Clone, Copy)]
struct Known {
    is_open: bool,
    // how much it has said, and how much of that was told
    said: u64,
    heard: u64,
    // how much it was sent
    sent: u64,
    has_ended: bool,
}

// What is known of all peers, the moment that was told last, and how many stand.
#[derive(Drop)]
struct Model {
    peers: Vec<Known>,
    latest: u64,
    standing: usize,
}

impl Model {
    // The event may come now.
    fn admits(&mut self, event: &HubEvent, network: &Played) -> Result<(), Fail> {
        let now = network.now;
        match event {
            HubEvent::Moment(moment) => {
                sure(*moment >= self.latest && *moment <= now, "moments rise")?;
                self.latest = *moment;
                return Ok(());
            }
            HubEvent::Opened(name) => self.opens(*name)?,
            HubEvent::Bytes(name, bytes) => self.hears(place(*name), bytes.as_slice())?,
            HubEvent::Closed(name) => self.closes(place(*name), network)?,
            HubEvent::Over => return Err(Fail::from("the end before all have come")),
        }
        sure(
            now <= self.latest.saturating_add(1000),
            "a moment each second",
        )
    }

    // A peer that opens is the next one, and has a place.
    fn opens(&mut self, name: u32) -> Result<(), Fail> {
        sure(
            place(name) == self.peers.len() && self.standing < 64,
            "it is the next",
        )?;
        self.standing = self.standing.saturating_add(1);
        self.peers.push(Known {
            is_open: true,
            said: 0,
            heard: 0,
            sent: 0,
            has_ended: false,
        })?;
        Ok(())
    }

    // A peer that is heard stands, and has said just that.
    fn hears(&mut self, at: usize, bytes: &[u8]) -> Result<(), Fail> {
        let Some(known) = self.peers.get_mut(at) else {
            return Err(Fail::from("nobody"));
        };
        let mut is_said = known.is_open && !bytes.is_empty() && bytes.len() <= 512;
        for byte in bytes {
            is_said = is_said && *byte == byte_at(known.heard);
            known.heard = known.heard.saturating_add(1);
        }
        sure(is_said && known.heard <= known.said, "it is what was said")
    }

    // A peer that closes stood, and all that it said before its end was told, unless something was kept for it.
    fn closes(&mut self, at: usize, network: &Played) -> Result<(), Fail> {
        let took = match network.accepted.get(at) {
            Some(slot) => network.line(*slot).took,
            None => 0,
        };
        let Some(known) = self.peers.get_mut(at) else {
            return Err(Fail::from("nobody"));
        };
        let is_whole = !known.has_ended || took < known.sent || known.heard == known.said;
        let was_open = known.is_open;
        known.is_open = false;
        self.standing = self.standing.saturating_sub(1);
        sure(was_open && is_whole, "it stood and was heard")
    }
}

// The place of a peer.
fn place(name: u32) -> usize {
    usize::try_from(name.saturating_sub(1)).unwrap_or(usize::MAX)
}

// A peer that stands does something by chance, or something is done to it.
fn happens(
    alloc: Global,
    hub: &mut TcpHub<Played>,
    model: &mut Model,
    chance: &mut Chance,
) -> Result<(), Fail> {
    let name = u32::try_from(chance.below(u64::from(CONNECTIONS)))
        .unwrap_or(0)
        .saturating_add(1);
    let (what, count) = (chance.below(16), chance.below(900));
    let Some(known) = model.peers.get_mut(place(name)) else {
        return Ok(());
    };
    let Some(slot) = hub.wires().accepted.get(place(name)).copied() else {
        return Ok(());
    };
    if !known.is_open || known.has_ended {
        return Ok(());
    }
    let mut line = hub.wires().line(slot);
    match what {
        0..=6 => {
            known.said = known.said.saturating_add(count);
            line.says = line.says.saturating_add(count);
        }
        7..=9 => line.takes = line.takes.saturating_add(count),
        10 => {
            known.has_ended = true;
            line.has_ended = true;
        }
        11 => {
            known.is_open = false;
            model.standing = model.standing.saturating_sub(1);
            return Ok(hub.close(name)?);
        }
        _ => {
            let bytes = bytes_from(alloc, known.sent, count)?;
            known.sent = known.sent.saturating_add(count);
            return Ok(hub.send(name, bytes.as_slice())?);
        }
    }
    hub.wires().put(slot, line);
    Ok(())
}

// Every connection takes what it was sent, in order.
fn is_right(network: &Played) -> bool {
    for line in &network.lines {
        if line.is_wrong {
            return false;
        }
    }
    true
}

// The peers that stand end.
fn all_end(network: &mut Played, model: &mut Model) {
    for at in 0..model.peers.len() {
        let slot = match network.accepted.get(at) {
            Some(slot) => *slot,
            None => 0,
        };
        if let Some(known) = model.peers.get_mut(at) {
            if known.is_open {
                known.has_ended = true;
                let mut line = network.line(slot);
                line.has_ended = true;
                network.put(slot, line);
            }
        }
    }
}

// All peers that stand end, and have closed a little later.
fn ends(hub: &mut TcpHub<Played>, model: &mut Model) -> Result<(), Fail> {
    hub.wires().arriving = 0;
    for _ in 0..1000u32 {
        all_end(hub.wires(), model);
        if model.standing == 0 {
            return Ok(());
        }
        let event = hub.next()?;
        model.admits(&event, hub.wires())?;
    }
    Err(Fail::from("some stand"))
}

// Something happens to four peers, and the hub tells an event.
fn goes_on(
    alloc: Global,
    hub: &mut TcpHub<Played>,
    model: &mut Model,
    chance: &mut Chance,
) -> Result<(), Fail> {
    for _ in 0..4u32 {
        happens(alloc, hub, model, chance)?;
    }
    hub.wires().now = hub.wires().now.saturating_add(chance.below(300));
    let event = hub.next()?;
    model.admits(&event, hub.wires())?;
    sure(is_right(hub.wires()), "it takes what it was sent")
}

// A play of so many steps, and how many connections it brought.
fn is_played(alloc: Global, seed: u64, steps: u32) -> Result<usize, Fail> {
    let mut chance = Chance(seed);
    let mut hub = listening(alloc, 5000, CONNECTIONS.saturating_add(1))?;
    hub.wires().takes = chance.below(2000);
    let mut model = Model {
        peers: Vec::new(alloc),
        latest: 0,
        standing: 0,
    };
    for step in 0..steps {
        if step < CONNECTIONS {
            hub.wires().arriving = hub.wires().arriving.saturating_add(1);
        }
        goes_on(alloc, &mut hub, &mut model, &mut chance)?;
    }
    ends(&mut hub, &mut model)?;
    Ok(model.peers.len())
}

#[test]
fn what_a_hub_tells_by_chance_is_admitted(rt: HostRuntime) -> Result<(), Fail> {
    for seed in 0..12u64 {
        let came = is_played(rt.alloc(), seed, 900)?;
        assert!(rt; came == 90, "{came}");
    }
    Ok(())
}
