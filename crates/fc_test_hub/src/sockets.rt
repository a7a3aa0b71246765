// The hub over the sockets of this machine.
use crate::hearing::{brings, ends, hears, hears_bytes, moment};
use crate::wanted::equal;
use fc_base::{List, Text, Trouble};
use fc_hub::{Accepted, Hub, HubEvent, Sockets, TcpHub, Transfer};
use std::alloc::Global;
use std::io;
use std::io::{Read, Write};
use std::net::{Net, OpenListener, SocketAddr, TcpListener, TcpStream};
use std::test::Fail;

// The heartbeat of control element 40000001 to element 2 that asks for an answer, and the answer.
const HEARTBEAT: [u8; 24] = [
    0x10, 0x0f, 0, 6, 0x40, 0, 0, 1, 0, 0, 0, 2, 0, 0, 0, 0, 0, 0, 0, 0, 0xc0, 0, 0, 0,
];

const ANSWER: [u8; 24] = [
    0x10, 0x0f, 0, 6, 0, 0, 0, 2, 0x40, 0, 0, 1, 0, 0, 0, 0, 0, 0, 0, 0, 0, 0, 0, 0,
];

// A hub over the sockets of this machine.
type Over<'a> = TcpHub<Sockets<&'a HostRuntime>>;

// An address at which nobody listens.
fn free_address<R: Net>(rt: &R) -> Result<SocketAddr, Fail> {
    let listener = TcpListener::bind(rt, "127.0.0.1:0")?;
    Ok(listener.local_addr()?)
}

// A hub for so many connections that listens at an address.
fn listening(
    rt: &HostRuntime,
    address: SocketAddr,
    connections: u32,
) -> Result<TcpHub<Sockets<&HostRuntime>>, Fail> {
    let text = format!(in rt.alloc(); "127.0.0.1:{}", address.port())?;
    let mut hub = TcpHub::listen(rt.alloc(), rt, text.as_str(), connections)?;
    moment(&mut hub)?;
    Ok(hub)
}

// The first peer says a part of a frame, and stays.
fn says_a_part<H: Hub, S: Write>(hub: &mut H, slow: &mut S) -> Result<(), Fail> {
    slow.write_all(&HEARTBEAT[..9])?;
    hears(hub, HubEvent::Opened(1))?;
    hears_bytes(hub, 1, &HEARTBEAT[..9])
}

// The second peer never reads what it is sent, until no more can be kept.
fn never_reads(rt: &HostRuntime, hub: &mut Over<'_>, address: SocketAddr) -> Result<(), Fail> {
    let _greedy = TcpStream::connect(rt, address)?;
    hears(hub, HubEvent::Opened(2))?;
    let much = Vec::from_elem(rt.alloc(), 7u8, 4_194_304)?;
    for _ in 0..8u32 {
        hub.send(2, much.as_slice())?;
    }
    hears(hub, HubEvent::Closed(2))
}

// A peer is sent something, and speaks.
fn speaks<H: Hub, S: Write>(hub: &mut H, rude: &mut S) -> Result<(), Fail> {
    hears(hub, HubEvent::Opened(3))?;
    hub.send(3, &ANSWER)?;
    for _ in 0..2u32 {
        rude.write_all(&HEARTBEAT)?;
        hears_bytes(hub, 3, &HEARTBEAT)?;
    }
    Ok(())
}

// The third peer leaves without having read what it was sent, which resets its connection.
fn is_reset(rt: &HostRuntime, hub: &mut Over<'_>, address: SocketAddr) -> Result<(), Fail> {
    let mut rude = TcpStream::connect(rt, address)?;
    speaks(hub, &mut rude)?;
    drop(rude);
    hears(hub, HubEvent::Closed(3))
}

// The first peer says the rest, and is answered when the hub finishes.
fn says_the_rest<S: Read + Write>(hub: &mut Over<'_>, slow: &mut S) -> Result<(), Fail> {
    slow.write_all(&HEARTBEAT[9..])?;
    hears_bytes(hub, 1, &HEARTBEAT[9..])?;
    hub.send(1, &ANSWER)?;
    hub.finish();
    brings(slow, ANSWER)
}

// The first peer is closed, and closes too.
fn is_closed<S: Read + Drop>(hub: &mut Over<'_>, mut slow: S) -> Result<(), Fail> {
    hub.close(1)?;
    ends(&mut slow)?;
    drop(slow);
    hears(hub, HubEvent::Over)
}

#[test]
fn no_peer_holds_another(rt: HostRuntime) -> Result<(), Fail> {
    let address = free_address(&rt)?;
    let mut hub = listening(&rt, address, 3)?;
    let mut slow = TcpStream::connect(&rt, address)?;
    says_a_part(&mut hub, &mut slow)?;
    never_reads(&rt, &mut hub, address)?;
    is_reset(&rt, &mut hub, address)?;
    says_the_rest(&mut hub, &mut slow)?;
    is_closed(&mut hub, slow)
}

// Of sixty-six silent peers the first two give their places to the last two.
fn two_go<H: Hub>(hub: &mut H) -> Result<(), Fail> {
    for peer in 1..=64u32 {
        hears(hub, HubEvent::Opened(peer))?;
    }
    for (first, last) in [(1, 65), (2, 66)] {
        hears(hub, HubEvent::Closed(first))?;
        hears(hub, HubEvent::Opened(last))?;
    }
    Ok(())
}

#[test]
fn all_places_are_taken(rt: HostRuntime) -> Result<(), Fail> {
    let address = free_address(&rt)?;
    let mut hub = listening(&rt, address, 66)?;
    let mut clients = Vec::new(rt.alloc());
    for _ in 0..66u32 {
        clients.push(TcpStream::connect(&rt, address)?)?;
    }
    two_go(&mut hub)?;
    assert!(rt; clients.len() == 66);
    Ok(())
}

// A hub that dials these addresses, once each.
fn dialling<'a>(
    rt: &'a HostRuntime,
    addresses: [SocketAddr; 3],
) -> Result<TcpHub<Sockets<&'a HostRuntime>>, Fail> {
    let mut list = List::new(rt.alloc());
    for address in addresses {
        let text = format!(in rt.alloc(); "127.0.0.1:{}", address.port())?;
        list.push(Text::from_string(text))?;
    }
    Ok(TcpHub::dial(rt.alloc(), rt, list, 3)?)
}

// The second element speaks.
fn is_heard<H: Hub, S: Write>(hub: &mut H, other: &mut S) -> Result<(), Fail> {
    other.write_all(&ANSWER)?;
    hears_bytes(hub, 3, &ANSWER)
}

// The first element is sent something and closed: it gets that, and then the end.
fn is_sent_and_closed<H: Hub, S: Read>(hub: &mut H, one: &mut S) -> Result<(), Fail> {
    hub.send(1, &HEARTBEAT)?;
    hub.close(1)?;
    brings(one, HEARTBEAT)?;
    ends(one)
}

// Two elements of a hub are there, and go.
fn are_served<L: OpenListener>(hub: &mut Over<'_>, first: &L, third: &L) -> Result<(), Fail>
where
    L::Stream: Read + Write,
{
    hears(hub, HubEvent::Opened(1))?;
    hears(hub, HubEvent::Opened(3))?;
    let (mut one, _) = first.accept()?;
    let (mut other, _) = third.accept()?;
    is_heard(hub, &mut other)?;
    is_sent_and_closed(hub, &mut one)
}

#[test]
fn elements_are_dialled_side_by_side(rt: HostRuntime) -> Result<(), Fail> {
    let first = TcpListener::bind(&rt, "127.0.0.1:0")?;
    let third = TcpListener::bind(&rt, "127.0.0.1:0")?;
    let addresses = [first.local_addr()?, free_address(&rt)?, third.local_addr()?];
    let mut hub = dialling(&rt, addresses)?;
    are_served(&mut hub, &first, &third)?;
    hears(&mut hub, HubEvent::Closed(3))?;
    hears(&mut hub, HubEvent::Over)
}

#[test]
fn an_address_in_use_is_a_fault(rt: HostRuntime) -> Result<(), Fail> {
    let taken = TcpListener::bind(&rt, "127.0.0.1:0")?;
    let text = format!(in rt.alloc(); "127.0.0.1:{}", taken.local_addr()?.port())?;
    for address in [text.as_str(), "127.0.0.1:x", ""] {
        let mut nowhere = TcpHub::listen(rt.alloc(), &rt, address, 1)?;
        equal(&nowhere.next(), &Err(Trouble::Failed))?;
    }
    Ok(())
}

// What errors of accepting say. Those of the one that waits are ENONET, ENOPROTOOPT and EOPNOTSUPP among others.
const ACCEPTING: [(&[i32], Accepted); 4] = [
    (&[11, 4], Accepted::NoneWaits),
    (
        &[
            5, 32, 64, 71, 92, 95, 100, 101, 103, 104, 105, 110, 111, 112, 113,
        ],
        Accepted::Lost,
    ),
    (&[9, 22, 88], Accepted::NotListening),
    (&[23, 24], Accepted::NoDescriptor),
];

// What errors of a connection say: all but those of a wait and of a signal are its end.
const MOVING: [(&[i32], Transfer); 3] = [
    (&[11], Transfer::Later),
    (&[4], Transfer::Again),
    (
        &[5, 32, 71, 100, 101, 103, 104, 105, 110, 111, 112, 113],
        Transfer::Ended,
    ),
];

#[test]
fn errors_are_of_a_connection_or_of_the_listener(rt: HostRuntime) -> Result<(), Fail> {
    for (codes, wanted) in ACCEPTING {
        for code in codes {
            let error = io::Error::from_raw_os_error(*code);
            assert!(rt; Accepted::missed(&error) == wanted, "{code}");
        }
    }
    for (codes, wanted) in MOVING {
        for code in codes {
            let error = io::Error::from_raw_os_error(*code);
            assert!(rt; Transfer::missed(&error) == wanted, "{code}");
        }
    }
    Ok(())
}
