// The sockets of the machine, by readiness.

use crate::wires::{Accepted, Dialled, Readiness, Socket, Transfer, Wires};
use fc_base::{Memory, Trouble};
use mio::event::Event;
use mio::net::{TcpListener, TcpStream};
use mio::{Events, Interest, Poll, Token};
use std::alloc::Global;
use std::io;
use std::io::{Read, Write};
use std::net::{Net, Shutdown, SocketAddr, ToSocketAddrs};
use std::time::{Clock, Duration};

// The token of the listener. That of a connection is its slot.
const LISTENER: usize = usize::MAX;
// How many events one wait brings at most. The others come with the next one.
const EVENTS: usize = 256;

/// The sockets of the machine and its monotonic clock.
#[derive(Drop)]
pub struct Sockets<R: Net> {
    alloc: Global,
    rt: R,
    waiter: Option<Waiter>,
    listener: Option<TcpListener>,
    streams: Vec<Option<TcpStream>>,
}

// What the system tells of sockets.
#[derive(Drop)]
struct Waiter {
    poll: Poll,
    events: Events,
}

fn failed(_: io::Error) -> Trouble {
    Trouble::Failed
}

// The address of that place among those that a host and a port stand for.
fn resolved<R: Net>(rt: &R, address: &str, place: usize) -> Option<SocketAddr> {
    let Ok(addresses) = address.to_socket_addrs(rt) else {
        return None;
    };
    let mut left = place;
    for address in addresses {
        if left == 0 {
            return Some(address);
        }
        left = left.saturating_sub(1);
    }
    None
}

// Listens at the first of an address that can be bound.
fn bound<R: Net>(rt: &R, address: &str) -> Option<TcpListener> {
    let Ok(addresses) = address.to_socket_addrs(rt) else {
        return None;
    };
    for address in addresses {
        if let Ok(listener) = TcpListener::bind(rt, address) {
            return Some(listener);
        }
    }
    None
}

// What came of a read or a write.
fn moved(answer: io::Result<usize>) -> Transfer {
    match answer {
        Ok(count) => Transfer::Moved(count),
        Err(error) => Transfer::missed(&error),
    }
}

// What an event tells.
fn readiness(event: &Event) -> Readiness {
    let token = event.token().0;
    let is_error = event.is_error();
    Readiness {
        socket: if token == LISTENER {
            Socket::Listener
        } else {
            Socket::Slot(token)
        },
        is_readable: event.is_readable() || event.is_read_closed() || is_error,
        is_writable: event.is_writable() || event.is_write_closed() || is_error,
    }
}

impl Waiter {
    // Waits, and puts what came behind what was told.
    fn wait(&mut self, milliseconds: u64, told: &mut Vec<Readiness>) -> Result<(), Trouble> {
        let limit = Duration::from_millis(milliseconds);
        self.poll
            .poll(&mut self.events, Some(limit))
            .map_err(failed)?;
        for event in &self.events {
            told.push(readiness(event))?;
        }
        Ok(())
    }

    // Has what comes at a connection told.
    fn add(&self, slot: usize, stream: &mut TcpStream) -> bool {
        let both = Interest::READABLE | Interest::WRITABLE;
        self.poll
            .registry()
            .register(stream, Token(slot), both)
            .is_ok()
    }
}

impl<R: Net> Sockets<R> {
    /// No sockets yet.
    pub fn new(alloc: Global, rt: R) -> Sockets<R> {
        Sockets {
            alloc,
            rt,
            waiter: None,
            listener: None,
            streams: Vec::new(alloc),
        }
    }

    // Puts a connection into a slot, and tells whether that could be done.
    fn put(&mut self, slot: usize, mut stream: TcpStream) -> bool {
        let Some(waiter) = &self.waiter else {
            return false;
        };
        if stream.set_nodelay(true).is_err() || !waiter.add(slot, &mut stream) {
            return false;
        }
        let Some(place) = self.streams.get_mut(slot) else {
            return false;
        };
        *place = Some(stream);
        true
    }
}

// So many slots without a socket.
fn slots(alloc: Global, count: usize) -> Result<Vec<Option<TcpStream>>, Memory> {
    let mut streams = Vec::new(alloc);
    for _ in 0..count {
        streams.push(None)?;
    }
    Ok(streams)
}

impl<R: Net + Clock + Drop> Wires for Sockets<R> {
    fn now(&self) -> Result<u64, Trouble> {
        match self.rt.monotonic() {
            Ok(now) => Ok(u64::try_from(now.as_millis()).unwrap_or(u64::MAX)),
            Err(_) => Err(Trouble::Failed),
        }
    }

    fn open(&mut self, count: usize) -> Result<(), Trouble> {
        let streams = slots(self.alloc, count)?;
        let events = Events::with_capacity(self.alloc, EVENTS)?;
        let poll = Poll::new(&self.rt).map_err(failed)?;
        self.streams = streams;
        self.waiter = Some(Waiter { poll, events });
        Ok(())
    }

    fn bind(&mut self, address: &str) -> Result<(), Trouble> {
        let Some(mut listener) = bound(&self.rt, address) else {
            return Err(Trouble::Failed);
        };
        let Some(waiter) = &self.waiter else {
            return Err(Trouble::Failed);
        };
        waiter
            .poll
            .registry()
            .register(&mut listener, Token(LISTENER), Interest::READABLE)
            .map_err(failed)?;
        self.listener = Some(listener);
        Ok(())
    }

    fn accept(&mut self, slot: usize) -> Accepted {
        let Some(listener) = &self.listener else {
            return Accepted::NotListening;
        };
        match listener.accept() {
            Ok((stream, _)) => {
                if self.put(slot, stream) {
                    Accepted::Taken
                } else {
                    Accepted::Lost
                }
            }
            Err(error) => Accepted::missed(&error),
        }
    }

    fn dial(&mut self, slot: usize, address: &str, place: usize) -> Dialled {
        let Some(address) = resolved(&self.rt, address, place) else {
            return Dialled::NoAddress;
        };
        let Ok(stream) = TcpStream::connect(&self.rt, address) else {
            return Dialled::Refused;
        };
        if self.put(slot, stream) {
            Dialled::Begun
        } else {
            Dialled::Refused
        }
    }

    fn is_connected(&self, slot: usize) -> bool {
        match self.streams.get(slot) {
            Some(Some(stream)) => {
                matches!(stream.take_error(), Ok(None)) && stream.peer_addr().is_ok()
            }
            _ => false,
        }
    }

    fn read(&mut self, slot: usize, buffer: &mut [u8]) -> Transfer {
        match self.streams.get_mut(slot) {
            Some(Some(stream)) => moved(stream.read(buffer)),
            _ => Transfer::Ended,
        }
    }

    fn write(&mut self, slot: usize, bytes: &[u8]) -> Transfer {
        match self.streams.get_mut(slot) {
            Some(Some(stream)) => moved(stream.write(bytes)),
            _ => Transfer::Ended,
        }
    }

    fn shut(&mut self, slot: usize) {
        if let Some(Some(stream)) = self.streams.get_mut(slot) {
            let _ = stream.shutdown(Shutdown::Write);
        }
    }

    fn clear(&mut self, slot: usize) {
        if let Some(place) = self.streams.get_mut(slot) {
            *place = None;
        }
    }

    fn wait(&mut self, milliseconds: u64, told: &mut Vec<Readiness>) -> Result<(), Trouble> {
        match &mut self.waiter {
            Some(waiter) => waiter.wait(milliseconds, told),
            None => Err(Trouble::Failed),
        }
    }
}
