// A network that is played: a test says who comes, what is said and what is taken, and the clock goes on where the hub waits.
use fc_base::Trouble;
use fc_hub::{Accepted, Dialled, Readiness, Socket, Transfer, Wires};
use std::alloc::Global;

// The byte at this place of all that is sent over a connection, in either direction.
pub(crate) fn byte_at(place: u64) -> u8 {
    u8::try_from(place % 251).unwrap_or(0)
}

// How an address answers.
#[derive(Clone, Copy, Debug, PartialEq, Eq)]
pub(crate) enum Answer {
    // The connection comes about.
    Comes,
    // It is refused at once, or a little later.
    Refuses,
    RefusesLater,
    // It is not answered.
    Silence,
}

// A connection. What it says and takes are the bytes of `byte_at`.
#[derive(Clone, Copy)]
pub(crate) struct Line {
    pub is_there: bool,
    // how many bytes wait to be read, and how many were read
    pub says: u64,
    pub said: u64,
    // how many bytes it takes yet, and how many it took
    pub takes: u64,
    pub took: u64,
    // whether its peer has closed it
    pub has_ended: bool,
    // whether the hub has told that nothing more is sent
    pub is_shut: bool,
    // whether it took something else than it was to take
    pub is_wrong: bool,
    // whether it is to be told that it can be read, and written
    tells_read: bool,
    tells_write: bool,
}

impl Line {
    fn new(is_there: bool, takes: u64) -> Line {
        Line {
            is_there,
            says: 0,
            said: 0,
            takes,
            took: 0,
            has_ended: false,
            is_shut: false,
            is_wrong: false,
            tells_read: true,
            tells_write: true,
        }
    }

    // What is told of it now: each thing once, until a read or a write has had to wait.
    fn told(&mut self, slot: usize) -> Option<Readiness> {
        let is_readable = self.is_there && self.tells_read && (self.says > 0 || self.has_ended);
        let is_writable = self.is_there && self.tells_write && (self.takes > 0 || self.has_ended);
        self.tells_read = self.tells_read && !is_readable;
        self.tells_write = self.tells_write && !is_writable;
        if !is_readable && !is_writable {
            return None;
        }
        Some(Readiness {
            socket: Socket::Slot(slot),
            is_readable,
            is_writable,
        })
    }

    fn read(&mut self, buffer: &mut [u8]) -> Transfer {
        let mut count = 0usize;
        for place in buffer {
            if self.says == 0 {
                break;
            }
            *place = byte_at(self.said);
            self.said = self.said.saturating_add(1);
            self.says = self.says.saturating_sub(1);
            count = count.saturating_add(1);
        }
        if count > 0 {
            return Transfer::Moved(count);
        }
        self.tells_read = true;
        if self.has_ended {
            Transfer::Ended
        } else {
            Transfer::Later
        }
    }

    fn write(&mut self, bytes: &[u8]) -> Transfer {
        if self.has_ended {
            return Transfer::Ended;
        }
        let mut count = 0usize;
        for byte in bytes {
            if self.takes == 0 {
                break;
            }
            self.is_wrong = self.is_wrong || *byte != byte_at(self.took);
            self.took = self.took.saturating_add(1);
            self.takes = self.takes.saturating_sub(1);
            count = count.saturating_add(1);
        }
        if count > 0 {
            return Transfer::Moved(count);
        }
        self.tells_write = true;
        Transfer::Later
    }
}

// A network.
#[derive(Drop)]
pub(crate) struct Played {
    // the time, and whether it can be read
    pub now: u64,
    pub is_timeless: bool,
    // one for each slot
    pub lines: Vec<Line>,
    // how many connections wait at the listener, and what accepting tells where it is no connection
    pub arriving: u32,
    pub accepting: Accepted,
    // how many bytes a new connection takes
    pub takes: u64,
    // the slot of each connection that was accepted, in turn
    pub accepted: Vec<usize>,
    // how the addresses answer, how many there are for each name, and when each name was dialled anew
    pub answer: Answer,
    pub names: usize,
    pub dialled: Vec<u64>,
    tells_arrival: bool,
}

impl Played {
    // A network at a time at which nobody is there.
    pub(crate) fn new(alloc: Global, now: u64) -> Played {
        Played {
            now,
            is_timeless: false,
            lines: Vec::new(alloc),
            arriving: 0,
            accepting: Accepted::Taken,
            takes: 1_000_000,
            accepted: Vec::new(alloc),
            answer: Answer::Comes,
            names: 1,
            dialled: Vec::new(alloc),
            tells_arrival: true,
        }
    }

    // The connection of a slot, one that is not there where there is none.
    pub(crate) fn line(&self, slot: usize) -> Line {
        match self.lines.get(slot) {
            Some(line) => *line,
            None => Line::new(false, 0),
        }
    }

    // Puts a connection into a slot.
    pub(crate) fn put(&mut self, slot: usize, line: Line) {
        if let Some(place) = self.lines.get_mut(slot) {
            *place = line;
        }
    }
}

impl Wires for Played {
    fn now(&self) -> Result<u64, Trouble> {
        if self.is_timeless {
            return Err(Trouble::Failed);
        }
        Ok(self.now)
    }

    fn open(&mut self, slots: usize) -> Result<(), Trouble> {
        for _ in 0..slots {
            self.lines.push(Line::new(false, 0))?;
        }
        Ok(())
    }

    fn bind(&mut self, address: &str) -> Result<(), Trouble> {
        if address.is_empty() {
            return Err(Trouble::Failed);
        }
        Ok(())
    }

    fn accept(&mut self, slot: usize) -> Accepted {
        if matches!(
            self.accepting,
            Accepted::NoDescriptor | Accepted::NotListening
        ) {
            return self.accepting;
        }
        if self.arriving == 0 {
            self.tells_arrival = true;
            return Accepted::NoneWaits;
        }
        self.arriving = self.arriving.saturating_sub(1);
        if self.accepting == Accepted::Lost {
            return Accepted::Lost;
        }
        if self.accepted.push(slot).is_err() {
            return Accepted::NoDescriptor;
        }
        self.put(slot, Line::new(true, self.takes));
        Accepted::Taken
    }

    fn dial(&mut self, slot: usize, _address: &str, place: usize) -> Dialled {
        if place == 0 && self.dialled.push(self.now).is_err() || place >= self.names {
            return Dialled::NoAddress;
        }
        let mut line = Line::new(true, self.takes);
        match self.answer {
            Answer::Comes => {}
            Answer::Refuses => return Dialled::Refused,
            Answer::RefusesLater => line.has_ended = true,
            Answer::Silence => line.takes = 0,
        }
        self.put(slot, line);
        Dialled::Begun
    }

    fn is_connected(&self, slot: usize) -> bool {
        let line = self.line(slot);
        line.is_there && !line.has_ended
    }

    fn read(&mut self, slot: usize, buffer: &mut [u8]) -> Transfer {
        match self.lines.get_mut(slot) {
            Some(line) if line.is_there => line.read(buffer),
            _ => Transfer::Ended,
        }
    }

    fn write(&mut self, slot: usize, bytes: &[u8]) -> Transfer {
        match self.lines.get_mut(slot) {
            Some(line) if line.is_there => line.write(bytes),
            _ => Transfer::Ended,
        }
    }

    fn shut(&mut self, slot: usize) {
        if let Some(line) = self.lines.get_mut(slot) {
            line.is_shut = true;
        }
    }

    fn clear(&mut self, slot: usize) {
        if let Some(line) = self.lines.get_mut(slot) {
            line.is_there = false;
        }
    }

    fn wait(&mut self, milliseconds: u64, told: &mut Vec<Readiness>) -> Result<(), Trouble> {
        let before = told.len();
        let arrives = self.arriving > 0
            || matches!(
                self.accepting,
                Accepted::NoDescriptor | Accepted::NotListening
            );
        if self.tells_arrival && arrives {
            self.tells_arrival = false;
            told.push(Readiness {
                socket: Socket::Listener,
                is_readable: true,
                is_writable: false,
            })?;
        }
        for slot in 0..self.lines.len() {
            let mut line = self.line(slot);
            let readiness = line.told(slot);
            self.put(slot, line);
            if let Some(readiness) = readiness {
                told.push(readiness)?;
            }
        }
        if told.len() == before {
            self.now = self.now.saturating_add(milliseconds);
        }
        Ok(())
    }
}
