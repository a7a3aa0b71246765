// What a hub over TCP stands over: sockets and a clock.

use fc_base::Trouble;

/// Sockets, each in a slot, and a clock. None of its calls waits but `wait`, and `dial` and `bind` where a name has to be
/// resolved. A slot that has no socket refuses.
pub trait Wires: Drop {
    /// The time, in milliseconds. It never goes back.
    fn now(&self) -> Result<u64, Trouble>;

    /// Makes so many slots, all of them without a socket. It is called first.
    fn open(&mut self, slots: usize) -> Result<(), Trouble>;

    /// Listens at the first of an address, a host and a port, that can be bound.
    fn bind(&mut self, address: &str) -> Result<(), Trouble>;

    /// Puts a connection that waits at the listener into a slot.
    fn accept(&mut self, slot: usize) -> Accepted;

    /// Begins a connection in a slot, to the address at this place, from 0 on, among those that a host and a port stand for.
    fn dial(&mut self, slot: usize, address: &str, place: usize) -> Dialled;

    /// Whether the connection that was begun in a slot has come about, once it has been told that it can be written.
    fn is_connected(&self, slot: usize) -> bool;

    /// Reads from a slot.
    fn read(&mut self, slot: usize, buffer: &mut [u8]) -> Transfer;

    /// Writes to a slot.
    fn write(&mut self, slot: usize, bytes: &[u8]) -> Transfer;

    /// Tells the peer of a slot that nothing more is written.
    fn shut(&mut self, slot: usize);

    /// Lets the socket of a slot go.
    fn clear(&mut self, slot: usize);

    /// Waits until a socket is ready, for so many milliseconds at most, and puts what is ready behind what was told. What was
    /// told once is told again only after a read or a write has found that it has to wait.
    fn wait(&mut self, milliseconds: u64, told: &mut Vec<Readiness>) -> Result<(), Trouble>;
}

/// What came of accepting.
#[derive(Clone, Copy, Debug, PartialEq, Eq)]
pub enum Accepted {
    /// There is a connection.
    Taken,
    /// None waits.
    NoneWaits,
    /// The one that waited failed, by its peer or by the network.
    Lost,
    /// There is no descriptor for it.
    NoDescriptor,
    /// It is not listened.
    NotListening,
}

/// What came of dialling.
#[derive(Clone, Copy, Debug, PartialEq, Eq)]
pub enum Dialled {
    /// A connection is begun.
    Begun,
    /// This address was refused at once.
    Refused,
    /// There is no address at this place.
    NoAddress,
}

/// What came of a read or a write.
#[derive(Clone, Copy, Debug, PartialEq, Eq)]
pub enum Transfer {
    /// So many bytes went.
    Moved(usize),
    /// None goes before the socket is told to be ready.
    Later,
    /// It was interrupted, and can be tried at once.
    Again,
    /// The connection has ended, by its peer or by the network.
    Ended,
}

/// A socket.
#[derive(Clone, Copy, Debug, PartialEq, Eq)]
pub enum Socket {
    /// The one that listens.
    Listener,
    /// That of a slot.
    Slot(usize),
}

/// That a socket is ready: a read, a write, or both would find something. So they do where the connection has ended.
#[derive(Clone, Copy, Debug, PartialEq, Eq)]
pub struct Readiness {
    pub socket: Socket,
    pub is_readable: bool,
    pub is_writable: bool,
}
