// What the system's errors say of a socket.

use crate::wires::{Accepted, Transfer};
use std::io;
use std::io::ErrorKind;

// Linux's numbers of errors that `io::ErrorKind` has no kinds for.
const BAD_DESCRIPTOR: i32 = 9;

const INVALID: i32 = 22;

const TABLE_OVERFLOW: i32 = 23;

const TOO_MANY_OPEN: i32 = 24;

const NOT_A_SOCKET: i32 = 88;

impl Accepted {
    /// What an error of accepting says. What the system tells of a connection that waits is no failure of the listener; accept(2)
    /// names EOPNOTSUPP among it.
    pub fn missed(error: &io::Error) -> Accepted {
        if matches!(error.kind(), ErrorKind::WouldBlock | ErrorKind::Interrupted) {
            return Accepted::NoneWaits;
        }
        match error.raw_os_error() {
            Some(TABLE_OVERFLOW | TOO_MANY_OPEN) => Accepted::NoDescriptor,
            Some(BAD_DESCRIPTOR | INVALID | NOT_A_SOCKET) => Accepted::NotListening,
            _ => Accepted::Lost,
        }
    }
}

impl Transfer {
    /// What an error of reading or writing says.
    pub fn missed(error: &io::Error) -> Transfer {
        match error.kind() {
            ErrorKind::WouldBlock => Transfer::Later,
            ErrorKind::Interrupted => Transfer::Again,
            _ => Transfer::Ended,
        }
    }
}
