// Ends that do not block are waited for.
use crate::wanted::equal;
use fc_hub::Patient;
use std::cell::Cell;
use std::io;
use std::io::{ErrorKind, Read, Write};
use std::test::Fail;
use std::time::{Clock, Duration};

// A clock that goes on by a tenth of a second each time it is read.
#[derive(Drop)]
struct Ticks(Cell<u64>);

impl Ticks {
    fn new() -> Ticks {
        Ticks(Cell::new(0))
    }
}

impl Clock for Ticks {
    fn monotonic(&self) -> io::Result<Duration> {
        let now = self.0.get();
        self.0.set(now.saturating_add(100));
        Ok(Duration::from_millis(now))
    }

    fn since_1970(&self) -> io::Result<Duration> {
        self.monotonic()
    }
}

// A connection of which the system tells the error with this number.
#[derive(Drop)]
struct Broken(i32);

impl Read for Broken {
    fn read(&mut self, _buf: &mut [u8]) -> io::Result<usize> {
        Err(io::Error::from_raw_os_error(self.0))
    }
}

impl Write for Broken {
    fn write(&mut self, _buf: &[u8]) -> io::Result<usize> {
        Err(io::Error::from_raw_os_error(self.0))
    }

    fn flush(&mut self) -> io::Result<()> {
        Err(io::Error::from_raw_os_error(self.0))
    }
}

// A peer that takes one byte at a time, and each time asks to wait first.
#[derive(Drop)]
struct Slow {
    waits: bool,
}

impl Write for Slow {
    fn write(&mut self, buf: &[u8]) -> io::Result<usize> {
        self.waits = !self.waits;
        if self.waits || buf.is_empty() {
            return Err(io::Error::from(ErrorKind::WouldBlock));
        }
        Ok(1)
    }

    fn flush(&mut self) -> io::Result<()> {
        self.waits = !self.waits;
        if self.waits {
            return Err(io::Error::from(ErrorKind::WouldBlock));
        }
        Ok(())
    }
}

impl Read for Slow {
    fn read(&mut self, buf: &mut [u8]) -> io::Result<usize> {
        self.waits = !self.waits;
        if self.waits || buf.is_empty() {
            return Err(io::Error::from(ErrorKind::WouldBlock));
        }
        buf[0] = 7;
        Ok(1)
    }
}

// Bytes come from a slow peer, and go to it, one at a time.
fn is_waited_for() -> Result<(), Fail> {
    let clock = Ticks::new();
    let mut patient = Patient::new(&clock, Slow { waits: false });
    let mut bytes = [0; 3];
    for _ in 0..3u32 {
        equal(&patient.read(&mut bytes)?, &1)?;
        equal(&patient.write(&[1, 2])?, &1)?;
        patient.flush()?;
    }
    equal(&bytes, &[7, 0, 0])
}

// Each call on a connection that tells an error fails.
fn is_not_waited_for(code: i32) -> Result<(), Fail> {
    let clock = Ticks::new();
    let mut broken = Patient::new(&clock, Broken(code));
    let mut bytes = [0; 3];
    let outcomes = (
        broken.read(&mut bytes).is_err(),
        broken.write(&bytes).is_err(),
        broken.flush().is_err(),
    );
    equal(&outcomes, &(true, true, true))
}

#[test]
fn ends_that_do_not_block_are_waited_for() -> Result<(), Fail> {
    is_waited_for()?;
    is_not_waited_for(32)
}
