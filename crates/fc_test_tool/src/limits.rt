// No command looks at more than 67,108,864 bytes.
ghost use Rattle.std.specs.Prelude.{ℕ, None};

use crate::running::{BEAT, LINE, run_without_hub};
use fc_base::{Sink, Source, SureSink, Trouble};
use fc_test_kit::words_of;
use std::alloc::Global;
use std::test::Fail;

// So many bytes of heartbeats, one after the other, which nobody stores. A read fails after their end was told, and after
// a byte past the limit was given, since nothing is to be read then. As each read before gives a byte at least, that bounds
// how often is read: 67,108,866 times.
#[derive(Drop)]
struct Endless {
    left: usize,
    given: usize,
    over: bool,
    faults: u64,
}

impl Endless {
    fn new(left: usize) -> Endless {
        Endless {
            left,
            given: 0,
            over: false,
            faults: 0,
        }
    }
}

impl Source for Endless {
    ghost left = { λ _. None };

    ghost faults = { λ s. s.faults };

    fn read(&mut self, into: &mut [u8]) -> Result<usize, Trouble> {
        if self.over {
            self.faults = self.faults.saturating_add(1);
            return Err(Trouble::Failed);
        }
        let count = into.len().min(self.left);
        let mut given = self.given;
        for byte in into[..count].iter_mut() {
            *byte = BEAT[given % 24];
            given = given.saturating_add(1);
        }
        self.left -= count;
        self.given = given;
        self.over = count == 0 || given > 67_108_864;
        Ok(count)
    }
}

// Counts what is written, and keeps the last bytes of it.
#[derive(Drop)]
struct Tally {
    bytes: u64,
    writes: u64,
    last: Vec<u8>,
}

impl Sink for Tally {
    ghost written = { λ _. None };

    ghost flushed = { λ _. 0 };

    ghost faults = { λ _. 0 };

    fn write(&mut self, piece: &[u8]) -> Result<usize, Trouble> {
        self.bytes = self.bytes.saturating_add(piece.len() as u64);
        self.writes = self.writes.saturating_add(1);
        self.last.clear();
        let from = piece.len().saturating_sub(64);
        self.last.extend_from_slice(&piece[from..])?;
        Ok(piece.len())
    }

    fn flush(&mut self) -> Result<(), Trouble> {
        Ok(())
    }
}

// The status of a command over so many bytes, and what it wrote.
fn tallied(alloc: Global, line: &str, bytes: usize) -> Result<(u8, Tally), Fail> {
    let words = words_of(alloc, line)?;
    let mut input = Endless::new(bytes);
    let mut out = Tally {
        bytes: 0,
        writes: 0,
        last: Vec::new(alloc),
    };
    let status = run_without_hub(alloc, words.as_slice(), &mut input, &mut out);
    Ok((status, out))
}

#[test]
fn show_looks_at_so_many_bytes_and_no_more(rt: HostRuntime) -> Result<(), Fail> {
    let alloc = rt.alloc();
    // The limit cuts a heartbeat after its first 16 bytes, and 2,796,202 stand in front of it. A read of 64 KiB is one
    // write, and the refusal one more.
    for (bytes, status, written, last) in [
        (67_108_864, 6, 204_122_773, "refused 67108848 truncated\n"),
        (67_108_865, 12, 204_122_746, LINE),
        (68_108_864, 12, 204_122_746, LINE),
    ] {
        let (ended, out) = tallied(alloc, "show", bytes)?;
        assert_eq!(rt; ended, status, "{bytes}");
        assert_eq!(rt; out.bytes, written, "{bytes}");
        assert!(rt; last.as_bytes().ends_with(&out.last), "{bytes}");
        assert!(rt; out.writes <= 1025, "{bytes}");
    }
    Ok(())
}

#[test]
fn make_looks_at_so_many_bytes_and_no_more(rt: HostRuntime) -> Result<(), Fail> {
    let alloc = rt.alloc();
    // The bytes of heartbeats are no text.
    for (bytes, status, written) in [(67_108_864, 5, "refused text 1 1\n"), (67_108_865, 12, "")] {
        let (ended, out) = tallied(alloc, "make", bytes)?;
        assert_eq!(rt; ended, status, "{bytes}");
        assert_eq!(rt; out.bytes, written.len() as u64, "{bytes}");
        assert!(rt; written.as_bytes().ends_with(&out.last), "{bytes}");
    }
    Ok(())
}

#[test]
fn world_reads_no_more_bytes_than_are_looked_at(rt: HostRuntime) -> Result<(), Fail> {
    let alloc = rt.alloc();
    let (status, out) = tallied(alloc, "world", 67_108_865)?;
    assert_eq!(rt; status, 12);
    assert_eq!(rt; out.bytes, 0);
    Ok(())
}

#[test]
fn control_reads_no_more_bytes_than_are_looked_at(rt: HostRuntime) -> Result<(), Fail> {
    let alloc = rt.alloc();
    let (status, out) = tallied(alloc, "control 40000001 r 1 1 a", 67_108_865)?;
    assert_eq!(rt; status, 12);
    assert_eq!(rt; out.bytes, 0);
    Ok(())
}
