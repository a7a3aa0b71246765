// The modes at worked lists of operations, and want of memory at each call.
use EntryOp::{Create, Delete};
use Mode::{AllOrNone, Continue, UntilFailure};
use fc_base::{Code, List, Memory};
use fc_modes::{CopyMark, CopyingMap, EntryOp, Mode, Runner, run_mode};
use std::alloc::Global;
use std::test::Fail;

// A map with the entry 1.
fn one_entry(alloc: Global) -> Result<CopyingMap, Fail> {
    let mut map = CopyingMap::new(alloc);
    let code = map.apply(&Create(1, 1))?;
    if code == Code::SUCCESS {
        Ok(map)
    } else {
        Err(Fail::from("the first entry is refused"))
    }
}

// Whether these are the codes.
fn are_codes(codes: &[Code], numbers: &[u8]) -> bool {
    codes.len() == numbers.len()
        && codes
            .iter()
            .zip(numbers)
            .all(|(code, number)| code.0 == *number)
}

// Whether these are the keys.
fn are_keys(entries: &[(u32, u32)], keys: &[u32]) -> bool {
    entries.len() == keys.len() && entries.iter().zip(keys).all(|(entry, key)| entry.0 == *key)
}

// The codes of operations in a mode on a map with the entry 1, and the map after them.
fn ran(alloc: Global, mode: Mode, ops: &[EntryOp]) -> Result<(List<Code>, CopyingMap), Fail> {
    let mut map = one_entry(alloc)?;
    let codes = run_mode(alloc, &mut map, mode, ops)?;
    Ok((codes, map))
}

#[test]
fn each_mode_gives_its_codes_and_state(rt: HostRuntime) -> Result<(), Fail> {
    let none: &[EntryOp] = &[];
    let two: &[EntryOp] = &[Create(2, 2), Create(3, 3)];
    let first: &[EntryOp] = &[Delete(9), Create(2, 2), Create(3, 3)];
    let middle: &[EntryOp] = &[Create(2, 2), Delete(9), Create(3, 3)];
    let last: &[EntryOp] = &[Create(2, 2), Delete(1), Delete(9)];
    let twice: &[EntryOp] = &[Create(1, 7), Create(2, 2), Delete(9)];
    let again: &[EntryOp] = &[Delete(1), Delete(1)];
    let rows: [(&[EntryOp], Mode, &[u8], &[u32]); 21] = [
        (none, AllOrNone, &[], &[1]),
        (none, UntilFailure, &[], &[1]),
        (none, Continue, &[], &[1]),
        (two, AllOrNone, &[0, 0], &[1, 2, 3]),
        (two, UntilFailure, &[0, 0], &[1, 2, 3]),
        (two, Continue, &[0, 0], &[1, 2, 3]),
        (first, AllOrNone, &[0x0b, 0xff, 0xff], &[1]),
        (first, UntilFailure, &[0x0b, 0xff, 0xff], &[1]),
        (first, Continue, &[0x0b, 0, 0], &[1, 2, 3]),
        (middle, AllOrNone, &[0xff, 0x0b, 0xff], &[1]),
        (middle, UntilFailure, &[0, 0x0b, 0xff], &[1, 2]),
        (middle, Continue, &[0, 0x0b, 0], &[1, 2, 3]),
        (last, AllOrNone, &[0xff, 0xff, 0x0b], &[1]),
        (last, UntilFailure, &[0, 0, 0x0b], &[2]),
        (last, Continue, &[0, 0, 0x0b], &[2]),
        (twice, AllOrNone, &[0x0a, 0xff, 0xff], &[1]),
        (twice, UntilFailure, &[0x0a, 0xff, 0xff], &[1]),
        (twice, Continue, &[0x0a, 0, 0x0b], &[1, 2]),
        (again, AllOrNone, &[0xff, 0x0b], &[1]),
        (again, UntilFailure, &[0, 0x0b], &[]),
        (again, Continue, &[0, 0x0b], &[]),
    ];
    for (place, (ops, mode, codes, keys)) in rows.iter().enumerate() {
        let (given, map) = ran(rt.alloc(), *mode, ops)?;
        assert!(rt; are_codes(given.as_slice(), codes), "codes of row {place}");
        assert!(rt;
            are_keys(map.entries(), keys) && map.marks() == 0,
            "state of row {place}"
        );
    }
    Ok(())
}

// Does what another runner does, and then answers want of memory at the call of `mark` or `apply` with this number.
#[derive(Drop)]
struct Failing<R> {
    inner: R,
    calls: u32,
    fails: u32,
}

impl<R: Runner> Runner for Failing<R> {
    type Op = R::Op;

    type Mark = R::Mark;

    ghost State = { R.State };

    ghost state = { λ s. R.state s.inner };

    ghost marked = { λ s. R.marked s.inner };

    ghost below = { R.below };

    ghost effect = { R.effect };

    fn mark(&mut self) -> Result<R::Mark, Memory> {
        self.calls = self.calls.saturating_add(1);
        if self.calls == self.fails {
            return Err(Memory);
        }
        self.inner.mark()
    }

    fn apply(&mut self, op: &R::Op) -> Result<Code, Memory> {
        self.calls = self.calls.saturating_add(1);
        let code = self.inner.apply(op)?;
        if self.calls == self.fails {
            return Err(Memory);
        }
        Ok(code)
    }

    fn rollback(&mut self, mark: R::Mark) {
        self.inner.rollback(mark);
    }

    fn release(&mut self, mark: R::Mark) {
        self.inner.release(mark);
    }

    ghost refused = { R.refused };
}

// Whether operations in a mode want memory where the call with this number does; and the map after them, on which a mark
// stood before.
fn failed(
    alloc: Global,
    mode: Mode,
    ops: &[EntryOp],
    fails: u32,
) -> Result<(bool, CopyingMap), Fail> {
    let mut inner = one_entry(alloc)?;
    let _outer: CopyMark = inner.mark()?;
    let mut failing = Failing {
        inner,
        calls: 0,
        fails,
    };
    let failed = run_mode(alloc, &mut failing, mode, ops).is_err();
    let Failing { inner, .. } = failing;
    Ok((failed, inner))
}

#[test]
fn want_of_memory_leaves_the_state_and_the_marks(rt: HostRuntime) -> Result<(), Fail> {
    let ops = [Create(2, 2), Delete(1), Create(3, 3)];
    for mode in [AllOrNone, UntilFailure, Continue] {
        for fails in 1..6u32 {
            let (failed, map) = failed(rt.alloc(), mode, &ops, fails)?;
            assert_eq!(rt; failed, fails <= 4, "call {fails}");
            let keys: &[u32] = if failed { &[1] } else { &[2, 3] };
            assert!(rt;
                are_keys(map.entries(), keys) && map.marks() == 1,
                "call {fails}"
            );
        }
    }
    Ok(())
}
