// Entries are taken back last first, down to a mark.
use fc_base::Memory;
use fc_undo::{Mark, UndoStack};
use std::alloc::Global;
use std::test::Fail;

fn pushed(stack: &mut UndoStack<u32>, entry: u32) -> Result<(), Memory> {
    stack.reserve(1)?;
    stack.push(entry);
    Ok(())
}

// Takes all entries above a mark back, in that order.
fn undone(alloc: Global, stack: &mut UndoStack<u32>, mark: Mark) -> Result<Vec<u32>, Memory> {
    let mut entries = Vec::new(alloc);
    for _ in 0..stack.len() {
        if let Some(entry) = stack.pop_to(mark) {
            entries.push(entry)?;
        }
    }
    Ok(entries)
}

#[test]
fn entries_come_back_down_to_their_mark(rt: HostRuntime) -> Result<(), Fail> {
    let alloc = rt.alloc();
    let mut stack = UndoStack::new(alloc);
    let bottom = stack.mark();
    pushed(&mut stack, 1)?;
    pushed(&mut stack, 2)?;
    let middle = stack.mark();
    pushed(&mut stack, 3)?;
    pushed(&mut stack, 4)?;
    assert_eq!(rt; stack.len(), 4);
    let last = undone(alloc, &mut stack, middle)?;
    assert_eq!(rt; last.as_slice(), [4, 3].as_slice());
    assert_eq!(rt; stack.pop_to(middle), None);
    let first = undone(alloc, &mut stack, bottom)?;
    assert_eq!(rt; first.as_slice(), [2, 1].as_slice());
    assert_eq!(rt; stack.len(), 0);
    Ok(())
}

#[test]
fn room_for_many_entries_is_made_at_once(rt: HostRuntime) -> Result<(), Fail> {
    let mut stack = UndoStack::new(rt.alloc());
    stack.reserve(1_000_000)?;
    for entry in 0..1_000_000u32 {
        assert!(rt; stack.spare() > 0);
        stack.push(entry);
    }
    assert_eq!(rt; stack.len(), 1_000_000);
    Ok(())
}
