// Appends the lines of the operations of messages as their heads are read.
ghost use Rattle.std.specs.Prelude.{◌≡◌};
ghost use Rattle.std.specs.List.{flat_map};
ghost use Rattle.fc_path.specs.Reading.{each_in, oper_at, path_at, path_or, select_at, some_in};
ghost use Rattle.fc_path.specs.SelectHeads.{with_paths};
ghost use Rattle.fc_path.specs.Stray.{misplaced as is_misplaced};
ghost use Rattle.fc_showing.specs.Appending.{Keeps, Shows};
ghost use Rattle.fc_text.specs.Text.{oper_text, path_text, select_text, selects_text};

use crate::message::{push_line, push_response, push_select_line};
use crate::names::operation_name;
use crate::show_path::show_path_at;
use fc_path::{OperHead, OperKind, PathFault, SelectHead, must_be_path};
use fc_text::DEPTH;
use fc_wire::{Tlv, Tlvs};

// The PATH-DATA of an operation.
fn show_path(into: &mut Vec<u8>, kind: OperKind, tlv: &Tlv) -> Result<(), PathFault>
    ensures shown { Shows result (path_or is_misplaced (path_at kind 16) tlv.now) (λ path. path_text path 3) into.old.items into.new.items }
    ensures kept { Keeps into.old.items into.new.items }
{
    must_be_path(tlv)?;
    show_path_at(into, kind, DEPTH, 3, tlv)
}

// All PATH-DATA of an operation that are left.
fn show_more_paths(into: &mut Vec<u8>, kind: OperKind, mut tlvs: Tlvs) -> Result<(), PathFault>
    ensures shown { Shows result (each_in (path_or is_misplaced (path_at kind 16)) tlvs.entry.items tlvs.entry.fault) (flat_map (λ path. path_text path 3)) into.old.items into.new.items }
    ensures kept { Keeps into.old.items into.new.items }
{
    'items: while let Some(next) = tlvs.next() {
        match next {
            Err(fault) => return Err(PathFault::Wire(fault)),
            Ok(tlv) => show_path(into, kind, &tlv)?,
        }
    }
    Ok(())
}

// The PATH-DATA of an operation with an end, of which there is at least one.
fn show_paths(
    into: &mut Vec<u8>,
    kind: OperKind,
    mut tlvs: Tlvs,
    end: usize,
) -> Result<(), PathFault>
    ensures shown { Shows result (some_in (path_or is_misplaced (path_at kind 16)) end tlvs.entry.items tlvs.entry.fault) (flat_map (λ path. path_text path 3)) into.old.items into.new.items }
    ensures kept { Keeps into.old.items into.new.items }
{
    match tlvs.next() {
        None => Err(PathFault::WrongBody { place: end }),
        Some(Err(fault)) => Err(PathFault::Wire(fault)),
        Some(Ok(tlv)) => {
            show_path(into, kind, &tlv)?;
            show_more_paths(into, kind, tlvs)
        }
    }
}

// The lines of an operation of this head.
fn show_held(into: &mut Vec<u8>, head: OperHead) -> Result<(), PathFault>
    ensures shown { Shows result (with_paths head.entry) oper_text into.old.items into.new.items }
    ensures kept { Keeps into.old.items into.new.items }
{
    match head {
        OperHead::Paths { kind, paths, end } => {
            push_line(into, operation_name(kind).as_bytes())?;
            show_paths(into, kind, paths, end)
        }
        OperHead::Commit => {
            push_line(into, b"COMMIT")?;
            Ok(())
        }
        OperHead::Trcomp => {
            push_line(into, b"TRCOMP")?;
            Ok(())
        }
        OperHead::CommitResponse(code) => {
            push_response(into, code)?;
            Ok(())
        }
    }
}

// A TLV inside an LFBselect.
fn show_oper(into: &mut Vec<u8>, message: u8, tlv: &Tlv) -> Result<(), PathFault>
    ensures shown { Shows result (oper_at message tlv.now) oper_text into.old.items into.new.items }
    ensures kept { Keeps into.old.items into.new.items }
{
    let head = OperHead::read(message, tlv)?;
    show_held(into, head)
}

// All operations of an LFBselect that are left.
fn show_more_opers(into: &mut Vec<u8>, message: u8, mut tlvs: Tlvs) -> Result<(), PathFault>
    ensures shown { Shows result (each_in (oper_at message) tlvs.entry.items tlvs.entry.fault) (flat_map oper_text) into.old.items into.new.items }
    ensures kept { Keeps into.old.items into.new.items }
{
    'items: while let Some(next) = tlvs.next() {
        match next {
            Err(fault) => return Err(PathFault::Wire(fault)),
            Ok(tlv) => show_oper(into, message, &tlv)?,
        }
    }
    Ok(())
}

// The operations of an LFBselect with an end, of which there is at least one.
fn show_opers(into: &mut Vec<u8>, message: u8, mut tlvs: Tlvs, end: usize) -> Result<(), PathFault>
    ensures shown { Shows result (some_in (oper_at message) end tlvs.entry.items tlvs.entry.fault) (flat_map oper_text) into.old.items into.new.items }
    ensures kept { Keeps into.old.items into.new.items }
{
    match tlvs.next() {
        None => Err(PathFault::WrongBody { place: end }),
        Some(Err(fault)) => Err(PathFault::Wire(fault)),
        Some(Ok(tlv)) => {
            show_oper(into, message, &tlv)?;
            show_more_opers(into, message, tlvs)
        }
    }
}

// An LFBselect.
fn show_select(into: &mut Vec<u8>, message: u8, tlv: &Tlv) -> Result<(), PathFault>
    ensures shown { Shows result (select_at message tlv.now) select_text into.old.items into.new.items }
    ensures kept { Keeps into.old.items into.new.items }
{
    let head = SelectHead::read(message, tlv)?;
    push_select_line(into, head.class, head.instance)?;
    show_opers(into, message, head.opers, head.end)
}

/// Appends the lines of all LFBselects of a message of a type that are left.
pub fn show_selects(into: &mut Vec<u8>, message: u8, mut tlvs: Tlvs) -> Result<(), PathFault>
    ensures shown { Shows result (each_in (select_at message) tlvs.entry.items tlvs.entry.fault) selects_text into.old.items into.new.items }
    ensures kept { Keeps into.old.items into.new.items }
{
    'items: while let Some(next) = tlvs.next() {
        match next {
            Err(fault) => return Err(PathFault::Wire(fault)),
            Ok(tlv) => show_select(into, message, &tlv)?,
        }
    }
    Ok(())
}

/// Appends the lines of the LFBselects of a message of a type with an end, of which there is at least one.
pub fn show_some_selects(
    into: &mut Vec<u8>,
    message: u8,
    mut tlvs: Tlvs,
    end: usize,
) -> Result<(), PathFault>
    ensures shown { Shows result (some_in (select_at message) end tlvs.entry.items tlvs.entry.fault) selects_text into.old.items into.new.items }
    ensures kept { Keeps into.old.items into.new.items }
{
    match tlvs.next() {
        None => Err(PathFault::WrongBody { place: end }),
        Some(Err(fault)) => Err(PathFault::Wire(fault)),
        Some(Ok(tlv)) => {
            show_select(into, message, &tlv)?;
            show_selects(into, message, tlvs)
        }
    }
}
