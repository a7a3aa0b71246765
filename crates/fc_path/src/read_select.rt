// Reading operations and selects, with the first fault in reading order.
ghost use Rattle.std.specs.Prelude.{◌≡◌, Ok, IfOk};
ghost use Rattle.fc_path.specs.Stray.{Gives, misplaced as is_misplaced};
ghost use Rattle.fc_wire.specs.Bytes.{AreBytes};
ghost use Rattle.fc_path.specs.Grammar.{IsSelectOf};
ghost use Rattle.fc_path.specs.declared.oper.Select.{Select as Selected};
ghost use Rattle.fc_path.specs.SelectHeads.{with_paths};
ghost use Rattle.fc_path.specs.Reading.{some_in, path_or, path_at, oper_at, select_at};

use crate::read_path::read_path;
use crate::select_heads::{OperHead, SelectHead};
use crate::stray::must_be_path;
use crate::{Oper, OperKind, PathData, PathFault, Select};
use fc_base::{List, Shared};
use fc_wire::{Tlv, Tlvs};
use std::alloc::Global;

/// How deep PATH-DATA may nest.
pub const DEPTH: usize = 16;

// The PATH-DATA of an operation with an end, of which there is at least one.
fn read_paths(
    alloc: Global,
    kind: OperKind,
    mut tlvs: Tlvs,
    end: usize,
) -> Result<List<PathData>, PathFault>
    ensures { Gives result (some_in (path_or is_misplaced (path_at kind 16)) end tlvs.entry.items tlvs.entry.fault) }
{
    let mut paths = List::new(alloc);
    'items: while let Some(next) = tlvs.next() {
        match next {
            Err(fault) => return Err(PathFault::Wire(fault)),
            Ok(tlv) => {
                let path = PathData::read(alloc, kind, &tlv)?;
                paths.push(path)?;
            }
        }
    }
    if paths.is_empty() {
        return Err(PathFault::WrongBody { place: end });
    }
    Ok(paths)
}

// An operation, with the PATH-DATA that it holds of its own.
fn owned_oper(alloc: Global, head: OperHead) -> Result<Oper, PathFault>
    ensures { Gives result (with_paths head.entry) }
{
    match head {
        OperHead::Paths { kind, paths, end } => {
            let paths = read_paths(alloc, kind, paths, end)?;
            Ok(Oper::Paths(kind, Shared::of(paths)?))
        }
        OperHead::Commit => Ok(Oper::Commit),
        OperHead::Trcomp => Ok(Oper::Trcomp),
        OperHead::CommitResponse(code) => Ok(Oper::CommitResponse(code)),
    }
}

// A TLV inside an LFBselect.
fn read_oper(alloc: Global, message: u8, tlv: &Tlv) -> Result<Oper, PathFault>
    ensures { Gives result (oper_at message tlv.now) }
{
    let head = OperHead::read(message, tlv)?;
    owned_oper(alloc, head)
}

// The operations of an LFBselect with an end, of which there is at least one.
fn read_opers(
    alloc: Global,
    message: u8,
    mut tlvs: Tlvs,
    end: usize,
) -> Result<List<Oper>, PathFault>
    ensures { Gives result (some_in (oper_at message) end tlvs.entry.items tlvs.entry.fault) }
{
    let mut opers = List::new(alloc);
    'items: while let Some(next) = tlvs.next() {
        match next {
            Err(fault) => return Err(PathFault::Wire(fault)),
            Ok(tlv) => {
                let oper = read_oper(alloc, message, &tlv)?;
                opers.push(oper)?;
            }
        }
    }
    if opers.is_empty() {
        return Err(PathFault::WrongBody { place: end });
    }
    Ok(opers)
}

// An LFBselect.
fn read_select(alloc: Global, message: u8, tlv: &Tlv) -> Result<Select, PathFault>
    ensures { Gives result (select_at message tlv.now) }
{
    let head = SelectHead::read(message, tlv)?;
    let opers = read_opers(alloc, message, head.opers, head.end)?;
    Ok(Select {
        class: head.class,
        instance: head.instance,
        opers,
    })
}

impl PathData {
    /// The PATH-DATA of an operation that a TLV is, or the first rule in reading order that the TLV breaks.
    pub fn read(alloc: Global, kind: OperKind, tlv: &Tlv) -> Result<PathData, PathFault>
        ensures { Gives result (path_or is_misplaced (path_at kind 16) tlv.now) }
    {
        must_be_path(tlv)?;
        read_path(alloc, kind, DEPTH, tlv)
    }
}

/// That the items of a slice of bytes are bytes, for proofs: it does nothing.
#[inline(always)]
fn are_bytes(bytes: &[u8])
    ensures { AreBytes bytes.now }
{}

impl Select {
    /// The select that a TLV of a message of a type is, or the first rule in reading order that the TLV breaks.
    pub fn read(alloc: Global, tlv: &Tlv, message: u8) -> Result<Select, PathFault>
        ensures found { IfOk result (λ s. IsSelectOf message s tlv.now) }
        ensures only { (s : Selected) → IsSelectOf message s tlv.now → Gives result (Ok s) }
        ensures exact { Gives result (select_at message tlv.now) }
    {
        let padded = tlv.padded();
        are_bytes(padded);
        read_select(alloc, message, tlv)
    }
}
