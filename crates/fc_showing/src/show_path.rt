// Reads PATH-DATA head by head and appends their lines as they are read, which takes no memory but that of the text.
ghost use Rattle.std.specs.Prelude.{◌≡◌, ◌++◌, Some, OnOk};
ghost use Rattle.std.specs.List.{flat_map};
ghost use Rattle.fc_path.specs.BodyHeads.{body_held, leaf_held};
ghost use Rattle.fc_path.specs.Stray.{beside as is_beside};
ghost use Rattle.fc_path.specs.Reading.{body_in, each_in, nested_in, own, path_at, path_or, sparse_in};
ghost use Rattle.fc_text.specs.Text.{body_text, id_text, ilv_text, key_text, path_line, path_text, sparse_text};
ghost use Rattle.fc_showing.specs.Appending.{Keeps, Shows};

use crate::append::push;
use crate::decimal::push_id;
use crate::message::{
    below, push_code, push_key_words, push_part, push_path_word, push_sparse_line, push_whole,
};
use fc_base::Memory;
use fc_path::{
    BodyRef, Ids, KeyRef, LeafRef, OperKind, PathFault, PathHead, must_be_nested, no_more_bodies,
};
use fc_wire::{IlvRef, Ilvs, Tlv, Tlvs};

// The IDs of a PATH-DATA.
#[inline(always)]
fn push_ids(into: &mut Vec<u8>, mut ids: Ids) -> Result<(), Memory>
    ensures text { OnOk result (into.new.items ≡ into.old.items ++ flat_map id_text ids.entry) }
    ensures kept { Keeps into.old.items into.new.items }
{
    'ids: while let Some(id) = ids.next() {
        push_id(into, id)?;
    }
    Ok(())
}

// The words of a key.
#[inline(always)]
fn push_key(into: &mut Vec<u8>, key: &Option<KeyRef>) -> Result<(), Memory>
    ensures text { OnOk result (into.new.items ≡ into.old.items ++ key_text key.now) }
    ensures kept { Keeps into.old.items into.new.items }
{
    match key {
        None => Ok(()),
        Some(key) => push_key_of(into, key),
    }
}

// The words of a key that is there.
fn push_key_of(into: &mut Vec<u8>, key: &KeyRef) -> Result<(), Memory>
    ensures text { OnOk result (into.new.items ≡ into.old.items ++ key_text (Some key.now)) }
    ensures kept { Keeps into.old.items into.new.items }
{
    push_key_words(into, key.ident, key.value)
}

// The line of a PATH-DATA.
#[inline(always)]
#[tactic(auto, unfolding(fc_text::specs::Text::path_line))]
fn push_head_line(
    into: &mut Vec<u8>,
    level: usize,
    ids: Ids,
    key: &Option<KeyRef>,
) -> Result<(), Memory>
    ensures text { OnOk result (into.new.items ≡ into.old.items ++ path_line level ids.entry key.now) }
    ensures kept { Keeps into.old.items into.new.items }
{
    push_path_word(into, level)?;
    push_ids(into, ids)?;
    push_key(into, key)?;
    push(into, b'\n')
}

// The line of an ILV.
#[inline(always)]
fn push_ilv(into: &mut Vec<u8>, level: usize, ilv: &IlvRef) -> Result<(), Memory>
    ensures text { OnOk result (into.new.items ≡ into.old.items ++ ilv_text level (own ilv.now)) }
    ensures kept { Keeps into.old.items into.new.items }
{
    push_part(into, level, ilv.ident, ilv.body)
}

// The ILVs of a SPARSEDATA that are left.
fn show_ilvs(into: &mut Vec<u8>, level: usize, mut ilvs: Ilvs) -> Result<(), PathFault>
    ensures shown { Shows result (sparse_in ilvs.entry.items ilvs.entry.fault) (flat_map (ilv_text level)) into.old.items into.new.items }
    ensures kept { Keeps into.old.items into.new.items }
{
    'items: while let Some(next) = ilvs.next() {
        match next {
            Err(fault) => return Err(PathFault::Wire(fault)),
            Ok(ilv) => push_ilv(into, level, &ilv)?,
        }
    }
    Ok(())
}

// A SPARSEDATA.
fn show_sparse(into: &mut Vec<u8>, level: usize, ilvs: Ilvs) -> Result<(), PathFault>
    ensures shown { Shows result (sparse_in ilvs.entry.items ilvs.entry.fault) (sparse_text level) into.old.items into.new.items }
    ensures kept { Keeps into.old.items into.new.items }
{
    push_sparse_line(into, level)?;
    let level = below(level)?;
    show_ilvs(into, level, ilvs)
}

// The lines of a body that holds no PATH-DATA.
fn show_leaf(into: &mut Vec<u8>, level: usize, leaf: LeafRef) -> Result<(), PathFault>
    ensures shown { Shows result (leaf_held leaf.entry) (λ body. body_text body level) into.old.items into.new.items }
    ensures kept { Keeps into.old.items into.new.items }
{
    match leaf {
        LeafRef::Nothing => Ok(()),
        LeafRef::Full(value) => {
            push_whole(into, level, value)?;
            Ok(())
        }
        LeafRef::Sparse(ilvs) => show_sparse(into, level, ilvs),
        LeafRef::Outcome(code) => {
            push_code(into, level, code)?;
            Ok(())
        }
    }
}

/// Appends the lines of a PATH-DATA of an operation at a level of indentation; `depth` levels of PATH-DATA may stand from it
/// on, itself among them. Each part is appended as soon as it is read. The first rule in reading order that its bytes break is
/// told with its place; then some of the lines may stand there.
#[cycle(show)]
pub fn show_path_at(
    into: &mut Vec<u8>,
    kind: OperKind,
    depth: usize,
    level: usize,
    tlv: &Tlv,
) -> Result<(), PathFault>
    ensures shown { Shows result (path_at kind depth tlv.now) (λ path. path_text path level) into.old.items into.new.items }
    ensures kept { Keeps into.old.items into.new.items }
{
    if depth == 0 {
        return Err(PathFault::Deep { place: tlv.place });
    }
    let head = PathHead::read(tlv)?;
    push_head_line(into, level, head.ids, &head.key)?;
    let inside = below(level)?;
    show_body(into, kind, depth - 1, inside, head.body, head.end)
}

// The lines of the body of a PATH-DATA with an end.
#[cycle(show)]
fn show_body(
    into: &mut Vec<u8>,
    kind: OperKind,
    depth: usize,
    level: usize,
    tlvs: Tlvs,
    end: usize,
) -> Result<(), PathFault>
    ensures shown { Shows result (body_in kind (path_at kind depth) end tlvs.entry.items tlvs.entry.fault) (λ body. body_text body level) into.old.items into.new.items }
    ensures kept { Keeps into.old.items into.new.items }
{
    let lent = BodyRef::read(kind, tlvs, end)?;
    show_held(into, kind, depth, level, lent)
}

// The lines of a body that is lent.
#[cycle(show)]
fn show_held(
    into: &mut Vec<u8>,
    kind: OperKind,
    depth: usize,
    level: usize,
    lent: BodyRef,
) -> Result<(), PathFault>
    ensures shown { Shows result (body_held (path_at kind depth) lent.entry) (λ body. body_text body level) into.old.items into.new.items }
    ensures kept { Keeps into.old.items into.new.items }
{
    match lent {
        BodyRef::Leaf(leaf, behind) => {
            show_leaf(into, level, leaf)?;
            no_more_bodies(behind)
        }
        BodyRef::Nested(first, behind) => show_nested(into, kind, depth, level, &first, behind),
    }
}

// The lines of the PATH-DATA that a PATH-DATA holds, and nothing else.
#[cycle(show)]
fn show_nested(
    into: &mut Vec<u8>,
    kind: OperKind,
    depth: usize,
    level: usize,
    first: &Tlv,
    tlvs: Tlvs,
) -> Result<(), PathFault>
    ensures shown { Shows result (nested_in (path_at kind depth) first.now tlvs.entry.items tlvs.entry.fault) (flat_map (λ path. path_text path level)) into.old.items into.new.items }
    ensures kept { Keeps into.old.items into.new.items }
{
    show_path_at(into, kind, depth, level, first)?;
    show_more_nested(into, kind, depth, level, tlvs)
}

// The PATH-DATA that are left of these.
#[cycle(show)]
fn show_more_nested(
    into: &mut Vec<u8>,
    kind: OperKind,
    depth: usize,
    level: usize,
    mut tlvs: Tlvs,
) -> Result<(), PathFault>
    ensures shown { Shows result (each_in (path_or is_beside (path_at kind depth)) tlvs.entry.items tlvs.entry.fault) (flat_map (λ path. path_text path level)) into.old.items into.new.items }
    ensures kept { Keeps into.old.items into.new.items }
{
    'items: while let Some(next) = tlvs.next() {
        match next {
            Err(fault) => return Err(PathFault::Wire(fault)),
            Ok(tlv) => {
                must_be_nested(&tlv)?;
                show_path_at(into, kind, depth, level, &tlv)?;
            }
        }
    }
    Ok(())
}
