// Writing selects.
ghost use Rattle.std.specs.Prelude.{◌≡◌, ◌++◌, ◌≤◌, ◌<◌, true, false, map, OnOk, OnErr};
ghost use Rattle.std.specs.List.{flat_map};
ghost use Rattle.std.specs.Result.{IsErrOf};
ghost use Rattle.fc_base.specs.declared.faults.WriteFault.TheVariants.{TooLong};
ghost use Rattle.fc_wire.specs.Bytes.{u32_bytes};
ghost use Rattle.fc_wire.specs.Types as types;
ghost use Rattle.fc_wire.specs.Writing.{writing};
ghost use Rattle.fc_path.specs.Canon.{Pushed, plain, wrapped, joined, ilv_written, result_written, key_written, key_flags, body_written, path_written, oper_written, select_written};

use crate::{Body, Key, Oper, PathData, Select};
use fc_base::{Code, Memory, WriteFault};
use fc_wire::{
    COMMIT, COMMIT_RESPONSE, FULL_DATA, Ilv, KEY_INFO, PATH_DATA, RESULT, SELECT, SPARSE_DATA,
    TRCOMP, TlvWriter,
};

/// Puts IDs, each in four bytes.
pub(crate) fn put_ids(to: &mut TlvWriter, ids: &[u32]) -> Result<(), Memory>
    ensures { OnOk result (to.new ≡ writing (to.old.text ++ flat_map u32_bytes ids.now) to.old.places) }
{
    for id in ids {
        to.put_u32(*id)?;
    }
    Ok(())
}

/// Writes a TLV that holds these bytes.
pub fn write_leaf(to: &mut TlvWriter, kind: u16, value: &[u8]) -> Result<(), WriteFault>
    ensures { Pushed result to.old to.new (wrapped kind (plain value.now)) }
{
    let begun = to.begin(kind)?;
    to.put(value)?;
    to.end(begun)
}

/// Writes a RESULT.
pub fn write_outcome(to: &mut TlvWriter, code: Code) -> Result<(), WriteFault>
    ensures { Pushed result to.old to.new (result_written code) }
{
    write_leaf(to, RESULT, &[code.0, 0, 0, 0])
}

// An ILV with its padding.
fn write_ilv(to: &mut TlvWriter, ilv: &Ilv) -> Result<(), WriteFault>
    ensures { Pushed result to.old to.new (ilv_written ilv.now) }
{
    let len = ilv.value.len();
    if len > 0xffff_fff7 {
        return Err(WriteFault::TooLong);
    }
    to.put_u32(ilv.ident)?;
    to.put_u32((len + 8) as u32)?;
    to.put(ilv.value.as_slice())?;
    to.put_padding(len)?;
    Ok(())
}

fn write_ilvs(to: &mut TlvWriter, ilvs: &[Ilv]) -> Result<(), WriteFault>
    ensures { Pushed result to.old to.new (joined (map ilv_written ilvs.now)) }
{
    for ilv in ilvs {
        write_ilv(to, ilv)?;
    }
    Ok(())
}

// A SPARSEDATA.
fn write_sparse(to: &mut TlvWriter, ilvs: &[Ilv]) -> Result<(), WriteFault>
    ensures { Pushed result to.old to.new (wrapped types.sparse_data (joined (map ilv_written ilvs.now))) }
{
    let begun = to.begin(SPARSE_DATA)?;
    write_ilvs(to, ilvs)?;
    to.end(begun)
}

// A KEYINFO, where there is a key.
fn write_key(to: &mut TlvWriter, key: &Option<Key>) -> Result<(), WriteFault>
    ensures { Pushed result to.old to.new (key_written key.now) }
{
    match key {
        None => Ok(()),
        Some(key) => {
            let begun = to.begin(KEY_INFO)?;
            to.put_u32(key.ident)?;
            write_leaf(to, FULL_DATA, key.value.as_slice())?;
            to.end(begun)
        }
    }
}

// The flags of a PATH-DATA, which tell whether it has a key.
fn flags_of(key: &Option<Key>) -> u16
    ensures { result ≡ key_flags key.now }
{
    match key {
        None => 0,
        Some(_) => 0x8000,
    }
}

#[cycle(write)]
fn write_path(to: &mut TlvWriter, path: &PathData) -> Result<(), WriteFault>
    ensures { Pushed result to.old to.new (path_written path.now) }
{
    let count = path.ids.len();
    if count > 65535 {
        return Err(WriteFault::TooLong);
    }
    let begun = to.begin(PATH_DATA)?;
    to.put_u16(flags_of(&path.key))?;
    to.put_u16(count as u16)?;
    put_ids(to, path.ids.as_slice())?;
    write_key(to, &path.key)?;
    write_body(to, &path.body)?;
    to.end(begun)
}

#[cycle(write)]
fn write_body(to: &mut TlvWriter, body: &Body) -> Result<(), WriteFault>
    ensures { Pushed result to.old to.new (body_written body.now) }
{
    match body {
        Body::Nothing => Ok(()),
        Body::Full(value) => write_leaf(to, FULL_DATA, value.as_slice()),
        Body::Sparse(ilvs) => write_sparse(to, ilvs.as_slice()),
        Body::Outcome(code) => write_outcome(to, *code),
        Body::Nested(paths) => write_paths(to, paths.as_slice()),
    }
}

#[cycle(write)]
fn write_paths(to: &mut TlvWriter, paths: &[PathData]) -> Result<(), WriteFault>
    ensures { Pushed result to.old to.new (joined (map path_written paths.now)) }
{
    for path in paths {
        write_path(to, path)?;
    }
    Ok(())
}

// An operation that holds PATH-DATA.
fn write_operation(to: &mut TlvWriter, kind: u16, paths: &[PathData]) -> Result<(), WriteFault>
    ensures { Pushed result to.old to.new (wrapped kind (joined (map path_written paths.now))) }
{
    let begun = to.begin(kind)?;
    write_paths(to, paths)?;
    to.end(begun)
}

/// Writes a COMMIT-RESPONSE.
pub fn write_response(to: &mut TlvWriter, code: Code) -> Result<(), WriteFault>
    ensures { Pushed result to.old to.new (wrapped types.commit_response (result_written code)) }
{
    let begun = to.begin(COMMIT_RESPONSE)?;
    write_outcome(to, code)?;
    to.end(begun)
}

fn write_oper(to: &mut TlvWriter, oper: &Oper) -> Result<(), WriteFault>
    ensures { Pushed result to.old to.new (oper_written oper.now) }
{
    match oper {
        Oper::Paths(kind, paths) => write_operation(to, kind.number(), paths.as_slice()),
        Oper::Commit => write_leaf(to, COMMIT, &[]),
        Oper::Trcomp => write_leaf(to, TRCOMP, &[]),
        Oper::CommitResponse(code) => write_response(to, *code),
    }
}

fn write_opers(to: &mut TlvWriter, opers: &[Oper]) -> Result<(), WriteFault>
    ensures { Pushed result to.old to.new (joined (map oper_written opers.now)) }
{
    for oper in opers {
        write_oper(to, oper)?;
    }
    Ok(())
}

fn write_select(to: &mut TlvWriter, select: &Select) -> Result<(), WriteFault>
    ensures { Pushed result to.old to.new (select_written select.now) }
{
    let begun = to.begin(SELECT)?;
    to.put_u32(select.class)?;
    to.put_u32(select.instance)?;
    write_opers(to, select.opers.as_slice())?;
    to.end(begun)
}

impl Select {
    /// Writes the canonical spelling of the select, whose free bits and padding are zero. Refuses `TooLong` exactly
    /// where a length passes its field. After an `Err` the writer holds what it held.
    pub fn write(&self, to: &mut TlvWriter) -> Result<(), WriteFault>
        ensures ok { OnOk result (((select_written self.now).fits ≡ true) × (to.new ≡ writing (to.old.text ++ (select_written self.now).text) to.old.places)) }
        ensures long { IsErrOf result TooLong → (select_written self.now).fits ≡ false }
        ensures err { OnErr result (to.new ≡ to.old) }
    {
        let mut apart = TlvWriter::new(to.alloc());
        write_select(&mut apart, self)?;
        to.put(&apart.finish())?;
        Ok(())
    }

    /// Does the same in place, which takes less time. After an `Err` the writer may hold a part of the select.
    pub fn write_in_place(&self, to: &mut TlvWriter) -> Result<(), WriteFault>
        ensures { Pushed result to.old to.new (select_written self.now) }
    {
        write_select(to, self)
    }
}
