// Writing what words of a line say.
ghost use Rattle.std.specs.Prelude.{◌≡◌, ◌++◌, length, option_map, OnOk};
ghost use Rattle.std.specs.List.{flat_map};
ghost use Rattle.fc_wire.specs.Bytes.{u32_bytes};
ghost use Rattle.fc_wire.specs.Types as types;
ghost use Rattle.fc_wire.specs.Writing.{writing};
ghost use Rattle.fc_path.specs.Canon.{Pushed, ilv_written, key_flags, key_written, plain, wrapped};
ghost use Rattle.fc_lines.specs.LineReading.{ilv_of, key_of, steps_said};
ghost use Rattle.fc_making.specs.Writes.{steps_written};

use fc_base::{Memory, WriteFault};
use fc_lines::{HexWord, Numbered, Numbers, PathLine};
use fc_wire::{FULL_DATA, KEY_INFO, TlvWriter};

// Puts the bytes of a word.
#[inline(always)]
fn put_bytes(to: &mut TlvWriter, mut word: HexWord) -> Result<(), Memory>
    ensures { OnOk result (to.new ≡ writing (to.old.text ++ word.entry) to.old.places) }
{
    'fours: while let Some(number) = word.next_four() {
        to.put_u32(number)?;
    }
    'bytes: while let Some(byte) = word.next() {
        to.put(&[byte])?;
    }
    Ok(())
}

// Puts IDs, each in four bytes.
#[inline(always)]
fn put_numbers(to: &mut TlvWriter, mut numbers: Numbers) -> Result<(), Memory>
    ensures { OnOk result (to.new ≡ writing (to.old.text ++ flat_map u32_bytes numbers.entry) to.old.places) }
{
    'numbers: while let Some(number) = numbers.next() {
        to.put_u32(number)?;
    }
    Ok(())
}

/// Writes a FULLDATA.
#[inline(always)]
pub fn write_full(to: &mut TlvWriter, word: HexWord) -> Result<(), WriteFault>
    ensures { Pushed result to.old to.new (wrapped types.full_data (plain word.entry)) }
{
    let begun = to.begin(FULL_DATA)?;
    put_bytes(to, word)?;
    to.end(begun)
}

/// Writes an ILV with its padding.
pub fn write_ilv(to: &mut TlvWriter, said: Numbered) -> Result<(), WriteFault>
    ensures { Pushed result to.old to.new (ilv_written (ilv_of said.entry)) }
{
    let Numbered { number, bytes } = said;
    let len = bytes.len();
    if len > 0xffff_fff7 {
        return Err(WriteFault::TooLong);
    }
    to.put_u32(number)?;
    to.put_u32((len + 8) as u32)?;
    put_bytes(to, bytes)?;
    to.put_padding(len)?;
    Ok(())
}

// A KEYINFO.
#[inline(always)]
fn write_key_info(to: &mut TlvWriter, said: Numbered) -> Result<(), WriteFault>
    ensures { Pushed result to.old to.new (key_written (Some (key_of said.entry))) }
{
    let Numbered { number, bytes } = said;
    let begun = to.begin(KEY_INFO)?;
    to.put_u32(number)?;
    write_full(to, bytes)?;
    to.end(begun)
}

// A KEYINFO, where there is a key.
#[inline(always)]
fn write_key(to: &mut TlvWriter, said: Option<Numbered>) -> Result<(), WriteFault>
    ensures { Pushed result to.old to.new (key_written (option_map key_of said.entry)) }
{
    match said {
        None => Ok(()),
        Some(said) => write_key_info(to, said),
    }
}

// The flags of a PATH-DATA, which tell whether it has a key.
fn flags_of(key: &Option<Numbered>) -> u16
    ensures { result ≡ key_flags (option_map key_of key.now) }
{
    match key {
        None => 0,
        Some(_) => 0x8000,
    }
}

/// Writes what stands in a PATH-DATA in front of its body.
#[inline(always)]
pub fn write_steps(to: &mut TlvWriter, said: PathLine) -> Result<(), WriteFault>
    ensures { Pushed result to.old to.new (steps_written (steps_said said.entry)) }
{
    let PathLine { ids, key } = said;
    let count = ids.len();
    if count > 65535 {
        return Err(WriteFault::TooLong);
    }
    to.put_u16(flags_of(&key))?;
    to.put_u16(count as u16)?;
    put_numbers(to, ids)?;
    write_key(to, key)
}
