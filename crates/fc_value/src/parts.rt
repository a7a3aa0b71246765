// Parts of bytes that hold values.
ghost use Rattle.std.specs.Prelude.{◌≡◌, ◌++◌, ◌+◌, ◌-◌, ◌%◌, ◌≤◌, ◌<◌, length, IfOk, OnOk};
ghost use Rattle.fc_wire.specs.Bytes.{u32_at};
ghost use Rattle.fc_value.specs.Outcomes.{Gives};
ghost use Rattle.fc_value.specs.Reading.{taken, truth_in, fixed_in, text_of, octets_of, cut, unpadded, closed, held};
ghost use Rattle.fc_value.specs.Writing.{full_data_tlv};

use crate::Value;
use fc_base::{Code, Memory, Octets, OpFault, Text};
use fc_wire::{FULL_DATA, push_padding, read_u16};
use std::alloc::Global;

/// So many bytes at the front, and what stands behind them.
pub fn take(bytes: &[u8], count: usize) -> Result<(&[u8], &[u8]), OpFault>
    ensures exact { Gives (λ x. (x.0.now, x.1.now)) result (taken count bytes.now) }
    ensures front { IfOk result (λ x. length x.0.now ≡ count) }
    ensures rest { IfOk result (λ x. length x.1.now + count ≡ length bytes.now) }
{
    if bytes.len() < count {
        return Err(OpFault::Refused(Code::INVALID_TLV));
    }
    Ok(bytes.split_at(count))
}

/// The truth value at the front, and what stands behind it.
pub fn read_truth(bytes: &[u8]) -> Result<(Value, &[u8]), OpFault>
    ensures exact { Gives (λ x. (x.0, x.1.now)) result (truth_in bytes.now) }
    ensures short { IfOk result (λ x. length x.1.now ≤ length bytes.now) }
{
    match bytes {
        [] => Err(OpFault::Refused(Code::INVALID_TLV)),
        [0, rest @ ..] => Ok((Value::Truth(false), rest)),
        [1, rest @ ..] => Ok((Value::Truth(true), rest)),
        [_, ..] => Err(OpFault::Refused(Code::VALUE_OUT_OF_RANGE)),
    }
}

/// So many bytes at the front as a value, and what stands behind them.
pub fn read_fixed(alloc: Global, bytes: &[u8], count: u32) -> Result<(Value, &[u8]), OpFault>
    ensures exact { Gives (λ x. (x.0, x.1.now)) result (fixed_in count bytes.now) }
    ensures short { IfOk result (λ x. length x.1.now ≤ length bytes.now) }
{
    let (front, rest) = take(bytes, count as usize)?;
    Ok((Value::Raw(Octets::from_slice(alloc, front)?), rest))
}

/// The bytes as a text of at most so many bytes.
pub fn read_text(alloc: Global, bytes: &[u8], limit: u32) -> Result<Value, OpFault>
    ensures { Gives (λ x. x) result (text_of limit bytes.now) }
{
    match str::from_utf8(bytes) {
        Ok(text) => {
            if text.len() > limit as usize {
                return Err(OpFault::Refused(Code::VALUE_OUT_OF_RANGE));
            }
            Ok(Value::Text(Text::from_str(alloc, text)?))
        }
        Err(_) => Err(OpFault::Refused(Code::INVALID_PARAMETERS)),
    }
}

/// The bytes as octets, at most so many.
pub fn read_octets(alloc: Global, bytes: &[u8], limit: u32) -> Result<Value, OpFault>
    ensures { Gives (λ x. x) result (octets_of limit bytes.now) }
{
    if bytes.len() > limit as usize {
        return Err(OpFault::Refused(Code::VALUE_OUT_OF_RANGE));
    }
    Ok(Value::Raw(Octets::from_slice(alloc, bytes)?))
}

/// The value of the FULLDATA at the front, and what stands behind it, which begins with its padding.
#[tactic(auto, unfolding(crate::specs::Reading::cut))]
pub fn cut_full_data(bytes: &[u8]) -> Result<(&[u8], &[u8]), OpFault>
    ensures exact { Gives (λ x. (x.0.now, x.1.now)) result (cut bytes.now) }
    ensures short { IfOk result (λ x. length x.1.now ≤ length bytes.now) }
{
    if bytes.len() < 4 {
        return Err(OpFault::Refused(Code::INVALID_TLV));
    }
    let length = usize::from(read_u16(bytes, 2));
    if read_u16(bytes, 0) != FULL_DATA || length < 4 {
        return Err(OpFault::Refused(Code::INVALID_TLV));
    }
    if bytes.len() < length {
        return Err(OpFault::Refused(Code::INVALID_TLV));
    }
    Ok((&bytes[4..length], &bytes[length..]))
}

/// What stands behind the padding of a value of a length.
pub fn skip_padding(bytes: &[u8], size: usize) -> Result<&[u8], OpFault>
    ensures exact { Gives (λ x. x.now) result (unpadded size bytes.now) }
    ensures short { IfOk result (λ x. length x.now ≤ length bytes.now) }
{
    let (_, rest) = take(bytes, (4 - size % 4) % 4)?;
    Ok(rest)
}

/// The value of a size, with what stands behind its padding.
pub fn close(value: Value, bytes: &[u8], size: usize) -> Result<(Value, &[u8]), OpFault>
    ensures exact { Gives (λ x. (x.0, x.1.now)) result (closed value size bytes.now) }
    ensures short { IfOk result (λ x. length x.1.now ≤ length bytes.now) }
{
    match skip_padding(bytes, size) {
        Ok(rest) => Ok((value, rest)),
        Err(fault) => Err(fault),
    }
}

/// The text of at most so many bytes in the FULLDATA at the front, and what stands behind it.
pub fn read_held_text(alloc: Global, bytes: &[u8], limit: u32) -> Result<(Value, &[u8]), OpFault>
    ensures exact { Gives (λ x. (x.0, x.1.now)) result (held (text_of limit) bytes.now) }
    ensures short { IfOk result (λ x. length x.1.now ≤ length bytes.now) }
{
    let (body, behind) = cut_full_data(bytes)?;
    let value = read_text(alloc, body, limit)?;
    close(value, behind, body.len())
}

/// The octets, at most so many, in the FULLDATA at the front, and what stands behind it.
pub fn read_held_octets(alloc: Global, bytes: &[u8], limit: u32) -> Result<(Value, &[u8]), OpFault>
    ensures exact { Gives (λ x. (x.0, x.1.now)) result (held (octets_of limit) bytes.now) }
    ensures short { IfOk result (λ x. length x.1.now ≤ length bytes.now) }
{
    let (body, behind) = cut_full_data(bytes)?;
    let value = read_octets(alloc, body, limit)?;
    close(value, behind, body.len())
}

/// Appends a FULLDATA with its padding, whose value is at most 65,531 bytes long.
#[tactic(auto, unfolding(crate::specs::Writing::full_data_tlv))]
pub fn write_full_data(value: &[u8], into: &mut Vec<u8>) -> Result<(), Memory>
    ensures { OnOk result (into.new.items ≡ into.old.items ++ full_data_tlv value.now) }
{
    let size = value.len() + 4;
    into.extend_from_slice(&[1, 18, (size / 256 % 256) as u8, (size % 256) as u8])?;
    into.extend_from_slice(value)?;
    push_padding(into, value.len())
}
