// Numbers and their bytes: unsigned, or in two's complement.
ghost use Rattle.std.specs.Prelude.{◌≡◌, ◌≤◌, ◌<◌, ◌++◌, ◌*◌, ◌^◌, ◌-◌, ◌%◌, pos, true, length, IfOk, OnOk};
ghost use Rattle.fc_value.specs.Numbers as spec;
ghost use Rattle.fc_value.specs.Outcomes.{Gives};
ghost use Rattle.fc_value.specs.Reading.{number_in};

use crate::Value;
use crate::parts::take;
use fc_base::{Code, Memory, OpFault};

// Whether a number has so many bytes.
fn is_width(width: usize) -> bool
    ensures { result ≡ spec.is_width width }
{
    width == 1 || width == 2 || width == 4 || width == 8
}

// The number whose digits to the base 256 are the bytes, at most eight.
fn unsigned(bytes: &[u8]) -> u64
    requires { length bytes.now ≤ 8 }
    ensures value { result ≡ spec.unsigned bytes.now }
    ensures bound { result < 2 ^ (8 * length bytes.now) }
{
    let mut number: u64 = 0;
    for byte in bytes {
        number = number * 256 + u64::from(*byte);
    }
    number
}

// The least number of so many bytes that stands for a negative one.
fn half(width: usize) -> i128
    requires { spec.is_width width ≡ true }
    ensures { result ≡ pos (2 ^ (8 * width - 1)) }
{
    match width {
        1 => 0x80,
        2 => 0x8000,
        4 => 0x8000_0000,
        _ => 0x8000_0000_0000_0000,
    }
}

// The number that the bytes stand for.
fn number_of(bytes: &[u8], signed: bool) -> i128
    requires { spec.is_width (length bytes.now) ≡ true }
    ensures { result ≡ spec.number_of signed bytes.now }
{
    let number = i128::from(unsigned(bytes));
    let half = half(bytes.len());
    if signed && number >= half {
        number - half - half
    } else {
        number
    }
}

/// The number in so many bytes at the front, which must be from `min` to `max`, and what stands behind it.
pub fn read_number(
    bytes: &[u8],
    width: u8,
    signed: bool,
    min: i128,
    max: i128,
) -> Result<(Value, &[u8]), OpFault>
    ensures exact { Gives (λ x. (x.0, x.1.now)) result (number_in width signed min max bytes.now) }
    ensures short { IfOk result (λ x. length x.1.now ≤ length bytes.now) }
{
    let width = usize::from(width);
    if !is_width(width) {
        return Err(OpFault::Refused(Code::VALUE_OUT_OF_RANGE));
    }
    let (front, rest) = take(bytes, width)?;
    let number = number_of(front, signed);
    if number < min || max < number {
        return Err(OpFault::Refused(Code::VALUE_OUT_OF_RANGE));
    }
    Ok((Value::Number(number), rest))
}

// The 64 bits of a number in two's complement.
fn bits_of(number: i128) -> u64
    ensures { result ≡ spec.bits_of number }
{
    if number < 0 {
        u64::MAX - (-(number + 1) % 0x1_0000_0000_0000_0000) as u64
    } else {
        (number % 0x1_0000_0000_0000_0000) as u64
    }
}

// The last digit to the base 256.
fn digit(number: u64) -> u8
    ensures { result ≡ number % 256 }
{
    (number % 256) as u8
}

fn two_digits(number: u64) -> [u8; 2]
    ensures { result ≡ spec.digits 2 number }
{
    [digit(number >> 8), digit(number)]
}

fn four_digits(number: u64) -> [u8; 4]
    ensures { result ≡ spec.digits 4 number }
{
    [
        digit(number >> 24),
        digit(number >> 16),
        digit(number >> 8),
        digit(number),
    ]
}

fn eight_digits(number: u64) -> [u8; 8]
    ensures { result ≡ spec.digits 8 number }
{
    [
        digit(number >> 56),
        digit(number >> 48),
        digit(number >> 40),
        digit(number >> 32),
        digit(number >> 24),
        digit(number >> 16),
        digit(number >> 8),
        digit(number),
    ]
}

/// Appends a number in 1, 2, 4 or 8 bytes, and nothing where no number has so many bytes.
pub fn write_number(width: u8, number: i128, into: &mut Vec<u8>) -> Result<(), Memory>
    ensures { OnOk result (into.new.items ≡ into.old.items ++ spec.number_bytes width number) }
{
    let bits = bits_of(number);
    match width {
        1 => into.push(digit(bits))?,
        2 => into.extend_from_slice(&two_digits(bits))?,
        4 => into.extend_from_slice(&four_digits(bits))?,
        8 => into.extend_from_slice(&eight_digits(bits))?,
        _ => {}
    }
    Ok(())
}
