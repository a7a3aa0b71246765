// The values that words spell.
ghost use Rattle.std.specs.Prelude.{◌≡◌, ◌≤◌, ◌<◌, ◌^◌, drop};
ghost use Rattle.fc_words.specs.Numbers as spec;

use fc_base::{CeId, FeId};
use std::num::ParseIntError;

/// The ID of a forwarding element, in decimal.
pub(crate) fn fe_id(word: &str) -> Option<FeId>
    ensures { result ≡ spec.decimal_up_to 1073741823 word.now }
{
    FeId::of(decimal_up_to(1_073_741_823, word)?)
}

/// A count from 1 to 4,294,967,295, in decimal.
pub(crate) fn count(word: &str) -> Option<u32>
    ensures { result ≡ spec.decimal_up_to 4294967295 word.now }
{
    decimal_up_to(4_294_967_295, word)
}

/// A number of transactions from 1 to 1,000, in decimal.
pub(crate) fn transactions(word: &str) -> Option<u32>
    ensures { result ≡ spec.decimal_up_to 1000 word.now }
{
    decimal_up_to(1000, word)
}

// A number from 1 to `most` in decimal, without a sign or leading zeros.
fn decimal_up_to(most: u32, word: &str) -> Option<u32>
    ensures { result ≡ spec.decimal_up_to most word.now }
{
    if begins_without_zero(word.as_bytes()) {
        at_most(most, u32::from_str_radix(word, 10))
    } else {
        None
    }
}

// Whether the first character is a decimal digit other than 0.
fn begins_without_zero(word: &[u8]) -> bool
    ensures { result ≡ spec.begins_without_zero word.now }
{
    match word {
        [] => false,
        [first, ..] => b'1' <= *first && *first <= b'9',
    }
}

// The number that was read, if there is one and it is not greater than `most`.
fn at_most(most: u32, read: Result<u32, ParseIntError>) -> Option<u32>
    ensures { result ≡ spec.at_most most read }
{
    match read {
        Ok(number) if number <= most => Some(number),
        _ => None,
    }
}

/// The ID of a control element, in eight hexadecimal digits of either case.
pub(crate) fn ce_id(word: &str) -> Option<CeId>
    ensures { result ≡ spec.ce_of word.now }
{
    if word.len() != 8 || !are_hexadecimal(word.as_bytes()) {
        return None;
    }
    match u32::from_str_radix(word, 16) {
        Ok(number) => CeId::of(number),
        Err(_) => None,
    }
}

fn are_hexadecimal(word: &[u8]) -> bool
    ensures { result ≡ spec.are_hexadecimal word.now }
{
    'bytes: for byte in word {
        if !byte.is_ascii_hexdigit() {
            return false;
        }
    }
    true
}
