// The words of a step.
ghost use Rattle.std.specs.Prelude.{◌≡◌, ◌≤◌, ◌<◌, ◌^◌, option_map};
ghost use Rattle.fc_steps.specs.Words as spec;

use fc_base::{Epoch, FeId, TxnId};
use std::num::ParseIntError;

/// What stands in front of the first space, and what stands behind it.
pub(crate) fn at_space(text: &str) -> Option<(&str, &str)>
    ensures { option_map (λ p. (p.0.now, p.1.now)) result ≡ spec.cut 32 text.now }
{
    text.split_once(' ')
}

/// The same of a full stop.
fn at_stop(text: &str) -> Option<(&str, &str)>
    ensures { option_map (λ p. (p.0.now, p.1.now)) result ≡ spec.cut 46 text.now }
{
    text.split_once('.')
}

/// And of a hyphen.
pub(crate) fn at_hyphen(text: &str) -> Option<(&str, &str)>
    ensures { option_map (λ p. (p.0.now, p.1.now)) result ≡ spec.cut 45 text.now }
{
    text.split_once('-')
}

// Whether a word can be a number: it begins with a digit, and with 0 only where that is all of it.
fn begins_like_a_number(word: &[u8]) -> bool
    ensures { result ≡ spec.begins_like_a_number word.now }
{
    match word {
        [] => false,
        [first] => b'0' <= *first && *first <= b'9',
        [first, ..] => b'1' <= *first && *first <= b'9',
    }
}

// The number that was read, where it lies in this range.
fn in_range(low: u64, most: u64, read: Result<u64, ParseIntError>) -> Option<u64>
    ensures { result ≡ spec.in_range low most read }
{
    match read {
        Ok(number) if low <= number && number <= most => Some(number),
        _ => None,
    }
}

/// A number from `low` to `most` in decimal, without a sign or leading zeros.
pub(crate) fn number(low: u64, most: u64, word: &str) -> Option<u64>
    ensures { result ≡ spec.number low most word.now }
{
    if begins_like_a_number(word.as_bytes()) {
        in_range(low, most, u64::from_str_radix(word, 10))
    } else {
        None
    }
}

/// A controller's number.
pub(crate) fn controller(word: &str) -> Option<u8>
    ensures { result ≡ spec.controller word.now }
{
    let number = number(0, 255, word)?;
    Some(number as u8)
}

// A number that fits in 32 bits.
fn word_number(low: u64, most: u32, word: &str) -> Option<u32>
    ensures { result ≡ spec.number low most word.now }
{
    let number = number(low, u64::from(most), word)?;
    Some(number as u32)
}

/// The ID of an element.
pub(crate) fn element(word: &str) -> Option<FeId>
    ensures { result ≡ spec.element word.now }
{
    let number = word_number(1, 0x3FFF_FFFF, word)?;
    FeId::of(number)
}

/// A round.
pub(crate) fn round(word: &str) -> Option<u32>
    ensures { result ≡ spec.round word.now }
{
    word_number(1, 0x00FF_FFFF, word)
}

/// A moment, or a place in the list of messages.
pub(crate) fn long(word: &str) -> Option<u64>
    ensures { result ≡ spec.long word.now }
{
    number(0, u64::MAX, word)
}

// The life that a word tells.
fn epoch(word: &str) -> Option<Epoch>
    ensures { result ≡ spec.epoch word.now }
{
    let number = word_number(0, u32::MAX, word)?;
    Epoch::from_word(number)
}

/// A transaction.
pub(crate) fn txn(word: &str) -> Option<TxnId>
    ensures { result ≡ spec.txn word.now }
{
    let (epoch_word, number_word) = at_stop(word)?;
    let epoch = epoch(epoch_word)?;
    let number = word_number(1, u32::MAX, number_word)?;
    TxnId::of(epoch, number)
}

/// Whether a word can be the name of a transaction: it is not empty, and has no space.
pub(crate) fn is_name(word: &str) -> bool
    ensures { result ≡ spec.is_name word.now }
{
    !word.is_empty() && at_space(word).is_none()
}
