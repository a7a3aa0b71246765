// Bytes that a word spells, lent before they are put anywhere.
ghost use Rattle.std.specs.Prelude.{◌≡◌, ◌≤◌, ◌<◌, ◌/◌, ◌++◌, ◌∷◌, Bool, length, OnOk, IfSome, IfNone};
ghost use Rattle.fc_wire.specs.Bytes.{u32_bytes};
ghost use Rattle.fc_path.specs.Heads.{behind_first, first_of};
ghost use Rattle.fc_lines.specs.WordValues.{Pairs, byte_of, digits_of, octets_of as octets_word};

use crate::values::{eight_digits, two_digits_of};
use fc_base::Memory;
use std::marker::Model;

/// The bytes of a word, which are two hexadecimal digits each, lent one after the other. Contracts see those that are still to
/// come.
#[derive(Debug, Drop)]
pub struct HexWord<'a> {
    digits: &'a [u8],
}

impl<'a> Model for HexWord<'a> {
    ghost use Rattle.std.specs.Prelude.{List, ℕ, true};
    ghost use Rattle.fc_lines.specs.WordValues.{Pairs, paired};

    ghost Value = { List ℕ };

    ghost view = { λ h. paired h.digits.now };

    ghost invariant = { λ h. Pairs h.digits.now true };
}

// What is left behind as many eights of hexadecimal digits as stand in front.
#[inline(always)]
fn behind_eights(word: &[u8]) -> &[u8]
    ensures { (whole : Bool) → Pairs result.now whole → Pairs word.now whole }
{
    let mut rest = word;
    'eights: while let Some((digits, more)) = rest.split_first_chunk::<8>() {
        match eight_digits(digits) {
            Some(_) => rest = more,
            None => return rest,
        }
    }
    rest
}

// Whether a word is pairs of hexadecimal digits.
fn are_pairs(word: &[u8]) -> bool
    ensures { Pairs word.now result }
{
    let mut rest = behind_eights(word);
    'pairs: while let Some((pair, more)) = rest.split_first_chunk::<2>() {
        match two_digits_of(pair) {
            Some(_) => rest = more,
            None => return false,
        }
    }
    rest.is_empty()
}

// The byte of two digits.
#[inline(always)]
fn byte(pair: &[u8; 2]) -> u8
    ensures { result ≡ byte_of (digits_of 2 pair.now) }
{
    match two_digits_of(pair) {
        Some(byte) => byte,
        None => 0,
    }
}

impl<'a> HexWord<'a> {
    // The bytes of a word: two hexadecimal digits each, or a hyphen for none.
    #[tactic(auto, unfolding(crate::specs::WordValues::octets_of))]
    pub(crate) fn of(word: &'a [u8]) -> Option<HexWord<'a>>
        ensures { result ≡ octets_word word.now }
    {
        if word == b"-".as_slice() {
            return Some(HexWord { digits: b"" });
        }
        if word.is_empty() {
            return None;
        }
        if are_pairs(word) {
            return Some(HexWord { digits: word });
        }
        None
    }

    /// How many bytes are still to come.
    #[inline(always)]
    pub fn len(&self) -> usize
        ensures { result ≡ length self.now }
    {
        self.digits.len() / 2
    }

    /// The next byte; `None` once there is none, and ever after.
    #[inline(always)]
    pub fn next(&mut self) -> Option<u8>
        ensures next { result ≡ first_of self.old }
        ensures rest { self.new ≡ behind_first self.old }
    {
        match self.digits.split_first_chunk::<2>() {
            Some((pair, rest)) => {
                self.digits = rest;
                Some(byte(pair))
            }
            None => None,
        }
    }

    /// The next four bytes as one number, the first of them the highest; `None` where fewer are left.
    #[inline(always)]
    pub fn next_four(&mut self) -> Option<u32>
        ensures some { IfSome result (λ n. self.old ≡ u32_bytes n ++ self.new) }
        ensures none { IfNone result (self.new ≡ self.old) }
        ensures fewer { IfNone result (length self.old < 4) }
    {
        match self.digits.split_first_chunk::<8>() {
            Some((digits, rest)) => match eight_digits(digits) {
                Some(number) => {
                    self.digits = rest;
                    Some(number)
                }
                None => None,
            },
            None => None,
        }
    }

    /// Appends the bytes.
    pub fn append_to(&self, into: &mut Vec<u8>) -> Result<(), Memory>
        ensures { OnOk result (into.new.items ≡ into.old.items ++ self.now) }
    {
        let mut left = HexWord {
            digits: self.digits,
        };
        'fours: while let Some(number) = left.next_four() {
            into.extend_from_slice(&number.to_be_bytes())?;
        }
        'bytes: while let Some(byte) = left.next() {
            into.push(byte)?;
        }
        Ok(())
    }
}
