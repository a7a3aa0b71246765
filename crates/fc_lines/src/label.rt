// The labels of the numbers in the line of a message.
ghost use Rattle.std.specs.Prelude.{◌≡◌, ◌≤◌, ◌+◌, codes, length, option_map, take, drop, Some, IfSome};
ghost use Rattle.fc_lines.specs.LineWords.{EndsWord, IsPlain, behind_label, label_bytes, labelled_digits};

use crate::front::ends_word;
use crate::values::{eight_digits, sixteen_digits};

/// The label in front of the digits of a number in the line of a message.
#[derive(Clone, Copy, Debug, PartialEq, Eq)]
pub enum Label {
    From,
    To,
    Corr,
    Flags,
}

#[inline(always)]
fn behind_from(bytes: &[u8]) -> Option<&[u8]>
    ensures { option_map (λ x. x.now) result ≡ behind_label (codes "from=") bytes.now }
{
    match bytes.split_first_chunk::<5>() {
        Some((front, back)) if *front == *b"from=" => Some(back),
        _ => None,
    }
}

#[inline(always)]
fn behind_to(bytes: &[u8]) -> Option<&[u8]>
    ensures { option_map (λ x. x.now) result ≡ behind_label (codes "to=") bytes.now }
{
    match bytes.split_first_chunk::<3>() {
        Some((front, back)) if *front == *b"to=" => Some(back),
        _ => None,
    }
}

#[inline(always)]
fn behind_corr(bytes: &[u8]) -> Option<&[u8]>
    ensures { option_map (λ x. x.now) result ≡ behind_label (codes "corr=") bytes.now }
{
    match bytes.split_first_chunk::<5>() {
        Some((front, back)) if *front == *b"corr=" => Some(back),
        _ => None,
    }
}

#[inline(always)]
fn behind_flags(bytes: &[u8]) -> Option<&[u8]>
    ensures { option_map (λ x. x.now) result ≡ behind_label (codes "flags=") bytes.now }
{
    match bytes.split_first_chunk::<6>() {
        Some((front, back)) if *front == *b"flags=" => Some(back),
        _ => None,
    }
}

impl Label {
    // How many bytes it has.
    #[inline(always)]
    fn len(self) -> usize
        ensures exact { result ≡ length (label_bytes self) }
        ensures small { result ≤ 6 }
    {
        match self {
            Label::From => 5,
            Label::To => 3,
            Label::Corr => 5,
            Label::Flags => 6,
        }
    }

    /// What stands behind the label.
    #[inline(always)]
    pub fn behind(self, bytes: &[u8]) -> Option<&[u8]>
        ensures { option_map (λ x. x.now) result ≡ behind_label (label_bytes self) bytes.now }
    {
        match self {
            Label::From => behind_from(bytes),
            Label::To => behind_to(bytes),
            Label::Corr => behind_corr(bytes),
            Label::Flags => behind_flags(bytes),
        }
    }

    /// The number of eight digits behind the label, if the first word is that, and how many bytes the word has.
    #[inline(always)]
    pub fn eight_in_front(self, bytes: &[u8]) -> Option<(u32, usize)>
        ensures { IfSome result (λ x. (x.1 ≤ length bytes.now) × IsPlain (take x.1 bytes.now) × EndsWord (drop x.1 bytes.now) × (labelled_digits (label_bytes self) 8 (take x.1 bytes.now) ≡ Some x.0)) }
    {
        let back = self.behind(bytes)?;
        let (digits, behind) = back.split_first_chunk::<8>()?;
        if !ends_word(behind) {
            return None;
        }
        let number = eight_digits(digits)?;
        Some((number, self.len() + 8))
    }

    /// The same of sixteen digits.
    #[inline(always)]
    pub fn sixteen_in_front(self, bytes: &[u8]) -> Option<(u64, usize)>
        ensures { IfSome result (λ x. (x.1 ≤ length bytes.now) × IsPlain (take x.1 bytes.now) × EndsWord (drop x.1 bytes.now) × (labelled_digits (label_bytes self) 16 (take x.1 bytes.now) ≡ Some x.0)) }
    {
        let back = self.behind(bytes)?;
        let (digits, behind) = back.split_first_chunk::<16>()?;
        if !ends_word(behind) {
            return None;
        }
        let number = sixteen_digits(digits)?;
        Some((number, self.len() + 16))
    }
}
