// Words in front of bytes, where they are of the usual forms. Where a word ends is not looked for before it is read.
ghost use Rattle.std.specs.Prelude.{◌≡◌, ◌≤◌, length, take, drop, true, Some, IfSome};
ghost use Rattle.fc_lines.specs.LineWords.{Digits, EndsWord, IsPlain};
ghost use Rattle.fc_lines.specs.WordValues.{decimal_of};

/// Whether a word ends in front of these bytes.
#[inline(always)]
pub fn ends_word(bytes: &[u8]) -> bool
    ensures { result ≡ true → EndsWord bytes.now }
{
    match bytes {
        [first, ..] => *first == b' ' || *first == b'\n',
        [] => true,
    }
}

// The number of the decimal digits in front, of which at most nine are taken, and how many there are.
#[inline(always)]
fn digits_in_front(bytes: &[u8]) -> (u32, usize)
    ensures { Digits bytes.now result.0 result.1 }
{
    let mut number = 0u32;
    let mut len = 0usize;
    'digits: while len < bytes.len() && len < 9 && b'0' <= bytes[len] && bytes[len] <= b'9' {
        number = number * 10 + u32::from(bytes[len] - b'0');
        len += 1;
    }
    (number, len)
}

/// The decimal number of the first word, and how many bytes the word has, if it is one of at most nine digits.
#[inline(always)]
pub fn decimal_in_front(bytes: &[u8]) -> Option<(u32, usize)>
    ensures { IfSome result (λ x. (x.1 ≤ length bytes.now) × IsPlain (take x.1 bytes.now) × EndsWord (drop x.1 bytes.now) × (decimal_of (take x.1 bytes.now) ≡ Some x.0)) }
{
    let (number, len) = digits_in_front(bytes);
    if len == 0 {
        return None;
    }
    let (_, behind) = bytes.split_at(len);
    if !ends_word(behind) {
        return None;
    }
    if len > 1 && bytes[0] == b'0' {
        return None;
    }
    Some((number, len))
}
