// What the words for numbers and bytes mean.
ghost use Rattle.std.specs.Prelude.{◌≡◌, ◌≤◌, ◌<◌, ◌+◌, ◌*◌, take, drop};
ghost use Rattle.fc_lines.specs.WordValues.{mark, digit_of as value_of, hexadecimal as hex_value, digits_of, decimals as decimal_value, decimal_of as decimal_word};

// The value of each byte as a hexadecimal digit of either case, and 255 of what is none.
const DIGITS: [u8; 256] = *b"\xFF\xFF\xFF\xFF\xFF\xFF\xFF\xFF\xFF\xFF\xFF\xFF\xFF\xFF\xFF\xFF\
    \xFF\xFF\xFF\xFF\xFF\xFF\xFF\xFF\xFF\xFF\xFF\xFF\xFF\xFF\xFF\xFF\
    \xFF\xFF\xFF\xFF\xFF\xFF\xFF\xFF\xFF\xFF\xFF\xFF\xFF\xFF\xFF\xFF\
    \x00\x01\x02\x03\x04\x05\x06\x07\x08\x09\xFF\xFF\xFF\xFF\xFF\xFF\
    \xFF\x0A\x0B\x0C\x0D\x0E\x0F\xFF\xFF\xFF\xFF\xFF\xFF\xFF\xFF\xFF\
    \xFF\xFF\xFF\xFF\xFF\xFF\xFF\xFF\xFF\xFF\xFF\xFF\xFF\xFF\xFF\xFF\
    \xFF\x0A\x0B\x0C\x0D\x0E\x0F\xFF\xFF\xFF\xFF\xFF\xFF\xFF\xFF\xFF\
    \xFF\xFF\xFF\xFF\xFF\xFF\xFF\xFF\xFF\xFF\xFF\xFF\xFF\xFF\xFF\xFF\
    \xFF\xFF\xFF\xFF\xFF\xFF\xFF\xFF\xFF\xFF\xFF\xFF\xFF\xFF\xFF\xFF\
    \xFF\xFF\xFF\xFF\xFF\xFF\xFF\xFF\xFF\xFF\xFF\xFF\xFF\xFF\xFF\xFF\
    \xFF\xFF\xFF\xFF\xFF\xFF\xFF\xFF\xFF\xFF\xFF\xFF\xFF\xFF\xFF\xFF\
    \xFF\xFF\xFF\xFF\xFF\xFF\xFF\xFF\xFF\xFF\xFF\xFF\xFF\xFF\xFF\xFF\
    \xFF\xFF\xFF\xFF\xFF\xFF\xFF\xFF\xFF\xFF\xFF\xFF\xFF\xFF\xFF\xFF\
    \xFF\xFF\xFF\xFF\xFF\xFF\xFF\xFF\xFF\xFF\xFF\xFF\xFF\xFF\xFF\xFF\
    \xFF\xFF\xFF\xFF\xFF\xFF\xFF\xFF\xFF\xFF\xFF\xFF\xFF\xFF\xFF\xFF\
    \xFF\xFF\xFF\xFF\xFF\xFF\xFF\xFF\xFF\xFF\xFF\xFF\xFF\xFF\xFF\xFF";

// The value of a hexadecimal digit of either case, and 255 where there is none.
#[inline(always)]
fn digit(byte: u8) -> u64
    ensures exact { result ≡ mark (value_of byte) }
    ensures small { result ≤ 255 }
    ensures gap { result < 255 → result ≤ 15 }
{
    u64::from(DIGITS[usize::from(byte)])
}

// The number of four hexadecimal digits, by their values.
#[inline(always)]
fn joined(a: u64, b: u64, c: u64, d: u64) -> u64
    requires { a + b + c + d ≤ 240 }
    ensures { result ≡ ((a * 16 + b) * 16 + c) * 16 + d }
{
    ((a * 16 + b) * 16 + c) * 16 + d
}

/// The number of two hexadecimal digits.
#[inline(always)]
pub fn two_digits(digits: &[u8; 2]) -> Option<u8>
    ensures { result ≡ hex_value 0 digits.now }
{
    let [first, last] = *digits;
    let a = digit(first);
    let b = digit(last);
    if a + b > 240 {
        return None;
    }
    Some((a * 16 + b) as u8)
}

/// The number of eight hexadecimal digits. Whether they are digits is tested once for all of them.
#[inline(always)]
pub fn eight_digits(digits: &[u8; 8]) -> Option<u32>
    ensures { result ≡ hex_value 0 digits.now }
{
    let [first, second, third, fourth, fifth, sixth, seventh, last] = *digits;
    let a = digit(first);
    let b = digit(second);
    let c = digit(third);
    let d = digit(fourth);
    let e = digit(fifth);
    let f = digit(sixth);
    let g = digit(seventh);
    let h = digit(last);
    if a + b + c + d + e + f + g + h > 240 {
        return None;
    }
    Some((joined(a, b, c, d) * 65536 + joined(e, f, g, h)) as u32)
}

// Eight bytes and eight bytes.
#[inline(always)]
fn halves(bytes: &[u8; 16]) -> (&[u8; 8], &[u8; 8])
    ensures front { result.0.now ≡ take 8 bytes.now }
    ensures back { result.1.now ≡ drop 8 bytes.now }
{
    let (front, back) = bytes.split_at(8);
    match (front.as_array::<8>(), back.as_array::<8>()) {
        (Some(front), Some(back)) => (front, back),
        _ => unreachable!(),
    }
}

/// The number of sixteen hexadecimal digits.
#[inline(always)]
pub fn sixteen_digits(digits: &[u8; 16]) -> Option<u64>
    ensures { result ≡ hex_value 0 digits.now }
{
    let (front, back) = halves(digits);
    match eight_digits(front) {
        Some(high) => match eight_digits(back) {
            Some(low) => Some(u64::from(high) * 4294967296 + u64::from(low)),
            None => None,
        },
        None => None,
    }
}

/// The number of a word of two hexadecimal digits.
#[tactic(auto, unfolding(crate::specs::WordValues::digits_of))]
#[inline(always)]
pub fn two_digits_of(word: &[u8]) -> Option<u8>
    ensures { result ≡ digits_of 2 word.now }
{
    match word.as_array::<2>() {
        Some(digits) => two_digits(digits),
        None => None,
    }
}

/// The number of a word of eight hexadecimal digits.
#[tactic(auto, unfolding(crate::specs::WordValues::digits_of))]
#[inline(always)]
pub fn eight_digits_of(word: &[u8]) -> Option<u32>
    ensures { result ≡ digits_of 8 word.now }
{
    match word.as_array::<8>() {
        Some(digits) => eight_digits(digits),
        None => None,
    }
}

/// The number of a word of sixteen hexadecimal digits.
#[tactic(auto, unfolding(crate::specs::WordValues::digits_of))]
#[inline(always)]
pub fn sixteen_digits_of(word: &[u8]) -> Option<u64>
    ensures { result ≡ digits_of 16 word.now }
{
    match word.as_array::<16>() {
        Some(digits) => sixteen_digits(digits),
        None => None,
    }
}

/// The decimal number below 2^32 without leading zeros.
#[tactic(auto, unfolding(crate::specs::WordValues::decimal_of))]
pub fn decimal_of(word: &[u8]) -> Option<u32>
    ensures { result ≡ decimal_word word.now }
{
    match word {
        [] => None,
        [_] => decimals(word),
        [first, _, ..] => {
            if *first == b'0' {
                return None;
            }
            decimals(word)
        }
    }
}

// The number of decimal digits, while it is below 2^32.
fn decimals(word: &[u8]) -> Option<u32>
    ensures { result ≡ decimal_value 0 word.now }
{
    let mut number = 0u32;
    for byte in word {
        if *byte < b'0' || b'9' < *byte {
            return None;
        }
        let next = u64::from(number) * 10 + u64::from(*byte - b'0');
        if next > 4294967295 {
            return None;
        }
        number = next as u32;
    }
    Some(number)
}
