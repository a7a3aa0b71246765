// Decimal numbers.
ghost use Rattle.fc_showing.specs.Appending.{Keeps};
ghost use Rattle.fc_text.specs.Text.{id_text};
ghost use Rattle.std.specs.Prelude.{◌≡◌, ◌++◌, ◌+◌, ◌/◌, ◌%◌, ◌∷◌, [], decimal, OnOk};

use crate::append::{extend, push};
use fc_base::Memory;

// The last digit of a number.
#[inline(always)]
fn last_digit(n: u32) -> u8
    ensures { result ≡ 48 + n % 10 }
{
    b'0' + (n % 10) as u8
}

// The last two digits of a number.
#[inline(always)]
fn last_two(n: u32) -> [u8; 2]
    ensures { result ≡ (48 + n / 10 % 10) ∷ (48 + n % 10) ∷ [] }
{
    [last_digit(n / 10), last_digit(n)]
}

// The last three digits of a number.
#[inline(always)]
fn last_three(n: u32) -> [u8; 3]
    ensures { result ≡ (48 + n / 100 % 10) ∷ (48 + n / 10 % 10) ∷ (48 + n % 10) ∷ [] }
{
    [last_digit(n / 100), last_digit(n / 10), last_digit(n)]
}

// The last four digits of a number.
#[inline(always)]
fn last_four(n: u32) -> [u8; 4]
    ensures { result ≡ (48 + n / 1000 % 10) ∷ (48 + n / 100 % 10) ∷ (48 + n / 10 % 10) ∷ (48 + n % 10) ∷ [] }
{
    [
        last_digit(n / 1000),
        last_digit(n / 100),
        last_digit(n / 10),
        last_digit(n),
    ]
}

/// Appends the number without leading zeros.
pub fn push_decimal(into: &mut Vec<u8>, n: u32) -> Result<(), Memory>
    ensures text { OnOk result (into.new.items ≡ into.old.items ++ decimal n) }
    ensures kept { Keeps into.old.items into.new.items }
{
    if n < 10 {
        return push(into, b'0' + n as u8);
    }
    if n < 100 {
        return extend(into, &last_two(n));
    }
    if n < 1000 {
        return extend(into, &last_three(n));
    }
    if n < 10000 {
        return extend(into, &last_four(n));
    }
    push_decimal(into, n / 10000)?;
    extend(into, &last_four(n))
}

/// Appends a space and the number without leading zeros. Short numbers are appended at once.
#[inline(always)]
pub fn push_id(into: &mut Vec<u8>, n: u32) -> Result<(), Memory>
    ensures text { OnOk result (into.new.items ≡ into.old.items ++ id_text n) }
    ensures kept { Keeps into.old.items into.new.items }
{
    if n < 10 {
        return extend(into, &[b' ', b'0' + n as u8]);
    }
    if n < 100 {
        return extend(into, &[b' ', last_digit(n / 10), last_digit(n)]);
    }
    if n < 1000 {
        return extend(
            into,
            &[b' ', last_digit(n / 100), last_digit(n / 10), last_digit(n)],
        );
    }
    push(into, b' ')?;
    push_decimal(into, n)
}
