// Appending to a text, where what stood in front stays, also after an `Err`.
ghost use Rattle.std.specs.Prelude.{◌≡◌, ◌++◌, ◌∷◌, [], OnOk};
ghost use Rattle.fc_base.specs.Hex.{hex_text};
ghost use Rattle.fc_showing.specs.Appending.{Keeps};

use fc_base::{Memory, digits_of_eight, digits_of_four, two_digits};

/// Appends a byte.
#[inline(always)]
pub fn push(into: &mut Vec<u8>, byte: u8) -> Result<(), Memory>
    ensures text { OnOk result (into.new.items ≡ into.old.items ++ byte ∷ []) }
    ensures kept { Keeps into.old.items into.new.items }
{
    into.push(byte)?;
    Ok(())
}

/// Appends bytes.
#[inline(always)]
pub fn extend(into: &mut Vec<u8>, bytes: &[u8]) -> Result<(), Memory>
    ensures text { OnOk result (into.new.items ≡ into.old.items ++ bytes.now) }
    ensures kept { Keeps into.old.items into.new.items }
{
    into.extend_from_slice(bytes)?;
    Ok(())
}

// Appends the two digits of each byte, one byte after the other.
fn push_each(into: &mut Vec<u8>, bytes: &[u8]) -> Result<(), Memory>
    ensures text { OnOk result (into.new.items ≡ into.old.items ++ hex_text bytes.now) }
    ensures kept { Keeps into.old.items into.new.items }
{
    'bytes: for byte in bytes {
        extend(into, &two_digits(*byte))?;
    }
    Ok(())
}

// Appends the two digits of each byte, the first four at once.
#[inline(always)]
fn push_few(into: &mut Vec<u8>, bytes: &[u8]) -> Result<(), Memory>
    ensures text { OnOk result (into.new.items ≡ into.old.items ++ hex_text bytes.now) }
    ensures kept { Keeps into.old.items into.new.items }
{
    match bytes.split_first_chunk::<4>() {
        Some((front, more)) => {
            extend(into, &digits_of_four(front))?;
            push_each(into, more)
        }
        None => push_each(into, bytes),
    }
}

/// Appends the two digits of each byte, with nothing between them.
pub fn push_hex(into: &mut Vec<u8>, bytes: &[u8]) -> Result<(), Memory>
    ensures text { OnOk result (into.new.items ≡ into.old.items ++ hex_text bytes.now) }
    ensures kept { Keeps into.old.items into.new.items }
{
    let mut rest = bytes;
    'eights: while let Some((front, more)) = rest.split_first_chunk::<8>() {
        extend(into, &digits_of_eight(front))?;
        rest = more;
    }
    push_few(into, rest)
}
