// The word for bytes.
ghost use Rattle.std.specs.Prelude.{◌≡◌, ◌++◌, OnOk};
ghost use Rattle.fc_showing.specs.Appending.{Keeps};
ghost use Rattle.fc_text.specs.Text.{bytes_text};

use crate::append::{push, push_hex};
use fc_base::Memory;

/// Appends the word for bytes: two digits for each, or `-` where there are none.
pub fn push_word(into: &mut Vec<u8>, bytes: &[u8]) -> Result<(), Memory>
    ensures text { OnOk result (into.new.items ≡ into.old.items ++ bytes_text bytes.now) }
    ensures kept { Keeps into.old.items into.new.items }
{
    if bytes.is_empty() {
        return push(into, b'-');
    }
    push_hex(into, bytes)
}
