// What is kept by element.
ghost use Rattle.std.specs.Prelude.{◌≡◌, ◌<◌, [], ◌∷◌, ◌++◌, length, slice_set, IfSome, IfNone, OnOk, OnErr};
ghost use Rattle.fc_protocol.specs.Collections.{among as stands};
ghost use Rattle.fc_asks.specs.Tables.{found, placed};

use fc_base::{FeId, List, Memory};

/// Whether the element is in the list.
pub fn among(element: FeId, elements: &[FeId]) -> bool
    ensures { result ≡ stands element elements.now }
{
    for other in elements {
        if element == *other {
            return true;
        }
    }
    false
}

// What is kept of the element.
pub fn look<V: Copy>(element: FeId, entries: &[(FeId, V)]) -> Option<V>
    ensures { result ≡ found element entries.now }
{
    for entry in entries {
        if element == entry.0 {
            return Some(entry.1);
        }
    }
    None
}

/// Keeps this of the element from now on. After an `Err` nothing has changed.
pub fn place<V: Drop>(entries: &mut List<(FeId, V)>, element: FeId, value: V) -> Result<(), Memory>
    ensures ok { OnOk result (entries.new ≡ placed element value entries.old) }
    ensures err { OnErr result (entries.new ≡ entries.old) }
{
    match place_of(element, entries.as_slice()) {
        Some(at) => {
            entries.set(at, (element, value));
            Ok(())
        }
        None => entries.push((element, value)),
    }
}

// The place of the element's entry.
fn place_of<V>(element: FeId, entries: &[(FeId, V)]) -> Option<usize>
    ensures some { IfSome result (λ at. (at < length entries.now) × ((v : V) → slice_set entries.now at (element, v) ≡ placed element v entries.now)) }
    ensures none { IfNone result ((v : V) → entries.now ++ (element, v) ∷ [] ≡ placed element v entries.now) }
{
    for at in 0..entries.len() {
        if element == entries[at].0 {
            return Some(at);
        }
    }
    None
}
