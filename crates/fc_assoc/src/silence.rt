// Which control elements have been silent for too long.
ghost use Rattle.std.specs.Prelude.{◌≡◌, IfOk, map, not};
ghost use Rattle.std.specs.List.{filter};
ghost use Rattle.fc_assoc.specs.Associations.{is_past};

use crate::Heard;
use fc_base::{CeId, List, Memory};
use std::alloc::Global;

// Whether the control element was last heard more than `dead` milliseconds before now.
fn is_silent(pair: &(CeId, Heard), now: u64, dead: u32) -> bool
    ensures { result ≡ is_past pair.now.1 now dead }
{
    now.saturating_sub(pair.1.last) > u64::from(dead)
}

// The control elements of those pairs that are silent, in their order.
pub fn ended(
    alloc: Global,
    pairs: &[(CeId, Heard)],
    now: u64,
    dead: u32,
) -> Result<List<CeId>, Memory>
    ensures { IfOk result (λ ids. ids ≡ map (λ pair. pair.0) (filter (λ pair. is_past pair.1 now dead) pairs.now)) }
{
    let mut ids = List::new(alloc);
    for pair in pairs {
        if is_silent(pair, now, dead) {
            ids.push(pair.0)?;
        }
    }
    Ok(ids)
}

// Keeps the pairs that are not silent, in their order.
pub fn keep_heard(pairs: &mut Vec<(CeId, Heard)>, now: u64, dead: u32)
    ensures { pairs.new.items ≡ filter (λ pair. not (is_past pair.1 now dead)) pairs.old.items }
{
    pairs.retain(|pair| !is_silent(pair, now, dead));
}
