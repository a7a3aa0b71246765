// The settled configuration, while transactions may be held.
ghost use Rattle.std.specs.Prelude.{◌≡◌, map, IfOk};
ghost use Rattle.fc_blocks.specs.Settings.{settings_in as settings_of};
ghost use Rattle.fc_element.specs.ElementState as spec;

use fc_base::Memory;
use fc_blocks::{HeartbeatSettings, settings_in};
use fc_holding::Holding;
use fc_store::{Store, StoreMark};
use fc_transactions::Ledger;
use std::alloc::Global;

// The marks of what is held.
fn marks_of(alloc: Global, holdings: &[Holding]) -> Result<Vec<StoreMark>, Memory>
    ensures { IfOk result (λ marks. marks.items ≡ map (λ h. h.mark) holdings.now) }
{
    let mut marks = Vec::new(alloc);
    for holding in holdings {
        marks.push(holding.mark.copy()?)?;
    }
    Ok(marks)
}

/// A store with the settled configuration: what is held stands in it as it was when it was opened.
pub fn settled_store(alloc: Global, ledger: &Ledger) -> Result<Store, Memory>
    ensures { IfOk result (λ store. store ≡ spec.settled_store ledger.now) }
{
    let marks = marks_of(alloc, ledger.holdings.as_slice())?;
    ledger.store.settled_copy(&marks)
}

/// The settings of heartbeats that the settled configuration has.
pub fn settled_settings(alloc: Global, ledger: &Ledger) -> Result<HeartbeatSettings, Memory>
    ensures { IfOk result (λ settings. settings ≡ settings_of (spec.settled_store ledger.now)) }
{
    if ledger.holdings.is_empty() {
        return settings_in(alloc, &ledger.store);
    }
    let settled = settled_store(alloc, ledger)?;
    settings_in(alloc, &settled)
}
