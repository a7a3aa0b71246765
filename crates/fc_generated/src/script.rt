// The script of a large run.
ghost use Rattle.std.specs.Prelude.{◌≡◌, ◌<◌, ◌≤◌, ◌∷◌, [], ℕ, map, IfOk};
ghost use Rattle.fc_scripts.specs.Kept.{IsScript};
ghost use Rattle.fc_generated.specs.Generated as spec;
ghost use Rattle.fc_generated.specs.Transactions.{ids};

use crate::steps::steps;
use crate::table::declared;
use crate::transactions::{fe_id, transactions};
use fc_base::{CeId, FeId, List, Memory};
use fc_scripts::Script;
use std::alloc::Global;

// The one control element.
fn controller() -> CeId
    ensures { result ≡ spec.controller }
{
    match CeId::of(0x4000_0001) {
        Some(id) => id,
        None => unreachable!(),
    }
}

// An element with the control element.
fn element(number: u32) -> (FeId, CeId)
    requires some { 0 < number }
    requires few { number ≤ 8 }
    ensures { result ≡ spec.element number }
{
    (fe_id(number), controller())
}

fn elements(alloc: Global) -> Result<List<(FeId, CeId)>, Memory>
    ensures { IfOk result (λ elements. elements ≡ map spec.element ids) }
{
    let mut elements = List::new(alloc);
    for number in 1..9u32 {
        elements.push(element(number))?;
    }
    Ok(elements)
}

fn controllers(alloc: Global) -> Result<List<CeId>, Memory>
    ensures { IfOk result (λ controllers. controllers ≡ spec.controller ∷ []) }
{
    let mut controllers = List::new(alloc);
    controllers.push(controller())?;
    Ok(controllers)
}

/// The script of a large run of so many transactions, of which there are at most 1,000. Eight elements have a table of rates each. Control element 1 claims them, and begins one transaction
/// after the other, of 16 rows more in each table; all messages are delivered, once and in their order. Every fourth transaction is given up once each
/// element has opened it. An `Err` is want of memory.
pub fn generated(alloc: Global, count: u32) -> Result<Script, Memory>
    requires { count ≤ 1000 }
    ensures { IfOk result (λ script. script ≡ spec.generated count) }
{
    let (library, instances) = declared(alloc)?;
    let elements = elements(alloc)?;
    let controllers = controllers(alloc)?;
    let transactions = transactions(alloc, count + 1)?;
    let steps = steps(alloc, count + 1)?;
    Ok(Script {
        library,
        instances,
        elements,
        controllers,
        transactions,
        steps,
    })
}

/// However many transactions it has, up to 1,000, it keeps the rules of a script.
pub fn large_runs_are_scripts()
    ensures { (n : ℕ) → n ≤ 1000 → IsScript (spec.generated n) }
{}
