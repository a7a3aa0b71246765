// Executing the operations of selects.
ghost use Rattle.std.specs.Prelude.{◌≡◌, IfOk, OnOk, OnErr};
ghost use Rattle.fc_exec.specs.Operations.{at_marks, executed, executed_within};

use crate::bounded::run_within;
use crate::operations::operations_of;
use crate::running::run_all;
use fc_base::{Code, List, Memory};
use fc_modes::Mode;
use fc_path::Select;
use fc_store::Store;
use std::alloc::Global;

// The instances that selects name. One that several selects in a row name stands there once.
fn scope_of(alloc: Global, selects: &[Select]) -> Result<Vec<(u32, u32)>, Memory> {
    let mut scope: Vec<(u32, u32)> = Vec::new(alloc);
    for select in selects {
        let pair = (select.class, select.instance);
        if scope.last() != Some(&pair) {
            scope.push(pair)?;
        }
    }
    Ok(scope)
}

/// Executes the operations of the selects of a Config in this mode, and gives the code of each. An operation is a leaf, a COMMIT or a
/// TRCOMP, and they go in reading order. A SET of FULLDATA is [`Store::put`], a SET of SPARSEDATA [`Store::merge`] and a DEL
/// [`Store::remove`], each with its codes. A SET-PROP is `NOT_SUPPORTED`, and so is what stands in no Config; a COMMIT and a TRCOMP are
/// `INVALID_FLAGS`. After an `Err` the store is as before. The marks that stood still stand, and what was held at them.
pub fn exec(
    alloc: Global,
    store: &mut Store,
    selects: &[Select],
    mode: Mode,
) -> Result<List<Code>, Memory>
    ensures codes { IfOk result (λ codes. codes ≡ (executed mode store.old selects.now).codes) }
    ensures state { OnOk result (store.new ≡ (executed mode store.old selects.now).state) }
    ensures err { OnErr result (store.new ≡ store.old) }
    ensures marks { at_marks store.new ≡ at_marks store.old }
{
    let operations = operations_of(alloc, selects)?;
    let scope = scope_of(alloc, selects)?;
    run_all(alloc, store, scope, mode, &operations)
}

/// The same of the changes of a transaction with this scope, each instance by its class and its ID; the empty scope has all instances. An
/// operation that lies outside the scope is `INVALID_PARAMETERS` in place of what it would do; a COMMIT and a TRCOMP lie nowhere, and keep
/// their own code. The mark of the transaction stays, and so does that of every other one. In the mode [`Mode::AllOrNone`] the store is as
/// before where an operation is refused.
pub fn exec_within(
    alloc: Global,
    store: &mut Store,
    scope: &[(u32, u32)],
    selects: &[Select],
    mode: Mode,
) -> Result<List<Code>, Memory>
    ensures codes { IfOk result (λ codes. codes ≡ (executed_within scope.now mode store.old selects.now).codes) }
    ensures state { OnOk result (store.new ≡ (executed_within scope.now mode store.old selects.now).state) }
    ensures err { OnErr result (store.new ≡ store.old) }
    ensures marks { at_marks store.new ≡ at_marks store.old }
{
    let operations = operations_of(alloc, selects)?;
    let marked = scope_of(alloc, selects)?;
    run_within(alloc, store, marked, scope, mode, &operations)
}
