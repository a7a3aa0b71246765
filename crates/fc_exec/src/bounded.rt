// Operations within a scope, which can be undone together.
ghost use Rattle.std.specs.Prelude.{◌≡◌, None, IfOk, OnOk, OnErr};
ghost use Rattle.fc_modes.specs.Modes.{outcome};
ghost use Rattle.fc_exec.specs.Bounding.{Bounded as BoundedState, all_bounded, bounded, refused_keeps, within_to};
ghost use Rattle.fc_exec.specs.Operations as spec;
ghost use Rattle.fc_exec.specs.Operations.{is_inside, place_of, within};
ghost use Rattle.fc_exec.specs.Running.{at_mark, named, unmarked};
ghost use Rattle.fc_store.specs.Stores.{is_in};

use crate::operations::{Operation, PlacedLeaf};
use crate::running::{RunMark, Running, end};
use fc_base::{Code, List, Memory};
use fc_modes::{Mode, Runner, run_mode};
use fc_store::Store;
use std::alloc::Global;

// Whether a scope has the instance of a leaf. The empty one has all.
fn has_leaf(scope: &[(u32, u32)], leaf: &PlacedLeaf<'_>) -> bool
    ensures { result ≡ is_in scope.now (leaf.now.spot.class, leaf.now.spot.instance) }
{
    match scope {
        [] => true,
        _ => leaf.is_at(scope),
    }
}

// Whether a scope has the instance of an operation, or that lies at none.
fn has(scope: &[(u32, u32)], operation: &Operation<'_>) -> bool
    ensures { result ≡ is_inside scope.now (place_of operation.now) }
{
    match operation {
        Operation::Leaf(leaf) => has_leaf(scope, leaf),
        Operation::Commit => true,
        Operation::Trcomp => true,
    }
}

// What runs operations, and refuses those outside a scope.
#[derive(Drop)]
struct Bounded<'r, 's, 'b, 'o> {
    scope: &'b [(u32, u32)],
    running: &'r mut Running<'s, 'o>,
}

impl<'r, 's, 'b, 'o> Runner for Bounded<'r, 's, 'b, 'o> {
    type Op = Operation<'o>;

    type Mark = RunMark;

    ghost State = { BoundedState };

    ghost state = { λ r. bounded r.scope.now r.running.ghost_name (r.running.now.store.ghost_name, unmarked r.running.now.mark r.running.now.store.now) };

    ghost marked = { λ r. all_bounded r.scope.now r.running.ghost_name (named r.running.now.store.ghost_name (at_mark r.running.now.scope.items r.running.now.mark r.running.now.store.now)) };

    ghost below = { λ _. 0 };

    ghost effect = { within_to };

    fn mark(&mut self) -> Result<RunMark, Memory> {
        self.running.mark()
    }

    fn apply(&mut self, operation: &Operation<'o>) -> Result<Code, Memory> {
        if !has(self.scope, operation) {
            return Ok(Code::INVALID_PARAMETERS);
        }
        self.running.apply(operation)
    }

    fn rollback(&mut self, mark: RunMark) {
        self.running.rollback(mark);
    }

    fn release(&mut self, mark: RunMark) {
        self.running.release(mark);
    }

    ghost refused = { refused_keeps };
}

// Runs operations in a mode. A mark that still stands then is none of the store that contracts tell.
fn run_in<'o>(
    alloc: Global,
    bounded: &mut Bounded<'_, '_, '_, 'o>,
    mode: Mode,
    operations: &[Operation<'o>],
) -> Result<List<Code>, Memory>
    ensures same_running { bounded.new.running.ghost_name ≡ bounded.old.running.ghost_name }
    ensures same_reference { bounded.new.running.now.store.ghost_name ≡ bounded.old.running.now.store.ghost_name }
    ensures codes { IfOk result (λ codes. codes ≡ (outcome (within bounded.old.scope.now) mode (unmarked bounded.old.running.now.mark bounded.old.running.now.store.now) operations.now).codes) }
    ensures state { OnOk result (unmarked bounded.new.running.now.mark bounded.new.running.now.store.now ≡ (outcome (within bounded.old.scope.now) mode (unmarked bounded.old.running.now.mark bounded.old.running.now.store.now) operations.now).state) }
    ensures err { OnErr result (unmarked bounded.new.running.now.mark bounded.new.running.now.store.now ≡ unmarked bounded.old.running.now.mark bounded.old.running.now.store.now) }
{
    run_mode(alloc, bounded, mode, operations)
}

// The same within a scope, on what runs operations.
fn run_bounded<'o>(
    alloc: Global,
    running: &mut Running<'_, 'o>,
    scope: &[(u32, u32)],
    mode: Mode,
    operations: &[Operation<'o>],
) -> Result<List<Code>, Memory>
    ensures same_reference { running.new.store.ghost_name ≡ running.old.store.ghost_name }
    ensures codes { IfOk result (λ codes. codes ≡ (outcome (within scope.now) mode (unmarked running.old.mark running.old.store.now) operations.now).codes) }
    ensures state { OnOk result (unmarked running.new.mark running.new.store.now ≡ (outcome (within scope.now) mode (unmarked running.old.mark running.old.store.now) operations.now).state) }
    ensures err { OnErr result (unmarked running.new.mark running.new.store.now ≡ unmarked running.old.mark running.old.store.now) }
{
    let mut bounded = Bounded { scope, running };
    run_in(alloc, &mut bounded, mode, operations)
}

/// Executes operations at the instances that are marked for it, and refuses those outside a scope.
pub fn run_within<'o>(
    alloc: Global,
    store: &mut Store,
    marked: Vec<(u32, u32)>,
    scope: &[(u32, u32)],
    mode: Mode,
    operations: &[Operation<'o>],
) -> Result<List<Code>, Memory>
    ensures codes { IfOk result (λ codes. codes ≡ (outcome (within scope.now) mode store.old operations.now).codes) }
    ensures state { OnOk result (store.new ≡ (outcome (within scope.now) mode store.old operations.now).state) }
    ensures err { OnErr result (store.new ≡ store.old) }
{
    let mut running = Running::over(store, marked);
    let codes = run_bounded(alloc, &mut running, scope, mode, operations);
    let Running { store, mark, .. } = running;
    end(store, mark);
    codes
}
