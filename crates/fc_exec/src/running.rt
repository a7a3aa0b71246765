// Operations on a store that can be undone together.
ghost use Rattle.std.specs.Prelude.{◌≡◌, None, IfOk, OnOk, OnErr};
ghost use Rattle.fc_modes.specs.Modes.{outcome};
ghost use Rattle.fc_exec.specs.Operations.{applied, made, set_spot, leaf_made};
ghost use Rattle.fc_exec.specs.Running.{Named, applied_to, at_mark, lies_in, named, refused_keeps, unmarked};
ghost use Rattle.fc_path.specs.declared.path.Body.{out-Body};
ghost use Rattle.fc_store.specs.Stores.{Did};

use crate::operations::Operation;
use fc_base::{Code, List, Memory, OpFault};
use fc_modes::{Mode, Runner, run_mode};
use fc_path::{Body, OperKind, Spot};
use fc_store::{Store, StoreMark};
use std::alloc::Global;
use std::marker::PhantomData;

// A SET.
fn set(store: &mut Store, spot: &Spot, body: &Body) -> Result<(), OpFault>
    ensures { Did result (set_spot spot.now (out-Body body.now) store.old) store.old store.new }
{
    match body {
        Body::Full(value) => store.put(spot, value.as_slice()),
        Body::Sparse(ilvs) => store.merge(spot, ilvs.as_slice()),
        Body::Nothing => Err(OpFault::Refused(Code::NOT_SUPPORTED)),
        Body::Outcome(_) => Err(OpFault::Refused(Code::NOT_SUPPORTED)),
        Body::Nested(_) => Err(OpFault::Refused(Code::NOT_SUPPORTED)),
    }
}

fn attempt_at(store: &mut Store, kind: OperKind, spot: &Spot, body: &Body) -> Result<(), OpFault>
    ensures { Did result (leaf_made kind spot.now body.now store.old) store.old store.new }
{
    match kind {
        OperKind::Set => set(store, spot, body),
        OperKind::Del => store.remove(spot),
        OperKind::SetProp
        | OperKind::SetResponse
        | OperKind::SetPropResponse
        | OperKind::DelResponse
        | OperKind::Get
        | OperKind::GetProp
        | OperKind::GetResponse
        | OperKind::GetPropResponse
        | OperKind::Report => Err(OpFault::Refused(Code::NOT_SUPPORTED)),
    }
}

fn attempt(store: &mut Store, operation: &Operation<'_>) -> Result<(), OpFault>
    ensures { Did result (made operation.now store.old) store.old store.new }
{
    match operation {
        Operation::Leaf(leaf) => {
            let spot = leaf.spot()?;
            attempt_at(store, leaf.kind(), &spot, leaf.body())
        }
        Operation::Commit => Err(OpFault::Refused(Code::INVALID_FLAGS)),
        Operation::Trcomp => Err(OpFault::Refused(Code::INVALID_FLAGS)),
    }
}

// Does an operation on a store, and gives its code. After an `Err` nothing has changed.
fn carry_out(store: &mut Store, operation: &Operation<'_>) -> Result<Code, Memory>
    ensures coded { IfOk result (λ code. (store.new, code) ≡ applied store.old operation.now) }
    ensures err { OnErr result (store.new ≡ store.old) }
{
    match attempt(store, operation) {
        Ok(()) => Ok(Code::SUCCESS),
        Err(fault) => match fault {
            OpFault::Refused(code) => Ok(code),
            OpFault::Memory => Err(Memory),
        },
    }
}

/// Ends a mark that may still stand, and keeps what was done.
pub fn end(store: &mut Store, mark: Option<StoreMark>)
    ensures { store.new ≡ unmarked mark store.old }
{
    if let Some(mark) = mark {
        store.release(mark);
    }
}

/// What runs operations at the instances of a scope. It has room for one mark, which is over these alone.
#[derive(Drop)]
pub struct Running<'s, 'o> {
    pub(crate) store: &'s mut Store,
    pub(crate) scope: Vec<(u32, u32)>,
    pub(crate) mark: Option<StoreMark>,
    operations: PhantomData<&'o Operation<'o>>,
}

/// The mark of a run.
#[derive(Drop)]
pub struct RunMark;

impl<'s, 'o> Running<'s, 'o> {
    /// Runs operations on this store, without a mark.
    pub fn over(store: &'s mut Store, scope: Vec<(u32, u32)>) -> Running<'s, 'o>
        ensures same_reference { result.store.ghost_name ≡ store.entry.ghost_name }
        ensures store { result.store.now ≡ store.old }
        ensures mark { result.mark ≡ None }
    {
        Running {
            store,
            scope,
            mark: None,
            operations: PhantomData,
        }
    }

    // Whether an operation is at an instance of the scope, or at none.
    fn has(&self, operation: &Operation<'_>) -> bool
        ensures { result ≡ lies_in self.now.scope.items operation.now }
    {
        match operation {
            Operation::Leaf(leaf) => leaf.is_at(&self.scope),
            Operation::Commit => true,
            Operation::Trcomp => true,
        }
    }
}

impl<'s, 'o> Runner for Running<'s, 'o> {
    type Op = Operation<'o>;

    type Mark = RunMark;

    ghost State = { Named };

    ghost state = { λ r. (r.store.ghost_name, unmarked r.mark r.store.now) };

    ghost marked = { λ r. named r.store.ghost_name (at_mark r.scope.items r.mark r.store.now) };

    ghost below = { λ _. 0 };

    ghost effect = { applied_to };

    fn mark(&mut self) -> Result<RunMark, Memory> {
        if self.mark.is_some() {
            return Err(Memory);
        }
        let mark = self.store.mark_for(&self.scope)?;
        self.mark = Some(mark);
        Ok(RunMark)
    }

    fn apply(&mut self, operation: &Operation<'o>) -> Result<Code, Memory> {
        if !self.has(operation) {
            return Err(Memory);
        }
        carry_out(self.store, operation)
    }

    fn rollback(&mut self, _mark: RunMark) {
        if let Some(mark) = self.mark.take() {
            self.store.rollback(mark);
        }
    }

    fn release(&mut self, _mark: RunMark) {
        if let Some(mark) = self.mark.take() {
            self.store.release(mark);
        }
    }

    ghost refused = { refused_keeps };
}

// Runs operations in a mode. A mark that still stands then is none of the store that contracts tell.
fn run_in<'o>(
    alloc: Global,
    running: &mut Running<'_, 'o>,
    mode: Mode,
    operations: &[Operation<'o>],
) -> Result<List<Code>, Memory>
    ensures same_reference { running.new.store.ghost_name ≡ running.old.store.ghost_name }
    ensures codes { IfOk result (λ codes. codes ≡ (outcome applied mode (unmarked running.old.mark running.old.store.now) operations.now).codes) }
    ensures state { OnOk result (unmarked running.new.mark running.new.store.now ≡ (outcome applied mode (unmarked running.old.mark running.old.store.now) operations.now).state) }
    ensures err { OnErr result (unmarked running.new.mark running.new.store.now ≡ unmarked running.old.mark running.old.store.now) }
{
    run_mode(alloc, running, mode, operations)
}

/// Executes operations at the instances of a scope.
pub fn run_all<'o>(
    alloc: Global,
    store: &mut Store,
    scope: Vec<(u32, u32)>,
    mode: Mode,
    operations: &[Operation<'o>],
) -> Result<List<Code>, Memory>
    ensures codes { IfOk result (λ codes. codes ≡ (outcome applied mode store.old operations.now).codes) }
    ensures state { OnOk result (store.new ≡ (outcome applied mode store.old operations.now).state) }
    ensures err { OnErr result (store.new ≡ store.old) }
{
    let mut running = Running::over(store, scope);
    let codes = run_in(alloc, &mut running, mode, operations);
    let Running { store, mark, .. } = running;
    end(store, mark);
    codes
}
