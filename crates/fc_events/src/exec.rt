// Running SET-PROP operations in an execution mode.
ghost use Rattle.std.specs.Prelude.{◌≡◌, reverse, IfOk, OnOk, OnErr};
ghost use Rattle.fc_events.specs.Setting as spec;
ghost use Rattle.fc_events.specs.Setting.{Stands, refused_keeps};
ghost use Rattle.fc_events.specs.Subscribing.{set_spot};

use crate::Subscriptions;
use crate::operations::{Operation, operations_of};
use fc_base::{Code, Duplicate, List, Memory, OpFault};
use fc_modes::{Mode, Runner, run_mode};
use fc_path::{Body, Select, Spot};
use fc_store::Store;
use fc_wire::Ilv;
use std::marker::Model;
use std::mem;

// What is registered, beside the configuration that SET-PROPs look at.
#[derive(Drop)]
pub struct Standing<'a> {
    store: &'a Store,
    subscriptions: Subscriptions,
}

impl<'a> Model for Standing<'a> {
    ghost use Rattle.fc_events.specs.Setting.{Stands, stands_code};

    ghost Value = { Stands };

    ghost coded = { stands_code };

    ghost view = { λ s. (s.store.now, s.subscriptions) };
}

// What is registered while operations run, with a copy for each mark that stands.
#[derive(Drop)]
pub struct Running<'a> {
    now: Standing<'a>,
    copies: Vec<Standing<'a>>,
}

// How many marks stand below one.
#[derive(Drop)]
pub struct Mark {
    below: usize,
}

impl<'a> Standing<'a> {
    fn copy(&self) -> Result<Standing<'a>, Memory>
        ensures { IfOk result (λ other. other ≡ self.now) }
    {
        let subscriptions = self.subscriptions.copy()?;
        Ok(Standing {
            store: self.store,
            subscriptions,
        })
    }

    // A SET-PROP, with its code.
    fn set(&mut self, spot: &Spot, ilvs: &[Ilv]) -> Result<Code, Memory>
        ensures { IfOk result (λ code. (self.new, code) ≡ spec.answered self.old (set_spot self.old.0 spot.now ilvs.now self.old.1)) }
    {
        match self.subscriptions.set_prop(self.store, spot, ilvs) {
            Ok(()) => Ok(Code::SUCCESS),
            Err(fault) => match fault {
                OpFault::Refused(code) => Ok(code),
                OpFault::Memory => Err(Memory),
            },
        }
    }

    // What a leaf with a body says, with its code.
    fn apply(&mut self, spot: &Spot, body: &Body) -> Result<Code, Memory>
        ensures { IfOk result (λ code. (self.new, code) ≡ spec.effect_at self.old spot.now body.now) }
    {
        match body {
            Body::Sparse(ilvs) => self.set(spot, ilvs.as_slice()),
            Body::Nothing => Ok(Code::INVALID_TLV),
            Body::Full(_) => Ok(Code::INVALID_TLV),
            Body::Outcome(_) => Ok(Code::INVALID_TLV),
            Body::Nested(_) => Ok(Code::INVALID_TLV),
        }
    }
}

impl<'a> Runner for Running<'a> {
    type Op = Operation<'a>;

    type Mark = Mark;

    ghost State = { Stands };

    ghost state = { λ s. s.now };

    ghost marked = { λ s. reverse s.copies.items };

    ghost below = { λ mark. mark.below };

    ghost effect = { spec.effect };

    fn mark(&mut self) -> Result<Mark, Memory> {
        let copy = self.now.copy()?;
        let below = self.copies.len();
        self.copies.push(copy)?;
        Ok(Mark { below })
    }

    fn apply(&mut self, op: &Operation<'a>) -> Result<Code, Memory> {
        let spot = op.spot(*self.copies.allocator())?;
        self.now.apply(&spot, op.body())
    }

    fn rollback(&mut self, _mark: Mark) {
        if let Some(copy) = self.copies.pop() {
            self.now = copy;
        }
    }

    fn release(&mut self, _mark: Mark) {
        self.copies.pop();
    }

    ghost refused = { refused_keeps };
}

impl Subscriptions {
    /// Runs the SET-PROP operations of selects in a mode, and gives the code of each. After an `Err` nothing has changed.
    pub fn exec_prop(
        &mut self,
        store: &Store,
        selects: &[Select],
        mode: Mode,
    ) -> Result<List<Code>, Memory>
        ensures codes { IfOk result (λ codes. codes ≡ (spec.exec_outcome mode store.now self.old selects.now).codes) }
        ensures state { OnOk result (self.new ≡ (spec.exec_outcome mode store.now self.old selects.now).state.1) }
        ensures err { OnErr result (self.new ≡ self.old) }
    {
        let alloc = self.alloc();
        let operations = operations_of(alloc, selects)?;
        let subscriptions = mem::replace(self, Subscriptions::new(alloc));
        let mut running = Running {
            now: Standing {
                store,
                subscriptions,
            },
            copies: Vec::new(alloc),
        };
        let codes = run_mode(alloc, &mut running, mode, &operations);
        *self = running.now.subscriptions;
        codes
    }
}
