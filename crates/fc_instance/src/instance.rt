// What an instance holds, with what undoes its changes.
ghost use Rattle.std.specs.Prelude.{◌≡◌, option_map, ◌≤◌, ◌<◌, ◌++◌, ◌∷◌, [], length, slice_get, slice_set, take, drop as dropped, Some, OnOk, OnErr, IfOk, if◌then◌else◌, ◌-◌};
ghost use Rattle.fc_value.specs.Outcomes.{Gives};
ghost use Rattle.fc_instance.specs.Components.{entry_at_cell, entry_at_subscript};
ghost use Rattle.fc_instance.specs.Histories.{slot_cell, AreHeld, AreRoomier, Fits, FitsAt, FoundKeys, IsRoomyArray, entry_in, HasPlace, IsArray, IsRoomier, entry_at, values_of, takes, with_entry, CanUndo, HasRoom, Undoable, at_slot, swapped, undo, undone};

use crate::components::{EntryPath, entry_at, entry_in};
use crate::copies::{copy_slots, undo_copies};
use fc_base::{Duplicate, List, Memory, Octets, OpFault};
use fc_rows::Rows;
use fc_undo::{Mark, UndoStack};
use fc_value::Value;
use std::alloc::Global;
use std::marker::Model;
use std::mem;

/// What stands for a component.
#[derive(Debug, Drop)]
pub enum Slot {
    /// It has no value.
    Absent,
    /// Its value, where it is no array whose entries are kept one by one.
    Whole(Value),
    /// It is an array with these entries.
    Entries(Rows),
}

/// What undoes a change.
#[derive(Debug, Drop)]
pub enum Inverse {
    /// Puts back what stood for a component.
    Whole(usize, Slot),
    /// Puts back what stood at a subscript of a component that is an array: a value or none.
    Entry(usize, u32, Row),
}

/// What is put back at a subscript.
#[derive(Debug, Drop)]
pub struct Row {
    /// A value or none.
    pub value: Option<Value>,
    /// Its keys.
    pub entering: List<Octets>,
    /// The keys of what it takes the place of.
    pub leaving: List<Octets>,
}

/// An instance: what stands for its components, what undoes the changes since the oldest mark, and the marks, each one the number
/// of changes before it. Contracts see the values, and those at each mark that stands.
#[derive(Debug, Drop)]
pub struct Instance {
    slots: Vec<Slot>,
    log: UndoStack<Inverse>,
    marks: Vec<Mark>,
}

impl Model for Instance {
    ghost use Rattle.fc_instance.specs.Histories.{Held, Kept, seen, held_code};

    ghost Value = { Held };

    ghost coded = { held_code };

    ghost view = { λ s. seen s.slots.items s.log.0 s.marks.items };

    ghost invariant = { λ s. Kept s.slots.items s.log.0 s.marks.items };
}

impl Instance {
    /// The instance with these components, and no mark.
    pub fn of(alloc: Global, slots: Vec<Slot>) -> Instance
        ensures now { result.now ≡ values_of slots.items }
        ensures held { result.held ≡ [] }
    {
        Instance {
            slots,
            log: UndoStack::new(alloc),
            marks: Vec::new(alloc),
        }
    }

    /// Sets a mark.
    pub fn mark(&mut self) -> Result<(), Memory>
        ensures now { self.new.now ≡ self.old.now }
        ensures ok { OnOk result (self.new.held ≡ self.old.held ++ self.old.now ∷ []) }
        ensures err { OnErr result (self.new.held ≡ self.old.held) }
    {
        let at = self.log.mark();
        self.marks.push(at)?;
        Ok(())
    }

    /// Goes back to the newest mark, which ends with that. It takes no memory.
    pub fn rollback(&mut self)
        requires { 0 < length self.old.held }
        ensures { self.old.held ≡ self.new.held ++ self.new.now ∷ [] }
    {
        if let Some(mark) = self.marks.pop() {
            undo_to(&mut self.slots, &mut self.log, mark);
        }
    }

    /// Ends the newest mark, and goes on from here. It takes no memory.
    pub fn release(&mut self)
        requires { 0 < length self.old.held }
        ensures now { self.new.now ≡ self.old.now }
        ensures held { self.new.held ≡ take (length self.old.held - 1) self.old.held }
    {
        if let Some(mark) = self.marks.pop() {
            if self.marks.is_empty() {
                forget(&mut self.log, mark);
            }
        }
    }
}

impl Instance {
    /// How many marks stand.
    pub fn marks(&self) -> usize
        ensures { result ≡ length self.now.held }
    {
        self.marks.len()
    }

    /// A copy of what it holds, without a mark.
    pub fn copy(&self, alloc: Global) -> Result<Instance, Memory>
        ensures { IfOk result (λ h. (h.now ≡ self.now.now) × (h.held ≡ [])) }
    {
        let slots = copy_slots(alloc, &self.slots)?;
        Ok(Instance::of(alloc, slots))
    }

    /// A copy of what it held at a mark, counted from the oldest that stands, without a mark.
    pub fn copy_at(&self, alloc: Global, mark: usize) -> Result<Instance, Memory>
        requires { mark < length self.now.held }
        ensures { IfOk result (λ h. (Some h.now ≡ slice_get self.now.held mark) × (h.held ≡ [])) }
    {
        let at = self.marks[mark];
        let mut slots = copy_slots(alloc, &self.slots)?;
        undo_copies(alloc, &mut slots, self.log.since(at))?;
        Ok(Instance::of(alloc, slots))
    }

    // What stands for a component; none exactly where there is no such component.
    pub(crate) fn slot(&self, component: usize) -> Option<&Slot>
        ensures { option_map (λ x. slot_cell x.now) result ≡ slice_get self.now.now component }
    {
        self.slots.get(component)
    }

    // The entry that is put in a component.
    pub(crate) fn entry_at(
        &self,
        alloc: Global,
        component: usize,
        path: &EntryPath,
        full: &[u8],
    ) -> Result<Value, OpFault>
        ensures { Gives (λ v. v) result (entry_at_cell path.now.rest.now full.now path.now.entry.now path.now.limit path.now.subscript (slice_get self.now.now component)) }
    {
        entry_at(alloc, &self.slots, component, path, full)
    }

    /// The entry at a subscript of a component that is an array; none exactly where there is none, or where the component is no array.
    pub fn entry(&self, component: usize, subscript: u32) -> Option<&Value>
        ensures { option_map (λ x. x.now) result ≡ entry_at_subscript subscript (slice_get self.now.now component) }
    {
        entry_in(&self.slots, component, subscript)
    }

    /// Puts a value, or none, at a subscript of a component that is an array, and answers whether it is one, in which no other entry
    /// has a key of the new one. After an `Err` and after false nothing has changed.
    pub fn put_entry(
        &mut self,
        alloc: Global,
        component: usize,
        subscript: u32,
        value: Option<Value>,
    ) -> Result<bool, Memory>
        ensures done { IfOk result (λ done. done ≡ takes subscript value (slice_get self.old.now component)) }
        ensures now { IfOk result (λ done. self.new.now ≡ (if done then with_entry component subscript value self.old.now else self.old.now)) }
        ensures err { OnErr result (self.new.now ≡ self.old.now) }
        ensures held { self.new.held ≡ self.old.held }
    {
        match keys_at(alloc, &self.slots, component, subscript, value.as_ref())? {
            None => Ok(false),
            Some((entering, leaving)) => {
                if self.marks.is_empty() {
                    set_entry(
                        &mut self.slots,
                        component,
                        subscript,
                        value,
                        entering,
                        leaving,
                    )?;
                    return Ok(true);
                }
                let again = entering.copy()?;
                change_entry(
                    &mut self.slots,
                    &mut self.log,
                    component,
                    subscript,
                    value,
                    entering,
                    leaving,
                    again,
                )?;
                Ok(true)
            }
        }
    }
}

impl Instance {
    /// Puts another thing in the place of what stands for a component. After an `Err` nothing has changed.
    pub fn put_whole(&mut self, component: usize, slot: Slot) -> Result<(), Memory>
        requires { component < length self.old.now }
        ensures ok { OnOk result (self.new.now ≡ slice_set self.old.now component (slot_cell slot)) }
        ensures err { OnErr result (self.new.now ≡ self.old.now) }
        ensures held { self.new.held ≡ self.old.held }
    {
        if self.marks.is_empty() {
            exchange_slot(&mut self.slots, component, slot);
            return Ok(());
        }
        change_whole(&mut self.slots, &mut self.log, component, slot)
    }
}

// Puts another thing in the place of what stands for a component, and gives that.
fn exchange_slot(slots: &mut Vec<Slot>, component: usize, slot: Slot) -> Slot
    requires { component < length slots.old.items }
    ensures given { Some result ≡ slice_get slots.old.items component }
    ensures after { slots.new.items ≡ slice_set slots.old.items component slot }
{
    mem::replace(&mut slots[component], slot)
}

// Puts another thing in the place of what stands for a component, and notes how that is undone.
fn change_whole(
    slots: &mut Vec<Slot>,
    log: &mut UndoStack<Inverse>,
    component: usize,
    slot: Slot,
) -> Result<(), Memory>
    requires within { component < length slots.old.items }
    requires undoable { Undoable log.old.0 slots.old.items }
    ensures ok { OnOk result (values_of slots.new.items ≡ slice_set (values_of slots.old.items) component (slot_cell slot)) }
    ensures err { OnErr result (values_of slots.new.items ≡ values_of slots.old.items) }
    ensures held { AreHeld slots.old.items log.old.0 slots.new.items log.new.0 }
{
    log.reserve(1)?;
    let old = exchange_slot(slots, component, slot);
    log.push(Inverse::Whole(component, old));
    Ok(())
}

// The keys that enter and those that leave where a value, or none, is put at a subscript of a component that is an array; none also
// where another entry has a key of the new one.
fn keys_at(
    alloc: Global,
    slots: &[Slot],
    component: usize,
    subscript: u32,
    value: Option<&Value>,
) -> Result<Option<(List<Octets>, List<Octets>)>, Memory>
    ensures { IfOk result (λ o. FoundKeys subscript (option_map (λ x. x.now) value.entry) (slice_get slots.now component) o) }
{
    match slots.get(component) {
        None => Ok(None),
        Some(slot) => keys_in(alloc, slot, subscript, value),
    }
}

// The same, of what stands for one component.
fn keys_in(
    alloc: Global,
    slot: &Slot,
    subscript: u32,
    value: Option<&Value>,
) -> Result<Option<(List<Octets>, List<Octets>)>, Memory>
    ensures { IfOk result (λ o. FoundKeys subscript (option_map (λ x. x.now) value.entry) (Some slot.now) o) }
{
    match slot {
        Slot::Absent => Ok(None),
        Slot::Whole(_) => Ok(None),
        Slot::Entries(rows) => rows.keys_for(alloc, subscript, value),
    }
}

// Puts a value, or none, at a subscript of a component that is an array, for good. After an `Err` the values are as before.
fn set_entry(
    slots: &mut Vec<Slot>,
    component: usize,
    subscript: u32,
    value: Option<Value>,
    entering: List<Octets>,
    leaving: List<Octets>,
) -> Result<(), Memory>
    requires fits { FitsAt subscript value entering leaving (slice_get slots.old.items component) }
    ensures now { OnOk result (values_of slots.new.items ≡ with_entry component subscript value (values_of slots.old.items)) }
    ensures err { OnErr result (values_of slots.new.items ≡ values_of slots.old.items) }
{
    make_room_at(slots, component)?;
    exchange_at(
        slots,
        component,
        subscript,
        value,
        entering,
        leaving.as_slice(),
    );
    Ok(())
}

// Puts a value, or none, at a subscript of a component that is an array, and notes how that is undone where a mark stands. After an
// `Err` the values and what undoes them are as before.
fn change_entry(
    slots: &mut Vec<Slot>,
    log: &mut UndoStack<Inverse>,
    component: usize,
    subscript: u32,
    value: Option<Value>,
    entering: List<Octets>,
    leaving: List<Octets>,
    again: List<Octets>,
) -> Result<(), Memory>
    requires fits { FitsAt subscript value entering leaving (slice_get slots.old.items component) }
    requires again { again ≡ entering }
    requires undoable { Undoable log.old.0 slots.old.items }
    ensures now { OnOk result (values_of slots.new.items ≡ with_entry component subscript value (values_of slots.old.items)) }
    ensures err { OnErr result (values_of slots.new.items ≡ values_of slots.old.items) }
    ensures held { AreHeld slots.old.items log.old.0 slots.new.items log.new.0 }
{
    log.reserve(1)?;
    make_room_at(slots, component)?;
    let old = exchange_at(
        slots,
        component,
        subscript,
        value,
        entering,
        leaving.as_slice(),
    );
    log.push(Inverse::Entry(
        component,
        subscript,
        Row {
            value: old,
            entering: leaving,
            leaving: again,
        },
    ));
    Ok(())
}

// Makes room for one entry more in a component that is an array.
fn make_room_at(slots: &mut Vec<Slot>, component: usize) -> Result<(), Memory>
    requires { IsArray (slice_get slots.old.items component) }
    ensures roomier { AreRoomier slots.old.items slots.new.items }
    ensures ok { OnOk result (IsRoomyArray (slice_get slots.new.items component)) }
{
    make_room(&mut slots[component])
}

// Puts a value, or none, in the place of what stands at a subscript of a component that is an array, and gives that.
fn exchange_at(
    slots: &mut Vec<Slot>,
    component: usize,
    subscript: u32,
    value: Option<Value>,
    entering: List<Octets>,
    leaving: &[Octets],
) -> Option<Value>
    requires room { IsRoomyArray (slice_get slots.old.items component) }
    requires fits { FitsAt subscript value entering leaving.now (slice_get slots.old.items component) }
    ensures given { result ≡ entry_in subscript (slice_get slots.old.items component) }
    ensures after { slots.new.items ≡ at_slot (swapped subscript value) component slots.old.items (slice_get slots.old.items component) }
    ensures back { HasRoom subscript result leaving.now entering (slice_get slots.new.items component) }
{
    exchange_entry(&mut slots[component], subscript, value, entering, leaving)
}

// Makes room for one entry more in an array.
fn make_room(slot: &mut Slot) -> Result<(), Memory>
    ensures roomier { IsRoomier slot.old slot.new }
    ensures ok { OnOk result (HasPlace slot.new) }
{
    match slot {
        Slot::Entries(rows) => rows.reserve(1),
        _ => Ok(()),
    }
}

// Puts a value, or none, in the place of what stands at a subscript of an array, and gives that.
fn exchange_entry(
    slot: &mut Slot,
    subscript: u32,
    value: Option<Value>,
    entering: List<Octets>,
    leaving: &[Octets],
) -> Option<Value>
    requires room { HasPlace slot.old }
    requires fits { Fits subscript value entering leaving.now slot.old }
    ensures given { result ≡ entry_at subscript slot.old }
    ensures after { slot.new ≡ swapped subscript value slot.old }
    ensures back { HasRoom subscript result leaving.now entering (Some slot.new) }
{
    match slot {
        Slot::Entries(rows) => rows.swap(subscript, value, entering, leaving),
        _ => None,
    }
}

// Undoes the changes since a mark. It takes no memory.
fn undo_to(slots: &mut Vec<Slot>, log: &mut UndoStack<Inverse>, mark: Mark)
    requires { Undoable log.old.0 slots.old.items }
    ensures log { log.new.0 ≡ take mark log.old.0 }
    ensures slots { slots.new.items ≡ undone (dropped mark log.old.0) slots.old.items }
    ensures undoable { Undoable log.new.0 slots.new.items }
{
    while let Some(inverse) = log.pop_to(mark) {
        undo_one(slots, inverse);
    }
}

// Lets the changes since a mark stand for good.
fn forget(log: &mut UndoStack<Inverse>, mark: Mark)
    ensures { log.new.0 ≡ take mark log.old.0 }
{
    while let Some(inverse) = log.pop_to(mark) {
        drop(inverse);
    }
}

// Undoes a change. It takes no memory.
pub(crate) fn undo_one(slots: &mut Vec<Slot>, inverse: Inverse)
    requires { CanUndo inverse slots.old.items }
    ensures { slots.new.items ≡ undo inverse slots.old.items }
{
    match inverse {
        Inverse::Whole(component, slot) => slots[component] = slot,
        Inverse::Entry(component, subscript, row) => swap_entry(
            &mut slots[component],
            subscript,
            row,
        ),
    }
}

// Puts a value, or none, in the place of what stands at a subscript of an array.
fn swap_entry(slot: &mut Slot, subscript: u32, row: Row)
    requires { HasRoom subscript row.value row.entering row.leaving (Some slot.old) }
    ensures { slot.new ≡ swapped subscript row.value slot.old }
{
    if let Slot::Entries(rows) = slot {
        let Row {
            value,
            entering,
            leaving,
        } = row;
        rows.swap(subscript, value, entering, leaving.as_slice());
    }
}
