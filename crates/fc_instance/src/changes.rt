// Changes of a component: SET and DEL by steps.
ghost use Rattle.std.specs.Prelude.{◌≡◌, ◌<◌, [], ◌∷◌, length, slice_get, is_some, Some, Ok};
ghost use Rattle.fc_tree.specs.Finding.{not_found, or_code};
ghost use Rattle.fc_tree.specs.Merging.{merge_in};
ghost use Rattle.fc_tree.specs.Putting.{put_in};
ghost use Rattle.fc_tree.specs.Removing.{remove_in};
ghost use Rattle.fc_value.specs.Outcomes.{Gives};
ghost use Rattle.fc_instance.specs.Cells.{Changed, IsShaped, cell_at, merge_cell, put_cell, remove_cell, value_at, valued};
ghost use Rattle.fc_instance.specs.Components.{Changes, entry_at_subscript};
ghost use Rattle.fc_instance.specs.Histories.{slot_cell, with_entry};
ghost use Rattle.fc_instance.specs.Leading.{IsPath, at_entry, entry_less, row_merge, through};

use crate::{EntryPath, Instance, Slot};
use fc_base::{Code, Duplicate, OpFault};
use fc_path::Step;
use fc_tree::{merge_value, put_value, remove_value};
use fc_types::Ty;
use fc_value::{Value, read_full};
use fc_wire::Ilv;
use std::alloc::Global;

impl Instance {
    /// A SET of FULLDATA at a component of a type, or below it: the last step may make a new entry of an array, and without a step
    /// an absent component is given its value. The first of these gives the code: the component is absent and there is a step
    /// (`NOT_FOUND`), a step that leads nowhere, bytes that do not read, an array without room for a new entry
    /// (`INVALID_ARRAY_CREATION`), an equal key in an array on the path (`EXISTS`). After an `Err` nothing has changed.
    pub fn put(
        &mut self,
        alloc: Global,
        ty: &Ty,
        component: usize,
        steps: &[Step],
        full: &[u8],
    ) -> Result<(), OpFault>
        requires within { component < length self.old.now }
        requires shaped { IsShaped ty.now (cell_at component self.old.now) }
        ensures changed { Changed result (put_cell steps.now full.now ty.now (value_at component self.old.now)) ty.now component self.old.now self.new.now }
        ensures held { self.new.held ≡ self.old.held }
    {
        match steps {
            [] => self.put_all(alloc, ty, component, full),
            [first, rest @ ..] => match self.path_at(alloc, ty, component, first, rest)? {
                Some(path) => self.put_row(alloc, component, &path, full),
                None => self.put_through(alloc, ty, component, steps, full),
            },
        }
    }

    /// A SET of SPARSEDATA at a component of a type, or below it: what its ILVs name changes, the rest stays. The first of these gives
    /// the code: the component is absent (`NOT_FOUND`), a step that leads nowhere, ILVs that do not read, an array with more entries
    /// than it may have (`INVALID_ARRAY_CREATION`), an equal key in it or in an array on the path (`EXISTS`). After an `Err` nothing
    /// has changed.
    pub fn merge(
        &mut self,
        alloc: Global,
        ty: &Ty,
        component: usize,
        steps: &[Step],
        ilvs: &[Ilv],
    ) -> Result<(), OpFault>
        requires within { component < length self.old.now }
        requires shaped { IsShaped ty.now (cell_at component self.old.now) }
        ensures changed { Changed result (merge_cell steps.now ilvs.now ty.now (value_at component self.old.now)) ty.now component self.old.now self.new.now }
        ensures held { self.new.held ≡ self.old.held }
    {
        match steps {
            [] => self.merge_through(alloc, ty, component, steps, ilvs),
            [first, rest @ ..] => match self.path_at(alloc, ty, component, first, rest)? {
                Some(path) => self.merge_row(alloc, component, &path, ilvs),
                None => self.merge_through(alloc, ty, component, steps, ilvs),
            },
        }
    }

    /// A DEL at a component of a type, or below it: without a step an optional component becomes absent, else the entry to which the
    /// steps lead is taken out. The first of these gives the code: the component is absent (`NOT_FOUND`), a step that leads nowhere, a
    /// target that is neither an optional component nor an entry (`INVALID_PARAMETERS`). After an `Err` nothing has changed.
    pub fn remove(
        &mut self,
        alloc: Global,
        ty: &Ty,
        optional: bool,
        component: usize,
        steps: &[Step],
    ) -> Result<(), OpFault>
        requires within { component < length self.old.now }
        requires shaped { IsShaped ty.now (cell_at component self.old.now) }
        ensures changed { Changed result (remove_cell optional steps.now ty.now (value_at component self.old.now)) ty.now component self.old.now self.new.now }
        ensures held { self.new.held ≡ self.old.held }
    {
        match steps {
            [] => self.remove_all(ty, optional, component),
            [first, rest @ ..] => match self.path_at(alloc, ty, component, first, rest)? {
                Some(path) => self.remove_row(alloc, ty, component, &path, steps),
                None => self.remove_through(alloc, ty, component, steps),
            },
        }
    }
}

// Changes of a component as a whole.
impl Instance {
    // Whether a component has a value.
    fn is_present(&self, component: usize) -> bool
        ensures { result ≡ is_some (value_at component self.now.now) }
    {
        match self.slot(component) {
            None => false,
            Some(slot) => match slot {
                Slot::Absent => false,
                _ => true,
            },
        }
    }

    // A copy of the value of a component.
    fn value_of(&self, alloc: Global, component: usize) -> Result<Value, OpFault>
        ensures { Gives (λ v. v) result (or_code not_found (value_at component self.now.now)) }
    {
        match self.slot(component) {
            None => Err(OpFault::Refused(Code::NOT_FOUND)),
            Some(slot) => copy_value(alloc, slot),
        }
    }

    // Gives a component a value.
    fn set_value(
        &mut self,
        alloc: Global,
        ty: &Ty,
        component: usize,
        value: Value,
    ) -> Result<(), OpFault>
        requires within { component < length self.old.now }
        ensures changed { Changed result (Ok (Some value)) ty.now component self.old.now self.new.now }
        ensures held { self.new.held ≡ self.old.held }
    {
        let slot = Slot::of(alloc, ty, value)?;
        self.put_whole(component, slot)?;
        Ok(())
    }

    fn put_all(
        &mut self,
        alloc: Global,
        ty: &Ty,
        component: usize,
        full: &[u8],
    ) -> Result<(), OpFault>
        requires within { component < length self.old.now }
        ensures changed { Changed result (put_cell [] full.now ty.now (value_at component self.old.now)) ty.now component self.old.now self.new.now }
        ensures held { self.new.held ≡ self.old.held }
    {
        let new = read_full(alloc, ty, full)?;
        self.set_value(alloc, ty, component, new)
    }

    fn remove_all(&mut self, ty: &Ty, optional: bool, component: usize) -> Result<(), OpFault>
        requires within { component < length self.old.now }
        ensures changed { Changed result (remove_cell optional [] ty.now (value_at component self.old.now)) ty.now component self.old.now self.new.now }
        ensures held { self.new.held ≡ self.old.held }
    {
        if !self.is_present(component) {
            return Err(OpFault::Refused(Code::NOT_FOUND));
        }
        if !optional {
            return Err(OpFault::Refused(Code::INVALID_PARAMETERS));
        }
        self.put_whole(component, Slot::Absent)?;
        Ok(())
    }

    fn put_through(
        &mut self,
        alloc: Global,
        ty: &Ty,
        component: usize,
        steps: &[Step],
        full: &[u8],
    ) -> Result<(), OpFault>
        requires within { component < length self.old.now }
        ensures changed { Changed result (through (put_in steps.now full.now ty.now) (value_at component self.old.now)) ty.now component self.old.now self.new.now }
        ensures held { self.new.held ≡ self.old.held }
    {
        let value = self.value_of(alloc, component)?;
        let new = put_value(alloc, ty, value, steps, full)?;
        self.set_value(alloc, ty, component, new)
    }

    fn merge_through(
        &mut self,
        alloc: Global,
        ty: &Ty,
        component: usize,
        steps: &[Step],
        ilvs: &[Ilv],
    ) -> Result<(), OpFault>
        requires within { component < length self.old.now }
        ensures changed { Changed result (through (merge_in steps.now ilvs.now ty.now) (value_at component self.old.now)) ty.now component self.old.now self.new.now }
        ensures held { self.new.held ≡ self.old.held }
    {
        let value = self.value_of(alloc, component)?;
        let new = merge_value(alloc, ty, value, steps, ilvs)?;
        self.set_value(alloc, ty, component, new)
    }

    fn remove_through(
        &mut self,
        alloc: Global,
        ty: &Ty,
        component: usize,
        steps: &[Step],
    ) -> Result<(), OpFault>
        requires within { component < length self.old.now }
        ensures changed { Changed result (through (remove_in steps.now ty.now) (value_at component self.old.now)) ty.now component self.old.now self.new.now }
        ensures held { self.new.held ≡ self.old.held }
    {
        let value = self.value_of(alloc, component)?;
        let new = remove_value(alloc, ty, value, steps)?;
        self.set_value(alloc, ty, component, new)
    }
}

// Changes of one entry.
impl Instance {
    // An entry with changes of the part to which the rest of its path leads.
    fn merged_entry(
        &self,
        alloc: Global,
        component: usize,
        path: &EntryPath,
        ilvs: &[Ilv],
    ) -> Result<Value, OpFault>
        ensures { Gives (λ v. v) result (at_entry (merge_in path.now.rest.now ilvs.now path.now.entry.now) (entry_at_subscript path.now.subscript (slice_get self.now.now component))) }
    {
        match self.entry(component, path.subscript) {
            None => Err(OpFault::Refused(Code::NOT_FOUND)),
            Some(old) => merge_value(alloc, path.entry, old.copy()?, path.rest, ilvs),
        }
    }

    fn merge_row(
        &mut self,
        alloc: Global,
        component: usize,
        path: &EntryPath,
        ilvs: &[Ilv],
    ) -> Result<(), OpFault>
        ensures changes { Changes result (row_merge path.now.rest.now ilvs.now path.now.entry.now path.now.subscript (slice_get self.old.now component)) (λ w. with_entry component path.now.subscript (Some w) self.old.now) self.old.now self.new.now }
        ensures held { self.new.held ≡ self.old.held }
    {
        let new = self.merged_entry(alloc, component, path, ilvs)?;
        match self.put_entry(alloc, component, path.subscript, Some(new))? {
            true => Ok(()),
            false => Err(OpFault::Refused(Code::EXISTS)),
        }
    }

    // An entry without what the rest of its path leads to; none, where that is the entry itself.
    fn entry_without(
        &self,
        alloc: Global,
        component: usize,
        path: &EntryPath,
    ) -> Result<Option<Value>, OpFault>
        ensures { Gives (λ o. o) result (at_entry (entry_less path.now.rest.now path.now.entry.now) (entry_at_subscript path.now.subscript (slice_get self.now.now component))) }
    {
        match self.entry(component, path.subscript) {
            None => Err(OpFault::Refused(Code::NOT_FOUND)),
            Some(old) => less_of(alloc, path.entry, old, path.rest),
        }
    }

    // Takes out an entry, or what stands within it. A DEL asks for no keys that differ: where they would not, the component changes as
    // a whole.
    fn remove_row(
        &mut self,
        alloc: Global,
        ty: &Ty,
        component: usize,
        path: &EntryPath,
        steps: &[Step],
    ) -> Result<(), OpFault>
        requires within { component < length self.old.now }
        requires path { IsPath ty.now steps.now (slice_get self.old.now component) path.now }
        ensures changed { Changed result (through (remove_in steps.now ty.now) (value_at component self.old.now)) ty.now component self.old.now self.new.now }
        ensures held { self.new.held ≡ self.old.held }
    {
        let new = self.entry_without(alloc, component, path)?;
        match self.put_entry(alloc, component, path.subscript, new)? {
            true => Ok(()),
            false => self.remove_through(alloc, ty, component, steps),
        }
    }
}

// A copy of the value of what stands for a component.
fn copy_value(alloc: Global, slot: &Slot) -> Result<Value, OpFault>
    ensures { Gives (λ v. v) result (or_code not_found (valued (slot_cell slot.now))) }
{
    match slot {
        Slot::Absent => Err(OpFault::Refused(Code::NOT_FOUND)),
        Slot::Whole(value) => Ok(value.copy()?),
        Slot::Entries(rows) => Ok(Value::Table(rows.to_list(alloc)?)),
    }
}

// An entry without what steps lead to; none, where there is no step.
fn less_of(alloc: Global, entry: &Ty, old: &Value, rest: &[Step]) -> Result<Option<Value>, OpFault>
    ensures { Gives (λ o. o) result (entry_less rest.now entry.now old.now) }
{
    match rest {
        [] => Ok(None),
        _ => Ok(Some(remove_value(alloc, entry, old.copy()?, rest)?)),
    }
}
