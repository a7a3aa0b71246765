// What the instances of a new store hold.
ghost use Rattle.std.specs.Prelude.{◌≡◌, IfOk};
ghost use Rattle.fc_instance.specs.Histories.{slot_cell, values_of};
ghost use Rattle.fc_store.specs.Stores as spec;
ghost use Rattle.fc_store.specs.Stores.{Pairwise, declared_in, number_or};
ghost use Rattle.fc_store.specs.Trees.{IsOpened, Opens};

use fc_base::Memory;
use fc_instance::{Instance, Slot};
use fc_types::{Class, Component, FE_OBJECT, FE_PROTOCOL, MASTERSHIP, Ty, is_live, with_id};
use fc_value::{Value, first};
use std::alloc::Global;

// Whether a component holds nothing: the opening and the subject of a transaction.
fn holds_nothing(class: u32, id: u32) -> bool
    ensures { result ≡ spec.holds_nothing class id }
{
    class == MASTERSHIP && (id == 4 || id == 5)
}

// Whether a component has no opening value.
fn opens_absent(class: u32, component: &Component) -> bool
    ensures { result ≡ spec.opens_absent class component.now }
{
    component.optional || is_live(class, component.id) || holds_nothing(class, component.id)
}

// The opening values that are not those of their types: `FEState`, and `CEHDI` and `FEHI` in milliseconds.
fn opening_number(class: u32, id: u32) -> Option<i128>
    ensures { result ≡ spec.opening_number class id }
{
    if class == FE_OBJECT && id == 7 {
        Some(2)
    } else if class == FE_PROTOCOL && id == 5 {
        Some(30_000)
    } else if class == FE_PROTOCOL && id == 7 {
        Some(500)
    } else {
        None
    }
}

// The number, or without one the opening value of the type.
fn value_or(alloc: Global, number: Option<i128>, ty: &Ty) -> Result<Value, Memory>
    ensures { IfOk result (λ value. value ≡ number_or number ty.now) }
{
    match number {
        Some(number) => Ok(Value::Number(number)),
        None => first(alloc, ty),
    }
}

// What a component opens with.
fn opening_slot(alloc: Global, class: u32, component: &Component) -> Result<Slot, Memory>
    ensures { IfOk result (λ slot. Opens class component.now (slot_cell slot)) }
{
    if opens_absent(class, component) {
        return Ok(Slot::Absent);
    }
    let value = value_or(alloc, opening_number(class, component.id), &component.ty)?;
    Slot::of(alloc, &component.ty, value)
}

// What the components of a class open with.
fn opening_slots(alloc: Global, class: u32, components: &[Component]) -> Result<Vec<Slot>, Memory>
    ensures { IfOk result (λ slots. Pairwise (Opens class) components.now (values_of slots.items)) }
{
    let mut slots = Vec::new(alloc);
    for component in components {
        slots.push(opening_slot(alloc, class, component)?)?;
    }
    Ok(slots)
}

// The same, of the class of a library with an ID; none where it has no such class.
fn slots_of_class(alloc: Global, classes: &[Class], class: u32) -> Result<Vec<Slot>, Memory>
    ensures { IfOk result (λ slots. Pairwise (Opens class) (declared_in classes.now class) (values_of slots.items)) }
{
    match with_id(classes, class) {
        Some(found) => opening_slots(alloc, class, found.components.as_slice()),
        None => Ok(Vec::new(alloc)),
    }
}

fn opening_instance(alloc: Global, classes: &[Class], pair: (u32, u32)) -> Result<Instance, Memory>
    ensures { IfOk result (λ h. IsOpened classes.now pair h) }
{
    let slots = slots_of_class(alloc, classes, pair.0)?;
    Ok(Instance::of(alloc, slots))
}

// What the instances hold in a new store.
pub fn opening_instances(
    alloc: Global,
    classes: &[Class],
    pairs: &[(u32, u32)],
) -> Result<Vec<Instance>, Memory>
    ensures { IfOk result (λ hs. Pairwise (IsOpened classes.now) pairs.now hs.items) }
{
    let mut instances = Vec::new(alloc);
    for pair in pairs {
        instances.push(opening_instance(alloc, classes, *pair)?)?;
    }
    Ok(instances)
}
