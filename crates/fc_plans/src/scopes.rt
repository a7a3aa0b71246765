// The LFB instances that changes name.
ghost use Rattle.std.specs.Prelude.{true, false, ◌≡◌, ◌<◌, ◌≤◌, length, map, IfOk, IfSome, IfNone, OnOk};
ghost use Rattle.std.specs.List.{insert, list_all};
ghost use Rattle.fc_protocol.specs.Scopes.{stands_before};
ghost use Rattle.fc_plans.specs.Plans as spec;

use crate::change::Change;
use crate::plan::Part;
use fc_base::{List, Memory};
use fc_path::Select;
use std::alloc::Global;

/// The most LFB instances that the changes of a participant name, where the plan has scopes.
pub const MOST_INSTANCES: usize = 4096;

// Whether one instance stands before another: by class, then by instance.
fn stands_before(first: (u32, u32), second: (u32, u32)) -> bool
    ensures { result ≡ stands_before first second }
{
    first.0 < second.0 || (first.0 == second.0 && first.1 < second.1)
}

// Where an instance is to stand among others that rise; none where it stands there already.
fn room_for(instance: (u32, u32), scope: &[(u32, u32)]) -> Option<usize>
    ensures room { IfSome result (λ at. (at ≤ length scope.now) × (insert scope.now at instance ≡ spec.entered instance scope.now)) }
    ensures there { IfNone result (scope.now ≡ spec.entered instance scope.now) }
{
    for at in 0..scope.len() {
        if stands_before(instance, scope[at]) {
            return Some(at);
        }
        if !stands_before(scope[at], instance) {
            return None;
        }
    }
    Some(scope.len())
}

// Enters an instance among others that rise.
fn enter(scope: &mut Vec<(u32, u32)>, instance: (u32, u32)) -> Result<(), Memory>
    ensures { OnOk result (scope.new.items ≡ spec.entered instance scope.old.items) }
{
    match room_for(instance, scope.as_slice()) {
        None => Ok(()),
        Some(at) => {
            scope.insert(at, instance)?;
            Ok(())
        }
    }
}

// Enters the instances that selects name.
fn enter_all(scope: &mut Vec<(u32, u32)>, selects: &[Select]) -> Result<(), Memory>
    ensures { OnOk result (scope.new.items ≡ spec.entered_all selects.now scope.old.items) }
{
    for select in selects {
        enter(scope, (select.class, select.instance))?;
    }
    Ok(())
}

// The instances that changes name, which rise; none where they are more than a participant may have.
fn named(alloc: Global, changes: &[Change]) -> Result<Option<List<(u32, u32)>>, Memory>
    ensures some { IfOk result (λ r. IfSome r (λ scope. (scope ≡ spec.named changes.now) × (length scope ≤ 4096))) }
    ensures none { IfOk result (λ r. IfNone r (4096 < length (spec.named changes.now))) }
{
    let mut scope = Vec::new(alloc);
    for change in changes {
        if scope.len() > MOST_INSTANCES {
            return Ok(None);
        }
        enter_all(&mut scope, change.selects())?;
    }
    if scope.len() > MOST_INSTANCES {
        return Ok(None);
    }
    Ok(Some(List::from_vec(scope)))
}

/// The participants, each with the instances that its changes name as its scope; none where those of one are too many.
pub fn scoped_parts(parts: List<Part>) -> Result<Option<List<Part>>, Memory>
    ensures some { IfOk result (λ r. IfSome r (λ others. (others ≡ map spec.rescoped parts) × (list_all spec.has_scope (map spec.rescoped parts) ≡ true))) }
    ensures none { IfOk result (λ r. IfNone r (list_all spec.has_scope (map spec.rescoped parts) ≡ false)) }
{
    let alloc = parts.alloc();
    let mut others = List::new(alloc);
    for part in parts.into_vec() {
        let scope = match named(alloc, part.changes.as_slice())? {
            None => return Ok(None),
            Some(scope) => scope,
        };
        others.push(Part {
            element: part.element,
            changes: part.changes,
            scope,
        })?;
    }
    Ok(Some(others))
}
