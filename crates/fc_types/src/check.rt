// What a declaration of classes and instances must keep, and its first fault.
ghost use Rattle.std.specs.Prelude.{◌≡◌};
ghost use Rattle.std.specs.List.{list_all};
ghost use Rattle.fc_types.specs.Libraries as spec;
ghost use Rattle.fc_types.specs.Libraries.{class_rules, first_broken, is_own, is_known};

use crate::built_in::is_built_in;
use crate::class_rules::{ClassRule, all_keep};
use crate::{CheckFault, Class, are_distinct, has_id};

/// The greatest number of classes that a maker declares.
const CLASSES_LIMIT: usize = 256;

/// The greatest number of instances that a maker declares.
const INSTANCES_LIMIT: usize = 4096;

/// The first fault of the classes, each fault looked for in all of them before the next one.
#[tactic(auto, unfolding(crate::specs::Libraries::class_rules))]
pub fn class_fault(classes: &[Class], instances: &[(u32, u32)]) -> Option<CheckFault>
    ensures { result ≡ first_broken (class_rules classes.now instances.now) }
{
    if !are_few(classes, instances) {
        Some(CheckFault::TooMany)
    } else if !differ_in_ids(classes) {
        Some(CheckFault::DuplicateId)
    } else if !all_keep(ClassRule::Shallow, classes) {
        Some(CheckFault::TooDeep)
    } else if !all_keep(ClassRule::Ranges, classes) {
        Some(CheckFault::BadRange)
    } else if !all_keep(ClassRule::AtomicKeys, classes) {
        Some(CheckFault::KeyNotAtomic)
    } else if !all_keep(ClassRule::Targets, classes) {
        Some(CheckFault::BadTarget)
    } else {
        None
    }
}

fn are_few(classes: &[Class], instances: &[(u32, u32)]) -> bool
    ensures { result ≡ spec.are_few classes.now instances.now }
{
    classes.len() <= CLASSES_LIMIT
        && instances.len() <= INSTANCES_LIMIT
        && all_keep(ClassRule::Small, classes)
}

fn differ_in_ids(classes: &[Class]) -> bool
    ensures { result ≡ spec.differ_in_ids classes.now }
{
    are_distinct(classes) && are_own(classes) && all_keep(ClassRule::DistinctIds, classes)
}

// Whether none of the classes has the ID of a built-in one.
fn are_own(classes: &[Class]) -> bool
    ensures { result ≡ list_all is_own classes.now }
{
    for class in classes {
        if is_built_in(class.id) {
            return false;
        }
    }
    true
}

/// Whether the class of each instance is among these.
pub fn are_known(classes: &[Class], instances: &[(u32, u32)]) -> bool
    ensures { result ≡ list_all (is_known classes.now) instances.now }
{
    for instance in instances {
        if !has_id(classes, instance.0) {
            return false;
        }
    }
    true
}
