// A library of classes, and the instances that an element has of them.
ghost use Rattle.std.specs.Prelude.{◌≡◌, ◌≢◌, ◌≤◌, ◌++◌, length, map, true, false, Some, None, IfOk, OnOk, IfErr};
ghost use Rattle.std.specs.List.{list_all};
ghost use Rattle.fc_types.specs.Ids.{is_below, is_rising};
ghost use Rattle.fc_types.specs.Libraries.{pair_cmp};
ghost use Rattle.std.specs.List.Sorted.{IsPermutation};

use crate::built_in::MASTERSHIP;
use crate::check::{are_known, class_fault};
use crate::{CheckFault, Class};
use fc_base::{Duplicate, List, Memory};
use std::marker::Model;

/// A library of classes, which contracts see as their list. Each one keeps every rule of a declared class, and no two have
/// one ID.
#[derive(Debug, Drop)]
pub struct Library {
    classes: List<Class>,
}

impl Model for Library {
    ghost use Rattle.std.specs.Prelude.{List};
    ghost use Rattle.fc_types.specs.declared.class.Class.{Class};

    ghost Value = { List Class };

    ghost use Rattle.fc_types.specs.contracts.class.Class as contracts;
    ghost use Rattle.std.specs.Coded.{codes};

    ghost coded = { Prim.hlevel (codes, contracts.the_row.coded) };

    ghost use Rattle.fc_types.specs.Libraries.{IsLibrary};

    ghost view = { λ s. s.classes };

    ghost invariant = { λ s. IsLibrary s.classes };
}

/// The instances of classes, each one its class and its ID, which contracts see as their list. They rise by class, and then
/// by ID.
#[derive(Debug, Drop)]
pub struct Instances {
    pairs: List<(u32, u32)>,
}

impl Model for Instances {
    ghost use Rattle.std.specs.Prelude.{List, ℕ};

    ghost Value = { List (ℕ × ℕ) };

    ghost use Rattle.fc_types.specs.Libraries.{AreInstances};

    ghost view = { λ s. s.pairs };

    ghost invariant = { λ s. AreInstances s.pairs };
}

impl Library {
    ghost use Rattle.fc_types.specs.Libraries.{AreInstances, AreKnown, IsLibrary, KeepRules, first_fault, class_id, is_own};
    ghost use Rattle.fc_types.specs.BuiltIn.{built_in_ids, built_in_instances};
    ghost use Rattle.fc_types.specs.declared.fault.CheckFault.TheVariants as fault;

    /// The library of these classes, and these instances in their order. The faults are looked for in the order of
    /// [`CheckFault`], those of the classes before those of the instances (`UnknownClass`, and then `DuplicateId`), and
    /// each one in its whole list before the next one.
    pub fn check(
        classes: Vec<Class>,
        instances: Vec<(u32, u32)>,
    ) -> Result<(Library, Instances), CheckFault>
        ensures refused { IfErr result (λ e. e ≢ fault.Memory → first_fault classes.items instances.items ≡ Some e) }
        ensures accepted { OnOk result (first_fault classes.items instances.items ≡ None) }
        ensures classes { IfOk result (λ r. r.0 ≡ classes.items) }
        ensures instances { IfOk result (λ r. IsPermutation instances.items r.1) }
        ensures rules { IfOk result (λ r. IsLibrary r.0) }
        ensures order { IfOk result (λ r. AreInstances r.1) }
        ensures known { IfOk result (λ r. AreKnown r.0 r.1) }
        ensures own { IfOk result (λ r. list_all is_own r.0 ≡ true) }
    {
        if let Some(fault) = class_fault(&classes, &instances) {
            return Err(fault);
        }
        if !are_known(&classes, &instances) {
            return Err(CheckFault::UnknownClass);
        }
        let instances = Instances::of(instances)?;
        Ok((Library::of(classes), instances))
    }

    /// The library with the three classes that each element has of itself, which are given in the order of their IDs, and
    /// the instances with instance 1 of each of them.
    pub fn with_built_in(
        self,
        instances: Instances,
        built_in: Vec<Class>,
    ) -> Result<(Library, Instances), Memory>
        requires ids { map class_id built_in.items ≡ built_in_ids }
        requires kept { KeepRules built_in.items }
        requires absent { list_all is_own self ≡ true }
        requires known { AreKnown self instances }
        ensures classes { IfOk result (λ r. r.0 ≡ self ++ built_in.items) }
        ensures instances { IfOk result (λ r. IsPermutation (instances ++ built_in_instances) r.1) }
        ensures rules { IfOk result (λ r. IsLibrary r.0) }
        ensures order { IfOk result (λ r. AreInstances r.1) }
        ensures known { IfOk result (λ r. AreKnown r.0 r.1) }
    {
        let instances = instances.with_built_in()?;
        let library = self.with(built_in)?;
        Ok((library, instances))
    }

    // The library with more classes.
    fn with(self, more: Vec<Class>) -> Result<Library, Memory>
        requires { IsLibrary (self ++ more.items) }
        ensures { IfOk result (λ r. r ≡ self ++ more.items) }
    {
        let Library { classes } = self;
        let mut classes = classes;
        for class in more {
            classes.push(class)?;
        }
        Ok(Library { classes })
    }

    // The library of these classes.
    fn of(classes: Vec<Class>) -> Library
        requires { IsLibrary classes.items }
        ensures { result ≡ classes.items }
    {
        Library {
            classes: List::from_vec(classes),
        }
    }

    /// The classes.
    pub fn classes(&self) -> &[Class]
        ensures same { result.now ≡ self.now }
        ensures rules { IsLibrary self.now }
    {
        self.classes.as_slice()
    }
}

impl Instances {
    ghost use Rattle.fc_types.specs.Ids.{is_distinct};
    ghost use Rattle.fc_types.specs.Libraries.{AreInstances, is_own_instance, same_instance};
    ghost use Rattle.fc_types.specs.BuiltIn.{built_in_instances};
    ghost use Rattle.fc_types.specs.declared.fault.CheckFault.TheVariants as fault;

    // The pairs in their order, where no two are the same.
    fn of(pairs: Vec<(u32, u32)>) -> Result<Instances, CheckFault>
        requires { length pairs.items ≤ 4096 }
        ensures same { IfOk result (λ instances. IsPermutation pairs.items instances) }
        ensures order { IfOk result (λ instances. AreInstances instances) }
        ensures distinct { OnOk result (is_distinct same_instance pairs.items ≡ true) }
        ensures repeated { IfErr result (λ e. e ≢ fault.Memory → e ≡ fault.DuplicateId) }
        ensures repeats { IfErr result (λ e. e ≢ fault.Memory → is_distinct same_instance pairs.items ≡ false) }
    {
        let mut pairs = pairs;
        pairs.sort()?;
        if !are_rising(&pairs) {
            return Err(CheckFault::DuplicateId);
        }
        Ok(Instances {
            pairs: List::from_vec(pairs),
        })
    }

    // The instances with instance 1 of each built-in class.
    fn with_built_in(self) -> Result<Instances, Memory>
        requires { list_all is_own_instance self ≡ true }
        ensures same { IfOk result (λ instances. IsPermutation (self ++ built_in_instances) instances) }
        ensures order { IfOk result (λ instances. AreInstances instances) }
    {
        let Instances { pairs } = self;
        let mut pairs = pairs.into_vec();
        pairs.push((1, 1))?;
        pairs.push((2, 1))?;
        pairs.push((MASTERSHIP, 1))?;
        pairs.sort()?;
        Ok(Instances {
            pairs: List::from_vec(pairs),
        })
    }

    /// The pairs of a class and an ID, which rise by class and then by ID.
    pub fn pairs(&self) -> &[(u32, u32)]
        ensures same { result.now ≡ self.now }
        ensures order { AreInstances self.now }
    {
        self.pairs.as_slice()
    }
}

impl Duplicate for Library {
    fn copy(&self) -> Result<Self, Memory> {
        Ok(Library {
            classes: self.classes.copy()?,
        })
    }
}

impl Duplicate for Instances {
    fn copy(&self) -> Result<Self, Memory> {
        Ok(Instances {
            pairs: List::from_slice(self.pairs.alloc(), self.pairs.as_slice())?,
        })
    }
}

// Whether each pair is below the next one.
fn are_rising(pairs: &[(u32, u32)]) -> bool
    ensures { result ≡ is_rising pair_cmp pairs.now }
{
    let mut rest = pairs;
    while let [first, others @ ..] = rest {
        if !begin_above(others, *first) {
            return false;
        }
        rest = others;
    }
    true
}

// Whether the first of the pairs, if any, is above this one.
fn begin_above(pairs: &[(u32, u32)], pair: (u32, u32)) -> bool
    ensures { result ≡ is_below pair_cmp pair pairs.now }
{
    match pairs {
        [] => true,
        [first, ..] => pair < *first,
    }
}
