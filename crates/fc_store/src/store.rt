// What an element's instances hold.
ghost use Rattle.std.specs.Prelude.{◌≡◌, [], IfOk, OnErr};
ghost use Rattle.fc_value.specs.Outcomes.{Gives};
ghost use Rattle.fc_store.specs.Stores.{Did, IsWhole, depth_of, gone_back, mark_of, merge_spot, opened, over_mark, put_spot, remove_spot, seen, settled, with_mark, without_mark};
ghost use Rattle.fc_store.specs.declared.spots.Purpose.TheVariants as purpose;

use crate::changes::{merge_at, put_at, remove_at};
use crate::copies::copy_each;
use crate::looks::look_at;
use crate::opening::opening_instances;
use crate::scopes::{depths_of, mark_each, release_each, roll_each};
use crate::spots::Purpose;
use fc_base::{Duplicate, Memory, OpFault};
use fc_instance::{Instance, Node};
use fc_path::Spot;
use fc_types::{Instances, Library, Ty};
use fc_wire::Ilv;
use std::alloc::Global;
use std::marker::Model;

/// A mark over some instances of a store. Contracts see the place of each of them, with the number of marks that stood there before.
#[derive(Debug, Drop)]
pub struct StoreMark {
    places: Vec<(usize, usize)>,
}

impl Model for StoreMark {
    ghost use Rattle.std.specs.Prelude.{List, ℕ};

    ghost Value = { List (ℕ × ℕ) };

    ghost view = { λ s. s.places.items };
}

impl StoreMark {
    // The number of marks that stood at a place before this one, where it has that place.
    pub(crate) fn depth(&self, place: usize) -> Option<usize>
        ensures { result ≡ depth_of self.now place }
    {
        depth_at(&self.places, place)
    }

    /// The same mark once more, for a look at what was held at it.
    pub fn copy(&self) -> Result<StoreMark, Memory>
        ensures { IfOk result (λ mark. mark ≡ self.now) }
    {
        let places = Vec::from_slice(*self.places.allocator(), &self.places)?;
        Ok(StoreMark { places })
    }
}

// The number that stands with a place.
fn depth_at(places: &[(usize, usize)], place: usize) -> Option<usize>
    ensures { result ≡ depth_of places.now place }
{
    for mark in places {
        if mark.0 == place {
            return Some(mark.1);
        }
    }
    None
}

/// What the instances of an element hold: for each component of its class a value or none. Contracts see the library, the instances, and
/// the tree of each instance, now and at each mark that stands.
#[derive(Debug, Drop)]
pub struct Store {
    library: Library,
    instances: Instances,
    trees: Vec<Instance>,
}

impl Model for Store {
    ghost use Rattle.fc_store.specs.Stores.{Stored, stored_code};
    ghost use Rattle.fc_store.specs.Trees.{AreTrees, stored};

    ghost Value = { Stored };

    ghost coded = { stored_code };

    ghost view = { λ s. stored s.library s.instances s.trees.items };

    ghost invariant = { λ s. AreTrees s.library s.instances s.trees.items };
}

impl Store {
    /// The opening values of all components of the instances. A component that may be absent is, and so are those whose values the
    /// element itself tells, and components 4 and 5 of class 0001F001.
    pub fn new(alloc: Global, library: &Library, instances: &Instances) -> Result<Store, Memory>
        ensures { IfOk result (λ store. store ≡ opened library.now instances.now) }
    {
        let trees = opening_instances(alloc, library.classes(), instances.pairs())?;
        let library = library.copy()?;
        let instances = instances.copy()?;
        Ok(Store {
            library,
            instances,
            trees,
        })
    }

    /// The library that the store was made with.
    pub fn library(&self) -> &Library
        ensures { result.now ≡ self.now.library }
    {
        &self.library
    }

    /// The instances that the store was made with, each of which has a value, or none, for each component of its class.
    pub fn instances(&self) -> &Instances
        ensures same { result.now ≡ self.now.instances }
        ensures whole { IsWhole self.now }
    {
        &self.instances
    }

    /// The node to which a spot leads, with its type. The first of these gives the code: what [`resolve`](crate::resolve) refuses for
    /// reading; the component has no value, `NOT_FOUND`; what [`walk`](crate::walk) refuses for the further steps.
    pub fn at(&self, spot: &Spot) -> Result<(&Ty, Node<'_>), OpFault>
        ensures { Gives (λ x. (x.0.now, x.1)) result (seen purpose.Read spot.now self.now) }
    {
        self.seen(Purpose::Read, spot)
    }

    /// The same, with or without the right to read the component.
    pub fn look(&self, spot: &Spot) -> Result<(&Ty, Node<'_>), OpFault>
        ensures { Gives (λ x. (x.0.now, x.1)) result (seen purpose.Look spot.now self.now) }
    {
        self.seen(Purpose::Look, spot)
    }

    fn seen(&self, purpose: Purpose, spot: &Spot) -> Result<(&Ty, Node<'_>), OpFault>
        ensures { Gives (λ x. (x.0.now, x.1)) result (seen purpose spot.now self.now) }
    {
        let alloc = *self.trees.allocator();
        look_at(
            alloc,
            purpose,
            &self.library,
            &self.instances,
            &self.trees,
            spot,
        )
    }

    /// A SET of FULLDATA: puts the value of these bytes where a spot leads, as a new one where the last step is to a component that is
    /// absent or to an entry that is not there. The first of these gives the code: what [`resolve`](crate::resolve) refuses for
    /// writing; a step leads nowhere; the bytes are no value; the array has as many entries as it may have,
    /// `INVALID_ARRAY_CREATION`; another entry has the same key, `EXISTS`. After an `Err` nothing has changed.
    pub fn put(&mut self, spot: &Spot, full: &[u8]) -> Result<(), OpFault>
        ensures { Did result (put_spot spot.now full.now self.old) self.old self.new }
    {
        put_at(&self.library, &self.instances, &mut self.trees, spot, full)
    }

    /// A SET of SPARSEDATA: changes the fields or entries that are named, and no others, of the struct or array to which a spot leads.
    /// The codes are those of [`Store::put`], but for an absent component, which is `NOT_FOUND`; there is too little room, or a key
    /// is there twice, where that holds of the result. After an `Err` nothing has changed.
    pub fn merge(&mut self, spot: &Spot, ilvs: &[Ilv]) -> Result<(), OpFault>
        ensures { Did result (merge_spot spot.now ilvs.now self.old) self.old self.new }
    {
        merge_at(&self.library, &self.instances, &mut self.trees, spot, ilvs)
    }

    /// A DEL: takes an entry of an array away, or the value of a component that may be absent. The first of these gives the code: what
    /// [`resolve`](crate::resolve) refuses for writing; a step leads nowhere; the target is anything else, `INVALID_PARAMETERS`.
    /// After an `Err` nothing has changed.
    pub fn remove(&mut self, spot: &Spot) -> Result<(), OpFault>
        ensures { Did result (remove_spot spot.now self.old) self.old self.new }
    {
        remove_at(&self.library, &self.instances, &mut self.trees, spot)
    }

    /// Marks all instances.
    pub fn mark(&mut self) -> Result<StoreMark, Memory>
        ensures ok { IfOk result (λ mark. mark ≡ mark_of [] self.old) }
        ensures marked { IfOk result (λ mark. self.new ≡ over_mark with_mark mark self.old) }
        ensures err { OnErr result (self.new ≡ self.old) }
    {
        self.mark_for(&[])
    }

    /// Marks the instances that a scope names, each one by its class and its ID; the empty scope names all. What is no instance counts
    /// for nothing, and one that is named twice counts once. After an `Err` nothing has changed.
    pub fn mark_for(&mut self, scope: &[(u32, u32)]) -> Result<StoreMark, Memory>
        ensures ok { IfOk result (λ mark. mark ≡ mark_of scope.now self.old) }
        ensures marked { IfOk result (λ mark. self.new ≡ over_mark with_mark mark self.old) }
        ensures err { OnErr result (self.new ≡ self.old) }
    {
        let alloc = *self.trees.allocator();
        let places = depths_of(alloc, scope, self.instances.pairs(), &self.trees)?;
        mark_each(&mut self.trees, &places)?;
        Ok(StoreMark { places })
    }

    /// Gives the instances of a mark what they held at their newest marks, which end with that; all others stay, and so does an
    /// instance at which no mark stands. It takes no memory.
    pub fn rollback(&mut self, mark: StoreMark)
        ensures { self.new ≡ over_mark gone_back mark self.old }
    {
        roll_each(&mut self.trees, &mark.places);
    }

    /// Ends the newest marks of the instances of a mark, and keeps what they hold. It takes no memory.
    pub fn release(&mut self, mark: StoreMark)
        ensures { self.new ≡ over_mark without_mark mark self.old }
    {
        release_each(&mut self.trees, &mark.places);
    }

    /// A store without marks, in which each instance of one of these marks has what it held at it, and every other instance what it
    /// holds now.
    pub fn settled_copy(&self, marks: &[StoreMark]) -> Result<Store, Memory>
        ensures { IfOk result (λ store. store ≡ settled marks.now self.now) }
    {
        let alloc = *self.trees.allocator();
        let trees = copy_each(alloc, &self.trees, marks)?;
        let library = self.library.copy()?;
        let instances = self.instances.copy()?;
        Ok(Store {
            library,
            instances,
            trees,
        })
    }

    /// A store without marks that holds what this one holds now.
    pub fn copy(&self) -> Result<Store, Memory>
        ensures { IfOk result (λ store. store ≡ settled [] self.now) }
    {
        self.settled_copy(&[])
    }
}
