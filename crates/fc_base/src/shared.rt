// A list that several owners share.
ghost use Rattle.std.specs.Prelude.{◌≡◌, [], ◌↔◌, length, IfOk, IsTrue};

use crate::{Duplicate, List, Memory};
use std::alloc::Global;
use std::marker::Model;
use std::rc::RcSlice;

/// A list of items that changes no more, which contracts see as that list. A copy of it stands in the same memory, and takes none of its own.
#[derive(Debug, Drop)]
pub struct Shared<T> {
    items: RcSlice<T>,
    alloc: Global,
}

impl<T> Model for Shared<T> {
    ghost use Rattle.std.specs.Prelude.{List};
    ghost use Rattle.std.specs.Coded.{coded_list};
    ghost use Rattle.std.specs.Rc.{rc_slice_items};

    ghost Value = { List T };

    ghost coded = { coded_list T.code };

    ghost view = { λ shared. rc_slice_items shared.items };
}

impl<T: Drop> Shared<T> {
    /// The items of a list.
    pub fn of(list: List<T>) -> Result<Shared<T>, Memory>
        ensures { IfOk result (λ shared. shared ≡ list) }
    {
        let alloc = list.alloc();
        let items = RcSlice::from_vec(list.into_vec())?;
        Ok(Shared { items, alloc })
    }
}

impl<T> Shared<T> {
    /// The items.
    pub fn as_slice(&self) -> &[T]
        ensures { result.now ≡ self.now }
    {
        self.items.as_slice()
    }

    /// The allocator of the items.
    pub fn alloc(&self) -> Global {
        self.alloc
    }

    /// How many items there are.
    pub fn len(&self) -> usize
        ensures { result ≡ length self.now }
    {
        self.items.len()
    }

    /// Whether there is no item.
    pub fn is_empty(&self) -> bool
        ensures { IsTrue result ↔ (self.now ≡ []) }
    {
        self.items.as_slice().is_empty()
    }
}

impl<T: Drop> Duplicate for Shared<T> {
    fn copy(&self) -> Result<Self, Memory> {
        let items = self.items.clone()?;
        Ok(Shared {
            items,
            alloc: self.alloc,
        })
    }
}
