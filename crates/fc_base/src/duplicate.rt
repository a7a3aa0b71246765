// Copies that may find no memory.
ghost use Rattle.std.specs.Prelude.{◌≡◌, IfOk};

use crate::{CeId, Code, Epoch, FeId, List, Memory, Octets, Text, TxnId};
use std::alloc::Global;

/// A value that can be copied, where there is memory.
pub trait Duplicate: Sized {
    /// An equal value of its own memory.
    fn copy(&self) -> Result<Self, Memory>
        ensures { IfOk result (λ other. other ≡ self.now) };
}

impl Duplicate for u8 {
    fn copy(&self) -> Result<Self, Memory> {
        Ok(*self)
    }
}

impl Duplicate for u32 {
    fn copy(&self) -> Result<Self, Memory> {
        Ok(*self)
    }
}

impl Duplicate for u64 {
    fn copy(&self) -> Result<Self, Memory> {
        Ok(*self)
    }
}

impl Duplicate for FeId {
    fn copy(&self) -> Result<Self, Memory> {
        Ok(*self)
    }
}

impl Duplicate for CeId {
    fn copy(&self) -> Result<Self, Memory> {
        Ok(*self)
    }
}

impl Duplicate for Epoch {
    fn copy(&self) -> Result<Self, Memory> {
        Ok(*self)
    }
}

impl Duplicate for TxnId {
    fn copy(&self) -> Result<Self, Memory> {
        Ok(*self)
    }
}

impl Duplicate for Code {
    fn copy(&self) -> Result<Self, Memory> {
        Ok(*self)
    }
}

impl<T: Duplicate + Drop> Duplicate for List<T> {
    fn copy(&self) -> Result<Self, Memory> {
        let items = copies(self.alloc(), self.as_slice())?;
        Ok(List::from_vec(items))
    }
}

// Copies of the items, in their order.
fn copies<T: Duplicate + Drop>(alloc: Global, items: &[T]) -> Result<Vec<T>, Memory>
    ensures { IfOk result (λ others. others.items ≡ items.now) }
{
    let mut others = Vec::with_capacity(alloc, items.len())?;
    for item in items {
        others.push(item.copy()?)?;
    }
    Ok(others)
}

impl Duplicate for Octets {
    fn copy(&self) -> Result<Self, Memory> {
        Octets::from_slice(self.alloc(), self.as_slice())
    }
}

impl Duplicate for Text {
    fn copy(&self) -> Result<Self, Memory> {
        Text::from_str(self.alloc(), self.as_str())
    }
}
