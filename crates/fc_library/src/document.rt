// From the bytes of a document to a checked library.
ghost use Rattle.std.specs.Prelude.{◌≡◌, true, IfOk};
ghost use Rattle.std.specs.List.{list_all};
ghost use Rattle.toml.specs.View.{table_view};
ghost use Rattle.fc_types.specs.Libraries.{AreKnown, is_own};
ghost use Rattle.fc_library.specs.Documents as spec;
ghost use Rattle.fc_library.specs.Documents.{GivesLibrary};

use crate::declarations::declaration;
use crate::fault::LibFault;
use fc_base::List;
use fc_types::{CheckFault, Class, Instances, Library};
use std::alloc::Global;
use toml::Table;

/// The library that the bytes of a TOML document mean, with its instances, or why they mean none.
///
/// The first of these faults is told: the bytes are not TOML in UTF-8; a key is unknown, missing or of the wrong kind; the
/// library is refused by [`Library::check`]. A table is looked at whole before the tables in it, and these by the order of
/// their keys in the declaration, and then by their place in the array. In one table the unknown keys come first, the least
/// of them being told, and then the missing and the wrong ones in the order of the declaration.
///
/// Each instance of the library is of a class in it, and none of its classes is a built-in one, as
/// [`Library::with_built_in`] asks for.
pub fn library_from_slice(alloc: Global, bytes: &[u8]) -> Result<(Library, Instances), LibFault>
    ensures exact { GivesLibrary result (spec.library_of bytes.now) }
    ensures known { IfOk result (λ given. AreKnown given.0 given.1) }
    ensures own { IfOk result (λ given. list_all is_own given.0 ≡ true) }
{
    match toml::table_from_slice(alloc, bytes) {
        Ok(table) => library(alloc, &table),
        Err(fault) => {
            if fault.is_memory() {
                Err(LibFault::Memory)
            } else {
                Err(LibFault::NotToml)
            }
        }
    }
}

// The library that a document's table means.
fn library(alloc: Global, table: &Table) -> Result<(Library, Instances), LibFault>
    ensures exact { GivesLibrary result (spec.library (table_view table.now)) }
    ensures known { IfOk result (λ given. AreKnown given.0 given.1) }
    ensures own { IfOk result (λ given. list_all is_own given.0 ≡ true) }
{
    let (classes, instances) = declaration(alloc, table)?;
    checked(classes, instances)
}

/// The classes and the instances as a library, where they keep its rules.
pub fn checked(
    classes: List<Class>,
    instances: List<(u32, u32)>,
) -> Result<(Library, Instances), LibFault>
    ensures exact { GivesLibrary result (spec.checked (classes, instances)) }
    ensures known { IfOk result (λ given. AreKnown given.0 given.1) }
    ensures own { IfOk result (λ given. list_all is_own given.0 ≡ true) }
{
    match Library::check(classes.into_vec(), instances.into_vec()) {
        Ok(library) => Ok(library),
        Err(CheckFault::Memory) => Err(LibFault::Memory),
        Err(fault) => Err(LibFault::Check(fault)),
    }
}
