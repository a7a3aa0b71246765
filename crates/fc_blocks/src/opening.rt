// What an element holds when it was just made.
ghost use Rattle.std.specs.Prelude.{◌≡◌, IfOk, true};
ghost use Rattle.std.specs.List.{list_all};
ghost use Rattle.fc_types.specs.Libraries.{AreKnown, is_own};
ghost use Rattle.fc_blocks.specs.Opening.{opened_store};

use fc_base::Memory;
use fc_lfbs::built_in;
use fc_store::Store;
use fc_types::{Instances, Library};
use std::alloc::Global;

/// The configuration of an element with a library and instances to which its own are added. Each component has its opening value.
pub fn open_store(alloc: Global, library: Library, instances: Instances) -> Result<Store, Memory>
    requires absent { list_all is_own library ≡ true }
    requires known { AreKnown library instances }
    ensures { IfOk result (λ store. store ≡ opened_store library instances) }
{
    let own = built_in(alloc)?;
    let (library, instances) = library.with_built_in(instances, own)?;
    Store::new(alloc, &library, &instances)
}
