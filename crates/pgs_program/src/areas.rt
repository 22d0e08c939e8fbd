ghost use Rattle.std.specs.Prelude.{IfOk, option_map};
ghost use Rattle.pgs_program.specs.Outside.{AreFilesOf};

use pgs_base::Memory;
use pgs_world_files::{AreaFiles, Opening, StoreAccess};
use std::alloc::Global;

/// The areas of the store of this name, in its files, opened for what a run does with it; without a name, areas that have no files. A file
/// that can't be opened is an area without a file, and why is its cause; `Memory` where there was none to open them.
pub fn areas_of<O: Opening>(
    system: &mut O,
    alloc: Global,
    store: Option<&str>,
    access: StoreAccess,
) -> Result<AreaFiles<O::Area>, Memory>
    ensures { IfOk result (AreFilesOf O.area_gives (option_map (λ name. name.now) store.entry) access) }
{
    match store {
        Some(name) => AreaFiles::open(system, alloc, name, access),
        None => Ok(AreaFiles::absent()),
    }
}
