//! Lists while they are read.

ghost use Rattle.std.specs.Prelude.{◌≡◌, [], ◌∷◌, IfOk};

use pgs_base::Memory;
use std::alloc::Global;

/// The first of some items, and room for so many. `Memory` where there was none left.
#[inline(always)]
pub fn begun<T: Drop>(alloc: Global, room: usize, first: T) -> Result<Vec<T>, Memory>
    ensures { IfOk result (λ begun. begun.items ≡ first ∷ []) }
{
    let mut begun = Vec::with_capacity(alloc, room)?;
    begun.push(first)?;
    Ok(begun)
}
