ghost use Rattle.std.specs.Prelude.{◌≡◌, IfOk};

use crate::Memory;
use std::alloc::Global;

/// A value of which an equal one can be made, where there is memory for it.
pub trait Copyable {
    /// An equal value. `Memory` where there was none left.
    fn copy(&self, alloc: Global) -> Result<Self, Memory>
        ensures { IfOk result (λ copied. copied ≡ self.now) };
}

impl<A: Copyable + Drop, B: Copyable> Copyable for (A, B) {
    fn copy(&self, alloc: Global) -> Result<(A, B), Memory> {
        let first = self.0.copy(alloc)?;
        let second = self.1.copy(alloc)?;
        Ok((first, second))
    }
}

/// Equal items. `Memory` where there was none left.
pub(crate) fn copy_items<T: Copyable + Drop>(alloc: Global, items: &[T]) -> Result<Vec<T>, Memory>
    ensures { IfOk result (λ copied. copied.items ≡ items.now) }
{
    let mut copied = Vec::with_capacity(alloc, items.len())?;
    for item in items {
        copied.push(item.copy(alloc)?)?;
    }
    Ok(copied)
}
