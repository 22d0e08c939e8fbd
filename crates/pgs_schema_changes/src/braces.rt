ghost use Rattle.std.specs.Prelude.{◌≡◌, IfOk};

use pgs_base::{Copyable, List, Memory};
use pgs_syntax::{Braces, Property};
use std::alloc::Global;

fn copy_property(alloc: Global, property: &Property) -> Result<Property, Memory>
    ensures { IfOk result (λ copy. copy ≡ property.now) }
{
    Ok(Property {
        key: property.key.copy(alloc)?,
        kind: property.kind,
        optional: property.optional,
    })
}

fn copy_properties(alloc: Global, properties: &[Property]) -> Result<List<Property>, Memory>
    ensures { IfOk result (λ copy. copy ≡ properties.now) }
{
    let mut copies = Vec::with_capacity(alloc, properties.len())?;
    for property in properties {
        copies.push(copy_property(alloc, property)?)?;
    }
    Ok(List::from_vec(copies))
}

/// A copy of braces. `Memory` where there was none left.
pub(crate) fn copy_braces(alloc: Global, braces: &Braces) -> Result<Braces, Memory>
    ensures { IfOk result (λ copy. copy ≡ braces.now) }
{
    Ok(Braces {
        properties: copy_properties(alloc, braces.properties.as_slice())?,
        more: braces.more,
    })
}
