ghost use Rattle.std.specs.Prelude.{◌≡◌, map, IfOk};
ghost use Rattle.pgs_resolve_declared.specs.Order.{leaf_in, resolved_spec};

use pgs_base::{Boxed, Copyable, List, Memory, Name};
use pgs_resolve_declared::Names;
use pgs_syntax::{Braces, Leaf, Property, Spec};
use std::alloc::Global;

fn resolve_leaf(alloc: Global, names: &Names, name: &Name) -> Result<Leaf, Memory>
    ensures { IfOk result (λ leaf. leaf ≡ leaf_in names.now name.now) }
{
    match names.number(name) {
        Some(number) => Ok(Leaf::Named(number)),
        None => Ok(Leaf::Label(name.copy(alloc)?)),
    }
}

fn copy_braces(alloc: Global, braces: &Braces) -> Result<Braces, Memory>
    ensures { IfOk result (λ copy. copy ≡ braces.now) }
{
    let mut properties = Vec::new(alloc);
    for property in braces.properties.as_slice() {
        let key = property.key.copy(alloc)?;
        properties.push(Property {
            key,
            kind: property.kind,
            optional: property.optional,
        })?;
    }
    Ok(Braces {
        properties: List::from_vec(properties),
        more: braces.more,
    })
}

/// A specification with its names resolved: the types with these names, and labels.
#[cycle(specifications)]
pub fn resolve_spec(alloc: Global, names: &Names, spec: &Spec<Name>) -> Result<Spec<Leaf>, Memory>
    ensures { IfOk result (λ resolved. resolved ≡ resolved_spec names.now spec.now) }
{
    match spec {
        Spec::Empty => Ok(Spec::Empty),
        Spec::Word(name) => Ok(Spec::Word(resolve_leaf(alloc, names, name)?)),
        Spec::OpenLabels => Ok(Spec::OpenLabels),
        Spec::Braces(braces) => Ok(Spec::Braces(copy_braces(alloc, braces)?)),
        Spec::And(parts) => Ok(Spec::And(resolve_parts(alloc, names, parts.as_slice())?)),
        Spec::Or(parts) => Ok(Spec::Or(resolve_parts(alloc, names, parts.as_slice())?)),
        Spec::Opt(part) => {
            let part = resolve_spec(alloc, names, part.get())?;
            Ok(Spec::Opt(Boxed::new(alloc, part)?))
        }
    }
}

#[cycle(specifications)]
fn resolve_parts(
    alloc: Global,
    names: &Names,
    parts: &[Spec<Name>],
) -> Result<List<Spec<Leaf>>, Memory>
    ensures { IfOk result (λ resolved. resolved ≡ map (resolved_spec names.now) parts.now) }
{
    let mut resolved = Vec::new(alloc);
    for part in parts {
        resolved.push(resolve_spec(alloc, names, part)?)?;
    }
    Ok(List::from_vec(resolved))
}
