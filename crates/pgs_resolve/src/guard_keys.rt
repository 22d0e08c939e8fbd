ghost use Rattle.std.specs.Prelude.{◌≡◌, ◌++◌, [], ◌∷◌, true, map, flat_map, IfOk, OnOk};
ghost use Rattle.pgs_resolve.specs.Keyed.{names_x, EachNamesX};
ghost use Rattle.pgs_resolve_keys.specs.Patterns.{resolved_key};

use pgs_base::Memory;
use pgs_resolve_declared::Numbering;
use pgs_resolve_keys::{named_in, places_of, resolve_key};
use pgs_syntax::{GraphType, Key, RawKey};
use std::alloc::Global;

// Puts a key with its names resolved last.
fn push_key(
    alloc: Global,
    numbering: &Numbering,
    key: &RawKey,
    keys: &mut Vec<Key>,
) -> Result<(), Memory>
    requires { names_x key.now ≡ true }
    ensures { OnOk result (keys.new.items ≡ keys.old.items ++ resolved_key numbering.now key.now ∷ []) }
{
    let places = places_of(alloc, key.scope.as_slice())?;
    let names = named_in(alloc, &places)?;
    if let Some(x) = names.first() {
        keys.push(resolve_key(alloc, numbering, x, key)?)?;
    }
    Ok(())
}

fn push_keys(
    alloc: Global,
    numbering: &Numbering,
    written: &[RawKey],
    keys: &mut Vec<Key>,
) -> Result<(), Memory>
    requires { EachNamesX written.now }
    ensures { OnOk result (keys.new.items ≡ keys.old.items ++ map (resolved_key numbering.now) written.now) }
{
    for key in written {
        push_key(alloc, numbering, key, keys)?;
    }
    Ok(())
}

/// The keys of graph types with their names resolved, in order. The scope of each names a variable.
pub fn resolve_keys(
    alloc: Global,
    numbering: &Numbering,
    graphs: &[&GraphType],
) -> Result<Vec<Key>, Memory>
    requires { EachNamesX (flat_map (λ graph. graph.now.keys) graphs.now) }
    ensures { IfOk result (λ keys. keys.items ≡ map (resolved_key numbering.now) (flat_map (λ graph. graph.now.keys) graphs.now)) }
{
    let mut keys = Vec::new(alloc);
    for graph in graphs {
        push_keys(alloc, numbering, graph.keys.as_slice(), &mut keys)?;
    }
    Ok(keys)
}
