ghost use Rattle.std.specs.Prelude.{◌≡◌, map, IfOk};
ghost use Rattle.std.specs.List.{list_all};
ghost use Rattle.pgs_schema_changes.specs.AsksNoMore.{is_kept as key_kept, is_dropped as key_dropped};
ghost use Rattle.pgs_schema_changes.specs.Numbers.{TellsAlike};
ghost use Rattle.pgs_schema_changes.specs.Safe.{IsOfKeys, is_safe};

use crate::declarations::Declarations;
use crate::keys::{is_dropped, is_kept};
use pgs_base::{List, Memory};
use pgs_syntax::{Key, Resolved};
use std::alloc::Global;

/// What becomes of keys: of each key of the new guard whether it is kept, and of each key of the old guard whether it is dropped.
#[derive(Drop)]
pub struct KeyChanges {
    pub kept: List<bool>,
    pub dropped: List<bool>,
}

fn kept_keys(
    alloc: Global,
    old: &Resolved,
    new: &Resolved,
    types: &Declarations,
    keys: &[Key],
) -> Result<List<bool>, Memory>
    requires { TellsAlike old.now new.now types.now }
    ensures { IfOk result (λ kept. kept ≡ map (key_kept old.now new.now) keys.now) }
{
    let mut kept = Vec::with_capacity(alloc, keys.len())?;
    for key in keys {
        kept.push(is_kept(old, new, types, key))?;
    }
    Ok(List::from_vec(kept))
}

fn dropped_keys(
    alloc: Global,
    old: &Resolved,
    new: &Resolved,
    keys: &[Key],
) -> Result<List<bool>, Memory>
    ensures { IfOk result (λ dropped. dropped ≡ map (key_dropped old.now new.now) keys.now) }
{
    let mut dropped = Vec::with_capacity(alloc, keys.len())?;
    for own in keys {
        dropped.push(is_dropped(old, new, own))?;
    }
    Ok(List::from_vec(dropped))
}

/// What becomes of the keys of the old guard under the new one: a key is kept, or dropped, exactly as
/// `specs/AsksNoMore.antt` says. `Memory` where there was none left.
pub fn key_changes(alloc: Global, old: &Resolved, new: &Resolved) -> Result<KeyChanges, Memory>
    ensures { IfOk result (IsOfKeys old.now new.now) }
{
    let types = Declarations::of(alloc, old, new)?;
    let kept = kept_keys(alloc, old, new, &types, new.guard.keys.as_slice())?;
    let dropped = dropped_keys(alloc, old, new, old.guard.keys.as_slice())?;
    Ok(KeyChanges { kept, dropped })
}

fn are_kept(kept: &[bool]) -> bool
    ensures { result ≡ list_all (λ kept. kept) kept.now }
{
    kept.iter().all(|kept| *kept)
}

/// Whether a step is safe, by what becomes of the keys and by whether each type of the old guard is contained: each key is kept, and the
/// new guard is loose, or both are strict and each type is contained. Then the new schema asks no more than the old one, and each graph
/// that conforms to the old one conforms to it (`laws`).
#[tactic(auto, using(crate::proofs::Steps::all_kept))]
pub fn is_safe(old: &Resolved, new: &Resolved, changes: &KeyChanges, contained: bool) -> bool
    requires { IsOfKeys old.now new.now changes.now }
    ensures { result ≡ is_safe old.now new.now contained }
{
    if !are_kept(changes.kept.as_slice()) {
        return false;
    }
    !new.guard.strict || (old.guard.strict && contained)
}
