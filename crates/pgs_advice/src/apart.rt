//! The subtypes that a key doesn't speak of, though it names their base.

ghost use Rattle.std.specs.Prelude.{◌≡◌, true, IfOk};
ghost use Rattle.pgs_syntax.specs.Valid.{is_valid_key_of};
ghost use Rattle.pgs_advice.specs.Apart.{AreThoseApart, AreApartOf};
ghost use Rattle.pgs_advice.specs.Subtypes.{shown_types, key_subtypes, AreNamings};

use crate::subtypes::{Naming, Subtype, key_subtypes, namings};
use pgs_base::{List, Memory};
use pgs_conform::Compiled;
use pgs_standing::are_apart;
use pgs_syntax::Key;
use std::alloc::Global;

// Of the subtypes of what a key names those that are apart from it.
fn key_apart(
    alloc: Global,
    schema: &Compiled,
    namings: &[Naming],
    key: &Key,
) -> Result<List<Subtype>, Memory>
    requires valid { is_valid_key_of schema.now key.now ≡ true }
    requires namings { AreNamings schema.now (shown_types schema.now) namings.now }
    ensures { IfOk result (λ found. AreThoseApart schema.now (key_subtypes schema.now key.now) found) }
{
    let subtypes = key_subtypes(alloc, namings, key)?;
    let mut found = Vec::new(alloc);
    for subtype in &subtypes {
        if are_apart(alloc, schema, subtype.base, subtype.own)? {
            found.push(*subtype)?;
        }
    }
    Ok(List::from_vec(found))
}

/// Of each key of the guard, in order, the subtypes that it doesn't speak of though it names their base: the types of the guard that
/// aren't ABSTRACT, that name a type that one of the key's places names and that is of their kind, itself or through others, and that are
/// apart from it: something fits them, and nothing that does fits the base. By the first places of the bases, and then in the guard's order;
/// each pair once. The rule is `AreApartOf` of `specs/Apart.antt` (docs/DEFINITIONS.md, "What a schema says in silence"). `Memory` where
/// there was none left.
pub fn keys_apart(alloc: Global, schema: &Compiled) -> Result<Vec<List<Subtype>>, Memory>
    ensures { IfOk result (λ all. AreApartOf schema.now schema.now.guard.keys all.items) }
{
    let resolved = schema.resolved();
    let namings = namings(alloc, resolved)?;
    let mut all = Vec::new(alloc);
    let mut left = resolved.guard.keys.as_slice();
    while let [key, later @ ..] = left {
        all.push(key_apart(alloc, schema, &namings, key)?)?;
        left = later;
    }
    Ok(all)
}
