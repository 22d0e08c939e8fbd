//! The texts of the guard's keys, and of their parts.

ghost use Rattle.std.specs.Prelude.{◌≡◌, ◌++◌, ◌==◌, map, flat_map, IfOk, OnOk};
ghost use Rattle.std.specs.List.{position};
ghost use Rattle.pgs_syntax.specs.declared.script.Script.{Script};
ghost use Rattle.pgs_resolve_declared.specs.Declarations.{keys_of};
ghost use Rattle.pgs_resolve_declared.specs.Tables.{AreOf};
ghost use Rattle.pgs_schema_places.specs.KeyParts.{parts_at, guard_part_texts};
ghost use Rattle.pgs_schema_places.specs.KeyTexts.{text_at, place_of, guard_keys, guard_key_texts};

use crate::parts::{PartTexts, key_part_texts};
use crate::texts::key_texts;
use pgs_base::{Bytes, Copyable, List, Memory};
use pgs_lexer::Tokens;
use pgs_resolve_declared::{Declarations, guard_graphs};
use pgs_syntax::{GraphType, RawKey};
use std::alloc::Global;

// Puts the places of keys last.
fn push_places(keys: &[RawKey], places: &mut Vec<u32>) -> Result<(), Memory>
    ensures { OnOk result (places.new.items ≡ places.old.items ++ map place_of keys.now) }
{
    for key in keys {
        places.push(key.place)?;
    }
    Ok(())
}

// The places of the keys of graph types, in order.
fn places_of(alloc: Global, graphs: &[&GraphType]) -> Result<Vec<u32>, Memory>
    ensures { IfOk result (λ places. places.items ≡ map place_of (flat_map (λ graph. graph.now.keys) graphs.now)) }
{
    let mut places = Vec::new(alloc);
    for graph in graphs {
        push_places(graph.keys.as_slice(), &mut places)?;
    }
    Ok(places)
}

fn position_of(places: &[u32], place: u32) -> Option<usize>
    ensures { result ≡ position (λ other. place == other) places.now }
{
    places.iter().position(|other| place == *other)
}

// The text of the key of a place.
fn text_at(alloc: Global, places: &[u32], texts: &[Bytes], place: u32) -> Result<Bytes, Memory>
    ensures { IfOk result (λ text. text ≡ text_at places.now texts.now place) }
{
    let Some(number) = position_of(places, place) else {
        return Ok(List::new(alloc));
    };
    match texts.get(number) {
        Some(text) => text.copy(alloc),
        None => Ok(List::new(alloc)),
    }
}

// The texts of the keys of these places.
fn texts_at(
    alloc: Global,
    places: &[u32],
    texts: &[Bytes],
    wanted: &[u32],
) -> Result<List<Bytes>, Memory>
    ensures { IfOk result (λ found. found ≡ map (text_at places.now texts.now) wanted.now) }
{
    let mut found = Vec::new(alloc);
    for place in wanted {
        found.push(text_at(alloc, places, texts, *place)?)?;
    }
    Ok(List::from_vec(found))
}

// The places of the keys of a script, in order.
fn script_places(alloc: Global, declarations: &Declarations<'_>) -> Result<Vec<u32>, Memory>
    ensures { (script : Script) → AreOf script declarations.now → IfOk result (λ places. places.items ≡ map place_of (keys_of script)) }
{
    places_of(alloc, &declarations.graphs)
}

// The places of the guard's keys, in the order in which they are numbered.
fn guard_places(alloc: Global, declarations: &Declarations<'_>) -> Result<Vec<u32>, Memory>
    ensures { (script : Script) → AreOf script declarations.now → IfOk result (λ places. places.items ≡ map place_of (guard_keys script)) }
{
    let graphs = guard_graphs(alloc, declarations)?;
    places_of(alloc, &graphs)
}

/// The texts of the guard's keys, in the order in which they are numbered.
pub fn guard_key_texts(
    alloc: Global,
    tokens: &Tokens<'_>,
    declarations: &Declarations<'_>,
) -> Result<List<Bytes>, Memory>
    ensures { (script : Script) → AreOf script declarations.now → IfOk result (λ texts. texts ≡ guard_key_texts tokens.now script) }
{
    let texts = key_texts(alloc, tokens)?;
    let places = script_places(alloc, declarations)?;
    let wanted = guard_places(alloc, declarations)?;
    texts_at(alloc, &places, texts.as_slice(), &wanted)
}

// The texts of the parts of the key of a place.
fn parts_at(
    alloc: Global,
    places: &[u32],
    parts: &[PartTexts],
    place: u32,
) -> Result<PartTexts, Memory>
    ensures { IfOk result (λ found. found ≡ parts_at places.now parts.now place) }
{
    let found = match position_of(places, place) {
        Some(number) => parts.get(number),
        None => None,
    };
    match found {
        Some(texts) => texts.copy(alloc),
        None => Ok(PartTexts {
            places: List::new(alloc),
            exprs: List::new(alloc),
        }),
    }
}

// The texts of the parts of the keys of these places.
fn all_parts_at(
    alloc: Global,
    places: &[u32],
    parts: &[PartTexts],
    wanted: &[u32],
) -> Result<List<PartTexts>, Memory>
    ensures { IfOk result (λ found. found ≡ map (parts_at places.now parts.now) wanted.now) }
{
    let mut found = Vec::new(alloc);
    for place in wanted {
        found.push(parts_at(alloc, places, parts, *place)?)?;
    }
    Ok(List::from_vec(found))
}

/// The texts of the parts of the guard's keys, in the order in which they are numbered: of the places of the written descriptor, each
/// from its bracket to the next closing one, and of the expressions.
pub fn guard_part_texts(
    alloc: Global,
    tokens: &Tokens<'_>,
    declarations: &Declarations<'_>,
) -> Result<List<PartTexts>, Memory>
    ensures { (script : Script) → AreOf script declarations.now → IfOk result (λ texts. texts ≡ guard_part_texts tokens.now script) }
{
    let parts = key_part_texts(alloc, tokens)?;
    let places = script_places(alloc, declarations)?;
    let wanted = guard_places(alloc, declarations)?;
    all_parts_at(alloc, &places, &parts, &wanted)
}
