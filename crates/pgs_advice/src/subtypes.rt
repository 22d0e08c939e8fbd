//! The subtypes that the guard has of the types that a key names.

ghost use Rattle.std.specs.Prelude.{◌≡◌, ◌++◌, true, IfOk, OnOk};
ghost use Rattle.pgs_syntax.specs.declared.resolved.Resolved.{Resolved as Schema};
ghost use Rattle.pgs_syntax.specs.Valid.{is_type, is_valid_key_of};
ghost use Rattle.pgs_advice.specs.Used.{is_same_type, is_among, named_by};
ghost use Rattle.pgs_advice.specs.Subtypes.{is_one_kind, is_subtype, is_shown, shown_types, subtypes_of, with_type, bases_of, key_subtypes, IsNaming, AreNamings};

use crate::used::{Marks, named_by_edge, named_by_node, push_key};
use pgs_base::Memory;
use pgs_syntax::{Key, Resolved, TypeNo};
use std::alloc::Global;

/// A type of the guard that names a base type of its kind, itself or through others.
#[derive(Clone, Copy)]
pub struct Subtype {
    pub base: TypeNo,
    pub own: TypeNo,
}

/// A type, and marks of the types that it names, itself or through others.
#[derive(Drop)]
pub(crate) struct Naming {
    pub(crate) number: TypeNo,
    pub(crate) named: Marks,
}

// Whether a type is there and isn't ABSTRACT.
fn is_shown(resolved: &Resolved, number: TypeNo) -> bool
    ensures { result ≡ is_shown resolved.now number }
{
    match number {
        TypeNo::Node(place) => match resolved.nodes.at(place as usize) {
            Some(node) => !node.hidden,
            None => false,
        },
        TypeNo::Edge(place) => match resolved.edges.at(place as usize) {
            Some(edge) => !edge.hidden,
            None => false,
        },
    }
}

// The types that a type names itself.
fn named_by(alloc: Global, resolved: &Resolved, number: TypeNo) -> Result<Vec<TypeNo>, Memory>
    ensures { IfOk result (λ types. types.items ≡ named_by resolved.now number) }
{
    match number {
        TypeNo::Node(place) => match resolved.nodes.at(place as usize) {
            Some(node) => named_by_node(alloc, node),
            None => Ok(Vec::new(alloc)),
        },
        TypeNo::Edge(place) => match resolved.edges.at(place as usize) {
            Some(edge) => named_by_edge(alloc, edge),
            None => Ok(Vec::new(alloc)),
        },
    }
}

// A type with marks of those that it names.
fn naming_of(alloc: Global, resolved: &Resolved, number: TypeNo) -> Result<Naming, Memory>
    ensures same { IfOk result (λ naming. naming.number ≡ number) }
    ensures marks { IfOk result (IsNaming resolved.now) }
{
    let types = named_by(alloc, resolved, number)?;
    let named = Marks::from(alloc, resolved, &types)?;
    Ok(Naming { number, named })
}

/// The types of the guard that aren't ABSTRACT, in order, with marks of those that they name.
pub(crate) fn namings(alloc: Global, resolved: &Resolved) -> Result<Vec<Naming>, Memory>
    ensures { IfOk result (λ namings. AreNamings resolved.now (shown_types resolved.now) namings.items) }
{
    let mut all = Vec::new(alloc);
    for number in resolved.guard.types.as_slice() {
        if is_shown(resolved, *number) {
            all.push(naming_of(alloc, resolved, *number)?)?;
        }
    }
    Ok(all)
}

fn is_one_kind(base: TypeNo, own: TypeNo) -> bool
    ensures { result ≡ is_one_kind base own }
{
    match (base, own) {
        (TypeNo::Node(_), TypeNo::Node(_)) => true,
        (TypeNo::Edge(_), TypeNo::Edge(_)) => true,
        _ => false,
    }
}

fn is_same_type(number: TypeNo, other: TypeNo) -> bool
    ensures { result ≡ is_same_type number other }
{
    match (number, other) {
        (TypeNo::Node(a), TypeNo::Node(b)) => a == b,
        (TypeNo::Edge(a), TypeNo::Edge(b)) => a == b,
        _ => false,
    }
}

fn is_among(number: TypeNo, types: &[TypeNo]) -> bool
    ensures { result ≡ is_among number types.now }
{
    types.iter().any(|other| is_same_type(number, *other))
}

// The types that a key names, by their first places.
fn bases_of(alloc: Global, key: &Key) -> Result<Vec<TypeNo>, Memory>
    ensures { IfOk result (λ bases. bases.items ≡ bases_of key.now) }
{
    let mut types = Vec::new(alloc);
    push_key(key, &mut types)?;
    let mut bases = Vec::new(alloc);
    for number in &types {
        if !is_among(*number, &bases) {
            bases.push(*number)?;
        }
    }
    Ok(bases)
}

// Whether a type with marks is a subtype of a base.
fn is_subtype(naming: &Naming, base: TypeNo) -> bool
    ensures { (resolved : Schema) → IsNaming resolved naming.now → is_type resolved base ≡ true → result ≡ is_subtype resolved base naming.now.number }
{
    is_one_kind(base, naming.number) && naming.named.has(base)
}

// Puts a base last with each of its subtypes.
fn push_subtypes(
    namings: &[Naming],
    base: TypeNo,
    subtypes: &mut Vec<Subtype>,
) -> Result<(), Memory>
    ensures { (resolved : Schema) → AreNamings resolved (shown_types resolved) namings.now → is_type resolved base ≡ true →
        OnOk result (subtypes.new.items ≡ subtypes.old.items ++ subtypes_of resolved base) }
{
    for naming in namings {
        if is_subtype(naming, base) {
            let own = naming.number;
            subtypes.push(Subtype { base, own })?;
        }
    }
    Ok(())
}

/// The subtypes of the types that a key names, by the first places of these, in the guard's order.
pub(crate) fn key_subtypes(
    alloc: Global,
    namings: &[Naming],
    key: &Key,
) -> Result<Vec<Subtype>, Memory>
    ensures { (resolved : Schema) → AreNamings resolved (shown_types resolved) namings.now → is_valid_key_of resolved key.now ≡ true →
        IfOk result (λ subtypes. subtypes.items ≡ key_subtypes resolved key.now) }
{
    let bases = bases_of(alloc, key)?;
    let mut subtypes = Vec::new(alloc);
    for base in &bases {
        push_subtypes(namings, *base, &mut subtypes)?;
    }
    Ok(subtypes)
}
