//! The parts of specifications, and what stands in them.

ghost use Rattle.std.specs.Prelude.{◌≡◌, ◌++◌, map, option_map, filter_map, flat_map, IfOk, OnOk};
ghost use Rattle.std.specs.List.{list_any};
ghost use Rattle.std.specs.Option.{option_to_list};
ghost use Rattle.pgs_advice.specs.Parts.{parts_of, label_in, keys_in, has_any_label, has_any_key};

use pgs_base::{Copyable, Memory, Name};
use pgs_resolve_declared::Names;
use pgs_syntax::{Leaf, Property, Spec};
use std::alloc::Global;

/// Puts the parts of a specification that have no parts themselves last, in order.
#[tactic(auto, using(crate::proofs::Inner::of_and, crate::proofs::Inner::of_or, crate::proofs::Inner::of_opt))]
pub(crate) fn push_parts<'a>(
    alloc: Global,
    spec: &'a Spec<Leaf>,
    parts: &mut Vec<&'a Spec<Leaf>>,
) -> Result<(), Memory>
    ensures { OnOk result (map (λ part. part.now) parts.new.items ≡ map (λ part. part.now) parts.old.items ++ parts_of spec.now) }
{
    match spec {
        Spec::And(inner) | Spec::Or(inner) => {
            for part in inner.as_slice() {
                push_parts(alloc, part, parts)?;
            }
        }
        Spec::Opt(part) => push_parts(alloc, part.get(), parts)?,
        Spec::Empty | Spec::Word(_) | Spec::OpenLabels | Spec::Braces(_) => parts.push(spec)?,
    }
    Ok(())
}

fn label_in(part: &Spec<Leaf>) -> Option<&Name>
    ensures { option_map (λ label. label.now) result ≡ label_in part.now }
{
    match part {
        Spec::Word(Leaf::Label(label)) => Some(label),
        _ => None,
    }
}

fn push_label(alloc: Global, part: &Spec<Leaf>, labels: &mut Names) -> Result<(), Memory>
    ensures { OnOk result (labels.new ≡ labels.old ++ option_to_list (label_in part.now)) }
{
    if let Some(label) = label_in(part) {
        labels.push(alloc, label.copy(alloc)?)?;
    }
    Ok(())
}

/// The labels of parts, in order.
pub(crate) fn labels_of(alloc: Global, parts: &[&Spec<Leaf>]) -> Result<Names, Memory>
    ensures { IfOk result (λ labels. labels ≡ filter_map label_in (map (λ part. part.now) parts.now)) }
{
    let mut labels = Names::new(alloc);
    for part in parts {
        push_label(alloc, part, &mut labels)?;
    }
    Ok(labels)
}

fn push_properties(alloc: Global, properties: &[Property], keys: &mut Names) -> Result<(), Memory>
    ensures { OnOk result (keys.new ≡ keys.old ++ map (λ property. property.key) properties.now) }
{
    for property in properties {
        keys.push(alloc, property.key.copy(alloc)?)?;
    }
    Ok(())
}

fn push_keys(alloc: Global, part: &Spec<Leaf>, keys: &mut Names) -> Result<(), Memory>
    ensures { OnOk result (keys.new ≡ keys.old ++ keys_in part.now) }
{
    match part {
        Spec::Braces(braces) => push_properties(alloc, braces.properties.as_slice(), keys),
        _ => Ok(()),
    }
}

/// The keys of the braces among parts, in order.
pub(crate) fn keys_of(alloc: Global, parts: &[&Spec<Leaf>]) -> Result<Names, Memory>
    ensures { IfOk result (λ keys. keys ≡ flat_map keys_in (map (λ part. part.now) parts.now)) }
{
    let mut keys = Names::new(alloc);
    for part in parts {
        push_keys(alloc, part, &mut keys)?;
    }
    Ok(keys)
}

fn has_any_label(part: &Spec<Leaf>) -> bool
    ensures { result ≡ has_any_label part.now }
{
    matches!(part, Spec::OpenLabels)
}

/// Whether OPEN stands beside labels among parts.
pub(crate) fn some_any_label(parts: &[&Spec<Leaf>]) -> bool
    ensures { result ≡ list_any (λ part. has_any_label part.now) parts.now }
{
    parts.iter().any(|part| has_any_label(part))
}

fn has_any_key(part: &Spec<Leaf>) -> bool
    ensures { result ≡ has_any_key part.now }
{
    match part {
        Spec::Braces(braces) => braces.more,
        _ => false,
    }
}

/// Whether OPEN stands in braces among parts.
pub(crate) fn some_any_key(parts: &[&Spec<Leaf>]) -> bool
    ensures { result ≡ list_any (λ part. has_any_key part.now) parts.now }
{
    parts.iter().any(|part| has_any_key(part))
}
