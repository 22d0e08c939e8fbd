//! A further name, for what is outside: it is none of the names to avoid.

ghost use Rattle.std.specs.Prelude.{◌≡◌, ◌++◌, true, false, IfOk, OnOk};
ghost use Rattle.std.specs.List.{list_all};
ghost use Rattle.pgs_base.specs.Pair.{has_name};
ghost use Rattle.pgs_contain.specs.Known.{lacks_label, lacks_label_three, labels_in, labels_in_triples};

use crate::strange::strange;
use pgs_base::{Copyable, Memory, Name};
use pgs_conform::{Shape, Triple};
use std::alloc::Global;

/// A name that is none of those to avoid, as a further label or key.
#[derive(Drop)]
pub(crate) struct Further<'a> {
    pub name: Name,
    pub avoid: &'a [Name],
    pub ghost new: { has_name name avoid.now ≡ false },
}

// Puts names last.
pub(crate) fn push_names(alloc: Global, names: &[Name], all: &mut Vec<Name>) -> Result<(), Memory>
    ensures { OnOk result (all.new.items ≡ all.old.items ++ names.now) }
{
    for name in names {
        let name = name.copy(alloc)?;
        all.push(name)?;
    }
    Ok(())
}

// Puts the labels that shapes name last.
fn push_labels(alloc: Global, shapes: &[Shape], all: &mut Vec<Name>) -> Result<(), Memory>
    ensures { OnOk result (all.new.items ≡ all.old.items ++ labels_in shapes.now) }
{
    for shape in shapes {
        push_names(alloc, shape.labels.as_slice(), all)?;
    }
    Ok(())
}

// Puts the labels that a triple of shapes names last.
fn push_labels_of(alloc: Global, triple: &Triple, all: &mut Vec<Name>) -> Result<(), Memory>
    ensures { OnOk result (all.new.items ≡ all.old.items ++ (triple.now.source.labels ++ (triple.now.middle.labels ++ triple.now.target.labels))) }
{
    push_names(alloc, triple.source.labels.as_slice(), all)?;
    push_names(alloc, triple.middle.labels.as_slice(), all)?;
    push_names(alloc, triple.target.labels.as_slice(), all)?;
    Ok(())
}

// Puts the labels that triples of shapes name last.
fn push_labels_of_triples(
    alloc: Global,
    triples: &[Triple],
    all: &mut Vec<Name>,
) -> Result<(), Memory>
    ensures { OnOk result (all.new.items ≡ all.old.items ++ labels_in_triples triples.now) }
{
    for triple in triples {
        push_labels_of(alloc, triple, all)?;
    }
    Ok(())
}

/// A name that is none of some and none of others.
pub(crate) fn strange_to_both(
    alloc: Global,
    first: &[Name],
    second: &[Name],
) -> Result<Name, Memory>
    ensures { IfOk result (λ name. (has_name name first.now ≡ false) × (has_name name second.now ≡ false)) }
{
    let mut all = Vec::with_capacity(alloc, first.len().saturating_add(second.len()))?;
    push_names(alloc, first, &mut all)?;
    push_names(alloc, second, &mut all)?;
    strange(alloc, all.as_slice())
}

/// A name that is none of those to avoid, and no label of shapes and of triples of shapes.
pub(crate) fn further_than<'a>(
    alloc: Global,
    shapes: &[Shape],
    triples: &[Triple],
    avoid: &'a [Name],
) -> Result<Further<'a>, Memory>
    ensures { IfOk result (λ further. (further.avoid.now ≡ avoid.now) × (list_all (lacks_label further.name) shapes.now ≡ true)
        × (list_all (lacks_label_three further.name) triples.now ≡ true)) }
{
    let mut labels = Vec::new(alloc);
    push_labels(alloc, shapes, &mut labels)?;
    push_labels_of_triples(alloc, triples, &mut labels)?;
    let name = strange_to_both(alloc, labels.as_slice(), avoid)?;
    Ok(Further { name, avoid })
}
