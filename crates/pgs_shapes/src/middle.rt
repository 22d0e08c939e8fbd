ghost use Rattle.std.specs.Prelude.{◌≡◌, ℕ, ◌+◌, ◌≤◌, Bool, ◌||◌, true, List, length, IfOk};
ghost use Rattle.std.specs.List.{list_all};
ghost use Rattle.pgs_syntax.specs.declared.specification.Spec.{Word};
ghost use Rattle.pgs_syntax.specs.Fitting.{suits};
ghost use Rattle.pgs_syntax.specs.Join.{of_triples, is_empty_pair, PairTriple};
ghost use Rattle.pgs_syntax.specs.Valid.{is_valid_spec};
ghost use Rattle.pgs_syntax.specs.Width.{Width, width_of};
ghost use Rattle.pgs_conform.specs.Counts.{AreWithin};
ghost use Rattle.pgs_conform.specs.Shapes.{in_some_triple, DenotesTriples};
ghost use Rattle.pgs_conform.specs.Standing.{EachDenotesTriples};
ghost use Rattle.pgs_shapes.specs.Counts.{PartsWithin};
ghost use Rattle.pgs_shapes.specs.Parts.{PartsDenoteTriples};

use crate::braces::braces_shape;
use crate::leaf::{at, label_shape, one, open_shape};
use crate::specification::concat;
use pgs_base::{List, Memory};
use pgs_conform::Triple;
use pgs_product::{copy_triples, empty_shape, middle_triple, triple_product_of_all};
use pgs_syntax::{Leaf, Spec};
use std::alloc::Global;

// Triples of shapes, and that of the empty pairs.
fn with_empty(alloc: Global, triples: List<Triple>) -> Result<List<Triple>, Memory>
    ensures denote { IfOk result (λ whole. (t : PairTriple) → in_some_triple whole t ≡ (in_some_triple triples t || of_triples.asks is_empty_pair t)) }
    ensures count { IfOk result (λ whole. length whole ≡ length triples + 1) }
{
    let mut items = triples.into_vec();
    items.push(middle_triple(alloc, empty_shape(alloc)))?;
    Ok(List::from_vec(items))
}

fn leaf_triples(alloc: Global, named: &[List<Triple>], leaf: &Leaf) -> Result<List<Triple>, Memory>
    ensures denote { IfOk result (λ triples. is_valid_spec (length named.now) (Word leaf.now) ≡ true → (test : ℕ → PairTriple → Bool) →
        EachDenotesTriples named.now test → DenotesTriples triples (suits of_triples test (Word leaf.now))) }
    ensures within { IfOk result (λ triples. (widths : List Width) → AreWithin widths named.now →
        length triples ≤ (width_of widths (Word leaf.now)).count) }
{
    match leaf {
        Leaf::Label(label) => {
            let shape = label_shape(alloc, label)?;
            one(alloc, middle_triple(alloc, shape))
        }
        Leaf::Named(number) => match at(named, *number) {
            Some(list) => copy_triples(alloc, list.as_slice()),
            None => Ok(List::new(alloc)),
        },
    }
}

/// The triples of shapes of a middle of edges, where those of the edge types that it may name are given: they denote what it asks,
/// where the lists of these types do, and are no more than its width counts, where those are no more than theirs. A label, OPEN and
/// braces ask nothing but empty pairs at the ends.
#[cycle(triples)]
pub fn triples_of(
    alloc: Global,
    named: &[List<Triple>],
    spec: &Spec<Leaf>,
) -> Result<List<Triple>, Memory>
    ensures denote { IfOk result (λ triples. is_valid_spec (length named.now) spec.now ≡ true → (test : ℕ → PairTriple → Bool) →
        EachDenotesTriples named.now test → DenotesTriples triples (suits of_triples test spec.now)) }
    ensures within { IfOk result (λ triples. (widths : List Width) → AreWithin widths named.now →
        length triples ≤ (width_of widths spec.now).count) }
{
    match spec {
        Spec::Empty => one(alloc, middle_triple(alloc, empty_shape(alloc))),
        Spec::Word(leaf) => leaf_triples(alloc, named, leaf),
        Spec::OpenLabels => one(alloc, middle_triple(alloc, open_shape(alloc))),
        Spec::Braces(braces) => {
            let shape = braces_shape(alloc, braces)?;
            one(alloc, middle_triple(alloc, shape))
        }
        Spec::And(parts) => {
            let lists = triples_of_each(alloc, named, parts.as_slice())?;
            triple_product_of_all(alloc, &lists)
        }
        Spec::Or(parts) => {
            let lists = triples_of_each(alloc, named, parts.as_slice())?;
            concat(alloc, lists)
        }
        Spec::Opt(part) => {
            let triples = triples_of(alloc, named, part.get())?;
            with_empty(alloc, triples)
        }
    }
}

#[cycle(triples)]
fn triples_of_each(
    alloc: Global,
    named: &[List<Triple>],
    parts: &[Spec<Leaf>],
) -> Result<Vec<List<Triple>>, Memory>
    ensures denote { IfOk result (λ lists. list_all (is_valid_spec (length named.now)) parts.now ≡ true → (test : ℕ → PairTriple → Bool) →
        EachDenotesTriples named.now test → PartsDenoteTriples test parts.now lists.items) }
    ensures within { IfOk result (λ lists. (widths : List Width) → AreWithin widths named.now →
        PartsWithin widths parts.now lists.items) }
{
    let mut lists = Vec::with_capacity(alloc, parts.len())?;
    for part in parts {
        let triples = triples_of(alloc, named, part)?;
        lists.push(triples)?;
    }
    Ok(lists)
}
