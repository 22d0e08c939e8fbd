ghost use Rattle.std.specs.Prelude.{◌≡◌, ℕ, ◌+◌, ◌*◌, ◌≤◌, Bool, ◌&&◌, ◌||◌, true, List, [], None, length, IfOk, OnOk};
ghost use Rattle.pgs_syntax.specs.declared.resolved.Resolved.{Resolved};
ghost use Rattle.pgs_syntax.specs.Fitting.{fits_node, fits_edge, fits_edge_type, has_ends_of};
ghost use Rattle.pgs_syntax.specs.Join.{is_empty_pair, PairTriple};
ghost use Rattle.pgs_syntax.specs.Valid.{is_valid, is_valid_spec};
ghost use Rattle.pgs_syntax.specs.Width.{Width, width_of, edge_width, edge_widths, first_too_wide};
ghost use Rattle.pgs_conform.specs.Counts.{AreWithin};
ghost use Rattle.pgs_conform.specs.Shapes.{in_shape, in_some, in_some_triple, DenotesTriples};
ghost use Rattle.pgs_conform.specs.Standing.{EachDenotes, EachDenotesTriples};

use crate::middle::triples_of;
use crate::specification::shapes_of;
use pgs_base::{List, Memory};
use pgs_conform::{Shape, Triple};
use pgs_product::{copy_shape, empty_shape, triple_products};
use pgs_syntax::{EdgeType, Leaf, Resolved};
use std::alloc::Global;

// Puts the triples with one source and each of some targets last.
fn push_ends(
    alloc: Global,
    source: &Shape,
    targets: &[Shape],
    ends: &mut Vec<Triple>,
) -> Result<(), Memory>
    ensures denote { OnOk result ((t : PairTriple) → in_some_triple ends.new.items t
        ≡ (in_some_triple ends.old.items t || (in_shape source.now t.source && is_empty_pair t.own && in_some targets.now t.target))) }
    ensures count { OnOk result (length ends.new.items ≡ length ends.old.items + length targets.now) }
{
    for target in targets {
        let source = copy_shape(alloc, source)?;
        let target = copy_shape(alloc, target)?;
        ends.push(Triple {
            source,
            middle: empty_shape(alloc),
            target,
        })?;
    }
    Ok(())
}

// The triples with one of some sources and one of some targets, and an empty pair of their own.
fn ends_of(alloc: Global, sources: &[Shape], targets: &[Shape]) -> Result<List<Triple>, Memory>
    ensures denote { IfOk result (λ ends. (t : PairTriple) → in_some_triple ends t
        ≡ (in_some sources.now t.source && is_empty_pair t.own && in_some targets.now t.target)) }
    ensures count { IfOk result (λ ends. length ends ≡ length sources.now * length targets.now) }
{
    let mut ends = Vec::new(alloc);
    for source in sources {
        push_ends(alloc, source, targets, &mut ends)?;
    }
    Ok(List::from_vec(ends))
}

// The triples with the source and the target of an edge type, where the shapes of the node types that it may name are given.
fn ends_of_edge(
    alloc: Global,
    nodes: &[List<Shape>],
    edge: &EdgeType<Leaf>,
) -> Result<List<Triple>, Memory>
    ensures denote { IfOk result (λ ends. is_valid_spec (length nodes.now) edge.now.source ≡ true →
        is_valid_spec (length nodes.now) edge.now.target ≡ true → (resolved : Resolved) → EachDenotes nodes.now (fits_node resolved) →
        DenotesTriples ends (has_ends_of resolved edge.now)) }
    ensures within { IfOk result (λ ends. (widths : List Width) → AreWithin widths nodes.now →
        length ends ≤ (width_of widths edge.now.source).count * (width_of widths edge.now.target).count) }
{
    let sources = shapes_of(alloc, nodes, &edge.source)?;
    let targets = shapes_of(alloc, nodes, &edge.target)?;
    ends_of(alloc, sources.as_slice(), targets.as_slice())
}

// The triples of shapes of an edge type, where those of the node types and of the edge types that it may name are given.
fn triples_of_edge(
    alloc: Global,
    nodes: &[List<Shape>],
    named: &[List<Triple>],
    edge: &EdgeType<Leaf>,
) -> Result<List<Triple>, Memory>
    ensures denote { IfOk result (λ triples. is_valid_spec (length nodes.now) edge.now.source ≡ true →
        is_valid_spec (length named.now) edge.now.middle ≡ true → is_valid_spec (length nodes.now) edge.now.target ≡ true →
        (resolved : Resolved) → EachDenotes nodes.now (fits_node resolved) → (test : ℕ → PairTriple → Bool) →
        EachDenotesTriples named.now test → DenotesTriples triples (fits_edge_type resolved test edge.now)) }
    ensures within { IfOk result (λ triples. (widths before : List Width) → AreWithin widths nodes.now → AreWithin before named.now →
        length triples ≤ (edge_width widths before edge.now).count) }
{
    let ends = ends_of_edge(alloc, nodes, edge)?;
    let middles = triples_of(alloc, named, &edge.middle)?;
    triple_products(alloc, ends.as_slice(), middles.as_slice())
}

/// The triples of shapes of each edge type, in order, where the shapes of the node types are given: each list denotes what its type
/// asks, where the schema is valid and the lists of the node types do, and is no longer than the type's width counts, where those
/// are no longer than theirs. It asks that no type is too wide, so that this is known before any triple is made.
pub fn edge_triples(
    alloc: Global,
    nodes: &[List<Shape>],
    resolved: &Resolved,
) -> Result<Vec<List<Triple>>, Memory>
    requires { first_too_wide resolved.now ≡ None }
    ensures count { IfOk result (λ lists. length lists.items ≡ length resolved.now.edges) }
    ensures denote { IfOk result (λ lists. is_valid resolved.now ≡ true → length nodes.now ≡ length resolved.now.nodes →
        EachDenotes nodes.now (fits_node resolved.now) → EachDenotesTriples lists.items (fits_edge resolved.now)) }
    ensures within { IfOk result (λ lists. (widths : List Width) → AreWithin widths nodes.now →
        AreWithin (edge_widths widths [] resolved.now.edges) lists.items) }
{
    let edges = resolved.edges.as_slice();
    let mut lists = Vec::with_capacity(alloc, edges.len())?;
    for edge in edges {
        let triples = triples_of_edge(alloc, nodes, &lists, edge)?;
        lists.push(triples)?;
    }
    Ok(lists)
}
