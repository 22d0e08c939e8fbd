//! The words that the types of a schema know.

ghost use Rattle.std.specs.Prelude.{◌≡◌, ◌++◌, map, flat_map, IfOk, OnOk};
ghost use Rattle.pgs_advice.specs.Parts.{parts_of};
ghost use Rattle.pgs_advice.specs.Words.{known_in, known_nodes, known_edges, node_specs, edge_specs, words_of, knows_label, knows_key, known_at};

use crate::parts::{keys_of, labels_of, push_parts, some_any_key, some_any_label};
use pgs_base::{Memory, Name};
use pgs_resolve_declared::Names;
use pgs_syntax::{EdgeType, Leaf, NodeType, Resolved, Spec};
use std::alloc::Global;

/// What the types of one kind know: whether there is one, their labels and keys, and whether OPEN stands among these.
#[derive(Drop)]
pub struct Known {
    pub(crate) declared: bool,
    pub(crate) labels: Names,
    pub(crate) keys: Names,
    pub(crate) any_label: bool,
    pub(crate) any_key: bool,
}

/// The words that the types of a schema know, of nodes and of edges.
#[derive(Drop)]
pub struct Words {
    pub(crate) nodes: Known,
    pub(crate) edges: Known,
}

// Puts the parts of the specifications of node types last.
fn push_nodes<'a>(
    alloc: Global,
    types: &'a [NodeType<Leaf>],
    parts: &mut Vec<&'a Spec<Leaf>>,
) -> Result<(), Memory>
    ensures { OnOk result (map (λ part. part.now) parts.new.items
        ≡ map (λ part. part.now) parts.old.items ++ flat_map (λ type. parts_of type.spec) types.now) }
{
    for node in types {
        push_parts(alloc, &node.spec, parts)?;
    }
    Ok(())
}

// Puts the parts of the ends of edge types last.
fn push_ends<'a>(
    alloc: Global,
    types: &'a [EdgeType<Leaf>],
    parts: &mut Vec<&'a Spec<Leaf>>,
) -> Result<(), Memory>
    ensures { OnOk result (map (λ part. part.now) parts.new.items
        ≡ map (λ part. part.now) parts.old.items ++ flat_map (λ type. parts_of type.source ++ parts_of type.target) types.now) }
{
    for edge in types {
        push_parts(alloc, &edge.source, parts)?;
        push_parts(alloc, &edge.target, parts)?;
    }
    Ok(())
}

// Puts the parts of the middles of edge types last.
fn push_middles<'a>(
    alloc: Global,
    types: &'a [EdgeType<Leaf>],
    parts: &mut Vec<&'a Spec<Leaf>>,
) -> Result<(), Memory>
    ensures { OnOk result (map (λ part. part.now) parts.new.items
        ≡ map (λ part. part.now) parts.old.items ++ flat_map (λ type. parts_of type.middle) types.now) }
{
    for edge in types {
        push_parts(alloc, &edge.middle, parts)?;
    }
    Ok(())
}

// The parts of all specifications of nodes.
fn node_parts<'a>(alloc: Global, resolved: &'a Resolved) -> Result<Vec<&'a Spec<Leaf>>, Memory>
    ensures { IfOk result (λ parts. map (λ part. part.now) parts.items ≡ flat_map parts_of (node_specs resolved.now)) }
{
    let mut parts = Vec::new(alloc);
    push_nodes(alloc, resolved.nodes.as_slice(), &mut parts)?;
    push_ends(alloc, resolved.edges.as_slice(), &mut parts)?;
    Ok(parts)
}

// The parts of all specifications of edges.
fn edge_parts<'a>(alloc: Global, resolved: &'a Resolved) -> Result<Vec<&'a Spec<Leaf>>, Memory>
    ensures { IfOk result (λ parts. map (λ part. part.now) parts.items ≡ flat_map parts_of (edge_specs resolved.now)) }
{
    let mut parts = Vec::new(alloc);
    push_middles(alloc, resolved.edges.as_slice(), &mut parts)?;
    Ok(parts)
}

impl Known {
    // What parts know.
    fn of(alloc: Global, declared: bool, parts: &[&Spec<Leaf>]) -> Result<Known, Memory>
        ensures { IfOk result (λ known. known ≡ known_in declared (map (λ part. part.now) parts.now)) }
    {
        let any_label = some_any_label(parts);
        let any_key = some_any_key(parts);
        let labels = labels_of(alloc, parts)?;
        let keys = keys_of(alloc, parts)?;
        Ok(Known {
            declared,
            labels,
            keys,
            any_label,
            any_key,
        })
    }

    // What the specifications of nodes know.
    fn of_nodes(alloc: Global, resolved: &Resolved) -> Result<Known, Memory>
        ensures { IfOk result (λ known. known ≡ known_nodes resolved.now) }
    {
        let parts = node_parts(alloc, resolved)?;
        Known::of(alloc, !resolved.nodes.is_empty(), &parts)
    }

    // What the specifications of edges know.
    fn of_edges(alloc: Global, resolved: &Resolved) -> Result<Known, Memory>
        ensures { IfOk result (λ known. known ≡ known_edges resolved.now) }
    {
        let parts = edge_parts(alloc, resolved)?;
        Known::of(alloc, !resolved.edges.is_empty(), &parts)
    }

    /// Whether a label is known: a type has it, or OPEN stands among the labels of one; or there is no type.
    pub(crate) fn knows_label(&self, label: &Name) -> bool
        ensures { result ≡ knows_label self.now label.now }
    {
        !self.declared || (self.any_label || self.labels.contains(label))
    }

    /// Whether a key is known: a type has it, or OPEN stands in the braces of one; or there is no type.
    pub(crate) fn knows_key(&self, key: &Name) -> bool
        ensures { result ≡ knows_key self.now key.now }
    {
        !self.declared || (self.any_key || self.keys.contains(key))
    }
}

impl Words {
    /// The words of a schema's types: of nodes those of node types and of the ends of edge types, of edges those of the middles.
    pub fn of(alloc: Global, resolved: &Resolved) -> Result<Words, Memory>
        ensures { IfOk result (λ words. words ≡ words_of resolved.now) }
    {
        let nodes = Known::of_nodes(alloc, resolved)?;
        let edges = Known::of_edges(alloc, resolved)?;
        Ok(Words { nodes, edges })
    }

    /// What is known at an edge place, or at a node place.
    pub(crate) fn at(&self, is_edge: bool) -> &Known
        ensures { result.now ≡ known_at self.now is_edge }
    {
        if is_edge { &self.edges } else { &self.nodes }
    }
}
