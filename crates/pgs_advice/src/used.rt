//! Which element types a guard uses.

ghost use Rattle.std.specs.Prelude.{◌≡◌, ◌++◌, ◌∷◌, [], ◌<◌, true, false, Some, length, map, filter_map, flat_map, slice_get, slice_set, slice_index_or, List as Items, IfOk, OnOk};
ghost use Rattle.std.specs.List.{fold};
ghost use Rattle.std.specs.Option.{option_to_list};
ghost use Rattle.pgs_syntax.specs.declared.resolved.Resolved.{Resolved as Schema};
ghost use Rattle.pgs_syntax.specs.declared.resolved.TypeNo.{TypeNo as Numbered};
ghost use Rattle.pgs_syntax.specs.declared.resolved.TypeNo.TheVariants.{Node, Edge};
ghost use Rattle.pgs_advice.specs.Used.{type_of, type_in, types_in, named_by_edge, type_at, named_by_key, first_types, edges_back, nodes_back, with_named, led_to, used_types, is_marked, AreMarks};

use crate::parts::push_parts;
use pgs_base::Memory;
use pgs_syntax::{Atom, EdgeType, Key, Leaf, NodeType, Resolved, Spec, TypeNo};
use std::alloc::Global;

// A mark for each type, by its number.
#[derive(Drop)]
pub(crate) struct Marks {
    pub(crate) nodes: Vec<bool>,
    pub(crate) edges: Vec<bool>,
}

fn type_of(is_edge: bool, number: u32) -> TypeNo
    ensures { result ≡ type_of is_edge number }
{
    if is_edge {
        TypeNo::Edge(number)
    } else {
        TypeNo::Node(number)
    }
}

// The type of a kind that a part names.
fn type_in(is_edge: bool, part: &Spec<Leaf>) -> Option<TypeNo>
    ensures { result ≡ type_in is_edge part.now }
{
    match part {
        Spec::Word(Leaf::Named(number)) => Some(type_of(is_edge, *number)),
        _ => None,
    }
}

// Puts a type last, where there is one.
fn push_type(number: Option<TypeNo>, types: &mut Vec<TypeNo>) -> Result<(), Memory>
    ensures { OnOk result (types.new.items ≡ types.old.items ++ option_to_list number) }
{
    if let Some(number) = number {
        types.push(number)?;
    }
    Ok(())
}

// Puts the types of a kind last that parts name.
fn push_named(is_edge: bool, parts: &[&Spec<Leaf>], types: &mut Vec<TypeNo>) -> Result<(), Memory>
    ensures { OnOk result (types.new.items ≡ types.old.items ++ filter_map (type_in is_edge) (map (λ part. part.now) parts.now)) }
{
    for part in parts {
        push_type(type_in(is_edge, part), types)?;
    }
    Ok(())
}

// Puts the types of a kind last that a specification names.
fn push_types(
    alloc: Global,
    is_edge: bool,
    spec: &Spec<Leaf>,
    types: &mut Vec<TypeNo>,
) -> Result<(), Memory>
    ensures { OnOk result (types.new.items ≡ types.old.items ++ types_in is_edge spec.now) }
{
    let mut parts = Vec::new(alloc);
    push_parts(alloc, spec, &mut parts)?;
    push_named(is_edge, &parts, types)
}

/// The types that a node type names.
pub(crate) fn named_by_node(alloc: Global, node: &NodeType<Leaf>) -> Result<Vec<TypeNo>, Memory>
    ensures { IfOk result (λ types. types.items ≡ types_in false node.now.spec) }
{
    let mut types = Vec::new(alloc);
    push_types(alloc, false, &node.spec, &mut types)?;
    Ok(types)
}

/// The types that an edge type names.
pub(crate) fn named_by_edge(alloc: Global, edge: &EdgeType<Leaf>) -> Result<Vec<TypeNo>, Memory>
    ensures { IfOk result (λ types. types.items ≡ named_by_edge edge.now) }
{
    let mut types = Vec::new(alloc);
    push_types(alloc, true, &edge.middle, &mut types)?;
    push_types(alloc, false, &edge.source, &mut types)?;
    push_types(alloc, false, &edge.target, &mut types)?;
    Ok(types)
}

fn type_at(atom: &Atom) -> Option<TypeNo>
    ensures { result ≡ type_at atom.now }
{
    match atom {
        Atom::FitsNode { number, .. } => Some(TypeNo::Node(*number)),
        Atom::FitsEdge { number, .. } => Some(TypeNo::Edge(*number)),
        _ => None,
    }
}

// Puts the types last that a pattern names.
fn push_atoms(atoms: &[Atom], types: &mut Vec<TypeNo>) -> Result<(), Memory>
    ensures { OnOk result (types.new.items ≡ types.old.items ++ filter_map type_at atoms.now) }
{
    for atom in atoms {
        push_type(type_at(atom), types)?;
    }
    Ok(())
}

/// Puts the types last that the patterns of a key name.
pub(crate) fn push_key(key: &Key, types: &mut Vec<TypeNo>) -> Result<(), Memory>
    ensures { OnOk result (types.new.items ≡ types.old.items ++ named_by_key key.now) }
{
    push_atoms(key.scope.atoms.as_slice(), types)?;
    push_atoms(key.descriptor.atoms.as_slice(), types)
}

// Puts the types last that keys name.
fn push_keys(keys: &[Key], types: &mut Vec<TypeNo>) -> Result<(), Memory>
    ensures { OnOk result (types.new.items ≡ types.old.items ++ flat_map named_by_key keys.now) }
{
    for key in keys {
        push_key(key, types)?;
    }
    Ok(())
}

fn set_flag(flags: &mut Vec<bool>, number: u32)
    ensures { flags.new.items ≡ slice_set flags.old.items number true }
{
    if (number as usize) < flags.len() {
        flags[number as usize] = true;
    }
}

fn flag_at(flags: &[bool], place: usize) -> bool
    ensures { result ≡ slice_index_or flags.now place false }
{
    match flags.get(place) {
        Some(flag) => *flag,
        None => false,
    }
}

impl Marks {
    // No marks yet.
    fn none(alloc: Global, resolved: &Resolved) -> Result<Marks, Memory>
        ensures { IfOk result (AreMarks resolved.now []) }
    {
        Ok(Marks {
            nodes: vec![in alloc; false; resolved.nodes.len()]?,
            edges: vec![in alloc; false; resolved.edges.len()]?,
        })
    }

    // Marks a type.
    fn mark(&mut self, number: TypeNo)
        ensures { (resolved : Schema) (used : Items Numbered) → AreMarks resolved used self.old → AreMarks resolved (used ++ number ∷ []) self.new }
    {
        match number {
            TypeNo::Node(place) => set_flag(&mut self.nodes, place),
            TypeNo::Edge(place) => set_flag(&mut self.edges, place),
        }
    }

    // Marks types.
    fn mark_all(&mut self, types: &[TypeNo])
        ensures { (resolved : Schema) (used : Items Numbered) → AreMarks resolved used self.old → AreMarks resolved (used ++ types.now) self.new }
    {
        for number in types {
            self.mark(*number);
        }
    }

    // Marks the types that a node type names, where it is marked itself.
    fn mark_node(
        &mut self,
        alloc: Global,
        place: usize,
        node: &NodeType<Leaf>,
    ) -> Result<(), Memory>
        ensures { (resolved : Schema) (used : Items Numbered) → slice_get resolved.nodes place ≡ Some node.now → AreMarks resolved used self.old →
            OnOk result (AreMarks resolved (with_named resolved used (Node place)) self.new) }
    {
        if flag_at(&self.nodes, place) {
            let types = named_by_node(alloc, node)?;
            self.mark_all(&types);
        }
        Ok(())
    }

    // Marks the types that an edge type names, where it is marked itself.
    fn mark_edge(
        &mut self,
        alloc: Global,
        place: usize,
        edge: &EdgeType<Leaf>,
    ) -> Result<(), Memory>
        ensures { (resolved : Schema) (used : Items Numbered) → slice_get resolved.edges place ≡ Some edge.now → AreMarks resolved used self.old →
            OnOk result (AreMarks resolved (with_named resolved used (Edge place)) self.new) }
    {
        if flag_at(&self.edges, place) {
            let types = named_by_edge(alloc, edge)?;
            self.mark_all(&types);
        }
        Ok(())
    }

    // Marks what marked node types name, from the last on.
    fn mark_nodes(&mut self, alloc: Global, resolved: &Resolved) -> Result<(), Memory>
        ensures { (used : Items Numbered) → AreMarks resolved.now used self.old →
            OnOk result (AreMarks resolved.now (fold (with_named resolved.now) used (nodes_back resolved.now)) self.new) }
    {
        let nodes = resolved.nodes.as_slice();
        for place in (0..nodes.len()).rev() {
            self.mark_node(alloc, place, &nodes[place])?;
        }
        Ok(())
    }

    // Marks what marked edge types name, from the last on.
    fn mark_edges(&mut self, alloc: Global, resolved: &Resolved) -> Result<(), Memory>
        ensures { (used : Items Numbered) → AreMarks resolved.now used self.old →
            OnOk result (AreMarks resolved.now (fold (with_named resolved.now) used (edges_back resolved.now)) self.new) }
    {
        let edges = resolved.edges.as_slice();
        for place in (0..edges.len()).rev() {
            self.mark_edge(alloc, place, &edges[place])?;
        }
        Ok(())
    }

    // Marks what marked types lead to.
    fn mark_named(&mut self, alloc: Global, resolved: &Resolved) -> Result<(), Memory>
        ensures { (used : Items Numbered) → AreMarks resolved.now used self.old →
            OnOk result (AreMarks resolved.now (led_to resolved.now used) self.new) }
    {
        self.mark_edges(alloc, resolved)?;
        self.mark_nodes(alloc, resolved)
    }

    /// A mark for each type to which types lead.
    pub(crate) fn from(
        alloc: Global,
        resolved: &Resolved,
        types: &[TypeNo],
    ) -> Result<Marks, Memory>
        ensures { IfOk result (AreMarks resolved.now (led_to resolved.now types.now)) }
    {
        let mut marks = Marks::none(alloc, resolved)?;
        marks.mark_all(types);
        marks.mark_named(alloc, resolved)?;
        Ok(marks)
    }

    /// A mark for each type that the guard uses.
    pub(crate) fn of(alloc: Global, resolved: &Resolved) -> Result<Marks, Memory>
        ensures { IfOk result (AreMarks resolved.now (used_types resolved.now)) }
    {
        let mut types = Vec::new(alloc);
        push_keys(resolved.guard.keys.as_slice(), &mut types)?;
        let mut marks = Marks::none(alloc, resolved)?;
        marks.mark_all(resolved.guard.types.as_slice());
        marks.mark_all(&types);
        marks.mark_named(alloc, resolved)?;
        Ok(marks)
    }

    /// Whether the node type of a number is marked, and the edge type.
    pub(crate) fn has_node(&self, place: usize) -> bool
        ensures { result ≡ slice_index_or self.now.nodes.items place false }
    {
        flag_at(&self.nodes, place)
    }

    pub(crate) fn has_edge(&self, place: usize) -> bool
        ensures { result ≡ slice_index_or self.now.edges.items place false }
    {
        flag_at(&self.edges, place)
    }

    /// Whether a type is marked.
    pub(crate) fn has(&self, number: TypeNo) -> bool
        ensures { result ≡ is_marked self.now number }
    {
        match number {
            TypeNo::Node(place) => self.has_node(place as usize),
            TypeNo::Edge(place) => self.has_edge(place as usize),
        }
    }
}
