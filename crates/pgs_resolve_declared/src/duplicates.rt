ghost use Rattle.std.specs.Prelude.{◌≡◌, List, filter_map, ◌∷◌, ◌++◌, [], map, flat_map, slice_get, if◌then◌else◌, IfOk, OnOk};
ghost use Rattle.std.specs.Option.{option_to_list};
ghost use Rattle.pgs_syntax.specs.declared.specification.Property.{Property};
ghost use Rattle.pgs_base.specs.Pair.{has_name};
ghost use Rattle.pgs_resolve_declared.specs.Declarations.{keys_in};
ghost use Rattle.pgs_resolve_declared.specs.declared.duplicates.Mark.{Mark};
ghost use Rattle.pgs_resolve_declared.specs.declared.duplicates.Mark.TheVariants as marked;
ghost use Rattle.pgs_resolve_declared.specs.Refused.{marks_in, marks_of_member, marks_of, repeated_after, marked as name_of_mark, element_in, graph_in, is_second, seconds_after, duplicates};

use crate::names::Names;
use crate::pieces::pieces_of;
use pgs_base::{Copyable, Memory, Name};
use pgs_syntax::{EdgeType, Member, NodeType, Property, Script, Spec, Statement};
use std::alloc::Global;

/// A place of the tree that can be a second one of its name.
#[derive(Drop)]
pub enum Mark {
    /// An element type.
    Element(Name),
    /// A graph type.
    Graph(Name),
    /// A property that its braces have before.
    Again(Name),
}

// Puts a mark last where the key is among those before.
fn mark_again(alloc: Global, keys: &Names, key: &Name, marks: &mut Vec<Mark>) -> Result<(), Memory>
    ensures { OnOk result (marks.new.items ≡ marks.old.items ++ (if has_name key.now keys.now then marked.Again key.now ∷ [] else [])) }
{
    if keys.contains(key) {
        let key = key.copy(alloc)?;
        marks.push(Mark::Again(key))?;
    }
    Ok(())
}

// Puts a mark last for each property that the braces have before.
fn mark_repeated(
    alloc: Global,
    properties: &[Property],
    marks: &mut Vec<Mark>,
) -> Result<(), Memory>
    ensures { OnOk result (marks.new.items ≡ marks.old.items
        ++ map marked.Again (repeated_after [] (map (λ (property : Property). property.key) properties.now))) }
{
    let mut keys = Names::new(alloc);
    for property in properties {
        mark_again(alloc, &keys, &property.key, marks)?;
        keys.push(alloc, property.key.copy(alloc)?)?;
    }
    Ok(())
}

fn mark_piece(alloc: Global, piece: &Spec<Name>, marks: &mut Vec<Mark>) -> Result<(), Memory>
    ensures { OnOk result (marks.new.items ≡ marks.old.items ++ map marked.Again (flat_map (repeated_after []) (keys_in piece.now))) }
{
    match piece {
        Spec::Braces(braces) => mark_repeated(alloc, braces.properties.as_slice(), marks),
        _ => Ok(()),
    }
}

fn mark_pieces(alloc: Global, pieces: &[&Spec<Name>], marks: &mut Vec<Mark>) -> Result<(), Memory>
    ensures { OnOk result (marks.new.items ≡ marks.old.items
        ++ map marked.Again (flat_map (repeated_after []) (flat_map keys_in (map (λ piece. piece.now) pieces.now)))) }
{
    for piece in pieces {
        mark_piece(alloc, piece, marks)?;
    }
    Ok(())
}

fn mark_spec(alloc: Global, spec: &Spec<Name>, marks: &mut Vec<Mark>) -> Result<(), Memory>
    ensures { OnOk result (marks.new.items ≡ marks.old.items ++ marks_in spec.now) }
{
    let pieces = pieces_of(alloc, spec)?;
    mark_pieces(alloc, &pieces, marks)
}

fn mark_node(alloc: Global, node: &NodeType<Name>, marks: &mut Vec<Mark>) -> Result<(), Memory>
    ensures { OnOk result (marks.new.items ≡ marks.old.items ++ marked.Element node.now.name ∷ marks_in node.now.spec) }
{
    marks.push(Mark::Element(node.name.copy(alloc)?))?;
    mark_spec(alloc, &node.spec, marks)
}

fn mark_edge(alloc: Global, edge: &EdgeType<Name>, marks: &mut Vec<Mark>) -> Result<(), Memory>
    ensures { OnOk result (marks.new.items ≡ marks.old.items
        ++ (marked.Element edge.now.name ∷ marks_in edge.now.source ++ marks_in edge.now.middle ++ marks_in edge.now.target)) }
{
    marks.push(Mark::Element(edge.name.copy(alloc)?))?;
    mark_spec(alloc, &edge.source, marks)?;
    mark_spec(alloc, &edge.middle, marks)?;
    mark_spec(alloc, &edge.target, marks)
}

fn mark_member(alloc: Global, member: &Member, marks: &mut Vec<Mark>) -> Result<(), Memory>
    ensures { OnOk result (marks.new.items ≡ marks.old.items ++ marks_of_member member.now) }
{
    match member {
        Member::Named(_) => Ok(()),
        Member::Node(node) => mark_node(alloc, node.get(), marks),
        Member::Edge(edge) => mark_edge(alloc, edge.get(), marks),
    }
}

fn mark_members(alloc: Global, members: &[Member], marks: &mut Vec<Mark>) -> Result<(), Memory>
    ensures { OnOk result (marks.new.items ≡ marks.old.items ++ flat_map marks_of_member members.now) }
{
    for member in members {
        mark_member(alloc, member, marks)?;
    }
    Ok(())
}

fn mark_statement(alloc: Global, statement: &Statement, marks: &mut Vec<Mark>) -> Result<(), Memory>
    ensures { OnOk result (marks.new.items ≡ marks.old.items ++ marks_of statement.now) }
{
    match statement {
        Statement::Node(node) => mark_node(alloc, node.get(), marks),
        Statement::Edge(edge) => mark_edge(alloc, edge.get(), marks),
        Statement::Graph(graph) => {
            let graph = graph.get();
            marks.push(Mark::Graph(graph.name.copy(alloc)?))?;
            mark_members(alloc, graph.members.as_slice(), marks)
        }
    }
}

fn all_marks(alloc: Global, script: &Script) -> Result<Vec<Mark>, Memory>
    ensures { IfOk result (λ marks. marks.items ≡ flat_map marks_of script.now.statements) }
{
    let mut marks = Vec::new(alloc);
    for statement in script.statements.as_slice() {
        mark_statement(alloc, statement, &mut marks)?;
    }
    Ok(marks)
}

fn name_of(mark: &Mark) -> &Name
    ensures { result.now ≡ name_of_mark mark.now }
{
    match mark {
        Mark::Element(name) | Mark::Graph(name) | Mark::Again(name) => name,
    }
}

// Whether a mark is a second one after those with these element types and graph types.
fn is_second(elements: &Names, graphs: &Names, mark: &Mark) -> bool
    ensures { (earlier : List Mark) → elements.now ≡ filter_map element_in earlier → graphs.now ≡ filter_map graph_in earlier →
        result ≡ is_second earlier mark.now }
{
    match mark {
        Mark::Element(name) => elements.contains(name),
        Mark::Graph(name) => graphs.contains(name),
        Mark::Again(_) => true,
    }
}

fn remember(
    alloc: Global,
    elements: &mut Names,
    graphs: &mut Names,
    mark: &Mark,
) -> Result<(), Memory>
    ensures elements { OnOk result (elements.new ≡ elements.old ++ option_to_list (element_in mark.now)) }
    ensures graphs { OnOk result (graphs.new ≡ graphs.old ++ option_to_list (graph_in mark.now)) }
{
    match mark {
        Mark::Element(name) => elements.push(alloc, name.copy(alloc)?),
        Mark::Graph(name) => graphs.push(alloc, name.copy(alloc)?),
        Mark::Again(_) => Ok(()),
    }
}

// The first mark that is a second one of its name.
fn first_second(alloc: Global, marks: &[Mark]) -> Result<Option<Name>, Memory>
    ensures { IfOk result (λ name. name ≡ slice_get (seconds_after [] marks.now) 0) }
{
    let mut elements = Names::new(alloc);
    let mut graphs = Names::new(alloc);
    for mark in marks {
        if is_second(&elements, &graphs, mark) {
            return Ok(Some(name_of(mark).copy(alloc)?));
        }
        remember(alloc, &mut elements, &mut graphs, mark)?;
    }
    Ok(None)
}

/// The first name in the order of the tree that is declared twice, by its second place.
pub fn first_duplicate(alloc: Global, script: &Script) -> Result<Option<Name>, Memory>
    ensures { IfOk result (λ name. name ≡ slice_get (duplicates script.now) 0) }
{
    let marks = all_marks(alloc, script)?;
    first_second(alloc, &marks)
}
