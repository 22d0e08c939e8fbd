//! The element types of a script that its guard doesn't use.

ghost use Rattle.std.specs.Prelude.{◌≡◌, ◌++◌, ◌∷◌, [], filter, filter_map, if◌then◌else◌, IfOk, OnOk};
ghost use Rattle.std.specs.List.{enumerate_from};
ghost use Rattle.pgs_advice.specs.Used.{used_types, used_node, used_edge, used_names, is_unused, unused_names, unused_types, AreMarks};
ghost use Rattle.pgs_resolve_declared.specs.Declarations.{is_declared, declared_in};
ghost use Rattle.pgs_syntax.specs.declared.resolved.Resolved.{Resolved as Schema};

use crate::used::Marks;
use pgs_base::{Copyable, List, Memory, Name};
use pgs_resolve_declared::Names;
use pgs_syntax::{EdgeType, Leaf, Member, NodeType, Resolved, Script, Statement};
use std::alloc::Global;

// Puts a name last, where it is asked for.
fn push_if(alloc: Global, wanted: bool, name: &Name, names: &mut Names) -> Result<(), Memory>
    ensures { OnOk result (names.new ≡ names.old ++ (if wanted then name.now ∷ [] else [])) }
{
    if wanted {
        names.push(alloc, name.copy(alloc)?)?;
    }
    Ok(())
}

// Puts the names of node types last that are marked.
fn push_nodes(
    alloc: Global,
    marks: &Marks,
    nodes: &[NodeType<Leaf>],
    names: &mut Names,
) -> Result<(), Memory>
    ensures { (resolved : Schema) → nodes.now ≡ resolved.nodes → AreMarks resolved (used_types resolved) marks.now →
        OnOk result (names.new ≡ names.old ++ filter_map (used_node resolved) (enumerate_from 0 nodes.now)) }
{
    for (place, node) in nodes.iter().enumerate() {
        push_if(alloc, marks.has_node(place), &node.name, names)?;
    }
    Ok(())
}

// Puts the names of edge types last that are marked.
fn push_edges(
    alloc: Global,
    marks: &Marks,
    edges: &[EdgeType<Leaf>],
    names: &mut Names,
) -> Result<(), Memory>
    ensures { (resolved : Schema) → edges.now ≡ resolved.edges → AreMarks resolved (used_types resolved) marks.now →
        OnOk result (names.new ≡ names.old ++ filter_map (used_edge resolved) (enumerate_from 0 edges.now)) }
{
    for (place, edge) in edges.iter().enumerate() {
        push_if(alloc, marks.has_edge(place), &edge.name, names)?;
    }
    Ok(())
}

// The names of the types that a guard uses.
fn used_names(alloc: Global, resolved: &Resolved) -> Result<Names, Memory>
    ensures { IfOk result (λ names. names ≡ used_names resolved.now) }
{
    let marks = Marks::of(alloc, resolved)?;
    let mut names = Names::new(alloc);
    push_nodes(alloc, &marks, resolved.nodes.as_slice(), &mut names)?;
    push_edges(alloc, &marks, resolved.edges.as_slice(), &mut names)?;
    Ok(names)
}

// Puts a name last that isn't among these.
fn push_name(alloc: Global, used: &Names, name: &Name, unused: &mut Vec<Name>) -> Result<(), Memory>
    ensures { OnOk result (unused.new.items ≡ unused.old.items ++ filter (is_unused used.now) (name.now ∷ [])) }
{
    if !used.contains(name) {
        unused.push(name.copy(alloc)?)?;
    }
    Ok(())
}

// Puts the name of a member last that is a type declared on the spot, and not among these.
fn push_member(
    alloc: Global,
    used: &Names,
    member: &Member,
    unused: &mut Vec<Name>,
) -> Result<(), Memory>
    ensures { OnOk result (unused.new.items ≡ unused.old.items ++ unused_names used.now (filter is_declared (member.now ∷ []))) }
{
    match member {
        Member::Named(_) => Ok(()),
        Member::Node(node) => push_name(alloc, used, &node.get().name, unused),
        Member::Edge(edge) => push_name(alloc, used, &edge.get().name, unused),
    }
}

fn push_members(
    alloc: Global,
    used: &Names,
    members: &[Member],
    unused: &mut Vec<Name>,
) -> Result<(), Memory>
    ensures { OnOk result (unused.new.items ≡ unused.old.items ++ unused_names used.now (filter is_declared members.now)) }
{
    for member in members {
        push_member(alloc, used, member, unused)?;
    }
    Ok(())
}

// Puts the names of the types last that a statement declares, and that aren't among these.
fn push_statement(
    alloc: Global,
    used: &Names,
    statement: &Statement,
    unused: &mut Vec<Name>,
) -> Result<(), Memory>
    ensures { OnOk result (unused.new.items ≡ unused.old.items ++ unused_names used.now (declared_in statement.now)) }
{
    match statement {
        Statement::Node(node) => push_name(alloc, used, &node.get().name, unused),
        Statement::Edge(edge) => push_name(alloc, used, &edge.get().name, unused),
        Statement::Graph(graph) => {
            push_members(alloc, used, graph.get().members.as_slice(), unused)
        }
    }
}

/// The names of the element types of a script, in its order, that the guard doesn't use: it doesn't list them, also through imports, no
/// pattern of its keys names them, and no type that it uses does. What it means is the law `used_types`
/// (docs/DEFINITIONS.md, "What a schema says in silence").
pub fn unused_types(
    alloc: Global,
    script: &Script,
    resolved: &Resolved,
) -> Result<List<Name>, Memory>
    ensures { IfOk result (λ unused. unused ≡ unused_types script.now resolved.now) }
{
    let used = used_names(alloc, resolved)?;
    let mut unused = Vec::new(alloc);
    for statement in script.statements.as_slice() {
        push_statement(alloc, &used, statement, &mut unused)?;
    }
    Ok(List::from_vec(unused))
}
