ghost use Rattle.std.specs.Prelude.{◌≡◌, ◌++◌, IfOk, OnOk};
ghost use Rattle.std.specs.Option.{option_map, option_to_list};
ghost use Rattle.pgs_syntax.specs.declared.script.Script.{Script};
ghost use Rattle.pgs_resolve_declared.specs.Declarations.{node_named, edge_named};
ghost use Rattle.pgs_resolve_declared.specs.Order.{resolved_node, resolved_edge, resolved_nodes, resolved_edges};
ghost use Rattle.pgs_resolve_declared.specs.Tables.{AreOf};

use crate::specifications::resolve_spec;
use pgs_base::{Copyable, List, Memory, Name};
use pgs_resolve_declared::{Declarations, Numbering};
use pgs_syntax::{EdgeType, Leaf, NodeType};
use std::alloc::Global;

// A node type with its names resolved.
fn resolve_node(
    alloc: Global,
    numbering: &Numbering,
    node: &NodeType<Name>,
) -> Result<NodeType<Leaf>, Memory>
    ensures { IfOk result (λ resolved. resolved ≡ resolved_node numbering.now node.now) }
{
    let name = node.name.copy(alloc)?;
    let spec = resolve_spec(alloc, &numbering.nodes, &node.spec)?;
    Ok(NodeType {
        name,
        hidden: node.hidden,
        place: node.place,
        spec,
    })
}

// An edge type with its names resolved: at its ends node types, and in its middle edge types.
fn resolve_edge(
    alloc: Global,
    numbering: &Numbering,
    edge: &EdgeType<Name>,
) -> Result<EdgeType<Leaf>, Memory>
    ensures { IfOk result (λ resolved. resolved ≡ resolved_edge numbering.now edge.now) }
{
    let name = edge.name.copy(alloc)?;
    let source = resolve_spec(alloc, &numbering.nodes, &edge.source)?;
    let middle = resolve_spec(alloc, &numbering.edges, &edge.middle)?;
    let target = resolve_spec(alloc, &numbering.nodes, &edge.target)?;
    Ok(EdgeType {
        name,
        hidden: edge.hidden,
        place: edge.place,
        source,
        middle,
        target,
    })
}

fn push_node(
    alloc: Global,
    declarations: &Declarations<'_>,
    numbering: &Numbering,
    name: &Name,
    resolved: &mut Vec<NodeType<Leaf>>,
) -> Result<(), Memory>
    ensures { (script : Script) → AreOf script declarations.now →
        OnOk result (resolved.new.items ≡ resolved.old.items
        ++ option_to_list (option_map (resolved_node numbering.now) (node_named script name.now))) }
{
    match declarations.node(name) {
        Some(node) => resolved.push(resolve_node(alloc, numbering, node)?)?,
        None => {}
    }
    Ok(())
}

/// All node types with their names resolved, in the order of their numbers.
pub fn resolve_nodes(
    alloc: Global,
    declarations: &Declarations<'_>,
    numbering: &Numbering,
) -> Result<List<NodeType<Leaf>>, Memory>
    ensures { (script : Script) → AreOf script declarations.now →
        IfOk result (λ types. types ≡ resolved_nodes script numbering.now) }
{
    let mut resolved = Vec::new(alloc);
    for name in numbering.nodes.as_slice() {
        push_node(alloc, declarations, numbering, name, &mut resolved)?;
    }
    Ok(List::from_vec(resolved))
}

fn push_edge(
    alloc: Global,
    declarations: &Declarations<'_>,
    numbering: &Numbering,
    name: &Name,
    resolved: &mut Vec<EdgeType<Leaf>>,
) -> Result<(), Memory>
    ensures { (script : Script) → AreOf script declarations.now →
        OnOk result (resolved.new.items ≡ resolved.old.items
        ++ option_to_list (option_map (resolved_edge numbering.now) (edge_named script name.now))) }
{
    match declarations.edge(name) {
        Some(edge) => resolved.push(resolve_edge(alloc, numbering, edge)?)?,
        None => {}
    }
    Ok(())
}

/// All edge types with their names resolved, in the order of their numbers.
pub fn resolve_edges(
    alloc: Global,
    declarations: &Declarations<'_>,
    numbering: &Numbering,
) -> Result<List<EdgeType<Leaf>>, Memory>
    ensures { (script : Script) → AreOf script declarations.now →
        IfOk result (λ types. types ≡ resolved_edges script numbering.now) }
{
    let mut resolved = Vec::new(alloc);
    for name in numbering.edges.as_slice() {
        push_edge(alloc, declarations, numbering, name, &mut resolved)?;
    }
    Ok(List::from_vec(resolved))
}
