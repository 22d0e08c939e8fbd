ghost use Rattle.std.specs.Prelude.{◌≡◌, [], ◌∷◌, ◌++◌, ◌≤◌, length, slice_get, map, filter_map, flat_map, IfSome, IfOk, OnOk};
ghost use Rattle.std.specs.Option.{option_to_list, option_copied};
ghost use Rattle.std.specs.List.{sum_by};
ghost use Rattle.pgs_resolve_declared.specs.Declarations.{nodes_of, edges_of, graphs_of, declared_in, node_in, edge_in, graph_in, is_node_type, is_edge_type, is_graph_type, graph_named, node_named, edge_named};
ghost use Rattle.pgs_syntax.specs.declared.script.Script.{Script};
ghost use Rattle.pgs_resolve_declared.specs.Tables.{AreOf};

use crate::names::Names;
use pgs_base::{Copyable, Memory, Name};
use pgs_syntax::{EdgeType, GraphType, Member, NodeType, Script, Statement};
use std::alloc::Global;

/// The types that a script declares, each kind in the order of the tree, and their names.
#[derive(Drop)]
pub struct Declarations<'a> {
    pub nodes: Vec<&'a NodeType<Name>>,
    pub edges: Vec<&'a EdgeType<Name>>,
    pub graphs: Vec<&'a GraphType>,
    pub node_names: Names,
    pub edge_names: Names,
    pub graph_names: Names,
}

/// The item at a place, from 0. `None` exactly past the last.
pub fn at<T: Copy>(items: &[T], place: usize) -> Option<T>
    ensures { result ≡ slice_get items.now place }
{
    items.get(place).copied()
}

/// Puts a reference last.
pub fn put<'a, T>(items: &mut Vec<&'a T>, item: &'a T) -> Result<(), Memory>
    ensures { OnOk result (map (λ item. item.now) items.new.items ≡ map (λ item. item.now) items.old.items ++ item.now ∷ []) }
{
    items.push(item)?;
    Ok(())
}

// Puts the types that a member declares last.
fn list_member<'a>(
    member: &'a Member,
    nodes: &mut Vec<&'a NodeType<Name>>,
    edges: &mut Vec<&'a EdgeType<Name>>,
) -> Result<(), Memory>
    ensures nodes { OnOk result (map (λ type. type.now) nodes.new.items ≡ map (λ type. type.now) nodes.old.items ++ option_to_list (node_in member.now)) }
    ensures edges { OnOk result (map (λ type. type.now) edges.new.items ≡ map (λ type. type.now) edges.old.items ++ option_to_list (edge_in member.now)) }
{
    match member {
        Member::Named(_) => Ok(()),
        Member::Node(node) => put(nodes, node.get()),
        Member::Edge(edge) => put(edges, edge.get()),
    }
}

// Puts the types that members declare last.
fn list_members<'a>(
    members: &'a [Member],
    nodes: &mut Vec<&'a NodeType<Name>>,
    edges: &mut Vec<&'a EdgeType<Name>>,
) -> Result<(), Memory>
    ensures nodes { OnOk result (map (λ type. type.now) nodes.new.items ≡ map (λ type. type.now) nodes.old.items ++ filter_map node_in members.now) }
    ensures edges { OnOk result (map (λ type. type.now) edges.new.items ≡ map (λ type. type.now) edges.old.items ++ filter_map edge_in members.now) }
{
    for member in members {
        list_member(member, nodes, edges)?;
    }
    Ok(())
}

// Puts the types that a statement declares last.
fn list_statement<'a>(
    statement: &'a Statement,
    nodes: &mut Vec<&'a NodeType<Name>>,
    edges: &mut Vec<&'a EdgeType<Name>>,
    graphs: &mut Vec<&'a GraphType>,
) -> Result<(), Memory>
    ensures nodes { OnOk result (map (λ type. type.now) nodes.new.items ≡ map (λ type. type.now) nodes.old.items ++ filter_map node_in (declared_in statement.now)) }
    ensures edges { OnOk result (map (λ type. type.now) edges.new.items ≡ map (λ type. type.now) edges.old.items ++ filter_map edge_in (declared_in statement.now)) }
    ensures graphs { OnOk result (map (λ type. type.now) graphs.new.items ≡ map (λ type. type.now) graphs.old.items ++ option_to_list (graph_in statement.now)) }
{
    match statement {
        Statement::Node(node) => put(nodes, node.get()),
        Statement::Edge(edge) => put(edges, edge.get()),
        Statement::Graph(graph) => {
            let graph = graph.get();
            list_members(graph.members.as_slice(), nodes, edges)?;
            put(graphs, graph)
        }
    }
}

// Puts the types that statements declare last.
fn list_statements<'a>(
    statements: &'a [Statement],
    nodes: &mut Vec<&'a NodeType<Name>>,
    edges: &mut Vec<&'a EdgeType<Name>>,
    graphs: &mut Vec<&'a GraphType>,
) -> Result<(), Memory>
    ensures nodes { OnOk result (map (λ type. type.now) nodes.new.items
        ≡ map (λ type. type.now) nodes.old.items ++ filter_map node_in (flat_map declared_in statements.now)) }
    ensures edges { OnOk result (map (λ type. type.now) edges.new.items
        ≡ map (λ type. type.now) edges.old.items ++ filter_map edge_in (flat_map declared_in statements.now)) }
    ensures graphs { OnOk result (map (λ type. type.now) graphs.new.items ≡ map (λ type. type.now) graphs.old.items ++ filter_map graph_in statements.now) }
{
    for statement in statements {
        list_statement(statement, nodes, edges, graphs)?;
    }
    Ok(())
}

// Puts the names of node types last.
fn put_node_names(alloc: Global, nodes: &[&NodeType<Name>], names: &mut Names) -> Result<(), Memory>
    ensures { OnOk result (names.new ≡ names.old ++ map (λ type. type.now.name) nodes.now) }
{
    for node in nodes {
        names.push(alloc, node.name.copy(alloc)?)?;
    }
    Ok(())
}

// Puts the names of edge types last.
fn put_edge_names(alloc: Global, edges: &[&EdgeType<Name>], names: &mut Names) -> Result<(), Memory>
    ensures { OnOk result (names.new ≡ names.old ++ map (λ type. type.now.name) edges.now) }
{
    for edge in edges {
        names.push(alloc, edge.name.copy(alloc)?)?;
    }
    Ok(())
}

// Puts the names of graph types last.
fn put_graph_names(alloc: Global, graphs: &[&GraphType], names: &mut Names) -> Result<(), Memory>
    ensures { OnOk result (names.new ≡ names.old ++ map (λ type. type.now.name) graphs.now) }
{
    for graph in graphs {
        names.push(alloc, graph.name.copy(alloc)?)?;
    }
    Ok(())
}

// The names of node types, of edge types and of graph types.
#[derive(Drop)]
struct TypeNames {
    nodes: Names,
    edges: Names,
    graphs: Names,
}

fn names_of(
    alloc: Global,
    nodes: &[&NodeType<Name>],
    edges: &[&EdgeType<Name>],
    graphs: &[&GraphType],
) -> Result<TypeNames, Memory>
    ensures nodes { IfOk result (λ names. names.nodes ≡ map (λ type. type.now.name) nodes.now) }
    ensures edges { IfOk result (λ names. names.edges ≡ map (λ type. type.now.name) edges.now) }
    ensures graphs { IfOk result (λ names. names.graphs ≡ map (λ type. type.now.name) graphs.now) }
{
    let mut node_names = Names::new(alloc);
    put_node_names(alloc, nodes, &mut node_names)?;
    let mut edge_names = Names::new(alloc);
    put_edge_names(alloc, edges, &mut edge_names)?;
    let mut graph_names = Names::new(alloc);
    put_graph_names(alloc, graphs, &mut graph_names)?;
    Ok(TypeNames {
        nodes: node_names,
        edges: edge_names,
        graphs: graph_names,
    })
}

impl<'a> Declarations<'a> {
    /// The declarations of a script.
    pub fn new(alloc: Global, script: &'a Script) -> Result<Declarations<'a>, Memory>
        ensures { IfOk result (AreOf script.now) }
    {
        let mut nodes = Vec::new(alloc);
        let mut edges = Vec::new(alloc);
        let mut graphs = Vec::new(alloc);
        let statements = script.statements.as_slice();
        list_statements(statements, &mut nodes, &mut edges, &mut graphs)?;
        let names = names_of(alloc, &nodes, &edges, &graphs)?;
        let TypeNames {
            nodes: node_names,
            edges: edge_names,
            graphs: graph_names,
        } = names;
        Ok(Declarations {
            nodes,
            edges,
            graphs,
            node_names,
            edge_names,
            graph_names,
        })
    }

    /// Whether a name is that of a node type.
    pub fn is_node(&self, name: &Name) -> bool
        ensures { (script : Script) → AreOf script self.now → result ≡ is_node_type script name.now }
    {
        self.node_names.contains(name)
    }

    /// Whether a name is that of an edge type.
    pub fn is_edge(&self, name: &Name) -> bool
        ensures { (script : Script) → AreOf script self.now → result ≡ is_edge_type script name.now }
    {
        self.edge_names.contains(name)
    }

    /// Whether a name is that of a graph type.
    pub fn is_graph(&self, name: &Name) -> bool
        ensures { (script : Script) → AreOf script self.now → result ≡ is_graph_type script name.now }
    {
        self.graph_names.contains(name)
    }

    /// The graph type of a name. Its imports are no more than those of all graph types together.
    pub fn graph(&self, name: &Name) -> Option<&'a GraphType>
        ensures value { (script : Script) → AreOf script self.now → option_copied result ≡ graph_named script name.now }
        ensures within { IfSome result (λ graph. length graph.now.imports ≤ sum_by (λ type. length type.now.imports) self.now.graphs.items) }
    {
        match self.graph_names.number(name) {
            Some(number) => at(&self.graphs, number as usize),
            None => None,
        }
    }

    /// The node type of a name.
    pub fn node(&self, name: &Name) -> Option<&'a NodeType<Name>>
        ensures { (script : Script) → AreOf script self.now → option_copied result ≡ node_named script name.now }
    {
        match self.node_names.number(name) {
            Some(number) => at(&self.nodes, number as usize),
            None => None,
        }
    }

    /// The edge type of a name.
    pub fn edge(&self, name: &Name) -> Option<&'a EdgeType<Name>>
        ensures { (script : Script) → AreOf script self.now → option_copied result ≡ edge_named script name.now }
    {
        match self.edge_names.number(name) {
            Some(number) => at(&self.edges, number as usize),
            None => None,
        }
    }
}
