ghost use Rattle.std.specs.Prelude.{◌≡◌, ℕ, ◌==◌, length, IfOk};
ghost use Rattle.pgs_syntax.specs.declared.resolved.Resolved.{Resolved};
ghost use Rattle.pgs_schema_changes.specs.Unfolded.{Tree, tree_below, node_tree_of, node_tree, edge_tree_of};
ghost use Rattle.pgs_schema_changes.specs.Numbers.{AreNamed, IsNumbered, PutsAll, PutsTypes, Puts, TellsAlike, number_at};

use crate::form::Form;
use crate::specification::number_of;
use crate::trees::Trees;
use pgs_base::Memory;
use pgs_syntax::{EdgeType, Leaf, NodeType, Resolved};
use std::alloc::Global;

// The numbers of node types, unfolded.
fn number_nodes(
    alloc: Global,
    trees: &mut Trees,
    types: &[NodeType<Leaf>],
) -> Result<Vec<usize>, Memory>
    ensures { IsNumbered trees.old.entries.items
        → IfOk result (λ numbers. PutsAll trees.old.entries.items trees.new.entries.items numbers.items (tree_below node_tree_of types.now (length types.now))) }
{
    let mut numbers = Vec::with_capacity(alloc, types.len())?;
    for of_type in types {
        let number = number_of(alloc, trees, numbers.as_slice(), &of_type.spec)?;
        numbers.push(number)?;
    }
    Ok(numbers)
}

// The number of an edge type, unfolded by the numbers of all node types and of the edge types before it.
fn number_edge(
    alloc: Global,
    trees: &mut Trees,
    nodes: &[usize],
    edges: &[usize],
    of_type: &EdgeType<Leaf>,
) -> Result<usize, Memory>
    ensures { (resolved : Resolved) (names : ℕ → Tree) → IsNumbered trees.old.entries.items → AreNamed trees.old.entries.items nodes.now (node_tree resolved)
        → AreNamed trees.old.entries.items edges.now names
        → IfOk result (λ number. Puts trees.old.entries.items trees.new.entries.items number (edge_tree_of resolved names of_type.now)) }
{
    let source = number_of(alloc, trees, nodes, &of_type.source)?;
    let target = number_of(alloc, trees, nodes, &of_type.target)?;
    let middle = number_of(alloc, trees, edges, &of_type.middle)?;
    let ends = trees.put(Form::Ends, source, target)?;
    trees.put(Form::Edge, ends, middle)
}

// The numbers of edge types, unfolded.
fn number_edges(
    alloc: Global,
    trees: &mut Trees,
    nodes: &[usize],
    types: &[EdgeType<Leaf>],
) -> Result<Vec<usize>, Memory>
    ensures { (resolved : Resolved) → IsNumbered trees.old.entries.items → AreNamed trees.old.entries.items nodes.now (node_tree resolved)
        → IfOk result (λ numbers. PutsAll trees.old.entries.items trees.new.entries.items numbers.items (tree_below (edge_tree_of resolved) types.now (length types.now))) }
{
    let mut numbers = Vec::with_capacity(alloc, types.len())?;
    for of_type in types {
        let number = number_edge(alloc, trees, nodes, numbers.as_slice(), of_type)?;
        numbers.push(number)?;
    }
    Ok(numbers)
}

/// The numbers of a schema's types, unfolded, by their own numbers.
#[derive(Drop)]
pub(crate) struct TypeNumbers {
    pub nodes: Vec<usize>,
    pub edges: Vec<usize>,
}

/// The numbers of the types of two schemas among the same trees.
#[derive(Drop)]
pub(crate) struct Declarations {
    pub before: TypeNumbers,
    pub after: TypeNumbers,
}

fn number_types(
    alloc: Global,
    trees: &mut Trees,
    resolved: &Resolved,
) -> Result<TypeNumbers, Memory>
    ensures { IsNumbered trees.old.entries.items → IfOk result (λ numbers. PutsTypes trees.old.entries.items trees.new.entries.items resolved.now numbers) }
{
    let nodes = number_nodes(alloc, trees, resolved.nodes.as_slice())?;
    let edges = number_edges(alloc, trees, nodes.as_slice(), resolved.edges.as_slice())?;
    Ok(TypeNumbers { nodes, edges })
}

// The number that stands at a type's own number.
fn number_at(numbers: &[usize], own: u32) -> usize
    ensures { result ≡ number_at numbers.now own }
{
    match numbers.get(own as usize) {
        Some(number) => *number,
        None => 0,
    }
}

impl Declarations {
    /// The types of two schemas, unfolded. `Memory` where there was none left.
    pub(crate) fn of(alloc: Global, old: &Resolved, new: &Resolved) -> Result<Declarations, Memory>
        ensures { IfOk result (TellsAlike old.now new.now) }
    {
        let mut trees = Trees::new(alloc);
        let before = number_types(alloc, &mut trees, old)?;
        let after = number_types(alloc, &mut trees, new)?;
        Ok(Declarations { before, after })
    }

    /// Whether a node type of the old schema and one of the new schema have one number.
    pub(crate) fn same_nodes(&self, own: u32, number: u32) -> bool
        ensures { result ≡ (number_at self.now.before.nodes.items own == number_at self.now.after.nodes.items number) }
    {
        number_at(self.before.nodes.as_slice(), own)
            == number_at(self.after.nodes.as_slice(), number)
    }

    /// The same of edge types.
    pub(crate) fn same_edges(&self, own: u32, number: u32) -> bool
        ensures { result ≡ (number_at self.now.before.edges.items own == number_at self.now.after.edges.items number) }
    {
        number_at(self.before.edges.as_slice(), own)
            == number_at(self.after.edges.as_slice(), number)
    }
}
