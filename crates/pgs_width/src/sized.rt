ghost use Rattle.std.specs.Prelude.{◌≡◌, ◌++◌, List, [], map, IfOk, OnOk};
ghost use Rattle.pgs_syntax.specs.Width.{Width, node_widths, edge_width, edge_widths, sized_nodes, sized_edges, sized_types};
ghost use Rattle.pgs_width.specs.Capped.{capped_width};
ghost use Rattle.pgs_width.specs.First.{capped_type, parts_of};

use crate::capped::{CappedWidth, capped_product};
use crate::specification::width_of;
use pgs_base::{Copyable, Memory, Name};
use pgs_syntax::{EdgeType, Leaf, NodeType, Resolved};
use std::alloc::Global;

/// A type: its name, its place in the script, and its width.
#[derive(Drop)]
pub struct SizedType {
    pub name: Name,
    pub place: u32,
    pub width: CappedWidth,
}

impl SizedType {
    /// Count times weight, up to the cap.
    pub fn parts(&self) -> u64
        ensures { result ≡ parts_of self.now }
    {
        capped_product(self.width.count, self.width.weight)
    }
}

// Puts node types with their widths last, and answers the widths.
fn size_nodes(
    alloc: Global,
    types: &[NodeType<Leaf>],
    sized: &mut Vec<SizedType>,
) -> Result<Vec<CappedWidth>, Memory>
    ensures widths { IfOk result (λ widths. widths.items ≡ map capped_width (node_widths [] types.now)) }
    ensures sized { OnOk result (sized.new.items
        ≡ sized.old.items ++ map capped_type (sized_nodes types.now (node_widths [] types.now))) }
{
    let mut widths = Vec::new(alloc);
    for node in types {
        let width = width_of(&widths, &node.spec);
        widths.push(width)?;
        let name = node.name.copy(alloc)?;
        sized.push(SizedType {
            name,
            place: node.place,
            width,
        })?;
    }
    Ok(widths)
}

fn edge_width(nodes: &[CappedWidth], named: &[CappedWidth], edge: &EdgeType<Leaf>) -> CappedWidth
    ensures { (exact before : List Width) → nodes.now ≡ map capped_width exact → named.now ≡ map capped_width before →
        result ≡ capped_width (edge_width exact before edge.now) }
{
    let source = width_of(nodes, &edge.source);
    let middle = width_of(named, &edge.middle);
    let target = width_of(nodes, &edge.target);
    source.both(middle.both(target))
}

// Puts edge types with their widths last.
fn size_edges(
    alloc: Global,
    nodes: &[CappedWidth],
    types: &[EdgeType<Leaf>],
    sized: &mut Vec<SizedType>,
) -> Result<(), Memory>
    ensures { OnOk result ((exact : List Width) → nodes.now ≡ map capped_width exact → sized.new.items
        ≡ sized.old.items ++ map capped_type (sized_edges types.now (edge_widths exact [] types.now))) }
{
    let mut widths = Vec::new(alloc);
    for edge in types {
        let width = edge_width(nodes, &widths, edge);
        widths.push(width)?;
        let name = edge.name.copy(alloc)?;
        sized.push(SizedType {
            name,
            place: edge.place,
            width,
        })?;
    }
    Ok(())
}

/// All types of a schema with their widths, node types first.
pub fn sized_types(alloc: Global, resolved: &Resolved) -> Result<Vec<SizedType>, Memory>
    ensures { IfOk result (λ sized. sized.items ≡ map capped_type (sized_types resolved.now)) }
{
    let mut sized = Vec::new(alloc);
    let nodes = size_nodes(alloc, resolved.nodes.as_slice(), &mut sized)?;
    size_edges(alloc, &nodes, resolved.edges.as_slice(), &mut sized)?;
    Ok(sized)
}
