ghost use Rattle.std.specs.Prelude.{◌≡◌, true};
ghost use Rattle.std.specs.List.{list_all};
ghost use Rattle.pgs_base.specs.Graph.{is_node_entry, is_edge_entry};
ghost use Rattle.pgs_base.specs.Pair.{pair_of, is_pair};

use crate::{Copyable, EdgeId, Labels, Memory, NodeId, Props};
use std::alloc::Global;

/// What a node carries.
#[derive(Drop)]
pub struct NodeRow {
    pub labels: Labels,
    pub props: Props,
}

/// The ends of an edge, which may be one node, and what it carries.
#[derive(Drop)]
pub struct EdgeRow {
    pub source: NodeId,
    pub target: NodeId,
    pub labels: Labels,
    pub props: Props,
}

/// What all labels and properties meet: together they are a pair. Nothing is done.
pub fn pair_facts(labels: &Labels, props: &Props)
    ensures { is_pair (pair_of labels.now props.now) ≡ true }
{
    let _names = labels.as_slice();
    let _rows = props.as_slice();
}

impl NodeRow {
    /// What every row of a node meets: it is a pair. Nothing is done.
    pub fn facts(&self)
        ensures { is_pair self.now ≡ true }
    {
        pair_facts(&self.labels, &self.props);
    }
}

impl EdgeRow {
    /// What every row of an edge meets: it carries a pair. Nothing is done.
    pub fn facts(&self)
        ensures { is_pair (pair_of self.now.labels self.now.props) ≡ true }
    {
        pair_facts(&self.labels, &self.props);
    }
}

/// What all nodes with their rows meet: each can stand in a graph. Nothing is done.
pub fn nodes_facts(nodes: &[(NodeId, NodeRow)])
    ensures { list_all is_node_entry nodes.now ≡ true }
{
    for node in nodes {
        node.0.facts();
        node.1.facts();
    }
}

/// What all edges with their rows meet: each can stand in a graph, where its ends are there. Nothing is done.
pub fn edges_facts(edges: &[(EdgeId, EdgeRow)])
    ensures { list_all is_edge_entry edges.now ≡ true }
{
    for edge in edges {
        edge.0.facts();
        edge.1.facts();
    }
}

impl Copyable for NodeRow {
    fn copy(&self, alloc: Global) -> Result<NodeRow, Memory> {
        let labels = self.labels.copy(alloc)?;
        let props = self.props.copy(alloc)?;
        Ok(NodeRow { labels, props })
    }
}

impl Copyable for EdgeRow {
    fn copy(&self, alloc: Global) -> Result<EdgeRow, Memory> {
        let labels = self.labels.copy(alloc)?;
        let props = self.props.copy(alloc)?;
        Ok(EdgeRow {
            source: self.source,
            target: self.target,
            labels,
            props,
        })
    }
}
