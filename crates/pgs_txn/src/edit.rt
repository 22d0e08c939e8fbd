//! Rows that a transaction writes: new ones, and changes of those that are there. None of them is too large.

ghost use Rattle.std.specs.Prelude.{◌≡◌, IfOk};
ghost use Rattle.pgs_base.specs.Pair.{pair_of};
ghost use Rattle.pgs_graph.specs.Reads.{edge_row};
ghost use Rattle.pgs_violation.specs.Staging.{is_small};
ghost use Rattle.pgs_txn.specs.Answers.{Gives};
ghost use Rattle.pgs_txn.specs.Edits.{edited_labels, edited_props, edited_node, edited_edge, small_node, small_edge};

use crate::faults::OpFault;
use pgs_base::{Copyable, EdgeRow, Labels, Memory, Name, NodeId, NodeRow, Props, Value};
use std::alloc::Global;

/// The most labels of an element.
const MOST_LABELS: usize = 64;

/// The most properties of an element.
const MOST_PROPS: usize = 256;

/// Whether an element with these isn't too large.
fn is_small(labels: &Labels, props: &Props) -> bool
    ensures { result ≡ is_small labels.now props.now }
{
    labels.len() <= MOST_LABELS && props.len() <= MOST_PROPS
}

/// The row of a new node.
pub(crate) fn new_node(alloc: Global, labels: &Labels, props: &Props) -> Result<NodeRow, OpFault>
    ensures { Gives result (small_node (pair_of labels.now props.now)) }
{
    if !is_small(labels, props) {
        return Err(OpFault::TooLarge);
    }
    let labels = labels.copy(alloc)?;
    let props = props.copy(alloc)?;
    Ok(NodeRow { labels, props })
}

/// The row of a new edge.
pub(crate) fn new_edge(
    alloc: Global,
    ends: (NodeId, NodeId),
    labels: &Labels,
    props: &Props,
) -> Result<EdgeRow, OpFault>
    ensures { Gives result (small_edge (edge_row ends.0 ends.1 labels.now props.now)) }
{
    if !is_small(labels, props) {
        return Err(OpFault::TooLarge);
    }
    let (source, target) = ends;
    let labels = labels.copy(alloc)?;
    let props = props.copy(alloc)?;
    Ok(EdgeRow {
        source,
        target,
        labels,
        props,
    })
}

/// One change of what an element carries.
#[derive(Clone, Copy)]
pub(crate) enum Edit<'a> {
    Set { key: &'a Name, value: &'a Value },
    Unset { key: &'a Name },
    Label { label: &'a Name },
    Unlabel { label: &'a Name },
}

impl Edit<'_> {
    fn labels(&self, alloc: Global, labels: Labels) -> Result<Labels, Memory>
        ensures { IfOk result (λ edited. edited ≡ edited_labels self.now labels) }
    {
        let mut labels = labels;
        match self {
            Edit::Label { label } => {
                let label = label.copy(alloc)?;
                labels.insert(label)?;
                Ok(labels)
            }
            Edit::Unlabel { label } => {
                labels.remove(label);
                Ok(labels)
            }
            Edit::Set { .. } | Edit::Unset { .. } => Ok(labels),
        }
    }

    fn props(&self, alloc: Global, props: Props) -> Result<Props, Memory>
        ensures { IfOk result (λ edited. edited ≡ edited_props self.now props) }
    {
        let mut props = props;
        match self {
            Edit::Set { key, value } => {
                let key = key.copy(alloc)?;
                let value = value.copy(alloc)?;
                props.set(key, value)?;
                Ok(props)
            }
            Edit::Unset { key } => {
                props.unset(key);
                Ok(props)
            }
            Edit::Label { .. } | Edit::Unlabel { .. } => Ok(props),
        }
    }

    /// The row of a node after the change.
    pub fn node(&self, alloc: Global, row: NodeRow) -> Result<NodeRow, OpFault>
        ensures { Gives result (small_node (edited_node self.now row)) }
    {
        let NodeRow { labels, props } = row;
        let labels = self.labels(alloc, labels)?;
        let props = self.props(alloc, props)?;
        if !is_small(&labels, &props) {
            return Err(OpFault::TooLarge);
        }
        Ok(NodeRow { labels, props })
    }

    /// The row of an edge after the change.
    pub fn edge(&self, alloc: Global, row: EdgeRow) -> Result<EdgeRow, OpFault>
        ensures { Gives result (small_edge (edited_edge self.now row)) }
    {
        let EdgeRow {
            source,
            target,
            labels,
            props,
        } = row;
        let labels = self.labels(alloc, labels)?;
        let props = self.props(alloc, props)?;
        if !is_small(&labels, &props) {
            return Err(OpFault::TooLarge);
        }
        Ok(EdgeRow {
            source,
            target,
            labels,
            props,
        })
    }
}
