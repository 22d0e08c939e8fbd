//! Operations, each by the members of its kind.

ghost use Rattle.std.specs.Prelude.{◌≡◌, codes};
ghost use Rattle.serde_json.specs.Data.{object};
ghost use Rattle.pgs_json.specs.declared.kind.Kind.TheVariants as kinds;
ghost use Rattle.pgs_json.specs.Form.{add_node, add_edge, with_id, with_name, with_value};
ghost use Rattle.pgs_json.specs.Kinds.{op_as};
ghost use Rattle.pgs_json.specs.Tree.{members_view};
ghost use Rattle.pgs_json.specs.Unread.{Gives};

use crate::json_op::{labels_part, props_part};
use crate::json_part::{are_among, id_part, name_part, value_part};
use crate::kind::Kind;
use crate::tree::{Member, member};
use crate::unread::Unread;
use pgs_base::{EdgeId, Name, NodeId, Value};
use pgs_graph::Op;
use std::alloc::Global;

#[tactic(auto, unfolding(crate::specs::Form::add_node))]
fn add_node(alloc: Global, members: &[Member<'_>]) -> Result<Op, Unread>
    ensures { Gives (λ x. x) result (add_node (object (members_view members.now))) }
{
    if !are_among(&["add_node", "labels", "props"], members) {
        return Err(Unread::Unfit);
    }
    let id = id_part(member(members, "add_node"))?;
    let labels = labels_part(alloc, member(members, "labels"))?;
    let props = props_part(alloc, member(members, "props"))?;
    Ok(Op::AddNode {
        id: NodeId(id),
        labels,
        props,
    })
}

#[tactic(auto, unfolding(crate::specs::Form::add_edge))]
fn add_edge(alloc: Global, members: &[Member<'_>]) -> Result<Op, Unread>
    ensures { Gives (λ x. x) result (add_edge (object (members_view members.now))) }
{
    if !are_among(&["add_edge", "from", "labels", "props", "to"], members) {
        return Err(Unread::Unfit);
    }
    let id = id_part(member(members, "add_edge"))?;
    let source = id_part(member(members, "from"))?;
    let target = id_part(member(members, "to"))?;
    let labels = labels_part(alloc, member(members, "labels"))?;
    let props = props_part(alloc, member(members, "props"))?;
    Ok(Op::AddEdge {
        id: EdgeId(id),
        source: NodeId(source),
        target: NodeId(target),
        labels,
        props,
    })
}

#[tactic(auto, unfolding(crate::specs::Form::with_id))]
fn with_id(members: &[Member<'_>], kind: &str) -> Result<u64, Unread>
    ensures { Gives (λ x. x) result (with_id kind.now (object (members_view members.now))) }
{
    if !are_among(&[kind], members) {
        return Err(Unread::Unfit);
    }
    id_part(member(members, kind))
}

#[tactic(auto, unfolding(crate::specs::Form::with_name))]
fn with_name(
    alloc: Global,
    members: &[Member<'_>],
    kind: &str,
    second: &str,
) -> Result<(u64, Name), Unread>
    ensures { Gives (λ x. x) result (with_name kind.now second.now (object (members_view members.now))) }
{
    if !are_among(&[second, kind], members) {
        return Err(Unread::Unfit);
    }
    let id = id_part(member(members, kind))?;
    let name = name_part(alloc, member(members, second))?;
    Ok((id, name))
}

#[tactic(auto, unfolding(crate::specs::Form::with_value))]
fn with_value(
    alloc: Global,
    members: &[Member<'_>],
    kind: &str,
) -> Result<(u64, Name, Value), Unread>
    ensures { Gives (λ x. x) result (with_value kind.now (object (members_view members.now))) }
{
    if !are_among(&["key", kind, "value"], members) {
        return Err(Unread::Unfit);
    }
    let id = id_part(member(members, kind))?;
    let key = name_part(alloc, member(members, "key"))?;
    let value = value_part(alloc, member(members, "value"))?;
    Ok((id, key, value))
}

fn remove_node(members: &[Member<'_>]) -> Result<Op, Unread>
    ensures { Gives (λ x. x) result (op_as kinds.RemoveNode (object (members_view members.now))) }
{
    let id = with_id(members, "remove_node")?;
    Ok(Op::RemoveNode { id: NodeId(id) })
}

fn detach_node(members: &[Member<'_>]) -> Result<Op, Unread>
    ensures { Gives (λ x. x) result (op_as kinds.DetachNode (object (members_view members.now))) }
{
    let id = with_id(members, "detach_node")?;
    Ok(Op::DetachNode { id: NodeId(id) })
}

fn remove_edge(members: &[Member<'_>]) -> Result<Op, Unread>
    ensures { Gives (λ x. x) result (op_as kinds.RemoveEdge (object (members_view members.now))) }
{
    let id = with_id(members, "remove_edge")?;
    Ok(Op::RemoveEdge { id: EdgeId(id) })
}

fn set_node(alloc: Global, members: &[Member<'_>]) -> Result<Op, Unread>
    ensures { Gives (λ x. x) result (op_as kinds.SetNode (object (members_view members.now))) }
{
    let (id, key, value) = with_value(alloc, members, "set_node")?;
    Ok(Op::SetNode {
        id: NodeId(id),
        key,
        value,
    })
}

fn set_edge(alloc: Global, members: &[Member<'_>]) -> Result<Op, Unread>
    ensures { Gives (λ x. x) result (op_as kinds.SetEdge (object (members_view members.now))) }
{
    let (id, key, value) = with_value(alloc, members, "set_edge")?;
    Ok(Op::SetEdge {
        id: EdgeId(id),
        key,
        value,
    })
}

fn unset_node(alloc: Global, members: &[Member<'_>]) -> Result<Op, Unread>
    ensures { Gives (λ x. x) result (op_as kinds.UnsetNode (object (members_view members.now))) }
{
    let (id, key) = with_name(alloc, members, "unset_node", "key")?;
    Ok(Op::UnsetNode {
        id: NodeId(id),
        key,
    })
}

fn unset_edge(alloc: Global, members: &[Member<'_>]) -> Result<Op, Unread>
    ensures { Gives (λ x. x) result (op_as kinds.UnsetEdge (object (members_view members.now))) }
{
    let (id, key) = with_name(alloc, members, "unset_edge", "key")?;
    Ok(Op::UnsetEdge {
        id: EdgeId(id),
        key,
    })
}

fn label_node(alloc: Global, members: &[Member<'_>]) -> Result<Op, Unread>
    ensures { Gives (λ x. x) result (op_as kinds.LabelNode (object (members_view members.now))) }
{
    let (id, label) = with_name(alloc, members, "label_node", "label")?;
    Ok(Op::LabelNode {
        id: NodeId(id),
        label,
    })
}

fn label_edge(alloc: Global, members: &[Member<'_>]) -> Result<Op, Unread>
    ensures { Gives (λ x. x) result (op_as kinds.LabelEdge (object (members_view members.now))) }
{
    let (id, label) = with_name(alloc, members, "label_edge", "label")?;
    Ok(Op::LabelEdge {
        id: EdgeId(id),
        label,
    })
}

fn unlabel_node(alloc: Global, members: &[Member<'_>]) -> Result<Op, Unread>
    ensures { Gives (λ x. x) result (op_as kinds.UnlabelNode (object (members_view members.now))) }
{
    let (id, label) = with_name(alloc, members, "unlabel_node", "label")?;
    Ok(Op::UnlabelNode {
        id: NodeId(id),
        label,
    })
}

fn unlabel_edge(alloc: Global, members: &[Member<'_>]) -> Result<Op, Unread>
    ensures { Gives (λ x. x) result (op_as kinds.UnlabelEdge (object (members_view members.now))) }
{
    let (id, label) = with_name(alloc, members, "unlabel_edge", "label")?;
    Ok(Op::UnlabelEdge {
        id: EdgeId(id),
        label,
    })
}

/// The operation of a kind that these members are.
pub fn op_as(alloc: Global, kind: Kind, members: &[Member<'_>]) -> Result<Op, Unread>
    ensures { Gives (λ x. x) result (op_as kind (object (members_view members.now))) }
{
    match kind {
        Kind::AddNode => add_node(alloc, members),
        Kind::AddEdge => add_edge(alloc, members),
        Kind::RemoveNode => remove_node(members),
        Kind::DetachNode => detach_node(members),
        Kind::RemoveEdge => remove_edge(members),
        Kind::SetNode => set_node(alloc, members),
        Kind::UnsetNode => unset_node(alloc, members),
        Kind::LabelNode => label_node(alloc, members),
        Kind::UnlabelNode => unlabel_node(alloc, members),
        Kind::SetEdge => set_edge(alloc, members),
        Kind::UnsetEdge => unset_edge(alloc, members),
        Kind::LabelEdge => label_edge(alloc, members),
        Kind::UnlabelEdge => unlabel_edge(alloc, members),
    }
}
