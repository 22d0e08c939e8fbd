//! The least element that a session watches and that was changed since its Begin.

ghost use Rattle.std.specs.Prelude.{◌≡◌, None, flat_map};
ghost use Rattle.pgs_sessions.specs.Changes.{last_in};
ghost use Rattle.pgs_sessions.specs.Least.{lesser_of, own_elem, own_ends};
ghost use Rattle.pgs_sessions_machine.specs.Machine.{least_after, least_of, if_after, named, watched};

use crate::changes::Changes;
use crate::open::Open;
use pgs_base::{Elem, NodeId};
use pgs_graph::Op;
use std::collections::BTreeSet;

// A change of an element, by the number of the commit.
type Change = (Elem, u64);

// The lesser of two changes, by their elements; the first of equal ones.
fn lesser(first: Option<Change>, second: Option<Change>) -> Option<Change>
    ensures { result ≡ lesser_of first second }
{
    match (first, second) {
        (Some(change), Some(other)) => {
            if change.0 > other.0 {
                Some(other)
            } else {
                Some(change)
            }
        }
        (Some(change), None) => Some(change),
        (None, other) => other,
    }
}

// The element that an operation changes.
fn elem_of(op: &Op) -> Elem
    ensures { result ≡ own_elem op.now }
{
    match op {
        Op::AddNode { id, .. }
        | Op::RemoveNode { id }
        | Op::DetachNode { id }
        | Op::SetNode { id, .. }
        | Op::UnsetNode { id, .. }
        | Op::LabelNode { id, .. }
        | Op::UnlabelNode { id, .. } => Elem::Node(*id),
        Op::AddEdge { id, .. }
        | Op::RemoveEdge { id }
        | Op::SetEdge { id, .. }
        | Op::UnsetEdge { id, .. }
        | Op::LabelEdge { id, .. }
        | Op::UnlabelEdge { id, .. } => Elem::Edge(*id),
    }
}

// The ends of an edge that an operation adds.
fn ends_of(op: &Op) -> Option<(NodeId, NodeId)>
    ensures { result ≡ own_ends op.now }
{
    match op {
        Op::AddEdge { source, target, .. } => Some((*source, *target)),
        _ => None,
    }
}

impl Changes {
    // The last change of an element, where it came after so many commits; or another change where there is none, or where that is of a
    // lesser element.
    fn since(&self, began: u64, elem: Elem, rest: Option<Change>) -> Option<Change>
        ensures { result ≡ least_of elem (if_after began (last_in self.now elem)) rest }
    {
        match self.last(elem) {
            Some(commit) if began < commit => lesser(Some((elem, commit)), rest),
            _ => rest,
        }
    }

    // The least change, after so many commits, of the elements that an operation names.
    fn since_of(&self, began: u64, op: &Op) -> Option<Change>
        ensures { result ≡ least_after (last_in self.now) began (named op.now) }
    {
        match ends_of(op) {
            Some((source, target)) => {
                let second = self.since(began, Elem::Node(target), None);
                let ends = self.since(began, Elem::Node(source), second);
                self.since(began, elem_of(op), ends)
            }
            None => self.since(began, elem_of(op), None),
        }
    }

    // The same of operations.
    fn since_named(&self, began: u64, ops: &[Op]) -> Option<Change>
        ensures { result ≡ least_after (last_in self.now) began (flat_map named ops.now) }
    {
        let mut found = None;
        for op in ops {
            found = lesser(found, self.since_of(began, op));
        }
        found
    }

    // The same of elements that were read.
    fn since_read(&self, began: u64, read: &BTreeSet<Elem>) -> Option<Change>
        ensures { result ≡ least_after (last_in self.now) began read.now.keys }
    {
        let mut found = None;
        for elem in read.iter() {
            found = lesser(found, self.since(began, *elem, None));
        }
        found
    }

    /// The least element that a session read, or that an operation that it staged names, and that was changed since its Begin, with
    /// the last commit that changed it. One look-up for each of these elements.
    pub fn stale(&self, session: &Open) -> Option<Change>
        ensures { result ≡ least_after (last_in self.now) session.now.began (watched session.now) }
    {
        let read = self.since_read(session.began, &session.read);
        let named = self.since_named(session.began, session.staged.ops.as_slice());
        lesser(read, named)
    }
}
