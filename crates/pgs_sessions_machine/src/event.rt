use pgs_base::{EdgeRow, Elem, NodeRow};
use pgs_graph::Txn;
use pgs_violation::Rejection;

/// What comes to many sessions, each by its number.
#[derive(Drop)]
pub enum Event {
    /// A session begins.
    Begin(u64),
    /// A session reads an element.
    Read { session: u64, elem: Elem },
    /// A session stages operations behind those that it has staged.
    Stage { session: u64, txn: Txn },
    /// A session ends, and what it staged is decided as one transaction.
    Commit(u64),
    /// A session ends, and what it staged is dropped.
    Abort(u64),
}

/// What an element is in a graph. The edges at a node aren't part of it.
#[derive(Drop)]
pub enum Content {
    Absent,
    Node(NodeRow),
    Edge(EdgeRow),
}

/// What an event is answered.
#[derive(Drop)]
pub enum Reply {
    Began,
    /// The element in the graph of this moment, without what the session staged.
    Content(Content),
    /// How many operations the session has staged.
    Staged(u64),
    /// The number of the commit, from 1.
    Committed(u64),
    Aborted,
    Rejected(Rejection),
    /// 42: the session is open.
    AlreadyOpen,
    /// 43: no session of this number is open.
    NoSession,
    /// 44: the least element that the session read, or that an operation of its names, and that was changed by a commit after its
    /// Begin; and the last commit that changed it.
    Stale { elem: Elem, commit: u64 },
    /// 45: 1,000 sessions are open.
    TooManySessions,
}
