//! Property graphs as they are read and changed: operations and transactions of them, deltas, the trait `GraphRead`, and the plain `Graph`.
//!
//! Every form of a graph is read through `GraphRead`, and each read answers by the graph that the value means. What a delta makes of a
//! graph stands in `specs/Changed.antt`, what the reads answer in `specs/Reads.antt`; the graph itself stands in `pgs_base`.
//! A layer above reads by the trait alone, and changes a `Graph` by sound deltas.
#![tactic(auto)]

mod delta;
mod graph;
pub mod laws;
mod operation;
mod read;
mod relist;
mod scan;

pub use delta::Delta;
pub use graph::Graph;
pub use operation::{Op, Txn};
pub use pgs_base::{EdgeRow, NodeRow};
pub use read::{EdgeRef, GraphRead, NodeRef, tick_each};
