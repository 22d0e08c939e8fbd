//! The lines of a graph: the operations that make it from the empty one, one a line.
//!
//! The one rule: `graph_lines` (`specs/Lines.antt`) says them: of each node by number an add with its labels, and then one operation for
//! each property by name; then so of each edge. Each line is put as soon as it is made; there is never a copy of more than one operation.
//! Whatever reads as a graph is told so, by whatever program: a saved store, or what a follower has.
#![tactic(auto)]

mod elements;
mod graph;
mod lines;

pub use graph::put_graph;
