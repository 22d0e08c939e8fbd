//! The graph in hashed tables: rows by number, and with each node the lists of its edges.
//!
//! Contracts see the graph that the tables mean and the delta that they are ready for (`specs/Standing.antt`). `prepare` takes all
//! memory that a sound delta needs and leaves the graph; `commit` puts the delta in, takes none and can't be refused. What `prepare`
//! hands over is said in `specs/Adjacency.antt`. A layer above reads by `GraphRead`.
//!
//! Nodes and edges stand in two maps of one kind, [`Numbered`]: rows by number in a hashed table, where each number has a slot that holds
//! a row or none (`specs/Slots.antt`). Only making a slot takes memory; to put a row into a slot or to take it out can't be refused.
#![tactic(auto)]

mod commit;
mod edit;
mod node_edges;
mod number;
mod numbered;
mod places;
mod prepared;
mod read;
mod relist;
mod tables;

pub use node_edges::NodeEdges;
pub use number::{Number, Numeric};
pub use numbered::Numbered;
pub use prepared::Prepared;
pub use tables::Tables;
