//! A pending change seen as a graph: a base with the rows of a sound delta in place of its own, before anything is changed.
//!
//! The one rule: each read answers by the changed graph, reads the base by `GraphRead` alone, and ticks as every graph does. A list of
//! edges that the delta touches is kept as ranges of the base's list and edges that are put in (`specs/Parts.antt`); nothing is copied.
#![tactic(auto)]

mod base_list;
mod changes;
mod counting;
mod edit;
mod edited_list;
mod node_lists;
mod overlay;
mod part;
mod read;
mod search;
mod side;
mod side_lists;

pub use overlay::Overlay;
