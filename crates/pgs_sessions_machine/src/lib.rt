//! Sessions over every interleaving, as definitions: events, replies, and the machine that answers them.
//!
//! The machine stands in `specs/Machine.antt`: its state is the list of graphs, one after each commit, and the open sessions, each with
//! the number of commits at its Begin, the elements that it read and its staged operations. It keeps no number of an element: which
//! commit changed one is read off the graphs (`specs/Content.antt`). The law above all: a session whose commit is decided has the replies
//! of running alone at its commit (`specs/Alone.antt`). No crate runs the machine yet.
#![tactic(auto)]

mod event;
pub mod laws;
pub mod samples;

pub use event::{Content, Event, Reply};
