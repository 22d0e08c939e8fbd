//! What a schema says in silence: a qualifier that no graph breaks, words that no type knows, subtypes that a key doesn't speak of, graph
//! types that nothing imports.
//!
//! The one rule: each is a definition over the script or the resolved schema (`specs/`), and a call gives exactly what it says. A layer
//! above asks each in turn and makes a line of what it finds.
#![tactic(auto)]

mod apart;
pub mod laws;
mod parts;
mod script_types;
mod subtypes;
mod unknown;
mod unused;
mod used;
mod void;
mod words;

pub use apart::keys_apart;
pub use script_types::unused_types;
pub use subtypes::Subtype;
pub use unknown::{Unknown, unknown_words};
pub use unused::unused_graphs;
pub use void::{has_void_exclusive, has_void_singleton};
pub use words::{Known, Words};
