//! The schema of a text, from its bytes to its compiled types, or the first reason why it has none.
//!
//! The one rule: the refusals are tested in the order of `schema_of` of `pgs_resolve` (docs/DEFINITIONS.md): the text's length, its items,
//! its statements, its names and keys, the width of its types. A layer above takes the compiled schema or prints the refusal.
#![tactic(auto)]

mod fault;
mod reading;
mod schema;

pub use fault::{SchemaFault, SchemaUnread};
pub use reading::read_schema;
pub use schema::Schema;
