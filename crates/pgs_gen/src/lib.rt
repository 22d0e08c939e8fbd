//! A workload of any size from a number: a schema, and the transactions of persons who know each other.
//!
//! The one rule: transaction `number` adds person `number` and, from the second on, an edge to a person before, whom the start and the
//! number choose (`specs/Generated.antt`; docs/GUIDE.md). Nothing is random: the same start gives the same transactions.
#![tactic(auto)]

mod schema_text;
mod workload;

pub use schema_text::schema;
pub use workload::generate;
