//! What a step from one schema to another changes, before it is taken: over two texts, with a line `---` between them.
//!
//! The one rule: `told_changes` (`specs/Told.antt`) says what is told of both schemas, by the answers to the old one's types, of which it is
//! only said that each is right, as `contain` has them (`pgs_run_contain`, which also reads the texts). After the line `safe` every graph that
//! conforms to the old schema conforms to the new one (`laws` of `pgs_schema_changes`).
#![tactic(auto)]

mod cause;
mod changes;
pub mod laws;
mod lines;
mod run;
mod store_run;
mod stored;

pub use run::run_check_evolve;
pub use store_run::run_check_evolve_store;
