//! Checking a schema: the input is a schema text, and lines say what its guard asks and what in it does nothing.
//!
//! The one rule: a run keeps the `Promise` of `schema_spec` (`specs/Spec.antt`). What is put and the status are those of `told_schema`
//! (`specs/Told.antt`), of an input and a budget, by what is judged of the guard's types and keys, which is only
//! said to be right (`specs/Judged.antt`). The other lines of a schema are those of `pgs_advice_lines`.
#![tactic(auto)]

mod answering;
mod reading;
mod run;
mod types;

pub use run::run_check_schema;
