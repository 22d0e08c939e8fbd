//! What a schema means: the names of a script resolved, or the first reason why it is no schema.
//!
//! The one rule: the refusals of a script are a list in order, and where it is empty there is one resolved schema. Both
//! are computed in `specs/Resolution.antt`, and `resolve` gives exactly them. `specs/SchemaOf.antt` says what a text is,
//! from its bytes to its schema.
//!
//! What this means is said by laws ([`laws`]), in the words of its subject: ways from name to name, lists in which each type stands once
//! behind those that it names, and imports before what imports them. The definitions bound each way by how many names there are; the laws
//! have no bound, so that one too small would break them.
#![tactic(auto)]

mod fault;
mod guard;
mod guard_keys;
mod key_refusals;
pub mod laws;
mod resolution;
mod resolved_types;
pub mod samples;
mod specifications;

pub use fault::ResolveFault;
pub use pgs_syntax::KeyCause;
pub use resolution::resolve;
