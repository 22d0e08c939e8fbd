//! The trees of the schema language, as written (`Script`) and resolved (`Resolved`), and what they mean.
//!
//! The types are plain. What a type, a pattern and a key mean over a graph stands in `specs/`: joins and fitting, matches,
//! the scope and the key values of a key. These definitions compute, and they know no compiled forms and no search plans.
#![tactic(auto)]

mod element_type;
mod key;
mod key_cause;
pub mod laws;
pub mod laws_of_joins;
pub mod laws_of_keys;
mod pattern;
mod raw;
mod resolved;
pub mod samples;
mod script;
mod specification;

pub use element_type::{EdgeType, NodeType};
pub use key::{Key, Qualifiers};
pub use key_cause::KeyCause;
pub use pattern::{Atom, Expr, Pattern};
pub use raw::{RawExpr, RawFilter, RawKey, RawPath, RawPlace, RawStep};
pub use resolved::{Guarding, Resolved, TypeNo};
pub use script::{GraphType, Member, Script, Statement};
pub use specification::{Braces, Leaf, Property, Spec};
