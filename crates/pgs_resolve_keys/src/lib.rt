//! What a written key means: its variables and patterns, and the first cause why it is no key.
//!
//! The one rule: a key without a cause has one resolved key. Both are computed in `specs/Patterns.antt` and `specs/KeyFaults.antt`.
#![tactic(auto)]

mod atoms;
mod connected;
mod key_causes;
mod key_faults;
mod patterns;
mod places;
mod resolved_keys;
mod variables;

pub use atoms::{ends, push_place};
pub use key_causes::cause_of;
pub use places::{PlaceRef, named_in, places_of};
pub use resolved_keys::resolve_key;
pub use variables::Variables;
