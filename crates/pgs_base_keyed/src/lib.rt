//! Values by ordered keys, in a form that suits their number.
//!
//! Few stand in one sorted block, which takes one piece of memory; many in a tree, where none takes long. Contracts see the list of the
//! pairs by ascending key, whatever the form. Whether keys that came from outside ascend is told beside it.
#![tactic(auto)]

mod keyed;
mod order;

pub use keyed::Keyed;
pub use order::{ascend, keys_ascend};
