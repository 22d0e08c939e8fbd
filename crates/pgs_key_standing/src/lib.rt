//! What a key of a guard can speak of: whether its scope can have an element, and an element of the scope a key value, in a graph all of
//! whose elements can stand.
//!
//! The variables of a key's patterns are put to places: those that one edge has at the same end are one. At each place stands a pair, and
//! what the patterns ask is asked of the pairs; shapes are searched for such pairs. That a graph is reached exactly where there are such
//! pairs is proved over graphs (`laws`). The rules stand in `specs/Reach.antt`.
#![tactic(auto)]

mod asked;
mod demand;
mod joint;
mod laws;
mod literals;
mod placed;
mod places;
mod reach;
mod reached;
mod renaming;
mod search;
mod shapes;

pub use demand::Demand;
pub use laws::{scopes_are_by_places, values_are_by_places};
pub use placed::Placed;
pub use reach::{key_reach, keys_reach};
pub use reached::Reach;
