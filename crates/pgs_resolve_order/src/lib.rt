//! The order of the types of a script: the least name on a cycle of references, and the numbers of its types.
//!
//! The one rule: where no type refers to itself over others, each is listed after those that it refers to, and of several the first by its place.
//! The definitions stand in `specs/Links.antt` and in `Order` of `pgs_resolve_declared`; `specs/Listing.antt` is the queue that lists them.
#![tactic(auto)]

mod components;
mod cycles;
mod depth_first;
mod links;
mod listing;
mod marks;
mod reached;

pub use cycles::least_on_cycle;
pub use listing::numbering;
