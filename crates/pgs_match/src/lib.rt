//! Scopes and key values of keys over any graph that is read by `GraphRead`.
//!
//! [`plan_key`] plans the searches of a key once. [`in_scope`], [`each_x`], [`key_values`] and [`reach`] then answer exactly by the
//! definitions of `pgs_syntax`, and the calls that begin at an element say how many look-ups they take at most, by the degrees near it.
//!
//! Below these calls stand three layers:
//! - plans: in which order a search binds the variables of a pattern, from one variable on. A plan is a list of [`Step`]s, each of which
//!   binds one variable through an edge of the pattern (`specs/Plans.antt`); [`plan_from`] finds one from any variable of a valid
//!   pattern, and knows no graphs.
//! - what a search along a plan comes to, as functions of the graph (`specs/Search.antt`), and how many look-ups it may take
//!   (`specs/Bounds.antt`); the laws in [`laws`] say that this is what the matches of the pattern give, and within which bound.
//! - the search itself: a [`Search`] reads the graph by the trait alone, each variable is bound to an element that passes the tests of
//!   the variable. [`Search::can_complete`] takes no memory; [`Gathering::gather`] adds the tuples of expressions. Where a pattern has no
//!   cycle, each branch is asked by itself ([`Search::can_be_given`], `specs/Branches.antt`), and tuples are gathered along the way to what
//!   the expressions take alone (`specs/Routes.antt`). Where they take one variable beside x, the module `frontier` goes along that way
//!   from all nodes at a variable together, each once (`specs/Frontier.antt`).
//!
//! [`spread`] goes the other way: from many elements at variables together back to x, a step of the plan after the other, so that no pair of
//! a variable and an element is gone back from twice (`specs/Spread.antt`).
#![tactic(auto)]

mod admission;
mod answers;
mod asked;
mod bindings;
mod branch;
mod branches;
mod calls;
mod completion;
mod copies;
mod ends;
mod frontier;
mod gathering;
mod hops;
pub mod laws;
mod learned;
mod notes;
mod ordered;
mod own;
mod paths;
mod plan;
mod planned;
mod planner;
mod reads;
mod remembering;
pub mod samples;
mod search;
mod searching;
mod spreading;
mod stand;
mod step;
mod trees;
mod tuples;
mod ways;

pub use bindings::{Bindings, Bound, MOST_VARIABLES};
use branch::Branch;
pub use calls::{each_element, each_x, in_scope, key_values, reach, spread};
pub use gathering::Gathering;
pub use learned::{Learned, in_scope_learned, key_values_learned};
pub use ordered::in_order;
pub use own::own_passes;
use plan::Plan;
pub use planned::{PlannedKey, Side, plan_key};
pub use planner::plan_from;
pub use reads::{edge_along, is_edge_typed};
pub use search::Search;
pub use stand::Stand;
pub use step::Step;
