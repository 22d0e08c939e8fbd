//! The decision on a transaction, made where the change is.
//!
//! [`decide`] stages a transaction on tables, sees the delta as a pending change and checks it by the key index: it answers as `decide` of
//! `pgs_violation` does, which judges the whole graph after the transaction, and gives the delta and the changes of the index that
//! make both those of the graph after it. What it looks up is bounded by what the transaction touches (`specs/Touched.antt`).
//! [`change`] does what was decided to both, or to neither; [`prepare`] and [`commit`] are its halves, for who journals in between.
#![tactic(auto)]

mod changing;
mod deciding;
pub mod laws;
mod refusal;

pub use changing::{Ready, change, commit, prepare};
pub use deciding::{Decided, decide};
pub use refusal::GuardRefusal;
