//! The command `apply`: lines of transactions, each decided on the saved store, journaled, given to feeds and answered by a verdict line.
//!
//! The one rule: what is put is what `told_apply` tells (`specs/Told.antt`). At every moment the two areas save the store after the
//! transactions whose `committed` lines are out whole, or after one more (`specs/Run.antt`). A transaction's verdict line and its feed line
//! are made before the store takes it, the feed line only where a feed is to get it; after the store's Ok feeds are given the feed line, and
//! then the verdict line is put.
//!
//! It is a machine over lines (`specs/Applying.antt`): where it stands between two lines, what lines come to, one after another, and what
//! taking them may do to a world and to feeds. That this holds of nothing done, and of one thing after another, is carried by the rule of the
//! machine (`specs/Rule.antt`, `specs/RuleLaws.antt`).
#![tactic(auto)]

mod applying;
mod asking;
mod run;

pub use run::run_apply;
