//! The commands `try` and `validate`: a schema text, a line `---` and lines of transactions, from the empty graph on.
//!
//! The one rule: `told_try` and `told_validate` (`specs/Told.antt`) say what they tell of an input within a budget. Both are one machine
//! over lines (`specs/Trying.antt`), which `pgs_run_lines` runs: `try` has each transaction judged by a guard and answers each line;
//! `validate` does the transactions on plain tables, answers refused lines alone, and lists the violations of the graph at the end.
#![tactic(auto)]

mod decider;
mod judging;
mod listing;
mod phase;
mod run;
mod session;
mod staged;
mod trying;

pub use judging::Judging;
pub use listing::put_all_listed;
pub use run::run_judging;
pub use staged::graph_violations;
