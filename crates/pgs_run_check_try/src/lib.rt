//! `try` and `apply` of the check: lines of transactions, each decided exactly as `try` and `apply` of the guard would, with the lines
//! accepted before it, from the empty graph under a schema text or on the saved store; nothing is kept. Behind each refusal stand its causes.
//!
//! The one rule: words are a command (`specs/Spec.antt`), whose causes are free as long as they are right (`specs/Right.antt`), and by which
//! `told_check_try` and `told_check_apply` (`specs/Told.antt`) say what is put. Since a machine over lines tells a function of its lines, the
//! machine that runs tells nothing (`deciding`), and its rule says that all which `explaining` tells with such causes was put
//! (`specs/Rule.antt`).
#![tactic(auto)]

mod causes;
mod explaining;
mod lines;
mod phase;
mod run;
mod session;

pub use run::{run_check_apply, run_check_try};
