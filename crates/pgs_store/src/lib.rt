//! Deciding transactions on a graph under a schema, without a disk and with one.
//!
//! The one rule of a [`Guard`]: it takes exactly the transactions that `decide` of `pgs_violation` accepts, and after each answer its
//! graph conforms to its schema and is within its limits, and its index stands for it (`specs/State.antt`). A change is decided where it
//! is, by the index, within a bound of look-ups (`judging`, `specs/Costs.antt`); only the graph of a snapshot is judged from scratch.
//!
//! A [`Store`] is a guard with a journal. The one rule: a transaction is on the disk before it is in the graph, and what is saved in
//! both areas is always the guard's text, commits and graph (`specs/Stored.antt`). What its calls answer stands in `specs/Applies.antt`,
//! `specs/Loads.antt`, `specs/Recovers.antt`, `specs/Checkpoints.antt` and `specs/Evolves.antt`. A layer above prints the answers.
#![tactic(auto)]

mod applying;
mod checkpointing;
mod evolving;
mod explaining;
mod fault;
mod guard;
mod judging;
pub mod laws;
mod loading;
mod recovering;
mod store;

pub use fault::{ApplyFault, CheckpointFault, EvolveFault, GuardFault, LoadFault, RecoverFault};
pub use guard::Guard;
pub use pgs_decide::GuardRefusal;
pub use store::Store;
