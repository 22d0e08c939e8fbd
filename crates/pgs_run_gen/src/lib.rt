//! The run of the command `gen`: the transactions that `pgs_gen` makes from a number are decided by a guard, and a line says what came
//! of them.
//!
//! The one rule: what is put and answered is what `told_gen` tells (`specs/Told.antt`): the decisions of `pgs_violation` on the
//! transactions of `specs/Workload.antt`, under the schema of the workload's own text (`specs/Persons.antt`). All of them are accepted
//! (`laws`). Nothing is read, and no area is used. `pgs_run` calls `run_gen` where the words name the command.
#![tactic(auto)]

mod deciding;
mod laws;
mod running;
mod summary;

pub use laws::{a_workload_has_a_schema, a_workload_is_accepted};
pub use running::run_gen;
