//! The commands that write a whole area anew: `load`, `checkpoint` and `evolve`.
//!
//! The one rule of each: what is put and answered is what its definition tells (`told_load`, `told_checkpoint` and `told_evolve`, in
//! `specs/LoadTold.antt`, `specs/CheckpointTold.antt` and `specs/EvolveTold.antt`). The line of what is done is made before anything is
//! written, and put behind it: where the whole line is in the output, the store is as it says. `pgs_run` calls each where the words name
//! the command.
//!
//! `load`: the whole input is a schema, of which the empty store is made in area A with epoch 1. The text is judged first, and then the
//! two areas. The input is read by `read_text` of `pgs_run_input`, which keeps no more of it than a schema text may have and one byte.
//!
//! `checkpoint`: what is saved is saved again in the other area, with the next epoch, by the schema's text and a snapshot alone. What is
//! saved is the same at every moment (`specs/CheckpointLeaving.antt`).
//!
//! `evolve`: the whole input is a schema's text, and the store that is saved is put under it where its graph conforms. The areas are
//! judged first, then the input is taken whole, and then its text is judged. At every moment what is saved is the store as it was or
//! under the new text (`specs/Evolving.antt`, `specs/EvolveLeaving.antt`).
#![tactic(auto)]

mod checkpoint_run;
mod evolve_lines;
mod evolve_run;
mod evolving;
mod load_lines;
mod load_run;
mod loading;

pub use checkpoint_run::run_checkpoint;
pub use evolve_lines::old_format_line;
pub use evolve_run::run_evolve;
pub use load_run::run_load;
