//! A run over lines, proved once for every command: reading within a budget, the cut into lines, pieces and endings.
//!
//! A command is a machine (`specs/Machine.antt`): what an ended line, the end of the input and the end of the budget do.
//! `told_by` says on whole lines what it tells, and `run_lines` shows exactly that, whatever the cut into reads; the relation on
//! scenes that the machine's rule allows holds over the whole run. Nothing here knows a command or a status of the program.
//!
//! Pieces of output that are made one by one, each put as soon as it is made, go by `put_made`: `Puts` (`specs/Puts.antt`) says what a
//! world shows of them, all or some first ones, and goes on from call to call (`proofs/Together.antt`). The one line of a run that is
//! put last, with its status, goes by `put_reply`: `EndsReply` (`specs/Replies.antt`) says what comes of it.
#![tactic(auto)]

mod budget;
mod driving;
mod line_buffer;
mod lines;
mod putting;
mod reading;
mod reply;
mod run;
mod stop;
mod taker;
mod telling;

pub use budget::BUDGET;
pub use line_buffer::LineBuffer;
pub use lines::{is_blank, line_end};
pub use putting::{put_any, put_made, put_piece, put_pieces};
pub use reading::{read_buffer, read_some};
pub use reply::{Reply, RunStatus, put_last, put_reply};
pub use run::run_lines;
pub use stop::Stop;
pub use taker::LineTaker;
pub use telling::{LineTeller, Telling};
