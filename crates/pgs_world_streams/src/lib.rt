//! The standard streams of a program: its input as a source, its output as pieces that are put whole, and a line on standard error; and
//! the words that it was started with.
//!
//! A program calls `StandardNumbers::take` before it opens anything: then no file of its own gets the number of a stream that was
//! closed. What a call on a stream answers is a fact of the call (`specs/Given.antt`), so what stands above invents no fault and
//! leaves out no write; what a terminal, a pipe or a file holds is told by no clause.
#![tactic(auto)]

mod cause;
mod command_line;
mod interruption;
mod standard_error;
mod standard_numbers;
mod stdin_source;
mod steady;
mod stream_causes;
mod whole;

pub use cause::Cause;
pub use command_line::program_words;
pub use interruption::{MOST_TRIES, is_tried_again};
pub use standard_error::{tell, tell_usage};
pub use standard_numbers::{OpensFolder, StandardNumbers, is_above_standard};
pub use stdin_source::StdinSource;
pub use steady::{SteadyRead, SteadyWrite};
pub use stream_causes::{StreamCauses, tell_memory, tell_too_long};
pub use whole::write_whole;
