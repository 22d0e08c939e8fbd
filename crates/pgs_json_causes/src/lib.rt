//! Why a line is no transaction: `line_cause` tells the one cause, in the words of docs/FORMATS.md.
//!
//! The one rule: of a line whose JSON is read the cause is `cause_of` of its value (`specs/Cause.antt`), by the tests of a line, of its
//! operations and of their members in one order, and there is one exactly where the value is no transaction. Of any other line it is the
//! byte at which the line stops being the front of a JSON text, which is tested and not proved.
#![tactic(auto)]

mod byte;
mod cause;
mod fault_place;
mod laws;
mod line;
mod member_cause;
mod member_form;
mod member_test;
mod numeral;
mod operation;
mod shown;
mod state;
mod text_state;
mod value_fault;

pub use laws::told_where_refused;
pub use line::line_cause;
