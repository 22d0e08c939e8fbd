//! What the commands share of their inputs: an input that is one text, the schema part of an input, and what a schema text and the lines
//! of transactions are answered.
//!
//! The one rule: `specs/Answers.antt` says what a text and a line give, and `specs/Session.antt` what lines tell one after another, by
//! the verdicts on graphs. Each command is a crate above, which tells what it does in these words.
#![tactic(auto)]

mod lines;
mod schema_answer;
mod schema_part;
mod text;
mod text_fault;
mod txn_answer;
mod txn_reader;

pub use lines::is_separator;
pub use schema_answer::{fault_of, refusal_of, refused_line, schema_of};
pub use schema_part::SchemaPart;
pub use text::read_text;
pub use text_fault::TextFault;
pub use txn_answer::txn_of;
pub use txn_reader::TxnReader;
