//! Schema texts as trees: `parse` reads scripts from the lexer's tokens.
//!
//! The one rule: what is read is exactly what the grammar says, and only want of memory keeps a call from it.
//! The grammar is a relation, in `specs/Types.antt`, `specs/Keys.antt` and `specs/Statements.antt`, and `script_of` in
//! `specs/StatementReaders.antt` computes it; the laws in `laws` say that both agree, and `specs/Text.antt` what a text is.
#![tactic(auto)]

mod fault;
mod key_productions;
pub mod laws;
mod lists;
mod literal;
mod parser;
mod parsing;
mod qualifier;
pub mod samples;
mod statement_productions;
mod type_productions;
mod unread;

pub use fault::ParseFault;
pub use parsing::parse;
