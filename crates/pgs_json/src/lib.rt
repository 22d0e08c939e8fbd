//! Transactions and lines of JSON, both ways: `read_txn` reads a line, `read_commit` a line of a feed, a `LineReader` many of them, and
//! `write_txn` writes the canonical text of a transaction.
//!
//! The one rule: a line is read exactly where its JSON value is of the form of a transaction, or of a commit, and only want of memory
//! keeps it from that. The form stands in `specs/Form.antt`, `specs/Line.antt` and `specs/Commit.antt`, the canonical text in `specs/Canonical.antt`, and a law says
//! that what is written is read again.
#![tactic(auto)]

mod canonical;
mod commit;
mod commit_fault;
mod json_op;
mod json_part;
mod kind;
mod laws;
mod line;
mod line_fault;
mod line_reader;
mod number;
mod numeral;
mod op_of_kind;
mod ordering;
mod room;
mod samples;
mod tree;
mod unread;

pub use canonical::{push_txn, write_txn};
pub use commit::{COMMIT_LIMIT, read_commit};
pub use commit_fault::CommitFault;
pub use json_part::{are_among, date};
pub use kind::{Kind, kind_in, kind_named};
pub use laws::{written_commit_is_read, written_is_read};
pub use line::read_txn;
pub use line_fault::LineFault;
pub use line_reader::LineReader;
pub use room::txn_room;
pub use samples::{
    canonical_texts, labels_in_another_order, lines_of_a_feed, lines_that_add, lines_that_change,
    lines_with_values, other_lines, texts_of_changes, written_and_read,
};
pub use tree::{Json, Member, member};
pub use unread::Unread;
