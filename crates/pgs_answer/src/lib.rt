//! What the program prints: the text of each refusal and violation, and each line that a run puts.
//!
//! The one rule: a call gives exactly the text that `specs/Refusals.antt` or `specs/Lines.antt` says, or there was no memory.
//! A call whose name ends in `_text` gives the number and the words, without a line feed; one whose name ends in `_line` gives a
//! whole line with its line feed. docs/FORMATS.md lists them with cause and cure. Each text is made in one buffer with room for it.
#![tactic(auto)]

mod contain_lines;
mod dump_lines;
mod feed_texts;
mod pieces;
mod rejection_texts;
mod run_lines;
mod schema_texts;
mod session_texts;
mod store_texts;
mod txn_lines;

pub use contain_lines::{contained_line, outside_line, second_refused_line};
pub use dump_lines::{
    absent_line, key_scope_line, key_value_line, schema_line, separator_line, type_line,
};
pub use feed_texts::{bad_commit_text, gap_text, line_too_long_at_text, not_a_commit_text};
pub use rejection_texts::{
    line_too_long_text, rejection_text, structural_text, unreadable_text, violation_text,
};
pub use run_lines::{
    checkpoint_line, committed_line, evolve_refused_line, evolved_line, feed_refused_line,
    feeds_lost_line, followed_line, gen_line, loaded_line, refused_line, schema_refused_line,
    store_refused_line, violation_line, words_refused_line,
};
pub use schema_texts::{
    bad_key_text, cycle_text, duplicate_text, kind_text, lex_text, no_graph_type_text, syntax_text,
    too_long_text, too_wide_text, unknown_text,
};
pub use session_texts::{
    already_open_text, no_event_text, no_session_text, stale_text, too_many_text,
};
pub use store_texts::{
    already_store_text, bad_history_text, bad_record_text, epochs_spent_text, foreign_text,
    no_store_text, old_format_text,
};
pub use txn_lines::{feed_line, txn_line};
