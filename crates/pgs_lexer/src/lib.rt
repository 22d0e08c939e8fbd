//! The cut of a schema text into tokens: words, quoted names, numbers, strings and signs, each with its place.
//!
//! The one rule: a text is cut from the left, each time by the longest item that begins at the place.
//! The forms of items stand in `specs/Form.antt`, the items found by their first bytes in `specs/Scan.antt`, and the
//! cut and its tokens in `specs/Cut.antt`; the laws `longest_item` and `one_cut` say that these agree.
//! The layer above reads `Tokens`, which contracts see as the list of its tokens, and `tokens_of`, which computes it.
#![tactic(auto)]

mod comment;
mod cut;
mod fault;
mod item;
mod keyword;
mod kind;
mod laws;
mod number;
mod quoted;
mod sign;
mod space;
mod string_item;
mod token;
mod word;

pub use cut::lex;
pub use fault::LexFault;
pub use kind::TokenKind;
pub use laws::{longest_item, one_cut};
pub use token::{Token, Tokens};
