//! Printed texts: bytes that are written one after another, and how numbers, names, strings, days and tuples are printed.
//!
//! The one rule: a buffer holds what was pushed, in order. The texts stand in `specs/Text.antt`, in the words of docs/FORMATS.md.
//! A layer above makes a buffer with room for its line, pushes the pieces and takes the bytes, so that a line costs one growth.
#![tactic(auto)]

mod quoted;
mod text_buffer;
mod tuple;

pub use text_buffer::TextBuffer;
