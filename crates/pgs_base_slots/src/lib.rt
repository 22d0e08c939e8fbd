//! Rows by ordered keys, in a tree of slots of which each holds a row or none.
//!
//! Only to make a slot takes memory, so that a change of several rows makes its slots first, which leaves all rows as they are, and then
//! puts rows in and takes rows out, which can't be refused. Contracts see the slots by ascending key; `present` of `specs/Slots.antt`
//! are the rows.
#![tactic(auto)]

mod slots;

pub use slots::Slots;
