//! What several runs say together: what `recover` tells of a saved store is read back by `validate`, runs over one world add up, and go on
//! from what a crash inside a run left. And what `contain` answers to two schemas holds of all graphs.
//!
//! The one rule: a dump is an input whose transactions are accepted one by one, and make the graph that is saved. Nothing runs here;
//! the statements are the contracts of `laws`, over what commands tell and what is promised of a run (`Promise`).
#![tactic(auto)]

mod laws;

pub use laws::{
    a_crash_in_load_leaves_all_or_nothing, a_crash_leaves_a_front, a_dump_is_one_transaction,
    a_dump_is_read_back, a_dump_is_validated, no_dashes, runs_add_up, what_is_contained_is_kept,
};
