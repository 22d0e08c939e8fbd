//! A follower of a feed: it takes the bytes of a feed, however they are cut, and keeps the graph that their commits lead to.
//!
//! The one rule: what is followed is a function of all bytes taken, `followed` of `specs/Followed.antt`, and no cut, no repeat of a
//! line and no want of memory changes it. `Follower` stands for these bytes (`StandsFor`), and keeps the graph and one unfinished
//! line. `specs/Arranged.antt` says what is followed where all lines are those of commits that were accepted in order.
#![tactic(auto)]

mod fault;
mod follower;
mod laws;
mod progress;
mod samples;

pub use fault::FollowFault;
pub use follower::Follower;
pub use laws::{
    a_fault_stays, arranged_lines_lead_to_a_first_graph, the_unfinished_line_tells_the_rest,
};
pub use progress::Progress;
pub use samples::{
    a_gap, a_line_that_is_no_commit, a_repeated_line, a_transaction_that_cannot_be_done,
    an_unfinished_line,
};
