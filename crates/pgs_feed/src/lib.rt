//! A list of feeds: each line is put into each feed that hasn't failed, and a feed that fails is lost and given no more.
//!
//! A list keeps feeds of one kind, which may be `Box<dyn Feed>`. Contracts see it by `places` of `specs/Seen.antt`: the places that it
//! gave, in order, each by what its feed took and by the feed's count of faults. `specs/Places.antt` says what each call does to them.
//! A run sees a list as `Feeds`: each line is given beside the run's world, so that contracts see which puts came before it
//! (`specs/Deliveries.antt`).
#![tactic(auto)]

mod feed_list;
mod feeds;
mod line;
mod slot;
mod visiting;

pub use feed_list::FeedList;
pub use feeds::Feeds;
use line::Line;
use slot::Slot;
use visiting::{Visit, visit_each};
