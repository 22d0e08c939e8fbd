//! What is told on standard error of feeds that were lost.

use crate::ending::ShownName;
use pgs_base::Words;
use pgs_feed::FeedList;
use pgs_world_files::FileFeed;
use pgs_world_streams::{Cause, SteadyWrite, tell};

// Tells that the feed of a word was lost, and why.
fn tell_lost<R: Eprint, W: SteadyWrite + Drop>(
    rt: &R,
    program: &str,
    word: &str,
    feed: &FileFeed<W>,
) {
    let cause = match feed.cause() {
        Some(cause) => cause.text(),
        None => Cause::Failed.text(),
    };
    tell(rt, program, ShownName { word, ending: "" }, cause);
}

/// Tells on standard error of each feed that was lost, a line each: its file's name, which is the word at its place behind the `first`, and
/// the cause.
pub fn tell_lost_feeds<R: Eprint, W: SteadyWrite + Drop>(
    rt: &R,
    program: &str,
    words: &Words,
    first: usize,
    feeds: &FeedList<FileFeed<W>>,
) {
    for place in first..words.len() {
        let Some(feed) = feeds.lost_feed(place - first) else {
            continue;
        };
        if let Some(word) = words.at(place) {
            tell_lost(rt, program, word, feed);
        }
    }
}
