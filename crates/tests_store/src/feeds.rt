//! Feeds side by side: one that fails is given no more, one that is dropped takes no more, and the others take every line at their places.

ghost use Rattle.std.specs.Prelude.{Some};

use pgs_base::{List, Memory};
use pgs_feed::FeedList;
use pgs_world::{Feed, FeedFault, MemFeed};
use std::alloc::Global;
use std::cell::Cell;
use std::rc::Rc;
use std::test::Fail;

/// Where a feed goes when it is dropped.
type Report = Rc<Cell<Option<MemFeed>>>;

/// A feed that reports what it took when it is dropped.
struct Reporting {
    feed: MemFeed,
    report: Report,
}

impl Drop for Reporting {
    fn drop(self) {
        let Reporting { feed, report } = self;
        report.set(Some(feed));
    }
}

impl Feed for Reporting {
    ghost taken = { λ reporting. Some reporting.feed.bytes };

    ghost faults = { λ reporting. reporting.feed.faults };

    fn put(&mut self, piece: &[u8]) -> Result<(), FeedFault> {
        self.feed.put(piece)
    }

    fn shown(&self) -> Option<&[u8]> {
        self.feed.shown()
    }
}

/// A feed that fails at the put of this number, counted from 1; 0 is none.
fn failing(alloc: Global, put: u64) -> Result<MemFeed, Memory> {
    let fail = List::from_slice(alloc, &[put])?;
    MemFeed::new(alloc, 65_536, fail)
}

/// Subscribes the feed, and gives its place.
fn subscribe<F: Feed>(feeds: &mut FeedList<F>, feed: F) -> Result<usize, Memory> {
    match feeds.subscribe(feed) {
        Ok(place) => Ok(place),
        Err((_feed, memory)) => Err(memory),
    }
}

/// Delivers a line, drops the feed at place 1, tries to drop it again, and delivers another line and an empty one: what the drops answered,
/// and how many feeds were lost after each line.
fn deliver<F: Feed>(feeds: &mut FeedList<F>) -> ([bool; 2], [u64; 3]) {
    feeds.deliver(b"x\n");
    let first = feeds.lost();
    let dropped = [feeds.unsubscribe(1), feeds.unsubscribe(1)];
    feeds.deliver(b"y\n");
    let second = feeds.lost();
    feeds.deliver(b"");
    (dropped, [first, second, feeds.lost()])
}

/// Whether the first and the last feed show both lines, that at place 1 nothing, and that at place 2 the first line.
fn shows<F: Feed>(feeds: &FeedList<F>) -> [bool; 4] {
    let both = Some(b"x\ny\n".as_slice());
    [
        feeds.shown(0) == both,
        feeds.shown(1) == None,
        feeds.shown(2) == Some(b"x\n".as_slice()),
        feeds.shown(3) == both,
    ]
}

/// Whether a feed was dropped, and took the first line alone.
fn took_first_line(report: &Report) -> bool {
    match report.take() {
        Some(feed) => feed.shown() == Some(b"x\n".as_slice()),
        None => false,
    }
}

/// What is seen of feeds: their places, what drops answered, how many were lost, what they show, and what was reported.
type Seen = ([usize; 4], ([bool; 2], [u64; 3]), [bool; 4], bool);

/// Four feeds, of which the second is dropped between two lines, and the third fails at its second line.
fn four_feeds(alloc: Global) -> Result<Seen, Memory> {
    let report = Rc::new(alloc, Cell::new(None))?;
    let second = Reporting {
        feed: failing(alloc, 0)?,
        report: report.clone()?,
    };
    let mut feeds: FeedList<Box<dyn Feed>> = FeedList::new(alloc);
    let places = [
        subscribe(&mut feeds, Box::new(alloc, failing(alloc, 0)?)?)?,
        subscribe(&mut feeds, Box::new(alloc, second)?)?,
        subscribe(&mut feeds, Box::new(alloc, failing(alloc, 2)?)?)?,
        subscribe(&mut feeds, Box::new(alloc, failing(alloc, 0)?)?)?,
    ];
    let answered = deliver(&mut feeds);
    let reported = took_first_line(&report);
    Ok((places, answered, shows(&feeds), reported))
}

#[test]
fn feeds_that_fail_or_are_dropped_take_no_more(rt: HostRuntime) -> Result<(), Fail> {
    let wanted = ([0, 1, 2, 3], ([true, false], [0, 1, 1]), [true; 4], true);
    assert_eq!(rt; four_feeds(rt.alloc())?, wanted);
    Ok(())
}
