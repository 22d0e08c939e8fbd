ghost use Rattle.std.specs.Prelude.{◌≡◌, Some, false};
ghost use Rattle.std.specs.Option.{option_map};
ghost use Rattle.pgs_feed.specs.Places.{Delivers, dropped, has_feed, is_fed, taken_at};
ghost use Rattle.pgs_feed.specs.Puts.{PutsOnce};
ghost use Rattle.pgs_feed.specs.Seen.{lost_in, place_seen};

use pgs_world::Feed;

/// A place that was given: its feed, until it is dropped, and whether the feed failed.
#[derive(Drop)]
pub struct Slot<F> {
    pub feed: Option<F>,
    pub is_lost: bool,
}

impl<F: Feed> Slot<F> {
    /// The place of a feed that is to be fed.
    pub fn new(feed: F) -> Slot<F>
        ensures { result ≡ record { feed = Some feed; is_lost = false } }
    {
        Slot {
            feed: Some(feed),
            is_lost: false,
        }
    }

    /// What the feed took, where it tells it. `None` too where the feed was dropped.
    pub fn shown(&self) -> Option<&[u8]>
        ensures { option_map (λ bytes. bytes.now) result ≡ taken_at (place_seen F.taken F.faults self.now) }
    {
        self.feed.as_ref()?.shown()
    }

    /// Whether the feed is fed: it wasn't dropped and hasn't failed.
    pub fn is_fed(&self) -> bool
        ensures { result ≡ is_fed (place_seen F.taken F.faults self.now) }
    {
        !self.is_lost && self.feed.is_some()
    }

    /// The feed, where it failed and wasn't dropped.
    pub fn lost_feed(&self) -> Option<&F>
        ensures { option_map (λ feed. feed.now) result ≡ lost_in self.now }
    {
        if self.is_lost {
            return self.feed.as_ref();
        }
        None
    }

    /// Puts the line into the feed, by one put, unless it failed before or was dropped. It is lost exactly where this put fails.
    pub fn deliver(&mut self, line: &[u8])
        ensures delivers { Delivers line.now (place_seen F.taken F.faults self.old) (place_seen F.taken F.faults self.new) }
        ensures puts { PutsOnce F.put_made line.now self.old self.new }
    {
        if self.is_lost {
            return;
        }
        if let Some(feed) = &mut self.feed {
            self.is_lost = feed.put(line).is_err();
        }
    }

    /// Drops the feed. Says whether there was one.
    pub fn drop_feed(&mut self) -> bool
        ensures there { result ≡ has_feed (place_seen F.taken F.faults self.old) }
        ensures gone { place_seen F.taken F.faults self.new ≡ dropped (place_seen F.taken F.faults self.old) }
    {
        self.feed.take().is_some()
    }
}
