ghost use Rattle.std.specs.Prelude.{◌≡◌};
ghost use Rattle.pgs_feed.specs.Places.{Delivers};
ghost use Rattle.pgs_feed.specs.Puts.{PutsOnce};
ghost use Rattle.pgs_feed.specs.Seen.{place_seen};

use crate::{Slot, Visit};
use pgs_world::Feed;

/// A line that is given to each slot in turn.
#[derive(Drop)]
pub struct Line<'a> {
    pub bytes: &'a [u8],
}

impl<'a, F: Feed> Visit<Slot<F>> for Line<'a> {
    ghost visited = { λ line before after now. (now ≡ line)
        × (Delivers line.bytes.now (place_seen F.taken F.faults before) (place_seen F.taken F.faults after)
        × PutsOnce F.put_made line.bytes.now before after) };

    fn visit(&mut self, slot: &mut Slot<F>) {
        slot.deliver(self.bytes)
    }
}
