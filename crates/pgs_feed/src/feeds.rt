ghost use Rattle.std.specs.Prelude.{◌≡◌, ℕ, [], List, ⊤};
ghost use Rattle.std.specs.List.{AllZip};
ghost use Rattle.pgs_feed.specs.Places.{Delivers, Place, fed_count, lost_count};
ghost use Rattle.pgs_feed.specs.Puts.{PutsOnceEach};
ghost use Rattle.pgs_feed.specs.Seen.{places};

use crate::FeedList;
use pgs_world::{Feed, World};
use std::alloc::Global;

/// A list of feeds, as a run sees it: each line is given beside the world of the run.
pub trait Feeds: Drop {
    /// The places that the list gave, in order.
    ghost places: { Self → List Place };

    /// A line was given to the list while a world had answered so many puts with Ok. Code that is generic over lists can't make such a
    /// fact up, so what a contract says by it is said of the deliveries themselves and of their order among the puts, whatever a list takes
    /// it to be.
    ghost delivered: { Self → (line : List ℕ) → (puts : ℕ) → Self → Type 0 } = { λ _ _ _ _. ⊤ };

    /// No feeds. It takes no memory.
    fn none(alloc: Global) -> Self
        ensures { places result ≡ [] };

    /// Gives the line to each feed that hasn't failed, while the world stands as it does. A feed that fails is lost.
    fn give<W: World>(&mut self, world: &W, line: &[u8])
        ensures delivers { AllZip (Delivers line.now) (places self.old) (places self.new) }
        ensures delivered { delivered self.old line.now (W.view world.now).puts self.new };

    /// How many feeds failed.
    fn count_lost(&self) -> u64
        ensures { result ≡ lost_count (places self.now) };

    /// How many feeds are there that haven't failed.
    fn count_fed(&self) -> u64
        ensures { result ≡ fed_count (places self.now) };
}

impl<F: Feed> Feeds for FeedList<F> {
    ghost places = { λ list. places F.taken F.faults list };

    /// Each feed that hasn't failed gets one put, of the whole line, and no other gets one.
    ghost delivered = { λ old line puts new. PutsOnceEach F.put_made line old new };

    fn none(alloc: Global) -> FeedList<F> {
        FeedList::new(alloc)
    }

    fn give<W: World>(&mut self, _world: &W, line: &[u8]) {
        self.deliver(line)
    }

    fn count_lost(&self) -> u64 {
        self.lost()
    }

    fn count_fed(&self) -> u64 {
        self.fed()
    }
}
