use crate::{Feed, FeedFault};
use std::alloc::Allocator;

/// A call goes to the feed in the box.
impl<A: Allocator> Feed for Box<dyn Feed, A> {
    ghost taken = { λ boxed. (Feed-box boxed).taken boxed.value };

    ghost faults = { λ boxed. (Feed-box boxed).faults boxed.value };

    fn put(&mut self, piece: &[u8]) -> Result<(), FeedFault> {
        (**self).put(piece)
    }

    fn shown(&self) -> Option<&[u8]> {
        (**self).shown()
    }
}
