ghost use Rattle.std.specs.Prelude.{⊤};
ghost use Rattle.pgs_feed.specs.Visits.{AreVisited};

/// What is done to each item of a list.
pub trait Visit<X> {
    /// What a visit did to the visitor and to the item. Code that is generic over visitors can't make such a fact up; so a chain of them, each
    /// from the visitor that the one before left, is in the order of the visits.
    ghost visited: { Self → X → X → Self → Type 0 } = { λ _ _ _ _. ⊤ };

    /// Visits an item.
    fn visit(&mut self, item: &mut X)
        ensures { visited self.old item.old item.new self.new };
}

/// Visits each item once, the first first.
pub fn visit_each<X, V: Visit<X>>(items: &mut Vec<X>, visitor: &mut V)
    ensures { AreVisited V.visited visitor.old items.old.items items.new.items visitor.new }
{
    for place in 0..items.len() {
        visitor.visit(&mut items[place]);
    }
}
