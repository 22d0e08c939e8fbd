use pgs_base::List;
use pgs_conform::{Shape, Triple};

/// What is asked of the pairs at places, which are numbered from 0: that at one place is in some of shapes, or those at three places
/// are in some of triples of shapes.
#[derive(Drop)]
pub enum Demand {
    One {
        place: usize,
        shapes: List<Shape>,
    },
    Three {
        source: usize,
        middle: usize,
        target: usize,
        triples: List<Triple>,
    },
}
