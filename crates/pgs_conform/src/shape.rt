ghost use Rattle.std.specs.Prelude.{◌≡◌, true};
ghost use Rattle.std.specs.Ordering.{nat_cmp};
ghost use Rattle.std.specs.Cmp.Lexicographic.{slice_cmp};
ghost use Rattle.std.specs.Map.{keys_of};
ghost use Rattle.pgs_base.specs.Order.{ascends};

use crate::Options;
use pgs_base::{Labels, List, Name};

/// A set of pairs of labels and properties. A pair is in it where it has all of `labels`, and no further one unless
/// `more_labels`; at each key of `keys` it has what the options admit; and it has no further key unless `more_keys`. The keys ascend
/// strictly. The rule stands in `specs/Shapes.antt`, as `in_shape`.
#[derive(Drop)]
pub struct Shape {
    pub labels: Labels,
    pub more_labels: bool,
    pub keys: List<(Name, Options)>,
    pub more_keys: bool,
    pub ghost ascending: { ascends (slice_cmp nat_cmp) (keys_of keys) ≡ true },
}

/// A set of triples of pairs: of an edge's source, of the edge itself, and of its target, each in its shape.
#[derive(Drop)]
pub struct Triple {
    pub source: Shape,
    pub middle: Shape,
    pub target: Shape,
}
