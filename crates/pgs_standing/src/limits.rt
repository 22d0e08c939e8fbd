ghost use Rattle.std.specs.Prelude.{◌≡◌};
ghost use Rattle.pgs_contain.specs.Contained.{pair_in};
ghost use Rattle.pgs_standing.specs.Standing.{is_small};

use pgs_contain::OwnedPair;

/// The most labels of an element.
pub const MOST_LABELS: usize = 64;

/// The most properties of an element.
pub const MOST_PROPS: usize = 256;

/// Whether an element may carry so many labels and properties.
pub(crate) fn is_small(own: &OwnedPair) -> bool
    ensures { result ≡ is_small (pair_in own.now) }
{
    own.labels.len() <= MOST_LABELS && own.props.len() <= MOST_PROPS
}
