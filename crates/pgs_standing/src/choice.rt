//! Of two that were found, the one with fewer labels and properties.

ghost use Rattle.std.specs.Prelude.{◌≡◌, ◌||◌, Bool};
ghost use Rattle.pgs_base.specs.declared.row.NodeRow.{NodeRow};
ghost use Rattle.pgs_syntax.specs.Join.{PairTriple};
ghost use Rattle.pgs_contain.specs.Contained.{pair_in};
ghost use Rattle.pgs_contain.specs.Threes.{owned_triple};
ghost use Rattle.pgs_standing.specs.Example.{pair_size, triple_size, IsFoundPair, IsFoundTriple};

use pgs_contain::{OwnedPair, OwnedTriple};

// How many labels and properties a pair has. No sum of lengths wraps in 128 bits.
fn pair_size(own: &OwnedPair) -> u128
    ensures { result ≡ pair_size (pair_in own.now) }
{
    own.labels.len() as u128 + own.props.len() as u128
}

// How many labels and properties three pairs have.
fn triple_size(own: &OwnedTriple) -> u128
    ensures { result ≡ triple_size (owned_triple own.now) }
{
    let OwnedTriple {
        source,
        middle,
        target,
    } = own;
    let labels = source.labels.len() as u128
        + middle.labels.len() as u128
        + target.labels.len() as u128;
    let props = source.props.len() as u128
        + middle.props.len() as u128
        + target.props.len() as u128;
    labels + props
}

/// The smaller of two pairs that were found: what was found for one test or another.
pub(crate) fn smaller_pair(own: Option<OwnedPair>, other: Option<OwnedPair>) -> Option<OwnedPair>
    ensures { (f g : NodeRow → Bool) → IsFoundPair f own → IsFoundPair g other → IsFoundPair (λ p. f p || g p) result }
{
    let Some(first) = own else {
        return other;
    };
    let Some(second) = other else {
        return Some(first);
    };
    if pair_size(&second) < pair_size(&first) {
        Some(second)
    } else {
        Some(first)
    }
}

/// The smaller of two triples of pairs that were found.
pub(crate) fn smaller_triple(
    own: Option<OwnedTriple>,
    other: Option<OwnedTriple>,
) -> Option<OwnedTriple>
    ensures { (f g : PairTriple → Bool) → IsFoundTriple f own → IsFoundTriple g other → IsFoundTriple (λ t. f t || g t) result }
{
    let Some(first) = own else {
        return other;
    };
    let Some(second) = other else {
        return Some(first);
    };
    if triple_size(&second) < triple_size(&first) {
        Some(second)
    } else {
        Some(first)
    }
}
