//! Does a pair lie in a shape? One walk over the names that the shape has and those of the pair, both ascending.

ghost use Rattle.std.specs.Prelude.{◌≡◌, ℕ, List, true};
ghost use Rattle.std.specs.Ordering.{nat_cmp};
ghost use Rattle.std.specs.Cmp.Lexicographic.{slice_cmp};
ghost use Rattle.std.specs.List.{list_all};
ghost use Rattle.std.specs.Map.{keys_of};
ghost use Rattle.pgs_base.specs.Order.{ascends};
ghost use Rattle.pgs_base.specs.Pair.{are_names};
ghost use Rattle.pgs_conform.specs.declared.options.Options.{Options};
ghost use Rattle.pgs_conform.specs.Shapes.{labels_meet, props_meet};

use crate::Options;
use pgs_base::{Name, Value};
use std::cmp::Ordering;

// How names go. Most that are compared are equal, and that is seen sooner than which is less.
fn order(name: &Name, other: &Name) -> Ordering
    ensures { result ≡ slice_cmp nat_cmp name.now other.now }
{
    if name == other {
        Ordering::Equal
    } else {
        name.cmp(other)
    }
}

// Whether labels are all of those that are asked for, and no further ones unless more are free.
pub(crate) fn labels_fit(asked: &[Name], more: bool, labels: &[Name]) -> bool
    requires asked { are_names asked.now ≡ true }
    requires labels { are_names labels.now ≡ true }
    ensures { result ≡ labels_meet asked.now more labels.now }
{
    let mut asked_left = asked;
    let mut left = labels;
    while let [first, later_asked @ ..] = asked_left {
        let [label, later @ ..] = left else {
            return false;
        };
        match order(first, label) {
            Ordering::Less => return false,
            Ordering::Equal => asked_left = later_asked,
            Ordering::Greater => {
                if !more {
                    return false;
                }
            }
        }
        left = later;
    }
    more || left.is_empty()
}

fn are_optional(keys: &[(Name, Options)]) -> bool
    ensures { result ≡ list_all (λ (key : List ℕ × Options). key.1.absent) keys.now }
{
    keys.iter().all(|key| key.1.absent)
}

// Whether properties have at each key what its options admit, and no further key unless more are free.
pub(crate) fn props_fit(keys: &[(Name, Options)], more: bool, props: &[(Name, Value)]) -> bool
    requires keys { ascends (slice_cmp nat_cmp) (keys_of keys.now) ≡ true }
    requires props { ascends (slice_cmp nat_cmp) (keys_of props.now) ≡ true }
    ensures { result ≡ props_meet keys.now more props.now }
{
    let mut keys_left = keys;
    let mut left = props;
    while let [key, later_keys @ ..] = keys_left {
        let [entry, later @ ..] = left else {
            return are_optional(keys_left);
        };
        match order(&key.0, &entry.0) {
            Ordering::Less => {
                if !key.1.absent {
                    return false;
                }
                keys_left = later_keys;
            }
            Ordering::Equal => {
                if !key.1.admits(entry.1.kind()) {
                    return false;
                }
                keys_left = later_keys;
                left = later;
            }
            Ordering::Greater => {
                if !more {
                    return false;
                }
                left = later;
            }
        }
    }
    more || left.is_empty()
}
