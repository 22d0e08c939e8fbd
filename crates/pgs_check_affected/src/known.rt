ghost use Rattle.std.specs.Prelude.{◌≡◌};
ghost use Rattle.std.specs.Option.{option_copied};
ghost use Rattle.pgs_check_affected.specs.Unseen.{is_one_value, value_of};

use pgs_base::{Elem, Name, Value};
use pgs_conform::Pair;

/// An element of a change, with what it carries in the old graph and in the new, where it is there, and whether it keeps its ends: an
/// edge does where it is in neither graph, or in both with the same source and the same target. A node has none, and keeps them.
#[derive(Drop)]
pub struct Known<'a> {
    pub elem: Elem,
    pub before: Option<Pair<'a>>,
    pub after: Option<Pair<'a>>,
    pub keeps_ends: bool,
}

impl<'a> Known<'a> {
    /// Whether a property is one in both rows, or absent from both, as it is where there is no row.
    pub fn keeps_value(&self, key: &Name) -> bool
        ensures { result ≡ is_one_value (value_of key.now self.now.before) (value_of key.now self.now.after) }
    {
        is_one_value(value_of(&self.before, key), value_of(&self.after, key))
    }
}

// The value at a key, where there is a row and it has the key.
fn value_of<'a>(own: &Option<Pair<'a>>, key: &Name) -> Option<&'a Value>
    ensures { option_copied result ≡ value_of key.now own.now }
{
    match own {
        Some(own) => own.props.get(key),
        None => None,
    }
}

// Whether a property is one in both rows, or absent from both.
fn is_one_value(value: Option<&Value>, other: Option<&Value>) -> bool
    ensures { result ≡ is_one_value (option_copied value.entry) (option_copied other.entry) }
{
    match (value, other) {
        (Some(value), Some(other)) => value.cmp(other).is_eq(),
        (None, None) => true,
        _ => false,
    }
}
