//! Do two pairs look the same to types?

ghost use Rattle.std.specs.Prelude.{◌≡◌};
ghost use Rattle.std.specs.Cmp.Lexicographic.{pointwise};
ghost use Rattle.pgs_base.specs.Value.{is_of_kind, kind_of};
ghost use Rattle.pgs_conform.specs.Kinds.{have_one_kind, looks_same};

use crate::Pair;
use pgs_base::{Name, Value};

// Whether two values are of one kind.
fn are_of_one_kind(value: &Value, other: &Value) -> bool
    ensures { result ≡ is_of_kind (kind_of other.now) value.now }
{
    value.kind() == other.kind()
}

// Whether two lists of properties have the same keys, in order, and values of one kind at each.
fn have_same_kinds(props: &[(Name, Value)], others: &[(Name, Value)]) -> bool
    ensures { result ≡ pointwise have_one_kind props.now others.now }
{
    let mut left = props;
    let mut others_left = others;
    while let [entry, later @ ..] = left {
        let [other, others_later @ ..] = others_left else {
            return false;
        };
        if entry.0 != other.0 || !are_of_one_kind(&entry.1, &other.1) {
            return false;
        }
        left = later;
        others_left = others_later;
    }
    others_left.is_empty()
}

/// Whether two pairs look the same to types: they have the same labels and the same keys, with values of one kind at each key. It
/// compares them name by name, and takes no memory. What that says of types is `laws::types_see_no_values`; the rule is `looks_same` in
/// `specs/Kinds.antt`.
pub fn looks_same(own: &Pair<'_>, other: &Pair<'_>) -> bool
    ensures { result ≡ looks_same own.now other.now }
{
    own.labels == other.labels && have_same_kinds(own.props.as_slice(), other.props.as_slice())
}
