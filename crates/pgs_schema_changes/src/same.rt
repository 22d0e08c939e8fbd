//! Whether two names, and two values, are one.

ghost use Rattle.std.specs.Prelude.{◌≡◌};
ghost use Rattle.pgs_base.specs.Pair.{same_name};
ghost use Rattle.pgs_syntax.specs.Matches.{same_value};

use pgs_base::{Name, Value};

/// Whether two names are one.
pub(crate) fn same_name(first: &Name, second: &Name) -> bool
    ensures { result ≡ same_name first.now second.now }
{
    first.cmp(second).is_eq()
}

/// Whether two values are one.
pub(crate) fn same_value(first: &Value, second: &Value) -> bool
    ensures { result ≡ same_value first.now second.now }
{
    first.cmp(second).is_eq()
}
