//! Violations found one after the other, and put behind those found before.

ghost use Rattle.std.specs.Prelude.{◌≡◌, ◌++◌, OnOk};
ghost use Rattle.std.specs.Option.{option_to_list};

use pgs_base::Memory;
use pgs_violation::Violation;

/// Puts what was found last.
pub(crate) fn add(found: &mut Vec<Violation>, violation: Option<Violation>) -> Result<(), Memory>
    ensures { OnOk result (found.new.items ≡ found.old.items ++ option_to_list violation) }
{
    if let Some(violation) = violation {
        found.push(violation)?;
    }
    Ok(())
}
