ghost use Rattle.std.specs.Prelude.{◌≡◌, ◌++◌, flat_map, OnOk};
ghost use Rattle.pgs_differences.specs.Differences.{of_asked_label, of_label};

use crate::Difference;
use pgs_base::{Labels, Memory, Name};

// Puts last, of labels that are asked for, those that aren't there.
pub(crate) fn push_missing(
    asked: &[Name],
    labels: &Labels,
    found: &mut Vec<Difference>,
) -> Result<(), Memory>
    ensures { OnOk result (found.new.items ≡ found.old.items ++ flat_map (of_asked_label labels.now) asked.now) }
{
    for label in asked {
        if !labels.contains(label) {
            found.push(Difference::LacksLabel(label.share()?))?;
        }
    }
    Ok(())
}

// Puts last, of labels that are there, those that aren't asked for, unless more are free.
pub(crate) fn push_further(
    asked: &Labels,
    more: bool,
    labels: &[Name],
    found: &mut Vec<Difference>,
) -> Result<(), Memory>
    ensures { OnOk result (found.new.items ≡ found.old.items ++ flat_map (of_label more asked.now) labels.now) }
{
    for label in labels {
        if !more && !asked.contains(label) {
            found.push(Difference::FurtherLabel(label.share()?))?;
        }
    }
    Ok(())
}
