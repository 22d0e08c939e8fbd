ghost use Rattle.std.specs.Prelude.{◌≡◌, None};
ghost use Rattle.std.specs.Ordering.{nat_cmp};
ghost use Rattle.std.specs.Cmp.Lexicographic.{slice_cmp};
ghost use Rattle.std.specs.Option.{option_map};
ghost use Rattle.pgs_base.specs.Order.{ascends};
ghost use Rattle.pgs_codec.specs.Reading.{pair_at, named_at, tested_at, many_at, name_at, labels_at, property_at, props_at};
ghost use Rattle.pgs_codec.specs.Unread.{Passes, end_of};
ghost use Rattle.pgs_codec.specs.Walking.{is_after};

use crate::reader::Reader;
use crate::unread::Unfit;
use crate::walking::field::{walk_name, walk_property};

// Whether a name comes after the one before it, where there is one.
fn is_after(before: Option<&[u8]>, name: &[u8]) -> bool
    ensures { result ≡ is_after (slice_cmp nat_cmp) (option_map (λ before. before.now) before.entry) name.now }
{
    match before {
        Some(before) => before.cmp(name).is_lt(),
        None => true,
    }
}

// So many names that ascend strictly.
fn walk_names(reader: &mut Reader<'_>, count: u16) -> Result<(), Unfit>
    ensures { Passes result reader.new.rest.now (end_of (tested_at (ascends (slice_cmp nat_cmp)) (many_at name_at count) reader.old.rest.now)) }
{
    let mut before: Option<&[u8]> = None;
    for _ in 0..count {
        let name = walk_name(reader)?;
        if !is_after(before, name) {
            return Err(Unfit);
        }
        before = Some(name);
    }
    Ok(())
}

// So many properties whose names ascend strictly.
fn walk_properties(reader: &mut Reader<'_>, count: u16) -> Result<(), Unfit>
    ensures { Passes result reader.new.rest.now
        (end_of (tested_at (ascends (slice_cmp nat_cmp)) (many_at (named_at (λ property. property.0) property_at) count) reader.old.rest.now)) }
{
    let mut before: Option<&[u8]> = None;
    for _ in 0..count {
        let name = walk_property(reader)?;
        if !is_after(before, name) {
            return Err(Unfit);
        }
        before = Some(name);
    }
    Ok(())
}

#[tactic(auto, unfolding(crate::specs::Reading::labels_at, crate::specs::Reading::counted_at, crate::specs::Reading::tested_at))]
fn walk_labels(reader: &mut Reader<'_>) -> Result<(), Unfit>
    ensures { Passes result reader.new.rest.now (end_of (labels_at reader.old.rest.now)) }
{
    let count = reader.number16()?;
    if count > 64 {
        return Err(Unfit);
    }
    walk_names(reader, count)
}

#[tactic(auto, unfolding(crate::specs::Reading::props_at, crate::specs::Reading::counted_at, crate::specs::Reading::tested_at))]
fn walk_props(reader: &mut Reader<'_>) -> Result<(), Unfit>
    ensures { Passes result reader.new.rest.now (end_of (props_at reader.old.rest.now)) }
{
    let count = reader.number16()?;
    if count > 256 {
        return Err(Unfit);
    }
    walk_properties(reader, count)
}

/// What an element carries: the labels and the properties.
#[tactic(auto, using(crate::proofs::Walks::pair_end))]
pub(crate) fn walk_row(reader: &mut Reader<'_>) -> Result<(), Unfit>
    ensures { Passes result reader.new.rest.now (end_of (pair_at labels_at props_at reader.old.rest.now)) }
{
    walk_labels(reader)?;
    walk_props(reader)
}
