ghost use Rattle.std.specs.Prelude.{◌≡◌};
ghost use Rattle.std.specs.Int.{w64};
ghost use Rattle.pgs_codec.specs.Reading.{pair_at, many_at, number_at, name_at, labels_at, props_at, property_at, op_at};
ghost use Rattle.pgs_codec.specs.Unread.{Passes, end_of};

use crate::reader::Reader;
use crate::unread::Unfit;
use crate::walking::field::{walk_name, walk_number, walk_property};
use crate::walking::row::walk_row;

// A number, and what a node carries.
#[tactic(auto, using(crate::proofs::Walks::pair_end))]
fn walk_added_node(reader: &mut Reader<'_>) -> Result<(), Unfit>
    ensures { Passes result reader.new.rest.now (end_of (pair_at (number_at w64) (pair_at labels_at props_at) reader.old.rest.now)) }
{
    walk_number(reader)?;
    walk_row(reader)
}

// A number, two ends, and what an edge carries.
#[tactic(auto, using(crate::proofs::Walks::pair_end))]
fn walk_added_edge(reader: &mut Reader<'_>) -> Result<(), Unfit>
    ensures { Passes result reader.new.rest.now
        (end_of (pair_at (number_at w64) (pair_at (number_at w64) (pair_at (number_at w64) (pair_at labels_at props_at))) reader.old.rest.now)) }
{
    walk_number(reader)?;
    walk_number(reader)?;
    walk_number(reader)?;
    walk_row(reader)
}

// A number, and a property.
#[tactic(auto, using(crate::proofs::Walks::pair_end, crate::proofs::Walks::named_end))]
fn walk_set(reader: &mut Reader<'_>) -> Result<(), Unfit>
    ensures { Passes result reader.new.rest.now (end_of (pair_at (number_at w64) property_at reader.old.rest.now)) }
{
    walk_number(reader)?;
    walk_property(reader)?;
    Ok(())
}

// A number, and a name.
#[tactic(auto, using(crate::proofs::Walks::pair_end))]
fn walk_named(reader: &mut Reader<'_>) -> Result<(), Unfit>
    ensures { Passes result reader.new.rest.now (end_of (pair_at (number_at w64) name_at reader.old.rest.now)) }
{
    walk_number(reader)?;
    walk_name(reader)?;
    Ok(())
}

// An operation.
#[tactic(auto, unfolding(crate::specs::Reading::op_at, crate::specs::Reading::byte_at))]
fn walk_op(reader: &mut Reader<'_>) -> Result<(), Unfit>
    ensures { Passes result reader.new.rest.now (end_of (op_at reader.old.rest.now)) }
{
    match reader.byte()? {
        1 => walk_added_node(reader),
        2 => walk_added_edge(reader),
        3 | 4 | 5 => walk_number(reader),
        6 => walk_set(reader),
        7 | 8 | 9 => walk_named(reader),
        10 => walk_set(reader),
        11 | 12 | 13 => walk_named(reader),
        _ => Err(Unfit),
    }
}

/// So many operations.
pub(crate) fn walk_ops(reader: &mut Reader<'_>, count: u32) -> Result<(), Unfit>
    ensures { Passes result reader.new.rest.now (end_of (many_at op_at count reader.old.rest.now)) }
{
    for _ in 0..count {
        walk_op(reader)?;
    }
    Ok(())
}
