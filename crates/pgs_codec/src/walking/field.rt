ghost use Rattle.std.specs.Prelude.{◌≡◌};
ghost use Rattle.std.specs.Int.{w64};
ghost use Rattle.pgs_codec.specs.Reading.{named_at, number_at, name_at, text_at, value_at, property_at};
ghost use Rattle.pgs_codec.specs.Unread.{Sees, Passes, end_of};

use crate::reader::Reader;
use crate::unread::Unfit;
use crate::value::{read_day, read_truth};
use pgs_base::{Name, Text};
use std::str;

/// A number of eight bytes, as nodes and edges have.
pub(crate) fn walk_number(reader: &mut Reader<'_>) -> Result<(), Unfit>
    ensures { Passes result reader.new.rest.now (end_of (number_at w64 reader.old.rest.now)) }
{
    reader.number64()?;
    Ok(())
}

/// A name, and its bytes.
#[tactic(auto, unfolding(crate::specs::Reading::name_at, crate::specs::Reading::name_bytes_at, crate::specs::Reading::tested_at))]
pub(crate) fn walk_name<'a>(reader: &mut Reader<'a>) -> Result<&'a [u8], Unfit>
    ensures { Sees (λ name. name.now) result reader.new.rest.now (name_at reader.old.rest.now) }
{
    let len = reader.byte()?;
    let bytes = reader.bytes(usize::from(len))?;
    if Name::is_name(bytes) {
        Ok(bytes)
    } else {
        Err(Unfit)
    }
}

/// A text.
#[tactic(auto, unfolding(crate::specs::Reading::text_at, crate::specs::Reading::text_bytes_at, crate::specs::Reading::tested_at))]
fn walk_text(reader: &mut Reader<'_>) -> Result<(), Unfit>
    ensures { Passes result reader.new.rest.now (end_of (text_at reader.old.rest.now)) }
{
    let len = reader.number16()?;
    let bytes = reader.bytes(usize::from(len))?;
    match str::from_utf8(bytes) {
        Ok(_) => Ok(()),
        Err(_) => Err(Unfit),
    }
}

/// A value.
#[tactic(auto, unfolding(crate::specs::Reading::value_at, crate::specs::Reading::named_at, crate::specs::Reading::byte_at))]
pub(crate) fn walk_value(reader: &mut Reader<'_>) -> Result<(), Unfit>
    ensures { Passes result reader.new.rest.now (end_of (value_at reader.old.rest.now)) }
{
    match reader.byte()? {
        1 => walk_text(reader),
        2 => walk_number(reader),
        3 => {
            read_truth(reader)?;
            Ok(())
        }
        4 => {
            read_day(reader)?;
            Ok(())
        }
        _ => Err(Unfit),
    }
}

/// A property, and the bytes of its name.
#[tactic(auto, unfolding(crate::specs::Reading::property_at, crate::specs::Reading::pair_at, crate::specs::Reading::named_at))]
pub(crate) fn walk_property<'a>(reader: &mut Reader<'a>) -> Result<&'a [u8], Unfit>
    ensures { Sees (λ name. name.now) result reader.new.rest.now (named_at (λ property. property.0) property_at reader.old.rest.now) }
{
    let name = walk_name(reader)?;
    walk_value(reader)?;
    Ok(name)
}
