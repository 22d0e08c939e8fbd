ghost use Rattle.std.specs.Prelude.{◌≡◌, ◌∷◌, ◌++◌, [], true, length, IsTrue, OnOk};
ghost use Rattle.std.specs.Int.{w16, w64, to_be_bytes};
ghost use Rattle.pgs_base.specs.Name.{is_name};
ghost use Rattle.pgs_base.specs.Value.{is_text, is_value};
ghost use Rattle.pgs_codec.specs.Encodable.{is_date};
ghost use Rattle.pgs_codec.specs.Payload.{name_field, text_field, day_field, value_field};
ghost use Rattle.pgs_codec.specs.Reading.{name_at, text_at, truth_at, day_at, value_at};
ghost use Rattle.pgs_codec.specs.Unread.{Reads, Sees};

use crate::field::Field;
use crate::reader::Reader;
use crate::unread::{Unfit, Unread};
use pgs_base::{Day, Memory, Name, Text, Value};
use std::alloc::Global;
use std::str;

impl Field for Name {
    ghost field = { name_field };

    ghost is_field = { is_name };

    ghost is_small = { λ _. true };

    ghost field_at = { name_at };

    fn size(&self) -> usize {
        self.bytes().len().saturating_add(1)
    }

    #[tactic(auto, unfolding(crate::specs::Reading::name_at, crate::specs::Reading::name_bytes_at, crate::specs::Reading::tested_at))]
    fn read(alloc: Global, reader: &mut Reader<'_>) -> Result<Name, Unread> {
        let len = reader.byte()?;
        let bytes = reader.bytes(usize::from(len))?;
        match Name::new(alloc, bytes)? {
            Some(name) => Ok(name),
            None => Err(Unread::Unfit),
        }
    }

    #[tactic(auto, using(crate::proofs::Lengths::name_length))]
    fn write(&self, out: &mut Vec<u8>) -> Result<(), Memory> {
        let bytes = self.bytes();
        out.push(bytes.len() as u8)?;
        out.extend_from_slice(bytes)?;
        Ok(())
    }
}

#[tactic(auto, unfolding(crate::specs::Reading::text_at, crate::specs::Reading::text_bytes_at, crate::specs::Reading::tested_at))]
fn read_text(alloc: Global, reader: &mut Reader<'_>) -> Result<Text, Unread>
    ensures { Reads (λ text. text) result reader.new.rest.now (text_at reader.old.rest.now) }
{
    let len = reader.number16()?;
    let bytes = reader.bytes(usize::from(len))?;
    let Ok(text) = str::from_utf8(bytes) else {
        return Err(Unread::Unfit);
    };
    match Text::new(alloc, text)? {
        Some(text) => Ok(text),
        None => Err(Unread::Unfit),
    }
}

#[tactic(auto, unfolding(crate::specs::Reading::truth_at, crate::specs::Reading::tested_at))]
pub(crate) fn read_truth(reader: &mut Reader<'_>) -> Result<u8, Unfit>
    ensures { Sees (λ truth. truth) result reader.new.rest.now (truth_at reader.old.rest.now) }
{
    let truth = reader.byte()?;
    if truth <= 1 { Ok(truth) } else { Err(Unfit) }
}

#[tactic(auto, unfolding(crate::specs::Reading::day_at, crate::specs::Reading::day_parts_at, crate::specs::Reading::tested_at, crate::specs::Reading::named_at, crate::specs::Reading::pair_at))]
pub(crate) fn read_day(reader: &mut Reader<'_>) -> Result<Day, Unfit>
    ensures { Sees (λ day. day) result reader.new.rest.now (day_at reader.old.rest.now) }
{
    let year = reader.number16()?;
    let month = reader.byte()?;
    let day = reader.byte()?;
    match Day::new(year, month, day) {
        Some(day) => Ok(day),
        None => Err(Unfit),
    }
}

// A byte for the kind, and bytes.
fn write_bytes(kind: u8, bytes: &[u8], out: &mut Vec<u8>) -> Result<(), Memory>
    ensures { OnOk result (out.new.items ≡ out.old.items ++ kind ∷ bytes.now) }
{
    out.push(kind)?;
    out.extend_from_slice(bytes)?;
    Ok(())
}

#[tactic(auto, using(crate::proofs::Lengths::text_fits))]
fn write_text(text: &Text, out: &mut Vec<u8>) -> Result<(), Memory>
    ensures bytes { OnOk result (out.new.items ≡ out.old.items ++ 1 ∷ text_field text.now) }
    ensures fit { OnOk result (IsTrue (is_text text.now)) }
{
    let text = text.text();
    write_bytes(1, &(text.len() as u16).to_be_bytes(), out)?;
    out.extend_from_slice(text.as_bytes())?;
    Ok(())
}

fn write_day(day: &Day, out: &mut Vec<u8>) -> Result<(), Memory>
    ensures bytes { OnOk result (out.new.items ≡ out.old.items ++ 4 ∷ day_field day.now) }
    ensures fit { OnOk result (IsTrue (is_date day.now)) }
{
    write_bytes(4, &day.year().to_be_bytes(), out)?;
    out.extend_from_slice(&[day.month(), day.day()])?;
    Ok(())
}

impl Field for Value {
    ghost field = { value_field };

    ghost is_field = { is_value };

    ghost is_small = { λ _. true };

    ghost field_at = { value_at };

    fn size(&self) -> usize {
        match self {
            Value::Text(text) => text.text().len().saturating_add(3),
            Value::Int(_) => 9,
            Value::Bool(_) => 2,
            Value::Date(_) => 5,
        }
    }

    #[tactic(auto, unfolding(crate::specs::Reading::value_at, crate::specs::Reading::named_at, crate::specs::Reading::byte_at))]
    fn read(alloc: Global, reader: &mut Reader<'_>) -> Result<Value, Unread> {
        match reader.byte()? {
            1 => Ok(Value::Text(read_text(alloc, reader)?)),
            2 => Ok(Value::Int(reader.number64()?.cast_signed())),
            3 => Ok(Value::Bool(read_truth(reader)? == 1)),
            4 => Ok(Value::Date(read_day(reader)?)),
            _ => Err(Unread::Unfit),
        }
    }

    fn write(&self, out: &mut Vec<u8>) -> Result<(), Memory> {
        match self {
            Value::Text(text) => write_text(text, out),
            Value::Int(number) => write_bytes(2, &number.to_be_bytes(), out),
            Value::Bool(truth) => write_bytes(3, &[u8::from(*truth)], out),
            Value::Date(day) => write_day(day, out),
        }
    }
}
