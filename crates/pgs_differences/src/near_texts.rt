ghost use Rattle.std.specs.Prelude.{◌≡◌, ◌++◌, map, flat_map, OnOk, IfOk};
ghost use Rattle.pgs_differences.specs.Texts.{placed_text, own_place, difference_texts, further_text, separated, near_type_text};

use crate::texts::placed_text;
use crate::{Difference, NearType};
use pgs_base::{Bytes, Memory, Name};
use pgs_base_text::TextBuffer;
use pgs_syntax::TypeNo;
use std::alloc::Global;

// Room for a name and a few differences.
const ROOM: usize = 512;

// The word of an element's own place.
fn own_place(type_no: TypeNo) -> &'static [u8]
    ensures { result.now ≡ own_place type_no }
{
    match type_no {
        TypeNo::Node(_) => b"",
        TypeNo::Edge(_) => b"edge ",
    }
}

// Puts the texts of differences last, each behind the word of its place.
fn push_placed_texts(
    alloc: Global,
    place: &[u8],
    differences: &[Difference],
    texts: &mut Vec<Bytes>,
) -> Result<(), Memory>
    ensures { OnOk result (texts.new.items ≡ texts.old.items ++ map (placed_text place.now) differences.now) }
{
    for difference in differences {
        texts.push(placed_text(alloc, place, difference)?)?;
    }
    Ok(())
}

// The texts of a type's differences.
#[tactic(auto, unfolding(crate::specs::Texts::difference_texts))]
fn difference_texts(alloc: Global, near: &NearType) -> Result<Vec<Bytes>, Memory>
    ensures { IfOk result (λ texts. texts.items ≡ difference_texts near.now) }
{
    let mut texts = Vec::new(alloc);
    push_placed_texts(alloc, b"source ", near.source.as_slice(), &mut texts)?;
    push_placed_texts(
        alloc,
        own_place(near.type_no),
        near.own.as_slice(),
        &mut texts,
    )?;
    push_placed_texts(alloc, b"target ", near.target.as_slice(), &mut texts)?;
    Ok(texts)
}

// Puts the texts last that follow others.
fn push_further_texts(line: &mut TextBuffer, texts: &[Bytes]) -> Result<(), Memory>
    ensures { OnOk result (line.new ≡ line.old ++ flat_map further_text texts.now) }
{
    for text in texts {
        line.push(b"; ")?;
        line.push(text.as_slice())?;
    }
    Ok(())
}

// Puts texts last, with `; ` between each two.
fn push_separated(line: &mut TextBuffer, texts: &[Bytes]) -> Result<(), Memory>
    ensures { OnOk result (line.new ≡ line.old ++ separated texts.now) }
{
    match texts {
        [] => Ok(()),
        [first, rest @ ..] => {
            line.push(first.as_slice())?;
            push_further_texts(line, rest)
        }
    }
}

/// The text of a type of this name with its differences, as `Person: lacks label Person; age is STRING, not INT`; of an edge type
/// each behind `source`, `edge` or `target`. The words are in `specs/Texts.antt`; `Memory` is free.
#[tactic(auto, unfolding(crate::specs::Texts::near_type_text))]
pub fn near_type_text(alloc: Global, name: &Name, near: &NearType) -> Result<Bytes, Memory>
    ensures { IfOk result (λ text. text ≡ near_type_text name.now near.now) }
{
    let texts = difference_texts(alloc, near)?;
    let mut line = TextBuffer::with_room(alloc, ROOM)?;
    line.push(name.bytes())?;
    line.push(b": ")?;
    push_separated(&mut line, texts.as_slice())?;
    Ok(line.into_bytes())
}
