ghost use Rattle.std.specs.Prelude.{◌≡◌, ◌++◌, codes, flat_map, OnOk, IfOk};
ghost use Rattle.pgs_differences.specs.Texts.{kind_word, one_where, kinds_of, further_kind, kinds_text, difference_text, placed_text};

use crate::Difference;
use pgs_base::{Bytes, Kind, Memory, Name};
use pgs_base_text::TextBuffer;
use pgs_conform::Options;
use std::alloc::Global;

// Room for a text with two names.
const ROOM: usize = 192;

// The word of a kind.
fn kind_word(kind: Kind) -> &'static [u8]
    ensures { result.now ≡ kind_word kind }
{
    match kind {
        Kind::Text => b"STRING",
        Kind::Int => b"INT",
        Kind::Bool => b"BOOL",
        Kind::Date => b"DATE",
    }
}

// The kinds that may stand at a key.
fn kinds_of(alloc: Global, options: Options) -> Result<Vec<Kind>, Memory>
    ensures { IfOk result (λ kinds. kinds.items ≡ kinds_of options) }
{
    let mut kinds = Vec::new(alloc);
    push_kind(&mut kinds, Kind::Text, options.text)?;
    push_kind(&mut kinds, Kind::Int, options.int)?;
    push_kind(&mut kinds, Kind::Bool, options.boolean)?;
    push_kind(&mut kinds, Kind::Date, options.date)?;
    Ok(kinds)
}

// Puts a kind last, if it may stand there.
fn push_kind(kinds: &mut Vec<Kind>, kind: Kind, may: bool) -> Result<(), Memory>
    ensures { OnOk result (kinds.new.items ≡ kinds.old.items ++ one_where may kind) }
{
    if may {
        kinds.push(kind)?;
    }
    Ok(())
}

// Puts the kinds last that follow others.
fn push_further_kinds(text: &mut TextBuffer, kinds: &[Kind]) -> Result<(), Memory>
    ensures { OnOk result (text.new ≡ text.old ++ flat_map further_kind kinds.now) }
{
    for kind in kinds {
        text.push(b" or ")?;
        text.push(kind_word(*kind))?;
    }
    Ok(())
}

// Puts kinds last, with ` or ` between each two.
fn push_kinds(text: &mut TextBuffer, kinds: &[Kind]) -> Result<(), Memory>
    ensures { OnOk result (text.new ≡ text.old ++ kinds_text kinds.now) }
{
    match kinds {
        [] => Ok(()),
        [first, rest @ ..] => {
            text.push(kind_word(*first))?;
            push_further_kinds(text, rest)
        }
    }
}

// Puts the kinds last that may stand at a key.
fn push_options(alloc: Global, text: &mut TextBuffer, options: Options) -> Result<(), Memory>
    ensures { OnOk result (text.new ≡ text.old ++ kinds_text (kinds_of options)) }
{
    let kinds = kinds_of(alloc, options)?;
    push_kinds(text, kinds.as_slice())
}

// Puts last that a key is lacking at which these may stand.
fn push_lacking(
    alloc: Global,
    text: &mut TextBuffer,
    key: &Name,
    options: Options,
) -> Result<(), Memory>
    ensures { OnOk result (text.new ≡ text.old ++ (codes "lacks " ++ (key.now ++ (codes " " ++ kinds_text (kinds_of options))))) }
{
    text.push(b"lacks ")?;
    text.push(key.bytes())?;
    text.push(b" ")?;
    push_options(alloc, text, options)
}

// Puts last that a value is of a kind, and of which it may be.
fn push_other_kind(
    alloc: Global,
    text: &mut TextBuffer,
    key: &Name,
    kind: Kind,
    options: Options,
) -> Result<(), Memory>
    ensures { OnOk result (text.new
        ≡ text.old ++ (key.now ++ (codes " is " ++ (kind_word kind ++ (codes ", not " ++ kinds_text (kinds_of options)))))) }
{
    text.push(key.bytes())?;
    text.push(b" is ")?;
    text.push(kind_word(kind))?;
    text.push(b", not ")?;
    push_options(alloc, text, options)
}

// Puts last that a label or a key is not admitted.
fn push_further(text: &mut TextBuffer, before: &[u8], name: &Name) -> Result<(), Memory>
    ensures { OnOk result (text.new ≡ text.old ++ (before.now ++ (name.now ++ codes " is not admitted"))) }
{
    text.push(before)?;
    text.push(name.bytes())?;
    text.push(b" is not admitted")
}

// Puts a difference last.
fn push_difference(
    alloc: Global,
    text: &mut TextBuffer,
    difference: &Difference,
) -> Result<(), Memory>
    ensures { OnOk result (text.new ≡ text.old ++ difference_text difference.now) }
{
    match difference {
        Difference::LacksLabel(label) => {
            text.push(b"lacks label ")?;
            text.push(label.bytes())
        }
        Difference::FurtherLabel(label) => push_further(text, b"label ", label),
        Difference::LacksKey(key, options) => push_lacking(alloc, text, key, *options),
        Difference::OtherKind(key, kind, options) => {
            push_other_kind(alloc, text, key, *kind, *options)
        }
        Difference::FurtherKey(key) => push_further(text, b"", key),
    }
}

/// The text of a difference behind the word of the place where it is, as `source lacks label Person`. The words are in
/// `specs/Texts.antt`; `Memory` is free.
pub fn placed_text(alloc: Global, place: &[u8], difference: &Difference) -> Result<Bytes, Memory>
    ensures { IfOk result (λ text. text ≡ placed_text place.now difference.now) }
{
    let mut text = TextBuffer::with_room(alloc, ROOM)?;
    text.push(place)?;
    push_difference(alloc, &mut text, difference)?;
    Ok(text.into_bytes())
}
