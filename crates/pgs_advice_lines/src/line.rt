//! The lines of a check.

ghost use Rattle.std.specs.Prelude.{◌≡◌, ◌++◌, codes, decimal, IfOk, OnOk};
ghost use Rattle.pgs_advice_lines.specs.Lines.{mode_text, guard_line, type_line, never_line, key_line, never_reached_line, forbids_line, void_line, apart_line, nothing_line, unused_line, unused_graph_line, word_text, unknown_line};

use pgs_advice::Unknown;
use pgs_base::{Bytes, Memory, Name};
use pgs_base_text::TextBuffer;
use std::alloc::Global;

// Room for the words of a line, two names and two numbers.
const ROOM: usize = 192;

/// A line, and whether it warns of something: then the status is 1.
#[derive(Drop)]
pub struct Line {
    pub text: Bytes,
    pub warns: bool,
}

fn mode_text(strict: bool) -> &'static [u8]
    ensures { result.now ≡ mode_text strict }
{
    if strict { b" STRICT" } else { b" LOOSE" }
}

// Puts a text and a number behind it last.
fn push_count(line: &mut TextBuffer, name: &[u8], count: u64) -> Result<(), Memory>
    ensures { OnOk result (line.new ≡ line.old ++ (name.now ++ decimal count)) }
{
    line.push(name)?;
    line.push_number(count)
}

/// The line of the guard: its name and mode, and how many types and keys it has.
#[tactic(auto, unfolding(crate::specs::Lines::guard_line))]
pub(crate) fn guard_line(
    alloc: Global,
    name: &Name,
    strict: bool,
    types: u64,
    keys: u64,
) -> Result<Bytes, Memory>
    ensures { IfOk result (λ line. line ≡ guard_line name.now strict types keys) }
{
    let mut line = TextBuffer::with_room(alloc, ROOM)?;
    line.push(b"guard ")?;
    line.push(name.bytes())?;
    line.push(mode_text(strict))?;
    push_count(&mut line, b" types=", types)?;
    push_count(&mut line, b" keys=", keys)?;
    line.push(b"\n")?;
    Ok(line.into_bytes())
}

/// The line of a type, with the line of a transaction that adds an example of it.
#[tactic(auto, unfolding(crate::specs::Lines::type_line))]
pub fn type_line(alloc: Global, name: &Name, transaction: &[u8]) -> Result<Bytes, Memory>
    ensures { IfOk result (λ line. line ≡ type_line name.now transaction.now) }
{
    let mut line = TextBuffer::with_room(alloc, transaction.len().saturating_add(ROOM))?;
    line.push(b"type ")?;
    line.push(name.bytes())?;
    line.push(b" ")?;
    line.push(transaction)?;
    Ok(line.into_bytes())
}

// A line of a word and a name.
fn named_line(alloc: Global, word: &[u8], name: &Name) -> Result<Bytes, Memory>
    ensures { IfOk result (λ line. line ≡ word.now ++ (name.now ++ codes "\n")) }
{
    let mut line = TextBuffer::with_room(alloc, ROOM)?;
    line.push(word)?;
    line.push(name.bytes())?;
    line.push(b"\n")?;
    Ok(line.into_bytes())
}

/// The line of a type of which nothing can stand.
#[tactic(auto, unfolding(crate::specs::Lines::never_line))]
pub fn never_line(alloc: Global, name: &Name) -> Result<Bytes, Memory>
    ensures { IfOk result (λ line. line ≡ never_line name.now) }
{
    named_line(alloc, b"never ", name)
}

// A line of a word, a number and a text.
fn numbered_line(alloc: Global, word: &[u8], number: u64, text: &[u8]) -> Result<Bytes, Memory>
    ensures { IfOk result (λ line. line ≡ word.now ++ (decimal number ++ (codes " " ++ (text.now ++ codes "\n")))) }
{
    let mut line = TextBuffer::with_room(alloc, text.len().saturating_add(ROOM))?;
    push_count(&mut line, word, number)?;
    line.push(b" ")?;
    line.push(text)?;
    line.push(b"\n")?;
    Ok(line.into_bytes())
}

/// The line of a key: its number, from 1, and its text.
#[tactic(auto, unfolding(crate::specs::Lines::key_line))]
pub(crate) fn key_line(alloc: Global, number: u64, text: &[u8]) -> Result<Bytes, Memory>
    ensures { IfOk result (λ line. line ≡ key_line number text.now) }
{
    numbered_line(alloc, b"key ", number, text)
}

/// The line of a key that reaches nothing: of whose `scope` no graph has an element, or no `value` of one.
#[tactic(auto, unfolding(crate::specs::Lines::never_reached_line))]
pub(crate) fn never_reached_line(alloc: Global, number: u64, word: &[u8]) -> Result<Bytes, Memory>
    ensures { IfOk result (λ line. line ≡ never_reached_line number word.now) }
{
    numbered_line(alloc, b"never ", number, word)
}

/// The line of a key that forbids its scope.
#[tactic(auto, unfolding(crate::specs::Lines::forbids_line))]
pub(crate) fn forbids_line(alloc: Global, number: u64) -> Result<Bytes, Memory>
    ensures { IfOk result (λ line. line ≡ forbids_line number) }
{
    let mut line = TextBuffer::with_room(alloc, ROOM)?;
    push_count(&mut line, b"forbids ", number)?;
    line.push(b"\n")?;
    Ok(line.into_bytes())
}

/// The line of a qualifier of a key that no graph breaks.
#[tactic(auto, unfolding(crate::specs::Lines::void_line))]
pub(crate) fn void_line(alloc: Global, number: u64, word: &[u8]) -> Result<Bytes, Memory>
    ensures { IfOk result (λ line. line ≡ void_line number word.now) }
{
    numbered_line(alloc, b"void ", number, word)
}

/// The line of a subtype of a type that a key names, of which the key doesn't speak.
#[tactic(auto, unfolding(crate::specs::Lines::apart_line))]
pub(crate) fn apart_line(
    alloc: Global,
    number: u64,
    base: &[u8],
    own: &[u8],
) -> Result<Bytes, Memory>
    ensures { IfOk result (λ line. line ≡ apart_line number base.now own.now) }
{
    let mut line = TextBuffer::with_room(alloc, ROOM)?;
    push_count(&mut line, b"apart ", number)?;
    line.push(b" ")?;
    line.push(base)?;
    line.push(b" ")?;
    line.push(own)?;
    line.push(b"\n")?;
    Ok(line.into_bytes())
}

/// The line of a guard that lists types and asks nothing of them.
#[tactic(auto, unfolding(crate::specs::Lines::nothing_line))]
pub(crate) fn nothing_line(alloc: Global) -> Result<Bytes, Memory>
    ensures { IfOk result (λ line. line ≡ nothing_line) }
{
    Bytes::from_slice(alloc, b"guards nothing\n")
}

/// The line of an element type that the guard doesn't use.
#[tactic(auto, unfolding(crate::specs::Lines::unused_line))]
pub(crate) fn unused_line(alloc: Global, name: &Name) -> Result<Bytes, Memory>
    ensures { IfOk result (λ line. line ≡ unused_line name.now) }
{
    named_line(alloc, b"unused ", name)
}

/// The line of a graph type that the guard doesn't import.
#[tactic(auto, unfolding(crate::specs::Lines::unused_graph_line))]
pub(crate) fn unused_graph_line(alloc: Global, name: &Name) -> Result<Bytes, Memory>
    ensures { IfOk result (λ line. line ≡ unused_graph_line name.now) }
{
    named_line(alloc, b"unused graph ", name)
}

// A word that no type knows: a key has a point before it.
fn word_text(alloc: Global, word: &Unknown) -> Result<Bytes, Memory>
    ensures { IfOk result (λ text. text ≡ word_text word.now) }
{
    match word {
        Unknown::Label(label) => Bytes::from_slice(alloc, label.bytes()),
        Unknown::Key(key) => {
            let mut text = TextBuffer::with_room(alloc, ROOM)?;
            text.push(b".")?;
            text.push(key.bytes())?;
            Ok(text.into_bytes())
        }
    }
}

/// The line of a word of a key that no type knows.
#[tactic(auto, unfolding(crate::specs::Lines::unknown_line))]
pub(crate) fn unknown_line(alloc: Global, number: u64, word: &Unknown) -> Result<Bytes, Memory>
    ensures { IfOk result (λ line. line ≡ unknown_line number word.now) }
{
    let text = word_text(alloc, word)?;
    numbered_line(alloc, b"unknown ", number, text.as_slice())
}
