//! A JSON value as a tree whose texts are borrowed, which is read in one pass over the tokens of a text.

ghost use Rattle.std.specs.Prelude.{◌≡◌, ◌<◌, length, Some, None, Err, IfOk, OnOk, option_map, option_and_then};
ghost use Rattle.json.specs.Json.{value, items, members};
ghost use Rattle.serde_json.specs.Data.{no_members};
ghost use Rattle.serde_json.specs.Find.{as_u64, as_number, as_str, as_array, as_object, get_member, get};
ghost use Rattle.serde_json.specs.Read.{read as read_text, of_json, of_items, of_members, converted};
ghost use Rattle.pgs_json.specs.Tree.{view, items_view, members_view, of_pairs};
ghost use Rattle.pgs_json.specs.Unread.{Gives};
ghost use Rattle.pgs_json.specs.declared.unread.Unread.TheVariants as unread;

use crate::numeral::number;
use crate::ordering::in_order;
use crate::unread::Unread;
use json::{Reader, Scratch, Token};
use serde_json::Number;
use std::alloc::Global;

/// How deep arrays and objects may nest.
const DEEPEST: usize = 127;

/// A member of an object: its name and its value.
pub type Member<'a> = (&'a str, Json<'a>);

/// A JSON value. The members of an object stand in the order of their names, and each name stands once.
#[derive(Drop)]
pub enum Json<'a> {
    Null,
    Bool(bool),
    Number(Number),
    String(&'a str),
    Array(Vec<Json<'a>>),
    Object(Vec<Member<'a>>),
}

impl<'a> Json<'a> {
    /// The value of a text.
    pub fn from_str(
        alloc: Global,
        text: &'a str,
        scratch: &'a mut Scratch,
    ) -> Result<Json<'a>, Unread>
        ensures { Gives view result (read_text text.now) }
    {
        let Ok(mut reader) = Reader::new(text, scratch) else {
            return Err(Unread::Memory);
        };
        let value = read(alloc, &mut reader, DEEPEST)?;
        if reader.next().is_some() {
            return Err(Unread::Unfit);
        }
        Ok(value)
    }

    /// The whole number from 0 to 2^64 - 1 that this is.
    pub fn as_u64(&self) -> Option<u64>
        ensures { result ≡ option_and_then as_u64 (as_number (view self.now)) }
    {
        match self {
            Json::Number(number) => number.as_u64(),
            _ => None,
        }
    }

    /// The text that this is.
    pub fn as_str(&self) -> Option<&'a str>
        ensures { option_map (λ text. text.now) result ≡ as_str (view self.now) }
    {
        match self {
            Json::String(text) => Some(*text),
            _ => None,
        }
    }

    /// The items of the array that this is.
    pub fn as_array(&self) -> Option<&[Json<'a>]>
        ensures { option_map (λ found. items_view found.now) result ≡ as_array (view self.now) }
    {
        match self {
            Json::Array(found) => Some(found.as_slice()),
            _ => None,
        }
    }

    /// The members of the object that this is.
    pub fn as_object(&self) -> Option<&[Member<'a>]>
        ensures { option_map (λ found. members_view found.now) result ≡ as_object (view self.now) }
    {
        match self {
            Json::Object(found) => Some(found.as_slice()),
            _ => None,
        }
    }

    /// The member with this name, where this is an object.
    pub fn get(&self, name: &str) -> Option<&Json<'a>>
        ensures { option_map (λ found. view found.now) result ≡ get name.now (view self.now) }
    {
        match self {
            Json::Object(found) => member(found.as_slice(), name),
            _ => None,
        }
    }
}

/// The member with this name.
pub fn member<'m, 'a>(members: &'m [Member<'a>], name: &str) -> Option<&'m Json<'a>>
    ensures { option_map (λ found. view found.now) result ≡ get_member name.now (members_view members.now) }
{
    for (found, part) in members {
        if name == *found {
            return Some(part);
        }
    }
    None
}

#[cycle(read)]
#[inline(always)]
fn read<'a>(alloc: Global, reader: &mut Reader<'a>, depth: usize) -> Result<Json<'a>, Unread>
    ensures ok { IfOk result (λ found. converted of_json (value depth reader.old) ≡ Some (view found, reader.new)) }
    ensures shorter { OnOk result (length reader.new < length reader.old) }
    ensures unfit { result ≡ Err unread.Unfit → converted of_json (value depth reader.old) ≡ None }
{
    let token = reader.next().ok_or(Unread::Unfit)?;
    match token {
        Token::String(text) => Ok(Json::String(text)),
        Token::Number(text) => match number(text) {
            Some(number) => Ok(Json::Number(number)),
            None => Err(Unread::Unfit),
        },
        Token::Bool(truth) => Ok(Json::Bool(truth)),
        Token::Null => Ok(Json::Null),
        Token::EndObject | Token::EndArray | Token::Key(_) | Token::Bad => Err(Unread::Unfit),
        Token::BeginArray => {
            if depth == 0 {
                return Err(Unread::Unfit);
            }
            Ok(Json::Array(read_items(alloc, reader, depth - 1)?))
        }
        Token::BeginObject => {
            if depth == 0 {
                return Err(Unread::Unfit);
            }
            Ok(Json::Object(read_members(alloc, reader, depth - 1)?))
        }
    }
}

#[cycle(read)]
#[inline(never)]
fn read_items<'a>(
    alloc: Global,
    reader: &mut Reader<'a>,
    depth: usize,
) -> Result<Vec<Json<'a>>, Unread>
    ensures ok { IfOk result (λ found. converted of_items (items (value depth) (length reader.old) reader.old)
        ≡ Some (items_view found.items, reader.new)) }
    ensures shorter { OnOk result (length reader.new < length reader.old) }
    ensures unfit { result ≡ Err unread.Unfit → converted of_items (items (value depth) (length reader.old) reader.old) ≡ None }
{
    let mut found = Vec::new(alloc);
    'items: while !reader.take_end_array() {
        let item = read(alloc, reader, depth)?;
        found.push(item)?;
    }
    Ok(found)
}

#[cycle(read)]
#[inline(never)]
fn read_pairs<'a>(
    alloc: Global,
    reader: &mut Reader<'a>,
    depth: usize,
) -> Result<Vec<Member<'a>>, Unread>
    ensures ok { IfOk result (λ found. converted of_pairs (members (value depth) (length reader.old) reader.old)
        ≡ Some (members_view found.items, reader.new)) }
    ensures shorter { OnOk result (length reader.new < length reader.old) }
    ensures unfit { result ≡ Err unread.Unfit → converted of_pairs (members (value depth) (length reader.old) reader.old) ≡ None }
{
    let mut found = Vec::new(alloc);
    'members: while let Some(name) = reader.next_key()? {
        let part = read(alloc, reader, depth)?;
        found.push((name, part))?;
    }
    Ok(found)
}

#[cycle(read)]
fn read_members<'a>(
    alloc: Global,
    reader: &mut Reader<'a>,
    depth: usize,
) -> Result<Vec<Member<'a>>, Unread>
    ensures ok { IfOk result (λ found. converted (λ ms. of_members ms no_members)
        (members (value depth) (length reader.old) reader.old)
        ≡ Some (members_view found.items, reader.new)) }
    ensures shorter { OnOk result (length reader.new < length reader.old) }
    ensures unfit { result ≡ Err unread.Unfit → converted (λ ms. of_members ms no_members)
        (members (value depth) (length reader.old) reader.old) ≡ None }
{
    let found = read_pairs(alloc, reader, depth)?;
    Ok(in_order(alloc, found)?)
}
