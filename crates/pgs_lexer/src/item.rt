ghost use Rattle.std.specs.Prelude.{◌≡◌, ◌≤◌, ◌<◌, IfSome, length};
ghost use Rattle.pgs_lexer.specs.Form.{begins_with, is_digit};
ghost use Rattle.pgs_lexer.specs.Scan.{kind_begun, size_of, item_at};

use crate::comment::comment_size;
use crate::number::{is_digit, number_size};
use crate::quoted::quoted_size;
use crate::sign::sign_size;
use crate::space::{is_space, space_size};
use crate::string_item::string_size;
use crate::word::{starts_name, word_size};

/// What an item of a schema text is.
#[derive(Clone, Copy, PartialEq, Eq)]
pub enum ItemKind {
    Space,
    Comment,
    Word,
    /// A name in backquotes.
    Quoted,
    Number,
    /// A string in quotes.
    Text,
    Sign,
}

/// An item at the front of bytes: its kind, and how many bytes it has.
#[derive(Clone, Copy)]
pub struct Item {
    pub kind: ItemKind,
    pub size: usize,
}

fn begins_with_digit(text: &[u8]) -> bool
    ensures { result ≡ begins_with is_digit text.now }
{
    match text {
        [first, ..] => is_digit(*first),
        [] => false,
    }
}

/// The only kind of item that the first bytes may begin.
fn kind_begun(first: u8, rest: &[u8]) -> ItemKind
    ensures { result ≡ kind_begun first rest.now }
{
    if is_space(first) {
        ItemKind::Space
    } else if starts_name(first) {
        ItemKind::Word
    } else if is_digit(first) || first == b'-' && begins_with_digit(rest) {
        ItemKind::Number
    } else if first == b'/' {
        ItemKind::Comment
    } else if first == b'`' {
        ItemKind::Quoted
    } else if first == b'\'' {
        ItemKind::Text
    } else {
        ItemKind::Sign
    }
}

fn size_of(kind: ItemKind, text: &[u8]) -> Option<usize>
    ensures { result ≡ size_of kind text.now }
{
    match kind {
        ItemKind::Space => space_size(text),
        ItemKind::Comment => comment_size(text),
        ItemKind::Word => word_size(text),
        ItemKind::Quoted => quoted_size(text),
        ItemKind::Number => number_size(text),
        ItemKind::Text => string_size(text),
        ItemKind::Sign => sign_size(text),
    }
}

/// The longest item at the front, or `None` where the first byte begins no item.
#[tactic(auto, unfolding(crate::specs::Scan::item_at))]
pub fn item_at(text: &[u8]) -> Option<Item>
    ensures item { result ≡ item_at text.now }
    ensures within { IfSome result (λ item. (0 < item.size) × (item.size ≤ length text.now)) }
{
    match text {
        [first, rest @ ..] => {
            let kind = kind_begun(*first, rest);
            let size = size_of(kind, text)?;
            Some(Item { kind, size })
        }
        [] => None,
    }
}
