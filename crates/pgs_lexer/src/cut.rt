ghost use Rattle.std.specs.Prelude.{◌≡◌, ◌+◌, ◌<◌, ◌≤◌, ◌++◌, length, drop, OnOk, IfOk, IsErrOf, ℕ};
ghost use Rattle.pgs_base.specs.declared.text_limit.TheConstants.{TEXT_LIMIT};
ghost use Rattle.pgs_lexer.specs.Scan.{item_at};
ghost use Rattle.pgs_lexer.specs.Cut.{AreTokensOf, Gives, HasBadByteOn, lexemes, line_at, token_here, tokens_of};

use crate::item::{Item, item_at};
use crate::kind::token_kind;
use crate::token::Span;
use crate::{LexFault, Tokens};
use pgs_base::Memory;
use std::alloc::Global;

/// The line on which a byte is that begins no item, from 1. It is asked for there alone, since it goes over the text
/// before the byte.
fn line_at(text: &[u8], place: usize) -> u64
    requires within { place < length text.now }
    requires bad_byte { item_at (drop place text.now) ≡ None }
    ensures { result ≡ line_at text.now place }
{
    1 + text[..place].iter().filter(|byte| **byte == b'\n').count() as u64
}

/// Puts the token last that the item at a place is, where it is one.
fn push_token(spans: &mut Vec<Span>, text: &[u8], place: usize, item: Item) -> Result<(), Memory>
    requires within { place + item.size ≤ length text.now }
    requires short { length text.now ≤ TEXT_LIMIT }
    ensures { OnOk result (lexemes text.now spans.new.items ≡ lexemes text.now spans.old.items ++ token_here place (drop place text.now) item) }
{
    let end = place + item.size;
    match token_kind(item.kind, &text[place..end]) {
        None => Ok(()),
        Some(kind) => {
            let start = place as u32;
            let end = end as u32;
            match spans.push(Span { kind, start, end }) {
                Ok(()) => Ok(()),
                Err(_) => Err(Memory),
            }
        }
    }
}

/// The spans of the tokens, item by item.
fn cut(alloc: Global, text: &[u8]) -> Result<Vec<Span>, LexFault>
    requires { length text.now ≤ TEXT_LIMIT }
    ensures { Gives (λ spans. lexemes text.now spans.items) result (tokens_of text.now) }
{
    let mut spans = Vec::new(alloc);
    let mut place = 0;
    while place < text.len() {
        match item_at(&text[place..]) {
            None => {
                let line = line_at(text, place);
                return Err(LexFault::Lex { line });
            }
            Some(item) => {
                match push_token(&mut spans, text, place, item) {
                    Ok(()) => {}
                    Err(_) => return Err(LexFault::Memory),
                }
                place += item.size;
            }
        }
    }
    Ok(spans)
}

/// The tokens of a text of at most `TEXT_LIMIT` bytes, in order. The text is cut from the left, each time by the
/// longest item that begins at the place (`docs/GRAMMAR.md`, "Items"), and its items other than spaces and comments
/// are the tokens. The text is borrowed and never copied; the call takes memory for the list of tokens alone.
///
/// - `Lex` exactly where some byte begins no item. `line` is 1 and the line feeds before the first such byte.
/// - `Memory` where there is none for the list of tokens.
pub fn lex(alloc: Global, text: &[u8]) -> Result<Tokens<'_>, LexFault>
    requires { length text.now ≤ TEXT_LIMIT }
    // The tokens are those of the cut of the text.
    ensures tokens { IfOk result (AreTokensOf text.now) }
    ensures bad_byte { (line : ℕ) → IsErrOf result (LexFault.Lex line) → HasBadByteOn text.now line }

    // What is given, as a function of the text.
    ensures computed { Gives (λ tokens. tokens) result (tokens_of text.now) }
{
    match cut(alloc, text) {
        Ok(spans) => Ok(Tokens { text, spans }),
        Err(fault) => Err(fault),
    }
}
