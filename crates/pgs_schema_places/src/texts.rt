//! The texts of keys, as they are written.

ghost use Rattle.std.specs.Prelude.{◌≡◌, ◌+◌, ◌-◌, ◌<◌, ◌≤◌, ◌++◌, [], length, drop, slice_get, if◌then◌else◌, codes, ◌==◌, IfOk, IfSome, OnOk};
ghost use Rattle.std.specs.List.{position_or_len, slice_range};
ghost use Rattle.pgs_lexer.specs.Tokens.{lexeme_of};
ghost use Rattle.pgs_schema_places.specs.KeyTexts.{is_for, is_behind, spaced, text_of, key_texts};

use pgs_base::{Bytes, List, Memory};
use pgs_base_text::TextBuffer;
use pgs_lexer::{Token, Tokens};
use std::alloc::Global;

// Room for the text of a short key.
const ROOM: usize = 128;

fn is_for(token: &Token<'_>) -> bool
    ensures { result ≡ is_for (lexeme_of token.now) }
{
    token.slice == b"FOR".as_slice()
}

fn is_behind(token: &Token<'_>) -> bool
    ensures { result ≡ is_behind (lexeme_of token.now) }
{
    is_for(token) || token.slice == b";".as_slice()
}

// Whether FOR stands at a place.
pub(crate) fn is_for_at(tokens: &Tokens<'_>, place: usize) -> bool
    requires { place < length tokens.now }
    ensures { IfSome (slice_get tokens.now place) (λ token. result ≡ is_for token) }
{
    match tokens.at(place) {
        Some(token) => is_for(&token),
        None => false,
    }
}

// Whether FOR or `;` stands at a place.
fn is_behind_at(tokens: &Tokens<'_>, place: usize) -> bool
    requires { place < length tokens.now }
    ensures { IfSome (slice_get tokens.now place) (λ token. result ≡ is_behind token) }
{
    match tokens.at(place) {
        Some(token) => is_behind(&token),
        None => false,
    }
}

// How many tokens stand from a place on before the next FOR or `;`.
pub(crate) fn count_before(tokens: &Tokens<'_>, start: usize) -> usize
    requires { start ≤ length tokens.now }
    ensures count { result ≡ position_or_len is_behind (drop start tokens.now) }
    ensures within { start + result ≤ length tokens.now }
{
    for place in start..tokens.len() {
        if is_behind_at(tokens, place) {
            return place - start;
        }
    }
    tokens.len() - start
}

// Where the token at a place begins.
fn start_at(tokens: &Tokens<'_>, place: usize) -> usize
    ensures { IfSome (slice_get tokens.now place) (λ token. result ≡ token.start) }
{
    match tokens.at(place) {
        Some(token) => token.start,
        None => 0,
    }
}

// Puts a token last, behind what ends at a place of the text.
pub(crate) fn push_token(token: &Token<'_>, end: usize, text: &mut TextBuffer) -> Result<(), Memory>
    ensures { OnOk result (text.new ≡ text.old ++ ((if end == token.now.start then [] else codes " ") ++ token.now.slice.now)) }
{
    if end != token.start {
        text.push(b" ")?;
    }
    text.push(token.slice)
}

// Puts the token at a place last, behind what ends at a place of the text: where the token ends.
fn push_at(
    tokens: &Tokens<'_>,
    place: usize,
    end: usize,
    text: &mut TextBuffer,
) -> Result<usize, Memory>
    ensures { IfSome (slice_get tokens.now place) (λ token. IfOk result
        (λ next. (next ≡ token.end) × (text.new ≡ text.old ++ ((if end == token.start then [] else codes " ") ++ token.bytes)))) }
{
    match tokens.at(place) {
        Some(token) => {
            push_token(&token, end, text)?;
            Ok(token.end)
        }
        None => Ok(end),
    }
}

// The tokens from a place to another as a text.
fn text_between(
    alloc: Global,
    tokens: &Tokens<'_>,
    start: usize,
    stop: usize,
) -> Result<Bytes, Memory>
    requires order { start ≤ stop }
    requires within { stop ≤ length tokens.now }
    ensures { IfOk result (λ text. text ≡ text_of (slice_range tokens.now start stop)) }
{
    let mut text = TextBuffer::with_room(alloc, ROOM)?;
    let mut end = start_at(tokens, start);
    for place in start..stop {
        let next = push_at(tokens, place, end, &mut text)?;
        end = next;
    }
    Ok(text.into_bytes())
}

// Puts the text of the key last that begins at a place, where one does.
fn push_key(
    alloc: Global,
    tokens: &Tokens<'_>,
    place: usize,
    texts: &mut Vec<Bytes>,
) -> Result<(), Memory>
    requires { place < length tokens.now }
    ensures { OnOk result (texts.new.items ++ key_texts (drop (place + 1) tokens.now) ≡ texts.old.items ++ key_texts (drop place tokens.now)) }
{
    if !is_for_at(tokens, place) {
        return Ok(());
    }
    let _facts = tokens.len();
    let count = count_before(tokens, place + 1);
    let text = text_between(alloc, tokens, place, place + count)?;
    texts.push(text)?;
    Ok(())
}

/// The texts of all keys of a script that tokens are, in order: each from FOR to its last token, with one space where spaces or comments
/// stood between two tokens (docs/DEFINITIONS.md, "What a schema says in silence").
pub fn key_texts(alloc: Global, tokens: &Tokens<'_>) -> Result<List<Bytes>, Memory>
    ensures { IfOk result (λ texts. texts ≡ key_texts tokens.now) }
{
    let mut texts = Vec::new(alloc);
    for place in 0..tokens.len() {
        push_key(alloc, tokens, place, &mut texts)?;
    }
    Ok(List::from_vec(texts))
}
