//! Each token as the letter of its kind and its bytes, with a space between two.

use super::{Put, put, word_if};
use pgs_lexer::{Token, TokenKind, Tokens};

fn letter(kind: TokenKind) -> &'static str {
    match kind {
        TokenKind::Name => "n",
        TokenKind::Keyword => "k",
        TokenKind::Number => "d",
        TokenKind::Text => "t",
        TokenKind::Sign => "s",
    }
}

// An exclamation mark is told where the bytes don't stand in the text at the token's places.
fn put_token(out: &mut String, text: &[u8], token: Token<'_>) -> Put {
    let sign = if text.get(token.start..token.end) == Some(token.slice) {
        letter(token.kind)
    } else {
        "!"
    };
    put(out, &[sign])?;
    put(out, &[str::from_utf8(token.slice).unwrap_or("?")])
}

/// The tokens that are counted, and an exclamation mark where there is one more.
pub fn put_tokens(out: &mut String, text: &[u8], tokens: &Tokens<'_>) -> Put {
    for place in 0..tokens.len() {
        if let Some(token) = tokens.at(place) {
            put(out, &[word_if(place > 0, " ")])?;
            put_token(out, text, token)?;
        }
    }
    let has_more = tokens.at(tokens.len()).is_some();
    put(out, &[word_if(has_more, "!")])
}
