ghost use Rattle.std.specs.Prelude.{◌≡◌, ◌≤◌, length, slice_get, option_map, IfSome};
ghost use Rattle.std.specs.Option.{option_copied};
ghost use Rattle.pgs_base.specs.declared.text_limit.TheConstants.{TEXT_LIMIT};
ghost use Rattle.pgs_lexer.specs.Cut.{lexeme, AreInOrder, IsFromText};
ghost use Rattle.pgs_lexer.specs.Token.{IsWellFormed};
ghost use Rattle.pgs_lexer.specs.Tokens.{lexeme_of};

use crate::TokenKind;
use std::marker::Model;

/// A token: its kind, the places of its first byte and of the byte after its last one, and its bytes.
/// A quoted name has its backquotes, and a string its quotes, with each quote inside it still written twice.
#[derive(Clone, Copy)]
pub struct Token<'a> {
    pub kind: TokenKind,
    pub start: usize,
    pub end: usize,
    pub slice: &'a [u8],
}

/// Where a token is. A text is short enough for 32 bits.
#[derive(Clone, Copy)]
pub struct Span {
    pub kind: TokenKind,
    pub start: u32,
    pub end: u32,
}

/// All tokens of a text, which it borrows. Contracts see the list of its tokens. In every value they are the tokens of
/// a text of at most `TEXT_LIMIT` bytes and at most so many, in order, each the text's part at its span: `len` says so.
#[derive(Drop)]
pub struct Tokens<'a> {
    pub(crate) text: &'a [u8],
    pub(crate) spans: Vec<Span>,
}

impl<'a> Model for Tokens<'a> {
    ghost use Rattle.std.specs.Prelude.{List};
    ghost use Rattle.pgs_lexer.specs.Token.{Lexeme};

    ghost Value = { List Lexeme };

    ghost use Rattle.pgs_lexer.specs.Cut.{lexemes, AreSpansOf};

    ghost view = { λ tokens. lexemes tokens.text.now tokens.spans.items };

    ghost invariant = { λ tokens. AreSpansOf tokens.text.now tokens.spans.items };
}

/// The token at a span of a text.
fn token_at<'a>(text: &'a [u8], span: &Span) -> Token<'a>
    requires start { span.now.start ≤ span.now.end }
    requires end { span.now.end ≤ length text.now }
    ensures { lexeme_of result ≡ lexeme text.now span.now }
{
    let start = span.start as usize;
    let end = span.end as usize;
    Token {
        kind: span.kind,
        start,
        end,
        slice: &text[start..end],
    }
}

fn span_at(spans: &[Span], place: usize) -> Option<&Span>
    ensures { option_copied result ≡ slice_get spans.now place }
{
    spans.get(place)
}

impl Tokens<'_> {
    /// How many tokens there are, at most `TEXT_LIMIT`. The further clauses say what every value keeps.
    pub fn len(&self) -> usize
        ensures count { result ≡ length self.now }
        ensures at_most { length self.now ≤ TEXT_LIMIT }
        ensures in_order { AreInOrder self.now }
        ensures from_text { IsFromText self.now }
    {
        self.spans.len()
    }

    /// The token at a place, from 0, in the form of its kind. `None` exactly past the last.
    pub fn at(&self, place: usize) -> Option<Token<'_>>
        ensures token { option_map lexeme_of result ≡ slice_get self.now place }
        ensures form { IfSome result (λ token. IsWellFormed (lexeme_of token)) }
    {
        match span_at(self.spans.as_slice(), place) {
            Some(span) => Some(token_at(self.text, span)),
            None => None,
        }
    }
}
