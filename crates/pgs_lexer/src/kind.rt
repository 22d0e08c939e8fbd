ghost use Rattle.std.specs.Prelude.{◌≡◌};
ghost use Rattle.pgs_lexer.specs.Token.{token_kind};

use crate::item::ItemKind;
use crate::keyword::is_keyword;

/// What a token is.
#[derive(Clone, Copy, PartialEq, Eq)]
pub enum TokenKind {
    /// A word that is no keyword, or a name in backquotes.
    Name,
    /// One of the 25 keywords, in upper case.
    Keyword,
    /// Digits, maybe after a minus sign.
    Number,
    /// A string in quotes.
    Text,
    /// A sign of one or two bytes.
    Sign,
}

/// The kind of token that an item with these bytes is. `None` where it is a space or a comment.
pub fn token_kind(kind: ItemKind, bytes: &[u8]) -> Option<TokenKind>
    ensures { result ≡ token_kind kind bytes.now }
{
    match kind {
        ItemKind::Space | ItemKind::Comment => None,
        ItemKind::Word => {
            if is_keyword(bytes) {
                Some(TokenKind::Keyword)
            } else {
                Some(TokenKind::Name)
            }
        }
        ItemKind::Quoted => Some(TokenKind::Name),
        ItemKind::Number => Some(TokenKind::Number),
        ItemKind::Text => Some(TokenKind::Text),
        ItemKind::Sign => Some(TokenKind::Sign),
    }
}
