ghost use Rattle.std.specs.Prelude.{◌≡◌};
ghost use Rattle.pgs_run_words.specs.Words.{elem_of};

use crate::numbers::number;
use pgs_base::{EdgeId, Elem, NodeId};

/// The element of a word: `n` or `e`, and its number. `None` exactly where the word isn't of this form.
pub fn element(word: &[u8]) -> Option<Elem>
    ensures { result ≡ elem_of word.now }
{
    match word {
        [b'n', digits @ ..] => Some(Elem::Node(NodeId(number(digits)?))),
        [b'e', digits @ ..] => Some(Elem::Edge(EdgeId(number(digits)?))),
        _ => None,
    }
}
