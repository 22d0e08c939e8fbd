ghost use Rattle.std.specs.Prelude.{◌≡◌};
ghost use Rattle.pgs_lexer.specs.Scan.{quoted_size};

use crate::word::name_len;
use pgs_base::Name;

/// A name between backquotes, which may be a keyword.
pub fn quoted_size(text: &[u8]) -> Option<usize>
    ensures { result ≡ quoted_size text.now }
{
    match text {
        [b'`', rest @ ..] => {
            let size = name_len(rest);
            if Name::is_name(&rest[..size]) && size < rest.len() && rest[size] == b'`' {
                Some(2 + size)
            } else {
                None
            }
        }
        _ => None,
    }
}
