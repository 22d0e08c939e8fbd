ghost use Rattle.std.specs.Prelude.{◌≡◌};
ghost use Rattle.pgs_lexer.specs.Form.{is_space};
ghost use Rattle.pgs_lexer.specs.Scan.{space_size};

pub fn is_space(byte: u8) -> bool
    ensures { result ≡ is_space byte }
{
    byte == b' ' || byte == b'\t' || byte == b'\n' || byte == b'\r'
}

/// A space is one byte, so that a row of them is a row of items.
pub fn space_size(text: &[u8]) -> Option<usize>
    ensures { result ≡ space_size text.now }
{
    match text {
        [first, ..] if is_space(*first) => Some(1),
        _ => None,
    }
}
