ghost use Rattle.std.specs.Prelude.{◌≡◌};
ghost use Rattle.pgs_lexer.specs.Scan.{is_sign, is_long_sign, short_sign_size, sign_size};

fn is_sign(byte: u8) -> bool
    ensures { result ≡ is_sign byte }
{
    match byte {
        b'(' | b')' | b'[' | b']' | b'{' | b'}' => true,
        b':' | b',' | b';' | b'.' | b'&' | b'|' | b'?' | b'-' => true,
        _ => false,
    }
}

fn is_long_sign(first: u8, second: u8) -> bool
    ensures { result ≡ is_long_sign first second }
{
    match (first, second) {
        (b'-', b'>') | (b'<', b'-') | (b'.', b'.') => true,
        _ => false,
    }
}

fn short_sign_size(first: u8) -> Option<usize>
    ensures { result ≡ short_sign_size first }
{
    if is_sign(first) { Some(1) } else { None }
}

/// A sign of two bytes goes before the sign that its first byte is.
pub fn sign_size(text: &[u8]) -> Option<usize>
    ensures { result ≡ sign_size text.now }
{
    match text {
        [first, second, ..] if is_long_sign(*first, *second) => Some(2),
        [first, ..] => short_sign_size(*first),
        [] => None,
    }
}
