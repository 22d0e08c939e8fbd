ghost use Rattle.std.specs.Prelude.{◌≡◌, ◌+◌, ◌≤◌, IfSome, length};
ghost use Rattle.std.specs.Str.{is_utf8};
ghost use Rattle.pgs_lexer.specs.Scan.{closing, closed_size, string_size};

/// How many bytes come before the first quote that no other follows, on the same line. Pairs of quotes are passed over.
fn closing(text: &[u8]) -> Option<usize>
    ensures place { result ≡ closing text.now }
    ensures within { IfSome result (λ n. n + 1 ≤ length text.now) }
{
    let mut place = 0;
    while place < text.len() {
        let byte = text[place];
        if byte == b'\n' {
            return None;
        }
        if byte != b'\'' {
            place += 1;
        } else if place + 1 < text.len() && text[place + 1] == b'\'' {
            place += 2;
        } else {
            return Some(place);
        }
    }
    None
}

fn is_utf8(bytes: &[u8]) -> bool
    ensures { result ≡ is_utf8 bytes.now }
{
    match std::str::from_utf8(bytes) {
        Ok(_) => true,
        Err(_) => false,
    }
}

/// A string is UTF-8 between quotes on one line, where `''` stands for a quote.
pub fn string_size(text: &[u8]) -> Option<usize>
    ensures { result ≡ string_size text.now }
{
    match text {
        [b'\'', rest @ ..] => {
            let size = closing(rest)?;
            if is_utf8(&rest[..size]) {
                Some(2 + size)
            } else {
                None
            }
        }
        _ => None,
    }
}
