ghost use Rattle.std.specs.Prelude.{◌≡◌, ◌≤◌, length, IfSome};
ghost use Rattle.pgs_lexer.specs.Form.{is_digit};
ghost use Rattle.pgs_lexer.specs.Scan.{digits_len, digits_size, number_size};

pub fn is_digit(byte: u8) -> bool
    ensures { result ≡ is_digit byte }
{
    byte.is_ascii_digit()
}

/// How many digits come first.
fn digits_len(text: &[u8]) -> usize
    ensures value { result ≡ digits_len text.now }
    ensures within { result ≤ length text.now }
{
    text.iter().take_while(|byte| is_digit(**byte)).count()
}

fn digits_size(text: &[u8]) -> Option<usize>
    ensures value { result ≡ digits_size text.now }
    ensures within { IfSome result (λ size. size ≤ length text.now) }
{
    let size = digits_len(text);
    if size == 0 { None } else { Some(size) }
}

/// A minus sign belongs to a number where a digit follows it directly.
pub fn number_size(text: &[u8]) -> Option<usize>
    ensures { result ≡ number_size text.now }
{
    match text {
        [b'-', rest @ ..] => Some(1 + digits_size(rest)?),
        _ => digits_size(text),
    }
}
