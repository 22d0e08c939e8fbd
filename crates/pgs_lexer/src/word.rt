ghost use Rattle.std.specs.Prelude.{◌≡◌};
ghost use Rattle.pgs_base.specs.Name.{is_name_start, is_name_byte};
ghost use Rattle.pgs_lexer.specs.Scan.{name_len, word_size};

use pgs_base::Name;

pub fn starts_name(byte: u8) -> bool
    ensures { result ≡ is_name_start byte }
{
    byte.is_ascii_alphabetic() || byte == b'_'
}

fn continues_name(byte: u8) -> bool
    ensures { result ≡ is_name_byte byte }
{
    starts_name(byte) || byte.is_ascii_digit()
}

/// How many bytes of a name come first.
pub fn name_len(text: &[u8]) -> usize
    ensures { result ≡ name_len text.now }
{
    text.iter()
        .take_while(|byte| continues_name(**byte))
        .count()
}

/// A word is the whole run of bytes of a name, and is none where that run is longer than a name.
pub fn word_size(text: &[u8]) -> Option<usize>
    ensures { result ≡ word_size text.now }
{
    let size = name_len(text);
    if Name::is_name(&text[..size]) {
        Some(size)
    } else {
        None
    }
}
