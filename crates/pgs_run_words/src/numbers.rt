ghost use Rattle.std.specs.Prelude.{◌≡◌, ◌+◌, ◌*◌, ◌^◌, Some, None, ◌&&◌, nat_lt, if◌then◌else◌};
ghost use Rattle.std.specs.Char.{is_ascii_digit, digit_value};
ghost use Rattle.pgs_run_words.specs.Words.{number_after, number_of};

// The number with one more digit. `None` exactly where the byte is no digit, or the number is 2^64 or more.
fn with_digit(number: u64, byte: u8) -> Option<u64>
    ensures { result ≡ (if is_ascii_digit byte && nat_lt (number * 10 + digit_value byte) (2 ^ 64)
        then Some (number * 10 + digit_value byte) else None) }
{
    if !byte.is_ascii_digit() {
        return None;
    }
    number.checked_mul(10)?.checked_add(u64::from(byte - b'0'))
}

fn digits(word: &[u8]) -> Option<u64>
    ensures { result ≡ number_after 0 word.now }
{
    let mut number = 0;
    for byte in word {
        number = with_digit(number, *byte)?;
    }
    Some(number)
}

/// The number of a word of 1 to 20 digits. `None` exactly where it isn't of this form, or is 2^64 or more.
pub fn number(word: &[u8]) -> Option<u64>
    ensures { result ≡ number_of word.now }
{
    if word.is_empty() || word.len() > 20 {
        return None;
    }
    digits(word)
}
