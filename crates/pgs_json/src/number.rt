ghost use Rattle.std.specs.Prelude.{◌≡◌, ◌≤◌, ◌+◌, ◌*◌, ◌^◌, Some, None, nat_lt, if◌then◌else◌, length, option_map, IfSome};
ghost use Rattle.std.specs.List.{prefix_len};
ghost use Rattle.std.specs.Char.{digit_value};
ghost use Rattle.pgs_json.specs.Digits.{is_digit, digits_at};

fn is_digit(byte: u8) -> bool
    ensures { result ≡ is_digit byte }
{
    byte.is_ascii_digit()
}

/// The number with one more digit. `None` exactly where it is 2^64 or more.
fn with_digit(number: u64, byte: u8) -> Option<u64>
    requires low { 48 ≤ byte }
    requires high { byte ≤ 57 }
    ensures { result ≡ (if nat_lt (number * 10 + digit_value byte) (2 ^ 64) then Some (number * 10 + digit_value byte) else None) }
{
    number.checked_mul(10)?.checked_add(u64::from(byte - b'0'))
}

/// The number that the digits at the front write, and how many there are.
#[tactic(auto, unfolding(crate::specs::Digits::digits_at))]
pub fn digits(bytes: &[u8]) -> Option<(u64, usize)>
    ensures value { result ≡ option_map (λ number. (number, prefix_len is_digit bytes.now)) (digits_at bytes.now) }
    ensures within { IfSome result (λ found. found.1 ≤ length bytes.now) }
{
    let mut number = 0;
    for (count, byte) in bytes.iter().enumerate() {
        if !is_digit(*byte) {
            return Some((number, count));
        }
        number = with_digit(number, *byte)?;
    }
    Some((number, bytes.len()))
}
