ghost use Rattle.std.specs.Prelude.{◌≡◌, ◌+◌, ◌*◌, ◌^◌, ◌<◌, Some, None, ◌&&◌, length, drop, nat_lt, if◌then◌else◌, MatchOption};
ghost use Rattle.std.specs.Char.{is_ascii_digit, digit_value};
ghost use Rattle.pgs_world_files.specs.FeedLines.{EndIs, IsBehindFeed, comma_in, commit_before, commit_of, commit_of_line, commit_of_number, number_after};

use crate::FeedCause;
use memchr::{memchr, memrchr};

/// A line of a feed has at most so many bytes without its line feed.
pub(crate) const LINE_LIMIT: usize = 2_097_152;

// The number with one more digit. `None` exactly where the byte is no digit, or the number is 2^64 or more.
fn with_digit(number: u64, byte: u8) -> Option<u64>
    ensures { result ≡ (if is_ascii_digit byte && nat_lt (number * 10 + digit_value byte) (2 ^ 64)
        then Some (number * 10 + digit_value byte) else None) }
{
    if !byte.is_ascii_digit() {
        return None;
    }
    number.checked_mul(10)?.checked_add(u64::from(byte - b'0'))
}

// The number that digits write.
fn number(digits: &[u8]) -> Option<u64>
    ensures { result ≡ number_after 0 digits.now }
{
    let mut number = 0;
    for byte in digits {
        number = with_digit(number, *byte)?;
    }
    Some(number)
}

// The number of a commit that digits write. `None` exactly where they write none from 1 to 2^64 - 1.
fn commit_of_number(digits: &[u8]) -> Option<u64>
    ensures { result ≡ commit_of_number digits.now }
{
    match number(digits) {
        Some(0) => None,
        found => found,
    }
}

// The place of the first comma.
#[tactic(auto, using(crate::proofs::FeedLines::comma_at))]
fn comma_in(bytes: &[u8]) -> Option<usize>
    ensures { MatchOption result (comma_in bytes.now ≡ length bytes.now) (λ place. (place < length bytes.now) × (comma_in bytes.now ≡ place)) }
{
    memchr(b',', bytes)
}

// The number before the first comma, where the operations begin there.
fn commit_before(rest: &[u8]) -> Option<u64>
    ensures { result ≡ commit_before rest.now }
{
    match comma_in(rest) {
        Some(comma) => {
            if rest[comma..].starts_with(b",\"ops\":[".as_slice()) {
                return commit_of_number(&rest[..comma]);
            }
            None
        }
        None => None,
    }
}

/// The number of the commit with which bytes begin, as a feed's line does.
pub(crate) fn commit_of(bytes: &[u8]) -> Option<u64>
    ensures { result ≡ commit_of bytes.now }
{
    if !bytes.starts_with(b"{\"commit\":".as_slice()) {
        return None;
    }
    commit_before(&bytes[10..])
}

// The number of the commit of a whole line.
fn commit_of_line(line: &[u8]) -> Option<u64>
    ensures { result ≡ commit_of_line line.now }
{
    if line.len() > LINE_LIMIT || !line.ends_with(b"]}".as_slice()) {
        return None;
    }
    commit_of(line)
}

// The place of the last line feed.
#[tactic(auto, using(crate::proofs::FeedLines::behind_at))]
fn last_feed(bytes: &[u8]) -> Option<usize>
    ensures { MatchOption result (IsBehindFeed bytes.now bytes.now) (λ place. (place < length bytes.now) × IsBehindFeed bytes.now (drop (place + 1) bytes.now)) }
{
    memrchr(b'\n', bytes)
}

// What stands behind the last line feed.
fn behind_feed(bytes: &[u8]) -> &[u8]
    ensures { IsBehindFeed bytes.now result.now }
{
    match last_feed(bytes) {
        Some(place) => &bytes[place + 1..],
        None => bytes,
    }
}

/// What the last bytes of a file say of it as a feed: the number of its last line, or `None` where there are none.
pub(crate) fn read_end(end: &[u8]) -> Result<Option<u64>, FeedCause>
    ensures { EndIs end.now result }
{
    let Some((last, lines)) = end.split_last() else {
        return Ok(None);
    };
    if *last != b'\n' {
        return Err(FeedCause::Torn);
    }
    match commit_of_line(behind_feed(lines)) {
        Some(number) => Ok(Some(number)),
        None => Err(FeedCause::NoFeed),
    }
}
