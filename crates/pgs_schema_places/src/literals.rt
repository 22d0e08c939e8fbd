//! Which tokens are literals and numbers that the grammar takes (docs/GRAMMAR.md, "Statements").

use pgs_base::Day;

// The most bytes of a string, without its quotes.
const LONGEST: usize = 65_535;

/// The number that a token writes, where it has at most 64 bits.
pub(crate) fn number_of(token: &[u8]) -> Option<i64> {
    let digits = str::from_utf8(token).ok()?;
    i64::from_str_radix(digits, 10).ok()
}

/// Whether a string is short enough; two quotes in it are one.
pub(crate) fn is_short(token: &[u8]) -> bool {
    let [b'\'', inside @ .., b'\''] = token else {
        return false;
    };
    let quotes = inside.iter().filter(|byte| **byte == b'\'').count();
    inside.len().saturating_sub(quotes / 2) <= LONGEST
}

// The number that digits write, where it is small enough.
fn digits(bytes: &[u8]) -> Option<u16> {
    if !bytes.iter().all(|byte| byte.is_ascii_digit()) {
        return None;
    }
    u16::from_str_radix(str::from_utf8(bytes).ok()?, 10).ok()
}

// The day that a string is.
fn day_of(token: &[u8]) -> Option<Day> {
    let [b'\'', y, e, a, r, b'-', m, n, b'-', d, k, b'\''] = token else {
        return None;
    };
    let year = digits(&[*y, *e, *a, *r])?;
    let month = u8::try_from(digits(&[*m, *n])?).ok()?;
    let day = u8::try_from(digits(&[*d, *k])?).ok()?;
    Day::new(year, month, day)
}

/// Whether a string is a day.
pub(crate) fn is_day(token: &[u8]) -> bool {
    day_of(token).is_some()
}
