//! Where a line stops being the front of a JSON text.

ghost use Rattle.std.specs.Prelude.{◌≤◌, length};

use crate::numeral::is_too_large;
use crate::state::State;

/// Whether a number ends between two states, or no number goes on behind it, and it is too large. The bytes are those from its first on.
fn ends_too_large(number: &[u8], state: State, next: Option<State>) -> bool {
    let Some(part) = state.number() else {
        return false;
    };
    match next {
        Some(state) if state.number().is_some() => false,
        Some(_) => is_too_large(number),
        None => part.only_grows() && is_too_large(number),
    }
}

/// The place of the first byte of a line such that no JSON text begins with the bytes up to it; of a number that is too large its first.
/// The line's length where there is none.
pub fn fault_place(line: &[u8]) -> usize
    ensures { result ≤ length line.now }
{
    let mut state = State::new();
    let mut number = 0;
    for (at, byte) in line.iter().enumerate() {
        let next = state.with(*byte);
        if ends_too_large(&line[number..at], state, next) {
            return number;
        }
        let Some(next) = next else {
            return at;
        };
        if state.number().is_none() {
            number = at;
        }
        state = next;
    }
    // The end of a line ends a number as a space does.
    if ends_too_large(&line[number..], state, state.with(b' ')) {
        number
    } else {
        line.len()
    }
}
