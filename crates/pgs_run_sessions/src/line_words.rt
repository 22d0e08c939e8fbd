ghost use Rattle.std.specs.Prelude.{◌≡◌, Some, None, length, nat_lt, option_map, if◌then◌else◌};
ghost use Rattle.pgs_run_sessions.specs.LineWords.{first_space, word_of, behind_word, without_return};

/// A line without the carriage return at its end.
#[tactic(auto, unfolding(crate::specs::LineWords::without_return))]
pub fn without_return(line: &[u8]) -> &[u8]
    ensures { result.now ≡ without_return line.now }
{
    let (front, last) = line.split_at(line.len().saturating_sub(1));
    if last == b"\r".as_slice() {
        front
    } else {
        line
    }
}

// The place of the first space.
fn space_in(line: &[u8]) -> Option<usize>
    ensures { result ≡ (if nat_lt (first_space line.now) (length line.now) then Some (first_space line.now) else None) }
{
    line.iter().position(|byte| *byte == b' ')
}

/// The bytes before the first space; all where there is none.
pub fn word_of(line: &[u8]) -> &[u8]
    ensures { result.now ≡ word_of line.now }
{
    match space_in(line) {
        Some(place) => &line[..place],
        None => line,
    }
}

/// The bytes behind the first space, where there is one.
pub fn behind_word(line: &[u8]) -> Option<&[u8]>
    ensures { option_map (λ rest. rest.now) result ≡ behind_word line.now }
{
    match space_in(line) {
        Some(place) => Some(&line[place + 1..]),
        None => None,
    }
}
