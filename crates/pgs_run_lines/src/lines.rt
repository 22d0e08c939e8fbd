ghost use Rattle.std.specs.Prelude.{◌≡◌, true, MatchOption};
ghost use Rattle.std.specs.List.{list_all};
ghost use Rattle.pgs_run_lines.specs.Input.{has_no_feed, IsLineEnd, is_blank_byte, is_blank};

use memchr::memchr;

/// The place of the first line feed.
#[tactic(auto, using(crate::proofs::LineEnd::line_end_at))]
pub fn line_end(bytes: &[u8]) -> Option<usize>
    ensures { MatchOption result (has_no_feed bytes.now ≡ true) (IsLineEnd bytes.now) }
{
    memchr(b'\n', bytes)
}

fn is_blank_text(line: &[u8]) -> bool
    ensures { result ≡ list_all is_blank_byte line.now }
{
    line.iter()
        .all(|byte| matches!(*byte, b' ' | b'\t' | b'\r'))
}

/// Whether a line has spaces, tabs and carriage returns alone, at most so many as the limit. A line and its front with one byte
/// more than the limit say the same.
#[tactic(auto, unfolding(crate::specs::Input::is_blank))]
pub fn is_blank(line: &[u8], limit: usize) -> bool
    ensures { result ≡ is_blank limit line.now }
{
    line.len() <= limit && is_blank_text(line)
}
