ghost use Rattle.std.specs.Prelude.{◌≡◌, ◌≤◌, not, length, take};
ghost use Rattle.pgs_lexer.specs.Form.{is_line_feed};
ghost use Rattle.pgs_lexer.specs.Scan.{line_len, comment_len, comment_size};

/// How many bytes there are before the first line feed, or in all.
pub fn line_len(text: &[u8]) -> usize
    ensures { result ≡ line_len text.now }
{
    text.iter().take_while(|byte| **byte != b'\n').count()
}

/// How many bytes come first that are UTF-8, on the line that the text begins with.
fn comment_len(text: &[u8]) -> usize
    ensures value { result ≡ comment_len text.now }
    ensures within { result ≤ length text.now }
{
    let line = &text[..line_len(text)];
    match std::str::from_utf8(line) {
        Ok(_) => line.len(),
        Err(fault) => fault.valid_up_to(),
    }
}

/// A comment ends before a line feed and before a byte that is no UTF-8.
pub fn comment_size(text: &[u8]) -> Option<usize>
    ensures { result ≡ comment_size text.now }
{
    match text {
        [b'/', b'/', rest @ ..] => Some(2 + comment_len(rest)),
        _ => None,
    }
}
