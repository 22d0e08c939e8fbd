ghost use Rattle.std.specs.Prelude.{◌≡◌};
ghost use Rattle.pgs_run_input.specs.Input.{is_separator};

/// Whether a line ends the schema part: `---`, with or without a carriage return.
#[tactic(auto, unfolding(crate::specs::Input::is_separator))]
pub fn is_separator(line: &[u8]) -> bool
    ensures { result ≡ is_separator line.now }
{
    line == b"---".as_slice() || line == b"---\r".as_slice()
}
