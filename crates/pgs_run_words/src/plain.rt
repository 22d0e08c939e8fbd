ghost use Rattle.std.specs.Prelude.{◌≡◌, map};
ghost use Rattle.std.specs.List.{list_all};
ghost use Rattle.pgs_run_words.specs.Further.{are_plain, is_plain};

/// Whether a word is one that `clap` takes for a value: it has a byte, and the first isn't `-`.
pub fn is_plain(word: &str) -> bool
    ensures { result ≡ is_plain word.now }
{
    match word.as_bytes() {
        [] => false,
        [first, ..] => *first != b'-',
    }
}

fn all_plain(words: &[&str]) -> bool
    ensures { result ≡ list_all (λ w. is_plain w.now) words.now }
{
    words.iter().all(|word| is_plain(word))
}

/// Whether each word is plain.
pub fn are_plain(words: &[&str]) -> bool
    ensures { result ≡ are_plain (map (λ w. w.now) words.now) }
{
    all_plain(words)
}
