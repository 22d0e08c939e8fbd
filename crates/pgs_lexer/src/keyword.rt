ghost use Rattle.std.specs.Prelude.{◌≡◌, bytes_eq};
ghost use Rattle.std.specs.List.{list_any};
ghost use Rattle.pgs_lexer.specs.Token.{is_keyword};

/// All keywords.
const KEYWORDS: [&[u8]; 25] = [
    b"ABSTRACT",
    b"BOOL",
    b"COUNT",
    b"CREATE",
    b"DATE",
    b"EDGE",
    b"EXCLUSIVE",
    b"FALSE",
    b"FOR",
    b"GRAPH",
    b"IDENTIFIER",
    b"IMPORTS",
    b"INT",
    b"LOOSE",
    b"MANDATORY",
    b"NODE",
    b"OF",
    b"OPEN",
    b"OPTIONAL",
    b"SINGLETON",
    b"STRICT",
    b"STRING",
    b"TRUE",
    b"TYPE",
    b"WITHIN",
];

/// Whether a word is one of these.
fn is_one_of(words: &[&[u8]], word: &[u8]) -> bool
    ensures { result ≡ list_any (λ other. bytes_eq word.now other.now) words.now }
{
    words.iter().any(|other| word == *other)
}

/// Whether a word is a keyword, which is so in upper case alone.
pub fn is_keyword(word: &[u8]) -> bool
    ensures { result ≡ is_keyword word.now }
{
    is_one_of(&KEYWORDS, word)
}
