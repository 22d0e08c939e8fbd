ghost use Rattle.std.specs.Prelude.{◌≡◌, bytes_eq, map, option_map};
ghost use Rattle.std.specs.List.{find};
ghost use Rattle.pgs_run_words.specs.Words.{command_word, found_in};

/// The first word of a command line.
#[derive(Clone, Copy)]
pub enum CommandWord {
    Try,
    Validate,
    Load,
    Apply,
    Recover,
    Explain,
    Gen,
    Checkpoint,
    Contain,
    Evolve,
}

/// All first words.
const COMMAND_WORDS: [(&str, CommandWord); 10] = [
    ("try", CommandWord::Try),
    ("validate", CommandWord::Validate),
    ("load", CommandWord::Load),
    ("apply", CommandWord::Apply),
    ("recover", CommandWord::Recover),
    ("explain", CommandWord::Explain),
    ("gen", CommandWord::Gen),
    ("checkpoint", CommandWord::Checkpoint),
    ("contain", CommandWord::Contain),
    ("evolve", CommandWord::Evolve),
];

fn first_row<C: Copy>(rows: &[(&str, C)], word: &str) -> Option<C>
    ensures { result ≡ option_map (λ row. row.1) (find (λ row. bytes_eq row.0.now word.now) rows.now) }
{
    rows.iter().find(|row| row.0 == word).map(|row| row.1)
}

/// What a word stands for: the command of the first row that has it. `None` exactly where no row has it.
pub fn found_in<C: Copy>(rows: &[(&str, C)], word: &str) -> Option<C>
    ensures { result ≡ found_in (map (λ row. (row.0.now, row.1)) rows.now) word.now }
{
    first_row(rows, word)
}

/// The command that a first word begins. `None` exactly where there is none.
pub fn command_word(word: &str) -> Option<CommandWord>
    ensures { result ≡ command_word word.now }
{
    found_in(&COMMAND_WORDS, word)
}
