ghost use Rattle.std.specs.Prelude.{◌≡◌};
ghost use Rattle.pgs_run_sessions.specs.Spec.{asks_run};

use pgs_base::Words;

/// Whether the words are the one word `run`.
#[tactic(auto, using(crate::proofs::OneWord::asked, crate::proofs::OneWord::not_one, crate::proofs::OneWord::none_there))]
pub fn asks_run(words: &Words) -> bool
    ensures { result ≡ asks_run words.now }
{
    if words.len() != 1 {
        return false;
    }
    match words.at(0) {
        Some(word) => word == "run",
        None => false,
    }
}
