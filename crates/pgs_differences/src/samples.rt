//! What differences and their texts are on a small shape. The functions do nothing; their contracts are the statements.

ghost use Rattle.std.specs.Prelude.{◌≡◌, codes, [], ◌∷◌, map};
ghost use Rattle.pgs_base.specs.Pair.{pair_of};
ghost use Rattle.pgs_conform.specs.Samples.{number_at, text_at};
ghost use Rattle.pgs_differences.specs.Differences.{differences};
ghost use Rattle.pgs_differences.specs.Samples.{person, mistyped, at_other_key};
ghost use Rattle.pgs_differences.specs.Texts.{difference_text, separated};

/// A pair in the shape has no difference; one with a mistyped label and a text in place of a number has three; one with the number at
/// another key has two.
#[tactic(auto, unfolding(crate::specs::Differences::label_differences, crate::specs::Differences::key_differences, crate::specs::Differences::present_differences))]
pub fn differences_of_a_person()
    ensures none { differences person (pair_of (codes "Person" ∷ []) (number_at (codes "k"))) ≡ [] }
    ensures mistyped { differences person (pair_of (codes "Persno" ∷ []) (text_at (codes "k"))) ≡ mistyped }
    ensures other_key { differences person (pair_of (codes "Person" ∷ []) (number_at (codes "j"))) ≡ at_other_key }
{}

/// How they are printed.
pub fn texts_of_differences()
    ensures mistyped { separated (map difference_text mistyped)
        ≡ codes "lacks label Person; label Persno is not admitted; k is STRING, not INT" }
    ensures other_key { separated (map difference_text at_other_key) ≡ codes "lacks k INT; j is not admitted" }
{}
