//! What the meaning of shapes is on small labels and properties. The functions do nothing; their contracts are the statements.

ghost use Rattle.std.specs.Prelude.{◌≡◌, true, false, [], ◌∷◌, codes};
ghost use Rattle.pgs_conform.specs.Samples.{a_number, maybe_number, at_k, number_at, text_at};
ghost use Rattle.pgs_conform.specs.Shapes.{labels_meet, props_meet};

/// Labels that are asked for have to be there, and further ones are let in where more are free.
pub fn labels_of_shapes()
    ensures there { labels_meet (codes "A" ∷ []) false (codes "A" ∷ []) ≡ true }
    ensures missing { labels_meet (codes "A" ∷ []) true (codes "B" ∷ []) ≡ false }
    ensures further { labels_meet (codes "A" ∷ []) false (codes "A" ∷ codes "B" ∷ []) ≡ false }
    ensures free { labels_meet (codes "A" ∷ []) true (codes "A" ∷ codes "B" ∷ []) ≡ true }
    ensures none { labels_meet [] false [] ≡ true }
{}

/// At a key that is named its options decide, also where more keys are free; other keys are let in there alone.
pub fn keys_of_shapes()
    ensures fitting { props_meet (at_k a_number) false (number_at (codes "k")) ≡ true }
    ensures other_kind { props_meet (at_k a_number) true (text_at (codes "k")) ≡ false }
    ensures required { props_meet (at_k a_number) true [] ≡ false }
    ensures optional { props_meet (at_k maybe_number) false [] ≡ true }
    ensures further { props_meet (at_k maybe_number) false (number_at (codes "l")) ≡ false }
    ensures free { props_meet (at_k maybe_number) true (number_at (codes "l")) ≡ true }
{}
