//! Laws on walks. The functions do nothing; their contracts are the statements.

ghost use Rattle.std.specs.Prelude.{◌≡◌, ℕ, ◌==◌, true, length, nat_lt};
ghost use Rattle.std.specs.List.{list_all};
ghost use Rattle.pgs_syntax.specs.declared.raw.RawKey.{RawKey};
ghost use Rattle.pgs_syntax.specs.declared.resolved.Resolved.{Resolved};
ghost use Rattle.pgs_syntax.specs.Valid.{are_distinct, is_valid_key_of};
ghost use Rattle.pgs_resolve_declared.specs.declared.order.Numbering.{Numbering};
ghost use Rattle.pgs_resolve_keys.specs.KeyFaults.{within_of};
ghost use Rattle.pgs_resolve_keys.specs.Patterns.{places_of, resolved_key};
ghost use Rattle.pgs_pattern_end.specs.End.{is_front_of};
ghost use Rattle.pgs_key_causes.specs.declared.walk.Visit.{Visit};
ghost use Rattle.pgs_key_causes.specs.Fronts.{descriptor_of, place_fronts, expr_fronts};
ghost use Rattle.pgs_key_causes.specs.Walk.{is_visited, walk};

/// The keys by which it is asked where the pattern of a valid key ends are valid, and name types that are there.
pub fn the_parts_of_a_walk_are_valid()
    ensures places { (schema : Resolved) (numbering : Numbering) (key : RawKey) → is_valid_key_of schema (resolved_key numbering key) ≡ true →
        list_all (is_front_of schema) (place_fronts numbering (descriptor_of numbering key) key.qualifiers) ≡ true }
    ensures exprs { (schema : Resolved) (numbering : Numbering) (key : RawKey) → is_valid_key_of schema (resolved_key numbering key) ≡ true →
        list_all (is_front_of schema) (expr_fronts (resolved_key numbering key)) ≡ true }
{}

/// The walk over the written descriptor of a valid key visits each of its places, and none twice.
pub fn a_walk_visits_each_place_once()
    ensures each { (schema : Resolved) (numbering : Numbering) (key : RawKey) → is_valid_key_of schema (resolved_key numbering key) ≡ true → (n : ℕ) →
        is_visited (walk (descriptor_of numbering key).occurrences) n ≡ nat_lt n (length (places_of (within_of key))) }
    ensures once { (numbering : Numbering) (key : RawKey) →
        are_distinct (λ (a : Visit) (b : Visit). a.place == b.place) (walk (descriptor_of numbering key).occurrences) ≡ true }
{}
