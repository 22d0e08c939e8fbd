//! Laws that show that the places of a key mean what they should. The functions do nothing; their contracts are the statements.

ghost use Rattle.std.specs.Prelude.{◌≡◌, ◌↔◌, true};
ghost use Rattle.pgs_syntax.specs.declared.key.Key.{Key};
ghost use Rattle.pgs_syntax.specs.declared.resolved.Resolved.{Resolved};
ghost use Rattle.pgs_syntax.specs.Valid.{is_valid_key};
ghost use Rattle.pgs_key_standing.specs.Joint.{scope_places, value_places};
ghost use Rattle.pgs_key_standing.specs.Placed.{HasPairs};
ghost use Rattle.pgs_key_standing.specs.Reach.{HasScope, HasValue};

/// Some graph all of whose elements can stand has an element in the scope of a valid key exactly where each place of the scope can be
/// given a pair, each edge place with its ends a triple, that can stand, so that every demand holds.
pub fn scopes_are_by_places()
    ensures { (resolved : Resolved) (key : Key) → is_valid_key key ≡ true → HasScope resolved key ↔ HasPairs resolved (scope_places key) }
{}

/// In some such graph an element of the scope has a key value exactly where so it is with the places of scope and descriptor together,
/// and each property that an expression reads is there.
pub fn values_are_by_places()
    ensures { (resolved : Resolved) (key : Key) → is_valid_key key ≡ true → HasValue resolved key ↔ HasPairs resolved (value_places key) }
{}
