//! Laws of what is told. The functions do nothing; their contracts are the statements.

ghost use Rattle.std.specs.Prelude.{◌≡◌, true, List, Contains};
ghost use Rattle.pgs_base.specs.declared.element.Elem.{Elem};
ghost use Rattle.pgs_base.specs.declared.part.Part.{Part};
ghost use Rattle.pgs_base.specs.Graph.{Graph};
ghost use Rattle.pgs_syntax.specs.declared.key.Key.{Key};
ghost use Rattle.pgs_syntax.specs.declared.resolved.Resolved.{Resolved};
ghost use Rattle.pgs_syntax.specs.KeyValues.{key_values};
ghost use Rattle.pgs_syntax.specs.declared.resolved.TypeNo.{TypeNo};
ghost use Rattle.pgs_syntax.specs.Valid.{is_valid};
ghost use Rattle.pgs_advice.specs.Subtypes.{names, Names};
ghost use Rattle.pgs_advice.specs.Used.{is_used, IsUsed};
ghost use Rattle.pgs_advice.specs.Void.{has_void_singleton, has_void_exclusive};

/// Where SINGLETON is told of as void, an element has at most one key value, in every graph.
pub fn void_singletons()
    ensures { (resolved : Resolved) (g : Graph) (key : Key) (elem : Elem) (tuple other : List Part) → has_void_singleton key ≡ true →
        Contains (key_values resolved g key elem) tuple → Contains (key_values resolved g key elem) other → tuple ≡ other }
{}

/// Where EXCLUSIVE is told of as void, no two elements share a key value, in every graph.
pub fn void_exclusives()
    ensures { (resolved : Resolved) (g : Graph) (key : Key) (elem other : Elem) (tuple : List Part) → has_void_exclusive key ≡ true →
        Contains (key_values resolved g key elem) tuple → Contains (key_values resolved g key other) tuple → elem ≡ other }
{}

/// Exactly those types are told of as used that are: the guard lists them, a pattern of its keys names them, or a used type does.
pub fn used_types()
    ensures found { (resolved : Resolved) (type : TypeNo) → is_valid resolved ≡ true → is_used resolved type ≡ true → IsUsed resolved type }
    ensures whole { (resolved : Resolved) (type : TypeNo) → is_valid resolved ≡ true → IsUsed resolved type → is_used resolved type ≡ true }
{}

/// A type is told of as naming another exactly where it does, itself or through others.
pub fn named_types()
    ensures found { (resolved : Resolved) (own base : TypeNo) → is_valid resolved ≡ true → names resolved own base ≡ true → Names resolved own base }
    ensures whole { (resolved : Resolved) (own base : TypeNo) → is_valid resolved ≡ true → Names resolved own base → names resolved own base ≡ true }
{}
