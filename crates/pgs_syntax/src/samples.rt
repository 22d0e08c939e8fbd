//! What the definitions say of small schemas and graphs, which stand in `specs/Samples.antt`,
//! `specs/KeySamples.antt` and `specs/MatchSamples.antt`. The functions do nothing; their contracts are the statements.

ghost use Rattle.std.specs.Prelude.{◌≡◌, true, false, pos, negsuc, [], ◌∷◌, codes};
ghost use Rattle.pgs_base.specs.declared.part.Part.TheVariants as parts;
ghost use Rattle.pgs_base.specs.declared.value.Value.TheVariants.{Text, Int, Date};
ghost use Rattle.pgs_base.specs.Pair.{pair_of, is_pair};
ghost use Rattle.pgs_syntax.specs.declared.pattern.Atom.TheVariants.{Equals, FitsNode, FitsEdge};
ghost use Rattle.pgs_syntax.specs.declared.resolved.TypeNo.TheVariants.{Node};
ghost use Rattle.pgs_syntax.specs.declared.specification.Leaf.TheVariants.{Named};
ghost use Rattle.pgs_syntax.specs.declared.specification.Spec.{Word};
ghost use Rattle.pgs_syntax.specs.Closed.{is_closed, names_key};
ghost use Rattle.pgs_syntax.specs.KeySamples.{the_node, one_text, mail_key, mails, two_persons, holder, held_post};
ghost use Rattle.pgs_syntax.specs.KeyValues.{scope_of, key_values};
ghost use Rattle.pgs_syntax.specs.Matches.{matches};
ghost use Rattle.pgs_syntax.specs.MatchSamples.{the_edge, one_node, one_edge, one_step, next_node, edge_key, self_loop, parallel_edges, valued_edges, valued_nodes, both_ways};
ghost use Rattle.pgs_syntax.specs.Samples.{staff, ann, shared_key, labelled, with, open_type, either_type, open_labels, bare_type, abstract_types, acquaintance, acquainted, tied, ties, social, cyd, bob, two_steps, steps_to, moderator, forum, by_n4, by_n5, keyed, edge, qualifiers, two_apart, names_later, names_twice};
ghost use Rattle.pgs_syntax.specs.Typed.{is_typed_node, is_typed_edge};
ghost use Rattle.pgs_syntax.specs.Valid.{is_connected, is_valid, is_valid_key, is_valid_pattern};

/// Which rows are pairs: the names of labels and keys ascend, and values are in their range.
pub fn pairs()
    ensures ann_is_pair { is_pair ann ≡ true }
    ensures least_number { is_pair (with (codes "k") (Int (negsuc 9223372036854775807))) ≡ true }
    ensures descending { is_pair (labelled (codes "B" ∷ codes "A" ∷ [])) ≡ false }
    ensures no_name { is_pair (labelled (codes "1A" ∷ [])) ≡ false }
    ensures beyond_range { is_pair (with (codes "k") (Int (pos 9223372036854775808))) ≡ false }
    ensures no_text { is_pair (with (codes "k") (Text (255 ∷ []))) ≡ false }
    ensures no_day { is_pair (with (codes "k") (Date (2023, 2, 29))) ≡ false }
{}

/// A type that adds to a closed type types its own elements. The closed type alone doesn't.
pub fn heirs()
    ensures heir_typed { is_typed_node (staff (Node 0 ∷ Node 1 ∷ [])) ann ≡ true }
    ensures parent_closed { is_typed_node (staff (Node 0 ∷ [])) ann ≡ false }
{}

/// Where one part asks for a key and the other part leaves it optional, both have to be met by one value.
pub fn shared_keys()
    ensures first_kind { is_typed_node shared_key (with (codes "k") (Int (pos 5))) ≡ true }
    ensures other_kind { is_typed_node shared_key (with (codes "k") (Text (codes "s"))) ≡ false }
{}

/// With OPEN the keys that the braces don't name are free; those that they name are not.
pub fn open_braces()
    ensures named_key { is_typed_node open_type (with (codes "age") (Text (codes "x"))) ≡ false }
    ensures free_key { is_typed_node open_type (with (codes "zip") (Text (codes "x"))) ≡ true }
{}

/// A union, a conjunction and an optional part.
pub fn unions_and_options()
    ensures left_fits { is_typed_node either_type (labelled (codes "A" ∷ [])) ≡ true }
    ensures option_left_out { is_typed_node either_type (labelled (codes "B" ∷ [])) ≡ true }
    ensures option_taken { is_typed_node either_type (labelled (codes "B" ∷ codes "C" ∷ [])) ≡ true }
    ensures option_alone { is_typed_node either_type (labelled (codes "C" ∷ [])) ≡ false }
{}

/// With OPEN beside the labels further labels are free; those that are written have to be there.
pub fn open_labels()
    ensures further_label { is_typed_node open_labels (labelled (codes "A" ∷ codes "B" ∷ [])) ≡ true }
    ensures label_missing { is_typed_node open_labels (labelled (codes "B" ∷ [])) ≡ false }
{}

/// A type of which nothing is written has no labels and no properties.
pub fn bare_types()
    ensures empty_fits { is_typed_node bare_type (labelled []) ≡ true }
    ensures label_refused { is_typed_node bare_type (labelled (codes "A" ∷ [])) ≡ false }
    ensures key_refused { is_typed_node bare_type (with (codes "k") (Int (pos 5))) ≡ false }
{}

/// An abstract type makes no element typed.
pub fn abstract_types()
    ensures { is_typed_node abstract_types (pair_of (codes "A" ∷ []) []) ≡ false }
{}

/// An edge is typed by its ends too: without the label Q its source fits no more.
pub fn edge_ends()
    ensures edge_typed { is_typed_edge acquaintance (acquainted (codes "P" ∷ codes "Q" ∷ [])) (edge 1 1 2 (codes "knows")).1 ≡ true }
    ensures edge_untyped { is_typed_edge acquaintance (acquainted (codes "P" ∷ [])) (edge 1 1 2 (codes "knows")).1 ≡ false }
{}

/// An edge type whose middle is a union of another edge type and a label. The ends of the type that it names count too.
pub fn edge_unions()
    ensures by_label { is_typed_edge ties (tied (codes "Q" ∷ []) (codes "likes")) (edge 1 1 2 (codes "likes")).1 ≡ true }
    ensures by_type { is_typed_edge ties (tied (codes "P" ∷ codes "Q" ∷ []) (codes "knows")) (edge 1 1 2 (codes "knows")).1 ≡ true }
    ensures without_its_end { is_typed_edge ties (tied (codes "Q" ∷ []) (codes "knows")) (edge 1 1 2 (codes "knows")).1 ≡ false }
    ensures neither { is_typed_edge ties (tied (codes "P" ∷ codes "Q" ∷ []) (codes "hates")) (edge 1 1 2 (codes "hates")).1 ≡ false }
{}

/// Persons and employees of a social network. A salary wants the label Employee.
pub fn social_types()
    ensures person_typed { is_typed_node social cyd ≡ true }
    ensures employee_typed { is_typed_node social (bob (codes "Employee" ∷ codes "Person" ∷ [])) ≡ true }
    ensures salary_needs_label { is_typed_node social (bob (codes "Person" ∷ [])) ≡ false }
{}

/// A key value read at the end of two steps, and its absence.
pub fn values_at_a_distance()
    ensures steps_scope { scope_of (keyed (two_steps ∷ [])) (steps_to []) two_steps ≡ the_node 3 ∷ [] }
    ensures steps_value { key_values (keyed (two_steps ∷ [])) (steps_to ((codes "v", Int (pos 1)) ∷ [])) two_steps (the_node 3)
        ≡ (parts.Value (Int (pos 1)) ∷ []) ∷ [] }
    ensures steps_absent { key_values (keyed (two_steps ∷ [])) (steps_to []) two_steps (the_node 3) ≡ [] }
{}

/// A key value of a property and an element: one for each moderator of a forum.
pub fn values_of_parts()
    ensures forum_scope { scope_of (keyed (moderator ∷ [])) (forum (by_n4 ∷ [])) moderator ≡ the_node 1 ∷ [] }
    ensures one_moderator { key_values (keyed (moderator ∷ [])) (forum (by_n4 ∷ [])) moderator (the_node 1)
        ≡ (parts.Value (Text (codes "db")) ∷ parts.Elem (the_node 4) ∷ []) ∷ [] }
    ensures two_moderators { key_values (keyed (moderator ∷ [])) (forum (by_n4 ∷ by_n5 ∷ [])) moderator (the_node 1)
        ≡ (parts.Value (Text (codes "db")) ∷ parts.Elem (the_node 4) ∷ [])
        ∷ (parts.Value (Text (codes "db")) ∷ parts.Elem (the_node 5) ∷ []) ∷ [] }
{}

/// The scope of a key that says which type its elements fit, and a key value.
pub fn values_of_mails()
    ensures mail_scope { scope_of mails (two_persons (codes "a") (codes "b")) mail_key ≡ the_node 1 ∷ the_node 2 ∷ [] }
    ensures mail_value { key_values mails (two_persons (codes "a") (codes "b")) mail_key (the_node 1) ≡ one_text (codes "a") ∷ [] }
{}

/// The forum that holds a post, as the key value of the post.
pub fn values_of_holders()
    ensures post_scope { scope_of (keyed (holder ∷ [])) held_post holder ≡ the_node 20 ∷ [] }
    ensures post_holder { key_values (keyed (holder ∷ [])) held_post holder (the_node 20) ≡ (parts.Elem (the_node 10) ∷ []) ∷ [] }
{}

/// Two variables may take one element: both ends of an edge from a node to itself.
pub fn one_element_twice()
    ensures { matches (keyed []) self_loop (one_step (codes "r")) ≡ (the_node 1 ∷ the_edge 1 ∷ the_node 1 ∷ []) ∷ [] }
{}

/// Parallel edges are two matches, which give one key value.
pub fn matches_of_parallel_edges()
    ensures two_matches { matches (keyed []) parallel_edges (one_step (codes "r"))
        ≡ (the_node 1 ∷ the_edge 1 ∷ the_node 2 ∷ []) ∷ (the_node 1 ∷ the_edge 2 ∷ the_node 2 ∷ []) ∷ [] }
    ensures one_value { key_values (keyed []) parallel_edges (next_node (qualifiers true true true) (codes "r")) (the_node 1)
        ≡ (parts.Elem (the_node 2) ∷ []) ∷ [] }
{}

/// Edges as elements of a scope, with a key value and without.
pub fn edges_in_a_scope()
    ensures edge_scope { scope_of (keyed []) valued_edges (edge_key (qualifiers true true true))
        ≡ the_edge 1 ∷ the_edge 2 ∷ the_edge 3 ∷ [] }
    ensures edge_value { key_values (keyed []) valued_edges (edge_key (qualifiers true true true)) (the_edge 2)
        ≡ (parts.Value (Int (pos 5)) ∷ []) ∷ [] }
    ensures edge_without { key_values (keyed []) valued_edges (edge_key (qualifiers true true true)) (the_edge 3) ≡ [] }
    ensures valid_edge_key { is_valid_key (edge_key (qualifiers true true true)) ≡ true }
{}

/// A property is present with a value: not with another one, not with one of another kind, and not absent.
pub fn values_in_patterns()
    ensures number { matches (keyed []) valued_nodes (one_node (Equals 0 (codes "k") (Int (pos 5)) ∷ [])) ≡ (the_node 1 ∷ []) ∷ [] }
    ensures text { matches (keyed []) valued_nodes (one_node (Equals 0 (codes "k") (Text (codes "5")) ∷ [])) ≡ (the_node 3 ∷ []) ∷ [] }
    ensures other_key { matches (keyed []) valued_nodes (one_node (Equals 0 (codes "j") (Int (pos 5)) ∷ [])) ≡ [] }
    ensures of_edges { matches (keyed []) valued_edges (one_edge (Equals 0 (codes "k") (Int (pos 5)) ∷ []))
        ≡ (the_edge 1 ∷ []) ∷ (the_edge 2 ∷ []) ∷ [] }
{}

/// The edges that fit an edge type, whose source has to fit too. No node fits an edge type, and no edge a node type.
pub fn types_in_patterns()
    ensures fitting_edges { matches acquaintance both_ways (one_edge (FitsEdge 0 0 ∷ [])) ≡ (the_edge 1 ∷ []) ∷ [] }
    ensures fitting_nodes { matches acquaintance both_ways (one_node (FitsNode 0 1 ∷ [])) ≡ (the_node 1 ∷ []) ∷ [] }
    ensures nodes_for_edges { matches acquaintance both_ways (one_node (FitsEdge 0 0 ∷ [])) ≡ [] }
    ensures edges_for_nodes { matches acquaintance both_ways (one_edge (FitsNode 0 0 ∷ [])) ≡ [] }
{}

/// Which specifications are closed, and which keys they name, in braces of their own or of the types that they name.
pub fn closedness()
    ensures employee_closed { is_closed social (Word (Named 2)) ≡ true }
    ensures own_key { names_key social (Word (Named 2)) (codes "salary") ≡ true }
    ensures parents_key { names_key social (Word (Named 2)) (codes "name") ≡ true }
    ensures other_key { names_key social (Word (Named 2)) (codes "age") ≡ false }
    ensures open_not_closed { is_closed open_type (Word (Named 0)) ≡ false }
{}

/// Schemas and keys that are valid, and some that aren't: a pattern in two parts, a type that names a later one, braces
/// that name a key twice.
pub fn validity()
    ensures valid_social { is_valid social ≡ true }
    ensures valid_acquaintance { is_valid acquaintance ≡ true }
    ensures valid_moderator { is_valid_key moderator ≡ true }
    ensures valid_steps { is_valid_key two_steps ≡ true }
    ensures valid_ties { is_valid ties ≡ true }
    ensures valid_mails { is_valid mails ≡ true }
    ensures valid_holder { is_valid_key holder ≡ true }
    ensures unconnected { is_connected two_apart ≡ false }
    ensures apart { is_valid_pattern two_apart ≡ false }
    ensures too_early { is_valid names_later ≡ false }
    ensures twice { is_valid names_twice ≡ false }
{}
