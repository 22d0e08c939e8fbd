//! What the definitions say of small graphs and transactions, which stand in `specs/Samples.antt`,
//! `specs/StagingSamples.antt` and `specs/KeySamples.antt`. The functions do nothing; their contracts are the statements.

ghost use Rattle.std.specs.Prelude.{◌≡◌, true, false, [], ◌∷◌, Some, Ok, Err, pos, codes};
ghost use Rattle.pgs_base.specs.declared.part.Part.TheVariants as parts;
ghost use Rattle.pgs_base.specs.declared.value.Value.TheVariants.{Text, Int};
ghost use Rattle.pgs_base.specs.Graph.{empty_graph};
ghost use Rattle.pgs_syntax.specs.KeySamples.{the_node, one_text, mails, mail, two_persons};
ghost use Rattle.pgs_syntax.specs.MatchSamples.{the_edge, next_node, edge_key, valued_edges};
ghost use Rattle.pgs_syntax.specs.Samples.{qualifiers, counted, acquaintance, acquainted, two_steps, steps_to, moderator, forum, by_n4, by_n5, keyed};
ghost use Rattle.pgs_violation.specs.declared.rejection.Rejection.TheVariants as rejections;
ghost use Rattle.pgs_violation.specs.declared.structural.Cause.TheVariants.{AlreadyThere, NoNode, NoEdge, HasEdges};
ghost use Rattle.pgs_violation.specs.declared.structural.Structural.TheVariants.{TooManyOps, BadOp, ElementTooLarge, TooManyElements};
ghost use Rattle.pgs_violation.specs.declared.violation.Verdict.TheVariants.{Conforms};
ghost use Rattle.pgs_violation.specs.declared.violation.Violation.TheVariants.{UntypedNode, UntypedEdge, Mandatory, Singleton, Exclusive, CountOutside};
ghost use Rattle.pgs_violation.specs.Decision.{judged, decide, decisions};
ghost use Rattle.pgs_violation.specs.KeySamples.{three_with, three_values, one_twice, later_sharer, each_kind, each_kind_twice};
ghost use Rattle.pgs_violation.specs.Samples.{limits, tight, narrow, txn, add_node, add_edge, remove_node, detach_node, remove_edge, set_mail, unset, add_two_persons, one_mail, lone, looped, many_labels, abstractly_tied};
ghost use Rattle.pgs_violation.specs.Staging.{staged};
ghost use Rattle.pgs_violation.specs.StagingSamples.{many_props, add_node_with, add_edge_with, set_node, set_edge, label_node, label_edge, unset_edge, unlabel_node, unlabel_edge, set_key, loop_with, two_ways, second_alone};
ghost use Rattle.pgs_violation.specs.Violations.{violations, verdict};

/// Only the graph after all operations is judged: one change of a mail is refused, since it makes two equal, and the
/// exchange of both mails is accepted.
pub fn decided_as_a_whole()
    ensures { decisions limits (verdict mails) empty_graph
        (add_two_persons (codes "a") (codes "b") ∷ txn (set_mail 1 (codes "b") ∷ [])
        ∷ txn (set_mail 1 (codes "b") ∷ set_mail 2 (codes "a") ∷ []) ∷ [])
        ≡ Ok (two_persons (codes "a") (codes "b"))
        ∷ Err (rejections.Violation (Exclusive 1 (the_node 1) (the_node 2) (one_text (codes "b"))))
        ∷ Ok (two_persons (codes "b") (codes "a")) ∷ [] }
{}

/// The limit on elements goes before types and keys: of a node too many that isn't typed the number of elements is told.
pub fn limits_before_types()
    ensures within { decide limits (verdict mails) (lone (codes "Person" ∷ []) (mail (codes "a"))) (txn (add_node 2 [] ∷ []))
        ≡ Err (rejections.Violation (UntypedNode (record { 0 = 2 }))) }
    ensures beyond { decide tight (verdict mails) (lone (codes "Person" ∷ []) (mail (codes "a"))) (txn (add_node 2 [] ∷ []))
        ≡ Err (rejections.Structural (TooManyElements 2)) }
    ensures of_a_graph { judged tight (verdict mails) one_mail ≡ Err (rejections.Structural (TooManyElements 4)) }
{}

/// A mandatory key value that is read two steps away.
pub fn missing_value()
    ensures value_there { verdict (keyed (two_steps ∷ [])) (steps_to ((codes "v", Int (pos 1)) ∷ [])) ≡ Conforms }
    ensures value_absent { violations (keyed (two_steps ∷ [])) (steps_to []) ≡ Mandatory 1 (the_node 3) ∷ [] }
{}

/// A forum with one moderator, and with two.
pub fn second_value()
    ensures one_moderator { verdict (keyed (moderator ∷ [])) (forum (by_n4 ∷ [])) ≡ Conforms }
    ensures two_moderators { violations (keyed (moderator ∷ [])) (forum (by_n4 ∷ by_n5 ∷ []))
        ≡ Singleton 1 (the_node 1) (parts.Value (Text (codes "db")) ∷ parts.Elem (the_node 4) ∷ [])
        (parts.Value (Text (codes "db")) ∷ parts.Elem (the_node 5) ∷ []) ∷ [] }
{}

/// An edge whose source doesn't fit its type, between nodes that are typed.
pub fn untyped_edge()
    ensures { violations acquaintance (acquainted (codes "P" ∷ [])) ≡ UntypedEdge (record { 0 = 1 }) ∷ [] }
{}

/// A label that its type doesn't name leaves a node untyped.
pub fn further_label()
    ensures { violations mails (lone (codes "Member" ∷ codes "Person" ∷ []) (mail (codes "a"))) ≡ UntypedNode (record { 0 = 1 }) ∷ [] }
{}

/// An edge that fits an abstract type alone is untyped.
pub fn abstract_edge_type()
    ensures { violations abstractly_tied (acquainted (codes "P" ∷ [])) ≡ UntypedEdge (record { 0 = 1 }) ∷ [] }
{}

/// Three nodes that share a value: each but the last is named with the next one. The untyped node comes first.
pub fn shared_value()
    ensures { violations mails one_mail
        ≡ UntypedNode (record { 0 = 4 }) ∷ Exclusive 1 (the_node 1) (the_node 2) (one_text (codes "a"))
        ∷ Exclusive 1 (the_node 2) (the_node 3) (one_text (codes "a")) ∷ [] }
{}

/// A node is added with an edge at it. It is then not removed by itself, but with its edge.
pub fn nodes_with_edges()
    ensures added { staged limits empty_graph (txn (add_node 1 [] ∷ add_edge 1 1 1 (codes "knows") ∷ [])) ≡ Ok looped }
    ensures removal_refused { staged limits looped (txn (remove_node 1 ∷ []))
        ≡ Err (BadOp 1 (HasEdges (record { 0 = 1 }) (record { 0 = 1 }))) }
    ensures detachment { staged limits looped (txn (detach_node 1 ∷ [])) ≡ Ok empty_graph }
{}

/// A node is detached with the edges that go out of it and that come in, and with no other.
pub fn edges_of_a_detached_node()
    ensures { staged limits two_ways (txn (detach_node 1 ∷ [])) ≡ Ok second_alone }
{}

/// What operations leave of labels and properties, of a node and of an edge.
pub fn rows_after_operations()
    ensures node_labels { staged limits (lone (codes "B" ∷ []) [])
        (txn (label_node 1 (codes "C") ∷ label_node 1 (codes "A") ∷ unlabel_node 1 (codes "B") ∷ []))
        ≡ Ok (lone (codes "A" ∷ codes "C" ∷ []) []) }
    ensures node_props { staged limits (lone [] (set_key (codes "j"))) (txn (set_node 1 (codes "i") ∷ unset 1 (codes "j") ∷ []))
        ≡ Ok (lone [] (set_key (codes "i"))) }
    ensures edge_labels { staged limits (loop_with (codes "B" ∷ []) [])
        (txn (label_edge 1 (codes "C") ∷ label_edge 1 (codes "A") ∷ unlabel_edge 1 (codes "B") ∷ []))
        ≡ Ok (loop_with (codes "A" ∷ codes "C" ∷ []) []) }
    ensures edge_props { staged limits (loop_with [] (set_key (codes "j"))) (txn (set_edge 1 (codes "i") ∷ unset_edge 1 (codes "j") ∷ []))
        ≡ Ok (loop_with [] (set_key (codes "i"))) }
{}

/// Too many operations, too many elements, and an element with as many labels as it may have and with one more.
pub fn limits_of_transactions()
    ensures second_operation { staged tight empty_graph (txn (add_node 1 [] ∷ add_node 2 [] ∷ [])) ≡ Err (TooManyOps 2) }
    ensures second_node { staged tight (lone [] []) (txn (add_node 2 [] ∷ [])) ≡ Err (TooManyElements 2) }
    ensures most_labels { staged tight empty_graph (txn (add_node 1 (many_labels 64) ∷ [])) ≡ Ok (lone (many_labels 64) []) }
    ensures too_many_labels { staged tight empty_graph (txn (add_node 1 (many_labels 65) ∷ [])) ≡ Err (ElementTooLarge 1) }
{}

/// The number of operations goes before what is at fault in one, and this before the number of elements, which is that of the graph after
/// all operations.
pub fn order_of_limits()
    ensures operations_first { staged tight empty_graph (txn (remove_edge 7 ∷ remove_edge 7 ∷ [])) ≡ Err (TooManyOps 2) }
    ensures elements_last { staged narrow (lone [] []) (txn (add_node 2 [] ∷ remove_edge 7 ∷ [])) ≡ Err (BadOp 2 (NoEdge (record { 0 = 7 }))) }
    ensures after_all { staged narrow (lone [] []) (txn (add_node 2 [] ∷ remove_node 2 ∷ [])) ≡ Ok (lone [] []) }
{}

/// Elements that aren't there.
pub fn absent_elements()
    ensures edge_without_node { staged limits empty_graph (txn (add_edge 1 1 1 (codes "knows") ∷ []))
        ≡ Err (BadOp 1 (NoNode (record { 0 = 1 }))) }
    ensures absent_edge { staged limits empty_graph (txn (remove_edge 7 ∷ [])) ≡ Err (BadOp 1 (NoEdge (record { 0 = 7 }))) }
{}

/// Each operation finds the graph as the ones before it leave it. An absent property may be unset.
pub fn one_after_another()
    ensures added_again { staged limits empty_graph (txn (add_node 1 (codes "A" ∷ []) ∷ remove_node 1 ∷ add_node 1 (codes "B" ∷ []) ∷ []))
        ≡ Ok (lone (codes "B" ∷ []) []) }
    ensures set_and_unset { staged limits (lone [] []) (txn (set_mail 1 (codes "a") ∷ unset 1 (codes "name") ∷ []))
        ≡ Ok (lone [] (mail (codes "a"))) }
{}

/// An element that is there isn't added again.
pub fn elements_that_are_there()
    ensures node { staged limits looped (txn (add_node 1 [] ∷ [])) ≡ Err (BadOp 1 (AlreadyThere (the_node 1))) }
    ensures edge { staged limits looped (txn (add_node 2 [] ∷ add_edge 1 1 2 (codes "knows") ∷ []))
        ≡ Err (BadOp 2 (AlreadyThere (the_edge 1))) }
{}

/// Adding an edge tests the edge's own number first, then the source, then the target.
pub fn order_of_an_edges_tests()
    ensures number { staged limits looped (txn (add_edge 1 8 9 (codes "knows") ∷ [])) ≡ Err (BadOp 1 (AlreadyThere (the_edge 1))) }
    ensures source { staged limits looped (txn (add_edge 2 8 9 (codes "knows") ∷ [])) ≡ Err (BadOp 1 (NoNode (record { 0 = 8 }))) }
    ensures target { staged limits looped (txn (add_edge 2 1 9 (codes "knows") ∷ [])) ≡ Err (BadOp 1 (NoNode (record { 0 = 9 }))) }
{}

/// In one operation what can't be done goes before what would be too large. Of several operations the first at fault counts.
pub fn causes_before_sizes()
    ensures node_there { staged limits looped (txn (add_node 1 (many_labels 65) ∷ [])) ≡ Err (BadOp 1 (AlreadyThere (the_node 1))) }
    ensures no_source { staged limits looped (txn (add_edge_with 2 8 1 (many_labels 65) ∷ [])) ≡ Err (BadOp 1 (NoNode (record { 0 = 8 }))) }
    ensures no_target { staged limits looped (txn (add_edge_with 2 1 9 (many_labels 65) ∷ [])) ≡ Err (BadOp 1 (NoNode (record { 0 = 9 }))) }
    ensures size_first { staged limits looped (txn (add_node 2 (many_labels 65) ∷ remove_edge 7 ∷ [])) ≡ Err (ElementTooLarge 1) }
{}

/// An element with as many labels as it may have, and one label more or one that is there.
pub fn sizes_by_labelling()
    ensures new_label { staged limits (lone (many_labels 64) []) (txn (label_node 1 (codes "M") ∷ [])) ≡ Err (ElementTooLarge 1) }
    ensures same_label { staged limits (lone (many_labels 64) []) (txn (label_node 1 (codes "L63") ∷ [])) ≡ Ok (lone (many_labels 64) []) }
    ensures of_edge { staged limits (loop_with (many_labels 64) []) (txn (label_edge 1 (codes "M") ∷ [])) ≡ Err (ElementTooLarge 1) }
{}

/// An element with as many properties as it may have, and one property more or one that is there.
pub fn sizes_by_setting()
    ensures new_key { staged limits (lone [] (many_props 256)) (txn (set_node 1 (codes "m") ∷ [])) ≡ Err (ElementTooLarge 1) }
    ensures same_key { staged limits (lone [] (many_props 256)) (txn (set_node 1 (codes "kaa") ∷ [])) ≡ Ok (lone [] (many_props 256)) }
    ensures of_edge { staged limits (loop_with [] (many_props 256)) (txn (set_edge 1 (codes "m") ∷ [])) ≡ Err (ElementTooLarge 1) }
{}

/// A node is added with as many properties as it may have, and not with one more.
pub fn limits_of_properties()
    ensures most { staged limits empty_graph (txn (add_node_with 1 (many_props 256) ∷ [])) ≡ Ok (lone [] (many_props 256)) }
    ensures one_more { staged limits empty_graph (txn (add_node_with 1 (many_props 257) ∷ [])) ≡ Err (ElementTooLarge 1) }
{}

/// Of the edges that are in the way of a removal the least is named, whether the node is its source or its target.
pub fn edges_in_the_way()
    ensures least { staged limits two_ways (txn (remove_node 1 ∷ [])) ≡ Err (BadOp 1 (HasEdges (record { 0 = 1 }) (record { 0 = 2 }))) }
    ensures next { staged limits two_ways (txn (remove_edge 2 ∷ remove_node 1 ∷ []))
        ≡ Err (BadOp 2 (HasEdges (record { 0 = 1 }) (record { 0 = 5 }))) }
{}

/// An element with three key values: the two least are named.
pub fn three_values_of_one()
    ensures { violations (keyed (next_node (qualifiers false true false) (codes "r") ∷ [])) (three_with three_values)
        ≡ Singleton 1 (the_node 1) (parts.Elem (the_node 7) ∷ []) (parts.Elem (the_node 8) ∷ []) ∷ [] }
{}

/// Two elements share two tuples, and the first of them shares none with the element between: the later one is named, with the
/// least tuple.
pub fn a_later_sharer()
    ensures { violations (keyed (next_node (qualifiers false false true) (codes "r") ∷ [])) (three_with later_sharer)
        ≡ Exclusive 1 (the_node 1) (the_node 3) (parts.Elem (the_node 8) ∷ []) ∷ [] }
{}

/// The violations of one key go by their numbers.
pub fn violations_of_one_key()
    ensures { violations (keyed (next_node (qualifiers true true true) (codes "r") ∷ [])) (three_with each_kind)
        ≡ Mandatory 1 (the_node 1) ∷ Singleton 1 (the_node 2) (parts.Elem (the_node 7) ∷ []) (parts.Elem (the_node 8) ∷ [])
        ∷ Exclusive 1 (the_node 2) (the_node 3) (parts.Elem (the_node 8) ∷ []) ∷ [] }
{}

/// Too many key values, and none where one is asked. Two edges to one node are one value.
pub fn counts_of_values()
    ensures outside { violations (keyed (next_node (counted 1 2) (codes "r") ∷ [])) (three_with three_values)
        ≡ CountOutside 1 (the_node 1) 3 1 2 ∷ CountOutside 1 (the_node 2) 0 1 2 ∷ CountOutside 1 (the_node 3) 0 1 2 ∷ [] }
    ensures value_twice { violations (keyed (next_node (counted 0 1) (codes "r") ∷ [])) (three_with one_twice) ≡ [] }
{}

/// Of one key the numbers of values come last.
pub fn counts_after_the_others()
    ensures { violations (keyed (next_node (record (qualifiers true true true) { count = Some (1, 1) }) (codes "r") ∷ [])) (three_with each_kind)
        ≡ Mandatory 1 (the_node 1) ∷ Singleton 1 (the_node 2) (parts.Elem (the_node 7) ∷ []) (parts.Elem (the_node 8) ∷ [])
        ∷ Exclusive 1 (the_node 2) (the_node 3) (parts.Elem (the_node 8) ∷ [])
        ∷ CountOutside 1 (the_node 1) 0 1 1 ∷ CountOutside 1 (the_node 2) 2 1 1 ∷ [] }
{}

/// All violations of the first key go before those of the second.
pub fn violations_of_two_keys()
    ensures { violations
        (keyed (next_node (qualifiers true true true) (codes "r") ∷ next_node (qualifiers true true true) (codes "s") ∷ []))
        (three_with each_kind_twice)
        ≡ Mandatory 1 (the_node 1) ∷ Singleton 1 (the_node 2) (parts.Elem (the_node 7) ∷ []) (parts.Elem (the_node 8) ∷ [])
        ∷ Exclusive 1 (the_node 2) (the_node 3) (parts.Elem (the_node 8) ∷ [])
        ∷ Mandatory 2 (the_node 1) ∷ Singleton 2 (the_node 2) (parts.Elem (the_node 7) ∷ []) (parts.Elem (the_node 8) ∷ [])
        ∷ Exclusive 2 (the_node 2) (the_node 3) (parts.Elem (the_node 8) ∷ []) ∷ [] }
{}

/// Edges as the elements of a key.
pub fn violations_of_edges()
    ensures { violations (keyed (edge_key (qualifiers true true true) ∷ [])) valued_edges
        ≡ Mandatory 1 (the_edge 3) ∷ Exclusive 1 (the_edge 1) (the_edge 2) (parts.Value (Int (pos 5)) ∷ []) ∷ [] }
{}
