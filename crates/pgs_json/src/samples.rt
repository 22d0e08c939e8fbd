//! Small lines and texts, and what the definitions make of them: each of these functions does nothing,
//! and its contract is the sample.

ghost use Rattle.std.specs.Prelude.{◌≡◌, [], ◌∷◌, ◌++◌, ◌^◌, ℕ, List, pos, negsuc, true, Some, None, codes, decimal};
ghost use Rattle.pgs_base.specs.declared.value.Value.TheVariants as values;
ghost use Rattle.pgs_graph.specs.declared.operation.Op.TheVariants.{AddNode, AddEdge, RemoveNode, DetachNode, RemoveEdge, SetNode, UnsetNode, LabelNode, UnlabelNode, SetEdge, UnsetEdge, LabelEdge, UnlabelEdge};
ghost use Rattle.pgs_graph.specs.declared.operation.Txn.{Txn};
ghost use Rattle.serde_json.specs.Data.{string, array, item, no_items};
ghost use Rattle.pgs_json.specs.Form.{labels_of};
ghost use Rattle.pgs_json.specs.Commit.{commit_of};
ghost use Rattle.pgs_json.specs.Line.{txn_of};
ghost use Rattle.pgs_json.specs.Canonical.{text_of_txn};

/// Adds of nodes and edges, with labels and properties or without.
pub fn lines_that_add()
    ensures nothing { txn_of (codes "{\"ops\":[]}") ≡ Some (record { ops = [] }) }
    ensures node { txn_of (codes "{\"ops\":[{\"add_node\":1}]}")
        ≡ Some (record { ops = AddNode (record { 0 = 1 }) [] [] ∷ [] }) }
    ensures loop_edge { txn_of (codes "{\"ops\":[{\"add_node\":1},{\"add_edge\":1,\"from\":1,\"to\":1}]}")
        ≡ Some (record {
          ops = AddNode (record { 0 = 1 }) [] []
              ∷ AddEdge (record { 0 = 1 }) (record { 0 = 1 }) (record { 0 = 1 }) [] [] ∷ [];
        }) }
    ensures spaces { txn_of (codes " { \"ops\" : [ { \"to\":2, \"from\":1, \"add_edge\":7 } ] } ")
        ≡ Some (record { ops = AddEdge (record { 0 = 7 }) (record { 0 = 1 }) (record { 0 = 2 }) [] [] ∷ [] }) }
    ensures labels { txn_of (codes "{\"ops\":[{\"add_node\":2,\"labels\":[\"Person\",\"Employee\",\"Person\"],\"props\":{\"name\":\"Bob\",\"age\":7}}]}")
        ≡ Some (record {
          ops = AddNode (record { 0 = 2 }) (codes "Employee" ∷ codes "Person" ∷ [])
              ((codes "age", values.Int (pos 7)) ∷ (codes "name", values.Text (codes "Bob")) ∷ []) ∷ [];
        }) }
    ensures greatest { txn_of (codes "{\"ops\":[{\"add_node\":18446744073709551615}]}")
        ≡ Some (record { ops = AddNode (record { 0 = 18446744073709551615 }) [] [] ∷ [] }) }
{}

/// The other operations.
pub fn lines_that_change()
    ensures remove { txn_of (codes "{\"ops\":[{\"remove_node\":1}]}") ≡ Some (record { ops = RemoveNode (record { 0 = 1 }) ∷ [] }) }
    ensures detach { txn_of (codes "{\"ops\":[{\"detach_node\":1}]}") ≡ Some (record { ops = DetachNode (record { 0 = 1 }) ∷ [] }) }
    ensures remove_edge { txn_of (codes "{\"ops\":[{\"remove_edge\":7}]}") ≡ Some (record { ops = RemoveEdge (record { 0 = 7 }) ∷ [] }) }
    ensures set { txn_of (codes "{\"ops\":[{\"set_node\":1,\"key\":\"k\",\"value\":true},{\"unset_node\":1,\"key\":\"z\"}]}")
        ≡ Some (record { ops = SetNode (record { 0 = 1 }) (codes "k") (values.Bool true) ∷ UnsetNode (record { 0 = 1 }) (codes "z") ∷ [] }) }
    ensures label { txn_of (codes "{\"ops\":[{\"unlabel_node\":1,\"label\":\"Q\"},{\"label\":\"NODE\",\"label_node\":1}]}")
        ≡ Some (record { ops = UnlabelNode (record { 0 = 1 }) (codes "Q") ∷ LabelNode (record { 0 = 1 }) (codes "NODE") ∷ [] }) }
    ensures edges { txn_of (codes "{\"ops\":[{\"set_edge\":1,\"key\":\"k\",\"value\":\"v\"},{\"unset_edge\":1,\"key\":\"z\"},{\"label_edge\":1,\"label\":\"P\"},{\"unlabel_edge\":1,\"label\":\"Q\"}]}")
        ≡ Some (record {
          ops = SetEdge (record { 0 = 1 }) (codes "k") (values.Text (codes "v")) ∷ UnsetEdge (record { 0 = 1 }) (codes "z")
              ∷ LabelEdge (record { 0 = 1 }) (codes "P") ∷ UnlabelEdge (record { 0 = 1 }) (codes "Q") ∷ [];
        }) }
    ensures last_of_two { txn_of (codes "{\"ops\":[{\"remove_node\":1,\"remove_node\":2}]}") ≡ Some (record { ops = RemoveNode (record { 0 = 2 }) ∷ [] }) }
{}

/// The least and the greatest whole number, and days.
pub fn lines_with_values()
    ensures least { txn_of (codes "{\"ops\":[{\"add_node\":1,\"props\":{\"k\":-9223372036854775808}}]}")
        ≡ Some (record { ops = AddNode (record { 0 = 1 }) [] ((codes "k", values.Int (negsuc 9223372036854775807)) ∷ []) ∷ [] }) }
    ensures greatest { txn_of (codes "{\"ops\":[{\"add_node\":2,\"props\":{\"k\":9223372036854775807}}]}")
        ≡ Some (record { ops = AddNode (record { 0 = 2 }) [] ((codes "k", values.Int (pos 9223372036854775807)) ∷ []) ∷ [] }) }
    ensures beyond { txn_of (codes "{\"ops\":[{\"add_node\":3,\"props\":{\"k\":9223372036854775808}}]}") ≡ None }
    ensures point { txn_of (codes "{\"ops\":[{\"add_node\":4,\"props\":{\"k\":1.0}}]}") ≡ None }
    ensures leap_day { txn_of (codes "{\"ops\":[{\"add_node\":1,\"props\":{\"d\":{\"date\":\"2024-02-29\"}}}]}")
        ≡ Some (record { ops = AddNode (record { 0 = 1 }) [] ((codes "d", values.Date (2024, 2, 29)) ∷ []) ∷ [] }) }
    ensures no_leap_day { txn_of (codes "{\"ops\":[{\"add_node\":1,\"props\":{\"d\":{\"date\":\"2023-02-29\"}}}]}") ≡ None }
    ensures short_year { txn_of (codes "{\"ops\":[{\"add_node\":1,\"props\":{\"d\":{\"date\":\"24-02-29\"}}}]}") ≡ None }
    ensures null { txn_of (codes "{\"ops\":[{\"add_node\":1,\"props\":{\"k\":null}}]}") ≡ None }
{}

/// Lines that are no transactions.
pub fn other_lines()
    ensures empty { txn_of [] ≡ None }
    ensures no_json { txn_of (codes "{\"ops\":[}") ≡ None }
    ensures no_object { txn_of (codes "[]") ≡ None }
    ensures no_list { txn_of (codes "{\"ops\":{}}") ≡ None }
    ensures no_ops { txn_of (codes "{}") ≡ None }
    ensures more { txn_of (codes "{\"commit\":1,\"ops\":[]}") ≡ None }
    ensures no_kind { txn_of (codes "{\"ops\":[{}]}") ≡ None }
    ensures two_kinds { txn_of (codes "{\"ops\":[{\"remove_node\":1,\"remove_edge\":1}]}") ≡ None }
    ensures unknown { txn_of (codes "{\"ops\":[{\"add_node\":1,\"label\":\"A\"}]}") ≡ None }
    ensures no_end { txn_of (codes "{\"ops\":[{\"add_edge\":1,\"from\":1}]}") ≡ None }
    ensures no_name { txn_of (codes "{\"ops\":[{\"add_node\":1,\"labels\":[\"a b\"]}]}") ≡ None }
    ensures minus { txn_of (codes "{\"ops\":[{\"add_node\":-1}]}") ≡ None }
    ensures too_great { txn_of (codes "{\"ops\":[{\"add_node\":18446744073709551616}]}") ≡ None }
    ensures no_text { txn_of (codes "{\"ops\":[{\"set_node\":1,\"key\":\"k\",\"value\":\"" ++ 255 ∷ codes "\"}]}") ≡ None }
{}

/// Canonical texts, as a feed gets them with a commit number, and without.
#[tactic(auto, unfolding(pgs_base_text::specs::Text::quoted, crate::specs::Canonical::text_of_txn))]
pub fn canonical_texts()
    ensures nothing { text_of_txn (record { ops = [] }) None ≡ codes "{\"ops\":[]}" }
    ensures numbered { (n : ℕ) → text_of_txn (record { ops = [] }) (Some n)
        ≡ codes "{\"commit\":" ++ (decimal n ++ codes ",\"ops\":[]}") }
    ensures feed { text_of_txn (record { ops = AddNode (record { 0 = 1 }) [] [] ∷ [] }) (Some 1)
        ≡ codes "{\"commit\":1,\"ops\":[{\"add_node\":1,\"labels\":[],\"props\":{}}]}" }
    ensures second { text_of_txn (record { ops = AddNode (record { 0 = 2 }) [] [] ∷ [] }) (Some 2)
        ≡ codes "{\"commit\":2,\"ops\":[{\"add_node\":2,\"labels\":[],\"props\":{}}]}" }
    ensures edge { text_of_txn (record { ops = AddEdge (record { 0 = 3 }) (record { 0 = 3 }) (record { 0 = 10 }) (codes "moderates" ∷ []) [] ∷ [] }) None
        ≡ codes "{\"ops\":[{\"add_edge\":3,\"from\":3,\"labels\":[\"moderates\"],\"props\":{},\"to\":10}]}" }
    ensures day { text_of_txn (record { ops = SetNode (record { 0 = 3 }) (codes "born") (values.Date (1990, 2, 28)) ∷ [] }) None
        ≡ codes "{\"ops\":[{\"key\":\"born\",\"set_node\":3,\"value\":{\"date\":\"1990-02-28\"}}]}" }
    ensures early_day { text_of_txn (record { ops = SetEdge (record { 0 = 3 }) (codes "k") (values.Date (1, 1, 1)) ∷ [] }) None
        ≡ codes "{\"ops\":[{\"key\":\"k\",\"set_edge\":3,\"value\":{\"date\":\"0001-01-01\"}}]}" }
    ensures pairs { text_of_txn (record {
      ops = AddNode (record { 0 = 2 }) (codes "A" ∷ codes "B" ∷ [])
          ((codes "k", values.Bool true) ∷ (codes "m", values.Int (negsuc 8)) ∷ []) ∷ [];
    }) None
        ≡ codes "{\"ops\":[{\"add_node\":2,\"labels\":[\"A\",\"B\"],\"props\":{\"k\":true,\"m\":-9}}]}" }
    ensures escapes { text_of_txn (record {
      ops = SetNode (record { 0 = 1 }) (codes "k")
          (values.Text (34 ∷ 92 ∷ 47 ∷ 8 ∷ 9 ∷ 10 ∷ 12 ∷ 13 ∷ 0 ∷ 31 ∷ 127 ∷ 195 ∷ 164 ∷ [])) ∷ [];
    }) None
        ≡ codes "{\"ops\":[{\"key\":\"k\",\"set_node\":1,\"value\":\"\\\"\\\\/\\b\\t\\n\\f\\r\\u0000\\u001f" ++ 127 ∷ 195 ∷ 164 ∷ codes "\"}]}" }
{}

/// What is written for the other operations.
pub fn texts_of_changes()
    ensures nodes { text_of_txn (record {
      ops = RemoveNode (record { 0 = 1 }) ∷ DetachNode (record { 0 = 2 }) ∷ UnsetNode (record { 0 = 3 }) (codes "k")
          ∷ LabelNode (record { 0 = 4 }) (codes "A") ∷ UnlabelNode (record { 0 = 5 }) (codes "B") ∷ [];
    }) None
        ≡ codes "{\"ops\":[{\"remove_node\":1},{\"detach_node\":2},{\"key\":\"k\",\"unset_node\":3},{\"label\":\"A\",\"label_node\":4},{\"label\":\"B\",\"unlabel_node\":5}]}" }
    ensures edges { text_of_txn (record {
      ops = RemoveEdge (record { 0 = 1 }) ∷ UnsetEdge (record { 0 = 3 }) (codes "k")
          ∷ LabelEdge (record { 0 = 4 }) (codes "A") ∷ UnlabelEdge (record { 0 = 5 }) (codes "B") ∷ [];
    }) None
        ≡ codes "{\"ops\":[{\"remove_edge\":1},{\"key\":\"k\",\"unset_edge\":3},{\"label\":\"A\",\"label_edge\":4},{\"label\":\"B\",\"unlabel_edge\":5}]}" }
{}

/// What is written is read again as the same transaction.
pub fn written_and_read()
    ensures nodes { let txn : Txn = record {
      ops = AddNode (record { 0 = 1 }) (codes "A" ∷ codes "B" ∷ [])
          ((codes "b", values.Bool true) ∷ (codes "d", values.Date (999, 12, 31)) ∷ (codes "i", values.Int (negsuc 4)) ∷ (codes "t", values.Text (34 ∷ 92 ∷ 9 ∷ 31 ∷ 195 ∷ 164 ∷ [])) ∷ [])
          ∷ RemoveNode (record { 0 = 2 }) ∷ DetachNode (record { 0 = 3 }) ∷ SetNode (record { 0 = 4 }) (codes "k") (values.Int (pos 0)) ∷ UnsetNode (record { 0 = 5 }) (codes "k")
          ∷ LabelNode (record { 0 = 6 }) (codes "A") ∷ UnlabelNode (record { 0 = 7 }) (codes "B") ∷ [];
    } in
        txn_of (text_of_txn txn None) ≡ Some txn }
    ensures edges { let txn : Txn = record {
      ops = AddEdge (record { 0 = 1 }) (record { 0 = 2 }) (record { 0 = 3 }) [] []
          ∷ RemoveEdge (record { 0 = 2 }) ∷ SetEdge (record { 0 = 4 }) (codes "k") (values.Text []) ∷ UnsetEdge (record { 0 = 5 }) (codes "k")
          ∷ LabelEdge (record { 0 = 6 }) (codes "A") ∷ UnlabelEdge (record { 0 = 7 }) (codes "B") ∷ [];
    } in
        txn_of (text_of_txn txn None) ≡ Some txn }
{}

/// The order of two labels is of no matter.
pub fn labels_in_another_order()
    ensures { (a b : List ℕ) → labels_of (array (item (string a) (item (string b) no_items)))
        ≡ labels_of (array (item (string b) (item (string a) no_items))) }
{}

/// Lines of a feed.
pub fn lines_of_a_feed()
    ensures first { commit_of (codes "{\"commit\":1,\"ops\":[{\"add_node\":1}]}")
        ≡ Some (1, record { ops = AddNode (record { 0 = 1 }) [] [] ∷ [] }) }
    ensures members_in_any_order { commit_of (codes "{\"ops\":[],\"commit\":18446744073709551615}") ≡ Some (18446744073709551615, record { ops = [] }) }
    ensures no_number { commit_of (codes "{\"ops\":[]}") ≡ None }
    ensures zero { commit_of (codes "{\"commit\":0,\"ops\":[]}") ≡ None }
    ensures other_member { commit_of (codes "{\"commit\":1,\"ops\":[],\"at\":2}") ≡ None }
{}
