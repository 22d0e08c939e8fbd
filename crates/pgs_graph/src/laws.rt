//! Laws that show that the definitions on deltas mean what they should. The functions do nothing; their contracts are the statements.

ghost use Rattle.std.specs.Prelude.{◌≡◌, true};
ghost use Rattle.std.specs.BTreeMap.{is_at};
ghost use Rattle.std.specs.Map.{lookup};
ghost use Rattle.pgs_base.specs.declared.element.NodeId.{NodeId};
ghost use Rattle.pgs_base.specs.declared.element.EdgeId.{EdgeId};
ghost use Rattle.pgs_base.specs.Graph.{Graph, is_graph, node_cmp, edge_cmp, node_at, edge_at};
ghost use Rattle.pgs_graph.specs.declared.delta.Delta.{Delta};
ghost use Rattle.pgs_graph.specs.Changed.{changed, is_sound, after_changes};

/// A graph is determined by its rows.
pub fn rows_determine_a_graph()
    ensures { (g h : Graph) → is_graph g ≡ true → is_graph h ≡ true → ((id : NodeId) → node_at g id ≡ node_at h id) →
        ((id : EdgeId) → edge_at g id ≡ edge_at h id) → g ≡ h }
{}

/// After a sound delta each element has the row that the delta says, or none where it says so; elements of which it says
/// nothing stand as they did.
pub fn sound_deltas_change_what_they_list()
    ensures nodes { (g : Graph) (delta : Delta) (id : NodeId) → is_graph g ≡ true → is_sound g delta ≡ true →
        node_at (changed g delta) id ≡ after_changes (lookup (is_at (node_cmp id)) delta.nodes) (node_at g id) }
    ensures edges { (g : Graph) (delta : Delta) (id : EdgeId) → is_graph g ≡ true → is_sound g delta ≡ true →
        edge_at (changed g delta) id ≡ after_changes (lookup (is_at (edge_cmp id)) delta.edges) (edge_at g id) }
{}

/// Two sound deltas that leave the same rows make one graph.
pub fn sound_deltas_of_the_same_rows_make_one_graph()
    ensures { (g : Graph) (first second : Delta) → is_graph g ≡ true → is_sound g first ≡ true → is_sound g second ≡ true →
        ((id : NodeId) → after_changes (lookup (is_at (node_cmp id)) first.nodes) (node_at g id)
        ≡ after_changes (lookup (is_at (node_cmp id)) second.nodes) (node_at g id)) →
        ((id : EdgeId) → after_changes (lookup (is_at (edge_cmp id)) first.edges) (edge_at g id)
        ≡ after_changes (lookup (is_at (edge_cmp id)) second.edges) (edge_at g id)) →
        changed g first ≡ changed g second }
{}
