//! Laws of the resolution, and of its definitions. The functions do nothing; their contracts are the statements.

ghost use Rattle.std.specs.Prelude.{◌≡◌, ◌↔◌, ℕ, List, true, Ok, ◌⊎◌, ◌++◌, ◌∷◌, Some, None, Contains, IsPermutation, map};
ghost use Rattle.std.specs.Ordering.{nat_cmp};
ghost use Rattle.std.specs.Cmp.Lexicographic.{slice_cmp};
ghost use Rattle.pgs_lexer.specs.Token.{Lexeme};
ghost use Rattle.pgs_parser.specs.Statements.{IsScript};
ghost use Rattle.pgs_syntax.specs.declared.resolved.Resolved.{Resolved};
ghost use Rattle.pgs_syntax.specs.declared.script.Script.{Script};
ghost use Rattle.pgs_syntax.specs.Valid.{is_valid};
ghost use Rattle.pgs_syntax.specs.declared.element_type.EdgeType.{EdgeType};
ghost use Rattle.pgs_syntax.specs.declared.element_type.NodeType.{NodeType};
ghost use Rattle.pgs_syntax.specs.declared.script.GraphType.{GraphType};
ghost use Rattle.pgs_syntax.specs.declared.specification.Leaf.{Leaf};
ghost use Rattle.pgs_syntax.specs.Least.{IsLeast};
ghost use Rattle.pgs_resolve_declared.specs.Declarations.{nodes_of, edges_of, graphs_of};
ghost use Rattle.pgs_resolve_declared.specs.Imports.{last_of, walked_graphs};
ghost use Rattle.pgs_resolve_declared.specs.Order.{node_entry, edge_entry, numbering_of, resolved_node, resolved_edge, resolved_nodes, resolved_edges};
ghost use Rattle.pgs_resolve_declared.specs.Refused.{cyclic, cycle, named_by, imported_by};
ghost use Rattle.pgs_resolve.specs.Resolution.{resolution};
ghost use Rattle.pgs_resolve.specs.SchemaOf.{Answer, IsSchemaOf, schema_of};
ghost use Rattle.pgs_resolve.specs.Standing.{CanFollow, IsNext};
ghost use Rattle.pgs_resolve.specs.Ways.{LeadsTo, IsOnCycle, type_names, graph_names};

/// A text has one answer: one reason why it is no schema, or one resolved schema.
pub fn one_answer()
    ensures { (text : List ℕ) (one other : Answer) → IsSchemaOf text one → IsSchemaOf text other → one ≡ other }
{}

/// The function `schema_of` gives the answer to a text.
pub fn computed_answers()
    ensures { (text : List ℕ) (answer : Answer) → (schema_of text ≡ answer) ↔ IsSchemaOf text answer }
{}

/// What resolves without refusal is valid.
pub fn valid_schemas()
    ensures { (script : Script) (tokens : List Lexeme) (schema : Resolved) → IsScript script tokens → resolution script ≡ Ok schema → is_valid schema ≡ true }
{}

/// A name is on a cycle, of naming or of imports, exactly where steps lead from it back to itself, however many they are.
pub fn a_cycle_is_a_way_back()
    ensures types { (script : Script) (name : List ℕ) →
        Contains (cyclic (named_by script) (type_names script)) name ↔ LeadsTo (named_by script) name name }
    ensures graphs { (script : Script) (name : List ℕ) →
        Contains (cyclic (imported_by script) (graph_names script)) name ↔ LeadsTo (imported_by script) name name }
{}

/// A script has a cycle exactly where some name leads back to itself, and the name that is told is the least of these by its bytes.
pub fn the_least_name_on_a_cycle_is_told()
    ensures none { (script : Script) → (cycle script ≡ None) ↔ ((name : List ℕ) → IsOnCycle script name → ⊥) }
    ensures some { (script : Script) (name : List ℕ) → (cycle script ≡ Some name) ↔ IsLeast (slice_cmp nat_cmp) (IsOnCycle script) name }
{}

/// Wherever the list of node types, or that of edge types, is cut before a name, the type of that name is the least by its place of those
/// that can follow: they aren't among those before it, and all types of their kind that they name are.
pub fn each_next_type_is_the_least_that_can_follow()
    ensures nodes { (script : Script) (before after : List (List ℕ)) (name : List ℕ) →
        (numbering_of script).nodes ≡ before ++ name ∷ after → IsNext (map (node_entry script) (nodes_of script)) before name }
    ensures edges { (script : Script) (before after : List (List ℕ)) (name : List ℕ) →
        (numbering_of script).edges ≡ before ++ name ∷ after → IsNext (map (edge_entry script) (edges_of script)) before name }
{}

/// No type that is listed is dropped: the resolved node types, and the resolved edge types, have the names of their list in its order.
pub fn no_listed_type_is_dropped()
    ensures nodes { (script : Script) →
        map (λ (type : NodeType Leaf). type.name) (resolved_nodes script (numbering_of script)) ≡ (numbering_of script).nodes }
    ensures edges { (script : Script) →
        map (λ (type : EdgeType Leaf). type.name) (resolved_edges script (numbering_of script)) ≡ (numbering_of script).edges }
{}

/// In a script that isn't refused each declared type stands exactly once in the list of its kind.
pub fn each_declared_type_is_listed_once()
    ensures nodes { (script : Script) (schema : Resolved) → resolution script ≡ Ok schema →
        IsPermutation (map (λ (type : NodeType (List ℕ)). type.name) (nodes_of script)) (numbering_of script).nodes }
    ensures edges { (script : Script) (schema : Resolved) → resolution script ≡ Ok schema →
        IsPermutation (map (λ (type : EdgeType (List ℕ)). type.name) (edges_of script)) (numbering_of script).edges }
{}

/// The node types of a schema, and its edge types, are exactly those that its script declares, each resolved, in another order.
pub fn each_declared_type_is_resolved_once()
    ensures nodes { (script : Script) (schema : Resolved) → resolution script ≡ Ok schema →
        IsPermutation (map (resolved_node (numbering_of script)) (nodes_of script)) schema.nodes }
    ensures edges { (script : Script) (schema : Resolved) → resolution script ≡ Ok schema →
        IsPermutation (map (resolved_edge (numbering_of script)) (edges_of script)) schema.edges }
{}

/// In a script that isn't refused the graph types that count are the last one and those to which imports lead from it, in however many
/// steps.
pub fn what_is_imported_is_walked()
    ensures { (script : Script) (schema : Resolved) → resolution script ≡ Ok schema → (last : GraphType) → last_of (graphs_of script) ≡ Some last →
        (name : List ℕ) → Contains (map (λ (type : GraphType). type.name) (walked_graphs script)) name
        ↔ ((name ≡ last.name) ⊎ LeadsTo (imported_by script) last.name name) }
{}

/// Each of them is walked once, and after all that it imports.
pub fn each_import_is_walked_once_after_its_own()
    ensures { (script : Script) (schema : Resolved) → resolution script ≡ Ok schema → (before after : List GraphType) (type : GraphType) →
        walked_graphs script ≡ before ++ type ∷ after →
        CanFollow (map (λ (other : GraphType). other.name) before) type.name type.imports }
{}
