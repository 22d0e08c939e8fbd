//! What the definitions, and the words of the laws, say of small scripts and texts, which stand in `specs/Samples.antt` here and in the
//! parser's. The functions do nothing; their contracts are the statements.

ghost use Rattle.std.specs.Prelude.{◌≡◌, true, false, List, ℕ, [], ◌∷◌, Ok, Err, None, Some, codes, length, map};
ghost use Rattle.pgs_syntax.specs.declared.pattern.Atom.TheVariants.{Ends, HasLabel};
ghost use Rattle.pgs_syntax.specs.Samples.{staff, keyed, two_steps, moderator, pattern};
ghost use Rattle.pgs_syntax.specs.Valid.{is_valid};
ghost use Rattle.pgs_syntax.specs.declared.key_cause.KeyCause.TheVariants.{NoX, TwoKinds, Shared, Disconnected, UnknownVariable, TooLarge};
ghost use Rattle.pgs_syntax.specs.Width.{first_too_wide};
ghost use Rattle.pgs_syntax.specs.declared.script.GraphType.{GraphType};
ghost use Rattle.pgs_resolve_declared.specs.Order.{numbering_of, node_entry};
ghost use Rattle.pgs_resolve_declared.specs.Declarations.{nodes_of};
ghost use Rattle.pgs_resolve_declared.specs.Imports.{walked_graphs};
ghost use Rattle.pgs_resolve_declared.specs.Refused.{named_by};
ghost use Rattle.pgs_resolve_keys.specs.KeyFaults.{cause_of};
ghost use Rattle.pgs_resolve_keys.specs.Patterns.{resolved_key};
ghost use Rattle.pgs_resolve.specs.Resolution.{resolution, resolved};
ghost use Rattle.pgs_resolve.specs.Samples.{acquaintance_schema, mail_schema, no_names, of_nodes, of_options, widest, narrow};
ghost use Rattle.pgs_resolve.specs.SchemaOf.{IsSchemaOf, refused, schema, begins_no_item, is_no_statement};
ghost use Rattle.pgs_resolve.specs.Standing.{CanFollow, IsNext};
ghost use Rattle.pgs_resolve.specs.Ways.{LeadsTo, IsOnCycle};
ghost use Rattle.pgs_syntax.specs.declared.resolved.TypeNo.TheVariants as numbers;
ghost use Rattle.pgs_resolve.specs.declared.fault.ResolveFault.TheVariants as faults;
ghost use Rattle.pgs_parser.specs.Samples as texts;

/// Schemas of types alone.
pub fn schemas()
    ensures staff_resolved { resolution texts.staff_script ≡ Ok (staff (numbers.Node 0 ∷ numbers.Node 1 ∷ [])) }
    ensures acquaintance_resolved { resolution texts.acquaintance_script ≡ Ok acquaintance_schema }
    ensures acquaintance_valid { is_valid acquaintance_schema ≡ true }
    ensures listed_before { (numbering_of texts.backwards_script).nodes ≡ codes "a" ∷ codes "b" ∷ codes "c" ∷ [] }
{}

/// Members of imported graph types come first, each once, and only the word of the guard itself counts.
pub fn guards()
    ensures imports_first { (resolved texts.importing).guard.types ≡ numbers.Node 0 ∷ numbers.Node 1 ∷ numbers.Node 2 ∷ [] }
    ensures own_word { (resolved texts.importing).guard.strict ≡ false }
    ensures keys_once { length (resolved texts.importing).guard.keys ≡ 1 }
{}

/// Schemas of one key.
pub fn keys()
    ensures steps_resolved { resolution (texts.keyed_script texts.two_steps_written) ≡ Ok (keyed (two_steps ∷ [])) }
    ensures moderator_resolved { resolution (texts.keyed_script texts.moderator_written) ≡ Ok (keyed (moderator ∷ [])) }
    ensures mail_resolved { resolution texts.mail_script ≡ Ok mail_schema }
    ensures mail_valid { is_valid mail_schema ≡ true }
    ensures edge_first { (resolved_key no_names texts.edge_first).scope ≡ pattern (true ∷ false ∷ false ∷ []) (HasLabel 2 (codes "A") ∷ Ends 0 1 2 ∷ []) }
{}

/// A script that is refused, for each refusal.
pub fn refusals()
    ensures no_graph_type { resolution (texts.script []) ≡ Err faults.NoGraphType }
    ensures duplicate { resolution texts.declared_twice ≡ Err (faults.Duplicate (codes "a")) }
    ensures unknown { resolution texts.not_declared ≡ Err (faults.Unknown (codes "a")) }
    ensures kind { resolution texts.wrong_kind ≡ Err (faults.Kind (codes "a")) }
    ensures types_cycle { resolution texts.cycle_of_types ≡ Err (faults.Cycle (codes "a")) }
    ensures imports_cycle { resolution texts.cycle_of_imports ≡ Err (faults.Cycle (codes "g")) }
    ensures bad_key { resolution (texts.keyed_script texts.reads_y) ≡ Err (faults.BadKey 1 UnknownVariable) }
{}

/// A key for each cause that it can be refused for, and one that is not.
pub fn causes()
    ensures names_nothing { cause_of 1 texts.names_nothing ≡ Some NoX }
    ensures leaves_x_out { cause_of 1 texts.leaves_x_out ≡ Some NoX }
    ensures node_and_edge { cause_of 1 texts.node_and_edge ≡ Some TwoKinds }
    ensures shares_y { cause_of 1 texts.shares_y ≡ Some Shared }
    ensures apart { cause_of 1 texts.apart ≡ Some Disconnected }
    ensures reads_y { cause_of 1 texts.reads_y ≡ Some UnknownVariable }
    ensures of_five_paths { cause_of 1 texts.of_five_paths ≡ Some TooLarge }
    ensures of_nine_edges { cause_of 1 (texts.of_edges 9) ≡ Some TooLarge }
    ensures of_eight_edges { cause_of 1 (texts.of_edges 8) ≡ None }
    ensures of_17_expressions { cause_of 1 (texts.of_exprs 17) ≡ Some TooLarge }
    ensures of_16_expressions { cause_of 1 (texts.of_exprs 16) ≡ None }
    ensures too_late { cause_of 257 texts.linked ≡ Some TooLarge }
    ensures linked { cause_of 256 texts.linked ≡ None }
{}

/// Thirteen optional labels are too many, and twelve are not. Where all types together are too wide, the first by its place
/// with which they are is named, wherever it is listed.
pub fn widths()
    ensures thirteen { first_too_wide (of_options 13) ≡ Some (codes "t") }
    ensures twelve { first_too_wide (of_options 12) ≡ None }
    ensures one_type { first_too_wide (of_nodes (widest ∷ [])) ≡ None }
    ensures one_more { first_too_wide (of_nodes (narrow (codes "q") 3 ∷ narrow (codes "p") 2 ∷ widest ∷ [])) ≡ Some (codes "p") }
{}

/// Texts to the end: one with a byte that begins no item, the empty one, one whose statement is none, and three with their schemas.
pub fn from_texts()
    ensures bad_byte { IsSchemaOf texts.bad_byte_text (begins_no_item 1) }
    ensures no_mode { IsSchemaOf texts.no_mode_text (is_no_statement 1) }
    ensures empty { IsSchemaOf [] (refused faults.NoGraphType) }
    ensures staff { IsSchemaOf texts.staff_text (schema (staff (numbers.Node 0 ∷ numbers.Node 1 ∷ []))) }
    ensures mail { IsSchemaOf texts.mail_text (schema mail_schema) }
    ensures moderator { IsSchemaOf texts.moderator_text (schema (keyed (moderator ∷ []))) }
{}

/// Of two types that name each other one leads back to itself. Of three that name one another in a row the first leads to the last in two
/// steps, and none is on a cycle.
pub fn ways()
    ensures back { LeadsTo (named_by texts.cycle_of_types) (codes "a") (codes "a") }
    ensures forth { LeadsTo (named_by texts.backwards_script) (codes "c") (codes "a") }
    ensures no_cycle { (name : List ℕ) → IsOnCycle texts.backwards_script name → ⊥ }
{}

/// Of the three the last to be written is the first that can be listed, and the first to be written comes next behind the others.
pub fn lists()
    ensures first { IsNext (map (node_entry texts.backwards_script) (nodes_of texts.backwards_script)) [] (codes "a") }
    ensures last { IsNext (map (node_entry texts.backwards_script) (nodes_of texts.backwards_script)) (codes "a" ∷ codes "b" ∷ []) (codes "c") }
    ensures not_before { CanFollow [] (codes "b") (codes "a" ∷ []) → ⊥ }
{}

/// A graph type that is imported twice, once through another, is walked once.
pub fn walks()
    ensures { map (λ (type : GraphType). type.name) (walked_graphs texts.importing) ≡ codes "f" ∷ codes "h" ∷ codes "g" ∷ [] }
{}
