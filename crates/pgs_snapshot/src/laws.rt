//! What a stop during the calls on two areas leaves of the choice, and what it leaves of what is saved. The functions do
//! nothing; their contracts are the statements. They speak of triples of two images and an output, old and new, as the
//! clauses on stops of `Journal::append`, `Journal::create` and `checkpoint` do.

ghost use Rattle.std.specs.Prelude.{◌≡◌, ◌⊎◌, ◌+◌, ◌-◌, ◌*◌, ◌≤◌, ◌<◌, ◌^◌, ◌++◌, ◌∷◌, [], ℕ, List, Option, Some, Ok, Err, true, length};
ghost use Rattle.pgs_base.specs.declared.element.EdgeId.{EdgeId};
ghost use Rattle.pgs_base.specs.declared.element.NodeId.{NodeId};
ghost use Rattle.pgs_base.specs.declared.limits.Limits.{Limits};
ghost use Rattle.pgs_base.specs.declared.row.EdgeRow.{EdgeRow};
ghost use Rattle.pgs_base.specs.declared.row.NodeRow.{NodeRow};
ghost use Rattle.pgs_base.specs.Graph.{Graph, empty_graph};
ghost use Rattle.pgs_codec.specs.declared.command.Command.TheVariants.{Schema, Txn as Transaction, Snapshot};
ghost use Rattle.pgs_codec.specs.Encodable.{snapshot_graph};
ghost use Rattle.pgs_codec.specs.Frame.{framed};
ghost use Rattle.pgs_codec.specs.Reading.{decoded};
ghost use Rattle.pgs_graph.specs.declared.operation.Txn.{Txn};
ghost use Rattle.pgs_journal.specs.Area.{has_some};
ghost use Rattle.pgs_journal.specs.Bounds.{IsBoundedStore};
ghost use Rattle.pgs_journal.specs.Format.{advanced, Holds};
ghost use Rattle.pgs_journal.specs.Stops.{Turns, Appends, Creates};
ghost use Rattle.pgs_resolve.specs.SchemaOf.{schema, schema_of};
ghost use Rattle.pgs_snapshot.specs.Choice.{choice_of};
ghost use Rattle.pgs_snapshot.specs.Choice as choices;
ghost use Rattle.pgs_snapshot.specs.Saved.{saved_of, saved, saved_by, store, bad_history};
ghost use Rattle.pgs_snapshot.specs.Standing.{HasStore, IsAppendable};
ghost use Rattle.pgs_syntax.specs.declared.resolved.Resolved.{Resolved};
ghost use Rattle.pgs_violation.specs.declared.rejection.Rejection.{Rejection};
ghost use Rattle.pgs_violation.specs.Decision.{judged, decide};
ghost use Rattle.pgs_violation.specs.Violations.{verdict};
ghost use Rattle.pgs_world.specs.declared.area.Area.{Area};
ghost use Rattle.pgs_world.specs.declared.area.Area.TheVariants.{A};
ghost use Rattle.pgs_world.specs.Disk.{IsSameBeside};
ghost use Rattle.pgs_world.specs.World.{Triple, part, other};
ghost use Rattle.pgs_world.specs.declared.area_limit.TheConstants.{AREA_LIMIT};

/// Two triples of the same images have the same store.
pub fn images_decide_the_store()
    ensures { (area : Area) (epoch end : ℕ) (next : Option ℕ) (payloads : List (List ℕ)) (old new : Triple)
        → HasStore area epoch end next payloads old → new.a ≡ old.a → new.b ≡ old.b → HasStore area epoch end next payloads new }
{}

/// A stop during an append of a transaction or, in the second format, of a schema to the chosen store leaves it chosen, in the same
/// area and of the same epoch, with the records from before or with the new one; after `Ok` it has the new one.
pub fn appends_keep_the_choice()
    ensures stops { (area : Area) (epoch end : ℕ) (next : Option ℕ) (payloads : List (List ℕ)) (payload : List ℕ) (old new : Triple)
        → HasStore area epoch end next payloads old → IsAppendable next (decoded payload) → end + length (framed next payload) < 2 ^ 64
        → Turns area (Appends next epoch end payload) old new
        → HasStore area epoch end next payloads new
        ⊎ HasStore area epoch (end + length (framed next payload)) (advanced next) (payloads ++ payload ∷ []) new }
    ensures done { (area : Area) (epoch end : ℕ) (next : Option ℕ) (payloads : List (List ℕ)) (payload : List ℕ) (old new : Triple)
        → HasStore area epoch end next payloads old → IsAppendable next (decoded payload) → end + length (framed next payload) < 2 ^ 64
        → Holds (advanced next) epoch (payloads ++ payload ∷ []) (end + length (framed next payload)) (part area new)
        → IsSameBeside area old new
        → HasStore area epoch (end + length (framed next payload)) (advanced next) (payloads ++ payload ∷ []) new }
{}

/// A stop during a checkpoint into the other area, of the next epoch, whose records are a schema and a snapshot of no more
/// commits than the stores so far may have, leaves the chosen store chosen, or the new one, which is of the second format; after `Ok`
/// the new one is chosen.
pub fn checkpoints_keep_a_store()
    ensures stops { (area : Area) (epoch end : ℕ) (next : Option ℕ) (payloads : List (List ℕ)) (text first second : List ℕ)
        (commits size : ℕ) (nodes : List (NodeId × NodeRow)) (edges : List (EdgeId × EdgeRow)) (old new : Triple)
        → HasStore area epoch end next payloads old → decoded first ≡ Some (Schema text)
        → decoded second ≡ Some (Snapshot commits nodes edges) → commits ≤ epoch * AREA_LIMIT → size < 2 ^ 64
        → Turns (other area) (Creates (epoch + 1) (first ∷ second ∷ []) size) old new
        → HasStore area epoch end next payloads new ⊎ HasStore (other area) (epoch + 1) size (Some 3) (first ∷ second ∷ []) new }
    ensures done { (area : Area) (epoch end : ℕ) (next : Option ℕ) (payloads : List (List ℕ)) (text first second : List ℕ)
        (commits size : ℕ) (nodes : List (NodeId × NodeRow)) (edges : List (EdgeId × EdgeRow)) (old new : Triple)
        → HasStore area epoch end next payloads old → decoded first ≡ Some (Schema text)
        → decoded second ≡ Some (Snapshot commits nodes edges) → commits ≤ epoch * AREA_LIMIT → size < 2 ^ 64
        → Holds (Some 3) (epoch + 1) (first ∷ second ∷ []) size (part (other area) new) → IsSameBeside (other area) old new
        → HasStore (other area) (epoch + 1) size (Some 3) (first ∷ second ∷ []) new }
{}

/// A stop during the making of a first store in area A, where no area is a store or foreign, leaves no store, or the new one;
/// after `Ok` it is the new one.
pub fn first_stores_are_whole()
    ensures stops { (payload text : List ℕ) (end : ℕ) (old new : Triple)
        → choice_of old.a old.b ≡ choices.no_store → decoded payload ≡ Some (Schema text) → end < 2 ^ 64
        → Turns A (Creates 1 (payload ∷ []) end) old new
        → (choice_of new.a new.b ≡ choices.no_store) ⊎ HasStore A 1 end (Some 2) (payload ∷ []) new }
    ensures done { (payload text : List ℕ) (end : ℕ) (old new : Triple)
        → choice_of old.a old.b ≡ choices.no_store → decoded payload ≡ Some (Schema text) → end < 2 ^ 64
        → Holds (Some 2) 1 (payload ∷ []) end (part A new) → IsSameBeside A old new → HasStore A 1 end (Some 2) (payload ∷ []) new }
{}

/// What is saved is decided by the choice, and of a chosen store by the payloads of its records alone.
pub fn the_choice_decides_what_is_saved()
    ensures choice { (limits : Limits) (a b : List ℕ) → saved limits a b ≡ saved_by limits (choice_of a b) }
    ensures store { (limits : Limits) (area : Area) (epoch end : ℕ) (next : Option ℕ) (payloads : List (List ℕ)) (triple : Triple)
        → HasStore area epoch end next payloads triple → saved limits triple.a triple.b ≡ saved_of limits payloads }
{}

/// A first store of a schema's text saves the empty graph after no commit.
pub fn a_first_store_saves_the_empty_graph()
    ensures { (limits : Limits) (payload text : List ℕ) (resolved : Resolved)
        → decoded payload ≡ Some (Schema text) → schema_of text ≡ schema resolved
        → saved_of limits (payload ∷ []) ≡ store text 0 empty_graph }
{}

/// One record more, of a transaction that is accepted, saves the graph after it and one commit more. So replaying the records of
/// a store is deciding its transactions one after the other.
pub fn one_more_record_is_one_more_commit()
    ensures { (limits : Limits) (payloads : List (List ℕ)) (payload text : List ℕ) (commits : ℕ) (graph next : Graph) (resolved : Resolved)
        (txn : Txn) → has_some payloads ≡ true → saved_of limits payloads ≡ store text commits graph → schema_of text ≡ schema resolved
        → decoded payload ≡ Some (Transaction txn) → decide limits (verdict resolved) graph txn ≡ Ok next
        → saved_of limits (payloads ++ payload ∷ []) ≡ store text (commits + 1) next }
{}

/// One record more, of a schema under which the graph so far is accepted, saves that schema's text, and the commits and the graph
/// from before.
pub fn one_more_schema_is_in_force()
    ensures { (limits : Limits) (payloads : List (List ℕ)) (payload before text : List ℕ) (commits : ℕ) (graph : Graph)
        (resolved : Resolved) → has_some payloads ≡ true → saved_of limits payloads ≡ store before commits graph
        → decoded payload ≡ Some (Schema text) → schema_of text ≡ schema resolved → judged limits (verdict resolved) graph ≡ Ok graph
        → saved_of limits (payloads ++ payload ∷ []) ≡ store text commits graph }
{}

/// A record that is rejected is told, with its number, whatever stands behind it: a transaction by the decision on the graph so far
/// under the schema in force, and a later schema by the judgement of that graph.
pub fn a_rejected_record_is_told()
    ensures txn { (limits : Limits) (payloads later : List (List ℕ)) (payload text : List ℕ) (commits : ℕ) (graph : Graph) (resolved : Resolved)
        (txn : Txn) (rejection : Rejection) → has_some payloads ≡ true → saved_of limits payloads ≡ store text commits graph
        → schema_of text ≡ schema resolved → decoded payload ≡ Some (Transaction txn) → decide limits (verdict resolved) graph txn ≡ Err rejection
        → saved_of limits (payloads ++ payload ∷ later) ≡ bad_history (length payloads + 1) rejection }
    ensures schema { (limits : Limits) (payloads later : List (List ℕ)) (payload before text : List ℕ) (commits : ℕ) (graph : Graph)
        (resolved : Resolved) (rejection : Rejection) → has_some payloads ≡ true → saved_of limits payloads ≡ store before commits graph
        → decoded payload ≡ Some (Schema text) → schema_of text ≡ schema resolved → judged limits (verdict resolved) graph ≡ Err rejection
        → saved_of limits (payloads ++ payload ∷ later) ≡ bad_history (length payloads + 1) rejection }
{}

/// A snapshot of a graph that is accepted saves that graph after as many commits.
pub fn a_snapshot_saves_its_graph()
    ensures { (limits : Limits) (first second text : List ℕ) (commits : ℕ) (nodes : List (NodeId × NodeRow))
        (edges : List (EdgeId × EdgeRow)) (resolved : Resolved)
        → decoded first ≡ Some (Schema text) → decoded second ≡ Some (Snapshot commits nodes edges) → schema_of text ≡ schema resolved
        → judged limits (verdict resolved) (snapshot_graph nodes edges) ≡ Ok (snapshot_graph nodes edges)
        → saved_of limits (first ∷ second ∷ []) ≡ store text commits (snapshot_graph nodes edges) }
{}

/// A store has no more commits than the stores before it may have, and one for each of its records.
pub fn commits_are_bounded()
    ensures { (limits : Limits) (epoch end : ℕ) (next : Option ℕ) (payloads : List (List ℕ)) (text : List ℕ) (commits : ℕ)
        (graph : Graph) → IsBoundedStore epoch end next payloads → saved_of limits payloads ≡ store text commits graph
        → commits ≤ (epoch - 1) * AREA_LIMIT + end }
{}
