//! That the commands agree with one another on a saved store. The functions do nothing of their own; their contracts are the statements.

ghost use Rattle.std.specs.Prelude.{◌≡◌, ◌⊎◌, ◌<◌, ◌≤◌, ℕ, List, [], ◌∷◌, ◌++◌, length, slice_index, Some, Ok, IsTrue};
ghost use Rattle.std.specs.List.{concat};
ghost use Rattle.pgs_base.specs.declared.limits.Limits.{Limits};
ghost use Rattle.pgs_base.specs.Graph.{Graph, element_count, empty_graph};
ghost use Rattle.pgs_dump.specs.Lines.{graph_ops};
ghost use Rattle.pgs_resolve.specs.SchemaOf.{schema, schema_of};
ghost use Rattle.pgs_run_lines.specs.declared.budget.TheConstants.{BUDGET};
ghost use Rattle.pgs_snapshot.specs.Saved.{saved, store};
ghost use Rattle.pgs_violation.specs.Decision.{decide};
ghost use Rattle.pgs_violation.specs.Violations.{verdict};
ghost use Rattle.pgs_syntax.specs.declared.resolved.Resolved.{Resolved};
ghost use Rattle.pgs_run_words.specs.declared.command.Command.TheVariants.{Contain, Load, Recover, Validate};
ghost use Rattle.pgs_world.specs.Moment.{IsSettled};
ghost use Rattle.pgs_world.specs.World.{Triple};
ghost use Rattle.pgs_run_renewal.specs.LoadTold.{line_of};
ghost use Rattle.pgs_run_store.specs.Refusing.{SavedStore};
ghost use Rattle.pgs_run_lines.specs.Pieces.{ShowsAll, shown_of};
ghost use Rattle.pgs_store.specs.Loads.{FindsNone};
ghost use Rattle.pgs_command.specs.declared.status.Status.{Status};
ghost use Rattle.pgs_command.specs.declared.status.Status.TheVariants.{Accepted};
ghost use Rattle.pgs_run_input.specs.Answers.{schema_answer};
ghost use Rattle.pgs_command.specs.Areas.{Areas};
ghost use Rattle.pgs_run_input.specs.Session.{standard};
ghost use Rattle.pgs_run.specs.Commands.{spec_of};
ghost use Rattle.pgs_run_laws.specs.Compared.{IsCompared};
ghost use Rattle.pgs_run_laws.specs.Crashes.{DoesInto, IsBegun, Leaves, LeavesNone, RanInto, ShowsImages, Stands};
ghost use Rattle.pgs_run_laws.specs.Endings.{AddUp, Held, Holds, RunAll, Step};
ghost use Rattle.pgs_run_laws.specs.Lines.{IsLineStart};
ghost use Rattle.pgs_run_laws.specs.Sequence.{Deed, DoAll, Ran, new_store, told_deeds, told_sequence};

use pgs_world::World;

/// No line of the text of a schema begins with two dashes, so none is the separator.
pub fn no_dashes()
    ensures { (text front back : List ℕ) (resolved : Resolved) → schema_of text ≡ schema resolved → text ≡ front ++ 45 ∷ 45 ∷ back
        → IsLineStart front → ⊥ }
{}

/// What `recover` tells of a saved store, `validate` reads back: within its budget it takes the dump as its input, tells nothing of
/// it, and accepts it. So each line of a dump is a transaction that is accepted, and together they make a graph that conforms. The
/// areas are bytes; the input of `recover`, its budget, the areas of `validate` and the lost feeds don't matter.
pub fn a_dump_is_read_back()
    ensures { (areas any : Areas) (input : List ℕ) (budget lost limit failed : ℕ)
        → ((i : ℕ) → slice_index areas.a i < 256) → ((i : ℕ) → slice_index areas.b i < 256)
        → ((spec_of Recover).told tt input areas budget lost).status ≡ Accepted
        → length (concat ((spec_of Recover).told tt input areas budget lost).pieces) < limit
        → (spec_of Validate).told tt (concat ((spec_of Recover).told tt input areas budget lost).pieces) any limit failed ≡ record { pieces = []; status = Accepted } }
{
    pgs_json::written_is_read();
}

/// The operations of a dump make its graph at once, too: all of them as one transaction, decided from the empty graph under the schema of
/// the saved text and any limits that admit so many operations and elements, are accepted and give the graph that two areas of bytes save.
pub fn a_dump_is_one_transaction()
    ensures { (areas : Areas) (text : List ℕ) (commits : ℕ) (graph : Graph) (resolved : Resolved) (limits : Limits)
        → ((i : ℕ) → slice_index areas.a i < 256) → ((i : ℕ) → slice_index areas.b i < 256)
        → saved standard areas.a areas.b ≡ store text commits graph → schema_answer text ≡ Ok resolved
        → length (graph_ops graph) ≤ limits.ops → element_count graph ≤ limits.elements
        → decide limits (verdict resolved) empty_graph (record { ops = graph_ops graph }) ≡ Ok graph }
{}

/// What a run of `recover` printed, a run of `validate` takes as its input: over two areas of bytes that the world tells, where `recover`
/// ends with 0 and `validate` with 0 or 1, it ends with 0 and prints nothing. The two may run over different worlds.
pub fn a_dump_is_validated<V: World, W: World>()
    ensures { (input dump : List ℕ) (lost failed : ℕ) (first last : V) (old done : W)
        → ((i : ℕ) → slice_index (V.view first).shown.a i < 256) → ((i : ℕ) → slice_index (V.view first).shown.b i < 256)
        → IsTrue (V.view first).tells_bytes → IsTrue (V.view first).tells_output
        → (recovered : Ran Recover input lost (V.view first) (V.view last)) → recovered.status ≡ Accepted
        → (V.view last).shown.output ≡ (V.view first).shown.output ++ dump → length dump < BUDGET
        → (validated : Ran Validate dump failed (W.view old) (W.view done))
        → (validated.status ≡ Accepted) × ShowsAll (shown_of (W.view old)) [] (shown_of (W.view done)) }
{
    pgs_json::written_is_read();
}

/// Runs add up. Over one world that tells its bytes, whose areas hold nothing or a store: runs of `load`, `apply`, `checkpoint`, `evolve` and
/// `recover`, and of words that are no command, in any order, each ended with any status but 5, lead from what the areas hold to what they
/// hold behind it (`Leads`). With 0 and 1 a run did all; with 2, 3 and 4 it added nothing; with 6, 8 and 9 `apply` added the lines whose
/// verdicts are out, and the others nothing, of which `load`, `checkpoint` and `evolve` put nothing either; with 7 that, or one more, the change
/// whose line was being put, and a front of that line is out.
///
/// So where each ended with 0 or 1, `load` of a schema over free areas, then runs of `apply`, `checkpoint` and `evolve`, then `recover`
/// print what deciding the lines of all inputs in order prints: each run's lines numbered from 1, the commit numbers going on; of `evolve`
/// the line of the schema that is in force from then on, or of the first violation under it; and then the dump of the graph that they lead
/// to, under the last schema.
pub fn runs_add_up<W: World>()
    ensures any { (steps : List (Step × Status)) (was : Held) (first last : W) → Holds was (W.view first)
        → (ran : RunAll W.view steps first last) → (now : Held) × AddUp W.view steps first last ran was now }
    ensures done { (text input : List ℕ) (schema : Resolved) (deeds : List Deed) (lost failed : ℕ) (first loaded last done : W)
        → IsTrue (W.view first).tells_bytes → FindsNone (W.view first) → schema_answer text ≡ Ok schema
        → Ran Load text lost (W.view first) (W.view loaded) → DoAll W.view deeds loaded last → Ran Recover input failed (W.view last) (W.view done)
        → ShowsAll (shown_of (W.view first)) (told_sequence text schema deeds) (shown_of (W.view done)) }
{}

/// What `contain` answers to two schemas holds of all graphs. Where a run of it ended with 0, over a source that tells fewer bytes than its
/// budget, both texts are schemas, and each type of the first guard that isn't abstract is contained in the second. So where the first guard
/// is strict and the second one's keys ask no more, each graph that conforms to the first schema conforms to the second.
pub fn what_is_contained_is_kept<W: World>()
    ensures { (input : List ℕ) (lost : ℕ) (old new : W) → length input < BUDGET
        → (ran : Ran Contain input lost (W.view old) (W.view new)) → ran.status ≡ Accepted → IsCompared input }
{
    pgs_schema_changes::laws::what_asks_no_more_is_kept();
}

/// A crash inside a run of `apply`, `checkpoint` or `evolve`, which began on a world that tells its bytes and output and on which nothing is
/// pending, and ended with any status, leaves the store after the first changes of the run: those whose lines are out whole, or one more
/// (`Leaves`). Any world that shows the images that the crash left holds that store, so runs behind it add up from there; and those that ended
/// with 0 or 1 print what deciding their inputs from there on prints.
pub fn a_crash_leaves_a_front<V: World, W: World>()
    ensures { (it : SavedStore) (epoch : ℕ) (deed : Deed) (deeds : List Deed) (old new : V) (fresh last : W) (crash : Triple)
        → Stands it epoch (V.view old) → IsSettled (V.view old) → IsTrue (V.view old).tells_output → DoesInto deed (V.view old) (V.view new)
        → (V.view new).left_since (V.view old).moment crash → ShowsImages crash (W.view fresh) → DoAll W.view deeds fresh last
        → (now : SavedStore) × (later : ℕ) × Leaves deed it epoch (V.view old).shown crash now later × Stands now later (W.view fresh)
        × ShowsAll (shown_of (W.view fresh)) (told_deeds now later deeds) (shown_of (W.view last)) }
{}

/// A crash inside a run of `load` of a schema, which began where both areas are free, on a world that tells its bytes and output and on
/// which nothing is pending, and ended with any status, leaves nothing, and then the line of what was loaded isn't out; or it leaves the
/// new store, and runs behind it, over any world that shows the images that the crash left, go on from there.
pub fn a_crash_in_load_leaves_all_or_nothing<V: World, W: World>()
    ensures { (text : List ℕ) (schema : Resolved) (lost : ℕ) (deeds : List Deed) (old new : V) (fresh last : W) (crash : Triple)
        → FindsNone (V.view old) → IsSettled (V.view old) → IsTrue (V.view old).tells_output → schema_answer text ≡ Ok schema
        → RanInto Load text lost (V.view old) (V.view new) → (V.view new).left_since (V.view old).moment crash
        → ShowsImages crash (W.view fresh)
        → LeavesNone (line_of schema) (V.view old).shown crash ⊎ IsBegun W.view (new_store text schema) deeds fresh last }
{}
