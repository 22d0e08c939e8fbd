//! What the definitions of bytes and of areas have to do with each other. The functions do nothing; their contracts are the
//! statements.

ghost use Rattle.std.specs.Prelude.{◌≡◌, ◌<◌, ◌^◌, ◌++◌, ℕ, List, true, Option, None, slice_index};
ghost use Rattle.pgs_journal.specs.Appended.{AreAppended, AreGivenBeside};
ghost use Rattle.pgs_journal.specs.Area.{area_state, first_unfit, has_some};
ghost use Rattle.pgs_journal.specs.Format.{format_of, Holds};
ghost use Rattle.pgs_journal.specs.Told.{IsStateOf, IsMadeBy};
ghost use Rattle.pgs_journal.specs.declared.area_state.AreaState.{AreaState};
ghost use Rattle.pgs_journal.specs.declared.area_state.AreaState.TheVariants as areas;
ghost use Rattle.pgs_world.specs.Answers.{Answer};
ghost use Rattle.pgs_world.specs.declared.area_limit.TheConstants.{AREA_LIMIT};

/// An area that holds records, each fit for its place, is read as a store of them, whatever stands behind its closed gate.
pub fn held_records_are_read()
    ensures { (epoch end : ℕ) (next : Option ℕ) (payloads : List (List ℕ)) (image : List ℕ) → Holds next epoch payloads end image → end < 2 ^ 64
        → has_some payloads ≡ true → first_unfit (format_of next) epoch 1 payloads ≡ None → area_state image ≡ areas.Store epoch end next payloads }
{}

/// The other way round: an area of bytes that is read as a store holds its records, and each is fit for its place.
pub fn read_records_are_held()
    ensures held { (epoch end : ℕ) (next : Option ℕ) (payloads : List (List ℕ)) (image : List ℕ) → ((i : ℕ) → slice_index image i < 256)
        → area_state image ≡ areas.Store epoch end next payloads → Holds next epoch payloads end image }
    ensures fit { (epoch end : ℕ) (next : Option ℕ) (payloads : List (List ℕ)) (image : List ℕ) → ((i : ℕ) → slice_index image i < 256)
        → area_state image ≡ areas.Store epoch end next payloads → (has_some payloads ≡ true) × (first_unfit (format_of next) epoch 1 payloads ≡ None) }
{}

/// A reading beside a writer: where answers that make a state were given while records were appended, each of the area as it was then, the
/// state is that of the area at the last answer.
pub fn reading_beside_appends()
    ensures { (answers : List Answer) (state : AreaState) (first last : List ℕ) → IsMadeBy answers state → AreGivenBeside first answers last → IsStateOf state last }
{}

/// That area came by appends from the one at the reading's start, and appends keep each record that an area holds. So what was appended before
/// a reading began is in the state that it makes.
pub fn appends_keep_records()
    ensures later { (answers : List Answer) (first last : List ℕ) → AreGivenBeside first answers last → AreAppended first last }
    ensures kept { (first last : List ℕ) (next : Option ℕ) (epoch end : ℕ) (payloads : List (List ℕ)) → AreAppended first last → Holds next epoch payloads end first → end < AREA_LIMIT
        → (more : List (List ℕ)) × (now : Option ℕ) × (place : ℕ) × Holds now epoch (payloads ++ more) place last }
{}
