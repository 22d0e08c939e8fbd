//! What it is to be saved, in the words of the two areas. The function does nothing; its contract is the statement.

ghost use Rattle.std.specs.Prelude.{◌≡◌, Some};
ghost use Rattle.pgs_journal.specs.declared.journal.Journal.{Journal};
ghost use Rattle.pgs_snapshot.specs.Choice.{chosen_area, chosen_epoch, chosen_next};
ghost use Rattle.pgs_snapshot.specs.Saved.{saved, store};
ghost use Rattle.pgs_store.specs.State.{GuardState};
ghost use Rattle.pgs_store.specs.Stored.{IsSavedIn};
ghost use Rattle.pgs_world.specs.World.{Triple};

/// Of images that hold a store, what is saved is the text, the commits and the graph of its guard, and what is chosen is the area,
/// the epoch and the next number of its journal.
pub fn a_store_is_what_is_saved()
    ensures saved { (guard : GuardState) (journal : Journal) (triple : Triple) → IsSavedIn guard journal triple →
        saved guard.limits triple.a triple.b ≡ store guard.text guard.commits guard.graph }
    ensures area { (guard : GuardState) (journal : Journal) (triple : Triple) → IsSavedIn guard journal triple →
        chosen_area triple.a triple.b ≡ Some journal.area }
    ensures epoch { (guard : GuardState) (journal : Journal) (triple : Triple) → IsSavedIn guard journal triple →
        chosen_epoch triple.a triple.b ≡ Some journal.epoch }
    ensures next { (guard : GuardState) (journal : Journal) (triple : Triple) → IsSavedIn guard journal triple →
        chosen_next triple.a triple.b ≡ journal.next }
{}
