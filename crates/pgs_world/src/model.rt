ghost use Rattle.std.specs.Prelude.{◌↔◌, ℕ, List};
ghost use Rattle.pgs_world.specs.Changes.{Change, after_changes, CanChangeAll, StepsAll};
ghost use Rattle.pgs_world.specs.Held.{IsImage, on_disk};

/// The disk model. What the clauses on stops of `World` allow after any writes and cuts since a sync, call by
/// call, is exactly this: an image whose length is between the least and the greatest since the sync, where
/// each byte below the least length that no write reached since is the one that was synced.
pub fn disk_model()
    ensures { (bytes : List ℕ) (changes : List Change) (image : List ℕ) → CanChangeAll (on_disk bytes) changes → (IsImage (after_changes (on_disk bytes) changes) image ↔ StepsAll changes bytes image) }
{}
