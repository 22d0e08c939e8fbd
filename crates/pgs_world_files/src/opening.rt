ghost use Rattle.std.specs.Prelude.{◌≡◌, ℕ, List, ⊤, IfOk, string_bytes};
ghost use Rattle.pgs_world_files.specs.declared.access.Access.{Access};
ghost use Rattle.pgs_world_files.specs.declared.area_file.AreaFile.{AreaFile};
ghost use Rattle.pgs_world_files.specs.declared.file_feed.FileFeed.{FileFeed};

use crate::{Access, AreaFile, FileFeed, Handle};
use pgs_base::Memory;
use pgs_world::Feed;
use pgs_world_streams::SteadyWrite;

/// What opens files by their names. Which file a name and an access gave is a fact that other code can't make up.
pub trait Opening {
    /// An open file of a store.
    type Area: Handle;

    /// An open file that is written behind its end.
    type Line: SteadyWrite + Drop;

    /// What a name and an access gave: an area in the file of this name, or in none.
    ghost area_gives: { List ℕ → Access → AreaFile Self.Area → Type 0 } = { λ _ _ _. ⊤ };

    /// What a name gave: a feed into the file of this name, or into none.
    ghost feed_gives: { List ℕ → FileFeed Self.Line → Type 0 } = { λ _ _. ⊤ };

    /// The file of that name, opened and locked for the access and made empty where it is absent; else no file, and the cause.
    fn open_area(&mut self, name: String, access: Access) -> Result<AreaFile<Self::Area>, Memory>
        ensures { IfOk result (λ area. area_gives (string_bytes name) access area) };

    /// The file of that name as a feed, made empty where it is absent; else no file, and the cause.
    fn open_feed(&mut self, name: &str) -> Result<FileFeed<Self::Line>, Memory>
        ensures gives { IfOk result (λ feed. feed_gives name.now feed) }
        ensures faults { IfOk result (λ feed. ⟦<FileFeed<Self::Line> as Feed>⟧.faults feed ≡ 0) };
}
