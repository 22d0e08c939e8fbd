//! The files that words name, and all that a run goes over.

ghost use Rattle.std.specs.Prelude.{◌≡◌, [], ◌∷◌, ◌++◌, Some, map, option_map, IfOk, OnOk};
ghost use Rattle.std.specs.List.{list_any};
ghost use Rattle.std.specs.Str.{bytes_eq};
ghost use Rattle.pgs_feed.specs.Places.{fed};
ghost use Rattle.pgs_feed.specs.Seen.{feeds_in, places};
ghost use Rattle.pgs_world_files.specs.Counted.{untold_bytes};
ghost use Rattle.pgs_program.specs.Outside.{seed_of};
ghost use Rattle.pgguard.specs.Opened.{AreFeedsOf, IsFeedOf, IsOpened, access_of, files_of, is_among};

use pgs_base::{Memory, Words};
use pgs_feed::FeedList;
use pgs_program::{Outside, areas_of, seed_of};
use pgs_run_words::{Command, CommandLine};
use pgs_world::Feed;
use pgs_world_files::{FeedCause, FileCause, FileFeed, Handle, Opening, StoreAccess, file_name};
use pgs_world_streams::{SteadyRead, SteadyWrite};
use std::alloc::Global;
use std::collections::hash_map::RandomState;
use std::io;

/// What a run of the program goes over: its input, its files and its output, and its feeds.
#[derive(Drop)]
pub struct Opened<R: SteadyRead, W: SteadyWrite, H: Handle, L: SteadyWrite + Drop> {
    pub outside: Outside<R, W, H>,
    pub feeds: FeedList<FileFeed<L>>,
}

// What a command does with its store.
fn access_of(command: &Option<Command>) -> StoreAccess
    ensures { result ≡ access_of command.now }
{
    match command {
        Some(Command::Recover | Command::Explain { .. }) => StoreAccess::Read,
        Some(Command::Load) => StoreAccess::Make,
        Some(Command::Checkpoint) => StoreAccess::WriteOver,
        _ => StoreAccess::Append,
    }
}

fn is_any(names: &[&str], name: &str) -> bool
    ensures { result ≡ list_any (λ other. bytes_eq name.now other.now) names.now }
{
    names.iter().any(|other| name == *other)
}

// Whether a name is among these.
fn is_among(names: &[&str], name: &str) -> bool
    ensures { result ≡ is_among (map (λ other. other.now) names.now) name.now }
{
    is_any(names, name)
}

// The feed of a name, behind these names. One that is among them is a feed into no file: every put is a fault, and neither an area nor
// another feed is written.
fn feed_of<O: Opening>(
    system: &mut O,
    earlier: &[&str],
    name: &str,
) -> Result<FileFeed<O::Line>, Memory>
    ensures feed { IfOk result (IsFeedOf O.feed_gives (map (λ other. other.now) earlier.now) name.now) }
    ensures faults { IfOk result (λ feed. ⟦<FileFeed<O::Line> as Feed>⟧.faults feed ≡ 0) }
{
    if is_among(earlier, name) {
        return Ok(FileFeed::absent(FeedCause::File(FileCause::Twice)));
    }
    system.open_feed(name)
}

// Adds the feed of a name, behind these names.
fn add_feed<O: Opening>(
    system: &mut O,
    feeds: &mut FeedList<FileFeed<O::Line>>,
    earlier: &[&str],
    name: &str,
) -> Result<(), Memory>
    ensures feed { OnOk result ((feed : _) × (feeds_in feeds.new ≡ feeds_in feeds.old ++ Some feed ∷ []) × IsFeedOf O.feed_gives (map (λ other. other.now) earlier.now) name.now feed) }
    ensures places { let feed = ⟦<FileFeed<O::Line> as Feed>⟧ in OnOk result (places (λ feed. untold_bytes) feed.faults feeds.new ≡ places (λ feed. untold_bytes) feed.faults feeds.old ++ fed untold_bytes 0 ∷ []) }
{
    let feed = feed_of(system, earlier, name)?;
    match feeds.subscribe(feed) {
        Ok(_) => {}
        Err(_) => return Err(Memory),
    }
    Ok(())
}

// The feeds of these names behind others, in order.
fn open_feeds<O: Opening>(
    system: &mut O,
    alloc: Global,
    files: &[&str],
    names: &[&str],
) -> Result<FeedList<FileFeed<O::Line>>, Memory>
    ensures feeds { IfOk result (λ feeds. AreFeedsOf O.feed_gives (map (λ other. other.now) files.now) (map (λ other. other.now) names.now) (feeds_in feeds)) }
    ensures places { let feed = ⟦<FileFeed<O::Line> as Feed>⟧ in IfOk result (λ feeds. places (λ feed. untold_bytes) feed.faults feeds ≡ map (λ name. fed untold_bytes 0) (map (λ other. other.now) names.now)) }
{
    let mut earlier = Vec::with_capacity(alloc, files.len())?;
    earlier.extend_from_slice(files)?;
    let mut feeds = FeedList::new(alloc);
    for name in names {
        add_feed(system, &mut feeds, earlier.as_slice(), name)?;
        earlier.push(*name)?;
    }
    Ok(feeds)
}

/// The feeds of a command line, each a file that is written behind its end, in order: none of them has failed yet. A name that stands
/// before it among them, or is a file's of the store, is a feed into no file.
pub fn feeds_of<O: Opening>(
    system: &mut O,
    alloc: Global,
    line: &CommandLine<'_>,
) -> Result<FeedList<FileFeed<O::Line>>, Memory>
    ensures feeds { IfOk result (λ feeds. AreFeedsOf O.feed_gives (files_of (option_map (λ name. name.now) line.now.store)) (map (λ name. name.now) line.now.feeds) (feeds_in feeds)) }
    ensures places { let feed = ⟦<FileFeed<O::Line> as Feed>⟧ in IfOk result (λ feeds. places (λ feed. untold_bytes) feed.faults feeds ≡ map (λ name. fed untold_bytes 0) (map (λ name. name.now) line.now.feeds)) }
{
    let store = line.store.unwrap_or("");
    let a = file_name(alloc, store, ".a")?;
    let b = file_name(alloc, store, ".b")?;
    open_feeds(
        system,
        alloc,
        &[a.as_str(), b.as_str()],
        line.feeds.as_slice(),
    )
}

/// Opens what the words name, over a reader and a writer, with the keys of hashing that were drawn.
pub fn open<O: Opening, R: SteadyRead + Drop, W: SteadyWrite + Drop>(
    system: &mut O,
    alloc: Global,
    words: &Words,
    reader: R,
    writer: W,
    drawn: io::Result<RandomState>,
) -> Result<Opened<R, W, O::Area, O::Line>, Memory>
    ensures { IfOk result (IsOpened O.area_gives O.feed_gives words.now reader writer (seed_of drawn)) }
{
    let line = CommandLine::read(alloc, words)?;
    let areas = areas_of(system, alloc, line.store, access_of(&line.command))?;
    let feeds = feeds_of(system, alloc, &line)?;
    let outside = Outside::new(areas, reader, writer, seed_of(drawn));
    Ok(Opened { outside, feeds })
}
