//! A run of a step, and what it leaves.

use crate::language::{self, View};
use crate::lines::{numbers, text};
use crate::telling::{feed_count, push_feed, told};
use crate::texts::unescaped;
use pgs_base::{List, Words};
use pgs_feed::FeedList;
use pgs_run::{BUDGET, run_within};
use pgs_run_follow::run_follow_within;
use pgs_run_sessions::run_sessions_within;
use pgs_world::{Area, MemFeed, MemSource, MemWorld, World};
use std::alloc::Global;

/// The bytes and the calls that a run, and a feed, has room for.
const ROOM: u64 = 8_388_608;

/// Both areas.
#[derive(Drop)]
pub struct Areas {
    pub a: Vec<u8>,
    pub b: Vec<u8>,
}

/// What a step leaves, and what is told of it.
#[derive(Drop)]
pub struct Left {
    pub areas: Areas,
    pub told: Vec<u8>,
}

/// The size of the reads, and the budget of bytes.
#[derive(Clone, Copy)]
pub struct Setting {
    pub size: usize,
    pub budget: u64,
}

// Words with a comma behind each.
fn words_of(alloc: Global, text: &str) -> Option<Words> {
    let mut words = Words::new(alloc);
    for word in text.split_terminator(',') {
        let bytes = unescaped(alloc, word)?;
        words.push(str::from_utf8(bytes.as_slice()).ok()?).ok()?;
    }
    Some(words)
}

fn source_of(alloc: Global, step: &[&str], size: usize) -> Option<MemSource> {
    let input = List::from_vec(text(alloc, step, "<")?);
    let failing = numbers(alloc, step, "fail read ")?;
    Some(MemSource::new(input, size.max(1), failing))
}

fn world_of(alloc: Global, step: &[&str], areas: &Areas) -> Option<MemWorld> {
    let a = List::from_slice(alloc, areas.a.as_slice()).ok()?;
    let b = List::from_slice(alloc, areas.b.as_slice()).ok()?;
    let failing = numbers(alloc, step, "fail world ")?;
    MemWorld::new(alloc, a, b, ROOM, failing).ok()
}

fn feeds_of(alloc: Global, step: &[&str]) -> Option<FeedList<MemFeed>> {
    let mut feeds = FeedList::new(alloc);
    for place in 0..feed_count(alloc, step)? {
        let sign = format!(in alloc; "fail feed {} ", place.saturating_add(1)).ok()?;
        let failing = numbers(alloc, step, sign.as_str())?;
        feeds
            .subscribe(MemFeed::new(alloc, ROOM, failing).ok()?)
            .ok()?;
    }
    Some(feeds)
}

/// What a run goes over.
#[derive(Drop)]
struct Outside {
    source: MemSource,
    world: MemWorld,
    feeds: FeedList<MemFeed>,
}

// A run of pgguard. `run` is the same within `BUDGET`.
fn guard(alloc: Global, words: &Words, outside: &mut Outside, budget: u64) -> u8 {
    let budget = budget.max(1).min(BUDGET);
    let Outside {
        source,
        world,
        feeds,
    } = outside;
    run_within(alloc, words, source, world, feeds, budget).number()
}

// A run of pgsession.
fn sessions(alloc: Global, words: &Words, outside: &mut Outside, budget: u64) -> u8 {
    let budget = budget.max(1).min(BUDGET);
    let (source, world) = (&mut outside.source, &mut outside.world);
    run_sessions_within(alloc, words, source, world, budget).number()
}

// A run of pgfollow.
fn follow(alloc: Global, words: &Words, outside: &mut Outside, budget: u64) -> u8 {
    let budget = budget.max(1).min(BUDGET);
    let (source, world) = (&mut outside.source, &mut outside.world);
    run_follow_within(alloc, words, source, world, budget).number()
}

// Puts what the language makes of an input.
fn put_view(alloc: Global, view: View, step: &[&str], world: &mut MemWorld) -> Option<u8> {
    let input = text(alloc, step, "<")?;
    let told = language::told(alloc, view, input.as_slice()).ok()?;
    world.put(told.as_slice()).ok()?;
    Some(0)
}

// Makes a step, and gives its status.
fn make(alloc: Global, step: &[&str], outside: &mut Outside, budget: u64) -> Option<u8> {
    let line = step.first()?;
    let (kind, rest) = line.split_once(' ').unwrap_or((line, ""));
    let words = words_of(alloc, rest)?;
    match kind {
        "guard" => Some(guard(alloc, &words, outside, budget)),
        "sessions" => Some(sessions(alloc, &words, outside, budget)),
        "follow" => Some(follow(alloc, &words, outside, budget)),
        "tokens" => put_view(alloc, View::Tokens, step, &mut outside.world),
        "tree" => put_view(alloc, View::Tree, step, &mut outside.world),
        _ => put_view(alloc, View::Schema, step, &mut outside.world),
    }
}

// What is told of a run that ended with this status.
fn found(alloc: Global, step: &[&str], outside: &Outside, status: u8) -> Option<Vec<u8>> {
    let mut told = told(alloc, u64::from(status), outside.world.output())?;
    for place in 0..feed_count(alloc, step)? {
        let taken = outside.feeds.shown(place as usize)?;
        push_feed(&mut told, place.saturating_add(1), taken)?;
    }
    Some(told)
}

/// What a step leaves that begins with these areas.
pub fn left_by(alloc: Global, step: &[&str], areas: &Areas, setting: Setting) -> Option<Left> {
    let mut outside = Outside {
        source: source_of(alloc, step, setting.size)?,
        world: world_of(alloc, step, areas)?,
        feeds: feeds_of(alloc, step)?,
    };
    let status = make(alloc, step, &mut outside, setting.budget)?;
    let told = found(alloc, step, &outside, status)?;
    let a = Vec::from_slice(alloc, outside.world.bytes(Area::A)).ok()?;
    let b = Vec::from_slice(alloc, outside.world.bytes(Area::B)).ok()?;
    let areas = Areas { a, b };
    Some(Left { areas, told })
}
