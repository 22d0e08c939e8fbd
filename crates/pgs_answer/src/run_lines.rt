ghost use Rattle.std.specs.Prelude.{◌≡◌, ◌++◌, IfOk, OnOk};
ghost use Rattle.pgs_answer.specs.Lines.{schema_refused_line, store_refused_line, words_refused_line, committed_line, refused_line, violation_line, loaded_line, evolved_line, evolve_refused_line, feed_refused_line, followed_line, feeds_lost_line, graph_counts, gen_line, checkpoint_line};

use crate::pieces::{number_between, push_count, text_between, two_numbers_line};
use pgs_base::{Bytes, Memory};
use pgs_base_text::TextBuffer;
use std::alloc::Global;

// Room for the words of a line and two numbers.
const ROOM: usize = 64;

/// The line of a refused schema.
#[tactic(auto, unfolding(crate::specs::Lines::schema_refused_line))]
pub fn schema_refused_line(alloc: Global, text: &[u8]) -> Result<Bytes, Memory>
    ensures { IfOk result (λ line. line ≡ schema_refused_line text.now) }
{
    text_between(alloc, b"schema refused ", text, b"\n")
}

/// The line of a refused store.
pub fn store_refused_line(alloc: Global, text: &[u8]) -> Result<Bytes, Memory>
    ensures { IfOk result (λ line. line ≡ store_refused_line text.now) }
{
    text_between(alloc, b"store refused ", text, b"\n")
}

/// The line of refused words: refusal 35.
#[tactic(auto, unfolding(crate::specs::Lines::words_refused_line))]
pub fn words_refused_line(alloc: Global) -> Result<Bytes, Memory>
    ensures { IfOk result (λ line. line ≡ words_refused_line) }
{
    Bytes::from_slice(alloc, b"words refused 35\n")
}

/// The verdict line of a committed transaction: the number of its line and of its commit, from 1.
#[tactic(auto, unfolding(crate::specs::Lines::committed_line))]
pub fn committed_line(alloc: Global, line_number: u64, commit: u64) -> Result<Bytes, Memory>
    ensures { IfOk result (λ line. line ≡ committed_line line_number commit) }
{
    let mut line = TextBuffer::with_room(alloc, ROOM)?;
    line.push_number(line_number)?;
    line.push(b" committed ")?;
    line.push_number(commit)?;
    line.push(b"\n")?;
    Ok(line.into_bytes())
}

/// The verdict line of a refused transaction: the number of its line, from 1, and why.
#[tactic(auto, unfolding(crate::specs::Lines::refused_line))]
pub fn refused_line(alloc: Global, line_number: u64, text: &[u8]) -> Result<Bytes, Memory>
    ensures { IfOk result (λ line. line ≡ refused_line line_number text.now) }
{
    let mut line = TextBuffer::with_room(alloc, text.len().saturating_add(ROOM))?;
    line.push_number(line_number)?;
    line.push(b" refused ")?;
    line.push(text)?;
    line.push(b"\n")?;
    Ok(line.into_bytes())
}

/// The line of a violation that is listed.
pub fn violation_line(alloc: Global, text: &[u8]) -> Result<Bytes, Memory>
    ensures { IfOk result (λ line. line ≡ violation_line text.now) }
{
    text_between(alloc, b"violation ", text, b"\n")
}

/// The line of a loaded store: how many types and keys the guard has.
pub fn loaded_line(alloc: Global, types: u64, keys: u64) -> Result<Bytes, Memory>
    ensures { IfOk result (λ line. line ≡ loaded_line types keys) }
{
    two_numbers_line(alloc, b"loaded types=", types, b" keys=", keys)
}

/// The line of a store under another schema: how many types and keys its guard has.
pub fn evolved_line(alloc: Global, types: u64, keys: u64) -> Result<Bytes, Memory>
    ensures { IfOk result (λ line. line ≡ evolved_line types keys) }
{
    two_numbers_line(alloc, b"evolved types=", types, b" keys=", keys)
}

/// The line of a schema that is refused for a violation of the graph.
pub fn evolve_refused_line(alloc: Global, text: &[u8]) -> Result<Bytes, Memory>
    ensures { IfOk result (λ line. line ≡ evolve_refused_line text.now) }
{
    text_between(alloc, b"evolve refused ", text, b"\n")
}

/// The line of a feed that can't be followed further: 47 to 50.
#[tactic(auto, unfolding(crate::specs::Lines::feed_refused_line))]
pub fn feed_refused_line(alloc: Global, text: &[u8]) -> Result<Bytes, Memory>
    ensures { IfOk result (λ line. line ≡ feed_refused_line text.now) }
{
    text_between(alloc, b"refused ", text, b"\n")
}

/// The line of how many commits of a feed were followed, and how many bytes stand behind its last line feed.
#[tactic(auto, unfolding(crate::specs::Lines::followed_line))]
pub fn followed_line(alloc: Global, commits: u64, rest: u64) -> Result<Bytes, Memory>
    ensures { IfOk result (λ line. line ≡ followed_line commits rest) }
{
    two_numbers_line(alloc, b"followed commits=", commits, b" rest=", rest)
}

/// The last line of a run in which feeds were lost, with their number.
pub fn feeds_lost_line(alloc: Global, lost: u64) -> Result<Bytes, Memory>
    ensures { IfOk result (λ line. line ≡ feeds_lost_line lost) }
{
    number_between(alloc, b"feeds lost=", lost, b"\n")
}

// Puts the counts of a graph last: how many nodes and edges there are, and how many edges come in at node 1.
fn push_graph_counts(line: &mut TextBuffer, nodes: u64, edges: u64, in1: u64) -> Result<(), Memory>
    ensures { OnOk result (line.new ≡ line.old ++ graph_counts nodes edges in1) }
{
    push_count(line, b" nodes=", nodes)?;
    push_count(line, b" edges=", edges)?;
    push_count(line, b" in1=", in1)
}

/// The line of a generated workload: how many transactions were committed and refused, how many nodes and edges there are, and how
/// many edges come in at node 1.
pub fn gen_line(
    alloc: Global,
    committed: u64,
    refused: u64,
    nodes: u64,
    edges: u64,
    in1: u64,
) -> Result<Bytes, Memory>
    ensures { IfOk result (λ line. line ≡ gen_line committed refused nodes edges in1) }
{
    let mut line = TextBuffer::with_room(alloc, 160)?;
    push_count(&mut line, b"gen committed=", committed)?;
    push_count(&mut line, b" refused=", refused)?;
    push_graph_counts(&mut line, nodes, edges, in1)?;
    line.push(b"\n")?;
    Ok(line.into_bytes())
}

/// The line of a checkpoint: the new epoch, and the commits that the store has.
pub fn checkpoint_line(alloc: Global, epoch: u64, commits: u64) -> Result<Bytes, Memory>
    ensures { IfOk result (λ line. line ≡ checkpoint_line epoch commits) }
{
    two_numbers_line(alloc, b"checkpoint epoch=", epoch, b" commits=", commits)
}
