ghost use Rattle.std.specs.Prelude.{◌<◌, ◌≤◌};

use pgs_base::{List, Memory, Words};
use pgs_world::{MemSource, MemWorld};
use std::alloc::Global;

/// The bytes and the calls that the output of a run has room for.
pub const ROOM: u64 = 65_536;

/// How a run is disturbed. The reads and the puts that fail are counted from 1; 0 is none.
#[derive(Clone, Copy, Debug)]
pub struct Setting {
    pub piece: usize,
    pub failing_read: u64,
    pub failing_put: u64,
    pub budget: u64,
}

/// A run with reads of at most so many bytes, and nothing that disturbs it.
pub fn quiet(piece: usize) -> Setting {
    Setting {
        piece,
        failing_read: 0,
        failing_put: 0,
        budget: u64::MAX,
    }
}

fn call_list(alloc: Global, call: u64) -> Result<List<u64>, Memory> {
    List::from_slice(alloc, [call].as_slice())
}

impl Setting {
    /// The input, read as the setting says.
    pub fn source(&self, alloc: Global, input: &[u8]) -> Result<MemSource, Memory> {
        let reads = call_list(alloc, self.failing_read)?;
        let bytes = List::from_slice(alloc, input)?;
        Ok(MemSource::new(bytes, self.piece.max(1), reads))
    }

    /// A world of empty areas, whose output fails as the setting says.
    pub fn world(&self, alloc: Global) -> Result<MemWorld, Memory> {
        let puts = call_list(alloc, self.failing_put)?;
        MemWorld::new(alloc, List::new(alloc), List::new(alloc), ROOM, puts)
    }

    /// The budget of bytes, at least 1 and at most the greatest.
    pub fn budget_within(&self, greatest: u64) -> u64
        requires { 0 < greatest }
        ensures positive { 0 < result }
        ensures within { result ≤ greatest }
    {
        self.budget.max(1).min(greatest)
    }
}

/// The words, which stand in the text with a comma after each.
pub fn words_of(alloc: Global, text: &str) -> Result<Words, Memory> {
    let mut words = Words::new(alloc);
    for word in text.split_terminator(',') {
        words.push(word)?;
    }
    Ok(words)
}
