ghost use Rattle.std.specs.Prelude.{◌≡◌};
ghost use Rattle.pgs_program.specs.Outside.{HasNoFiles, IsFresh, seed_of};

use crate::{Causes, Ended};
use pgs_base::Seed;
use pgs_command::Status;
use pgs_world_files::{AreaFiles, FileWorld, Handle};
use pgs_world_streams::{StdinSource, SteadyRead, SteadyWrite, StreamCauses};
use std::collections::hash_map::RandomState;
use std::io;

/// What a program runs over: its input, and its areas and its output as a world.
#[derive(Drop)]
pub struct Outside<R: SteadyRead, W: SteadyWrite, H: Handle> {
    pub source: StdinSource<R>,
    pub world: FileWorld<W, H>,
}

/// How a run ended, and what it went over.
#[derive(Drop)]
pub struct Ran<R: SteadyRead, W: SteadyWrite, H: Handle> {
    pub status: Status,
    pub outside: Outside<R, W, H>,
}

/// How a program's graphs hash: by keys that no one else knows, so that whoever chooses the numbers of nodes can't make them collide. Where
/// the system draws none, the fixed keys serve, since no answer depends on them.
pub fn seed_of(drawn: io::Result<RandomState>) -> Seed
    ensures { result ≡ seed_of drawn }
{
    match drawn {
        Ok(keys) => Seed::Random(keys),
        Err(_) => Seed::Fixed,
    }
}

impl<R: SteadyRead, W: SteadyWrite, H: Handle> Outside<R, W, H> {
    /// These areas, a reader and a writer, and how graphs hash, before any call.
    pub fn new(areas: AreaFiles<H>, reader: R, writer: W, seed: Seed) -> Outside<R, W, H>
        ensures fresh { IsFresh reader writer seed result }
        ensures areas { result.world.areas ≡ areas }
    {
        Outside {
            source: StdinSource::new(reader),
            world: FileWorld::new(areas, writer, seed),
        }
    }

    /// The same over areas that have no files.
    pub fn without_files(reader: R, writer: W, seed: Seed) -> Outside<R, W, H>
        ensures fresh { IsFresh reader writer seed result }
        ensures no_files { HasNoFiles result.world.areas }
    {
        Outside::new(AreaFiles::absent(), reader, writer, seed)
    }

    /// A run over this that ended so.
    pub fn ended(&self, status: Status) -> Ended
        ensures { result.status ≡ status }
    {
        Ended {
            status,
            causes: Causes {
                streams: StreamCauses {
                    source: self.source.cause(),
                    output: self.world.put_cause(),
                },
                area: self.world.area_cause(),
            },
        }
    }
}

impl<R: SteadyRead, W: SteadyWrite, H: Handle> Ran<R, W, H> {
    /// How it ended, and why its faults came.
    pub fn ended(&self) -> Ended
        ensures { result.status ≡ self.now.status }
    {
        self.outside.ended(self.status)
    }
}
