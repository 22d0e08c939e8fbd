use pgs_base::Memory;

/// How a run over lines ends.
#[derive(Clone, Copy, Debug, PartialEq, Eq, Drop)]
pub enum Stop<E> {
    /// The machine ended the run, with a status of its own.
    Ended(E),
    /// A read failed.
    ReadFault,
    /// A call on an area failed.
    DiskFault,
    /// A put failed.
    PutFault,
    /// There was no memory.
    Memory,
}

impl<E> From<Memory> for Stop<E> {
    ghost use Rattle.std.specs.Prelude.{◌≡◌};
    ghost use Rattle.pgs_run_lines.specs.declared.stop.Stop.TheVariants as stops;

    ghost from_gives = { λ _ stop. stop ≡ stops.Memory };

    fn from(_: Memory) -> Stop<E> {
        Stop::Memory
    }
}
