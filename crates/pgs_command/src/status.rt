ghost use Rattle.std.specs.Prelude.{◌≡◌};
ghost use Rattle.pgs_command.specs.Ending.{status_at};
ghost use Rattle.pgs_command.specs.ExitStatus.{status_number};

use pgs_run_lines::{RunStatus, Stop};

/// How a run ended. The number is the exit status of the program.
#[derive(Clone, Copy, Debug, PartialEq, Eq)]
pub enum Status {
    /// 0: the input was read to its end, and nothing was refused.
    Accepted,
    /// 1: the input was read to its end, and some line was refused.
    Refused,
    /// 2: the words are no command.
    BadWords,
    /// 3: the schema text was refused.
    SchemaRefused,
    /// 4: the store was refused.
    StoreRefused,
    /// 5: a call on an area failed; only where the world's count of area faults rose.
    DiskFault,
    /// 6: a read failed; only where the source's count of faults rose.
    ReadFault,
    /// 7: a put failed; only where the world's count of put faults rose.
    PutFault,
    /// 8: there was no memory.
    Memory,
    /// 9: the input has as many bytes as the budget of the run, or more.
    InputTooLong,
}

impl Status {
    /// The number of the status, 0 to 9.
    pub fn number(self) -> u8
        ensures { result ≡ status_number self }
    {
        match self {
            Status::Accepted => 0,
            Status::Refused => 1,
            Status::BadWords => 2,
            Status::SchemaRefused => 3,
            Status::StoreRefused => 4,
            Status::DiskFault => 5,
            Status::ReadFault => 6,
            Status::PutFault => 7,
            Status::Memory => 8,
            Status::InputTooLong => 9,
        }
    }
}

impl RunStatus for Status {
    ghost use Rattle.pgs_command.specs.declared.status.Status.TheVariants.{Memory, PutFault};

    ghost put_failed = { PutFault };

    ghost no_memory = { Memory };

    fn put_fault() -> Status {
        Status::PutFault
    }

    fn memory() -> Status {
        Status::Memory
    }
}

/// The status of a run over lines that stopped so.
pub fn status_at(stop: Stop<Status>) -> Status
    ensures { result ≡ status_at stop }
{
    match stop {
        Stop::Ended(status) => status,
        Stop::ReadFault => Status::ReadFault,
        Stop::DiskFault => Status::DiskFault,
        Stop::PutFault => Status::PutFault,
        Stop::Memory => Status::Memory,
    }
}
