ghost use Rattle.std.specs.Prelude.{◌≡◌};
ghost use Rattle.pgs_command.specs.ExitStatus.{status_number};
ghost use Rattle.pgs_run_sessions.specs.Statuses.{status_of};

use pgs_command::Status;

/// How a run of `pgsession` ended. The number is the exit status of the program, as of `pgguard`.
#[derive(Clone, Copy, PartialEq, Eq)]
pub enum SessionStatus {
    /// 0: the input was read to its end, and nothing was refused.
    Accepted,
    /// 1: the input was read to its end, and some line was refused.
    Refused,
    /// 2: the words aren't `run`.
    BadWords,
    /// 3: the schema text was refused.
    SchemaRefused,
    /// 6: a read failed; only where the source's count of faults rose.
    ReadFault,
    /// 7: a put failed; only where the world's count of put faults rose.
    PutFault,
    /// 8: there was no memory.
    Memory,
    /// 9: the input has as many bytes as the budget of the run, or more.
    InputTooLong,
}

impl SessionStatus {
    /// The status as one of `pgguard`.
    pub fn status(self) -> Status
        ensures { result ≡ status_of self }
    {
        match self {
            SessionStatus::Accepted => Status::Accepted,
            SessionStatus::Refused => Status::Refused,
            SessionStatus::BadWords => Status::BadWords,
            SessionStatus::SchemaRefused => Status::SchemaRefused,
            SessionStatus::ReadFault => Status::ReadFault,
            SessionStatus::PutFault => Status::PutFault,
            SessionStatus::Memory => Status::Memory,
            SessionStatus::InputTooLong => Status::InputTooLong,
        }
    }

    /// The number of the status.
    pub fn number(self) -> u8
        ensures { result ≡ status_number (status_of self) }
    {
        self.status().number()
    }

    /// Of a status that isn't of a store.
    pub(crate) fn of(status: Status) -> SessionStatus
        requires store { status ≡ Status.StoreRefused → ⊥ }
        requires disk { status ≡ Status.DiskFault → ⊥ }
        ensures { status_of result ≡ status }
    {
        match status {
            Status::Accepted => SessionStatus::Accepted,
            Status::Refused => SessionStatus::Refused,
            Status::BadWords => SessionStatus::BadWords,
            Status::SchemaRefused => SessionStatus::SchemaRefused,
            Status::ReadFault => SessionStatus::ReadFault,
            Status::PutFault => SessionStatus::PutFault,
            Status::Memory => SessionStatus::Memory,
            Status::InputTooLong => SessionStatus::InputTooLong,
            Status::StoreRefused | Status::DiskFault => unreachable!(),
        }
    }
}
