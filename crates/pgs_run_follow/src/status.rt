ghost use Rattle.std.specs.Prelude.{◌≡◌, ◌⊎◌};
ghost use Rattle.pgs_command.specs.Answers.{IsOfWords};
ghost use Rattle.pgs_command.specs.ExitStatus.{status_number};
ghost use Rattle.pgs_run_follow.specs.Spec.{IsOfFollower, status_of};

use pgs_command::Status;

/// How a run ended. The number is the exit status of the program.
#[derive(Clone, Copy, PartialEq, Eq)]
pub enum FollowStatus {
    /// 0: the feed was read to its end and followed.
    Accepted,
    /// 1: the feed was read to its end, and a fault ended what is followed.
    Refused,
    /// 2: the words are not `follow`.
    BadWords,
    /// 6: a read failed; only where the source's count of faults rose.
    ReadFault,
    /// 7: a put failed; only where the world's count of put faults rose.
    PutFault,
    /// 8: there was no memory.
    Memory,
    /// 9: the input has as many bytes as the budget of the run, or more.
    InputTooLong,
}

impl FollowStatus {
    /// The status of a run that followed, or whose words were refused.
    pub(crate) fn of(status: Status) -> FollowStatus
        requires { IsOfFollower status ⊎ IsOfWords status }
        ensures { status_of result ≡ status }
    {
        match status {
            Status::Accepted => FollowStatus::Accepted,
            Status::Refused => FollowStatus::Refused,
            Status::BadWords => FollowStatus::BadWords,
            Status::ReadFault => FollowStatus::ReadFault,
            Status::PutFault => FollowStatus::PutFault,
            Status::Memory => FollowStatus::Memory,
            Status::InputTooLong => FollowStatus::InputTooLong,
            Status::SchemaRefused | Status::StoreRefused | Status::DiskFault => unreachable!(),
        }
    }

    /// As a status of a command.
    pub fn status(self) -> Status
        ensures { result ≡ status_of self }
    {
        match self {
            FollowStatus::Accepted => Status::Accepted,
            FollowStatus::Refused => Status::Refused,
            FollowStatus::BadWords => Status::BadWords,
            FollowStatus::ReadFault => Status::ReadFault,
            FollowStatus::PutFault => Status::PutFault,
            FollowStatus::Memory => Status::Memory,
            FollowStatus::InputTooLong => Status::InputTooLong,
        }
    }

    /// The number of the status, as `pgguard` has it.
    pub fn number(self) -> u8
        ensures { result ≡ status_number (status_of self) }
    {
        self.status().number()
    }
}
