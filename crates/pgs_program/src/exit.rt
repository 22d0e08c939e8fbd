ghost use Rattle.std.specs.Prelude.{◌≡◌};
ghost use Rattle.std.specs.Process.{exit_status};
ghost use Rattle.pgs_command.specs.ExitStatus.{status_number};

use pgs_command::Status;
use std::process::ExitCode;

/// The exit code of a status: its number.
pub fn exit_code(status: Status) -> ExitCode
    ensures { exit_status result ≡ status_number status }
{
    ExitCode::from(status.number())
}
