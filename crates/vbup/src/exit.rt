//! The exit status of the program.
ghost use Rattle.std.specs.Prelude.{◌≡◌};
ghost use Rattle.vbup.specs.Exit.{exit_number};

use wizard_cli::Status;

/// The number that the process ends with: 0 to 8, in the order of the statuses.
pub(crate) fn number(status: Status) -> u8
    ensures { result ≡ exit_number status }
{
    match status {
        Status::Done => 0,
        Status::DoneWithIssues => 1,
        Status::BadWords => 2,
        Status::Refused => 3,
        Status::ReadFault => 4,
        Status::WriteFault => 5,
        Status::ConsoleFault => 6,
        Status::OutOfMemory => 7,
        Status::Differs => 8,
    }
}
