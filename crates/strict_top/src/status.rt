ghost use Rattle.std.specs.Prelude.{◌≡◌};
ghost use Rattle.strict_top.specs.Statuses.{number_of};

use std::process::ExitCode;

/// How a run ended. As a number, from 0 to 7, it is the program's exit status.
#[derive(Clone, Copy, Debug, PartialEq, Eq)]
pub enum Status {
    /// Every module is published or plain.
    Done,
    /// An entry call ended in an exception, or spent its fuel.
    Raised,
    /// Some module is refused.
    Refused,
    /// The words aren't taken.
    BadWords,
    /// The folder failed. Nothing was written.
    FolderFault,
    /// The sink failed. The first bytes of the report were written.
    SinkFault,
    /// There was no memory. Nothing was written, or the first bytes of the report.
    OutOfMemory,
    /// The folder has too many modules, or too many bytes. Nothing was written.
    TooLarge,
}

impl Status {
    /// The exit status of a program whose run ended so, from 0 to 7.
    pub fn number(self) -> u8
        ensures { result ≡ number_of self }
    {
        self as u8
    }
}

impl From<Status> for ExitCode {
    ghost use Rattle.std.specs.Prelude.{◌≡◌};
    ghost use Rattle.std.specs.Process.{exit_status};
    ghost use Rattle.strict_top.specs.Statuses.{number_of};

    ghost from_gives = { λ status code. exit_status code ≡ number_of status };

    fn from(status: Status) -> ExitCode {
        ExitCode::from(status.number())
    }
}
