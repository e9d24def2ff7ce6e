// How a command ends.
ghost use Rattle.std.specs.Prelude.{◌≡◌};
ghost use Rattle.mu_command_line.specs.Status.{number_of};

/// How a command ends (this profile). Each has a number, the program's exit status.
#[derive(Clone, Copy, Debug, PartialEq, Eq)]
pub enum Status {
    /// The work was done, and the input was read to its end.
    Done,
    /// The words are no command.
    Usage,
    /// The source failed.
    SourceFault,
    /// The sink failed.
    SinkFault,
    /// The flash failed.
    FlashFault,
    /// A line, an image or the number of a flash's pages isn't as it should be.
    Refused,
    /// Want of memory.
    NoMemory,
    /// The last record of a flash was written, and another is due.
    Worn,
    /// A limit of the input was passed.
    TooLong,
}

impl Status {
    ghost use Rattle.std.specs.Prelude.{◌≡◌};
    ghost use Rattle.mu_command_line.specs.Status.{number_of};

    /// The exit status.
    pub fn number(self) -> u8
        ensures { result ≡ number_of self }
    {
        match self {
            Status::Done => 0,
            Status::Usage => 2,
            Status::SourceFault => 3,
            Status::SinkFault => 4,
            Status::FlashFault => 5,
            Status::Refused => 7,
            Status::NoMemory => 9,
            Status::Worn => 12,
            Status::TooLong => 14,
        }
    }
}
