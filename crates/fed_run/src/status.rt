//! How a run ends.
ghost use Rattle.std.specs.Prelude.{◌≡◌};

/// How a run ends.
#[derive(Clone, Copy, Debug, PartialEq, Eq)]
pub enum Status {
    /// All was read and written.
    Done,
    /// The words are none of the forms.
    Usage,
    /// A line of the script is bad.
    BadScript,
    /// The source failed.
    ReadFault,
    /// The sink failed.
    WriteFault,
    /// There was no memory.
    NoRoom,
    /// The source has more than 67,108,864 bytes.
    TooLong,
    /// Two scripts are not twins.
    NotTwins,
    /// A record of a transcript breaks a rule.
    Faulty,
    /// A session is not saved.
    NotSaved,
    /// A transcript leaves this program's own.
    Differs,
}

impl Status {
    ghost use Rattle.fed_run.specs.Words.{exit_code};

    /// The number with which the program ends.
    pub fn code(self) -> u8
        ensures { result ≡ exit_code self }
    {
        match self {
            Status::Done => 0,
            Status::Usage => 1,
            Status::BadScript => 2,
            Status::ReadFault => 3,
            Status::WriteFault => 4,
            Status::NoRoom => 5,
            Status::TooLong => 6,
            Status::NotTwins => 7,
            Status::Faulty => 8,
            Status::NotSaved => 9,
            Status::Differs => 10,
        }
    }
}
