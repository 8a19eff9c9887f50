//! How a run ended.
ghost use Rattle.std.specs.Prelude.{◌≡◌};
ghost use Rattle.answer_texts.specs.Statuses.{exit_code};

/// How a run ended.
#[derive(Clone, Copy, Debug, PartialEq, Eq)]
pub enum Status {
    /// What the command asks was done.
    Done,
    /// The words are no command.
    Usage,
    /// There is no complete roster.
    NoRoster,
    /// The nodes were not enough.
    Budget,
    /// The answer is no.
    No,
    /// An input has a fault.
    BadInput,
    /// A file is not there.
    Missing,
    /// A read failed.
    ReadFault,
    /// A write failed, or the text could not be put.
    WriteFault,
    /// A file is longer than its limit.
    TooLong,
    /// No memory was left.
    NoMemory,
}

impl Status {
    /// The program's exit code.
    pub fn code(&self) -> u8
        ensures code { result ≡ exit_code self.now }
    {
        match self {
            Status::Done => 0,
            Status::Usage => 2,
            Status::NoRoster => 3,
            Status::Budget => 4,
            Status::No => 5,
            Status::BadInput => 6,
            Status::Missing => 7,
            Status::ReadFault => 8,
            Status::WriteFault => 9,
            Status::TooLong => 10,
            Status::NoMemory => 11,
        }
    }
}
