//! How a run ended.

/// How a run ended.
#[derive(Clone, Copy, Debug, PartialEq, Eq)]
pub enum DeskStatus {
    /// What was asked for was done, or there is nothing to say.
    Done,
    /// There are warnings, or a line is none that `pbs` prints.
    Warned,
    /// There are faults, or the words are no command.
    Faulty,
    /// The text could not be put, or the page not be written.
    WriteFault,
    /// No memory was left.
    NoMemory,
}

impl DeskStatus {
    /// The program's exit code.
    pub fn code(&self) -> u8 {
        match self {
            DeskStatus::Done => 0,
            DeskStatus::Warned => 1,
            DeskStatus::Faulty => 2,
            DeskStatus::WriteFault => 9,
            DeskStatus::NoMemory => 11,
        }
    }
}
