//! What is wrong with a file of records.
ghost use Rattle.std.specs.Prelude.{◌≡◌};
ghost use Rattle.field_text.specs.Codes.{file_code};

use crate::field_fault::FieldFault;
use thiserror::Error;

/// The files of records, in the order in which they are read.
#[derive(Clone, Copy, Debug, PartialEq, Eq)]
pub enum FileName {
    Pairings,
    Duties,
    Legs,
    Crew,
    History,
    Fixed,
}

/// What is wrong with a row of a file. A row is tested in the order of `Utf8`, `Width`, `Field`
/// from the left, and then by code.
#[derive(Clone, Copy, Debug, PartialEq, Eq, Error)]
pub enum FileCode {
    /// No memory was left; the row is 0. Code 0.
    #[error("out of memory")]
    NoMemory,
    /// There is no record, or the first one is not the file's header. Code 1.
    #[error("not the header of the file")]
    Header,
    /// A field is no text. Code 2.
    #[error("a field that is not UTF-8")]
    Utf8,
    /// Too few or too many fields. Code 3.
    #[error("another number of fields than the header has")]
    Width,
    /// The column of a field, from 1, and what is wrong with it. Code 4.
    #[error("field {0}: {1}")]
    Field(u32, FieldFault),
    /// A name that stood in an earlier row. Code 5.
    #[error("a name that stood before")]
    Duplicate,
    /// A name or number of nothing. Code 6.
    #[error("a name or number of nothing")]
    Unknown,
    /// Rows, times or numbers out of order. Code 7.
    #[error("out of order")]
    Order,
    /// A report outside the month. Code 8.
    #[error("a report outside the month")]
    OutsideMonth,
    /// Too little rest within a pairing. Code 9.
    #[error("too little rest before the report")]
    InnerRest,
    /// The number of a limit that is passed. Code 10.
    #[error("limit {0} is passed")]
    Limit(u32),
    /// Something without its parts. Code 11.
    #[error("without parts")]
    Empty,
}

impl FileCode {
    /// The number by which the fault is printed.
    pub fn code(&self) -> u32
        ensures value { result ≡ file_code self.now }
    {
        match self {
            FileCode::NoMemory => 0,
            FileCode::Header => 1,
            FileCode::Utf8 => 2,
            FileCode::Width => 3,
            FileCode::Field(_, _) => 4,
            FileCode::Duplicate => 5,
            FileCode::Unknown => 6,
            FileCode::Order => 7,
            FileCode::OutsideMonth => 8,
            FileCode::InnerRest => 9,
            FileCode::Limit(_) => 10,
            FileCode::Empty => 11,
        }
    }
}

/// The first fault of a file, and the number of its record; the header is record 1.
#[derive(Clone, Copy, Debug, PartialEq, Eq, Error)]
#[error("row {row}: {code}")]
pub struct FileFault {
    pub file: FileName,
    pub row: u32,
    pub code: FileCode,
}
