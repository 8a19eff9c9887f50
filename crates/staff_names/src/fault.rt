//! Why a text has no names.

use thiserror::Error;

/// What is wrong with a row.
#[derive(Clone, Copy, Debug, PartialEq, Eq, Error)]
pub enum NamesFlaw {
    #[error("out of memory")]
    NoMemory,
    #[error("the first row must be staff,member")]
    Header,
    #[error("the row must have two fields, in UTF-8")]
    Shape,
    #[error("the name to be shown must have 1 to 60 bytes")]
    Shown,
    #[error("the second field must be a name as crew.csv has it: 1 to 16 letters, digits, - or _")]
    Member,
    #[error("the pilot has a name already")]
    Twice,
}

/// The first row with a fault, from 1, the header among them. Want of memory is of row 0.
#[derive(Clone, Copy, Debug, PartialEq, Eq, Error)]
#[error("names.csv, row {row}: {flaw}")]
pub struct NamesFault {
    pub row: u32,
    pub flaw: NamesFlaw,
}
