//! Reading and writing the fields, tokens and records of the month's files.
#![tactic(auto)]

mod field_fault;
mod file_fault;
mod form;
mod kind;
mod laws;
mod number;
mod place;
mod records;
mod rows;
mod time;
mod token;
mod word;
mod writing;

pub use field_fault::FieldFault;
pub use file_fault::{FileCode, FileFault, FileName};
pub use form::Class;
pub use kind::{kind_word, read_kind};
pub use laws::{column_laws, field_laws, word_laws};
pub use number::{read_minutes, read_number};
pub use place::place_of;
pub use records::Records;
pub use rows::{as_text, at_row, bytes_at, field_is, in_column, next, text_at};
pub use time::{moment_of, read_clock, read_day, read_moment};
pub use token::{Token, TokenFault, tokens};
pub use word::{read_name, read_station, station_of};
pub use writing::{put_bytes, put_clock, put_day, put_minutes, put_moment, put_number};
