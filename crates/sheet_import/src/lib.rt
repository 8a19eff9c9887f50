//! Sheets of a spreadsheet as the CSV files of a month, with each change said.
#![tactic(auto)]

mod decoding;
mod fields;
mod heads;
mod importing;
mod moments;
mod reading_back;
mod rows;

pub use importing::{Imported, import_sheet};
pub use reading_back::{Before, read_back};
