//! What is known of a folder.

use field_text::FileName;
use printed_lines::TextFile;
use roster_model::Problem;

/// What is read for a sentence: the file that it is about, and the month and the text of its roster, where it names pilots or
/// pairings by number. What is not there or does not read is left out.
#[derive(Drop)]
pub struct Held {
    pub text: Option<Vec<u8>>,
    pub month: Option<Problem>,
    pub roster: Option<Vec<u8>>,
}

/// The name of a file of rows.
pub fn row_file(file: FileName) -> &'static [u8] {
    match file {
        FileName::Pairings => b"pairings.csv",
        FileName::Duties => b"duties.csv",
        FileName::Legs => b"legs.csv",
        FileName::Crew => b"crew.csv",
        FileName::History => b"history.csv",
        FileName::Fixed => b"fixed.csv",
    }
}

/// The name of a file of text.
pub fn text_file(file: TextFile) -> &'static [u8] {
    match file {
        TextFile::Certificate => b"certificate.txt",
        TextFile::Roster => b"roster.csv",
        TextFile::Reasons => b"reasons.txt",
        TextFile::Trades => b"trades.txt",
    }
}
