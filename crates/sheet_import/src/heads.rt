//! Which file of a month a sheet is.

use field_text::FileName;

/// What a head says.
#[derive(Clone, Copy)]
pub enum Head {
    Of(FileName),
    /// Of `history.csv` or `fixed.csv`, and the name of the sheet does not say which.
    Unsure,
    Unknown,
}

/// Whether the name of a sheet begins with a word, in capital or small letters.
fn is_named(sheet: &[u8], word: &[u8]) -> bool {
    match sheet.get(..word.len()) {
        Some(front) => front.eq_ignore_ascii_case(word),
        None => false,
    }
}

/// Which of the two files with one head a sheet of a name is.
fn event_head(sheet: &[u8]) -> Head {
    if is_named(sheet, b"history") {
        return Head::Of(FileName::History);
    }
    if is_named(sheet, b"fixed") {
        return Head::Of(FileName::Fixed);
    }
    Head::Unsure
}

/// The file with this head, in small letters and with commas between the words.
pub fn head_of(head: &[u8], sheet: &[u8]) -> Head {
    match head {
        b"pairing,need,credit" => Head::Of(FileName::Pairings),
        b"pairing,no,report,parked,release,layover" => Head::Of(FileName::Duties),
        b"pairing,no,from,to,out,in" => Head::Of(FileName::Legs),
        b"member,low,high" => Head::Of(FileName::Crew),
        b"member,kind,report,parked,release,legs,credit" => event_head(sheet),
        _ => Head::Unknown,
    }
}
