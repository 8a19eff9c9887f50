//! Faults of files, from their numbers.

use field_text::{FieldFault, FileCode, FileName};

/// What is wrong with `rules.toml`.
#[derive(Clone, Copy)]
pub enum RuleFlaw {
    NotToml,
    MissingKey,
    UnknownKey,
    Range,
}

/// What is wrong at a place of a file of bids.
#[derive(Clone, Copy)]
pub enum BidFlaw {
    Token,
    Expected,
    Number,
    Date,
    UnknownMember,
    UnknownPairing,
    Weight,
    TooMany,
    MemberTwice,
}

/// A place of a file of bids, and what is wrong there.
#[derive(Clone, Copy)]
pub struct BidPlace {
    pub line: u64,
    pub column: u64,
    pub flaw: BidFlaw,
}

/// The flaw of the rules with this code.
pub fn rule_flaw(code: u64) -> Option<RuleFlaw> {
    match code {
        1 => Some(RuleFlaw::NotToml),
        2 => Some(RuleFlaw::MissingKey),
        3 => Some(RuleFlaw::UnknownKey),
        4 => Some(RuleFlaw::Range),
        _ => None,
    }
}

/// The flaw of bids with this code.
pub fn bid_flaw(code: u64) -> Option<BidFlaw> {
    match code {
        1 => Some(BidFlaw::Token),
        2 => Some(BidFlaw::Expected),
        3 => Some(BidFlaw::Number),
        4 => Some(BidFlaw::Date),
        5 => Some(BidFlaw::UnknownMember),
        6 => Some(BidFlaw::UnknownPairing),
        7 => Some(BidFlaw::Weight),
        8 => Some(BidFlaw::TooMany),
        9 => Some(BidFlaw::MemberTwice),
        _ => None,
    }
}

/// A file of rows, and its name.
#[derive(Clone, Copy)]
struct Named {
    name: &'static [u8],
    file: FileName,
}

/// The files of rows.
static FILES: [Named; 6] = [
    Named {
        name: b"pairings.csv",
        file: FileName::Pairings,
    },
    Named {
        name: b"duties.csv",
        file: FileName::Duties,
    },
    Named {
        name: b"legs.csv",
        file: FileName::Legs,
    },
    Named {
        name: b"crew.csv",
        file: FileName::Crew,
    },
    Named {
        name: b"history.csv",
        file: FileName::History,
    },
    Named {
        name: b"fixed.csv",
        file: FileName::Fixed,
    },
];

/// The file of rows that has this name.
pub fn file_name(name: &[u8]) -> Option<FileName> {
    for named in FILES.iter() {
        if named.name == name {
            return Some(named.file);
        }
    }
    None
}

/// A number of 32 bits.
pub fn small(number: i64) -> Option<u32> {
    u32::try_from(number).ok()
}

/// The number at a place, where there is one.
pub fn number_at(numbers: &[i64], place: usize) -> Option<i64> {
    numbers.get(place).copied()
}

/// The number of 32 bits at a place, where there is one.
pub fn small_at(numbers: &[i64], place: usize) -> Option<u32> {
    small(number_at(numbers, place)?)
}

/// The fault of a field that the numbers from a place on say.
fn field_fault(numbers: &[i64], from: usize) -> Option<FieldFault> {
    match number_at(numbers, from)? {
        1 => Some(FieldFault::Empty),
        2 => Some(FieldFault::Shape(small_at(numbers, from.saturating_add(1))?)),
        3 => Some(FieldFault::Range),
        4 => Some(FieldFault::NoSuchDay),
        5 => Some(FieldFault::OutsideHorizon),
        _ => None,
    }
}

/// The fault of a row that the numbers from a place on say.
pub fn file_code(numbers: &[i64], from: usize) -> Option<FileCode> {
    let next = from.saturating_add(1);
    match number_at(numbers, from)? {
        1 => Some(FileCode::Header),
        2 => Some(FileCode::Utf8),
        3 => Some(FileCode::Width),
        4 => Some(FileCode::Field(
            small_at(numbers, next)?,
            field_fault(numbers, next.saturating_add(1))?,
        )),
        5 => Some(FileCode::Duplicate),
        6 => Some(FileCode::Unknown),
        7 => Some(FileCode::Order),
        8 => Some(FileCode::OutsideMonth),
        9 => Some(FileCode::InnerRest),
        10 => Some(FileCode::Limit(small_at(numbers, next)?)),
        11 => Some(FileCode::Empty),
        _ => None,
    }
}
