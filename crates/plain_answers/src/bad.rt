//! Faults of a field, in words.

use duty_calendar::Memory;
use field_text::{FieldFault, FileName};
use file_places::Prose;

/// The name of a column of a file, from 1.
fn column_name(file: FileName, column: u32) -> &'static [u8] {
    match file {
        FileName::Pairings => match column {
            1 => b"pairing",
            2 => b"need",
            _ => b"credit",
        },
        FileName::Duties => match column {
            1 => b"pairing",
            2 => b"no",
            3 => b"report",
            4 => b"parked",
            5 => b"release",
            _ => b"layover",
        },
        FileName::Legs => match column {
            1 => b"pairing",
            2 => b"no",
            3 => b"from",
            4 => b"to",
            5 => b"out",
            _ => b"in",
        },
        FileName::Crew => match column {
            1 => b"member",
            2 => b"low",
            _ => b"high",
        },
        FileName::History | FileName::Fixed => match column {
            1 => b"member",
            2 => b"kind",
            3 => b"report",
            4 => b"parked",
            5 => b"release",
            6 => b"legs",
            _ => b"credit",
        },
    }
}

/// What stands in a column.
#[derive(Clone, Copy)]
enum Form {
    Name,
    Number,
    Hours,
    Station,
    Layover,
    Kind,
    Legs,
    Moment,
}

/// What stands in a column of a file, from 1.
fn form_of(file: FileName, column: u32) -> Form {
    match file {
        FileName::Pairings => match column {
            1 => Form::Name,
            2 => Form::Number,
            _ => Form::Hours,
        },
        FileName::Duties => match column {
            1 => Form::Name,
            2 => Form::Number,
            6 => Form::Layover,
            _ => Form::Moment,
        },
        FileName::Legs => match column {
            1 => Form::Name,
            2 => Form::Number,
            3 | 4 => Form::Station,
            _ => Form::Moment,
        },
        FileName::Crew => match column {
            1 => Form::Name,
            _ => Form::Hours,
        },
        FileName::History | FileName::Fixed => match column {
            1 => Form::Name,
            2 => Form::Kind,
            6 => Form::Legs,
            7 => Form::Hours,
            _ => Form::Moment,
        },
    }
}

/// What may stand in a column.
fn due_in(form: Form) -> &'static [u8] {
    match form {
        Form::Name => b"a name of 1 to 16 letters, digits, dashes and underscores",
        Form::Number => b"a number without leading zeros, such as 2",
        Form::Hours => b"hours and minutes without a leading zero, such as 5:00",
        Form::Station => b"three capital letters, such as DUB",
        Form::Layover => b"three capital letters, such as DUB, or nothing",
        Form::Kind => b"flight, ground or leave",
        Form::Legs => {
            b"pairs such as 2026-06-10T09:00Z/2026-06-10T13:00Z with one blank between two, and nothing where the kind is not flight"
        }
        Form::Moment => b"a moment in UTC, such as 2026-06-10T09:00Z",
    }
}

/// Which values a column may have.
fn range_in(form: Form) -> &'static [u8] {
    match form {
        Form::Hours => b"the minutes go from 00 to 59",
        Form::Number => b"the number is too large",
        _ => b"the clock goes from 00:00 to 23:59",
    }
}

/// Appends what is wrong with a field.
pub fn put_field(
    prose: &mut Prose,
    file: FileName,
    column: u32,
    why: FieldFault,
) -> Result<(), Memory> {
    let form = form_of(file, column);
    prose.say(b"in the field ")?;
    prose.say(column_name(file, column))?;
    match why {
        FieldFault::Empty => {
            prose.say(b" nothing stands, and there must be ")?;
            prose.say(due_in(form))
        }
        FieldFault::Shape(_) => {
            prose.say(b" there must be ")?;
            prose.say(due_in(form))
        }
        FieldFault::Range => {
            prose.say(b" the value is out of its range: ")?;
            prose.say(range_in(form))
        }
        FieldFault::NoSuchDay => prose.say(b" stands a day that the calendar does not have"),
        FieldFault::OutsideHorizon => prose.say(
            b" the moment lies more than 365 days before the month, or more than 7 days behind it",
        ),
    }
}
