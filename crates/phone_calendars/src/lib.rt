//! Calendars of pilots for phones, by RFC 5545: each trip, each fixed event and each day off, with the changes since earlier
//! calendars.
#![tactic(auto)]

mod content;
mod days_off;
mod earlier;
mod event;
mod fixed_events;
mod head;
mod printing;
mod sheet;
mod sources;
mod telling;
mod trips;
mod writing;

pub use sheet::{Pilot, Sheet, sheet_of};
pub use sources::{file_of, folder_text, roster_text};
pub use writing::{Written, write_calendar};
