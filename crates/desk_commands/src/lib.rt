//! What each command over an award that stands does over the files of a folder: its answer as a value, with no text
//! of it.
#![tactic(auto)]

mod calendar_stop;
mod calendars;
mod migrate_stop;
mod migrating;
mod trade_stop;
mod trading;

pub use calendar_stop::{CalendarStop, Undated};
pub use calendars::{MemberCalendar, calendar};
pub use migrate_stop::{MigrateStop, Migrated, Unmigrated};
pub use migrating::migrate;
pub use trade_stop::{TradeStop, Traded, Untraded};
pub use trading::trade;
