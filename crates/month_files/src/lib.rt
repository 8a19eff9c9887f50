//! The files of a month: their names, their order and their limits, the problem that their texts
//! name, and how they are written.
#![tactic(auto)]

mod drafting;
mod fault;
mod file;
mod laws;
mod month;
mod reading;
mod unread;
mod writing;

pub use drafting::month_drafts;
pub use fault::{BadInput, InputFault};
pub use file::File;
pub use laws::texts_name_one_month;
pub use month::read_month;
pub use reading::{Texts, read_file, read_seen, read_texts};
pub use unread::Unread;
pub use writing::{Draft, Unwritten, WriteStop, write_all};
