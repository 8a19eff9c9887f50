//! Names of the staff.

use duty_calendar::{Memory, Name};
use std::alloc::Global;

/// A member, and how the member's name is shown.
#[derive(Drop)]
struct StaffName {
    member: Name,
    shown: String,
}

/// How members' names are shown, as far as that is told.
#[derive(Drop)]
pub struct StaffNames {
    rows: Vec<StaffName>,
}

impl StaffNames {
    /// No name is told.
    pub fn new(alloc: Global) -> StaffNames {
        StaffNames {
            rows: Vec::new(alloc),
        }
    }

    /// How a member's name is shown, where that is told.
    pub fn shown(&self, member: &[u8]) -> Option<&str> {
        let row = self.rows.iter().find(|row| row.member.bytes() == member)?;
        Some(row.shown.as_str())
    }

    /// The member whose name is shown so, where there is one.
    pub fn member(&self, shown: &str) -> Option<&Name> {
        let row = self.rows.iter().find(|row| row.shown.as_str() == shown)?;
        Some(&row.member)
    }

    /// Adds a name.
    pub fn add(&mut self, member: Name, shown: String) -> Result<(), Memory> {
        self.rows.push(StaffName { member, shown })?;
        Ok(())
    }
}
