//! What flat searches keep of each member: the sheet, and the course of the last search, since weights change more often than what is
//! decided of a member.

use crate::board::Row;
use crate::course::Course;
use crate::profiles::{bid_asked, floor_of};
use crate::sheets::Sheet;
use crate::sizes::is_large;
use duty_calendar::{Copied, Memory};
use roster_model::{Goal, Lens, Problem};
use std::alloc::Global;

/// A course, and what it was made for: the row, the member's part of the goal, and the windows of the lens.
#[derive(Drop)]
pub(crate) struct Prepared {
    row: Row,
    floor: u32,
    asked: u64,
    lens: Lens,
    pub(crate) course: Course,
}

impl Prepared {
    /// A course that was made for the member's part of this.
    pub(crate) fn new(
        alloc: Global,
        member: usize,
        goal: &Goal,
        row: &Row,
        lens: &Lens,
        course: Course,
    ) -> Result<Prepared, Memory> {
        Ok(Prepared {
            row: *row,
            floor: floor_of(goal, member),
            asked: bid_asked(goal, member),
            lens: lens.copy(alloc)?,
            course,
        })
    }

    /// Whether it was made for the member's part of this.
    pub(crate) fn serves(&self, member: usize, goal: &Goal, row: &Row, lens: &Lens) -> bool {
        self.floor == floor_of(goal, member)
            && self.asked == bid_asked(goal, member)
            && self.row == *row
            && self.lens.windows.as_slice() == lens.windows.as_slice()
    }
}

/// The sheets of all members, and the courses of their last searches; nothing where the month is not large.
#[derive(Drop)]
pub struct Courses {
    sheets: Vec<Sheet>,
    prepared: Vec<Option<Prepared>>,
}

impl Courses {
    /// The sheets of the members.
    pub fn new(alloc: Global, problem: &Problem) -> Result<Courses, Memory> {
        let sheets = if is_large(problem) {
            Sheet::all(alloc, problem)?
        } else {
            Vec::new(alloc)
        };
        let mut prepared = Vec::new(alloc);
        for _sheet in &sheets {
            prepared.push(None)?;
        }
        Ok(Courses { sheets, prepared })
    }

    /// Whether the member has a sheet: the month is large.
    pub fn has_sheet(&self, member: usize) -> bool {
        self.sheets.get(member).is_some()
    }

    /// The sheet of a member; none where the month is not large.
    pub(crate) fn sheet(&self, member: usize) -> Option<&Sheet> {
        self.sheets.get(member)
    }

    /// Hands out the course of the member's last search.
    pub(crate) fn take(&mut self, member: usize) -> Option<Prepared> {
        self.prepared.get_mut(member)?.take()
    }

    /// Keeps the course of a search of the member.
    pub(crate) fn keep(&mut self, member: usize, prepared: Prepared) {
        if let Some(own) = self.prepared.get_mut(member) {
            *own = Some(prepared);
        }
    }
}
