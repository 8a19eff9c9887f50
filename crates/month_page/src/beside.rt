//! What a page shows beside the files of a month.

use crate::changes::Changes;
use staff_names::StaffNames;

/// How names are shown, what is otherwise than in another roster, where that is asked, and what the program was built from, or
/// nothing.
#[derive(Clone, Copy)]
pub struct Beside<'a> {
    pub names: &'a StaffNames,
    pub changes: Option<Changes<'a>>,
    pub built: &'a [u8],
}

impl<'a> Beside<'a> {
    /// Nothing is asked of another roster.
    pub fn new(names: &'a StaffNames, built: &'a [u8]) -> Beside<'a> {
        Beside {
            names,
            changes: None,
            built,
        }
    }

    /// The same with what is otherwise.
    pub fn compared(self, changes: Changes<'a>) -> Beside<'a> {
        let Beside { names, built, .. } = self;
        Beside {
            names,
            changes: Some(changes),
            built,
        }
    }
}
