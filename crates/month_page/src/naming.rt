//! Names of pilots as they are shown.

use duty_calendar::Member;
use staff_names::StaffNames;

/// Those of the files, or what the staff's names say in their place.
#[derive(Clone, Copy)]
pub struct Crew<'a> {
    pub members: &'a [Member],
    pub names: &'a StaffNames,
}

/// How a name is shown.
pub fn shown_name<'a>(names: &'a StaffNames, name: &'a [u8]) -> &'a [u8] {
    match names.shown(name) {
        Some(shown) => shown.as_bytes(),
        None => name,
    }
}

impl<'a> Crew<'a> {
    /// How the name of a member by number is shown; nothing where there is none.
    pub fn shown(&self, member: u32) -> &'a [u8] {
        match self.members.get(member as usize) {
            Some(member) => shown_name(self.names, member.name.bytes()),
            None => b"",
        }
    }
}
