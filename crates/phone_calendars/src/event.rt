//! Events of a calendar.

use duty_calendar::{Horizon, List, Memory, Station};
use field_text::{put_bytes, put_number};
use file_places::Prose;
use std::alloc::Global;

/// When an event is. Minutes and days are those of the horizon; the last of them is the first behind the event.
#[derive(Clone, Copy)]
pub enum When {
    Minutes(u32, u32),
    Days(u32, u32),
}

/// An event of a pilot. The name is the same in each calendar of the pilot's month.
#[derive(Drop)]
pub struct PhoneEvent {
    pub uid: List<u8>,
    pub when: When,
    pub title: Prose,
    pub text: Prose,
    pub place: Option<Station>,
}

/// Whose month it is: the name in the files, and the month.
#[derive(Clone, Copy)]
pub struct Owner<'a> {
    pub name: &'a [u8],
    pub horizon: &'a Horizon,
}

/// What kind of event a name is of: as in the calendars of `pbs`, `p` for a trip and `f` for what is fixed, and `d` for a day
/// off.
#[derive(Clone, Copy)]
pub enum Letter {
    Trip,
    Fixed,
    Day,
}

impl Letter {
    /// The letter.
    fn byte(self) -> u8 {
        match self {
            Letter::Trip => b'p',
            Letter::Fixed => b'f',
            Letter::Day => b'd',
        }
    }
}

impl<'a> Owner<'a> {
    /// The name of an event.
    pub fn uid(&self, alloc: Global, letter: Letter, own: &[u8]) -> Result<List<u8>, Memory> {
        let month = u32::from(self.horizon.month());
        let year = u32::try_from(self.horizon.year()).unwrap_or(0);
        let mut uid = List::new(alloc);
        put_bytes(&mut uid, &[letter.byte(), b'.'])?;
        put_bytes(&mut uid, own)?;
        put_bytes(&mut uid, b".")?;
        put_bytes(&mut uid, self.name)?;
        put_bytes(&mut uid, b".")?;
        put_number(&mut uid, year.saturating_mul(100).saturating_add(month))?;
        put_bytes(&mut uid, b"@pbs")?;
        Ok(uid)
    }

    /// Whether a name is that of an event of the owner's month.
    pub fn owns(&self, alloc: Global, uid: &[u8]) -> Result<bool, Memory> {
        let whole = self.uid(alloc, Letter::Trip, b"")?;
        let end = whole.as_slice().get(2..).unwrap_or(&[]);
        Ok(uid.ends_with(end))
    }
}
