//! Days on which nothing stands.

use crate::event::{Letter, Owner, PhoneEvent, When};
use crate::printing::date_number;
use duty_calendar::{Interval, List, Memory};
use field_text::put_number;
use file_places::Prose;
use std::alloc::Global;

/// Whether a stretch has a minute of a day.
fn touches(day: u32, span: Interval) -> bool {
    let start = day.saturating_mul(1440);
    span.start < start.saturating_add(1440) && start < span.stop
}

/// Whether no stretch has a minute of a day.
pub fn is_free(day: u32, spans: &[Interval]) -> bool {
    !spans.iter().any(|span| touches(day, *span))
}

/// The event of a day off.
pub fn day_event(alloc: Global, owner: Owner<'_>, day: u32) -> Result<PhoneEvent, Memory> {
    let mut own = List::new(alloc);
    put_number(&mut own, date_number(owner.horizon, day))?;
    let mut title = Prose::new(alloc);
    title.say(b"Day off")?;
    Ok(PhoneEvent {
        uid: owner.uid(alloc, Letter::Day, own.as_slice())?,
        when: When::Days(day, day.saturating_add(1)),
        title,
        text: Prose::new(alloc),
        place: None,
    })
}
