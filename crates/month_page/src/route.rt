//! Where a trip goes.

use duty_calendar::{Duty, Leg, Memory};
use page_parts::Html;

/// Appends the stations of legs, each behind a space.
fn put_legs(html: &mut Html, legs: &[Leg]) -> Result<(), Memory> {
    for leg in legs {
        html.markup(b" ")?;
        html.text(&leg.from.bytes())?;
        html.markup(b"-")?;
        html.text(&leg.to.bytes())?;
    }
    Ok(())
}

/// Appends the legs of duties, with a mark behind each duty but the last.
pub fn put_route(html: &mut Html, duties: &[Duty]) -> Result<(), Memory> {
    for duty in duties {
        put_legs(html, duty.legs.as_slice())?;
        if duty.layover.is_some() {
            html.markup(b" &middot;")?;
        }
    }
    Ok(())
}
