//! What each pilot already has: the window of credit, and leave, training and flights that are fixed.

use duty_calendar::{Base, Event, Horizon, Interval, Member, Memory};
use field_text::kind_word;
use page_parts::{Html, put_span};

/// Appends a fixed event.
fn put_event(html: &mut Html, horizon: &Horizon, event: &Event) -> Result<(), Memory> {
    html.markup(b"<li>")?;
    html.text(kind_word(event.kind))?;
    html.markup(b" ")?;
    let span = Interval {
        start: event.report,
        stop: event.release,
    };
    put_span(html, horizon, span)?;
    html.markup(b", credit ")?;
    html.hours(event.credit)?;
    html.markup(b"</li>\n")
}

/// Appends fixed events.
fn put_events(html: &mut Html, horizon: &Horizon, events: &[Event]) -> Result<(), Memory> {
    if events.is_empty() {
        return html.markup(b"<p>Nothing is fixed.</p>\n");
    }
    html.markup(b"<ul>\n")?;
    for event in events {
        put_event(html, horizon, event)?;
    }
    html.markup(b"</ul>\n")
}

/// Appends a pilot.
fn put_pilot(html: &mut Html, horizon: &Horizon, member: &Member) -> Result<(), Memory> {
    html.markup(b"<section class=\"pilot\" data-name=\"")?;
    html.text(member.name.bytes())?;
    html.markup(b"\">\n<h3>")?;
    html.text(member.name.bytes())?;
    html.markup(b"</h3>\n<p>Credit ")?;
    html.hours(member.low)?;
    html.markup(b" to ")?;
    html.hours(member.high)?;
    html.markup(b"</p>\n")?;
    put_events(html, horizon, member.fixed.as_slice())?;
    html.markup(b"</section>\n")
}

/// Appends what each pilot has.
pub fn put_crew(html: &mut Html, base: &Base) -> Result<(), Memory> {
    html.markup(b"<h2 id=\"crew\">What you already have</h2>\n<main>\n")?;
    for member in base.members.as_slice() {
        put_pilot(html, &base.rules.horizon, member)?;
    }
    html.markup(b"</main>\n")
}
