//! The trips of the packet. What the tests of bids look at stands in each row as data, for the script.

use duty_calendar::{Base, Duty, Horizon, Leg, Memory, Pairing, Station, Weekday};
use month_page::{counted, days_of, put_cells, put_trips_head};
use page_parts::Html;
use roster_model::pairing_span;

/// Appends stations with a blank behind each.
fn put_station(html: &mut Html, station: Station) -> Result<(), Memory> {
    html.text(&station.bytes())?;
    html.markup(b" ")
}

/// Appends where the legs depart, or where they arrive.
fn put_ends(html: &mut Html, legs: &[Leg], departs: bool) -> Result<(), Memory> {
    for leg in legs {
        put_station(html, if departs { leg.from } else { leg.to })?;
    }
    Ok(())
}

/// Appends where the legs of duties depart, or where they arrive.
fn put_all_ends(html: &mut Html, duties: &[Duty], departs: bool) -> Result<(), Memory> {
    for duty in duties {
        put_ends(html, duty.legs.as_slice(), departs)?;
    }
    Ok(())
}

/// Appends the stations of nights.
fn put_layovers(html: &mut Html, duties: &[Duty]) -> Result<(), Memory> {
    for duty in duties {
        if let Some(station) = duty.layover {
            put_station(html, station)?;
        }
    }
    Ok(())
}

/// The word of a day of the week in bids.
fn weekday_word(weekday: Weekday) -> &'static [u8] {
    match weekday {
        Weekday::Mon => b"MON ",
        Weekday::Tue => b"TUE ",
        Weekday::Wed => b"WED ",
        Weekday::Thu => b"THU ",
        Weekday::Fri => b"FRI ",
        Weekday::Sat => b"SAT ",
        Weekday::Sun => b"SUN ",
    }
}

/// Appends the words of the days of the week from a day on, so many.
fn put_weekdays(html: &mut Html, horizon: &Horizon, first: u32, count: u32) -> Result<(), Memory> {
    for day in 0..count.min(7) {
        let day = first.saturating_add(day).min(372 + horizon.days());
        html.markup(weekday_word(horizon.weekday(day)))?;
    }
    Ok(())
}

/// Whether a duty has a minute from 02:00 to 05:59 of a day.
fn is_night_of(duty: &Duty, day: u32) -> bool {
    let midnight = u64::from(day).saturating_mul(1440);
    u64::from(duty.report) < midnight.saturating_add(360)
        && midnight.saturating_add(120) < u64::from(duty.release)
}

/// Whether a duty is a night: it has a minute from 02:00 to 05:59.
fn is_night(duty: &Duty) -> bool {
    let behind = (duty.release / 1440).saturating_add(1);
    for day in duty.report / 1440..behind {
        if is_night_of(duty, day) {
            return true;
        }
    }
    false
}

/// How many duties are nights.
fn count_nights(duties: &[Duty]) -> u32 {
    let mut count: u32 = 0;
    for duty in duties {
        if is_night(duty) {
            count = count.saturating_add(1);
        }
    }
    count
}

/// Appends a number as data.
fn put_number(html: &mut Html, name: &'static [u8], value: u32) -> Result<(), Memory> {
    html.markup(name)?;
    html.number(value)?;
    html.markup(b"\"")
}

/// Appends what the tests of bids look at.
fn put_data(html: &mut Html, horizon: &Horizon, pairing: &Pairing) -> Result<(), Memory> {
    let span = pairing_span(pairing);
    let duties = pairing.duties.as_slice();
    html.markup(b" data-name=\"")?;
    html.text(pairing.name.bytes())?;
    html.markup(b"\" data-layover=\"")?;
    put_layovers(html, duties)?;
    html.markup(b"\" data-departs=\"")?;
    put_all_ends(html, duties, true)?;
    html.markup(b"\" data-arrives=\"")?;
    put_all_ends(html, duties, false)?;
    html.markup(b"\" data-weekday=\"")?;
    put_weekdays(html, horizon, span.start / 1440, days_of(span))?;
    html.markup(b"\"")?;
    put_number(html, b" data-report=\"", span.start % 1440)?;
    put_number(html, b" data-release=\"", span.stop % 1440)?;
    put_number(html, b" data-days=\"", days_of(span))?;
    let first = (span.start / 1440).saturating_sub(364);
    put_number(html, b" data-first=\"", first)?;
    let last = first.saturating_add(days_of(span)).saturating_sub(1);
    put_number(html, b" data-last=\"", last)
}

/// Appends the row of a trip.
fn put_trip(
    html: &mut Html,
    horizon: &Horizon,
    number: u32,
    pairing: &Pairing,
) -> Result<(), Memory> {
    html.markup(b"<tr id=\"t")?;
    html.number(number)?;
    html.markup(b"\"")?;
    put_data(html, horizon, pairing)?;
    html.markup(b">")?;
    put_cells(html, horizon, pairing)?;
    html.markup(b"<td>")?;
    put_layovers(html, pairing.duties.as_slice())?;
    html.markup(b"</td><td class=\"r\">")?;
    html.number(count_nights(pairing.duties.as_slice()))?;
    html.markup(b"</td><td class=\"r\">")?;
    html.number(pairing.need)?;
    html.markup(b"</td></tr>\n")
}

/// Appends the trips.
pub fn put_trips(html: &mut Html, base: &Base) -> Result<(), Memory> {
    html.markup(b"<h2 id=\"trips\">Trips</h2>\n")?;
    put_trips_head(html)?;
    html.markup(
        b"<th scope=\"col\" class=\"k\">Layovers</th><th scope=\"col\" class=\"k r\" title=\"duties with a minute from 02:00 to 05:59\">Nights</th><th scope=\"col\" class=\"k r\">Pilots</th></tr></thead>\n<tbody id=\"list\">\n",
    )?;
    for (number, pairing) in base.pairings.as_slice().iter().enumerate() {
        put_trip(html, &base.rules.horizon, counted(number), pairing)?;
    }
    html.markup(b"</tbody></table></div>\n")
}
