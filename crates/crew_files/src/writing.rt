//! Writing the three files of members.
ghost use Rattle.std.specs.Prelude.{◌≡◌, ◌≤◌, ◌++◌, ◌∷◌, [], All, Ok, OnOk, IfOk};
ghost use Rattle.field_text.specs.Spelling.{minutes_text, kind_text};
ghost use Rattle.duty_calendar.specs.Calendar.{horizon_end};
ghost use Rattle.duty_calendar.specs.Checks.{AreMembers};
ghost use Rattle.crew_files.specs.declared.part.Part.TheVariants.{History, Fixed};
ghost use Rattle.crew_files.specs.Files.{members_of};
ghost use Rattle.crew_files.specs.Texts.{crew_fields, times_fields, flight_text, flights_text, event_fields, crew_text, events_of_member, events_text, behind_commas, FlightEndsWithin, EndsWithin, LiesWithin};
ghost use Rattle.field_text.specs.Rows.{line};
ghost use Rattle.std.specs.List.{flat_map};

use crate::part::Part;
use duty_calendar::{Event, Flown, Horizon, List, Member, Memory, Name};
use field_text::{kind_word, put_bytes, put_minutes, put_moment};
use std::alloc::Global;

/// The texts of `crew.csv`, `history.csv` and `fixed.csv`.
#[derive(Drop)]
pub struct MemberTexts {
    pub crew: List<u8>,
    pub history: List<u8>,
    pub fixed: List<u8>,
}

fn put_member(out: &mut List<u8>, member: &Member) -> Result<(), Memory>
    ensures whole { OnOk result (out.new ≡ out.old ++ line (crew_fields member.now)) }
{
    put_bytes(out, member.name.bytes())?;
    put_bytes(out, b",")?;
    put_minutes(out, member.low)?;
    put_bytes(out, b",")?;
    put_minutes(out, member.high)?;
    put_bytes(out, b"\n")
}

fn put_flight(out: &mut List<u8>, flight: &Flown, horizon: &Horizon) -> Result<(), Memory>
    requires out_within { flight.now.out_at ≤ horizon_end horizon.now }
    requires in_within { flight.now.in_at ≤ horizon_end horizon.now }
    ensures whole { OnOk result (out.new ≡ out.old ++ flight_text horizon.now flight.now) }
{
    put_moment(out, flight.out_at, horizon)?;
    put_bytes(out, b"/")?;
    put_moment(out, flight.in_at, horizon)
}

fn put_later_flights(out: &mut List<u8>, flights: &[Flown], horizon: &Horizon) -> Result<(), Memory>
    requires within { All (FlightEndsWithin horizon.now) flights.now }
    ensures whole { OnOk result (out.new ≡ out.old
        ++ flat_map (λ g. 32 ∷ flight_text horizon.now g) flights.now) }
{
    for flight in flights {
        put_bytes(out, b" ")?;
        put_flight(out, flight, horizon)?;
    }
    Ok(())
}

fn put_flights(out: &mut List<u8>, flights: &[Flown], horizon: &Horizon) -> Result<(), Memory>
    requires within { All (FlightEndsWithin horizon.now) flights.now }
    ensures whole { OnOk result (out.new ≡ out.old ++ flights_text horizon.now flights.now) }
{
    let Some((first, rest)) = flights.split_first() else {
        return Ok(());
    };
    put_flight(out, first, horizon)?;
    put_later_flights(out, rest, horizon)
}

/// Appends report, parked and release, each behind a comma.
fn put_times(out: &mut List<u8>, event: &Event, horizon: &Horizon) -> Result<(), Memory>
    requires within { EndsWithin horizon.now event.now }
    ensures whole { OnOk result (out.new ≡ out.old
        ++ behind_commas (times_fields horizon.now event.now)) }
{
    put_bytes(out, b",")?;
    put_moment(out, event.report, horizon)?;
    put_bytes(out, b",")?;
    put_moment(out, event.parked, horizon)?;
    put_bytes(out, b",")?;
    put_moment(out, event.release, horizon)
}

/// Appends an event's line up to its release.
fn put_begin(
    out: &mut List<u8>,
    name: &Name,
    event: &Event,
    horizon: &Horizon,
) -> Result<(), Memory>
    requires within { EndsWithin horizon.now event.now }
    ensures whole { OnOk result (out.new ≡ out.old
        ++ (name.now
        ++ behind_commas (kind_text event.now.kind ∷ times_fields horizon.now event.now))) }
{
    put_bytes(out, name.bytes())?;
    put_bytes(out, b",")?;
    put_bytes(out, kind_word(event.kind))?;
    put_times(out, event, horizon)
}

/// Appends an event's line from its flights on.
fn put_end(out: &mut List<u8>, event: &Event, horizon: &Horizon) -> Result<(), Memory>
    requires within { EndsWithin horizon.now event.now }
    ensures whole { OnOk result (out.new ≡ out.old
        ++ (behind_commas (flights_text horizon.now event.now.flights
        ∷ minutes_text event.now.credit ∷ []) ++ 10 ∷ [])) }
{
    put_bytes(out, b",")?;
    put_flights(out, event.flights.as_slice(), horizon)?;
    put_bytes(out, b",")?;
    put_minutes(out, event.credit)?;
    put_bytes(out, b"\n")
}

fn put_event(
    out: &mut List<u8>,
    name: &Name,
    event: &Event,
    horizon: &Horizon,
) -> Result<(), Memory>
    requires within { EndsWithin horizon.now event.now }
    ensures whole { OnOk result (out.new ≡ out.old
        ++ line (event_fields horizon.now name.now event.now)) }
{
    put_begin(out, name, event, horizon)?;
    put_end(out, event, horizon)
}

fn put_events(
    out: &mut List<u8>,
    name: &Name,
    events: &[Event],
    horizon: &Horizon,
) -> Result<(), Memory>
    requires within { All (EndsWithin horizon.now) events.now }
    ensures whole { OnOk result (out.new ≡ out.old
        ++ flat_map (λ e. line (event_fields horizon.now name.now e)) events.now) }
{
    for event in events {
        put_event(out, name, event, horizon)?;
    }
    Ok(())
}

fn put_part_of(
    out: &mut List<u8>,
    member: &Member,
    part: Part,
    horizon: &Horizon,
) -> Result<(), Memory>
    requires within { LiesWithin horizon.now member.now }
    ensures whole { OnOk result (out.new ≡ out.old
        ++ events_of_member horizon.now part member.now) }
{
    match part {
        Part::History => put_events(out, &member.name, member.history.as_slice(), horizon),
        Part::Fixed => put_events(out, &member.name, member.fixed.as_slice(), horizon),
    }
}

fn put_crew(alloc: Global, list: &[Member]) -> Result<List<u8>, Memory>
    ensures whole { IfOk result (λ out. out ≡ crew_text list.now) }
{
    let mut out = List::new(alloc);
    put_bytes(&mut out, b"member,low,high\n")?;
    for member in list {
        put_member(&mut out, member)?;
    }
    Ok(out)
}

fn put_part(
    alloc: Global,
    list: &[Member],
    part: Part,
    horizon: &Horizon,
) -> Result<List<u8>, Memory>
    requires within { All (LiesWithin horizon.now) list.now }
    ensures whole { IfOk result (λ out. out ≡ events_text horizon.now part list.now) }
{
    let mut out = List::new(alloc);
    put_bytes(&mut out, b"member,kind,report,parked,release,legs,credit\n")?;
    for member in list {
        put_part_of(&mut out, member, part, horizon)?;
    }
    Ok(out)
}

/// The files that give these members: a line for each member in order, and one for each event of
/// each member.
pub fn put_members(alloc: Global, list: &[Member], horizon: &Horizon) -> Result<MemberTexts, Memory>
    requires within { All (LiesWithin horizon.now) list.now }
    ensures crew { IfOk result (λ texts. texts.crew ≡ crew_text list.now) }
    ensures history { IfOk result (λ texts. texts.history
        ≡ events_text horizon.now History list.now) }
    ensures fixed { IfOk result (λ texts. texts.fixed ≡ events_text horizon.now Fixed list.now) }
    ensures again { IfOk result (λ texts. AreMembers horizon.now list.now
        → members_of horizon.now texts.crew texts.history texts.fixed ≡ Ok list.now) }
{
    let crew = put_crew(alloc, list)?;
    let history = put_part(alloc, list, Part::History, horizon)?;
    let fixed = put_part(alloc, list, Part::Fixed, horizon)?;
    Ok(MemberTexts {
        crew,
        history,
        fixed,
    })
}
