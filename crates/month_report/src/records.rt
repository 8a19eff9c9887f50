//! The report as records of four fields: of what kind a row is, its name, the figure, and its value. Credit is in minutes.
ghost use Rattle.std.specs.Prelude.{◌≤◌, ◌<◌, ◌+◌};
ghost use Rattle.duty_calendar.specs.Calendar.{month_days};

use crate::figures::{DayFigure, Figures};
use crate::open::OpenTrip;
use bid_language::put_date;
use csv::{Writer, WriterBuilder};
use duty_calendar::{Horizon, List, Memory};
use field_text::put_number;
use month_page::{GROUNDS, Pilot, count_denied};
use roster_model::Problem;
use std::alloc::Global;

/// The records so far.
#[derive(Drop)]
pub struct Records {
    alloc: Global,
    writer: Writer<Vec<u8>>,
}

impl Records {
    /// The header alone.
    fn new(alloc: Global) -> Result<Records, Memory> {
        let mut records = Records {
            alloc,
            writer: WriterBuilder::new().from_writer(Vec::new(alloc)),
        };
        records.text(b"kind", b"name", b"figure", b"value")?;
        Ok(records)
    }

    /// Adds a record.
    fn text(
        &mut self,
        kind: &[u8],
        name: &[u8],
        figure: &[u8],
        value: &[u8],
    ) -> Result<(), Memory> {
        match self.writer.write_fields(&[kind, name, figure, value]) {
            Ok(()) => Ok(()),
            Err(_) => Err(Memory::NoMemory),
        }
    }

    /// Adds a record of a number.
    fn number(
        &mut self,
        kind: &[u8],
        name: &[u8],
        figure: &[u8],
        value: u32,
    ) -> Result<(), Memory> {
        let mut digits = List::new(self.alloc);
        put_number(&mut digits, value)?;
        self.text(kind, name, figure, digits.as_slice())
    }

    /// The bytes.
    fn into_bytes(self) -> Result<List<u8>, Memory> {
        match self.writer.into_inner() {
            Ok(bytes) => Ok(List::from_vec(bytes)),
            Err(_) => Err(Memory::NoMemory),
        }
    }
}

/// Adds what a pilot has.
fn add_pilot(records: &mut Records, pilot: &Pilot) -> Result<(), Memory> {
    let name = pilot.name;
    records.number(b"pilot", name, b"place", pilot.place)?;
    records.number(b"pilot", name, b"granted bids", pilot.count(true))?;
    records.number(b"pilot", name, b"denied bids", pilot.count(false))?;
    records.number(b"pilot", name, b"granted weight", pilot.score)?;
    records.number(b"pilot", name, b"bid weight", pilot.weight())?;
    records.number(b"pilot", name, b"credit", pilot.credit)?;
    records.number(b"pilot", name, b"least credit", pilot.low)?;
    records.number(b"pilot", name, b"greatest credit", pilot.high)?;
    records.number(b"pilot", name, b"days off", pilot.days_off)
}

/// Adds what all pilots have.
fn add_pilots(records: &mut Records, pilots: &[Pilot]) -> Result<(), Memory> {
    for pilot in pilots {
        add_pilot(records, pilot)?;
    }
    Ok(())
}

/// Adds how many bids are denied for each cause.
fn add_causes(records: &mut Records, pilots: &[Pilot]) -> Result<(), Memory> {
    for ground in GROUNDS {
        let count = count_denied(pilots, ground);
        records.number(b"cause", ground.words(), b"denied bids", count)?;
    }
    Ok(())
}

/// The day of the month that is next to a day, counted from the first of the horizon.
fn in_month(horizon: &Horizon, day: u32) -> u32
    ensures first { 365 ≤ result }
    ensures last { result < 365 + month_days horizon.now }
{
    let last = 364 + horizon.days();
    if day < 365 {
        return 365;
    }
    if day > last {
        return last;
    }
    day
}

/// Adds what was wanted of a day.
fn add_day(records: &mut Records, horizon: &Horizon, figure: DayFigure) -> Result<(), Memory> {
    let mut date = List::new(records.alloc);
    put_date(&mut date, horizon, in_month(horizon, figure.day))?;
    records.number(b"day", date.as_slice(), b"wanted off", figure.wanted)?;
    records.number(b"day", date.as_slice(), b"granted off", figure.granted)
}

/// Adds what was wanted of each day.
fn add_days(records: &mut Records, horizon: &Horizon, days: &[DayFigure]) -> Result<(), Memory> {
    for figure in days {
        add_day(records, horizon, *figure)?;
    }
    Ok(())
}

/// The name of a pairing.
fn trip_name(problem: &Problem, pairing: u32) -> &[u8] {
    match problem.base.pairings.as_slice().get(pairing as usize) {
        Some(pairing) => pairing.name.bytes(),
        None => b"",
    }
}

/// Adds the trips that nobody wanted.
fn add_unwanted(records: &mut Records, problem: &Problem, trips: &[u32]) -> Result<(), Memory> {
    for pairing in trips {
        records.number(b"trip", trip_name(problem, *pairing), b"wanted by", 0)?;
    }
    Ok(())
}

/// Adds who could fly an open trip.
fn add_able(records: &mut Records, problem: &Problem, open: &OpenTrip) -> Result<(), Memory> {
    let trip = trip_name(problem, open.pairing);
    for member in &open.able {
        if let Some(member) = problem.base.members.as_slice().get(*member as usize) {
            records.text(b"open", trip, b"could fly it", member.name.bytes())?;
        }
    }
    Ok(())
}

/// Adds the open trips.
fn add_open(records: &mut Records, problem: &Problem, trips: &[OpenTrip]) -> Result<(), Memory> {
    for open in trips {
        let trip = trip_name(problem, open.pairing);
        records.number(b"open", trip, b"pilots wanting", open.lack)?;
        add_able(records, problem, open)?;
    }
    Ok(())
}

/// The report as records.
pub fn print_records(
    alloc: Global,
    problem: &Problem,
    figures: &Figures<'_>,
) -> Result<List<u8>, Memory> {
    let mut records = Records::new(alloc)?;
    add_pilots(&mut records, &figures.pilots)?;
    add_causes(&mut records, &figures.pilots)?;
    add_days(&mut records, &problem.base.rules.horizon, &figures.days)?;
    add_unwanted(&mut records, problem, &figures.unwanted)?;
    add_open(&mut records, problem, &figures.open)?;
    records.into_bytes()
}
