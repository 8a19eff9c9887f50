//! The rows of `history.csv` and `fixed.csv`.
ghost use Rattle.std.specs.Prelude.{◌≡◌, ◌≢◌, ◌≤◌, ◌+◌, ◌<◌, ◌++◌, length, Ok, Err, IfOk, IfErr, OnOk};
ghost use Rattle.csv.specs.Records.{fields_of};
ghost use Rattle.duty_calendar.specs.Calendar.{month_end};
ghost use Rattle.field_text.specs.Sizes.{longest};
ghost use Rattle.field_text.specs.Records.{AreWithin};
ghost use Rattle.field_text.specs.Rows.{Fails, rows_from, same_record};
ghost use Rattle.field_text.specs.declared.file_fault.FileCode.TheVariants.{NoMemory};
ghost use Rattle.crew_files.specs.Events.{event_header, event_row, event_columns, event_checked, are_in_row, times_fit, flights_fit, last_release, is_in_order, may_report, part_of, changed, with_event, with_event_at};
ghost use Rattle.crew_files.specs.Files.{event_file, file_name};
ghost use Rattle.crew_files.specs.Limits.{most_events, events_limit};

use crate::crew::Crew;
use crate::crew_rows::{CREDIT, CREDIT_LIMIT};
use crate::flights::read_flights;
use crate::part::Part;
use csv::{ByteRecord, StringRecord};
use duty_calendar::{Event, Flown, Horizon, Kind, List, Member, Name};
use field_text::{
    FileCode, FileFault, FileName, Records, as_text, at_row, field_is, in_column, next, read_kind,
    read_minutes, read_moment, read_name, text_at,
};
use std::alloc::Global;

/// How many flights an event has at most, and the number of that limit.
const FLIGHTS: usize = 8;

const FLIGHTS_LIMIT: u32 = 4;

/// The first minute of the month.
const MONTH: u32 = 525_600;

/// Whether the flights come one after another between two times.
fn are_in_row(start: u32, stop: u32, flights: &[Flown]) -> bool
    ensures value { result ≡ are_in_row start stop flights.now }
{
    let mut free = start;
    for f in flights {
        if f.out_at < free {
            return false;
        }
        if f.in_at <= f.out_at {
            return false;
        }
        if f.in_at > stop {
            return false;
        }
        free = f.in_at;
    }
    true
}

/// Whether the times of an event are in order.
fn times_fit(event: &Event) -> bool
    ensures value { result ≡ times_fit event.now }
{
    if event.report > event.parked {
        return false;
    }
    if event.parked > event.release {
        return false;
    }
    event.report < event.release
}

/// Whether the flights of a flight event lie within it, or another event has none and is parked at
/// its release.
fn flights_fit(event: &Event) -> bool
    ensures value { result ≡ flights_fit event.now }
{
    if matches!(event.kind, Kind::Flight) {
        return are_in_row(event.report, event.parked, event.flights.as_slice());
    }
    if event.parked != event.release {
        return false;
    }
    event.flights.len() == 0
}

/// When the last of a member's events ends.
fn last_release(member: &Member) -> u32
    ensures value { result ≡ last_release (member.now.history ++ member.now.fixed) }
{
    match member.fixed.as_slice().last() {
        Some(event) => event.release,
        None => match member.history.as_slice().last() {
            Some(event) => event.release,
            None => 0,
        },
    }
}

/// Whether an event may come after those of a member.
fn is_in_order(member: &Member, event: &Event) -> bool
    ensures value { result ≡ is_in_order member.now event.now }
{
    if !times_fit(event) {
        return false;
    }
    if !flights_fit(event) {
        return false;
    }
    last_release(member) <= event.report
}

/// Whether an event of a part may report then.
fn may_report(horizon: &Horizon, part: Part, report: u32) -> bool
    ensures value { result ≡ may_report horizon.now part report }
{
    match part {
        Part::History => report < MONTH,
        Part::Fixed => report >= MONTH && report < horizon.month_end(),
    }
}

/// How many events a part of a member has.
fn count_of(member: &Member, part: Part) -> usize
    ensures value { result ≡ length (part_of part member.now) }
{
    match part {
        Part::History => member.history.len(),
        Part::Fixed => member.fixed.len(),
    }
}

/// How many events a part may have.
fn most_events(part: Part) -> usize
    ensures value { result ≡ most_events part }
{
    match part {
        Part::History => 500,
        Part::Fixed => 60,
    }
}

/// The number of the limit on the events of a part.
fn events_limit(part: Part) -> u32
    ensures value { result ≡ events_limit part }
{
    match part {
        Part::History => 7,
        Part::Fixed => 8,
    }
}

/// The file of a part.
fn file_name(part: Part) -> FileName
    ensures value { result ≡ file_name part }
{
    match part {
        Part::History => FileName::History,
        Part::Fixed => FileName::Fixed,
    }
}

/// Whether an event may come after those of a member, within the limits.
fn check_event(
    horizon: &Horizon,
    part: Part,
    event: &Event,
    member: &Member,
) -> Result<(), FileCode>
    ensures ok { OnOk result (event_checked horizon.now part event.now member.now
        ≡ Ok (with_event part event.now member.now)) }
    ensures fault { IfErr result (λ e. event_checked horizon.now part event.now member.now
        ≡ Err e) }
{
    if !is_in_order(member, event) {
        return Err(FileCode::Order);
    }
    if !may_report(horizon, part, event.report) {
        return Err(FileCode::OutsideMonth);
    }
    if event.flights.len() > FLIGHTS {
        return Err(FileCode::Limit(FLIGHTS_LIMIT));
    }
    if event.credit > CREDIT {
        return Err(FileCode::Limit(CREDIT_LIMIT));
    }
    if count_of(member, part) >= most_events(part) {
        return Err(FileCode::Limit(events_limit(part)));
    }
    Ok(())
}

/// The place of the member of this name, if the event may come after the member's events.
fn place_of(
    crew: &Crew,
    horizon: &Horizon,
    part: Part,
    name: &Name,
    event: &Event,
) -> Result<usize, FileCode>
    ensures within { IfOk result (λ i. i < length crew.now) }
    ensures ok { IfOk result (λ i. changed name.now
        (event_checked horizon.now part event.now) crew.now
        ≡ Ok (with_event_at i part event.now crew.now)) }
    ensures fault { IfErr result (λ e. changed name.now
        (event_checked horizon.now part event.now) crew.now ≡ Err e) }
{
    let Some(i) = crew.find(name) else {
        return Err(FileCode::Unknown);
    };
    check_event(horizon, part, event, crew.member(i))?;
    Ok(i)
}

/// The name and the event of a row of seven fields.
fn event_of(alloc: Global, row: &StringRecord, horizon: &Horizon) -> Result<(Name, Event), FileCode>
    requires width { length (fields_of row.now) ≡ 7 }
    requires short { AreWithin longest (fields_of row.now) }
    ensures ok { IfOk result (λ named. event_columns horizon.now (fields_of row.now) ≡ Ok named) }
    ensures fault { IfErr result (λ e. e ≢ NoMemory → event_columns horizon.now (fields_of row.now)
        ≡ Err e) }
{
    let name = in_column(1, read_name(text_at(row, 0)))?;
    let kind = in_column(2, read_kind(text_at(row, 1)))?;
    let report = in_column(3, read_moment(text_at(row, 2), horizon))?;
    let parked = in_column(4, read_moment(text_at(row, 3), horizon))?;
    let release = in_column(5, read_moment(text_at(row, 4), horizon))?;
    let flights = read_flights(alloc, text_at(row, 5), kind, horizon)?;
    let credit = in_column(7, read_minutes(text_at(row, 6)))?;
    let event = Event {
        kind,
        report,
        parked,
        release,
        flights,
        credit,
    };
    Ok((name, event))
}

/// Adds the event of a row.
fn add_row(
    alloc: Global,
    crew: &mut Crew,
    part: Part,
    horizon: &Horizon,
    raw: ByteRecord,
) -> Result<(), FileCode>
    requires short { AreWithin longest (fields_of raw) }
    ensures ok { OnOk result (event_row horizon.now part crew.old (fields_of raw) ≡ Ok crew.new) }
    ensures fault { IfErr result (λ e. e ≢ NoMemory
        → event_row horizon.now part crew.old (fields_of raw) ≡ Err e) }
{
    let row = as_text(raw)?;
    if row.len() != 7 {
        return Err(FileCode::Width);
    }
    let (name, event) = event_of(alloc, &row, horizon)?;
    let i = place_of(crew, horizon, part, &name, &event)?;
    crew.add(i, part, event)
}

/// Adds the events of the rows from the second on.
fn read_rows(
    alloc: Global,
    crew: &mut Crew,
    part: Part,
    horizon: &Horizon,
    records: &mut Records<'_>,
) -> Result<(), FileFault>
    requires few { length records.old ≤ longest }
    ensures ok { OnOk result (rows_from (file_name part)
        (event_row horizon.now part) 2 crew.old records.old ≡ Ok crew.new) }
    ensures fault { IfErr result (λ e. Fails e.code e
        (rows_from (file_name part) (event_row horizon.now part) 2 crew.old records.old)) }
    ensures no_row { IfErr result (λ e. e.code ≡ NoMemory → e.row ≡ 0) }
    ensures named_file { IfErr result (λ e. e.file ≡ file_name part) }
{
    let file = file_name(part);
    let mut row = 2;
    'rows: while let Some(record) = next(alloc, file, records)? {
        match add_row(alloc, crew, part, horizon, record) {
            Ok(()) => row += 1,
            Err(code) => return Err(at_row(file, row, code)),
        }
    }
    Ok(())
}

/// Whether a record is the header of `history.csv` and `fixed.csv`.
fn is_header(row: &ByteRecord) -> bool
    ensures value { result ≡ same_record (fields_of row.now) event_header }
{
    if row.len() != 7 {
        return false;
    }
    if !field_is(row, 0, b"member".as_slice()) {
        return false;
    }
    if !field_is(row, 1, b"kind".as_slice()) {
        return false;
    }
    if !field_is(row, 2, b"report".as_slice()) {
        return false;
    }
    if !field_is(row, 3, b"parked".as_slice()) {
        return false;
    }
    if !field_is(row, 4, b"release".as_slice()) {
        return false;
    }
    if !field_is(row, 5, b"legs".as_slice()) {
        return false;
    }
    field_is(row, 6, b"credit".as_slice())
}

/// Adds the events of `history.csv` or of `fixed.csv`.
pub fn read_events(
    alloc: Global,
    text: &[u8],
    crew: &mut Crew,
    part: Part,
    horizon: &Horizon,
) -> Result<(), FileFault>
    requires short { length text.now ≤ longest }
    ensures ok { OnOk result (event_file horizon.now part text.now crew.old ≡ Ok crew.new) }
    ensures fault { IfErr result (λ e. Fails e.code e
        (event_file horizon.now part text.now crew.old)) }
    ensures no_row { IfErr result (λ e. e.code ≡ NoMemory → e.row ≡ 0) }
    ensures named_file { IfErr result (λ e. e.file ≡ file_name part) }
{
    let file = file_name(part);
    let mut records = Records::new(alloc, text);
    let Some(header) = next(alloc, file, &mut records)? else {
        return Err(at_row(file, 1, FileCode::Header));
    };
    if !is_header(&header) {
        return Err(at_row(file, 1, FileCode::Header));
    }
    read_rows(alloc, crew, part, horizon, &mut records)
}
