//! Fields, tokens and records, read and written.
ghost use Rattle.csv.specs.Records.{fields_of};
ghost use Rattle.field_text.specs.Records.{AreWithin};
ghost use Rattle.field_text.specs.Sizes.{longest};

use csv::ByteRecord;
use duty_calendar::{Horizon, List};
use field_text::{
    FieldFault, FileCode, Records, Token, TokenFault, as_text, bytes_at, put_bytes, put_clock,
    put_day, put_minutes, put_moment, put_number, read_clock, read_day, read_minutes, read_moment,
    read_name, read_number, read_station, text_at, tokens,
};
use jiff::civil::Date;
use june_months::sides;
use std::alloc::Global;
use std::process::Abort;

type Read = Result<u32, FieldFault>;

fn number(text: &str) -> Read {
    if text.len() > 100 {
        return Err(FieldFault::Empty);
    }
    read_number(text)
}

fn minutes(text: &str) -> Read {
    if text.len() > 100 {
        return Err(FieldFault::Empty);
    }
    read_minutes(text)
}

fn clock(text: &str) -> Read {
    if text.len() > 100 {
        return Err(FieldFault::Empty);
    }
    read_clock(text)
}

fn moment(text: &str, horizon: &Horizon) -> Read {
    if text.len() > 100 {
        return Err(FieldFault::Empty);
    }
    read_moment(text, horizon)
}

/// The year, month and day of a day as one number.
fn day(text: &str) -> Read {
    if text.len() > 100 {
        return Err(FieldFault::Empty);
    }
    let date = read_day(text)?;
    Ok(date.to_plain().days_since_min())
}

/// How long a name and a station are.
fn word(text: &str, is_name: bool) -> Read {
    if text.len() > 100 {
        return Err(FieldFault::Empty);
    }
    if is_name {
        return Ok(read_name(text)?.bytes().len() as u32);
    }
    Ok(read_station(text)?.bytes().len() as u32)
}

/// What is read of a text of a kind.
fn read_of(rt: &impl Abort, kind: &str, text: &str) -> Read {
    match kind {
        "number" => number(text),
        "minutes" => minutes(text),
        "clock" => clock(text),
        "day" => day(text),
        "moment" => moment(text, &Horizon::new(2026, 6, 60).expect(rt, "June 2026")),
        _ => word(text, kind == "name"),
    }
}

/// What is said of it.
fn told(rt: &impl Abort, alloc: Global, read: Read) -> String {
    match read {
        Ok(value) => format!(in alloc; "{value}"),
        Err(fault) => format!(in alloc; "{fault}"),
    }
    .expect(rt, "memory")
}

/// Kinds and texts, and what is said of them. The days are counted from -9999-01-01, so that 2024-02-29 is day 19,782 of
/// 1970. June 2026 is an hour ahead of UTC: minute 0 is 2025-05-31T23:00Z, and the end 2026-07-07T23:00Z.
const FIELDS: &str = r"number 0 => 0
number 4294967295 => 4294967295
number 4294967296 => out of range
number  => an empty field
number 01 => no field of this form from byte 2 on
number +1 => no field of this form from byte 1 on
number -1 => no field of this form from byte 1 on
number 12x => no field of this form from byte 3 on
minutes 0:00 => 0
minutes 75:30 => 4530
minutes 999:59 => 59999
minutes 8:60 => out of range
minutes  => an empty field
minutes 08:00 => no field of this form from byte 2 on
minutes 1000:00 => no field of this form from byte 4 on
minutes :00 => no field of this form from byte 1 on
minutes 12:5 => no field of this form from byte 5 on
minutes 12:500 => no field of this form from byte 6 on
minutes 12 => no field of this form from byte 3 on
clock 00:00 => 0
clock 23:59 => 1439
clock 08:60 => out of range
clock 24:00 => out of range
clock  => an empty field
clock 8:00 => no field of this form from byte 2 on
clock 08:0 => no field of this form from byte 5 on
clock 08:000 => no field of this form from byte 6 on
day 2024-02-29 => 4391369
day 2023-02-29 => no day of the calendar
day 2023-13-01 => no day of the calendar
day 0000-00-10 => no day of the calendar
day 2023-1-01 => no field of this form from byte 7 on
day  => an empty field
moment 2025-05-31T23:00Z => 0
moment 2025-05-31T22:59Z => outside the horizon
moment 2026-07-07T23:00Z => 578880
moment 2026-07-07T23:01Z => outside the horizon
moment 2026-06-31T23:00Z => no day of the calendar
moment 2026-06-31T23:60Z => out of range
moment 2026-06-31T23:60 => no field of this form from byte 17 on
moment 2026-06-01 23:00Z => no field of this form from byte 11 on
moment  => an empty field
name A-b_9 => 5
name ABCDEFGHIJKLMNOP => 16
name ABCDEFGHIJKLMNOPQ => no field of this form from byte 17 on
name a b => no field of this form from byte 2 on
name  => an empty field
station OSL => 3
station Osl => no field of this form from byte 2 on
station OS => no field of this form from byte 3 on
station OSLO => no field of this form from byte 4 on
station  => an empty field";

/// Says what is read of a kind and a text.
fn assert_read(rt: &impl Abort, alloc: Global, row: &str) {
    let (field, due) = sides(row).expect(rt, "a row has two sides");
    let (kind, text) = field.split_once(' ').expect(rt, "a kind");
    let found = told(rt, alloc, read_of(rt, kind, text));
    assert!(rt; found.as_str() == due, "{row}");
}

#[test]
fn fields_are_read(rt: HostRuntime) {
    for row in FIELDS.lines() {
        assert_read(&rt, rt.alloc(), row);
    }
}

/// The tokens of a line.
fn tokens_of(rt: &impl Abort, alloc: Global, line: &[u8]) -> Result<List<Token>, TokenFault> {
    assert!(rt; line.len() <= 100);
    tokens(alloc, line)
}

/// Says which tokens a line has.
fn assert_tokens(rt: &impl Abort, alloc: Global, line: &[u8], want: &[Token]) {
    let found = tokens_of(rt, alloc, line).expect(rt, "tokens");
    assert!(rt; found.as_slice() == want);
}

#[test]
fn tokens_of_lines(rt: HostRuntime) {
    let words = [
        Token { start: 0, end: 2 },
        Token { start: 3, end: 6 },
        Token { start: 7, end: 9 },
    ];
    assert_tokens(&rt, rt.alloc(), b"10 fly P1", &words);
    assert_tokens(&rt, rt.alloc(), b" \t", &[]);
    let fault = tokens_of(&rt, rt.alloc(), b"fly\rP1").err();
    assert!(rt; fault == Some(TokenFault::Byte(4)));
    assert!(rt; TokenFault::Byte(4).code() == 1);
}

#[test]
fn spellings(rt: HostRuntime) {
    let mut out = List::new(rt.alloc());
    put_number(&mut out, 4_294_967_295).expect(&rt, "memory");
    put_bytes(&mut out, b" ".as_slice()).expect(&rt, "memory");
    put_minutes(&mut out, 60_005).expect(&rt, "memory");
    put_bytes(&mut out, b" ".as_slice()).expect(&rt, "memory");
    put_clock(&mut out, 485).expect(&rt, "memory");
    put_bytes(&mut out, b" ".as_slice()).expect(&rt, "memory");
    let date = Date::new(476, 9, 4).expect(&rt, "a day");
    put_day(&mut out, date).expect(&rt, "memory");
    put_bytes(&mut out, b" ".as_slice()).expect(&rt, "memory");
    let horizon = Horizon::new(2026, 6, 60).expect(&rt, "June 2026");
    put_moment(&mut out, 525_600, &horizon).expect(&rt, "memory");
    assert!(rt;
        out.as_slice() == b"4294967295 1000:05 08:05 0476-09-04 2026-05-31T23:00Z".as_slice()
    );
}

/// The records of a text.
fn records_of<'a>(rt: &impl Abort, alloc: Global, text: &'a [u8]) -> Records<'a> {
    assert!(rt; text.len() <= 100);
    Records::new(alloc, text)
}

/// The next record, of which there is one.
fn next(rt: &impl Abort, alloc: Global, records: &mut Records) -> ByteRecord
    ensures short { AreWithin longest (fields_of result) }
{
    let row = records.read(alloc).expect(rt, "memory");
    row.expect(rt, "a record")
}

/// Says that a record is text, with the fields M1 and x.
fn assert_row(rt: &impl Abort, row: ByteRecord)
    requires short { AreWithin longest (fields_of row) }
{
    assert!(rt; row.len() == 2);
    assert!(rt; bytes_at(&row, 0) == b"M1".as_slice());
    let texts = as_text(row).expect(rt, "text");
    assert!(rt; texts.len() == 2);
    assert!(rt; text_at(&texts, 1) == "x");
}

/// Says that a record is no text.
fn assert_no_text(rt: &impl Abort, row: ByteRecord) {
    assert!(rt; as_text(row).err() == Some(FileCode::Utf8));
}

/// Says that no record is left.
fn assert_end(rt: &impl Abort, alloc: Global, records: &mut Records) {
    let row = records.read(alloc).expect(rt, "memory");
    assert!(rt; row.is_none());
}

#[test]
fn records_of_a_file(rt: HostRuntime) {
    let alloc = rt.alloc();
    let text = b"\xef\xbb\xbfmember,low\n\n\"M1\",x\r\nM\xff\n".as_slice();
    let mut records = records_of(&rt, alloc, text);
    assert!(rt; next(&rt, alloc, &mut records).len() == 2);
    assert_row(&rt, next(&rt, alloc, &mut records));
    assert_no_text(&rt, next(&rt, alloc, &mut records));
    assert_end(&rt, alloc, &mut records);
}

#[test]
fn codes_of_faults(rt: HostRuntime) {
    assert!(rt; FileCode::Field(2, FieldFault::Range).code() == 4);
    assert!(rt; FieldFault::Range.code() == 3);
}
