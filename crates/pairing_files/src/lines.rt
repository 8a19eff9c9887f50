//! The lines of the three files.
ghost use Rattle.std.specs.Prelude.{◌≡◌, ◌++◌, ◌∷◌, [], ◌≤◌, ◌+◌, OnOk, All, length, decimal};
ghost use Rattle.duty_calendar.specs.Calendar.{horizon_end};
ghost use Rattle.field_text.specs.Spelling.{number_text, moment_text, minutes_text};
ghost use Rattle.pairing_files.specs.Texts.{lines, layover_text, pairing_fields, duty_fields, leg_fields, pairing_rows, duty_rows, all_duty_rows, leg_rows, duties_leg_rows, all_leg_rows, LegEndsWithin, DutyEndsWithin, EndWithin};
ghost use Rattle.field_text.specs.Rows.{line};

use duty_calendar::{Duty, Horizon, Leg, List, Memory, Pairing, Station};
use field_text::{put_bytes, put_minutes, put_moment};
use itoa::Buffer;

/// Appends bytes, and one more behind them.
fn put_field(out: &mut List<u8>, bytes: &[u8], end: u8) -> Result<(), Memory>
    ensures whole { OnOk result (out.new ≡ out.old ++ (bytes.now ++ end ∷ [])) }
{
    put_bytes(out, bytes)?;
    put_bytes(out, &[end])
}

/// Appends a number, and a comma behind it.
fn put_number_field(out: &mut List<u8>, value: u64) -> Result<(), Memory>
    ensures whole { OnOk result (out.new ≡ out.old ++ (decimal value ++ 44 ∷ [])) }
{
    let mut buffer = Buffer::new();
    put_field(out, buffer.format(value).as_bytes(), b',')
}

/// Appends minutes, and a line feed behind them.
fn put_minutes_field(out: &mut List<u8>, minutes: u32) -> Result<(), Memory>
    ensures whole { OnOk result (out.new ≡ out.old ++ (minutes_text minutes ++ 10 ∷ [])) }
{
    put_minutes(out, minutes)?;
    put_bytes(out, b"\n")
}

/// Appends a moment, and a byte behind it.
fn put_moment_field(
    out: &mut List<u8>,
    minute: u32,
    horizon: &Horizon,
    end: u8,
) -> Result<(), Memory>
    requires within { minute ≤ horizon_end horizon.now }
    ensures whole { OnOk result (out.new ≡ out.old
        ++ (moment_text horizon.now minute ++ end ∷ [])) }
{
    put_moment(out, minute, horizon)?;
    put_bytes(out, &[end])
}

/// Appends a layover, where there is one, and a line feed.
fn put_layover(out: &mut List<u8>, layover: Option<Station>) -> Result<(), Memory>
    ensures whole { OnOk result (out.new ≡ out.old ++ (layover_text layover ++ 10 ∷ [])) }
{
    match layover {
        Some(station) => put_field(out, &station.bytes(), b'\n'),
        None => put_bytes(out, b"\n"),
    }
}

/// Appends the line of a pairing.
fn put_pairing_line(out: &mut List<u8>, pairing: &Pairing) -> Result<(), Memory>
    ensures whole { OnOk result (out.new ≡ out.old ++ line (pairing_fields pairing.now)) }
{
    put_field(out, pairing.name.bytes(), b',')?;
    put_number_field(out, u64::from(pairing.need))?;
    put_minutes_field(out, pairing.credit)?;
    Ok(())
}

/// Appends the line of a duty.
fn put_duty_line(
    out: &mut List<u8>,
    name: &[u8],
    number: u64,
    duty: &Duty,
    horizon: &Horizon,
) -> Result<(), Memory>
    requires report { duty.now.report ≤ horizon_end horizon.now }
    requires parked { duty.now.parked ≤ horizon_end horizon.now }
    requires release { duty.now.release ≤ horizon_end horizon.now }
    ensures whole { OnOk result (out.new ≡ out.old
        ++ line (duty_fields horizon.now name.now number duty.now)) }
{
    put_field(out, name, b',')?;
    put_number_field(out, number)?;
    put_moment_field(out, duty.report, horizon, b',')?;
    put_moment_field(out, duty.parked, horizon, b',')?;
    put_moment_field(out, duty.release, horizon, b',')?;
    put_layover(out, duty.layover)?;
    Ok(())
}

/// Appends the line of a leg.
fn put_leg_line(
    out: &mut List<u8>,
    name: &[u8],
    number: u64,
    leg: &Leg,
    horizon: &Horizon,
) -> Result<(), Memory>
    requires out_at { leg.now.flown.out_at ≤ horizon_end horizon.now }
    requires in_at { leg.now.flown.in_at ≤ horizon_end horizon.now }
    ensures whole { OnOk result (out.new ≡ out.old
        ++ line (leg_fields horizon.now name.now number leg.now)) }
{
    put_field(out, name, b',')?;
    put_number_field(out, number)?;
    put_field(out, &leg.from.bytes(), b',')?;
    put_field(out, &leg.to.bytes(), b',')?;
    put_moment_field(out, leg.flown.out_at, horizon, b',')?;
    put_moment_field(out, leg.flown.in_at, horizon, b'\n')?;
    Ok(())
}

/// Appends the lines of pairings.
pub fn put_pairing_lines(out: &mut List<u8>, list: &[Pairing]) -> Result<(), Memory>
    ensures whole { OnOk result (out.new ≡ out.old ++ lines (pairing_rows list.now)) }
{
    for pairing in list {
        put_pairing_line(out, pairing)?;
    }
    Ok(())
}

/// Appends the lines of a pairing's duties.
fn put_duty_lines(
    out: &mut List<u8>,
    name: &[u8],
    duties: &[Duty],
    horizon: &Horizon,
) -> Result<(), Memory>
    requires within { All (DutyEndsWithin horizon.now) duties.now }
    ensures whole { OnOk result (out.new ≡ out.old
        ++ lines (duty_rows horizon.now name.now 1 duties.now)) }
{
    for (i, duty) in duties.iter().enumerate() {
        put_duty_line(out, name, i as u64 + 1, duty, horizon)?;
    }
    Ok(())
}

/// Appends the lines of all duties.
pub fn put_all_duty_lines(
    out: &mut List<u8>,
    list: &[Pairing],
    horizon: &Horizon,
) -> Result<(), Memory>
    requires within { EndWithin horizon.now list.now }
    ensures whole { OnOk result (out.new ≡ out.old ++ lines (all_duty_rows horizon.now list.now)) }
{
    for pairing in list {
        put_duty_lines(
            out,
            pairing.name.bytes(),
            pairing.duties.as_slice(),
            horizon,
        )?;
    }
    Ok(())
}

/// Appends the lines of a duty's legs.
fn put_leg_lines(
    out: &mut List<u8>,
    name: &[u8],
    number: u64,
    legs: &[Leg],
    horizon: &Horizon,
) -> Result<(), Memory>
    requires within { All (LegEndsWithin horizon.now) legs.now }
    ensures whole { OnOk result (out.new ≡ out.old
        ++ lines (leg_rows horizon.now name.now number legs.now)) }
{
    for leg in legs {
        put_leg_line(out, name, number, leg, horizon)?;
    }
    Ok(())
}

/// Appends the lines of the legs of a pairing's duties.
fn put_duties_leg_lines(
    out: &mut List<u8>,
    name: &[u8],
    duties: &[Duty],
    horizon: &Horizon,
) -> Result<(), Memory>
    requires within { All (DutyEndsWithin horizon.now) duties.now }
    ensures whole { OnOk result (out.new ≡ out.old
        ++ lines (duties_leg_rows horizon.now name.now 1 duties.now)) }
{
    for (i, duty) in duties.iter().enumerate() {
        put_leg_lines(out, name, i as u64 + 1, duty.legs.as_slice(), horizon)?;
    }
    Ok(())
}

/// Appends the lines of all legs.
pub fn put_all_leg_lines(
    out: &mut List<u8>,
    list: &[Pairing],
    horizon: &Horizon,
) -> Result<(), Memory>
    requires within { EndWithin horizon.now list.now }
    ensures whole { OnOk result (out.new ≡ out.old ++ lines (all_leg_rows horizon.now list.now)) }
{
    for pairing in list {
        put_duties_leg_lines(
            out,
            pairing.name.bytes(),
            pairing.duties.as_slice(),
            horizon,
        )?;
    }
    Ok(())
}
