//! Duties and legs that look wrong.

use crate::findings::Findings;
use crate::rows::{leg_line, named_line};
use duty_calendar::{Duty, Leg, Memory, Pairing, Station};
use month_files::{File, Texts};

/// The most minutes between two duties of a pairing that do not look wrong.
const LONGEST_REST: u32 = 5_760;

/// The most minutes of a duty that do not look wrong.
const LONGEST_DUTY: u32 = 1_440;

/// A duty of a pairing, by number from 0.
#[derive(Clone, Copy)]
struct Post<'a> {
    pairing: &'a Pairing,
    duty: u32,
}

/// The number of the last of so many, from 0.
fn last_of(count: usize) -> u32 {
    u32::try_from(count.saturating_sub(1)).unwrap_or(u32::MAX)
}

/// The line of a duty.
fn line_of_duty(found: &Findings, texts: &Texts, post: Post<'_>) -> Result<u64, Memory> {
    named_line(found.alloc(), &texts.duties, &post.pairing.name, post.duty)
}

/// The line of a leg of a duty, by number from 0.
fn line_of_leg(found: &Findings, texts: &Texts, post: Post<'_>, leg: u32) -> Result<u64, Memory> {
    leg_line(
        found.alloc(),
        &texts.legs,
        &post.pairing.name,
        post.duty,
        leg,
    )
}

/// What is said of two stations of which one should be the other: words before each of them.
#[derive(Clone, Copy)]
struct Clash {
    one: &'static [u8],
    other: &'static [u8],
}

static GAP: Clash = Clash {
    one: b"the leg leaves from ",
    other: b", and the leg before it ends at ",
};

static ELSEWHERE: Clash = Clash {
    one: b"the layover is at ",
    other: b", and the last leg of the duty ends at ",
};

static AWAY: Clash = Clash {
    one: b"the pairing begins at ",
    other: b", and the base is ",
};

static ASTRAY: Clash = Clash {
    one: b"no leg goes home: the pairing ends at ",
    other: b", and the base is ",
};

/// Notes two stations of which one should be the other.
fn note_clash(
    found: &mut Findings,
    file: File,
    line: u64,
    clash: &Clash,
    one: Station,
    other: Station,
) -> Result<(), Memory> {
    let mut words = found.words();
    words.say(clash.one)?;
    words.text(&one.bytes())?;
    words.say(clash.other)?;
    words.text(&other.bytes())?;
    found.add(file, line, words)
}

/// Where the last leg of a duty ends.
fn end_of(duty: &Duty) -> Option<Station> {
    let leg = duty.legs.as_slice().last()?;
    Some(leg.to)
}

/// Notes each leg of a duty that leaves from another station than the one at which the leg before it ends.
fn note_legs(
    found: &mut Findings,
    texts: &Texts,
    post: Post<'_>,
    legs: &[Leg],
    before: Option<Station>,
) -> Result<(), Memory> {
    let mut last = before;
    let mut number: u32 = 0;
    for leg in legs {
        if let Some(station) = last {
            if station != leg.from {
                let line = line_of_leg(found, texts, post, number)?;
                note_clash(found, File::Legs, line, &GAP, leg.from, station)?;
            }
        }
        last = Some(leg.to);
        number = number.saturating_add(1);
    }
    Ok(())
}

/// Notes plain words of a duty.
fn note_duty(
    found: &mut Findings,
    texts: &Texts,
    post: Post<'_>,
    text: &'static [u8],
) -> Result<(), Memory> {
    let line = line_of_duty(found, texts, post)?;
    found.say(File::Duties, line, text)
}

/// Notes a layover that is missing, is elsewhere than where the duty ends, or follows the last duty.
fn note_layover(
    found: &mut Findings,
    texts: &Texts,
    post: Post<'_>,
    layover: Option<Station>,
    end: Option<Station>,
) -> Result<(), Memory> {
    let is_last = post.duty == last_of(post.pairing.duties.len());
    match layover {
        None if is_last => Ok(()),
        None => {
            let text = b"the duty has no layover, and another duty of the pairing follows";
            note_duty(found, texts, post, text)
        }
        Some(_) if is_last => {
            let text = b"the last duty of the pairing has a layover";
            note_duty(found, texts, post, text)
        }
        Some(station) => match end {
            Some(end) if end != station => {
                let line = line_of_duty(found, texts, post)?;
                note_clash(found, File::Duties, line, &ELSEWHERE, station, end)
            }
            _ => Ok(()),
        },
    }
}

/// Notes a duty that is long, or far from the one before it.
fn note_times(
    found: &mut Findings,
    texts: &Texts,
    post: Post<'_>,
    duty: &Duty,
    released: u32,
) -> Result<(), Memory> {
    if duty.release.saturating_sub(duty.report) > LONGEST_DUTY {
        let text = b"the duty is longer than 24 hours: is a date wrong?";
        note_duty(found, texts, post, text)?;
    }
    if duty.report.saturating_sub(released) > LONGEST_REST {
        let text = b"more than 4 days lie between the duty and the one before it: is a date wrong?";
        note_duty(found, texts, post, text)?;
    }
    Ok(())
}

/// Notes what looks wrong in a duty, behind one that ends here and is released then.
fn note_post(
    found: &mut Findings,
    texts: &Texts,
    post: Post<'_>,
    duty: &Duty,
    before: Option<Station>,
    released: u32,
) -> Result<(), Memory> {
    note_legs(found, texts, post, duty.legs.as_slice(), before)?;
    note_layover(found, texts, post, duty.layover, end_of(duty))?;
    note_times(found, texts, post, duty, released)
}

/// Notes what looks wrong in the duties of a pairing.
fn note_duties(found: &mut Findings, texts: &Texts, pairing: &Pairing) -> Result<(), Memory> {
    let mut before: Option<Station> = None;
    let mut released: u32 = u32::MAX;
    let mut number: u32 = 0;
    for duty in pairing.duties.as_slice() {
        let post = Post {
            pairing,
            duty: number,
        };
        note_post(found, texts, post, duty, before, released)?;
        before = end_of(duty);
        released = duty.release;
        number = number.saturating_add(1);
    }
    Ok(())
}

/// Notes that a pairing does not begin at the base.
fn note_begin(
    found: &mut Findings,
    texts: &Texts,
    pairing: &Pairing,
    base: Station,
) -> Result<(), Memory> {
    let Some(duty) = pairing.duties.as_slice().first() else {
        return Ok(());
    };
    match duty.legs.as_slice().first() {
        Some(leg) if leg.from != base => {
            let line = line_of_leg(found, texts, Post { pairing, duty: 0 }, 0)?;
            note_clash(found, File::Legs, line, &AWAY, leg.from, base)
        }
        _ => Ok(()),
    }
}

/// Notes that a pairing does not end at the base.
fn note_end(
    found: &mut Findings,
    texts: &Texts,
    pairing: &Pairing,
    base: Station,
) -> Result<(), Memory> {
    let Some(last) = pairing.duties.as_slice().last() else {
        return Ok(());
    };
    match end_of(last) {
        Some(station) if station != base => {
            let duty = last_of(pairing.duties.len());
            let leg = last_of(last.legs.len());
            let line = line_of_leg(found, texts, Post { pairing, duty }, leg)?;
            note_clash(found, File::Legs, line, &ASTRAY, station, base)
        }
        _ => Ok(()),
    }
}

/// Notes what looks wrong in the duties and legs of a pairing.
pub fn note_pairing(
    found: &mut Findings,
    texts: &Texts,
    pairing: &Pairing,
    base: Option<Station>,
) -> Result<(), Memory> {
    note_duties(found, texts, pairing)?;
    match base {
        Some(base) => {
            note_begin(found, texts, pairing, base)?;
            note_end(found, texts, pairing, base)
        }
        None => Ok(()),
    }
}
