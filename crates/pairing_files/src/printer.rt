//! The three files of pairings, written.
ghost use Rattle.std.specs.Prelude.{◌≡◌, IfOk, Ok};
ghost use Rattle.duty_calendar.specs.Checks.{ArePairings};
ghost use Rattle.pairing_files.specs.Files.{pairings_of};
ghost use Rattle.pairing_files.specs.Texts.{pairings_text, duties_text, legs_text, EndWithin};

use crate::lines::{put_all_duty_lines, put_all_leg_lines, put_pairing_lines};
use duty_calendar::{Horizon, List, Memory, Pairing};
use field_text::put_bytes;
use std::alloc::Global;

/// The texts of the three files, with the months' moments in UTC.
#[derive(Drop)]
pub struct PairingTexts {
    pub pairings: List<u8>,
    pub duties: List<u8>,
    pub legs: List<u8>,
}

fn pairings_text(alloc: Global, list: &[Pairing]) -> Result<List<u8>, Memory>
    ensures whole { IfOk result (λ text. text ≡ pairings_text list.now) }
{
    let mut out = List::new(alloc);
    put_bytes(&mut out, b"pairing,need,credit\n")?;
    put_pairing_lines(&mut out, list)?;
    Ok(out)
}

fn duties_text(alloc: Global, list: &[Pairing], horizon: &Horizon) -> Result<List<u8>, Memory>
    requires within { EndWithin horizon.now list.now }
    ensures whole { IfOk result (λ text. text ≡ duties_text horizon.now list.now) }
{
    let mut out = List::new(alloc);
    put_bytes(&mut out, b"pairing,no,report,parked,release,layover\n")?;
    put_all_duty_lines(&mut out, list, horizon)?;
    Ok(out)
}

fn legs_text(alloc: Global, list: &[Pairing], horizon: &Horizon) -> Result<List<u8>, Memory>
    requires within { EndWithin horizon.now list.now }
    ensures whole { IfOk result (λ text. text ≡ legs_text horizon.now list.now) }
{
    let mut out = List::new(alloc);
    put_bytes(&mut out, b"pairing,no,from,to,out,in\n")?;
    put_all_leg_lines(&mut out, list, horizon)?;
    Ok(out)
}

/// The texts of the files that read as these pairings, where they keep the checks of the reader.
pub fn put_pairings(
    alloc: Global,
    list: &[Pairing],
    horizon: &Horizon,
) -> Result<PairingTexts, Memory>
    requires within { EndWithin horizon.now list.now }
    ensures pairings { IfOk result (λ texts. texts.pairings ≡ pairings_text list.now) }
    ensures duties { IfOk result (λ texts. texts.duties ≡ duties_text horizon.now list.now) }
    ensures legs { IfOk result (λ texts. texts.legs ≡ legs_text horizon.now list.now) }
    ensures again { IfOk result (λ texts. ArePairings horizon.now list.now
        → pairings_of horizon.now texts.pairings texts.duties texts.legs ≡ Ok list.now) }
{
    Ok(PairingTexts {
        pairings: pairings_text(alloc, list)?,
        duties: duties_text(alloc, list, horizon)?,
        legs: legs_text(alloc, list, horizon)?,
    })
}
