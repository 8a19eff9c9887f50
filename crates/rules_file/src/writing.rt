//! Writing rules.
ghost use Rattle.std.specs.Prelude.{◌≡◌, ◌++◌, OnOk, OnErr, Ok};
ghost use Rattle.std.specs.List.{flat_map};
ghost use Rattle.field_text.specs.Spelling.{HasPartly};
ghost use Rattle.rules_file.specs.Rules.{values, rules_file};
ghost use Rattle.duty_calendar.specs.Checks.{IsRules};
ghost use Rattle.rules_file.specs.Spelling.{rules_text};

use duty_calendar::{List, Memory, Rules};
use field_text::put_bytes;
use itoa::Buffer;

/// Appends pieces, one after another.
fn put_all(out: &mut List<u8>, pieces: &[&[u8]]) -> Result<(), Memory>
    ensures whole { OnOk result (out.new ≡ out.old ++ flat_map (λ p. p.now) pieces.now) }
    ensures partly { OnErr result (HasPartly out.old (flat_map (λ p. p.now) pieces.now) out.new) }
{
    for piece in pieces {
        put_bytes(out, piece)?;
    }
    Ok(())
}

/// Appends rules as a TOML table, a line for each key; where memory ends, a part of it from its
/// begin.
pub fn put_rules(out: &mut List<u8>, rules: &Rules) -> Result<(), Memory>
    ensures whole { OnOk result (out.new ≡ out.old ++ rules_text (values rules.now)) }
    ensures partly { OnErr result (HasPartly out.old (rules_text (values rules.now)) out.new) }
    ensures again { IsRules rules.now → rules_file (rules_text (values rules.now))
        ≡ Ok (values rules.now) }
{
    let base = rules.base.bytes();
    let (mut year, mut month) = (Buffer::new(), Buffer::new());
    let (mut offset, mut days_off) = (Buffer::new(), Buffer::new());
    let pieces = [
        b"base = \"".as_slice(),
        base.as_slice(),
        b"\"\nseat = \"".as_slice(),
        rules.seat.bytes(),
        b"\"\nyear = ".as_slice(),
        year.format(rules.horizon.year()).as_bytes(),
        b"\nmonth = ".as_slice(),
        month.format(rules.horizon.month()).as_bytes(),
        b"\noffset = ".as_slice(),
        offset.format(rules.horizon.offset()).as_bytes(),
        b"\ndays_off = ".as_slice(),
        days_off.format(rules.days_off).as_bytes(),
        b"\n".as_slice(),
    ];
    put_all(out, &pieces)
}
