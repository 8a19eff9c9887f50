//! Printing a roster's text.
ghost use Rattle.std.specs.Prelude.{◌≡◌, ◌++◌, ◌<◌, ◌≤◌, IfOk, OnOk, All, true, length};
ghost use Rattle.std.specs.List.{flat_map};
ghost use Rattle.roster_model.specs.Ascending.{is_ascending};
ghost use Rattle.roster_text.specs.NameReading.{spaced_name};
ghost use Rattle.roster_text.specs.RosterText.{pairing_name, member_name, names_text, sums_text, row_text, rows_text, roster_text, longest_text, Lines, IsRoster, IsTextOf};

use bid_score::{credit, score};
use duty_calendar::{List, Memory};
use field_text::{put_bytes, put_minutes, put_number};
use roster_model::{Line, Problem, Roster};
use std::alloc::Global;

/// Appends the name of a pairing.
fn put_name(out: &mut List<u8>, problem: &Problem, pairing: u32) -> Result<(), Memory>
    requires in_range { pairing < length problem.now.base.pairings }
    ensures whole { OnOk result (out.new ≡ out.old ++ pairing_name problem.now pairing) }
{
    let name = &problem.base.pairings.as_slice()[pairing as usize].name;
    put_bytes(out, name.bytes())
}

/// Appends a space and the name of a pairing.
fn put_spaced(out: &mut List<u8>, problem: &Problem, pairing: u32) -> Result<(), Memory>
    requires in_range { pairing < length problem.now.base.pairings }
    ensures whole { OnOk result (out.new ≡ out.old ++ spaced_name problem.now pairing) }
{
    put_bytes(out, b" ")?;
    put_name(out, problem, pairing)
}

/// Appends the names of pairings, each behind a space.
fn put_others(out: &mut List<u8>, problem: &Problem, line: &[u32]) -> Result<(), Memory>
    requires in_range { All (λ p. p < length problem.now.base.pairings) line.now }
    ensures whole { OnOk result (out.new ≡ out.old ++ flat_map (spaced_name problem.now) line.now) }
{
    for pairing in line {
        put_spaced(out, problem, *pairing)?;
    }
    Ok(())
}

/// Appends the names of the pairings of a line.
#[tactic(auto, using(crate::proofs::Printed::names_put))]
fn put_names(out: &mut List<u8>, problem: &Problem, line: &[u32]) -> Result<(), Memory>
    requires in_range { All (λ p. p < length problem.now.base.pairings) line.now }
    ensures whole { OnOk result (out.new ≡ out.old ++ names_text problem.now line.now) }
{
    let Some((first, others)) = line.split_first() else {
        return Ok(());
    };
    put_name(out, problem, *first)?;
    put_others(out, problem, others)
}

/// Appends a line's credit and score as they stand in its row, and the line feed.
#[tactic(auto, unfolding(crate::specs::RosterText::sums_text))]
pub fn put_sums(
    out: &mut List<u8>,
    problem: &Problem,
    member: u32,
    line: &Line,
) -> Result<(), Memory>
    requires member { member < length problem.now.base.members }
    requires in_range { All (λ p. p < length problem.now.base.pairings) line.now }
    ensures whole { OnOk result (out.new ≡ out.old ++ sums_text problem.now member line.now) }
{
    put_minutes(out, credit(problem, member, line))?;
    put_bytes(out, b",")?;
    put_number(out, score(problem, member, line))?;
    put_bytes(out, b"\n")
}

/// Appends the name of a member.
pub fn put_member(out: &mut List<u8>, problem: &Problem, member: u32) -> Result<(), Memory>
    requires member { member < length problem.now.base.members }
    ensures whole { OnOk result (out.new ≡ out.old ++ member_name problem.now member) }
{
    let name = &problem.base.members.as_slice()[member as usize].name;
    put_bytes(out, name.bytes())
}

/// Appends the row of a member.
fn put_row(out: &mut List<u8>, problem: &Problem, member: u32, line: &Line) -> Result<(), Memory>
    requires member { member < length problem.now.base.members }
    requires in_range { All (λ p. p < length problem.now.base.pairings) line.now }
    ensures whole { OnOk result (out.new ≡ out.old ++ row_text problem.now member line.now) }
{
    put_member(out, problem, member)?;
    put_bytes(out, b",")?;
    put_names(out, problem, line.pairings())?;
    put_bytes(out, b",")?;
    put_sums(out, problem, member, line)
}

/// Appends the rows of all members.
fn put_rows(out: &mut List<u8>, problem: &Problem, roster: &Roster) -> Result<(), Memory>
    requires lines { length roster.now ≡ length problem.now.base.members }
    requires in_range { All (All (λ p. p < length problem.now.base.pairings)) roster.now }
    ensures whole { OnOk result (out.new ≡ out.old ++ rows_text problem.now 0 roster.now) }
{
    for member in 0..problem.base.members.len() as u32 {
        put_row(out, problem, member, &roster.as_slice()[member as usize])?;
    }
    Ok(())
}

/// That the lines of a roster ascend: seen line by line.
fn lines_ascend(roster: &Roster)
    ensures ascending { All (λ line. is_ascending line ≡ true) roster.now }
{
    for line in roster.as_slice() {
        let _pairings = line.pairings();
    }
}

/// Appends the header and the rows.
#[tactic(auto, using(crate::proofs::Printed::is_roster))]
fn put_roster(out: &mut List<u8>, problem: &Problem, roster: &Roster) -> Result<(), Memory>
    requires lines { length roster.now ≡ length problem.now.base.members }
    requires in_range { All (All (λ p. p < length problem.now.base.pairings)) roster.now }
    ensures whole { OnOk result (out.new ≡ out.old ++ roster_text problem.now roster.now) }
    ensures valid { IsRoster problem.now roster.now }
{
    lines_ascend(roster);
    put_bytes(out, b"member,pairings,credit,score\n")?;
    put_rows(out, problem, roster)
}

/// The text of a roster, which `read_roster` reads as the roster, and as no other.
pub fn print_roster(alloc: Global, problem: &Problem, roster: &Roster) -> Result<List<u8>, Memory>
    requires lines { length roster.now ≡ length problem.now.base.members }
    requires in_range { All (All (λ p. p < length problem.now.base.pairings)) roster.now }
    ensures whole { IfOk result (λ text. text ≡ roster_text problem.now roster.now) }
    ensures valid { IsRoster problem.now roster.now }
    ensures again { IfOk result (λ text.
        (r : Lines) → IsTextOf problem.now text r → r ≡ roster.now) }
    ensures short { IfOk result (λ text. length text ≤ longest_text) }
{
    let mut out = List::new(alloc);
    put_roster(&mut out, problem, roster)?;
    Ok(out)
}
