//! Which lines a judgement has found legal, for lines that are asked of again.
ghost use Rattle.std.specs.Prelude.{◌≡◌, ◌<◌, true, length, All, Contains, IfOk};
ghost use Rattle.roster_model.specs.declared.problem.Problem.{Problem as Month};
ghost use Rattle.roster_model.specs.Legality.{IsLegal};
ghost use Rattle.cert_checker.specs.Reasons.{Decides};
ghost use Rattle.cert_checker.specs.Legals.{AreLegalLines, IsLegalLine, IsLineOf, legal_line};

use duty_calendar::{Copied, List, Memory};
use line_legality::{Illegal, legal};
use roster_model::{Line, Problem};
use std::alloc::Global;

/// So many lines are kept at most.
const MOST_LINES: usize = 4096;

/// A line that is legal for the member.
#[derive(Drop)]
pub(crate) struct LegalLine {
    member: u32,
    line: Line,
}

/// Lines that were found legal before in one judgement.
#[derive(Drop)]
pub(crate) struct Legals {
    lines: List<LegalLine>,
}

impl Legals {
    /// No lines.
    pub(crate) fn new(alloc: Global) -> Legals
        ensures legal { (problem : Month) → AreLegalLines problem result }
    {
        Legals {
            lines: List::new(alloc),
        }
    }
}

/// Whether both are the same pairings.
fn are_same(some: &[u32], others: &[u32]) -> bool
    ensures same { result ≡ true → some.now ≡ others.now }
{
    some == others
}

/// Whether this is the line, of this member.
fn is_line_of(kept: &LegalLine, member: u32, line: &Line) -> bool
    ensures line { result ≡ true → IsLineOf kept.now member line.now }
{
    kept.member == member && are_same(kept.line.pairings(), line.pairings())
}

/// Whether the line is among those that are kept, with this member.
fn found(lines: &[LegalLine], member: u32, line: &Line) -> bool
    ensures kept { result ≡ true → Contains lines.now (legal_line member line.now) }
{
    for kept in lines {
        if is_line_of(kept, member, line) {
            return true;
        }
    }
    false
}

/// Whether the line is legal for the member, by all its rules.
fn is_lawful(alloc: Global, problem: &Problem, member: u32, line: &Line) -> Result<bool, Memory>
    requires member { member < length problem.now.base.members }
    requires pairings { All (λ p. p < length problem.now.base.pairings) line.now }
    ensures legal { IfOk result (Decides (IsLegal problem.now member line.now)) }
{
    match legal(alloc, problem, member, line) {
        Ok(()) => Ok(true),
        Err(Illegal::NoMemory) => Err(Memory::NoMemory),
        Err(_) => Ok(false),
    }
}

/// Keeps a line where there is room.
fn keep(alloc: Global, lines: &mut List<LegalLine>, member: u32, line: &Line) -> Result<(), Memory>
    ensures legal { (problem : Month) → All (IsLegalLine problem) lines.old
        → IsLegal problem member line.now → All (IsLegalLine problem) lines.new }
{
    if lines.len() >= MOST_LINES {
        return Ok(());
    }
    let line = line.copy(alloc)?;
    match lines.push(LegalLine { member, line }) {
        Ok(()) => Ok(()),
        Err(_) => Err(Memory::NoMemory),
    }
}

/// Whether the line is legal for the member: what was found before, where the line was found legal
/// before, and else what is found now.
pub(crate) fn is_legal(
    alloc: Global,
    problem: &Problem,
    legals: &mut Legals,
    member: u32,
    line: &Line,
) -> Result<bool, Memory>
    requires member { member < length problem.now.base.members }
    requires pairings { All (λ p. p < length problem.now.base.pairings) line.now }
    requires right { AreLegalLines problem.now legals.old }
    ensures legal { IfOk result (Decides (IsLegal problem.now member line.now)) }
    ensures right { AreLegalLines problem.now legals.new }
{
    if found(legals.lines.as_slice(), member, line) {
        return Ok(true);
    }
    if !is_lawful(alloc, problem, member, line)? {
        return Ok(false);
    }
    keep(alloc, &mut legals.lines, member, line)?;
    Ok(true)
}
