//! What a judgement has found of heaviest lines, for questions that are asked again.
ghost use Rattle.std.specs.Prelude.{◌≡◌, ℤ, List as Sequence, true, slice_get, All, Contains, IfErr, IfNone, IfOk, IfSome};
ghost use Rattle.roster_model.specs.declared.problem.Problem.{Problem as Month};
ghost use Rattle.roster_model.specs.Lenses.{HasNoLine, IsBestWeight, IsLens};
ghost use Rattle.cert_checker.specs.Given.{IsQuestion};
ghost use Rattle.cert_checker.specs.Faults.{IsStepFault};
ghost use Rattle.cert_checker.specs.Bests.{IsShapeFault, IsWithin};
ghost use Rattle.cert_checker.specs.Recalls.{AsksAlone, IsAnswerTo, IsRight, IsRightAnswer, IsRightSheet, IsSheetOf, answer_of};

use crate::bests::heaviest_line;
use crate::guesses::guessed_bound;
use crate::noted::Noted;
use crate::refusal::StepFault;
use duty_calendar::{Copied, List, Memory};
use roster_model::{Goal, Lens, Line, Node, Problem};
use std::alloc::Global;

/// So many sheets are kept at most.
const MOST_SHEETS: usize = 256;

/// So many answers are kept on a sheet at most.
const MOST_ANSWERS: usize = 4096;

/// What a member's heaviest line weighs by a lens, under this floor of the member; nothing where no
/// line passes.
#[derive(Drop)]
pub(crate) struct Answer {
    member: u32,
    floor: Option<u32>,
    lens: Lens,
    best: Option<i64>,
}

/// Answers under the same weights.
#[derive(Drop)]
pub(crate) struct Sheet {
    weights: List<i64>,
    answers: List<Answer>,
}

/// So many lines are noted at most.
const MOST_NOTED: usize = 4096;

/// Answers that were found before in one judgement, and the heaviest lines that were found for
/// them, of which nothing is said.
#[derive(Drop)]
pub(crate) struct Recall {
    sheets: List<Sheet>,
    pub(crate) noted: List<Noted>,
}

impl Recall {
    /// No answers.
    pub(crate) fn new(alloc: Global) -> Recall
        ensures right { (problem : Month) → IsRight problem result }
    {
        Recall {
            sheets: List::new(alloc),
            noted: List::new(alloc),
        }
    }
}

/// Whether the goal asks nothing of the member but the floor that it has there, if it has one.
fn asks_alone(goal: &Goal, member: u32) -> bool
    ensures alone { result ≡ true → AsksAlone goal.now member (slice_get goal.now.floors member) }
{
    match goal.grant {
        None => true,
        Some(bid) => bid.member != member,
    }
}

/// The floor that the goal has for the member.
fn floor_of(goal: &Goal, member: u32) -> Option<u32>
    ensures floor { result ≡ slice_get goal.now.floors member }
{
    goal.floors.as_slice().get(member as usize).copied()
}

/// Whether both are the same weights.
fn are_same(some: &[i64], others: &[i64]) -> bool
    ensures same { result ≡ true → some.now ≡ others.now }
{
    some == others
}

/// Whether both are the same lens.
fn is_same(one: &Lens, other: &Lens) -> bool
    ensures same { result ≡ true → one.now ≡ other.now }
{
    one == other
}

/// Whether this is the answer for the member, under this floor, by this lens.
fn is_answer_to(answer: &Answer, member: u32, floor: Option<u32>, lens: &Lens) -> bool
    ensures answer { result ≡ true → IsAnswerTo answer.now member floor lens.now }
{
    answer.member == member && answer.floor == floor && is_same(&answer.lens, lens)
}

/// The answer for the member, under this floor, by this lens, if it is among these.
fn found(answers: &[Answer], member: u32, floor: Option<u32>, lens: &Lens) -> Option<Option<i64>>
    ensures kept { IfSome result (λ best.
        Contains answers.now (answer_of member floor lens.now best)) }
{
    for answer in answers {
        if is_answer_to(answer, member, floor, lens) {
            return Some(answer.best);
        }
    }
    None
}

/// The place of the sheet of these weights.
fn place_of(sheets: &[Sheet], weights: &[i64]) -> Option<usize>
    ensures sheet { IfSome result (IsSheetOf sheets.now weights.now) }
{
    for (place, sheet) in sheets.iter().enumerate() {
        if are_same(sheet.weights.as_slice(), weights) {
            return Some(place);
        }
    }
    None
}

/// The answer that was kept, if there is one.
fn recalled(
    sheets: &[Sheet],
    weights: &[i64],
    member: u32,
    floor: Option<u32>,
    lens: &Lens,
) -> Option<Option<i64>>
    ensures right { (problem : Month) → All (IsRightSheet problem) sheets.now
        → IfSome result (λ best.
        IsRightAnswer problem weights.now (answer_of member floor lens.now best)) }
{
    match place_of(sheets, weights) {
        None => None,
        Some(place) => found(sheets[place].answers.as_slice(), member, floor, lens),
    }
}

/// Adds an answer where there is room.
fn add(answers: &mut List<Answer>, answer: Answer) -> Result<(), Memory>
    ensures right { (problem : Month) (weights : Sequence ℤ)
        → All (IsRightAnswer problem weights) answers.old → IsRightAnswer problem weights answer
        → All (IsRightAnswer problem weights) answers.new }
{
    if answers.len() >= MOST_ANSWERS {
        return Ok(());
    }
    match answers.push(answer) {
        Ok(()) => Ok(()),
        Err(_) => Err(Memory::NoMemory),
    }
}

/// A sheet of these weights, with one answer.
fn sheet_of(alloc: Global, weights: &[i64], answer: Answer) -> Result<Sheet, Memory>
    ensures right { IfOk result (λ sheet. (problem : Month)
        → IsRightAnswer problem weights.now answer → IsRightSheet problem sheet) }
{
    let mut answers = List::new(alloc);
    add(&mut answers, answer)?;
    Ok(Sheet {
        weights: List::from_vec(Vec::from_slice(alloc, weights)?),
        answers,
    })
}

/// Adds a sheet. Where no more may be kept, all others are let go.
fn add_sheet(alloc: Global, sheets: &mut List<Sheet>, sheet: Sheet) -> Result<(), Memory>
    ensures right { (problem : Month) → All (IsRightSheet problem) sheets.old
        → IsRightSheet problem sheet → All (IsRightSheet problem) sheets.new }
{
    if sheets.len() >= MOST_SHEETS {
        *sheets = List::new(alloc);
    }
    match sheets.push(sheet) {
        Ok(()) => Ok(()),
        Err(_) => Err(Memory::NoMemory),
    }
}

/// Keeps an answer.
fn keep(
    alloc: Global,
    sheets: &mut List<Sheet>,
    weights: &[i64],
    answer: Answer,
) -> Result<(), Memory>
    ensures right { (problem : Month) → All (IsRightSheet problem) sheets.old
        → IsRightAnswer problem weights.now answer → All (IsRightSheet problem) sheets.new }
{
    match place_of(sheets.as_slice(), weights) {
        None => add_sheet(alloc, sheets, sheet_of(alloc, weights, answer)?),
        Some(place) => {
            let sheet = sheets.at_mut(place);
            add(&mut sheet.answers, answer)
        }
    }
}

/// Whether the line is noted of the member.
fn is_noted(noted: &[Noted], member: u32, line: &Line) -> bool {
    noted.iter().any(|it| it.member == member && it.line.pairings() == line.pairings())
}

/// Notes a line of the member where there is room.
pub(crate) fn note(noted: &mut List<Noted>, member: u32, line: Line) -> Result<(), Memory> {
    if noted.len() >= MOST_NOTED || is_noted(noted.as_slice(), member, &line) {
        return Ok(());
    }
    match noted.push(Noted { member, line }) {
        Ok(()) => Ok(()),
        Err(_) => Err(Memory::NoMemory),
    }
}

/// The greatest weight of the member's lines that pass the lens, or nothing where no line passes. The
/// line that weighs so much is noted.
fn noted_weight(
    alloc: Global,
    problem: &Problem,
    noted: &mut List<Noted>,
    member: u32,
    goal: &Goal,
    node: &Node,
    lens: &Lens,
    weights: &[i64],
) -> Result<Option<i64>, StepFault>
    requires asked { IsQuestion problem.now member goal.now node.now lens.now weights.now }
    requires shape { IsLens problem.now member lens.now }
    ensures best { IfOk result (λ answer. IfSome answer
        (IsBestWeight problem.now member goal.now node.now lens.now weights.now)) }
    ensures within { IfOk result (λ answer. IfSome answer (IsWithin 1288490188200)) }
    ensures none { IfOk result (λ answer. IfNone answer
        (HasNoLine problem.now member goal.now node.now lens.now)) }
    ensures fault { IfErr result (IsStepFault (IsShapeFault problem.now member lens.now)) }
{
    let guess = guessed_bound(problem, noted.as_slice(), member, goal, node, weights);
    match heaviest_line(alloc, problem, member, goal, node, lens, weights, guess)? {
        Some(priced) => {
            note(noted, member, priced.line)?;
            Ok(Some(priced.weight))
        }
        None => Ok(None),
    }
}

/// The greatest weight of the member's lines that pass the lens, or nothing where no line passes:
/// what was found before, where this was asked before, and else what is found now. Answers are kept
/// for the node without decisions alone, and where the goal's bid is not one of the member's.
pub(crate) fn recalled_weight(
    alloc: Global,
    problem: &Problem,
    recall: &mut Recall,
    member: u32,
    goal: &Goal,
    node: &Node,
    lens: &Lens,
    weights: &[i64],
) -> Result<Option<i64>, StepFault>
    requires asked { IsQuestion problem.now member goal.now node.now lens.now weights.now }
    requires shape { IsLens problem.now member lens.now }
    requires right { IsRight problem.now recall.old }
    ensures best { IfOk result (λ answer. IfSome answer
        (IsBestWeight problem.now member goal.now node.now lens.now weights.now)) }
    ensures within { IfOk result (λ answer. IfSome answer (IsWithin 1288490188200)) }
    ensures none { IfOk result (λ answer. IfNone answer
        (HasNoLine problem.now member goal.now node.now lens.now)) }
    ensures fault { IfErr result (IsStepFault (IsShapeFault problem.now member lens.now)) }
    ensures right { IsRight problem.now recall.new }
{
    if !node.is_empty() || !asks_alone(goal, member) {
        return noted_weight(
            alloc,
            problem,
            &mut recall.noted,
            member,
            goal,
            node,
            lens,
            weights,
        );
    }
    let floor = floor_of(goal, member);
    if let Some(best) = recalled(recall.sheets.as_slice(), weights, member, floor, lens) {
        return Ok(best);
    }
    let best = noted_weight(
        alloc,
        problem,
        &mut recall.noted,
        member,
        goal,
        node,
        lens,
        weights,
    )?;
    let answer = Answer {
        member,
        floor,
        lens: lens.copy(alloc)?,
        best,
    };
    keep(alloc, &mut recall.sheets, weights, answer)?;
    Ok(best)
}
