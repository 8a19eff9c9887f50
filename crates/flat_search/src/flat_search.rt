//! Flat searches for guesses: a line of a member above a bound (of negative reduced cost), of the pairings alone that a row leaves
//! open. A line that is found was tested; that none is found proves nothing.

use crate::board::Row;
use crate::care::Care;
use crate::course::{Bids, Course};
use crate::labels::{Climb, Label};
use crate::ladder::lately;
use crate::pairings::PairingSet;
use crate::prepared::{Courses, Prepared};
use crate::profiles::{Profile, look_at, number};
use crate::sheets::Sheet;
use crate::sizes::{MOST_STATES, MOST_TESTS, MOST_WINDOWS, STAGES, Stage};
use crate::trail::Trail;
use duty_calendar::{List, Memory};
use line_legality::Illegal;
use roster_model::{Goal, Lens, Line, Problem, Window, WindowKind};
use std::alloc::Global;

/// What is asked of a member: a line that obeys the row, may serve the goal, and weighs more than a bound under weights (the dual
/// prices of the pairings), so that its reduced cost is negative.
#[derive(Clone, Copy)]
pub struct Pricing<'a> {
    pub member: usize,
    pub goal: &'a Goal,
    pub row: &'a Row,
    pub weights: &'a [i64],
    pub over: i64,
}

/// A line that was found, what it weighs, and what is known of it.
#[derive(Drop)]
pub struct FlatLine {
    pub line: Line,
    pub weight: i64,
    pub profile: Profile,
}

/// What a flat search comes to: a line, nothing, or no answer.
#[derive(Drop)]
pub enum Found {
    Line(FlatLine),
    Nothing,
    Limit,
}

/// The line of these pairings.
fn line_of(alloc: Global, problem: &Problem, set: &PairingSet) -> Result<Option<Line>, Memory> {
    let mut pairings: Vec<u32> = Vec::new(alloc);
    for pairing in 0..problem.base.pairings.len() {
        if set.contains(pairing) {
            pairings.push(number(pairing))?;
        }
    }
    Ok(Line::new(List::from_vec(pairings)))
}

/// The window of a rule that a line broke.
fn window_of(why: Illegal) -> Option<Window> {
    let (kind, start) = match why {
        Illegal::Flight672(start) => (WindowKind::Flight672, start),
        Illegal::Duty672(start) => (WindowKind::Duty672, start),
        Illegal::Duty168(start) => (WindowKind::Duty168, start),
        Illegal::Flight365(start) => (WindowKind::Flight365, start),
        _ => return None,
    };
    Some(Window { kind, start })
}

/// Whether a line is to be answered: it may serve, or breaks a rule in a window that the lens may look at next.
fn is_answer(profile: &Profile, asked: &Pricing, lens: &Lens) -> bool {
    let Some(why) = profile.broken else {
        return profile.may_serve(asked.goal, asked.member, Care::Rough);
    };
    match window_of(why) {
        Some(window) => {
            lens.windows.len() < MOST_WINDOWS && !lens.windows.as_slice().contains(&window)
        }
        None => false,
    }
}

/// What flat searches are about: what is asked of whom, by which lens, and what is known of the member's lines.
#[derive(Clone, Copy)]
struct Scene<'a> {
    problem: &'a Problem,
    known: &'a [Profile],
    sheet: &'a Sheet,
    asked: &'a Pricing<'a>,
    lens: &'a Lens,
}

/// A flat search over a course.
#[derive(Clone, Copy)]
struct Search<'a> {
    scene: Scene<'a>,
    climb: Climb<'a>,
}

impl Scene<'_> {
    /// Tests the line of a label; none where it is not to be answered.
    fn tested(
        &self,
        alloc: Global,
        trail: &Trail,
        label: &Label,
    ) -> Result<Option<FlatLine>, Memory> {
        let Some(line) = line_of(alloc, self.problem, &trail.pairings(label))? else {
            return Ok(None);
        };
        let member = self.asked.member;
        let profile = look_at(alloc, self.problem, member, self.known, &line)?;
        if !is_answer(&profile, self.asked, self.lens) {
            return Ok(None);
        }
        Ok(Some(FlatLine {
            line,
            weight: label.gain,
            profile,
        }))
    }
}

impl Search<'_> {
    /// Goes on from a label: the better of what comes of it is next, the other waits.
    fn extend(&self, trail: &mut Trail, label: &Label) -> Result<Option<Label>, Memory> {
        if !trail.enter(&self.climb, label)? {
            return Ok(None);
        }
        let passed = self.climb.passed(label);
        let Some(mut taken) = self.climb.taken(label) else {
            return Ok(passed);
        };
        if let Some(place) = self.climb.course.places.get(label.place) {
            trail.take(&mut taken, place.flight.pairing)?;
        }
        match passed {
            Some(passed) if passed.best > taken.best => {
                trail.wait(taken)?;
                Ok(Some(passed))
            }
            Some(passed) => {
                trail.wait(passed)?;
                Ok(Some(taken))
            }
            None => Ok(Some(taken)),
        }
    }

    /// Goes on from label to label, so many, depth first.
    fn climbed(&self, alloc: Global, steps: u64) -> Result<Found, Memory> {
        let mut trail = Trail::new(alloc, self.climb.course.places.len())?;
        let mut turn = self.climb.rated(Label::first(self.climb.course));
        let mut tests: u32 = 0;
        for _ in 0..steps {
            if turn.is_none() {
                turn = trail.next();
            }
            let Some(label) = turn else {
                return Ok(Found::Nothing);
            };
            if !self.climb.is_at_end(&label) {
                turn = self.extend(&mut trail, &label)?;
                continue;
            }
            turn = None;
            if !self.climb.is_done(&label) {
                continue;
            }
            if label.credit < self.climb.course.low {
                return Ok(Found::Limit);
            }
            if let Some(found) = self.scene.tested(alloc, &trail, &label)? {
                return Ok(Found::Line(found));
            }
            tests = tests.saturating_add(1);
            if tests >= MOST_TESTS {
                return Ok(Found::Limit);
            }
        }
        Ok(Found::Limit)
    }
}

/// How many bids a table over so many places may tell apart.
fn most_bids(places: usize) -> usize {
    let states = MOST_STATES.checked_div(places).unwrap_or(1).max(1);
    63u32.saturating_sub(states.leading_zeros()) as usize
}

/// The search over a course by a table of bids, with so many steps, for lines with a least credit.
fn climbed_by<'a>(
    alloc: Global,
    scene: Scene<'a>,
    course: &'a Course,
    bids: &'a Bids,
    low: u32,
    steps: u64,
) -> Result<Found, Memory> {
    let climb = Climb {
        course,
        sheet: scene.sheet,
        bids,
        low,
        over: scene.asked.over,
    };
    Search { scene, climb }.climbed(alloc, steps)
}

/// The search by a table of bids, in turns: from the second stage on first with no least credit, by which many labels let others go.
/// Where no line is found so, there is none.
fn climbed_in_turns<'a>(
    alloc: Global,
    scene: Scene<'a>,
    course: &'a Course,
    bids: &'a Bids,
    stage: Stage,
    number: usize,
) -> Result<Found, Memory> {
    if number > 0 {
        match climbed_by(alloc, scene, course, bids, 0, stage.steps)? {
            Found::Limit => {}
            found => return Ok(found),
        }
    }
    climbed_by(alloc, scene, course, bids, course.low, stage.steps)
}

/// Searches a course stage by stage, each with a stronger table of bids, and from the second on with that of free hours.
fn staged(alloc: Global, scene: Scene, course: &mut Course) -> Result<Found, Memory> {
    let all = course.weights.len();
    for (number, stage) in STAGES.iter().enumerate() {
        let bids = stage.bids.min(all).min(most_bids(course.len()));
        let table = course.bids(alloc, bids)?;
        if number > 0 {
            course.look_at_free_hours();
        }
        match climbed_in_turns(alloc, scene, course, &table, *stage, number)? {
            Found::Limit if number == 0 || bids < all => {}
            found => return Ok(found),
        }
    }
    Ok(Found::Limit)
}

/// The course of what is asked, with the windows of a lens: that of the last search, where that serves; none where there is no
/// line.
fn course_for(
    alloc: Global,
    problem: &Problem,
    courses: &mut Courses,
    asked: &Pricing,
    lens: &Lens,
) -> Result<Option<Prepared>, Memory> {
    let (member, goal, row) = (asked.member, asked.goal, asked.row);
    if let Some(last) = courses.take(member) {
        if last.serves(member, goal, row, lens) {
            return Ok(Some(last));
        }
    }
    let Some(sheet) = courses.sheet(member) else {
        return Ok(None);
    };
    match Course::new(alloc, problem, sheet, member, goal, row, lens)? {
        Some(course) => Ok(Some(Prepared::new(alloc, member, goal, row, lens, course)?)),
        None => Ok(None),
    }
}

/// Searches a course for what is asked.
fn searched<'a>(
    alloc: Global,
    problem: &'a Problem,
    courses: &'a Courses,
    known: &'a [Profile],
    asked: &'a Pricing<'a>,
    lens: &'a Lens,
    course: &mut Course,
) -> Result<Found, Memory> {
    let Some(sheet) = courses.sheet(asked.member) else {
        return Ok(Found::Limit);
    };
    let scene = Scene {
        problem,
        known,
        sheet,
        asked,
        lens,
    };
    staged(alloc, scene, course)
}

/// A line of the member above the bound that obeys the row and may serve the goal, or one that breaks a rule in a window which
/// the lens may look at next. Of some of the member's lines this is known.
pub fn flat_over(
    alloc: Global,
    problem: &Problem,
    courses: &mut Courses,
    known: &[Profile],
    asked: &Pricing,
    lens: &Lens,
) -> Result<Found, Memory> {
    let few = lately(alloc, lens)?;
    let Some(mut prepared) = course_for(alloc, problem, courses, asked, &few)? else {
        return Ok(Found::Nothing);
    };
    prepared.course.gain(asked.weights);
    let course = &mut prepared.course;
    let found = searched(
        alloc, &*problem, &*courses, &*known, &*asked, &*lens, course,
    )?;
    courses.keep(asked.member, prepared);
    Ok(found)
}
