//! Legal lines of a member above a bound, by a ladder of lenses (pricing: columns of negative reduced cost, by relaxations of the
//! pricing problem that are refined where they are broken).
ghost use Rattle.std.specs.Prelude.{◌≡◌};
ghost use Rattle.roster_model.specs.Goals.{IsGoal};

use crate::flat_pricing::{is_flat, price_flat};
use crate::limits::{BRIEF, CLOSE, RUNGS};
use crate::tested::row_over;
use duty_calendar::Memory;
use flat_search::{Care, Pricing, first_lens, is_large, lately, make_finer, number, refine};
use line_generator::{Over, PricedLine};
use line_mixes::Kept;
use roster_model::{Lens, Problem};
use std::alloc::Global;

/// What is found above a bound.
#[derive(Drop)]
pub enum Priced {
    /// The number of a kept line, and what it weighs.
    Line(usize, i64),
    /// No line passes this lens.
    Nothing(Lens),
    /// A search ran out of steps.
    Unknown,
}

/// What becomes of a line that was found: its number, if it is kept, with what it weighs; and whether the ladder ends with it.
#[derive(Drop)]
struct Looked {
    found: Option<Priced>,
    is_last: bool,
}

/// Lets the lens look at the rule that the line breaks, or more closely at credit where the line is legal and misses the
/// goal. Tells whether it did not before; none where the line is to serve.
fn sharpen(kept: &Kept, asked: Pricing, care: Care, lens: &mut Lens, place: usize) -> Option<bool> {
    let profile = kept.profile(asked.member, place)?;
    match profile.broken {
        Some(why) => Some(refine(lens, why)),
        None if profile.may_serve(asked.goal, asked.member, care) => None,
        None => Some(make_finer(&mut lens.grain)),
    }
}

/// Keeps a line that was found. Answers that it is to serve, or lets the lens look at why it is not; the member's searches
/// begin with what the lens saw lately from then on, or with the first one where it can't see more.
fn look(
    alloc: Global,
    problem: &Problem,
    kept: &mut Kept,
    asked: Pricing,
    care: Care,
    lens: &mut Lens,
    priced: PricedLine,
) -> Result<Looked, Memory> {
    let member = asked.member;
    let Some(place) = kept.keep(alloc, problem, member, priced.line)? else {
        return Ok(Looked {
            found: None,
            is_last: true,
        });
    };
    let found = Some(Priced::Line(place, priced.weight));
    let Some(is_finer) = sharpen(kept, asked, care, lens, place) else {
        return Ok(Looked {
            found,
            is_last: true,
        });
    };
    if is_finer {
        kept.look_through(member, lately(alloc, lens)?);
    } else {
        kept.look_through(member, first_lens(alloc, problem, member));
    }
    Ok(Looked {
        found,
        is_last: !is_finer,
    })
}

/// Remembers that the member has no line above the bound by the lens, where that is about a root.
fn note(
    alloc: Global,
    kept: &mut Kept,
    asked: Pricing,
    care: Care,
    lens: &Lens,
) -> Result<(), Memory> {
    if care == Care::Fine && asked.row.is_empty() {
        let (weights, over) = (asked.weights, asked.over);
        kept.keep_barren(alloc, asked.member, asked.goal, weights, over, lens)?;
    }
    Ok(())
}

/// A lens by which it is known that the member has no line above the bound, if there is one.
fn known_lens(
    alloc: Global,
    kept: &Kept,
    asked: Pricing,
    care: Care,
) -> Result<Option<Lens>, Memory> {
    if care == Care::Plain {
        return Ok(None);
    }
    let known = kept.barren(alloc, asked.member, asked.goal, asked.weights)?;
    let Some((over, lens)) = known else {
        return Ok(None);
    };
    Ok(if over <= asked.over { Some(lens) } else { None })
}

/// How many steps a search with this care may take.
fn most_steps(problem: &Problem, care: Care) -> u64 {
    if care == Care::Fine && is_large(problem) {
        CLOSE
    } else {
        care.steps()
    }
}

/// As `price`, by a ladder that begins with this lens, each search with so many steps.
fn price_from(
    alloc: Global,
    problem: &Problem,
    kept: &mut Kept,
    asked: Pricing,
    care: Care,
    lens: Lens,
    steps: u64,
) -> Result<Priced, Memory>
    requires goal { IsGoal problem.now asked.goal.now }
{
    let member = asked.member;
    let mut lens = lens;
    care.adjust(problem, member, asked.goal, &mut lens);
    let most = most_steps(problem, care);
    let steps = if lens.whole { most } else { steps };
    let mut found = Priced::Unknown;
    for _ in 0..RUNGS {
        let priced = match row_over(alloc, problem, asked, &lens, steps)? {
            Over::Line(priced) => priced,
            Over::Nothing => {
                note(alloc, kept, asked, care, &lens)?;
                return Ok(Priced::Nothing(lens));
            }
            Over::Limit if steps < most => return Ok(Priced::Unknown),
            Over::Limit => {
                kept.look_through(member, first_lens(alloc, problem, member));
                return Ok(found);
            }
        };
        let Looked {
            found: next,
            is_last,
        } = look(alloc, problem, kept, asked, care, &mut lens, priced)?;
        if let Some(next) = next {
            found = next;
        }
        if is_last {
            return Ok(found);
        }
    }
    Ok(found)
}

/// A legal line of the member above the bound, or that none passes a lens. Where searches for a legal one run out of
/// steps, an illegal one may be answered. The ladder begins with the lens that sees the rules which lines broke before.
pub fn price(
    alloc: Global,
    problem: &Problem,
    kept: &mut Kept,
    asked: Pricing,
    care: Care,
) -> Result<Priced, Memory>
    requires goal { IsGoal problem.now asked.goal.now }
{
    if let Some(lens) = known_lens(alloc, kept, asked, care)? {
        return Ok(Priced::Nothing(lens));
    }
    if care == Care::Rough && is_flat(problem, kept, asked) {
        return price_flat(alloc, problem, kept, asked);
    }
    let lens = kept.lens(alloc, problem, asked.member)?;
    let steps = most_steps(problem, care);
    price_from(alloc, problem, kept, asked, care, lens, steps)
}

/// As `price`, with few steps where lenses look at pairings one by one, and no answer where these do not suffice.
pub(crate) fn price_briefly(
    alloc: Global,
    problem: &Problem,
    kept: &mut Kept,
    asked: Pricing,
    care: Care,
) -> Result<Priced, Memory>
    requires goal { IsGoal problem.now asked.goal.now }
{
    if let Some(lens) = known_lens(alloc, kept, asked, care)? {
        return Ok(Priced::Nothing(lens));
    }
    let lens = kept.lens(alloc, problem, asked.member)?;
    price_from(alloc, problem, kept, asked, care, lens, BRIEF)
}

/// As `price`, by a ladder that begins with the first lens, so that the last one sees no more than it has to. Other
/// searches of the member begin as before.
pub(crate) fn price_afresh(
    alloc: Global,
    problem: &Problem,
    kept: &mut Kept,
    asked: Pricing,
    care: Care,
) -> Result<Priced, Memory>
    requires goal { IsGoal problem.now asked.goal.now }
{
    if care == Care::Rough && is_flat(problem, kept, asked) {
        return price_flat(alloc, problem, kept, asked);
    }
    let member = asked.member;
    let before = kept.lens(alloc, problem, member)?;
    let lens = first_lens(alloc, problem, member);
    let steps = most_steps(problem, care);
    let priced = price_from(alloc, problem, kept, asked, care, lens, steps)?;
    kept.look_through(member, before);
    Ok(priced)
}
