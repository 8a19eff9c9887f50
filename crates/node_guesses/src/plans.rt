//! Trees that close a goal by lenses that look at pairings one by one, where a few splits do (branch and bound, ahead of the
//! search).
ghost use Rattle.std.specs.Prelude.{◌≡◌};
ghost use Rattle.roster_model.specs.Goals.{IsGoal};

use crate::guess::{bounded_of, mixed_of};
use crate::guide::MixGuide;
use crate::pairs::branch_pair;
use closer_guide::Guess;
use duty_calendar::Memory;
use flat_search::{Board, Care, Pricing, number};
use line_mixes::{Kept, Mix};
use roster_guesses::{Effort, PLANNED, Priced, Relaxed, SPLITS, plainer, price, relax};
use roster_model::{Decision, Goal, Node, Problem};
use std::alloc::Global;

/// A guess at the node of so many decisions.
#[derive(Drop)]
pub(crate) struct Planned {
    pub depth: usize,
    pub guess: Guess,
}

/// What a plan says of a node.
#[derive(Drop)]
enum Planning {
    /// The decisions alone close it.
    Decided,
    /// This closes it.
    Leaf(Guess),
    /// This leaves it open, and it is split by a decision.
    Split(Guess, Decision),
    /// Nothing was found.
    Lost,
}

/// Whether there is a node to go on with.
#[derive(Clone, Copy)]
enum Going {
    On,
    Done,
    Lost,
}

/// A tree that grows node by node: the next node, the guesses so far, and how many more nodes may be split.
#[derive(Drop)]
struct Tree {
    node: Node,
    plan: Vec<Planned>,
    splits: usize,
}

impl Tree {
    /// The empty node alone.
    fn new(alloc: Global) -> Tree {
        Tree {
            node: Node::new(alloc),
            plan: Vec::new(alloc),
            splits: SPLITS,
        }
    }

    /// The guesses, the first one last.
    fn planned(self) -> Vec<Planned> {
        let mut plan = self.plan;
        plan.reverse();
        plan
    }

    /// Adds a guess at the node.
    fn push(&mut self, guess: Guess) -> Result<(), Memory> {
        let depth = self.node.len();
        self.plan.push(Planned { depth, guess })?;
        Ok(())
    }

    /// Leaves the node, which is closed.
    fn turn(&mut self) -> Going {
        if self.node.turn() {
            Going::On
        } else {
            Going::Done
        }
    }

    /// Adds what there is to say of the node.
    fn add(&mut self, planning: Planning) -> Result<Going, Memory> {
        match planning {
            Planning::Decided => Ok(self.turn()),
            Planning::Leaf(guess) => {
                self.push(guess)?;
                Ok(self.turn())
            }
            Planning::Split(guess, decision) => {
                self.push(guess)?;
                if self.splits == 0 || self.node.decide(decision).is_err() {
                    return Ok(Going::Lost);
                }
                self.splits = self.splits.saturating_sub(1);
                Ok(Going::On)
            }
            Planning::Lost => Ok(Going::Lost),
        }
    }
}

/// Drops what is planned for nodes of more decisions, which are below one that was closed without it.
fn drop_deeper(plan: &mut Vec<Planned>, depth: usize) {
    for _ in 0..plan.len() {
        match plan.last() {
            Some(next) if next.depth > depth => {}
            _ => return,
        }
        plan.pop();
    }
}

/// Takes the guess that is planned for the next node, of so many decisions; none where that is below a node whose guess did not
/// serve.
pub(crate) fn next_planned(plan: &mut Vec<Planned>, depth: usize) -> Option<Guess> {
    drop_deeper(plan, depth);
    match plan.last() {
        Some(next) if next.depth == depth => {}
        _ => return None,
    }
    Some(plan.pop()?.guess)
}

/// Whether the guess needs a lens that looks at whole lines.
pub(crate) fn looks_at_lines(guess: &Guess) -> bool {
    match guess {
        Guess::Bounded(leaf) => leaf.lenses.as_slice().iter().any(|lens| lens.whole),
        Guess::NoLine(_, lens) => lens.whole,
        Guess::Whole(_) | Guess::Mixed(_) | Guess::Nothing => false,
    }
}

/// Whether all of the member is decided, and that does not serve.
fn is_misfit(
    alloc: Global,
    problem: &Problem,
    kept: &mut Kept,
    goal: &Goal,
    board: &Board,
    member: usize,
) -> Result<bool, Memory>
    requires goal { IsGoal problem.now goal.now }
{
    let pairings = problem.base.pairings.len();
    let row = board.row(member);
    if !row.is_whole(pairings) {
        return Ok(false);
    }
    let weights = vec![in alloc; 0i64; pairings]?;
    let asked = Pricing {
        member,
        goal,
        row: &row,
        weights: &weights,
        over: -1,
    };
    match price(alloc, problem, kept, asked, Care::Fine)? {
        Priced::Line(place, _) => match kept.profile(member, place) {
            Some(profile) => Ok(!profile.serves(goal, member)),
            None => Ok(false),
        },
        Priced::Nothing(_) => Ok(true),
        Priced::Unknown => Ok(false),
    }
}

/// Whether crews or decided lines close the node.
pub(crate) fn is_decided(
    alloc: Global,
    problem: &Problem,
    kept: &mut Kept,
    goal: &Goal,
    board: &Board,
) -> Result<bool, Memory>
    requires goal { IsGoal problem.now goal.now }
{
    if board.has_miscrewed(problem) {
        return Ok(true);
    }
    for member in 0..problem.base.members.len() {
        if is_misfit(alloc, problem, kept, goal, board, member)? {
            return Ok(true);
        }
    }
    Ok(false)
}

/// The guess at a node that the mix leaves open, and the decision by which it is split.
pub(crate) fn fork(
    alloc: Global,
    problem: &Problem,
    kept: &Kept,
    goal: &Goal,
    board: &Board,
    mix: &Mix,
    blame: &[u32],
) -> Result<Option<(Guess, Decision)>, Memory> {
    let pair = branch_pair(alloc, problem, kept, goal, board, mix, blame)?;
    let Some((member, pairing)) = pair else {
        return Ok(None);
    };
    let decision = Decision {
        member: number(member),
        pairing: number(pairing),
        flies: true,
    };
    let mixed = mixed_of(alloc, problem, kept, mix, pair)?;
    Ok(Some((Guess::Mixed(mixed), decision)))
}

impl MixGuide {
    /// The split of a node that the mix leaves open.
    fn split(
        &mut self,
        alloc: Global,
        problem: &Problem,
        goal: &Goal,
        board: &Board,
        mix: Mix,
    ) -> Result<Planning, Memory> {
        let fork = fork(alloc, problem, &self.finder.kept, goal, board, &mix, &[])?;
        self.mixes.push(mix)?;
        Ok(match fork {
            Some((guess, decision)) => Planning::Split(guess, decision),
            None => Planning::Lost,
        })
    }

    /// What lenses that look at pairings one by one say of the node.
    fn planned(
        &mut self,
        alloc: Global,
        problem: &Problem,
        goal: &Goal,
        board: &Board,
        depth: usize,
    ) -> Result<Planning, Memory>
        requires goal { IsGoal problem.now goal.now }
    {
        self.mixes.truncate(depth);
        let kept = &mut self.finder.kept;
        if is_decided(alloc, problem, kept, goal, board)? {
            return Ok(Planning::Decided);
        }
        let warm = self.mixes.last();
        let relaxed = relax(alloc, problem, kept, goal, board, warm, Effort::planned())?;
        let mix = match relaxed {
            Relaxed::Open(mix) => mix,
            Relaxed::Bounded(leaf) => {
                let leaf = plainer(alloc, problem, kept, goal, board, leaf)?;
                return Ok(Planning::Leaf(Guess::Bounded(bounded_of(alloc, leaf))));
            }
            Relaxed::NoLine(member, lens) => {
                return Ok(Planning::Leaf(Guess::NoLine(member, lens)));
            }
            Relaxed::Miscrewed | Relaxed::Unknown => return Ok(Planning::Lost),
        };
        self.split(alloc, problem, goal, board, mix)
    }

    /// What there is to say of the nodes of a tree that closes the goal by lenses that look at pairings one by one, the
    /// root's last; nothing where none was found that is small.
    pub(crate) fn plan(
        &mut self,
        alloc: Global,
        problem: &Problem,
        goal: &Goal,
    ) -> Result<Vec<Planned>, Memory>
        requires goal { IsGoal problem.now goal.now }
    {
        let mut tree = Tree::new(alloc);
        for _ in 0..PLANNED {
            let board = Board::of(alloc, problem, &tree.node)?;
            let planning = self.planned(alloc, problem, goal, &board, tree.node.len())?;
            match tree.add(planning)? {
                Going::On => {}
                Going::Done => return Ok(tree.planned()),
                Going::Lost => return Ok(Vec::new(alloc)),
            }
        }
        Ok(Vec::new(alloc))
    }
}
