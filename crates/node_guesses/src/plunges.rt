//! Plunges: the tree of a goal in a large month, walked ahead of the search (branch and price, depth first, back to the reasons of
//! each conflict). Nodes are opened by kept lines alone, and lines are searched for where these are short. Where a roster lies on the
//! way, no node is counted; else the search goes the same way, by what was found.
ghost use Rattle.std.specs.Prelude.{◌≡◌};
ghost use Rattle.roster_model.specs.Goals.{IsGoal};

use crate::conflicts::{count_kept, decided_reasons};
use crate::guess::mixed_of;
use crate::guide::MixGuide;
use crate::paths::{Conflict, Path, Step, all_below, board_of, joined};
use crate::plans::{Planned, fork, is_decided, next_planned};
use closer_guide::Guess;
use duty_calendar::Memory;
use flat_search::Board;
use line_mixes::{Balance, Master, Mix};
use roster_guesses::{BALANCED, Effort, Kind, PLUNGED, PROVED, Relaxed, Solved, Task};
use roster_model::{Decision, Goal, Problem, Roster};
use std::alloc::Global;

/// What a node of a plunge comes to.
#[derive(Drop)]
enum Reached {
    Roster(Roster),
    Split(Guess, Decision),
    Closed(Conflict),
    Lost,
}

/// What a plunge finds: a roster, or what there is to say of the first nodes of the tree, the first one first.
#[derive(Drop)]
enum Plunged {
    Roster(Roster),
    Tree(Vec<Planned>),
}

impl MixGuide {
    /// The split of a node that the mix leaves open.
    fn parted(
        &self,
        alloc: Global,
        problem: &Problem,
        goal: &Goal,
        board: &Board,
        mix: &Mix,
    ) -> Result<Reached, Memory> {
        let (kept, blame) = (&self.finder.kept, &self.lore.blame);
        let fork = fork(alloc, problem, kept, goal, board, mix, blame)?;
        Ok(match fork {
            Some((guess, decision)) => Reached::Split(guess, decision),
            None => Reached::Lost,
        })
    }

    /// What a node comes to that the mix leaves open: a roster that is found near it, or its split.
    fn opened_by(
        &mut self,
        alloc: Global,
        problem: &Problem,
        goal: &Goal,
        board: &Board,
        mix: Mix,
    ) -> Result<Reached, Memory>
        requires goal { IsGoal problem.now goal.now }
    {
        let task = Task {
            goal,
            board,
            effort: Effort::at(Kind::Large, 1, goal.grant.is_some()),
        };
        let open = Relaxed::Open(mix);
        match self.finder.solve_on(alloc, problem, task, open)? {
            Solved::Roster(roster, _mix) => Ok(Reached::Roster(roster)),
            Solved::Open(mix) => self.parted(alloc, problem, goal, board, &mix),
            Solved::Closed(_) => Ok(Reached::Lost),
        }
    }

    /// What a node comes to by kept lines, and by searches for lines where these are short, as long as they find some.
    fn mastered(
        &mut self,
        alloc: Global,
        problem: &Problem,
        goal: &Goal,
        decisions: &[Decision],
        board: &Board,
        master: &mut Master,
    ) -> Result<Reached, Memory>
        requires goal { IsGoal problem.now goal.now }
    {
        for _ in 0..PROVED {
            master.join(&self.finder.kept)?;
            master.bar(alloc, &self.finder.kept, goal, board)?;
            let shortage = match master.balance(alloc, BALANCED)? {
                Balance::Short(shortage) => shortage,
                Balance::Even => {
                    let mix = Mix::of_master(alloc, problem, &self.finder.kept, master)?;
                    return self.opened_by(alloc, problem, goal, board, mix);
                }
                Balance::Lost => return Ok(Reached::Lost),
            };
            let before = count_kept(problem, &self.finder.kept);
            let found = self.shown_conflict(alloc, problem, goal, decisions, &shortage)?;
            if let Some(conflict) = found {
                return Ok(Reached::Closed(conflict));
            }
            if count_kept(problem, &self.finder.kept) == before {
                return Ok(Reached::Lost);
            }
        }
        Ok(Reached::Lost)
    }

    /// What a node comes to by its relaxation, where the master tells nothing: all decisions are reasons.
    fn relaxed_at(
        &mut self,
        alloc: Global,
        problem: &Problem,
        goal: &Goal,
        decisions: &[Decision],
        board: &Board,
    ) -> Result<Reached, Memory>
        requires goal { IsGoal problem.now goal.now }
    {
        let depth = decisions.len();
        match self.solved(alloc, problem, goal, board, None, depth)? {
            Solved::Roster(roster, _mix) => Ok(Reached::Roster(roster)),
            Solved::Open(mix) => self.parted(alloc, problem, goal, board, &mix),
            Solved::Closed(relaxed) => {
                match self.leaf_of(alloc, problem, goal, board, relaxed)? {
                    Guess::Nothing => Ok(Reached::Lost),
                    guess => {
                        let reasons = all_below(alloc, depth)?;
                        let conflict = Conflict::new(alloc, reasons, Some(guess))?;
                        Ok(Reached::Closed(conflict))
                    }
                }
            }
        }
    }

    /// What a node comes to: first by its decisions alone, then by weights that closed others.
    fn reached(
        &mut self,
        alloc: Global,
        problem: &Problem,
        goal: &Goal,
        decisions: &[Decision],
        master: &mut Master,
    ) -> Result<Reached, Memory>
        requires goal { IsGoal problem.now goal.now }
    {
        let all = all_below(alloc, decisions.len())?;
        let board = board_of(alloc, problem, decisions, &all)?;
        if is_decided(alloc, problem, &mut self.finder.kept, goal, &board)? {
            let reasons = decided_reasons(alloc, problem, decisions, &board)?;
            return Ok(Reached::Closed(Conflict::new(alloc, reasons, None)?));
        }
        let known = self.known_conflict(alloc, problem, goal, decisions, &board)?;
        if let Some(conflict) = known {
            return Ok(Reached::Closed(conflict));
        }
        let reached = self.mastered(alloc, problem, goal, decisions, &board, master)?;
        let Reached::Lost = reached else {
            return Ok(reached);
        };
        self.relaxed_at(alloc, problem, goal, decisions, &board)
    }

    /// The guess at a node whose split is kept, by what kept lines are there now; the one that was made, where these tell nothing.
    fn mixed_again(
        &self,
        alloc: Global,
        problem: &Problem,
        goal: &Goal,
        path: &Path,
        master: &mut Master,
        guess: Guess,
    ) -> Result<Guess, Memory> {
        let Guess::Mixed(mixed) = &guess else {
            return Ok(guess);
        };
        let decisions = path.decisions(alloc)?;
        let all = all_below(alloc, decisions.len())?;
        let board = board_of(alloc, problem, &decisions, &all)?;
        let kept = &self.finder.kept;
        master.join(kept)?;
        master.bar(alloc, kept, goal, &board)?;
        let Balance::Even = master.balance(alloc, BALANCED)? else {
            return Ok(guess);
        };
        let mix = Mix::of_master(alloc, problem, kept, master)?;
        let pair = match mixed.pair {
            Some((member, pairing)) => Some((member as usize, pairing as usize)),
            None => None,
        };
        Ok(Guess::Mixed(mixed_of(alloc, problem, kept, &mix, pair)?))
    }

    /// Leaves the node, which the conflict closes, for the other side of the last split among the reasons. Where there is none left, the
    /// plan of the whole tree.
    fn leave(
        &self,
        alloc: Global,
        problem: &Problem,
        goal: &Goal,
        path: &mut Path,
        master: &mut Master,
        conflict: Conflict,
    ) -> Result<Option<Vec<Planned>>, Memory> {
        let mut conflict = conflict;
        for _ in 0..path.len() {
            let Some(step) = path.go_back(&mut conflict.reasons) else {
                break;
            };
            let Step {
                decision,
                guess,
                is_moved,
                first,
            } = step;
            let Some(first) = first else {
                path.go_over(alloc, guess, decision, conflict)?;
                return Ok(None);
            };
            let guess = if is_moved {
                self.mixed_again(alloc, problem, goal, path, master, guess)?
            } else {
                guess
            };
            conflict = joined(alloc, guess, first, conflict)?;
        }
        Ok(Some(conflict.plan))
    }

    /// Walks the tree of the goal.
    fn plunge(
        &mut self,
        alloc: Global,
        problem: &Problem,
        goal: &Goal,
        master: &mut Master,
    ) -> Result<Plunged, Memory>
        requires goal { IsGoal problem.now goal.now }
    {
        let mut path = Path::new(alloc);
        for _ in 0..PLUNGED {
            let decisions = path.decisions(alloc)?;
            match self.reached(alloc, problem, goal, &decisions, master)? {
                Reached::Roster(roster) => return Ok(Plunged::Roster(roster)),
                Reached::Split(guess, decision) => path.go_down(guess, decision)?,
                Reached::Closed(conflict) => {
                    self.lore.accuse(&decisions, &conflict.reasons);
                    let left = self.leave(alloc, problem, goal, &mut path, master, conflict)?;
                    if let Some(plan) = left {
                        return Ok(Plunged::Tree(plan));
                    }
                }
                Reached::Lost => break,
            }
        }
        Ok(Plunged::Tree(path.planned(alloc)?))
    }

    /// The guess at the empty node of a large month that the mix leaves open: a roster, or the first guess of a tree, whose
    /// others are planned.
    pub(crate) fn ahead(
        &mut self,
        alloc: Global,
        problem: &Problem,
        goal: &Goal,
        mix: Mix,
    ) -> Result<Guess, Memory>
        requires goal { IsGoal problem.now goal.now }
    {
        self.mixes.truncate(0);
        self.mixes.push(mix)?;
        self.lore.forgive();
        let mut master = match self.master.take() {
            Some(master) => master,
            None => Master::new(alloc, problem)?,
        };
        let plunged = self.plunge(alloc, problem, goal, &mut master)?;
        self.master = Some(master);
        match plunged {
            Plunged::Roster(roster) => Ok(Guess::Whole(roster)),
            Plunged::Tree(plan) => {
                self.plan = plan;
                self.plan.reverse();
                Ok(next_planned(&mut self.plan, 0).unwrap_or(Guess::Nothing))
            }
        }
    }
}
