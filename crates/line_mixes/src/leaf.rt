//! A leaf that grows member by member: prices of pairings under which the lines of all members may weigh less than the needs,
//! so that they close a node (a dual bound).

use crate::columns::Columns;
use crate::kept::Kept;
use crate::shares::needed;
use duty_calendar::{List, Memory};
use flat_search::{first_lenses, number};
use roster_model::{Lens, Problem};
use std::alloc::Global;
use std::mem::replace;

/// Weights under which the lines of the members, each by its lens, are likely to fall short of the needs: none is likely to be above
/// what stands for its member among the overs, and these are less than the needs.
#[derive(Drop)]
pub struct Bounded {
    pub weights: Vec<i64>,
    pub lenses: List<Lens>,
    pub overs: Vec<i64>,
}

/// What is known so far under some weights: what the needs weigh, what the lines weigh that are known, and by how much
/// a member's lines may be above those.
#[derive(Clone, Copy)]
struct Balance {
    needed: i64,
    sum: i64,
    slack: i64,
}

/// What no line of a member is above, by its lens, begins with its columns. The members that have risen are those of whom a
/// line was found; it is lost where a search ran out of steps.
#[derive(Drop)]
pub struct Leaf {
    lenses: List<Lens>,
    bounds: Vec<i64>,
    overs: Vec<i64>,
    risen: Vec<usize>,
    balance: Balance,
    pub is_closing: bool,
    pub is_lost: bool,
}

/// For each member a bound that just its heaviest columns are above.
fn bounds_of(
    alloc: Global,
    problem: &Problem,
    kept: &Kept,
    columns: &Columns,
    weights: &[i64],
) -> Result<Vec<i64>, Memory> {
    let mut bounds = Vec::new(alloc);
    for member in 0..problem.base.members.len() {
        bounds.push(columns.most(kept, member, weights).wrapping_sub(1))?;
    }
    Ok(bounds)
}

/// What the needs weigh, and the columns that are just above these bounds.
fn weighed(problem: &Problem, bounds: &[i64], weights: &[i64]) -> Balance {
    let needed = needed(problem, weights);
    let mut sum: i64 = 0;
    for bound in bounds {
        sum = sum.wrapping_add(*bound).wrapping_add(1);
    }
    let mut balance = Balance {
        needed,
        sum,
        slack: 0,
    };
    balance.share(number(bounds.len()));
    balance
}

impl Balance {
    /// Shares what may be weighed above what is known among so many members.
    fn share(&mut self, members: u32) {
        let spare = self.needed.wrapping_sub(1).wrapping_sub(self.sum);
        let each = spare.checked_div(i64::from(members)).unwrap_or(0);
        self.slack = each.max(0);
    }
}

impl Leaf {
    /// The first lenses, and the columns' weights as bounds; none where these weigh no less than the needs.
    pub fn begun(
        alloc: Global,
        problem: &Problem,
        kept: &Kept,
        columns: &Columns,
        weights: &[i64],
    ) -> Result<Option<Leaf>, Memory> {
        let bounds = bounds_of(alloc, problem, kept, columns, weights)?;
        let balance = weighed(problem, &bounds, weights);
        if balance.sum >= balance.needed {
            return Ok(None);
        }
        let mut overs = Vec::new(alloc);
        for bound in &bounds {
            overs.push(bound.wrapping_add(1))?;
        }
        Ok(Some(Leaf {
            lenses: first_lenses(alloc, problem)?,
            bounds,
            overs,
            risen: Vec::new(alloc),
            balance,
            is_closing: true,
            is_lost: false,
        }))
    }

    /// Whether the lines that are known weigh no less than the needs.
    pub fn is_reached(&self) -> bool {
        self.balance.sum >= self.balance.needed
    }

    /// Shares what may be weighed above what is known among so many members.
    pub fn share(&mut self, members: u32) {
        self.balance.share(members);
    }

    /// A member has its slack.
    pub fn spend(&mut self) {
        self.balance.sum = self.balance.sum.wrapping_add(self.balance.slack);
    }

    /// What the member's lines may weigh: what the heaviest known one does, and a member's slack.
    pub fn over(&self, member: usize) -> i64 {
        self.most(member).wrapping_add(self.balance.slack)
    }

    /// It is known that the member has no line above this, by the lens.
    pub fn allow(&mut self, member: usize, lens: Lens, over: i64) {
        let most = self.most(member);
        let more = over.wrapping_sub(most).max(0);
        self.balance.sum = self.balance.sum.wrapping_add(more);
        self.set(member, lens, over.max(most));
    }

    /// Hands out the members that have risen.
    pub fn take_risen(&mut self, alloc: Global) -> Vec<usize> {
        replace(&mut self.risen, Vec::new(alloc))
    }

    /// The member has no line above this, by the lens.
    pub fn set(&mut self, member: usize, lens: Lens, over: i64) {
        if member < self.lenses.len() {
            *self.lenses.at_mut(member) = lens;
        }
        if let Some(own) = self.overs.get_mut(member) {
            *own = over;
        }
    }

    /// A line of the member was found, which joins the columns where it is above these, and is the heaviest known from then on.
    pub fn found(
        &mut self,
        columns: &mut Columns,
        member: usize,
        place: usize,
        weight: i64,
    ) -> Result<(), Memory> {
        let most = self.most(member);
        self.is_closing = false;
        self.risen.push(member)?;
        if weight > most {
            self.balance.sum = self.balance.sum.wrapping_add(weight.wrapping_sub(most));
            self.raise(member, weight);
            columns.add(member, place)?;
        }
        Ok(())
    }

    /// The heaviest known line of the member weighs so much.
    fn raise(&mut self, member: usize, weight: i64) {
        if let Some(bound) = self.bounds.get_mut(member) {
            *bound = weight.wrapping_sub(1);
        }
    }

    /// What the heaviest known line of the member weighs.
    pub fn most(&self, member: usize) -> i64 {
        match self.bounds.get(member) {
            Some(bound) => bound.wrapping_add(1),
            None => 0,
        }
    }

    /// How much more the lines of each member may weigh than what they are known not to be above, so that all weigh less than the
    /// needs.
    fn spare(&self) -> i64 {
        let mut spare = self.balance.needed.wrapping_sub(1);
        for over in &self.overs {
            spare = spare.wrapping_sub(*over);
        }
        let members = i64::from(number(self.overs.len()));
        spare.checked_div(members).unwrap_or(0).max(0)
    }

    /// The leaf under these weights, if it closes the node. What is left of the needs is shared by all members.
    pub fn closed(self, weights: Vec<i64>) -> Option<Bounded> {
        if !self.is_closing {
            return None;
        }
        let spare = self.spare();
        let mut overs = self.overs;
        for over in overs.iter_mut() {
            *over = over.wrapping_add(spare);
        }
        Some(Bounded {
            weights,
            lenses: self.lenses,
            overs,
        })
    }
}
