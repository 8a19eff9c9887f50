//! Mixes of kept lines that come near to the needs (a fractional solution of the restricted master). What they miss makes
//! weights.

use crate::columns::Columns;
use crate::kept::Kept;
use crate::master::Master;
use crate::program::Program;
use crate::shares::{Share, WHOLE, greatest, push_whole, scale, shift};
use duty_calendar::Memory;
use roster_model::Problem;
use std::alloc::Global;

/// For each member the shares of some lines, and by how much the lines so mixed are above the needs; and the weights that
/// were tested last, if those are not what the misses make.
#[derive(Drop)]
pub struct Mix {
    pub(crate) shares: Vec<Vec<Share>>,
    pub(crate) misses: Vec<i64>,
    tested: Vec<i64>,
}

impl Mix {
    /// No shares, and nothing but the needs.
    fn empty(alloc: Global, problem: &Problem) -> Result<Mix, Memory> {
        let mut misses = Vec::new(alloc);
        for pairing in problem.base.pairings.as_slice() {
            misses.push(i64::from(pairing.need).wrapping_mul(-WHOLE))?;
        }
        Ok(Mix {
            shares: Vec::new(alloc),
            misses,
            tested: Vec::new(alloc),
        })
    }

    /// Adds the shares of the next member.
    fn add(&mut self, kept: &Kept, member: usize, shares: Vec<Share>) -> Result<(), Memory> {
        for share in &shares {
            shift(
                &mut self.misses,
                kept.pairings(member, share.place),
                share.part,
            );
        }
        self.shares.push(shares)?;
        Ok(())
    }

    /// The shares of another mix, as far as their lines are among the columns; else the last of these.
    pub fn begun(
        alloc: Global,
        problem: &Problem,
        kept: &Kept,
        columns: &Columns,
        warm: Option<&Mix>,
    ) -> Result<Mix, Memory> {
        let mut mix = Mix::empty(alloc, problem)?;
        for member in 0..problem.base.members.len() {
            let mut shares = match warm {
                Some(warm) => columns.shared(alloc, member, warm.shares(member))?,
                None => Vec::new(alloc),
            };
            scale(&mut shares);
            if shares.is_empty() {
                push_whole(&mut shares, columns.places(member).last())?;
            }
            mix.add(kept, member, shares)?;
        }
        Ok(mix)
    }

    /// The shares of a program, and the weights that were tested last.
    pub fn of_program(
        alloc: Global,
        problem: &Problem,
        kept: &Kept,
        columns: &Columns,
        program: &Program,
        tested: Vec<i64>,
    ) -> Result<Mix, Memory> {
        let mut mix = Mix::empty(alloc, problem)?;
        mix.tested = tested;
        for member in 0..problem.base.members.len() {
            let mut shares = program.shares(alloc, member)?;
            scale(&mut shares);
            if shares.is_empty() {
                push_whole(&mut shares, columns.places(member).first())?;
            }
            mix.add(kept, member, shares)?;
        }
        Ok(mix)
    }

    /// The shares of a master.
    pub fn of_master(
        alloc: Global,
        problem: &Problem,
        kept: &Kept,
        master: &Master,
    ) -> Result<Mix, Memory> {
        let mut mix = Mix::empty(alloc, problem)?;
        for member in 0..problem.base.members.len() {
            let mut shares = master.shares(alloc, member)?;
            scale(&mut shares);
            mix.add(kept, member, shares)?;
        }
        Ok(mix)
    }

    /// The mix once more.
    pub fn copy(&self, alloc: Global) -> Result<Mix, Memory> {
        let mut shares = Vec::new(alloc);
        for own in &self.shares {
            shares.push(Vec::from_slice(alloc, own)?)?;
        }
        Ok(Mix {
            shares,
            misses: Vec::from_slice(alloc, &self.misses)?,
            tested: Vec::from_slice(alloc, &self.tested)?,
        })
    }

    /// The shares of a member.
    pub fn shares(&self, member: usize) -> &[Share] {
        match self.shares.get(member) {
            Some(shares) => shares,
            None => &[],
        }
    }

    /// The line of greatest share.
    pub fn greatest(&self, member: usize) -> Option<Share> {
        greatest(self.shares(member))
    }

    /// By how much the mix is above the needs, for each pairing.
    pub fn misses(&self) -> &[i64] {
        &self.misses
    }

    /// The weights that were tested last; else some that are greater where the mix is less above the needs.
    pub fn weights(&self, alloc: Global) -> Result<Vec<i64>, Memory> {
        if !self.tested.is_empty() {
            return Ok(Vec::from_slice(alloc, &self.tested)?);
        }
        let mut weights = Vec::new(alloc);
        for miss in &self.misses {
            weights.push(miss.wrapping_neg())?;
        }
        Ok(weights)
    }

    /// Whether each miss is at most so great.
    pub fn is_even(&self, little: i64) -> bool {
        self.misses
            .iter()
            .all(|miss| *miss <= little && *miss >= little.wrapping_neg())
    }
}
