//! The ledger of open nodes.
ghost use Rattle.std.specs.Prelude.{◌≡◌, ◌↔◌, true, ◌<◌, ◌≤◌, ◌^◌, [], ◌∷◌, ◌++◌, reverse, length, IfOk, OnErr, OnOk, IfErr};
ghost use Rattle.roster_model.specs.Ledgers.{MayFollow};
ghost use Rattle.branch_log.specs.Book.{Book, IsOrderly};

use duty_calendar::{List, Memory};
use roster_model::{Entry, Goal, Problem};
use std::alloc::Global;
use std::marker::Model;

/// Numbered searches with their goals, and entries for the open nodes that they counted, with room for a fixed number
/// of these. Contracts see the entries with the newest first.
#[derive(Drop, Debug)]
pub struct Ledger {
    cap: u32,
    rounds: u32,
    goals: List<Goal>,
    entries: Vec<Entry>,
}

impl Model for Ledger {
    ghost use Rattle.std.specs.Prelude.{◌≤◌, ◌<◌, ◌^◌, reverse, length, vec_capacity};
    ghost use Rattle.branch_log.specs.Book.{Book};

    ghost Value = { Book };

    ghost view = { λ l. record { cap = l.cap; rounds = l.rounds; goals = l.goals; entries = reverse l.entries.items } };

    ghost invariant = { λ l. (length l.entries.items ≤ l.cap) × (l.cap ≤ vec_capacity l.entries) × (l.cap < 2 ^ 32) };
}

impl Ledger {
    /// A ledger without searches and entries. It has memory for `cap` entries from the start; an entry's node is one
    /// that `rounds` rounds show to be open.
    pub fn new(alloc: Global, cap: u32, rounds: u32) -> Result<Ledger, Memory>
        ensures empty { IfOk result (λ l. l ≡ record
            { cap = cap; rounds = rounds; goals = []; entries = [] }) }
    {
        Ok(Ledger {
            cap,
            rounds,
            goals: List::new(alloc),
            entries: Vec::with_capacity(alloc, cap as usize)?,
        })
    }

    /// Numbers a search for the goal, from 0, or hands the goal back for want of memory.
    pub fn start(&mut self, goal: Goal) -> Result<u32, Goal>
        requires room { length self.old.goals < 4294967295 }
        ensures number { IfOk result (λ number. number ≡ length self.old.goals) }
        ensures ok { OnOk result (self.new ≡ record self.old
            { goals = self.old.goals ++ goal ∷ [] }) }
        ensures err { OnErr result (self.new ≡ self.old) }
        ensures back { IfErr result (λ given. given ≡ goal) }
    {
        let number = self.goals.len() as u32;
        match self.goals.push(goal) {
            Ok(()) => Ok(number),
            Err(given) => Err(given),
        }
    }

    /// Adds the entry of an open node, and says its place, from 0. This takes no memory.
    pub fn count(&mut self, problem: &Problem, entry: Entry) -> u32
        requires room { length self.old.entries < self.old.cap }
        requires orderly { IsOrderly problem.now self.old }
        requires next { MayFollow problem.now self.old.rounds self.old.goals self.old.entries
            entry }
        ensures place { result ≡ length self.old.entries }
        ensures added { self.new ≡ record self.old { entries = entry ∷ self.old.entries } }
    {
        let _ = problem;
        let place = self.entries.len() as u32;
        match self.entries.push(entry) {
            Ok(()) => place,
            Err(_) => unreachable!(),
        }
    }

    /// How many entries there are.
    pub fn len(&self) -> u32
        ensures len { result ≡ length self.now.entries }
        ensures within { result ≤ self.now.cap }
    {
        self.entries.len() as u32
    }

    /// Whether there is no entry.
    pub fn is_empty(&self) -> bool
        ensures none { (result ≡ true) ↔ (self.now.entries ≡ []) }
    {
        self.entries.is_empty()
    }

    /// How many entries there is room for.
    pub fn cap(&self) -> u32
        ensures cap { result ≡ self.now.cap }
    {
        self.cap
    }

    /// The goals of the searches, in the order in which they were numbered.
    pub fn goals(&self) -> &[Goal]
        ensures goals { result.now ≡ self.now.goals }
    {
        self.goals.as_slice()
    }

    /// The entries, the newest last.
    pub fn entries(&self) -> &[Entry]
        ensures order { reverse result.now ≡ self.now.entries }
    {
        &self.entries
    }
}
