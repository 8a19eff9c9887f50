//! The walk over the nodes of a search, depth first.
ghost use Rattle.std.specs.Prelude.{◌≡◌, ◌≢◌, ◌↔◌, ◌+◌, ◌<◌, ◌≤◌, true, false, None, Some, [], ◌∷◌, ◌++◌, length, slice_get, IfOk, OnOk, OnErr};
ghost use Rattle.std.specs.Option.{ForSome};
ghost use Rattle.roster_model.specs.declared.problem.Problem.{Problem};
ghost use Rattle.roster_model.specs.Decided.{decided, is_decided};
ghost use Rattle.roster_model.specs.Goals.{IsGoal, IsNode};
ghost use Rattle.roster_model.specs.OpenNodes.{IsOpenNode};
ghost use Rattle.roster_model.specs.Ledgers.{Each};
ghost use Rattle.branch_log.specs.Book.{IsOrderly};
ghost use Rattle.branch_log.specs.Honest.{IsHonest};
ghost use Rattle.completion_search.specs.Found.{IsFinding, AddsSearch, AddsFewEntries, FitsSearch, HasFewSplits, IsNotSpent};
ghost use Rattle.completion_search.specs.Path.{IsAt, IsAboveFlown, HasGrown};

use branch_log::{Closer, Ledger, Verdict};
use duty_calendar::{Copied, List, Memory};
use roster_model::{Decision, Entry, Goal, Item, Node, NodeFault, Problem, Proof, Roster};
use std::alloc::Global;

/// What a search finds.
#[derive(Drop, PartialEq, Eq, Debug)]
pub enum Finding {
    /// A complete roster that meets the goal.
    Found(Roster),
    /// A proof that no complete roster meets it.
    Refuted(Proof),
    /// The ledger is full.
    Spent,
}

/// Looks for a complete roster that meets the goal, or for a proof that there is none, and counts each node that it
/// branches on. Where the ledger is full at the start, no search is numbered. The closer is not asked of the empty node
/// where a first verdict is handed in.
pub fn search<C: Closer>(
    alloc: Global,
    problem: &Problem,
    closer: &mut C,
    goal: &Goal,
    first: Option<Verdict>,
    ledger: &mut Ledger,
) -> Result<Finding, Memory>
    requires fits { C.fits closer.old problem.now }
    requires rounds { C.rounds closer.old ≡ ledger.old.rounds }
    requires goal { IsGoal problem.now goal.now }
    requires orderly { IsOrderly problem.now ledger.old }
    requires searches { length ledger.old.goals ≤ 4000000000 }
    requires first { ForSome first (IsHonest problem.now ledger.old.rounds goal.now []) }
    ensures found { IfOk result (IsFinding problem.now goal.now ledger.new) }
    ensures adds { AddsSearch problem.now goal.now ledger.old ledger.new }
    ensures few { AddsFewEntries problem.now ledger.old ledger.new }
    ensures enough { FitsSearch problem.now ledger.old → IfOk result IsNotSpent }
    ensures short { IfOk result (HasFewSplits ledger.old ledger.new) }
    ensures rounds { C.rounds closer.new ≡ C.rounds closer.old }
    ensures fits { (other : Problem) → C.fits closer.new other ↔ C.fits closer.old other }
{
    if ledger.len() == ledger.cap() {
        return Ok(Finding::Spent);
    }
    let number = start(alloc, goal, ledger)?;
    descend(alloc, problem, closer, goal, number, first, ledger)
}

/// Numbers a search for the goal.
fn start(alloc: Global, goal: &Goal, ledger: &mut Ledger) -> Result<u32, Memory>
    requires searches { length ledger.old.goals ≤ 4000000000 }
    ensures number { IfOk result (λ number. number ≡ length ledger.old.goals) }
    ensures ok { OnOk result (ledger.new ≡ record ledger.old
        { goals = ledger.old.goals ++ goal.now ∷ [] }) }
    ensures err { OnErr result (ledger.new ≡ ledger.old) }
{
    let asked = goal.copy(alloc)?;
    match ledger.start(asked) {
        Ok(number) => Ok(number),
        Err(_) => Err(Memory::NoMemory),
    }
}

/// What there is to say of a node: what is known of it, which is taken, or what the closer says.
fn close<C: Closer>(
    alloc: Global,
    problem: &Problem,
    closer: &mut C,
    goal: &Goal,
    node: &Node,
    first: &mut Option<Verdict>,
) -> Result<Verdict, Memory>
    requires fits { C.fits closer.old problem.now }
    requires goal { IsGoal problem.now goal.now }
    requires node { IsNode problem.now node.now }
    requires first { ForSome first.old (IsHonest problem.now (C.rounds closer.old) goal.now
        node.now) }
    ensures rounds { C.rounds closer.new ≡ C.rounds closer.old }
    ensures fits { (other : Problem) → C.fits closer.new other ↔ C.fits closer.old other }
    ensures honest { IfOk result (IsHonest problem.now (C.rounds closer.old) goal.now node.now) }
    ensures taken { first.new ≡ None }
{
    match first.take() {
        Some(verdict) => Ok(verdict),
        None => closer.close(alloc, problem, goal, node),
    }
}

/// Closes the empty node, depth first.
fn descend<C: Closer>(
    alloc: Global,
    problem: &Problem,
    closer: &mut C,
    goal: &Goal,
    number: u32,
    mut first: Option<Verdict>,
    ledger: &mut Ledger,
) -> Result<Finding, Memory>
    requires fits { C.fits closer.old problem.now }
    requires rounds { C.rounds closer.old ≡ ledger.old.rounds }
    requires goal { IsGoal problem.now goal.now }
    requires numbered { slice_get ledger.old.goals number ≡ Some goal.now }
    requires new { Each (λ e. e.search ≢ number) ledger.old.entries }
    requires room { length ledger.old.entries < ledger.old.cap }
    requires orderly { IsOrderly problem.now ledger.old }
    requires first { ForSome first (IsHonest problem.now ledger.old.rounds goal.now []) }
    ensures found { IfOk result (IsFinding problem.now goal.now ledger.new) }
    ensures grown { HasGrown problem.now number ledger.old ledger.new }
    ensures short { IfOk result (HasFewSplits ledger.old ledger.new) }
    ensures rounds { C.rounds closer.new ≡ C.rounds closer.old }
    ensures fits { (other : Problem) → C.fits closer.new other ↔ C.fits closer.old other }
{
    let mut node = Node::new(alloc);
    let mut parents: Vec<u32> = Vec::new(alloc);
    let mut items: Proof = List::new(alloc);
    let mut is_open = true;
    while is_open {
        match close(alloc, problem, closer, goal, &node, &mut first)? {
            Verdict::Whole(roster) => return Ok(Finding::Found(roster)),
            Verdict::Closed(leaf) => {
                add_item(&mut items, leaf)?;
                is_open = node.turn();
            }
            Verdict::Branch(member, pairing) => {
                count_node(problem, goal, number, &node, &mut parents, ledger)?;
                if ledger.len() == ledger.cap() {
                    return Ok(Finding::Spent);
                }
                add_item(&mut items, Item::Split(member, pairing))?;
                fly(&mut node, member, pairing)?;
            }
        }
    }
    Ok(Finding::Refuted(items))
}

/// Counts the node as open, by the next entry of the search. The place of its parent's entry stands in `parents`, and
/// that of its own is put behind.
fn count_node(
    problem: &Problem,
    goal: &Goal,
    number: u32,
    node: &Node,
    parents: &mut Vec<u32>,
    ledger: &mut Ledger,
) -> Result<(), Memory>
    requires room { length ledger.old.entries < ledger.old.cap }
    requires here { IsAt problem.now ledger.old.entries number node.now parents.old.items }
    requires orderly { IsOrderly problem.now ledger.old }
    requires numbered { slice_get ledger.old.goals number ≡ Some goal.now }
    requires is_open { IsOpenNode problem.now ledger.old.rounds goal.now node.now }
    ensures grown { HasGrown problem.now number ledger.old ledger.new }
    ensures one { length ledger.new.entries ≡ length ledger.old.entries + 1 }
    ensures below { OnOk result (IsAboveFlown problem.now ledger.new.entries number node.now
        parents.new.items) }
{
    parents.truncate(node.len());
    let entry = Entry {
        search: number,
        parent: parents.last().copied(),
        decision: node.newest(),
    };
    let place = ledger.count(problem, entry);
    parents.push(place)?;
    Ok(())
}

/// Appends an item.
fn add_item(items: &mut Proof, item: Item) -> Result<(), Memory>
    ensures ok { OnOk result (items.new ≡ items.old ++ item ∷ []) }
{
    match items.push(item) {
        Ok(()) => Ok(()),
        Err(_) => Err(Memory::NoMemory),
    }
}

/// Decides that the member flies the pairing.
fn fly(node: &mut Node, member: u32, pairing: u32) -> Result<(), Memory>
    requires undecided { is_decided node.old member pairing ≡ false }
    ensures ok { OnOk result (node.new ≡ decided node.old member pairing true) }
{
    let decision = Decision {
        member,
        pairing,
        flies: true,
    };
    match node.decide(decision) {
        Ok(()) => Ok(()),
        Err(NodeFault::NoMemory) => Err(Memory::NoMemory),
        Err(NodeFault::AlreadyDecided) => unreachable!(),
    }
}
