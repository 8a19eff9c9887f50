//! What weighs most, and why nothing does.
ghost use Rattle.std.specs.Prelude.{◌≡◌, ◌<◌, ◌≤◌, ◌^◌, [], IfOk, false, length};
ghost use Rattle.duty_calendar.specs.Calendar.{month_days};
ghost use Rattle.duty_calendar.specs.declared.horizon.Horizon.{Horizon as Month};
ghost use Rattle.duty_calendar.specs.Checks.{ArePairings};
ghost use Rattle.roster_model.specs.Goals.{IsGoal, IsNode};
ghost use Rattle.roster_model.specs.Lenses.{IsLens};
ghost use Rattle.roster_model.specs.Weights.{AreSmallWeights};

use duty_calendar::{List, Memory, Pairing};
use june_months::{contest, first_line, month, one, pairings, single, tenth, two_floors, with};
use label_lattice::Steps;
use lens_classes::{Terms, plain_terms};
use line_generator::{
    BestFault, BestInFault, Generator, Over, PricedLine, are_small, best, best_over, heaviest,
    heaviest_over,
};
use line_lens::{LensFault, asks_nothing, lens_line, line_graph, narrow_lens, standard_lens};
use roster_model::{Decision, Goal, Lens, Node, Problem, Window, WindowKind};
use std::alloc::Global;
use std::marker::Brand;
use std::sync::ledger::{Blank, Ledger};
use take_graphs::take_graph;

/// The month of one member without bids.
fn alone(alloc: Global, pairings: List<Pairing>, low: u32, high: u32) -> Result<Problem, Memory>
    requires pairings { (h : Month) → 30 ≤ month_days h → ArePairings h pairings }
    requires window { low ≤ high }
    requires few_credit { high ≤ 12000 }
    ensures members { IfOk result (λ p. length p.base.members ≡ 1) }
    ensures pairings { IfOk result (λ p. length p.base.pairings ≡ length pairings) }
{
    let bids = one(alloc, List::new(alloc))?;
    month(pairings, single(alloc, low, high)?, bids)
}

/// The decision that the second member does not fly the first pairing.
#[tactic(auto, using(crate::proofs::Nodes::one_decision))]
fn grounded(alloc: Global, problem: &Problem) -> Result<Node, Memory>
    requires two { length problem.now.base.members ≡ 2 }
    requires one { length problem.now.base.pairings ≡ 1 }
    ensures node { IfOk result (IsNode problem.now) }
{
    let mut node = Node::new(alloc);
    let decision = Decision {
        member: 1,
        pairing: 0,
        flies: false,
    };
    match node.decide(decision) {
        Ok(()) => Ok(node),
        Err(_fault) => Err(Memory::NoMemory),
    }
}

/// So many weights of 1.
fn ones(alloc: Global, count: u32) -> Result<Vec<i64>, Memory>
    ensures count { IfOk result (λ weights. length weights.items ≡ count) }
{
    let mut weights = Vec::new(alloc);
    for _pairing in 0..count {
        weights.push(1)?;
    }
    Ok(weights)
}

/// The best line of the last member where the goal has these floors, through the lens with this
/// grain.
fn best_from<L: Ledger>(
    alloc: Global,
    problem: &Problem,
    floors: List<u32>,
    node: &Node,
    grain: u32,
    weights: &[i64],
    blank: Blank,
) -> Result<Option<PricedLine>, BestFault>
    requires some { 0 < length problem.now.base.members }
    requires floors { length floors ≤ length problem.now.base.members }
    requires node { IsNode problem.now node.now }
    requires per_pairing { length weights.now ≡ length problem.now.base.pairings }
    requires small { AreSmallWeights weights.now }
    requires name { blank.name ≡ L.name }
    requires parts { blank.parts ≡ L.parts }
    requires share { 0 < blank.parts }
{
    let member = problem.base.members.len() as u32 - 1;
    let goal = Goal {
        floors,
        grant: None,
    };
    let standard = standard_lens(alloc, problem, member);
    let lens = Lens { grain, ..standard };
    let mut steps: Steps<L> = Steps::new(blank);
    best(
        alloc, problem, member, &goal, node, &lens, weights, &mut steps,
    )
}

fn best_of(
    alloc: Global,
    problem: &Problem,
    floors: List<u32>,
    node: &Node,
    grain: u32,
    weights: &[i64],
) -> Result<Option<PricedLine>, BestFault>
    requires some { 0 < length problem.now.base.members }
    requires floors { length floors ≤ length problem.now.base.members }
    requires node { IsNode problem.now node.now }
    requires per_pairing { length weights.now ≡ length problem.now.base.pairings }
{
    if !are_small(weights) {
        return Err(BestFault::NoMemory);
    }
    best_from::<Brand>(alloc, problem, floors, node, grain, weights, Blank::new(1))
}

fn is(answer: &Option<PricedLine>, weight: i64, line: &[u32]) -> bool {
    match answer {
        Some(priced) => priced.weight == weight && priced.line.pairings() == line,
        None => false,
    }
}

#[test]
fn rounds_credit_to_hours(rt: HostRuntime) -> Result<(), BestFault> {
    let alloc = rt.alloc();
    let problem = alone(alloc, tenth(alloc, 61)?, 61, 61)?;
    let node = Node::new(alloc);
    let answer = best_of(alloc, &problem, List::new(alloc), &node, 60, &[5])?;
    assert!(rt; is(&answer, 5, &[0]));
    let answer = best_of(alloc, &problem, List::new(alloc), &node, 60, &[-5])?;
    assert!(rt; is(&answer, -5, &[0]));
    Ok(())
}

#[test]
fn fills_the_credit_of_600_pairings(rt: HostRuntime) -> Result<(), BestFault> {
    let alloc = rt.alloc();
    let problem = alone(alloc, pairings(alloc, 600, 1)?, 0, 5400)?;
    let node = Node::new(alloc);
    let weights = ones(alloc, 600)?;
    let answer = best_of(alloc, &problem, List::new(alloc), &node, 60, &weights)?;
    assert!(rt; matches!(answer, Some(PricedLine { weight: 18, .. })));
    Ok(())
}

/// The best line of a junior who is to reach a floor, where the one pairing weighs -1.
fn best_of_junior(
    alloc: Global,
    problem: &Problem,
    node: &Node,
    grain: u32,
) -> Result<Option<PricedLine>, BestFault>
    requires two { length problem.now.base.members ≡ 2 }
    requires one { length problem.now.base.pairings ≡ 1 }
    requires node { IsNode problem.now node.now }
{
    best_of(alloc, problem, two_floors(alloc)?, node, grain, &[-1])
}

fn best_of_free(alloc: Global, problem: &Problem) -> Result<Option<PricedLine>, BestFault>
    requires two { length problem.now.base.members ≡ 2 }
    requires one { length problem.now.base.pairings ≡ 1 }
{
    best_of_junior(alloc, problem, &Node::new(alloc), 60)
}

/// That line where the junior may not fly the pairing.
fn best_of_grounded(
    alloc: Global,
    problem: &Problem,
    grain: u32,
) -> Result<Option<PricedLine>, BestFault>
    requires two { length problem.now.base.members ≡ 2 }
    requires one { length problem.now.base.pairings ≡ 1 }
{
    best_of_junior(alloc, problem, &grounded(alloc, problem)?, grain)
}

fn is_refused(answer: &Result<Option<PricedLine>, BestFault>) -> bool {
    matches!(answer, Err(BestFault::Lens(LensFault::Grain)))
}

#[test]
fn reaches_the_floor_of_a_member(rt: HostRuntime) -> Result<(), BestFault> {
    let alloc = rt.alloc();
    let problem = contest(alloc)?;
    let answer = best_of_free(alloc, &problem)?;
    assert!(rt; is(&answer, -1, &[0]));
    let answer = best_of_grounded(alloc, &problem, 60)?;
    assert!(rt; answer.is_none());
    let answer = best_of_grounded(alloc, &problem, 7);
    assert!(rt; is_refused(&answer));
    Ok(())
}

/// What is asked of a member's lines.
#[derive(Drop)]
struct Asked {
    goal: Goal,
    node: Node,
    lens: Lens,
}

/// What asks nothing of the first member's lines but to pass the standard lens.
fn asked_of_first(alloc: Global, problem: &Problem) -> Asked
    requires some { 0 < length problem.now.base.members }
    ensures goal { IsGoal problem.now result.goal }
    ensures node { IsNode problem.now result.node }
    ensures lens { IsLens problem.now 0 result.lens }
    ensures plain { result.lens.whole ≡ false }
    ensures windows { result.lens.windows ≡ [] }
{
    Asked {
        goal: Goal::new(alloc),
        node: Node::new(alloc),
        lens: standard_lens(alloc, problem, 0),
    }
}

/// A line above a bound, a heaviest line above it, and the heaviest line.
#[derive(Drop)]
struct Lines {
    first: Over,
    heaviest: Over,
    most: Option<PricedLine>,
}

/// The lines that the first member may have.
fn over_from<L: Ledger>(
    alloc: Global,
    problem: &Problem,
    asked: &Asked,
    weights: &[i64],
    over: i64,
    limit: u64,
    blank: Blank,
) -> Result<Lines, BestFault>
    requires some { 0 < length problem.now.base.members }
    requires goal { IsGoal problem.now asked.now.goal }
    requires node { IsNode problem.now asked.now.node }
    requires windows { asked.now.lens.windows ≡ [] }
    requires per_pairing { length weights.now ≡ length problem.now.base.pairings }
    requires small { AreSmallWeights weights.now }
    requires name { blank.name ≡ L.name }
    requires parts { blank.parts ≡ L.parts }
    requires share { 0 < blank.parts }
{
    let Asked { goal, node, lens } = asked;
    let mut steps: Steps<L> = Steps::new(blank);
    let first = best_over(
        alloc, problem, 0, goal, node, lens, weights, over, limit, &mut steps,
    )?;
    let over_all = heaviest_over(
        alloc, problem, 0, goal, node, lens, weights, over, limit, &mut steps,
    )?;
    let most = heaviest(alloc, problem, 0, goal, node, lens, weights, &mut steps)?;
    Ok(Lines {
        first,
        heaviest: over_all,
        most,
    })
}

/// The lines that pass the first member's standard lens.
fn over_of(
    alloc: Global,
    problem: &Problem,
    weights: &[i64],
    over: i64,
    limit: u64,
) -> Result<Lines, BestFault>
    requires some { 0 < length problem.now.base.members }
    requires per_pairing { length weights.now ≡ length problem.now.base.pairings }
{
    if !are_small(weights) {
        return Err(BestFault::NoMemory);
    }
    let asked = asked_of_first(alloc, problem);
    over_from::<Brand>(alloc, problem, &asked, weights, over, limit, Blank::new(1))
}

fn weighs(found: &Over, weight: i64, line: &[u32]) -> bool {
    match found {
        Over::Line(priced) => priced.weight == weight && priced.line.pairings() == line,
        Over::Nothing | Over::Limit => false,
    }
}

#[test]
fn finds_a_line_above_a_bound(rt: HostRuntime) -> Result<(), BestFault> {
    let alloc = rt.alloc();
    let problem = alone(alloc, tenth(alloc, 300)?, 0, 5400)?;
    let lines = over_of(alloc, &problem, &[5], 4, 100)?;
    assert!(rt; weighs(&lines.first, 5, &[0]) && weighs(&lines.heaviest, 5, &[0]));
    assert!(rt; is(&lines.most, 5, &[0]));
    let lines = over_of(alloc, &problem, &[5], 5, 0)?;
    assert!(rt; lines.first == Over::Nothing && lines.heaviest == Over::Nothing);
    let lines = over_of(alloc, &problem, &[5], 4, 1)?;
    assert!(rt; lines.first == Over::Limit && lines.heaviest == Over::Limit);
    Ok(())
}

#[test]
fn finds_the_heaviest_line_above_a_bound(rt: HostRuntime) -> Result<(), BestFault> {
    let alloc = rt.alloc();
    let problem = alone(alloc, pairings(alloc, 3, 1)?, 0, 5400)?;
    let lines = over_of(alloc, &problem, &[1, -2, 3], 0, 1000)?;
    assert!(rt; weighs(&lines.heaviest, 4, &[0, 2]));
    assert!(rt; is(&lines.most, 4, &[0, 2]));
    let lines = over_of(alloc, &problem, &[1, -2, 3], 4, 1000)?;
    assert!(rt; lines.first == Over::Nothing && lines.heaviest == Over::Nothing);
    let lines = over_of(alloc, &problem, &[1, -2, 3], 0, 3)?;
    assert!(rt; lines.heaviest == Over::Limit);
    Ok(())
}

/// What the places of the first member's graph add to lines.
fn places_of_first(alloc: Global, problem: &Problem) -> Result<List<u32>, Memory>
    requires some { 0 < length problem.now.base.members }
    requires one { length problem.now.base.pairings ≡ 1 }
{
    let Asked { goal, node, lens } = &asked_of_first(alloc, problem);
    let graph = line_graph::<0>(alloc, problem, 0, goal, node, lens, &[1])?;
    Ok(graph.places)
}

/// Whether the first member may have the line of the first pairing.
fn first_passes(alloc: Global, problem: &Problem) -> Result<bool, Memory>
    requires some { 0 < length problem.now.base.members }
    requires one { length problem.now.base.pairings ≡ 1 }
{
    let Asked { goal, node, lens } = &asked_of_first(alloc, problem);
    lens_line(alloc, problem, 0, goal, node, lens, &first_line(alloc)?)
}

#[test]
fn a_line_passes_and_is_a_chain(rt: HostRuntime) -> Result<(), BestFault> {
    let alloc = rt.alloc();
    let problem = alone(alloc, tenth(alloc, 300)?, 0, 5400)?;
    let places = places_of_first(alloc, &problem)?;
    assert!(rt; places.as_slice() == [1, 0, 1].as_slice());
    assert!(rt; first_passes(alloc, &problem)?);
    Ok(())
}

/// What the arcs of the first member's graph add to lines.
fn arcs_of_first(alloc: Global, problem: &Problem) -> Result<List<u32>, Memory>
    requires some { 0 < length problem.now.base.members }
    requires one { length problem.now.base.pairings ≡ 1 }
{
    let Asked { goal, node, lens } = &asked_of_first(alloc, problem);
    let terms = plain_terms(problem, 0, goal, lens);
    let graph = take_graph::<1>(alloc, problem, 0, &terms, node, lens, &[1])?;
    Ok(graph.adds)
}

#[test]
fn one_arc_takes_the_pairing(rt: HostRuntime) -> Result<(), BestFault> {
    let alloc = rt.alloc();
    let problem = alone(alloc, tenth(alloc, 300)?, 0, 5400)?;
    let adds = arcs_of_first(alloc, &problem)?;
    assert!(rt; adds.as_slice() == [1, 1, 0].as_slice());
    Ok(())
}

/// What the lens tracks once it is narrowed for the terms.
fn narrowed(
    alloc: Global,
    problem: &Problem,
    member: u32,
    terms: &Terms,
    lens: &Lens,
) -> Result<u64, Memory>
    requires member { member < length problem.now.base.members }
{
    let narrow = narrow_lens(alloc, problem, member, terms, lens)?;
    Ok(narrow.tracked)
}

/// What the last member's standard lens tracks once it is narrowed for the goal with these floors,
/// and whether that goal asks nothing of it.
fn narrowed_for(alloc: Global, problem: &Problem, floors: List<u32>) -> Result<(u64, bool), Memory>
    requires some { 0 < length problem.now.base.members }
    requires floors { length floors ≤ length problem.now.base.members }
{
    let member = problem.base.members.len() as u32 - 1;
    let goal = Goal {
        floors,
        grant: None,
    };
    let lens = standard_lens(alloc, problem, member);
    let terms = plain_terms(problem, member, &goal, &lens);
    let nothing = asks_nothing(problem, member, &terms, &lens);
    Ok((narrowed(alloc, problem, member, &terms, &lens)?, nothing))
}

#[test]
fn a_lens_tracks_what_the_goal_asks(rt: HostRuntime) -> Result<(), BestFault> {
    let alloc = rt.alloc();
    let problem = contest(alloc)?;
    let (tracked, asks_nothing) = narrowed_for(alloc, &problem, one(alloc, 10)?)?;
    assert!(rt; tracked == 0 && asks_nothing);
    let (tracked, asks_nothing) = narrowed_for(alloc, &problem, two_floors(alloc)?)?;
    assert!(rt; tracked == 1 && !asks_nothing);
    Ok(())
}

/// So many windows of four weeks, each from the month's first minute on.
fn windows(alloc: Global, count: u32) -> Result<List<Window>, Memory>
    ensures count { IfOk result (λ list. length list ≡ count) }
{
    let window = Window {
        kind: WindowKind::Flight672,
        start: 525_600,
    };
    let mut list = List::new(alloc);
    for _place in 0..count {
        list = with(list, window)?;
    }
    Ok(list)
}

/// What a generator answers, and whether the first pairing alone is its line then.
type Told = (Result<Option<i64>, BestInFault>, bool);

/// What a generator with so much room answers of the first member, where the one pairing weighs 5.
fn told_from<L: Ledger>(
    alloc: Global,
    problem: &Problem,
    asked: &Asked,
    room: u32,
    blank: Blank,
) -> Result<Told, Memory>
    requires some { 0 < length problem.now.base.members }
    requires one { length problem.now.base.pairings ≡ 1 }
    requires goal { IsGoal problem.now asked.now.goal }
    requires node { IsNode problem.now asked.now.node }
    requires plain { asked.now.lens.whole ≡ false }
    requires listed { length asked.now.lens.windows < 2 ^ 32 }
    requires name { blank.name ≡ L.name }
    requires parts { blank.parts ≡ L.parts }
    requires share { 0 < blank.parts }
{
    let Asked { goal, node, lens } = asked;
    let mut steps: Steps<L> = Steps::new(blank);
    let mut generator = Generator::new(alloc, problem, room)?;
    let answer = generator.best_in(problem, 0, goal, node, lens, &[5], &mut steps);
    Ok((answer, generator.line() == [0].as_slice()))
}

/// What it answers through a lens of this grain with so many windows.
fn told(alloc: Global, room: u32, grain: u32, count: u32) -> Result<Told, Memory> {
    let problem = alone(alloc, tenth(alloc, 61)?, 61, 61)?;
    let asked = Asked {
        goal: Goal::new(alloc),
        node: Node::new(alloc),
        lens: Lens {
            grain,
            tracked: 0,
            free30: false,
            days: false,
            whole: false,
            windows: windows(alloc, count)?,
        },
    };
    told_from::<Brand>(alloc, &problem, &asked, room, Blank::new(1))
}

#[test]
fn a_generator_answers_in_its_room(rt: HostRuntime) -> Result<(), Memory> {
    let alloc = rt.alloc();
    assert!(rt; told(alloc, 100, 60, 0)? == (Ok(Some(5)), true));
    assert!(rt; told(alloc, 1, 60, 0)? == (Err(BestInFault::Room(1)), false));
    Ok(())
}

#[test]
fn a_generator_looks_at_the_lens_first(rt: HostRuntime) -> Result<(), Memory> {
    let alloc = rt.alloc();
    let fault = BestInFault::Lens(LensFault::Grain);
    assert!(rt; told(alloc, 1, 7, 0)? == (Err(fault), false));
    Ok(())
}

#[test]
fn a_generator_looks_at_windows(rt: HostRuntime) -> Result<(), Memory> {
    let alloc = rt.alloc();
    for count in [4_u32, 5, 16] {
        assert!(rt; told(alloc, 100, 60, count)? == (Ok(Some(5)), true));
    }
    Ok(())
}
