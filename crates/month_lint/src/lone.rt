//! Lines of one pairing, and the line of none.
ghost use Rattle.std.specs.Prelude.{◌<◌, All, IfOk, IfSome, length};

use duty_calendar::{List, Memory};
use roster_model::{Line, Problem};
use std::alloc::Global;

/// The line of one pairing.
#[tactic(auto, using(crate::proofs::Known::alone_known))]
pub fn line_alone(alloc: Global, problem: &Problem, pairing: u32) -> Result<Option<Line>, Memory>
    requires pairing { pairing < length problem.now.base.pairings }
    ensures known { IfOk result (λ made. IfSome made
        (λ line. All (λ p. p < length problem.now.base.pairings) line)) }
{
    let _pairings = problem.base.pairings.len();
    let mut list = List::new(alloc);
    if list.push(pairing).is_err() {
        return Err(Memory::NoMemory);
    }
    Ok(Line::new(list))
}

/// The line without a pairing.
#[tactic(auto, using(crate::proofs::Known::none_known))]
pub fn empty_line(alloc: Global, problem: &Problem) -> Option<Line>
    ensures known { IfSome result (λ line. All (λ p. p < length problem.now.base.pairings) line) }
{
    let _pairings = problem.base.pairings.len();
    Line::new(List::new(alloc))
}
