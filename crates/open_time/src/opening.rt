//! The search for the fewest vacant lines.
ghost use Rattle.std.specs.Prelude.{◌≡◌, ◌≤◌, length, OnOk, IfOk, IfErr};
ghost use Rattle.open_time.specs.Vacant.{HasRoomFor, IsOpenFault};
ghost use Rattle.open_time.specs.Opened.{IsOpened};

use crate::fault::OpenFault;
use crate::opened::Opened;
use crate::tries::{Attempt, Tried, try_over};
use crate::vacant::{add_vacant, admit};
use branch_log::Closer;
use duty_calendar::Memory;
use roster_model::{Problem, Proof};
use std::alloc::Global;

/// How many members there are.
fn crew_of(problem: &Problem) -> u32
    ensures value { result ≡ length problem.now.base.members }
{
    problem.base.members.len() as u32
}

/// The fewest vacant lines with which the crew can fly the month, up to a ceiling, and the award at that number. The
/// numbers are tried from 0 on, each over a ledger of its own with room for so many nodes, by a closer that `make` gives
/// for its month.
pub fn fewest<C: Closer + Drop, M: FnMut(&Problem) -> Result<C, Memory>>(
    alloc: Global,
    problem: &Problem,
    ceiling: u32,
    nodes: u32,
    mut make: M,
) -> Result<Opened, OpenFault>
    requires few { ceiling ≤ 4294967095 }
    requires callable { M.IsAlwaysCallable make }
    requires makes { (state : M) (month : _) (made : _) → M.post state month made
        → IfOk made (λ closer. C.fits closer month.now × (C.rounds closer ≡ 400)) }
    ensures opened { IfOk result (IsOpened problem.now ceiling nodes) }
    ensures room { OnOk result (HasRoomFor problem.now ceiling) }
    ensures fault { IfErr result (IsOpenFault problem.now ceiling) }
{
    admit(alloc, problem, ceiling)?;
    let mut none: Option<Proof> = None;
    let crew = crew_of(problem);
    for count in 0..ceiling + 1 {
        let made = add_vacant(alloc, problem, count)?;
        let closer = make(&made)?;
        let Attempt { tried, ledger } = try_over(alloc, &made, crew, closer, nodes)?;
        match tried {
            Tried::Award(roster, awarded, reasons) => {
                return Ok(Opened::Award(count, none, roster, awarded, reasons, ledger));
            }
            Tried::NoRoster(proof) => {
                if count == ceiling {
                    return Ok(Opened::NoRoster(proof, ledger));
                }
                none = Some(proof);
            }
            Tried::Spent => return Ok(Opened::Spent(count, ledger)),
        }
    }
    unreachable!()
}
