//! The members of the next month, and their texts.
ghost use Rattle.std.specs.Prelude.{◌≡◌, ◌+◌, ◌≤◌, ◌<◌, All, IfOk, IfErr, Ok, length};
ghost use Rattle.crew_files.specs.Files.{members_of};
ghost use Rattle.crew_files.specs.Texts.{crew_text, events_text};
ghost use Rattle.crew_files.specs.declared.part.Part.TheVariants.{History, Fixed};
ghost use Rattle.duty_calendar.specs.Calendar.{month_end, horizon_end};
ghost use Rattle.duty_calendar.specs.Checks.{AreMembers};
ghost use Rattle.duty_calendar.specs.declared.horizon.Horizon.{Horizon as Month};
ghost use Rattle.next_month.specs.Causes.{HasFault};
ghost use Rattle.next_month.specs.Heirs.{AreHeirs};
ghost use Rattle.next_month.specs.Lags.{Follows, ForLag};

use crate::fault::HeirFault;
use crate::member::heir;
use crate::months::lag;
use crew_files::{MemberTexts, put_members};
use duty_calendar::{Horizon, List, Member, Memory};
use roster_model::{Problem, Roster};
use std::alloc::Global;

/// The members of a crew, with what this month leaves them.
fn all_heirs(
    alloc: Global,
    problem: &Problem,
    roster: &Roster,
    crew: &[Member],
    lag: u32,
) -> Result<List<Member>, HeirFault>
    requires short { lag ≤ 46320 }
    requires lines { length roster.now ≡ length problem.now.base.members }
    requires in_range { All (All (λ p. p < length problem.now.base.pairings)) roster.now }
    requires few { length crew.now ≤ 200 }
    ensures heirs { IfOk result (AreHeirs problem.now roster.now lag crew.now) }
    ensures valid { (next : Month)
        → horizon_end problem.now.base.rules.horizon ≤ lag + month_end next
        → AreMembers next crew.now → IfOk result (AreMembers next) }
    ensures cause { IfErr result (HasFault problem.now roster.now lag crew.now) }
{
    let mut heirs = List::new(alloc);
    for (place, person) in crew.iter().enumerate() {
        let next = heir(alloc, problem, roster, person, place as u32, lag)?;
        if heirs.push(next).is_err() {
            return Err(HeirFault::NoMemory);
        }
    }
    Ok(heirs)
}

/// The members of a crew in the next month, with what this month and its roster leave them, or why they cannot be written. Names
/// of the crew that this month does not have begin with nothing.
pub fn heirs(
    alloc: Global,
    problem: &Problem,
    roster: &Roster,
    crew: &[Member],
    next: &Horizon,
) -> Result<List<Member>, HeirFault>
    requires follows { Follows problem.now.base.rules.horizon next.now }
    requires lines { length roster.now ≡ length problem.now.base.members }
    requires in_range { All (All (λ p. p < length problem.now.base.pairings)) roster.now }
    requires crew { AreMembers next.now crew.now }
    ensures heirs { IfOk result (λ made. ForLag problem.now.base.rules.horizon next.now
        (λ d. AreHeirs problem.now roster.now d crew.now made)) }
    ensures valid { IfOk result (AreMembers next.now) }
    ensures cause { IfErr result (λ why. ForLag problem.now.base.rules.horizon next.now
        (λ d. HasFault problem.now roster.now d crew.now why)) }
{
    let lag = lag(&problem.base.rules.horizon, next);
    all_heirs(alloc, problem, roster, crew, lag)
}

/// The texts of the members of a month, which its reader takes.
pub fn member_texts(
    alloc: Global,
    members: &[Member],
    month: &Horizon,
) -> Result<MemberTexts, Memory>
    requires members { AreMembers month.now members.now }
    ensures crew { IfOk result (λ texts. texts.crew ≡ crew_text members.now) }
    ensures history { IfOk result (λ texts. texts.history
        ≡ events_text month.now History members.now) }
    ensures fixed { IfOk result (λ texts. texts.fixed
        ≡ events_text month.now Fixed members.now) }
    ensures again { IfOk result (λ texts. members_of month.now texts.crew texts.history texts.fixed
        ≡ Ok members.now) }
{
    put_members(alloc, members, month)
}
