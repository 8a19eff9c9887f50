//! What is fixed for a member.
ghost use Rattle.std.specs.Prelude.{◌≡◌, ◌<◌, length};
ghost use Rattle.roster_model.specs.Timelines.{fixed_of};

use duty_calendar::Event;
use roster_model::Problem;

/// The fixed events of the member.
pub fn fixed_of(problem: &Problem, member: u32) -> &[Event]
    requires member { member < length problem.now.base.members }
    ensures { result.now ≡ fixed_of problem.now member }
{
    let members = problem.base.members.as_slice();
    members[member as usize].fixed.as_slice()
}
