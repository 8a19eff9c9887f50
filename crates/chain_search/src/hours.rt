//! When the last free block began and until when work lasts, seen from the time of a place.

ghost use Rattle.std.specs.Prelude.{◌≡◌, ◌+◌, ◌-◌, ◌/◌, true};
ghost use Rattle.chain_search.specs.Hours.{age_after, hours_count, hours_move, hours_moves, hours_sees, hours_settled, hours_shows, hours_state, work_after};
ghost use Rattle.chain_search.specs.HourLaws.{hours_laws};

use crate::clocks::{Clock, ClockStep};
use crate::coarse::Coarse;
use crate::shifts::Shift;
use label_lattice::{Pair, Pause, PauseStep};

/// A view of the last free block by its age in quarter days, and of work by the thirds of a day that it still lasts. There are
/// thirty-two ages, of which 31 stands for all above it, and four lengths, of which 3 does; 0 says nothing.
#[derive(Clone, Copy, Drop)]
pub struct Hours;

/// A step by quarter days of age and thirds of a day of work.
#[derive(Clone, Copy, Drop)]
pub struct HoursMove {
    /// The greatest age that it takes.
    pub limit: u32,
    /// The quarter day of the place that it leaves.
    pub from: u32,
    /// The quarter day of the place that it leads to.
    pub to: u32,
    /// The greatest age after it.
    pub fresh: u32,
    /// The greatest age after it where work is over.
    pub freed: u32,
    /// The third of a day of the place that it leaves.
    pub since: u32,
    /// The third of a day of the place that it leads to.
    pub until: u32,
    /// Until when the work that it brings lasts.
    pub busy: u32,
    /// When work has to be over for a block.
    pub over: u32,
}

/// The age at this time of a block that began at that one, the quarter day of its begin counted in; 0 where it begins later.
fn age_at(time: u32, began: u32) -> u32
    ensures age { result ≡ time / 360 + 1 - began / 360 }
{
    (time / 360 + 1).saturating_sub(began / 360)
}

/// The state of this age where so much of work is left.
fn hours_state(age: u64, left: u64) -> u32
    ensures state { result ≡ hours_state age left }
{
    age.min(31) as u32 * 4 + left.min(3) as u32
}

impl HoursMove {
    /// The age after the step where work is not over.
    fn age_after(&self, age: u32) -> u64
        ensures age { result ≡ age_after self.now age }
    {
        let kept = if age == 0 {
            0
        } else {
            (u64::from(age) + u64::from(self.to)).saturating_sub(u64::from(self.from))
        };
        kept.min(u64::from(self.fresh))
    }

    /// Until when work lasts at least, by what is left of it before the step.
    fn work_after(&self, left: u32) -> u64
        ensures work { result ≡ work_after self.now left }
    {
        let kept = if left == 0 {
            0
        } else {
            u64::from(left) + u64::from(self.since)
        };
        kept.max(u64::from(self.busy))
    }

    /// The state after the step, by the age and by until when work lasts.
    fn settled(&self, age: u64, ends: u64) -> u32
        ensures settled { result ≡ hours_settled self.now age ends }
    {
        if ends <= u64::from(self.over) {
            return hours_state(age.min(u64::from(self.freed)), 0);
        }
        hours_state(age, ends.saturating_sub(u64::from(self.until)))
    }
}

impl Coarse<Pair<Clock, Pause>> for Hours {
    type Move = HoursMove;

    ghost count = { hours_count };

    ghost shows = { hours_shows };

    ghost sees = { hours_sees };

    ghost moves = { hours_moves };

    ghost move_of = { hours_move };

    ghost ends = { λ view state. true };

    ghost fits_step = { λ view step. true };

    ghost fits_end = { λ view end. true };

    fn count(&self) -> usize {
        128
    }

    fn shows(&self, resource: &Pair<Clock, Pause>) -> u32 {
        let (clock, pause) = (&resource.first, &resource.second);
        let age = age_at(clock.early, pause.latest);
        let left = (pause.busy / 480).saturating_sub(clock.late / 480);
        hours_state(u64::from(age), u64::from(left))
    }

    fn moves(by: &HoursMove, state: u32) -> Option<u32> {
        if by.limit < state / 4 {
            return None;
        }
        let age = by.age_after(state / 4);
        let ends = by.work_after(state % 4);
        Some(by.settled(age, ends))
    }

    fn shift(&self, _by: &HoursMove) -> Shift {
        Shift::Own
    }

    fn move_of(&self, step: &(ClockStep, PauseStep)) -> HoursMove {
        let (clock, pause) = (&step.0, &step.1);
        HoursMove {
            limit: age_at(clock.from, pause.least),
            from: clock.from / 360,
            to: clock.to / 360,
            fresh: age_at(clock.to, pause.renew),
            freed: age_at(clock.to, pause.free),
            since: clock.from / 480,
            until: clock.to / 480,
            busy: pause.busy / 480,
            over: pause.free / 480,
        }
    }

    fn ends(&self, _state: u32) -> bool {
        true
    }

    fn fits_step(&self, _step: &(ClockStep, PauseStep)) -> bool {
        true
    }

    fn fits_end(&self, _end: &((), ())) -> bool {
        true
    }

    ghost laws = { hours_laws };
}
