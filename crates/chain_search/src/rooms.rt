//! What is left of a cap.

ghost use Rattle.std.specs.Prelude.{◌≡◌, ◌/◌, true};
ghost use Rattle.chain_search.specs.Rooms.{less_by, room_count, room_fits, room_move, room_sees, room_shows};
ghost use Rattle.chain_search.specs.RoomLaws.{room_laws};

use crate::coarse::Coarse;
use crate::shifts::Shift;
use label_lattice::{Span, SpanEnd, SpanStep};

/// How many whole units `down` is below the cap. The view follows steps with this cap, and takes off as many whole units
/// as they add. With a unit of 0 it has one state.
#[derive(Clone, Copy, Debug, Drop, PartialEq, Eq)]
pub struct Room {
    pub cap: u32,
    pub unit: u32,
}

/// How many whole units there are in an amount; none where the unit is 0.
pub(crate) fn units_in(amount: u32, unit: u32) -> u32
    ensures units { result ≡ amount / unit }
{
    amount.checked_div(unit).unwrap_or(0)
}

impl Coarse<Span> for Room {
    type Move = u32;

    ghost count = { room_count };

    ghost shows = { room_shows };

    ghost sees = { room_sees };

    ghost moves = { less_by };

    ghost move_of = { room_move };

    ghost ends = { λ room state. true };

    ghost fits_step = { room_fits };

    ghost fits_end = { λ room end. true };

    fn count(&self) -> usize {
        units_in(self.cap, self.unit) as usize + 1
    }

    fn shows(&self, resource: &Span) -> u32 {
        units_in(self.cap.saturating_sub(resource.down), self.unit)
    }

    fn moves(by: &u32, state: u32) -> Option<u32> {
        state.checked_sub(*by)
    }

    fn shift(&self, by: &u32) -> Shift {
        Shift::Less(*by)
    }

    fn move_of(&self, step: &SpanStep) -> u32 {
        units_in(step.down, self.unit)
    }

    fn ends(&self, _state: u32) -> bool {
        true
    }

    fn fits_step(&self, step: &SpanStep) -> bool {
        step.cap == self.cap
    }

    fn fits_end(&self, _end: &SpanEnd) -> bool {
        true
    }

    ghost laws = { room_laws };
}
