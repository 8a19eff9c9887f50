//! What is due to a low end.

ghost use Rattle.std.specs.Prelude.{◌≡◌, ◌-◌, ◌==◌, Some};
ghost use Rattle.chain_search.specs.Dues.{due_count, due_fits, due_fits_end, due_move, due_sees, due_shows, units_over};
ghost use Rattle.chain_search.specs.DueLaws.{due_laws};

use crate::coarse::Coarse;
use crate::rooms::units_in;
use crate::shifts::Shift;
use label_lattice::{Span, SpanEnd, SpanStep};

/// How many units, a part of one counted whole, `up` is below the low end. A part of a unit that a step adds counts
/// whole. The view knows ends that ask for at least this low end.
#[derive(Clone, Copy, Debug, Drop, PartialEq, Eq)]
pub struct Due {
    pub low: u32,
    pub unit: u32,
}

/// How many units it takes to reach an amount.
fn units_over(amount: u32, unit: u32) -> u32
    ensures units { result ≡ units_over amount unit }
{
    let whole = units_in(amount, unit);
    if whole * unit < amount {
        whole + 1
    } else {
        whole
    }
}

impl Coarse<Span> for Due {
    type Move = u32;

    ghost count = { due_count };

    ghost shows = { due_shows };

    ghost sees = { due_sees };

    ghost moves = { λ by state. Some (state - by) };

    ghost move_of = { due_move };

    ghost ends = { λ due state. state == 0 };

    ghost fits_step = { due_fits };

    ghost fits_end = { due_fits_end };

    fn count(&self) -> usize {
        units_over(self.low, self.unit) as usize + 1
    }

    fn shows(&self, resource: &Span) -> u32 {
        units_over(self.low.saturating_sub(resource.up), self.unit)
    }

    fn moves(by: &u32, state: u32) -> Option<u32> {
        Some(state.saturating_sub(*by))
    }

    fn shift(&self, by: &u32) -> Shift {
        Shift::Floor(*by)
    }

    fn move_of(&self, step: &SpanStep) -> u32 {
        units_over(step.up, self.unit)
    }

    fn ends(&self, state: u32) -> bool {
        state == 0
    }

    fn fits_step(&self, _step: &SpanStep) -> bool {
        self.low <= 1 << 31
    }

    fn fits_end(&self, end: &SpanEnd) -> bool {
        self.low <= end.low
    }

    ghost laws = { due_laws };
}
