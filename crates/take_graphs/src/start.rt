//! The label at the source of a graph of takes.
ghost use Rattle.std.specs.Prelude.{◌≡◌, ◌<◌, length};
ghost use Rattle.take_graphs.specs.TakeLabels.{take_start};
ghost use Rattle.line_items.specs.Masks.{IsMask};
ghost use Rattle.line_items.specs.declared.masks.Mark.TheVariants.{Start};

use crate::take_lines::TakeLabel;
use label_lattice::{Daily, Mask, Nights, Pair, Pause, Usage};
use line_items::{base_usage, first_credit, first_nights, fixed_busy_days, start_bits};
use roster_model::{Lens, Problem};

/// The label at the source of a graph that passes and takes.
pub(crate) fn take_start<const N: usize>(
    problem: &Problem,
    member: u32,
    lens: &Lens,
) -> TakeLabel<N>
    requires member { member < length problem.now.base.members }
    ensures bits { IsMask problem.now member lens.now Start result.second.first.bits }
    ensures start { result ≡ take_start problem.now member lens.now result.second.first.bits }
{
    let usage = Usage {
        counters: base_usage(problem, member, lens),
    };
    let days = Daily {
        count: fixed_busy_days(problem, member, lens),
        today: false,
    };
    let (count, until) = first_nights(problem, member, lens);
    let nights = Nights { count, until };
    Pair {
        first: first_credit(problem, member),
        second: Pair {
            first: Mask {
                bits: start_bits(problem, member, lens),
            },
            second: Pair {
                first: Pause { latest: 0, busy: 0 },
                second: Pair {
                    first: days,
                    second: Pair {
                        first: nights,
                        second: usage,
                    },
                },
            },
        },
    }
}
