//! Which labels at a place need not be followed beside others.

ghost use Rattle.std.specs.Prelude.{◌≡◌, ℕ, Bool};
ghost use Rattle.chain_search.specs.Orders.{IsOrder};

use label_lattice::Resource;
use label_setter::Graph;

/// An order of the resources at each place. A resource that spares another goes on wherever that one does, and is done
/// wherever that one is.
pub trait Order<R: Resource> {
    /// At this place the second need not be followed beside the first.
    ghost spares: { Self → ℕ → R → R → Bool };

    fn spares(&self, place: u32, first: &R, second: &R) -> bool
        ensures spares { result ≡ spares self.now place first.now second.now };
}

/// At each place what is below spares what it is below.
#[derive(Clone, Copy, Debug, Drop, PartialEq, Eq)]
pub struct Below;

impl<R: Resource> Order<R> for Below {
    ghost spares = { λ order place. R.below };

    fn spares(&self, _place: u32, first: &R, second: &R) -> bool {
        first.below(second)
    }
}

/// The order of what is below, at the places of any graph.
pub fn below_order<R: Resource>(_graph: &Graph<R>) -> Below
    ensures order { IsOrder R.extend R.done _graph.now (λ place. R.below) }
{
    Below
}
