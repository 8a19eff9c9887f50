//! The least of two bounds on what chains may still gain.

ghost use Rattle.std.specs.Prelude.{◌≡◌};
ghost use Rattle.chain_search.specs.Bounds.{IsBound};
ghost use Rattle.chain_search.specs.LeastRests.{least_of};

use label_lattice::Resource;
use label_setter::{Graph, Rest};

/// The least of two bounds at each place and resource.
#[derive(Drop)]
pub struct LeastRest<A, B> {
    pub first: A,
    pub second: B,
}

impl<R, A: Rest<R>, B: Rest<R>> Rest<R> for LeastRest<A, B> {
    ghost use Rattle.chain_search.specs.LeastRests.{least_of};

    ghost rest = { λ both. least_of (A.rest both.first) (B.rest both.second) };

    fn rest(&self, place: u32, resource: &R) -> i64 {
        let first = self.first.rest(place, resource);
        let second = self.second.rest(place, resource);
        first.min(second)
    }
}

/// Two bounds on the chains of a graph as one, the least of both. Nested calls serve for three and more.
pub fn least_rest<R: Resource, A: Rest<R>, B: Rest<R>>(
    _graph: &Graph<R>,
    first: A,
    second: B,
) -> LeastRest<A, B>
    requires first { IsBound R.extend R.done _graph.now (A.rest first) }
    requires second { IsBound R.extend R.done _graph.now (B.rest second) }
    ensures parts { result ≡ record { first = first; second = second } }
    ensures rest { IsBound R.extend R.done _graph.now
        (least_of (A.rest result.first) (B.rest result.second)) }
{
    LeastRest { first, second }
}
