//! The arcs that leave each place.

ghost use Rattle.std.specs.Prelude.{◌≡◌, ◌+◌, ◌<◌, [], All, IfOk, Some, length, map, slice_get};
ghost use Rattle.label_setter.specs.Graphs.{IsGraph};
ghost use Rattle.chain_search.specs.Leavings.{AreWays};

use duty_calendar::Memory;
use label_lattice::Resource;
use label_setter::Graph;
use std::alloc::Global;
use std::marker::Model;

/// For each place of a graph the numbers of the arcs that leave it. Contracts see the lists, place by place.
#[derive(Drop)]
pub struct Ways {
    lists: Vec<Vec<u32>>,
}

impl Model for Ways {
    ghost use Rattle.std.specs.Prelude.{ℕ, List, map};

    ghost Value = { List (List ℕ) };

    ghost view = { λ w. map (λ list. list.items) w.lists.items };
}

/// The last place of a graph, to which all its chains lead.
pub(crate) fn sink_of<R: Resource>(graph: &Graph<R>) -> u32
    ensures sink { result + 1 ≡ graph.now.places }
    ensures graph { IsGraph graph.now.places graph.now.arcs }
{
    let _arcs = graph.arcs();
    graph.places() - 1
}

/// So many empty lists.
fn empty_lists(alloc: Global, count: u32) -> Result<Vec<Vec<u32>>, Memory>
    ensures count { IfOk result (λ lists. length lists.items ≡ count) }
    ensures empty { IfOk result (λ lists. All (λ list. list.items ≡ []) lists.items) }
{
    let mut lists = Vec::new(alloc);
    for _place in 0..count {
        lists.push(Vec::new(alloc))?;
    }
    Ok(lists)
}

impl Ways {
    /// The ways of a graph, in one pass over its arcs.
    pub fn new<R: Resource>(alloc: Global, graph: &Graph<R>) -> Result<Ways, Memory>
        ensures ways { IfOk result (AreWays graph.now.arcs graph.now.places) }
    {
        let mut lists = empty_lists(alloc, graph.places())?;
        for (number, arc) in graph.arcs().iter().enumerate() {
            let list = &mut lists[arc.from as usize];
            list.push(number as u32)?;
        }
        Ok(Ways { lists })
    }

    /// The arcs that leave this place.
    pub fn from(&self, place: u32) -> &[u32]
        requires within { place < length self.now }
        ensures leaving { slice_get self.now place ≡ Some result.now }
    {
        &self.lists[place as usize]
    }
}
