//! Labels from which all ways were tried, beside each place.

ghost use Rattle.std.specs.Prelude.{◌≡◌, ◌<◌, [], All, IfOk, IfSome, OnOk, length, slice_get};
ghost use Rattle.std.specs.List.{list_any};
ghost use Rattle.chain_search.specs.Marking.{HoldsMore, KeepsMark, dispenses};

use crate::order::Order;
use duty_calendar::Memory;
use label_lattice::Resource;
use std::alloc::Global;
use std::marker::Model;

/// So many marks stand beside a place, and then the oldest gives way.
const MOST: usize = 16;

/// What a label from which all ways were tried gained, and its resource.
#[derive(Clone, Copy)]
pub struct Mark<R> {
    pub gain: i64,
    pub resource: R,
}

/// The marks of a place, and which of them gives way next where it is full.
#[derive(Drop)]
pub struct MarkRow<R> {
    marks: Vec<Mark<R>>,
    next: usize,
}

/// The marks of all places. Contracts see them place by place.
#[derive(Drop)]
pub struct Marks<R> {
    rows: Vec<MarkRow<R>>,
}

impl<R> Model for Marks<R> {
    ghost use Rattle.std.specs.Prelude.{List, map};
    ghost use Rattle.chain_search.specs.declared.marks.Mark.{Mark};

    ghost Value = { List (List (Mark R)) };

    ghost view = { λ m. map (λ row. row.marks.items) m.rows.items };
}

/// One of the marks has no less gain, and a resource that spares this one at the place.
fn any_dispenses<R: Resource, O: Order<R>>(
    order: &O,
    place: u32,
    marks: &[Mark<R>],
    gain: i64,
    resource: &R,
) -> bool
    ensures any { result ≡ list_any
        (λ mark. dispenses (O.spares order.now place) mark gain resource.now) marks.now }
{
    marks.iter().any(|mark| gain <= mark.gain && order.spares(place, &mark.resource, resource))
}

impl<R: Resource> MarkRow<R> {
    /// Puts a mark into the row.
    fn keep(&mut self, mark: Mark<R>) -> Result<(), Memory>
        ensures kept { OnOk result (HoldsMore self.old.marks.items mark self.new.marks.items) }
    {
        if self.marks.len() < MOST {
            self.marks.push(mark)?;
            return Ok(());
        }
        let slot = self.next % MOST;
        self.marks[slot] = mark;
        self.next = slot + 1;
        Ok(())
    }
}

impl<R: Resource> Marks<R> {
    /// No mark beside any of so many places.
    pub fn new(alloc: Global, places: u32) -> Result<Marks<R>, Memory>
        ensures count { IfOk result (λ marks. length marks ≡ places) }
        ensures none { IfOk result (All (λ row. row ≡ [])) }
    {
        let mut rows = Vec::new(alloc);
        for _place in 0..places {
            rows.push(MarkRow {
                marks: Vec::new(alloc),
                next: 0,
            })?;
        }
        Ok(Marks { rows })
    }

    /// One of the marks beside the place dispenses with a label of this gain and resource.
    pub fn dispense<O: Order<R>>(&self, order: &O, place: u32, gain: i64, resource: &R) -> bool
        requires within { place < length self.now }
        ensures any { IfSome (slice_get self.now place) (λ row. result ≡ list_any
            (λ mark. dispenses (O.spares order.now place) mark gain resource.now) row) }
    {
        let row = &self.rows[place as usize];
        any_dispenses(order, place, &row.marks, gain, resource)
    }

    /// Puts a mark beside the place.
    pub fn keep(&mut self, place: u32, mark: Mark<R>) -> Result<(), Memory>
        requires within { place < length self.old }
        ensures kept { OnOk result (KeepsMark self.old place mark self.new) }
    {
        let row = &mut self.rows[place as usize];
        row.keep(mark)
    }
}
