//! What flat searches ask of a member's month, which is found once: the pairings that the member may fly, by report, and what
//! is fixed.

use crate::free_hours::{Own, Rested};
use crate::ladder::first_lens;
use crate::profiles::{is_member, number};
use duty_calendar::{Event, Interval, Kind, Memory};
use line_items::{first_credit, fixed_days, mask_step, may_fly, start_bits, touched_days};
use roster_model::{Lens, Node, Problem, Wish, pairing_span};
use std::alloc::Global;

/// The first minute of a month.
const MONTH: u32 = 525_600;

/// A pairing that a member may fly: its days in the month as bits, the member's bids that it grants or spoils as bits, and
/// from where to where its duties stand on the sheet.
#[derive(Clone, Copy)]
pub(crate) struct Flight {
    pub pairing: u32,
    pub span: Interval,
    pub credit: u32,
    pub days: u32,
    pub grants: u64,
    pub spoils: u64,
    pub from: usize,
    pub to: usize,
}

/// A member's month: the pairings by report, and their duties; the member's own duties in the month, and the free hours before
/// it; the bids that one pairing may decide, those that the member begins without, and those of them that a pairing grants;
/// what all bids weigh; and the credit and the days of what is fixed.
#[derive(Drop)]
pub(crate) struct Sheet {
    pub flights: Vec<Flight>,
    pub duties: Vec<Interval>,
    pub own: Vec<Own>,
    pub rested: Rested,
    pub tracked: u64,
    pub start: u64,
    pub wanting: u64,
    pub weights: Vec<u32>,
    pub credit: u32,
    pub days: u32,
}

/// A pairing by its report.
#[derive(Clone, Copy)]
struct Reporting {
    report: u32,
    pairing: u32,
}

/// The pairings by report.
fn by_report(alloc: Global, problem: &Problem) -> Result<Vec<Reporting>, Memory> {
    let mut order = Vec::new(alloc);
    for (place, pairing) in problem.base.pairings.as_slice().iter().enumerate() {
        order.push(Reporting {
            report: pairing_span(pairing).start,
            pairing: number(place),
        })?;
    }
    order.sort_by_key(|one: &Reporting| one.report)?;
    Ok(order)
}

/// Whether a pairing grants the wish, and not spoils it.
fn is_wanting(wish: &Wish) -> bool {
    match wish {
        Wish::Fly(_) => true,
        Wish::Prefer(least, _) => *least == 1,
        _ => false,
    }
}

impl Flight {
    /// No pairing.
    pub(crate) fn none() -> Flight {
        Flight {
            pairing: 0,
            span: Interval { start: 0, stop: 0 },
            credit: 0,
            days: 0,
            grants: 0,
            spoils: 0,
            from: 0,
            to: 0,
        }
    }
}

impl Sheet {
    /// Nothing but the bids that one pairing may decide.
    fn empty(alloc: Global, lens: &Lens) -> Sheet {
        Sheet {
            flights: Vec::new(alloc),
            duties: Vec::new(alloc),
            own: Vec::new(alloc),
            rested: Rested::new(),
            tracked: lens.tracked,
            start: 0,
            wanting: 0,
            weights: Vec::new(alloc),
            credit: 0,
            days: 0,
        }
    }

    /// Adds the duties of events.
    fn add_own(&mut self, events: &[Event]) -> Result<(), Memory> {
        for event in events {
            let span = Interval {
                start: event.report,
                stop: event.release,
            };
            match event.kind {
                Kind::Leave => {}
                _ if event.report < MONTH => {
                    self.rested.renew(span.start);
                    self.rested.rest = self.rested.rest.max(span.stop);
                }
                kind => {
                    let is_due = kind == Kind::Flight;
                    self.own.push(Own { span, is_due })?;
                }
            }
        }
        Ok(())
    }

    /// Adds the bids of the member.
    fn add_bids(&mut self, problem: &Problem, member: u32) -> Result<(), Memory> {
        let Some(bids) = problem.bids.as_slice().get(member as usize) else {
            return Ok(());
        };
        for (place, bid) in bids.as_slice().iter().enumerate() {
            self.weights.push(bid.weight)?;
            if is_wanting(&bid.wish) && place < 64 {
                self.wanting |= 1u64 << place;
            }
        }
        Ok(())
    }

    /// Adds a pairing, if the member may fly it.
    fn add(
        &mut self,
        problem: &Problem,
        member: u32,
        lens: &Lens,
        node: &Node,
        place: u32,
    ) -> Result<(), Memory> {
        let Some(pairing) = problem.base.pairings.as_slice().get(place as usize) else {
            return Ok(());
        };
        if !is_member(problem, member) || !may_fly(problem, member, node, place) {
            return Ok(());
        }
        let from = self.duties.len();
        for duty in pairing.duties.as_slice() {
            self.duties.push(Interval {
                start: duty.report,
                stop: duty.release,
            })?;
        }
        let span = pairing_span(pairing);
        let step = mask_step(problem, member, lens, place);
        self.flights.push(Flight {
            pairing: place,
            span,
            credit: pairing.credit,
            days: touched_days(problem.base.rules.horizon.days(), span),
            grants: step.clear,
            spoils: step.set,
            from,
            to: self.duties.len(),
        })?;
        Ok(())
    }

    /// The sheet of a member, where the pairings are in this order.
    fn new(
        alloc: Global,
        problem: &Problem,
        order: &[Reporting],
        member: u32,
    ) -> Result<Sheet, Memory> {
        let lens = first_lens(alloc, problem, member as usize);
        let mut sheet = Sheet::empty(alloc, &lens);
        if !is_member(problem, member) {
            return Ok(sheet);
        }
        sheet.start = start_bits(problem, member, &lens);
        sheet.credit = first_credit(problem, member).down;
        sheet.days = fixed_days(problem, member);
        if let Some(owner) = problem.base.members.as_slice().get(member as usize) {
            sheet.add_own(owner.history.as_slice())?;
            sheet.add_own(owner.fixed.as_slice())?;
            sheet.own.sort_by_key(|own: &Own| own.span.start)?;
        }
        sheet.add_bids(problem, member)?;
        let node = Node::new(alloc);
        for one in order {
            sheet.add(problem, member, &lens, &node, one.pairing)?;
        }
        Ok(sheet)
    }

    /// The sheets of all members.
    pub(crate) fn all(alloc: Global, problem: &Problem) -> Result<Vec<Sheet>, Memory> {
        let order = by_report(alloc, problem)?;
        let mut sheets = Vec::new(alloc);
        for member in 0..problem.base.members.len() {
            sheets.push(Sheet::new(alloc, problem, &order, number(member))?)?;
        }
        Ok(sheets)
    }
}
