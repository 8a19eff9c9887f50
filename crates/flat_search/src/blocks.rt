//! What may still be gained by the free hours: a table by places and by where the last free hours begin. A block of work is what a
//! line has between two free hours; each of its duties reports within 168 hours of the beginning of those before it.

use crate::free_hours::{FREE, WITHIN};
use crate::places::Place;
use crate::sheets::Sheet;
use crate::tables::LOWEST;
use duty_calendar::{Interval, Memory};
use std::alloc::Global;

/// How a place lies among free hours: the first place whose report its block of work may have begun with, whether its pairing has
/// free hours of its own, the first place that reports so late that there are free hours between, and where the row of the place
/// begins.
#[derive(Clone, Copy)]
struct Spell {
    first: usize,
    is_renewed: bool,
    after: usize,
    row: usize,
}

/// For each place what may be gained from it on in a new block of work (the end has nothing), and by a row for each place what may
/// be gained with its pairing in a block that began with an earlier one.
#[derive(Drop)]
pub(crate) struct Blocks {
    reports: Vec<u32>,
    spells: Vec<Spell>,
    fresh: Vec<i64>,
    cells: Vec<i64>,
}

/// The first of these reports that is not before a minute, by its number.
fn first_from(reports: &[u32], minute: u32) -> usize {
    reports.partition_point(|report| *report < minute)
}

/// When the pairings of these places report; the last one is the end.
fn reports_of(alloc: Global, places: &[Place]) -> Result<Vec<u32>, Memory> {
    let mut reports: Vec<u32> = Vec::new(alloc);
    for place in places.iter().take(places.len().saturating_sub(1)) {
        reports.push(place.flight.span.start)?;
    }
    Ok(reports)
}

/// The last report of duties before there are free hours among them, and whether there are.
#[derive(Clone, Copy)]
struct Reports {
    last: u32,
    is_renewed: bool,
}

impl Reports {
    /// Those of these duties.
    fn of(duties: &[Interval]) -> Reports {
        let mut reports = Reports {
            last: 0,
            is_renewed: false,
        };
        let mut rest = u32::MAX;
        for duty in duties {
            if duty.start.saturating_sub(rest) >= FREE {
                reports.is_renewed = true;
                return reports;
            }
            reports.last = duty.start;
            rest = duty.stop;
        }
        reports
    }
}

impl Blocks {
    /// The table of these places, the last of which is the end; what is gained is not filled in.
    pub(crate) fn new(alloc: Global, sheet: &Sheet, places: &[Place]) -> Result<Blocks, Memory> {
        let reports = reports_of(alloc, places)?;
        let mut spells: Vec<Spell> = Vec::new(alloc);
        let mut size: usize = 0;
        for (number, place) in places.iter().take(reports.len()).enumerate() {
            let duties = sheet.duties.get(place.flight.from..place.flight.to);
            let own = Reports::of(duties.unwrap_or(&[]));
            let begin = own.last.saturating_add(FREE).saturating_sub(WITHIN);
            let first = first_from(&reports, begin).min(number);
            let ready = place.flight.span.stop.saturating_add(FREE);
            spells.push(Spell {
                first,
                is_renewed: own.is_renewed,
                after: first_from(&reports, ready),
                row: size,
            })?;
            size = size
                .saturating_add(number.saturating_sub(first))
                .saturating_add(1);
        }
        Ok(Blocks {
            reports,
            spells,
            fresh: vec![in alloc; 0i64; places.len()]?,
            cells: vec![in alloc; LOWEST; size]?,
        })
    }

    /// What may be gained with the pairing of a place in a block that began with that of another.
    fn at(&self, place: usize, begin: usize) -> i64 {
        let Some(spell) = self.spells.get(place) else {
            return LOWEST;
        };
        if begin < spell.first {
            return LOWEST;
        }
        let own = begin.min(place).wrapping_sub(spell.first);
        let index = spell.row.wrapping_add(own);
        self.cells.get(index).copied().unwrap_or(LOWEST)
    }

    /// What may be gained from a place on, in a block that began with the pairing of another, where new ones begin from a third
    /// on.
    pub(crate) fn most(&self, place: usize, begin: usize, after: usize) -> i64 {
        let later = after.max(place);
        let mut most = self.fresh.get(later).copied().unwrap_or(0);
        for other in place..later {
            most = most.max(self.at(other, begin));
        }
        most
    }

    /// Fills in what may be gained from a place on, where those behind it are filled in.
    fn fill_place(&mut self, number: usize, place: &Place) {
        let Some(spell) = self.spells.get(number).copied() else {
            return;
        };
        for begin in spell.first..number.saturating_add(1) {
            let block = if spell.is_renewed { usize::MAX } else { begin };
            let then = self.most(place.next, block, spell.after);
            let index = spell.row.wrapping_add(begin.wrapping_sub(spell.first));
            if let Some(cell) = self.cells.get_mut(index) {
                *cell = place.gain.wrapping_add(then);
            }
        }
        let own = self.at(number, number);
        let passed = self
            .fresh
            .get(number.saturating_add(1))
            .copied()
            .unwrap_or(0);
        if let Some(fresh) = self.fresh.get_mut(number) {
            *fresh = own.max(passed);
        }
    }

    /// Fills in what may be gained from each of the places on.
    pub(crate) fn fill(&mut self, places: &[Place]) {
        for number in (0..places.len()).rev() {
            if let Some(place) = places.get(number) {
                self.fill_place(number, place);
            }
        }
    }

    /// The first place before whose report there are free hours from this minute on.
    pub(crate) fn after(&self, minute: u32) -> usize {
        first_from(&self.reports, minute.saturating_add(FREE))
    }
}
