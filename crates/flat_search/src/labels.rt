//! Labels of a flat search: parts of lines up to a place. A label is extended by its pairing or without it, let go where what may
//! still be gained is too little, and let go where another at its place serves as well (dominance).

use crate::course::{Bids, Course, weigh_bids};
use crate::free_hours::Rested;
use crate::places::Place;
use crate::sheets::Sheet;
use crate::sizes::WINDOWS;
use crate::tables::LOWEST;

/// A part of a line: the place that is next, the pairing that was taken last by its number on the trail, what is gained and
/// what is gained at best with what may come, wanted bids that are lost or not granted yet, how much of their weight is lost for
/// good, credit, free hours, the first place whose report is behind these, the first place that may have free hours before it, days
/// that are busy, and minutes in windows.
#[derive(Clone, Copy)]
pub(crate) struct Label {
    pub place: usize,
    pub taken: usize,
    pub gain: i64,
    pub best: i64,
    pub bids: u64,
    pub lost: u32,
    pub credit: u32,
    pub rested: Rested,
    pub block: usize,
    pub after: usize,
    pub days: u32,
    pub usage: [u32; WINDOWS],
}

/// By what labels are extended: of what course, with which least credit, and above which bound.
#[derive(Clone, Copy)]
pub(crate) struct Climb<'a> {
    pub course: &'a Course,
    pub sheet: &'a Sheet,
    pub bids: &'a Bids,
    pub low: u32,
    pub over: i64,
}

impl Label {
    /// The part without pairings.
    pub(crate) fn first(course: &Course) -> Label {
        Label {
            place: 0,
            taken: 0,
            gain: 0,
            best: 0,
            bids: course.start.bids,
            lost: 0,
            credit: course.start.credit,
            rested: course.start.rested,
            block: course.blocks.after(course.start.rested.free),
            after: course.blocks.after(course.start.rested.rest),
            days: 0,
            usage: course.start.usage,
        }
    }

    /// Bids that are not granted yet and can't be any more are lost, if no table tells them apart.
    fn lose(&mut self, course: &Course, told: u64, place: &Place) {
        let over = self.bids & !place.ahead.grants & !told & !course.spoiled;
        if over != 0 {
            let weight = weigh_bids(&course.weights, over);
            self.lost = self.lost.saturating_add(weight);
            self.bids &= !over;
        }
    }

    /// Forgets what can't pass a limit any more: minutes in windows, and busy days.
    fn forget(&mut self, course: &Course, place: &Place) {
        let ahead = place.ahead.usage.iter().zip(course.caps.iter());
        for (used, (more, cap)) in self.usage.iter_mut().zip(ahead) {
            if used.saturating_add(*more) <= *cap {
                *used = 0;
            }
        }
        if self.days.count_ones().saturating_add(place.ahead.days) <= course.most_days {
            self.days = 0;
        }
    }

    /// Adds minutes in windows. Tells whether they may be.
    fn fly(&mut self, usage: &[u32; WINDOWS], caps: &[u32; WINDOWS]) -> bool {
        let mut is_within = true;
        for (used, (more, cap)) in self.usage.iter_mut().zip(usage.iter().zip(caps.iter())) {
            *used = used.saturating_add(*more);
            if *used > *cap {
                is_within = false;
            }
        }
        is_within
    }
}

impl Climb<'_> {
    /// Whether the label stands at the end.
    pub(crate) fn is_at_end(&self, label: &Label) -> bool {
        label.place >= self.course.len()
    }

    /// Settles what can't change any more from the label's place on. Tells whether it may still become a line.
    fn settle(&self, label: &mut Label) -> bool {
        let course = self.course;
        let Some(place) = course.places.get(label.place) else {
            return false;
        };
        label.lose(course, self.bids.told, place);
        let most = label.credit.saturating_add(place.ahead.credit);
        if label.lost > course.allowed || most < self.low {
            return false;
        }
        label.forget(course, place);
        if self.is_at_end(label) {
            return label.rested.meet_own(&self.sheet.own, u32::MAX);
        }
        if self.sheet.own.is_empty() {
            label.rested.renew(place.flight.span.start);
        }
        true
    }

    /// Sets what may be gained at best. Tells whether that is above the bound.
    fn rate(&self, label: &mut Label) -> bool {
        let course = self.course;
        let back = course.len().saturating_sub(label.place);
        let bids = label.bids & self.bids.told;
        let by_bids = self.bids.table.at(back, bids as usize);
        let mut most = course.hours.most(back, label.credit, self.low).min(by_bids);
        if course.has_blocks && label.gain.wrapping_add(most) > self.over {
            let by_blocks = course.blocks.most(label.place, label.block, label.after);
            most = most.min(by_blocks);
        }
        label.best = label.gain.wrapping_add(most);
        most > LOWEST / 4 && label.best > self.over
    }

    /// The label, if it may become a line above the bound.
    pub(crate) fn rated(&self, label: Label) -> Option<Label> {
        let mut label = label;
        if self.settle(&mut label) && self.rate(&mut label) {
            Some(label)
        } else {
            None
        }
    }

    /// Goes on over the duties of a place. Tells whether the free hours suffice.
    fn work(&self, rested: &mut Rested, place: &Place) -> bool {
        let duties = self.sheet.duties.get(place.flight.from..place.flight.to);
        for duty in duties.unwrap_or(&[]) {
            if !rested.meet_own(&self.sheet.own, duty.start) || !rested.meet(*duty, true) {
                return false;
            }
        }
        true
    }

    /// The label with the pairing of its place.
    pub(crate) fn taken(&self, label: &Label) -> Option<Label> {
        let course = self.course;
        let place = course.places.get(label.place)?;
        let mut next = *label;
        next.place = place.next;
        next.gain = label.gain.wrapping_add(place.gain);
        next.credit = label.credit.saturating_add(place.flight.credit);
        next.days |= place.flight.days & !course.busy;
        if next.credit > course.high || next.days.count_ones() > course.most_days {
            return None;
        }
        let spoiled = place.spoils & !next.bids;
        if spoiled != 0 {
            let weight = weigh_bids(&course.weights, spoiled);
            next.lost = next.lost.saturating_add(weight);
        }
        next.bids = (next.bids | spoiled) & !place.grants;
        if !next.fly(&place.usage, &course.caps) || !self.work(&mut next.rested, place) {
            return None;
        }
        next.block = course.blocks.after(next.rested.free);
        next.after = course.blocks.after(next.rested.rest);
        self.rated(next)
    }

    /// The label without the pairing of its place.
    pub(crate) fn passed(&self, label: &Label) -> Option<Label> {
        let place = self.course.places.get(label.place)?;
        if place.is_flown {
            return None;
        }
        let mut next = *label;
        next.place = label.place.saturating_add(1);
        self.rated(next)
    }

    /// Whether the credit of a label serves as well as that of another at its place.
    fn pays(&self, one: &Label, other: &Label) -> bool {
        let course = self.course;
        if one.credit == other.credit {
            return true;
        }
        if one.credit < other.credit {
            return one.credit >= self.low;
        }
        let more = match course.places.get(one.place) {
            Some(place) => place.ahead.credit,
            None => 0,
        };
        one.credit.saturating_add(more) <= course.high
    }

    /// Whether a label serves as well as another at its place.
    pub(crate) fn outdoes(&self, one: &Label, other: &Label) -> bool {
        if one.gain < other.gain
            || one.lost > other.lost
            || one.rested.free < other.rested.free
            || one.rested.rest > other.rested.rest
            || one.days.count_ones() > other.days.count_ones()
            || !self.pays(one, other)
        {
            return false;
        }
        let spoiled = self.course.spoiled;
        let worse = one.bids & !other.bids & !spoiled | other.bids & !one.bids & spoiled;
        if worse != 0 {
            let weight = weigh_bids(&self.course.weights, worse);
            if one.lost.saturating_add(weight) > other.lost {
                return false;
            }
        }
        one.usage
            .iter()
            .zip(other.usage.iter())
            .all(|(own, its)| *own <= *its)
    }

    /// Whether a label at the end is a line's.
    pub(crate) fn is_done(&self, label: &Label) -> bool {
        let course = self.course;
        let unmet = weigh_bids(&course.weights, label.bids & !course.spoiled);
        label.credit >= self.low
            && label.credit <= course.high
            && label.lost.saturating_add(unmet) <= course.allowed
    }
}
