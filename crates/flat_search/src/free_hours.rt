//! The 30 hours free of duty that begin in the 168 hours before each flight duty.

use duty_calendar::Interval;

/// How long the free hours are, in minutes.
pub(crate) const FREE: u32 = 1_800;
/// How long before a duty they may begin, in minutes.
pub(crate) const WITHIN: u32 = 10_080;

/// Duty of a member's own, and whether it is to have free hours before.
#[derive(Clone, Copy)]
pub(crate) struct Own {
    pub span: Interval,
    pub is_due: bool,
}

/// When the last free hours begin, and when the last duty ends.
#[derive(Clone, Copy)]
pub(crate) struct Rested {
    pub free: u32,
    pub rest: u32,
}

impl Rested {
    /// No duty yet.
    pub(crate) fn new() -> Rested {
        Rested { free: 0, rest: 0 }
    }

    /// The last free hours before a report begin as late as they can.
    pub(crate) fn renew(&mut self, report: u32) {
        if report.saturating_sub(self.rest) >= FREE {
            self.free = report.saturating_sub(FREE);
        }
    }

    /// Goes on over a duty. Tells whether the free hours before it suffice, where they are due.
    pub(crate) fn meet(&mut self, duty: Interval, is_due: bool) -> bool {
        self.renew(duty.start);
        if is_due && self.free.saturating_add(WITHIN) < duty.start {
            return false;
        }
        self.rest = self.rest.max(duty.stop);
        true
    }

    /// Goes on over the member's own duties that begin before a minute. Tells whether the free hours suffice.
    pub(crate) fn meet_own(&mut self, own: &[Own], before: u32) -> bool {
        for one in own {
            if one.span.stop <= self.rest {
                continue;
            }
            if one.span.start >= before {
                return true;
            }
            if !self.meet(one.span, one.is_due) {
                return false;
            }
        }
        true
    }
}
