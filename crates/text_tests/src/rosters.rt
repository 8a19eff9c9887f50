//! The smallest month: one member, one pairing, one bid.
ghost use Rattle.std.specs.Prelude.{◌≡◌, ◌<◌, length, All};

use crate::fixtures::smallest;
use june_months::{bytes_of, sides};
use roster_model::{BidRef, Cause, Denial, Problem, Roster};
use roster_text::{
    print_reasons, print_roster, read_reasons, read_roster, reasons_texts_are_told_apart,
    roster_texts_are_told_apart,
};
use std::alloc::Global;
use std::process::Abort;

/// The month's one roster of one pairing.
const FLOWN: &[u8] = b"member,pairings,credit,score\nM1,P1,5:00,10\n";

/// Texts that are no roster's, with their faults.
const FAULTS: &str = r" => row 1: another header is expected
member,pairings,credit,score => row 1: another header is expected
member,pairings,score,credit\n => row 1: another header is expected
member,pairings,credit,score\n => row 2: another number of rows than of members
member,pairings,credit,score\nM1,P1,5:00,10 => row 2: not four fields and a line feed
member,pairings,credit,score\nM1,P1,5:00\n => row 2: not four fields and a line feed
member,pairings,credit,score\nM2,P1,5:00,10,\n => row 2: not four fields and a line feed
member,pairings,credit,score\n\n => row 2: not four fields and a line feed
member,pairings,credit,score\nM2,P2,5:01,11\n => row 2: another member is expected
member,pairings,credit,score\n,P1,5:00,10\n => row 2: another member is expected
member,pairings,credit,score\nM11,P1,5:00,10\n => row 2: another member is expected
member,pairings,credit,score\nM1,P2,5:01,10\n => row 2: no line of pairings
member,pairings,credit,score\nM1,P1 P1,5:00,10\n => row 2: no line of pairings
member,pairings,credit,score\nM1,P1 ,5:00,10\n => row 2: no line of pairings
member,pairings,credit,score\nM1, ,0:00,0\n => row 2: no line of pairings
member,pairings,credit,score\nM1,P1,5:01,10\n => row 2: not the credit and the score of the line
member,pairings,credit,score\nM1,P1,5:00,11\n => row 2: not the credit and the score of the line
member,pairings,credit,score\nM1,P1,5:00,010\n => row 2: not the credit and the score of the line
member,pairings,credit,score\nM1,P1,5:00,10\r\n => row 2: not the credit and the score of the line
member,pairings,credit,score\nM1,,5:00,10\n => row 2: not the credit and the score of the line
member,pairings,credit,score\nM1,P1,5:00,10\n\n => row 3: another number of rows than of members
member,pairings,credit,score\nM1,P1,5:00,10\nM1,P1,5:00,10\n => row 3: another number of rows than of members";

/// The roster of a text.
pub(crate) fn roster_of(rt: &impl Abort, alloc: Global, problem: &Problem, text: &[u8]) -> Roster
    ensures lines { length result ≡ length problem.now.base.members }
    ensures in_range { All (All (λ p. p < length problem.now.base.pairings)) result }
{
    read_roster(alloc, text, problem).expect(rt, "a roster")
}

/// Says which text a roster has.
fn assert_printed(rt: &impl Abort, alloc: Global, problem: &Problem, roster: &Roster, text: &[u8])
    requires lines { length roster.now ≡ length problem.now.base.members }
    requires in_range { All (All (λ p. p < length problem.now.base.pairings)) roster.now }
{
    let printed = print_roster(alloc, problem, roster).expect(rt, "memory");
    assert!(rt; printed.as_slice() == text);
}

#[test]
fn reads_and_prints_the_smallest_month(rt: HostRuntime) {
    let alloc = rt.alloc();
    let problem = smallest(&rt, alloc);
    let roster = roster_of(&rt, alloc, &problem, FLOWN);
    assert!(rt; roster.len() == 1);
    assert!(rt; roster.as_slice()[0].pairings() == [0].as_slice());
    assert_printed(&rt, alloc, &problem, &roster, FLOWN);
    roster_texts_are_told_apart(&problem);
}

/// Says what is the first fault of a roster's text.
fn assert_fault(rt: &impl Abort, alloc: Global, problem: &Problem, row: &str) {
    let (text, due) = sides(row).expect(rt, "a row has two sides");
    let fault = read_roster(alloc, &bytes_of(alloc, text), problem)
        .err()
        .expect(rt, "it has a fault");
    let found = format!(in alloc; "{fault}").expect(rt, "memory");
    assert!(rt; found.as_str() == due, "{row}");
}

#[test]
fn says_the_first_fault(rt: HostRuntime) {
    let problem = smallest(&rt, rt.alloc());
    for row in FAULTS.lines() {
        assert_fault(&rt, rt.alloc(), &problem, row);
    }
}

/// The one bid, denied for each cause that the month has.
const DENIED: &[u8] = b"M1 1 tie: 10 fly P1\nM1 1 place 0: 10 fly P1\nM1 1 place 1 M1: 10 fly P1\n";

/// Texts that are none of reasons, with their faults.
const REASON_FAULTS: &str = r"\n => line 1: not a member, a number, a cause and a bid
M1 1 tie: 10 fly P1 => line 1: not a member, a number, a cause and a bid
M1 1 tie 10 fly P1\n => line 1: not a member, a number, a cause and a bid
M1 1 tie:10 fly P1\n => line 1: not a member, a number, a cause and a bid
M1  1 tie: 10 fly P1\n => line 1: not a member, a number, a cause and a bid
M1 01 tie: 10 fly P1\n => line 1: not a member, a number, a cause and a bid
M1 +1 tie: 10 fly P1\n => line 1: not a member, a number, a cause and a bid
M1 1 Tie: 10 fly P1\n => line 1: not a member, a number, a cause and a bid
M1 1 place 1: 10 fly P1\n => line 1: not a member, a number, a cause and a bid
M1 1 place 0 M1: 10 fly P1\n => line 1: not a member, a number, a cause and a bid
M1 1 place 01 M1: 10 fly P1\n => line 1: not a member, a number, a cause and a bid
M1 1 place 1 M:1: 10 fly P1\n => line 1: not a member, a number, a cause and a bid
M2 2 place 2 M2: 10 fly P2\n => line 1: unknown member
M1 0 place 2 M2: 10 fly P2\n => line 1: no bid of this number
M1 2 place 2 M2: 10 fly P2\n => line 1: no bid of this number
M1 18446744073709551617 tie: \n => line 1: no bid of this number
M1 1 place 2 M1: 10 fly P2\n => line 1: no such place, or another member's
M1 1 place 1 M2: 10 fly P2\n => line 1: no such place, or another member's
M1 1 place 18446744073709551617 M1: \n => line 1: no such place, or another member's
M1 1 tie: \n => line 1: not the text of this bid
M1 1 tie: 10 fly P2\n => line 1: not the text of this bid
M1 1 tie: 10 fly P1\r\n => line 1: not the text of this bid
M1 1 tie: 10 fly P1\n\n => line 2: not a member, a number, a cause and a bid
M1 1 tie: 10 fly P1\nM1 1 tie: 11 fly P1\n => line 2: not the text of this bid";

/// The one bid with this cause.
fn denied(cause: Cause) -> Denial {
    Denial {
        bid: BidRef { member: 0, bid: 0 },
        cause,
    }
}

/// Says that a text is of these denials, and that they are printed as this text.
fn assert_reasons(
    rt: &impl Abort,
    alloc: Global,
    problem: &Problem,
    text: &[u8],
    denials: &[Denial],
) {
    assert!(rt; text.len() <= 100);
    let reasons = read_reasons(alloc, text, problem).expect(rt, "reasons");
    assert!(rt; reasons.as_slice() == denials);
    let printed = print_reasons(alloc, problem, &reasons).expect(rt, "memory");
    assert!(rt; printed.as_slice() == text);
}

#[test]
fn reads_and_prints_reasons(rt: HostRuntime) {
    let problem = smallest(&rt, rt.alloc());
    let causes = [
        denied(Cause::Tie),
        denied(Cause::Place(0)),
        denied(Cause::Place(1)),
    ];
    assert_reasons(&rt, rt.alloc(), &problem, DENIED, &causes);
    assert_reasons(&rt, rt.alloc(), &problem, b"", &[]);
    reasons_texts_are_told_apart(&problem);
}

/// Says what is the first fault of a text of reasons.
fn assert_reason_fault(rt: &impl Abort, alloc: Global, problem: &Problem, row: &str) {
    let (text, due) = sides(row).expect(rt, "a row has two sides");
    let text = bytes_of(alloc, text);
    assert!(rt; text.len() <= 100);
    let fault = read_reasons(alloc, &text, problem)
        .err()
        .expect(rt, "it has a fault");
    let found = format!(in alloc; "{fault}").expect(rt, "memory");
    assert!(rt; found.as_str() == due, "{row}");
}

#[test]
fn says_the_first_fault_of_reasons(rt: HostRuntime) {
    let problem = smallest(&rt, rt.alloc());
    for row in REASON_FAULTS.lines() {
        assert_reason_fault(&rt, rt.alloc(), &problem, row);
    }
}
