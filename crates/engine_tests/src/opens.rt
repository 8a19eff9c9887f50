//! What is asked of vacant lines.

use crate::play::play;

/// Months with too few members that are opened, and months that are not, and nothing is written.
const OPENED: &str = r"smallest seniority other-bids three-short
open 0 => NoRoster no roster\nnodes 0
open-none.txt there
open-certificate.txt gone
open-reasons.txt gone
open-roster.csv gone

smallest seniority other-bids three-short
open 2 => Done open 1\nvector 0 0 0\nnodes 0\nopen P1 1
open-none.txt there
open-certificate.txt there
open-reasons.txt there
open-roster.csv there

smallest seniority other-bids three-short
open --nodes 1 1 => Done open 1\nvector 0 0 0\nnodes 0\nopen P1 1
open-none.txt there
open-certificate.txt there
open-reasons.txt there
open-roster.csv there

smallest seniority other-bids named
open 0 => NoRoster no roster\nnodes 0
open-none.txt there
open-certificate.txt gone
open-reasons.txt gone
open-roster.csv gone

smallest seniority other-bids named
open 2 => No no open 2 2
open-none.txt gone
open-certificate.txt gone
open-reasons.txt gone
open-roster.csv gone

smallest seniority other-bids named-first
open 2 => No no open 2 1
open-none.txt gone
open-certificate.txt gone
open-reasons.txt gone
open-roster.csv gone

smallest seniority other-bids branching
open 3 --nodes 1 => Budget budget 1
open-none.txt gone
open-certificate.txt gone
open-reasons.txt gone
open-roster.csv gone

smallest seniority other-bids
bids.txt <- member M1\n10 fly P3\n
open 2 => BadInput bad bids.txt 2 8 6
open-none.txt gone
open-certificate.txt gone
open-reasons.txt gone
open-roster.csv gone

smallest seniority other-bids
open => Usage @usage
open-none.txt gone
open-certificate.txt gone
open-reasons.txt gone
open-roster.csv gone

smallest seniority other-bids
open 51 => Usage @usage
open-none.txt gone
open-certificate.txt gone
open-reasons.txt gone
open-roster.csv gone

smallest seniority other-bids
open 01 => Usage @usage
open-none.txt gone
open-certificate.txt gone
open-reasons.txt gone
open-roster.csv gone

smallest seniority other-bids
open 1 2 => Usage @usage
open-none.txt gone
open-certificate.txt gone
open-reasons.txt gone
open-roster.csv gone

smallest seniority other-bids
open 1 --nodes 0 => Usage @usage
open-none.txt gone
open-certificate.txt gone
open-reasons.txt gone
open-roster.csv gone

smallest seniority other-bids
opencheck 1 --nodes 5 => Usage @usage
open-none.txt gone
open-certificate.txt gone
open-reasons.txt gone
open-roster.csv gone";

#[test]
fn months_are_opened(rt: HostRuntime) {
    play(&rt, rt.alloc(), OPENED);
}
