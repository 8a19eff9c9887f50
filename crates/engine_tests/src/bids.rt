//! Bids in which `check` names a fault.

use crate::play::play;

/// Bids with a fault: of each code, ends of ranges, bytes that are none of a token, and each word that may be wanted.
const BAD_BIDS: &str = r"smallest
bids.txt <- member M9
check => BadInput bad bids.txt 1 8 5

smallest
bids.txt <- 10 fly P1
check => BadInput bad bids.txt 1 1 2

smallest
bids.txt <- member M1\nmember M1
check => BadInput bad bids.txt 2 8 9

smallest
bids.txt <- member M1\n10 fly P9
check => BadInput bad bids.txt 2 8 6

smallest
bids.txt <- member M1\n0 fly P1
check => BadInput bad bids.txt 2 1 7

smallest
bids.txt <- member M1\n1001 fly P1
check => BadInput bad bids.txt 2 1 7

smallest
bids.txt <- member M1\n10 off 2026-02-30
check => BadInput bad bids.txt 2 8 4

smallest
bids.txt <- member M1\n10 avoid report before 08:60
check => BadInput bad bids.txt 2 24 3

smallest
bids.txt <- member M1\n10 fly
check => BadInput bad bids.txt 2 7 2

smallest
bids.txt <- member M1\n1 avoid days 1 and days 1 and days 1 and days 1 and days 1 and days 1 and days 1 and days 1 and days 1
check => BadInput bad bids.txt 2 97 8

smallest
bids.txt <- member M1\r\n1001 fly P1\r\n
check => BadInput bad bids.txt 2 1 7

smallest
bids.txt <- member M1\n10 off 2026-07-01
check => BadInput bad bids.txt 2 8 4

smallest
bids.txt <- member M1\n10 off 2026-05-31
check => BadInput bad bids.txt 2 8 4

smallest
bids.txt <- member M1\n10 off 2026-06-03 to 2026-06-02
check => BadInput bad bids.txt 2 22 4

smallest
bids.txt <- member M1\n4294967296 fly P1
check => BadInput bad bids.txt 2 1 3

smallest
bids.txt <- member M1\n010 fly P1
check => BadInput bad bids.txt 2 1 3

smallest
bids.txt <- member M1\n10 prefer 0 days 1
check => BadInput bad bids.txt 2 11 3

smallest
bids.txt <- member M1\n10 prefer 601 days 1
check => BadInput bad bids.txt 2 11 3

smallest
bids.txt <- member M1\n10 avoid days 41
check => BadInput bad bids.txt 2 15 3

smallest
bids.txt <- member M1\n10 daysoff 32
check => BadInput bad bids.txt 2 12 3

smallest
bids.txt <- member M1\n10 credit below 1000:00
check => BadInput bad bids.txt 2 17 3

smallest
bids.txt <- member M1\r10 fly P1
check => BadInput bad bids.txt 1 10 1

smallest
bids.txt <- member M1\n\7F
check => BadInput bad bids.txt 2 1 1

smallest
bids.txt <- \EF\BB\BFmember M1
check => BadInput bad bids.txt 1 1 1

smallest
bids.txt <- member M1\n1 avoid days 1 and days 1 and days 1 and days 1 and days 1 and days 1 and days 1 and days 1 and fly
check => BadInput bad bids.txt 2 97 2

smallest
bids.txt <-  fly P1
check => BadInput bad bids.txt 1 2 2

smallest
bids.txt <- member # M1
check => BadInput bad bids.txt 1 8 2

smallest
bids.txt <- member a.
check => BadInput bad bids.txt 1 8 2

smallest
bids.txt <- member M1 10
check => BadInput bad bids.txt 1 11 2

smallest
bids.txt <- member M1\n10
check => BadInput bad bids.txt 2 3 2

smallest
bids.txt <- member M1\n10 flies P1
check => BadInput bad bids.txt 2 4 2

smallest
bids.txt <- member M1\n10 avoid not
check => BadInput bad bids.txt 2 13 2

smallest
bids.txt <- member M1\n10 avoid report at 08:00
check => BadInput bad bids.txt 2 17 2

smallest
bids.txt <- member M1\n10 avoid layover ORDX
check => BadInput bad bids.txt 2 18 2

smallest
bids.txt <- member M1\n10 avoid weekday Mon
check => BadInput bad bids.txt 2 18 2

smallest
bids.txt <- member M1\n10 credit at 10:00
check => BadInput bad bids.txt 2 11 2

smallest
bids.txt <- member M1\n10 daysoff  
check => BadInput bad bids.txt 2 13 2

smallest
bids.txt <- member M1\n10 off 2026-06-01 2026-06-02
check => BadInput bad bids.txt 2 19 2

smallest
bids.txt <- member M1\n10 avoid days 1 or days 2
check => BadInput bad bids.txt 2 17 2";

#[test]
fn the_first_fault_is_named(rt: HostRuntime) {
    play(&rt, rt.alloc(), BAD_BIDS);
}
