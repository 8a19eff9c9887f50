//! What is asked of other bids.

use crate::play::play;

/// Bids that are answered, and bids that are not, and nothing is written. The award is accepted as before, and a roster that
/// stood in the other file is gone.
const OTHER_BIDS: &str = r"smallest seniority other-bids
whatif M2 => Done whatif\nvector 10 10\nnodes 0
whatif-roster.csv == member,pairings,credit,score\nM1,P1,5:00,10\nM2,,0:00,10\n

smallest seniority other-bids
whatif M2 --nodes 1 => Done whatif\nvector 10 10\nnodes 0
whatif-roster.csv == member,pairings,credit,score\nM1,P1,5:00,10\nM2,,0:00,10\n

smallest seniority other-bids
bids2.txt <- member M1\n10 fly P1\nmember M2\n10 fly P1\n
whatif M2 => Done whatif\nvector 10 0\nnodes 0
whatif-roster.csv == member,pairings,credit,score\nM1,P1,5:00,10\nM2,,0:00,0\n

smallest seniority other-bids
bids2.txt <- member M2\n10 fly P1\n
whatif M1 => Done whatif\nvector 0 10\nnodes 0
whatif-roster.csv == member,pairings,credit,score\nM1,,0:00,0\nM2,P1,5:00,10\n

smallest seniority other-bids
bids2.txt <- member M2\n10 daysoff 30\n
whatif M2 => No no bids M1
whatif-roster.csv gone

smallest seniority other-bids
whatif M9 => No no member M9
whatif-roster.csv gone

smallest seniority other-bids
certificate.txt <- pbs-certificate 1\n
whatif M9 => No no member M9
whatif-roster.csv gone

smallest seniority other-bids
bids2.txt <- member M1\n10 fly P2\n
whatif M9 => BadInput bad bids2.txt 2 8 6
whatif-roster.csv gone

smallest seniority other-bids
bids.txt <- member M1\n10 fly P3\n
bids2.txt <- member M1\n10 fly P2\n
whatif M2 => BadInput bad bids.txt 2 8 6
whatif-roster.csv gone

smallest seniority other-bids
certificate.txt <- pbs-certificate 1\n
whatif M2 => No no certificate 2 4
whatif-roster.csv gone

smallest seniority other-bids
certificate.txt <- pbs-certificate 1\nnone\nproof 1\ncount 1\nend\n
whatif M2 => No no award
whatif-roster.csv gone

smallest seniority other-bids
roster.csv <- member,pairings,credit,score\nM2,,0:00,0\n
whatif M2 => No no roster 2 3
whatif-roster.csv gone

smallest seniority other-bids
reasons.txt <- M2 2 place 1 M1: 10 fly P1\n
whatif M2 => No no reasons 1 3
whatif-roster.csv gone

smallest seniority other-bids
roster.csv <- member,pairings,credit,score\nM1,,0:00,0\nM2,P1,5:00,10\n
bids2.txt <- member M2\n10 daysoff 30\n
whatif M2 => No no 4 1 1 7 1
whatif-roster.csv gone

smallest seniority other-bids
reasons.txt <- 
whatif M2 => No no 3 1
whatif-roster.csv gone

smallest seniority other-bids
whatif => Usage @usage
whatif-roster.csv gone

smallest seniority other-bids
whatif M2 M1 => Usage @usage
whatif-roster.csv gone

smallest seniority other-bids
whatif M2 --nodes 0 => Usage @usage
whatif-roster.csv gone

smallest seniority other-bids
whatif-roster.csv <- an older one
whatif M2 => Done whatif\nvector 10 10\nnodes 0
check => Done yes\nvector 10 0

smallest seniority other-bids shelf=9 sink=9
whatif M2 => ReadFault read fault certificate.txt

smallest seniority other-bids shelf=10 sink=9
whatif M2 => ReadFault read fault bids2.txt

smallest seniority other-bids shelf=11 sink=9
whatif M2 => ReadFault read fault roster.csv

smallest seniority other-bids shelf=12 sink=9
whatif M2 => ReadFault read fault reasons.txt

smallest seniority other-bids shelf=13 sink=9
whatif M2 => WriteFault write fault whatif-roster.csv

smallest seniority other-bids shelf=99 sink=1
whatif M2 => WriteFault ";

#[test]
fn other_bids_are_answered(rt: HostRuntime) {
    play(&rt, rt.alloc(), OTHER_BIDS);
}
