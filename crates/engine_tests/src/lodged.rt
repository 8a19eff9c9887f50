//! What lies in the files of vacant lines.

use crate::play::play;

/// What is said of the files that `open 2` wrote of the pairing that needs three members, and of what lies there in their
/// place; and what is missing.
const LODGED: &str = r"smallest seniority other-bids three-short
open 2 => Done ...
opencheck 1 => Done yes open 1\nvector 0 0 0

smallest seniority other-bids three-short
open 2 => Done ...
open-none.txt <- pbs-certificate 1\nnone\nproof 1\ncount 1\nend\n
opencheck 1 => Done yes open 1\nvector 0 0 0

smallest seniority other-bids three-short
open 2 => Done ...
opencheck 0 => No no roster 4 6

smallest seniority other-bids three-short
open 2 => Done ...
opencheck 2 => No no roster 5 6

smallest seniority other-bids three-short
open 2 => Done ...
bids.txt <- member M1\n10 fly P3\n
open-none.txt <- 
opencheck 1 => BadInput bad bids.txt 2 8 6

smallest seniority other-bids three-short
open 2 => Done ...
crew.csv <- member,low,high\nvacant-1,0:00,90:00\nM2,0:00,90:00\n
open-none.txt <- 
opencheck 1 => No no open 1 2 1

smallest seniority other-bids three-short
open 2 => Done ...
open-none.txt <- 
open-certificate.txt <- 
opencheck 1 => No no certificate 1 4

smallest seniority other-bids three-short
open 2 => Done ...
open-none.txt <- pbs-certificate 1\naward 0 0\nend\n
open-certificate.txt <- 
opencheck 1 => No no certificate 0 2

smallest seniority other-bids three-short
open 2 => Done ...
open-certificate.txt <- pbs-certificate 2\nnone\nproof 1 0\ncount 1\nend\n
open-reasons.txt <- M1
opencheck 1 => No no certificate 0 2

smallest seniority other-bids three-short
open 2 => Done ...
open-reasons.txt <- M1
open-roster.csv <- 
opencheck 1 => No no reasons 1 1

smallest seniority other-bids three-short
open 2 => Done ...
open-roster.csv <- 
open-none.txt <- pbs-certificate 2\nnone\nproof 0 0\nend\n
opencheck 1 => No no roster 1 1

smallest seniority other-bids three-short
open 2 => Done ...
open-none.txt <- pbs-certificate 2\nnone\nproof 0 0\nend\n
open-certificate.txt <- pbs-certificate 1\naward 0 0\nend\n
opencheck 1 => No no open 3 5 1

smallest seniority other-bids three-short
open 2 => Done ...
pairings.csv <- pairing,need,credit\nP1,2,5:00\n
opencheck 1 => No no open 3 4 1 1 3

smallest seniority other-bids three-short
open 2 => Done ...
open-certificate.txt <- pbs-certificate 1\naward 0 0\nend\n
opencheck 1 => No no open 4 3 0

smallest seniority other-bids three-short
open 2 => Done ...
open-roster.csv <- member,pairings,credit,score\nM1,P1,5:00,0\nM2,P1,5:00,0\nvacant-1,,0:00,0\n
opencheck 1 => No no open 4 2 1 2

smallest seniority other-bids three-short
open 2 => Done ...
open-reasons.txt <- M1 1 place 0: 10 fly P1\n
opencheck 1 => No no reasons 1 3

smallest seniority other-bids
opencheck 0 => Missing missing open-certificate.txt

smallest seniority other-bids
opencheck 1 => Missing missing open-none.txt

smallest seniority other-bids
open-none.txt <- 
opencheck 1 => Missing missing open-certificate.txt

smallest seniority other-bids
open-none.txt <- 
open-certificate.txt <- 
opencheck 50 => Missing missing open-reasons.txt

smallest seniority other-bids
bids.txt <- member M1\n10 fly P3\n
open-certificate.txt <- 
open-reasons.txt <- 
opencheck 0 => Missing missing open-roster.csv

smallest seniority other-bids three-short
open 2 => Done ...
open-none.txt == pbs-certificate 2\nnone\nproof 1 0\ncount 1\nend\n
open-reasons.txt == 
open-roster.csv == member,pairings,credit,score\nM1,P1,5:00,0\nM2,P1,5:00,0\nvacant-1,P1,5:00,0\n
roster.csv == member,pairings,credit,score\nM1,P1,5:00,10\nM2,,0:00,0\n

smallest seniority other-bids three-short shelf=9 sink=9
open 1 => WriteFault write fault open-none.txt

smallest seniority other-bids three-short shelf=10 sink=9
open 1 => WriteFault write fault open-certificate.txt

smallest seniority other-bids three-short shelf=11 sink=9
open 1 => WriteFault write fault open-reasons.txt

smallest seniority other-bids three-short shelf=12 sink=9
open 1 => WriteFault write fault open-roster.csv

smallest seniority other-bids three-short shelf=9 sink=9
open 0 => WriteFault write fault open-none.txt

smallest seniority other-bids three-short shelf=99 sink=1
open 0 => WriteFault 

smallest seniority other-bids three-short shelf=9 sink=9
opencheck 1 => ReadFault read fault open-none.txt

smallest seniority other-bids three-short shelf=9 sink=9
opencheck 0 => ReadFault read fault open-certificate.txt

smallest seniority other-bids three-short shelf=8 sink=9
open 1 => ReadFault read fault bids.txt";

#[test]
fn awards_with_vacant_lines_are_judged(rt: HostRuntime) {
    play(&rt, rt.alloc(), LODGED);
}
