//! Certificates of two members, and what `check` prints of them.

use crate::play::play;

/// Certificates of the month in which two members bid for one pairing. At the second place each lens line has the pairing,
/// so that the lines weigh twice as much as the need. Where the places are closed, it is the part for the reason that is
/// missing.
const RIVALS: &str = r"smallest seniority
certificate.txt <- pbs-certificate 1\naward 2 0\nproof 1\nnoline 1 60 0000000000000000 0 0\nproof 1\nweights 2 -1\nlens 60 0000000000000001 0 0\nlens 60 0000000000000001 0 0\nend\n
check => No no 3 0

smallest seniority
certificate.txt <- pbs-certificate 1\naward 2 0\nproof 1\nnoline 1 60 0000000000000000 0 0\nproof 1\nweights 2 -2147483647\nlens 60 0000000000000001 0 0\nlens 60 0000000000000001 0 0\nend\n
check => No no 3 0

smallest seniority
certificate.txt <- pbs-certificate 1\naward 2 0\nproof 1\nnoline 1 60 0000000000000000 0 0\nproof 1\nweights 2 0\nlens 60 0000000000000001 0 0\nlens 60 0000000000000001 0 0\nend\n
check => No no 4 2 1 9 0 0

smallest seniority
certificate.txt <- pbs-certificate 1\naward 2 0\nproof 1\nnoline 1 60 0000000000000000 0 0\nproof 1\nweights 2 1\nlens 60 0000000000000001 0 0\nlens 60 0000000000000001 0 0\nend\n
check => No no 4 2 1 9 2 1

smallest seniority
certificate.txt <- pbs-certificate 1\naward 2 0\nproof 1\nnoline 1 60 0000000000000000 0 0\nproof 1\nweights 2 -1\nlens 60 0000000000000000 0 0\nlens 60 0000000000000000 0 0\nend\n
check => No no 4 2 1 9 0 -1

smallest seniority
certificate.txt <- pbs-certificate 1\naward 2 0\nproof 1\nnoline 1 60 0000000000000000 0 0\nproof 1\nweights 2 -1\nlens 60 0000000000000001 0 0\nlens 60 0000000000000000 0 0\nend\n
check => No no 4 2 1 9 -1 -1

smallest seniority
certificate.txt <- pbs-certificate 1\naward 2 0\nproof 1\nnoline 1 60 0000000000000000 0 0\nproof 1\nweights 1 -1\nlens 60 0000000000000001 0 0\nend\n
check => No no 4 2 1 10 1 1

smallest seniority
certificate.txt <- pbs-certificate 1\naward 2 0\nproof 1\nnoline 1 60 0000000000000000 0 0\nproof 1\nweights 2 -1\nlens 60 0000000000000001 0 0\nlens 60 0000000000000003 0 0\nend\n
check => No no 4 2 1 6 2 1 2

smallest seniority
certificate.txt <- pbs-certificate 1\naward 2 0\nproof 1\nweights 2 -1\nlens 60 0000000000000001 0 0\nlens 7 0000000000000001 0 0\nproof 1\nweights 2 -1\nlens 60 0000000000000001 0 0\nlens 60 0000000000000001 0 0\nend\n
check => No no 4 1 1 6 2 4

smallest seniority
certificate.txt <- pbs-certificate 1\naward 2 0\nproof 1\nweights 2 -1\nlens 60 0000000000000001 0 0\nlens 60 0000000000000001 0 0\nproof 1\nweights 2 -1\nlens 60 0000000000000001 0 0\nlens 60 0000000000000001 0 0\nend\n
check => No no 4 1 1 8 1

smallest seniority
certificate.txt <- pbs-certificate 1\naward 2 0\nproof 1\nnoline 1 60 0000000000000000 0 0\nproof 1\nnoline 2 60 0000000000000001 0 0\nend\n
check => No no 4 2 1 7 2

smallest seniority
certificate.txt <- pbs-certificate 1\naward 2 0\nproof 1\nnoline 1 60 0000000000000000 0 0\nproof 1\nnoline 1 60 0000000000000000 0 0\nend\n
check => No no 4 2 1 7 1

smallest seniority
certificate.txt <- pbs-certificate 1\naward 2 0\nproof 1\nnoline 1 60 0000000000000000 0 0\nproof 3\nsplit 1 1\nnoline 2 60 0000000000000001 0 0\nnoline 1 60 0000000000000001 0 0\nend\n
check => No no 4 2 2 7 2

smallest seniority
certificate.txt <- pbs-certificate 1\naward 2 0\nproof 1\nnoline 1 60 0000000000000000 0 0\nproof 3\nsplit 1 1\nweights 2 -1\nlens 60 0000000000000001 0 0\nlens 60 0000000000000001 0 0\nnoline 1 60 0000000000000001 0 0\nend\n
check => No no 3 0";

/// Reasons and certificates of that award.
const DENIED: &str = r"smallest seniority
certificate.txt <- @shown
reasons.txt <- M2 1 place 1 M1: 10 fly P1\n
check => Done yes\nvector 10 0

smallest seniority
certificate.txt <- @shown
reasons.txt <- M2 1 place 2 M2: 10 fly P1\n
check => No no 7 2 1

smallest seniority
certificate.txt <- @shown
reasons.txt <- M1 1 place 1 M1: 10 fly P1\n
check => No no 6 1 1

smallest seniority
certificate.txt <- @shown
reasons.txt <- M2 2 place 1 M1: 10 fly P1\n
check => No no reasons 1 3

smallest seniority
certificate.txt <- pbs-certificate 1\naward 2 0\nproof 1\nnoline 1 60 0000000000000000 0 0\nproof 1\nweights 2 -1\nlens 60 0000000000000001 0 0\nlens 60 0000000000000001 0 0\nend\n
reasons.txt <- 
check => No no 6 2 1

smallest seniority
certificate.txt <- pbs-certificate 1\naward 2 1\nproof 1\nnoline 1 60 0000000000000000 0 0\nproof 1\nweights 2 -1\nlens 60 0000000000000001 0 0\nlens 60 0000000000000001 0 0\nshown 1 2\nproof 1\nweights 2 0\nlens 60 0000000000000001 0 0\nlens 60 0000000000000001 0 0\nline\nline 1\nend\n
reasons.txt <- M2 1 place 1 M1: 10 fly P1\n
check => No no 4 3 1 9 0 0

smallest seniority
certificate.txt <- pbs-certificate 1\naward 2 1\nproof 1\nnoline 1 60 0000000000000000 0 0\nproof 1\nweights 2 -1\nlens 60 0000000000000001 0 0\nlens 60 0000000000000001 0 0\nshown 0 2\nline\nline 1\nend\n
reasons.txt <- M2 1 tie: 10 fly P1\n
check => No no 7 2 1";

/// Certificates that there is no complete roster, of the month in which two members are to crew a pairing of three.
const NO_ROSTER: &str = r"smallest three-wanted
certificate.txt <- pbs-certificate 1\nnone\nproof 1\ncount 1\nend\n
check => Done yes none

smallest three-wanted
certificate.txt <- pbs-certificate 1\nnone\nproof 1\nweights 2 1\nlens 60 0000000000000000 0 0\nlens 60 0000000000000000 0 0\nend\n
check => Done yes none

smallest three-wanted
certificate.txt <- pbs-certificate 1\nnone\nproof 3\nsplit 1 1\ncount 1\ncount 1\nend\n
check => Done yes none

smallest three-wanted
certificate.txt <- pbs-certificate 1\nnone\nproof 1\nweights 2 0\nlens 60 0000000000000000 0 0\nlens 60 0000000000000000 0 0\nend\n
check => No no 4 1 1 9 0 0

smallest three-wanted
certificate.txt <- pbs-certificate 1\nnone\nproof 1\nnoline 1 60 0000000000000000 0 0\nend\n
check => No no 4 1 1 7 1

smallest three-wanted
certificate.txt <- pbs-certificate 1\nnone\nproof 1\nnoline 3 60 0000000000000000 0 0\nend\n
check => No no 4 1 1 1

smallest three-wanted
certificate.txt <- pbs-certificate 1\nnone\nproof 2\ncount 1\ncount 1\nend\n
check => No no 5 1

smallest three-wanted
certificate.txt <- pbs-certificate 1\nnone\nproof 2\nsplit 1 1\ncount 1\nend\n
check => No no 5 1

smallest three-wanted
certificate.txt <- pbs-certificate 1\nnone\nproof 0\nend\n
check => No no 5 1

smallest three-wanted without=roster.csv without=reasons.txt
certificate.txt <- pbs-certificate 1\nnone\nproof 1\ncount 1\nend\n
check => Done yes none";

#[test]
fn rivals_are_judged(rt: HostRuntime) {
    play(&rt, rt.alloc(), RIVALS);
    play(&rt, rt.alloc(), DENIED);
    play(&rt, rt.alloc(), NO_ROSTER);
}
