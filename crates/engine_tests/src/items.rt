//! Items of certificates, and what `check` prints of them.

use crate::play::play;

/// Certificates of the smallest month: that no line of the member passes the lens, with an item that is not accepted, by
/// each of its faults, of the month in which the one bid can't be tracked, and texts that are none.
const ITEMS: &str = r"smallest
certificate.txt <- pbs-certificate 1\naward 1 0\nproof 1\nnoline 1 60 0000000000000000 0 0\nend\n
check => Done yes\nvector 10

smallest
certificate.txt <- pbs-certificate 1\naward 1 0\nproof 1\nnoline 1 60 0000000000000000 0 0 f672:485281\nend\n
check => Done yes\nvector 10

smallest
certificate.txt <- pbs-certificate 1\naward 1 0\nproof 1\nnoline 1 1 0000000000000001 1 1 f365:365 d168:525600\nend\n
check => Done yes\nvector 10

smallest
certificate.txt <- pbs-certificate 1\naward 1 0\nproof 3\nsplit 1 1\nnoline 1 60 0000000000000000 0 0\nnoline 1 60 0000000000000000 0 0\nend\n
check => Done yes\nvector 10

smallest
certificate.txt <- pbs-certificate 1\naward 1 0\nproof 1\ncount 2\nend\n
check => No no 4 1 1 1

smallest
certificate.txt <- pbs-certificate 1\naward 1 0\nproof 1\nsplit 2 1\nend\n
check => No no 4 1 1 1

smallest
certificate.txt <- pbs-certificate 1\naward 1 0\nproof 1\nfixed 2\nend\n
check => No no 4 1 1 1

smallest
certificate.txt <- pbs-certificate 1\naward 1 0\nproof 1\nnoline 2 60 0000000000000000 0 0\nend\n
check => No no 4 1 1 1

smallest
certificate.txt <- pbs-certificate 1\naward 1 0\nproof 1\ncount 1\nend\n
check => No no 4 1 1 3

smallest
certificate.txt <- pbs-certificate 1\naward 1 0\nproof 1\nfixed 1\nend\n
check => No no 4 1 1 4 1

smallest
certificate.txt <- pbs-certificate 1\naward 1 0\nproof 2\nsplit 1 1\nsplit 1 1\nend\n
check => No no 4 1 2 2

smallest
certificate.txt <- pbs-certificate 1\naward 1 0\nproof 1\nnoline 1 7 0000000000000000 0 0\nend\n
check => No no 4 1 1 6 1 4

smallest
certificate.txt <- pbs-certificate 1\naward 1 0\nproof 1\nnoline 1 60 0000000000000002 0 0\nend\n
check => No no 4 1 1 6 1 1 2

smallest
certificate.txt <- pbs-certificate 1\naward 1 0\nproof 1\nnoline 1 60 0000000000000000 0 0 f672:578880\nend\n
check => No no 4 1 1 6 1 3 1

smallest
certificate.txt <- pbs-certificate 1\naward 1 0\nproof 1\nnoline 1 60 0000000000000000 0 0 f672:485280\nend\n
check => No no 4 1 1 6 1 3 1

smallest
certificate.txt <- pbs-certificate 1\naward 1 0\nproof 1\nnoline 1 60 0000000000000000 0 0 f672:525600 f365:403\nend\n
check => No no 4 1 1 6 1 3 2

smallest
certificate.txt <- pbs-certificate 1\naward 1 0\nproof 1\nnoline 1 60 0000000000000000 0 0 f672:525600 f672:525600 f672:525600 f672:525600 f672:525600 f672:525600 f672:525600 f672:525600 f672:525600 f672:525600 f672:525600 f672:525600 f672:525600 f672:525600 f672:525600 f672:525600 f672:525600\nend\n
check => No no 4 1 1 6 1 2 17

smallest
certificate.txt <- pbs-certificate 1\naward 1 0\nproof 1\nweights 1 0\nlens 60 0000000000000000 0 0\nend\n
check => No no 4 1 1 8 1

smallest
certificate.txt <- pbs-certificate 1\naward 1 0\nproof 1\nweights 1 0\nlens 15 0000000000000010 0 0\nend\n
check => No no 4 1 1 6 1 1 5

smallest
certificate.txt <- pbs-certificate 1\naward 1 0\nproof 1\nweights 0 0\nend\n
check => No no 4 1 1 10 1 0

smallest
certificate.txt <- pbs-certificate 1\naward 1 0\nproof 1\nweights 1\nlens 60 0000000000000000 0 0\nend\n
check => No no 4 1 1 10 0 1

smallest
certificate.txt <- pbs-certificate 1\naward 1 0\nproof 1\nweights 2 0\nlens 60 0000000000000000 0 0\nlens 7 0000000000000000 0 0\nend\n
check => No no 4 1 1 10 1 2

smallest
certificate.txt <- pbs-certificate 1\naward 1 0\nproof 2\nnoline 1 60 0000000000000000 0 0\nnoline 1 60 0000000000000000 0 0\nend\n
check => No no 5 1

smallest
certificate.txt <- pbs-certificate 1\naward 1 0\nproof 1\nsplit 1 1\nend\n
check => No no 5 1

smallest two-wanted
certificate.txt <- pbs-certificate 1\naward 1 0\nproof 1\nnoline 1 60 0000000000000001 0 0\nend\n
check => No no 4 1 1 6 1 1 1

smallest two-wanted
certificate.txt <- pbs-certificate 1\naward 1 0\nproof 1\nnoline 1 60 0000000000000000 0 0\nend\n
check => No no 4 1 1 7 1

smallest two-wanted
certificate.txt <- pbs-certificate 1\naward 1 1\nproof 3\nsplit 1 1\nfixed 1\nfixed 1\nshown 1 0\nproof 3\nsplit 1 1\nfixed 1\nfixed 1\nend\n
check => Done yes\nvector 0

smallest
certificate.txt <- pbs-certificate 1\naward 1 0\nproof 1\nweights 1 2147483648\nlens 60 0000000000000000 0 0\nend\n
check => No no certificate 4 6

smallest
certificate.txt <- pbs-certificate 1\naward 1 0\nproof 1\nweights 1 -2147483648\nlens 60 0000000000000000 0 0\nend\n
check => No no certificate 4 6

smallest
certificate.txt <- pbs-certificate 1\naward 1 0\nproof 1\nweights 1 -0\nlens 60 0000000000000000 0 0\nend\n
check => No no certificate 4 3

smallest
certificate.txt <- pbs-certificate 1\naward 1 0\nproof 1\nweights 1 01\nlens 60 0000000000000000 0 0\nend\n
check => No no certificate 4 3

smallest
certificate.txt <- pbs-certificate 1\naward 1 0\nproof 1\nweights 1 0\nend\n
check => No no certificate 5 2

smallest
certificate.txt <- pbs-certificate 1\naward 1 0\nproof 1\nnoline 1 60 000000000000000 0 0\nend\n
check => No no certificate 4 3

smallest
certificate.txt <- pbs-certificate 1\naward 1 0\nproof 1\nnoline 1 60 0000000000000000 0 0\nend\n\n
check => No no certificate 6 5

smallest
certificate.txt <- pbs-certificate 1\nnone 1\nproof 1\ncount 1\nend\n
check => No no certificate 2 2

smallest
certificate.txt <- pbs-certificate 1\naward 1 1\nproof 0\nend\n
check => No no certificate 4 2

smallest
certificate.txt <- pbs-certificate 1\naward 1 0\nproof 40002\nend\n
check => No no certificate 3 6

smallest
certificate.txt <- shown\n
check => No no certificate 1 1";

#[test]
fn items_are_judged(rt: HostRuntime) {
    play(&rt, rt.alloc(), ITEMS);
}
