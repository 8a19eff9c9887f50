//! A proof that serves whatever a member bids.

use cert_text::read_certificate;
use roster_model::{Certificate, Proof};
use std::alloc::Global;
use std::process::Abort;
use what_if::reuse;

/// A proof of two members' lenses, and the same where the second member's tracks no bid.
const TRACKED: &[u8] =
    b"pbs-certificate 1\nnone\nproof 3\nsplit 1 1\nnoline 2 60 0000000000000003 1 0\nweights 2 -1\nlens 60 0000000000000001 0 0\nlens 15 0000000000000001 0 1 d168:525600\nend\n";

const UNTRACKED: &[u8] =
    b"pbs-certificate 1\nnone\nproof 3\nsplit 1 1\nnoline 2 60 0000000000000000 1 0\nweights 2 -1\nlens 60 0000000000000001 0 0\nlens 15 0000000000000000 0 1 d168:525600\nend\n";

/// The proof of a text.
fn proof_of(rt: &impl Abort, alloc: Global, text: &[u8]) -> Proof {
    assert!(rt; text.len() <= 1000);
    match read_certificate(alloc, text).expect(rt, "a certificate") {
        Certificate::NoRoster(proof) => proof,
        Certificate::Award(_awarded) => panic!(rt; "a proof"),
    }
}

#[test]
fn a_proof_is_reused_without_the_bids_of_a_member(rt: HostRuntime) {
    let alloc = rt.alloc();
    let proof = proof_of(&rt, alloc, TRACKED);
    let made = reuse(alloc, &proof, 1).expect(&rt, "memory");
    assert!(rt; made == proof_of(&rt, alloc, UNTRACKED));
    let all = reuse(alloc, &proof, 2).expect(&rt, "memory");
    assert!(rt; all == proof);
}
