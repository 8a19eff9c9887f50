//! Texts of certificates in version 3.

use crate::certificates::assert_faults;
use cert_text::{is_plain_certificate, print_certificate, read_certificate};
use roster_model::{Certificate, Item};
use std::process::Abort;

/// Texts whose lenses look at whole lines: with another lens of the same words, in a proof, and in the proof of a part.
static WHOLE: [&[u8]; 3] = [
    b"pbs-certificate 3\nnone\nproof 2 2\nwhole 60 0000000000000001 0 0\nlens 60 0000000000000001 0 0\nnoline 1 1\nnoline 2 2\nend\n",
    b"pbs-certificate 3\naward 1 0\nproof 1 2\nlens 1 0000000000000000 0 0\nwhole 1 0000000000000000 0 0 d168:5\nweights 0\nby 1 2\nend\n",
    b"pbs-certificate 3\naward 0 1\nshown 1 0\nproof 1 1\nwhole 60 0000000000000001 1 1\nnoline 1 1\nend\n",
];

#[test]
fn whole_lenses_are_printed(rt: HostRuntime) {
    for text in &WHOLE {
        let certificate = read_certificate(rt.alloc(), text).expect(&rt, "a certificate");
        let printed = print_certificate(rt.alloc(), &certificate).expect(&rt, "memory");
        assert!(rt; printed.as_slice() == *text);
        assert!(rt; !is_plain_certificate(&certificate));
    }
}

/// Says whether the lens of an item looks at whole lines.
fn assert_looks(rt: &impl Abort, item: &Item, whole: bool) {
    let Item::NoLine(_, lens) = item else {
        panic!(rt; "a member has no line");
    };
    assert!(rt; lens.whole == whole);
}

#[test]
fn whole_lenses_are_read(rt: HostRuntime) {
    let certificate = read_certificate(rt.alloc(), WHOLE[0]).expect(&rt, "a certificate");
    let Certificate::NoRoster(proof) = &certificate else {
        panic!(rt; "there is no roster");
    };
    assert!(rt; proof.len() == 2);
    assert_looks(&rt, &proof.as_slice()[0], true);
    assert_looks(&rt, &proof.as_slice()[1], false);
}

/// What follows the first line of version 3, and its fault. Some lens has to look at whole lines, and the line behind which
/// none can come is at fault.
const WHOLES: &str =
    r"none\nproof 1 1\nwhole\n => line 4: the words after the first are not of this form
none\nproof 1 1\nwholes 1 0000000000000000 0 1\n => line 4: another word is expected
none\nproof 1 2\nwhole 1 0000000000000000 0 1\nwhole 1 0000000000000000 0 1\n => line 5: the words after the first are not of this form
none\nproof 1 1\nwhole 4294967296 0000000000000000 0 1\n => line 4: beyond a limit
none\nproof 1 1\nwhole 1 0000000000000000 0 1\ncount 1\n => line 5: the words after the first are not of this form
none\nproof 0 0\n => line 3: the words after the first are not of this form
none\nproof 40002 0\n => line 3: the words after the first are not of this form
none\nproof 1 1\nlens 1 0000000000000000 0 1\n => line 4: another word is expected
none\nproof 1 1\nlens 1\n => line 4: another word is expected
none\nproof 1 2\nlens 1 0000000000000000 0 1\nlens 1 0000000000000000 0 0\n => line 5: another word is expected
none\nproof 1 2\nlens 1 0000000000000000 0 1\nlens 1 0000000000000000 0 1\n => line 5: another word is expected
none\nproof 1 3\nlens 1 0000000000000000 0 1\nlens 1 0000000000000000 0 1\nlens 1 0000000000000000 0 1\n => line 5: the words after the first are not of this form
none\nproof 1 2\nwhole 1 0000000000000000 0 1\nlens 1 0000000000000000 0 1\nweights 0\nby 1 2\nend\nend\n => line 9: bytes after the end
award 0 0\n => line 2: the words after the first are not of this form
award 0 12801\n => line 2: beyond a limit
award 1 0\nproof 0 0\n => line 3: the words after the first are not of this form
award 2 0\nproof 1 1\nlens 1 0000000000000000 0 1\nnoline 1 1\nproof 1 1\nlens 1 0000000000000000 0 1\n => line 7: another word is expected
award 2 0\nproof 1 1\nwhole 1 0000000000000000 0 1\nnoline 1 1\nproof 1 1\nlens 1 0000000000000000 0 1\nnoline 1 1\nend\nx => line 10: bytes after the end
award 1 1\nproof 0 0\nshown 0 0\n => line 4: the words after the first are not of this form
award 1 1\nproof 0 0\nshown 0 201\n => line 4: the words after the first are not of this form
award 1 1\nproof 0 0\nshown 1 201\n => line 4: beyond a limit
award 1 2\nproof 0 0\nshown 0 0\nshown 1 0\nproof 0 0\n => line 6: the words after the first are not of this form
award 1 1\nproof 0 0\nshown 1 0\nproof 1 1\nlens 1 0000000000000000 0 1\n => line 6: another word is expected
award 1 1\nproof 1 1\nwhole 1 0000000000000000 0 1\nnoline 1 1\nshown 0 0\nend\nx => line 8: bytes after the end";

#[test]
fn version_three_has_faults(rt: HostRuntime) {
    assert_faults(&rt, rt.alloc(), b"pbs-certificate 3\n", b"", WHOLES);
}
