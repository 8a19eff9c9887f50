//! The rules of a month, read and written.

use duty_calendar::List;
use rules_file::{RuleFault, put_rules, read_rules};

/// The code of a text's fault and the key in it, or 9 and the seat.
fn outcome(rt: &HostRuntime, text: &[u8]) -> (u32, List<u8>) {
    let none = List::new(rt.alloc());
    match read_rules(rt.alloc(), text) {
        Ok(_) => (9, none),
        Err(e) => {
            let code = e.code();
            match e {
                RuleFault::NoMemory => (code, none),
                RuleFault::NotToml => (code, none),
                RuleFault::MissingKey(key) => (code, key.text),
                RuleFault::UnknownKey(key) => (code, key.text),
                RuleFault::Range(key) => (code, key.text),
            }
        }
    }
}

#[test]
fn faults(rt: HostRuntime) {
    let whole =
        b"# June\nmonth = 6\nbase = \"OSL\"\ndays_off = 8\nseat = \"CP7\"\noffset = -60\nyear = 2026\n".as_slice();
    for (text, code, key) in [
        (whole, 9, b"".as_slice()),
        (
            b"base = \"OSL\"\nseat = \"CP7\"\nyear = 2026\noffset = 0\n".as_slice(),
            2,
            b"month".as_slice(),
        ),
        (
            b"zeal = 1\nbase = \"OSL\"\nseat = \"CP7\"\nyear = 2026\nmonth = 6\noffset = 0\nanger = 2\ndays_off = 8\n".as_slice(),
            3,
            b"anger".as_slice(),
        ),
        (
            b"base = \"OSL\"\nseat = \"CP7\"\nyear = \"2026\"\nmonth = 13\noffset = 0\ndays_off = 8\n".as_slice(),
            4,
            b"year".as_slice(),
        ),
        (
            b"base = \"OSL\"\nseat = \"CP7\"\nyear = 2026\nmonth = 6\noffset = 841\ndays_off = 32\n".as_slice(),
            4,
            b"offset".as_slice(),
        ),
        (
            b"base = \"OSLO\"\nseat = \"cp7\"\nyear = 2026\nmonth = 6\noffset = 0\ndays_off = 8\n".as_slice(),
            4,
            b"base".as_slice(),
        ),
        (b"base: OSL".as_slice(), 1, b"".as_slice()),
        (b"base = \"\xff\"\n".as_slice(), 1, b"".as_slice()),
    ] {
        let found = outcome(&rt, text);
        assert!(rt; found.0 == code);
        assert!(rt; found.1.as_slice() == key);
    }
}

#[test]
fn written_again(rt: HostRuntime) {
    let text =
        b"days_off = 8\noffset = -60 # west\nmonth = 6\nyear = 2026\nseat = 'CP7'\nbase = \"OSL\"".as_slice();
    let rules = read_rules(rt.alloc(), text).expect(&rt, "rules");
    let mut out = List::new(rt.alloc());
    put_rules(&mut out, &rules).expect(&rt, "memory");
    let want =
        b"base = \"OSL\"\nseat = \"CP7\"\nyear = 2026\nmonth = 6\noffset = -60\ndays_off = 8\n".as_slice();
    assert!(rt; out.as_slice() == want);
    assert!(rt; read_rules(rt.alloc(), out.as_slice()).expect(&rt, "rules") == rules);
}
