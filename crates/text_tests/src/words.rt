//! Words that are commands, and words that are none.

use command_words::{Command, Sizes};
use duty_calendar::List;
use std::alloc::Global;
use std::process::Abort;

/// The command of these words.
fn read(rt: &impl Abort, alloc: Global, texts: &[&str]) -> Option<Command> {
    let mut words = Vec::new(alloc);
    for text in texts {
        let word = String::from_str(alloc, text).expect(rt, "memory");
        words.push(word).expect(rt, "memory");
    }
    Command::from_words(alloc, &words).expect(rt, "memory")
}

/// Says that these words are this command.
fn assert_read(rt: &impl Abort, alloc: Global, texts: &[&str], command: Command) {
    assert!(rt; read(rt, alloc, texts) == Some(command), "{texts:?}");
}

static NO_COMMANDS: [&[&str]; 30] = [
    &[],
    &[""],
    &["judge"],
    &["check", "check"],
    &["check", "--nodes", "5"],
    &["--nodes", "5", "award"],
    &["award", "--nodes", "0"],
    &["award", "--nodes=0"],
    &["award", "--nodes", "20001"],
    &["award", "--nodes", "05"],
    &["award", "--nodes"],
    &["award", "--nodes="],
    &["award", "--nodes", ""],
    &["award", "--nodes", "-5"],
    &["award", "--nodes", "5", "--nodes", "5"],
    &["award", "--nodes=5", "--nodes=5"],
    &["award", "--"],
    &["award", "5"],
    &["help"],
    &["-h"],
    &["--help"],
    &["help", "award"],
    &["award", "--help"],
    &["show"],
    &["show", ""],
    &["show", "-x"],
    &["show", "-"],
    &["make", "7", "0", "24"],
    &["make", "7", "8", "601"],
    &["make", "7", "201", "24"],
];

static NO_DESKS: [&[&str]; 15] = [
    &["whatif"],
    &["whatif", ""],
    &["whatif", "-x"],
    &["whatif", "M1", "M2"],
    &["whatif", "M1", "--nodes", "0"],
    &["whatif", "--nodes=5", "M1", "--nodes=5"],
    &["migrate", "certificate.txt"],
    &["migrate", "--nodes", "5"],
    &["migrate", "--"],
    &["trade", "trades.txt"],
    &["trade", "--nodes=5"],
    &["calendar"],
    &["calendar", ""],
    &["calendar", "-x"],
    &["calendar", "M1", "M2"],
];

static NO_MONTHS: [&[&str]; 9] = [
    &["make", "7", "8"],
    &["make", "7", "8", "24", "1"],
    &["make", "7", "8", "24", "--nodes", "5"],
    &["make", "--", "7", "8", "24"],
    &["make", "18446744073709551616", "8", "24"],
    &["make", "07", "8", "24"],
    &["make", "+7", "8", "24"],
    &["trial", "--nodes=5", "7", "8", "24", "--nodes=5"],
    &["trial", "7", "8", "--nodes", "24"],
];

static NOT_OPEN: [&[&str]; 12] = [
    &["open"],
    &["open", ""],
    &["open", "51"],
    &["open", "05"],
    &["open", "-1"],
    &["open", "1", "2"],
    &["open", "1", "--nodes", "0"],
    &["open", "--nodes=5", "1", "--nodes=5"],
    &["opencheck"],
    &["opencheck", "51"],
    &["opencheck", "1", "--nodes", "5"],
    &["opencheck", "--", "1"],
];

/// Says that each row of a table is no command.
fn assert_none(rt: &impl Abort, alloc: Global, table: &[&[&str]]) {
    for words in table {
        assert!(rt; read(rt, alloc, words).is_none(), "{words:?}");
    }
}

#[test]
fn other_words_are_no_command(rt: HostRuntime) {
    assert_none(&rt, rt.alloc(), &NO_COMMANDS);
    assert_none(&rt, rt.alloc(), &NO_MONTHS);
    assert_none(&rt, rt.alloc(), &NO_DESKS);
    assert_none(&rt, rt.alloc(), &NOT_OPEN);
}

#[test]
fn checks_and_awards(rt: HostRuntime) {
    assert_read(&rt, rt.alloc(), &["check"], Command::Check);
    assert_read(&rt, rt.alloc(), &["award"], Command::Award(20000));
    assert_read(
        &rt,
        rt.alloc(),
        &["award", "--nodes", "5"],
        Command::Award(5),
    );
    assert_read(&rt, rt.alloc(), &["award", "--nodes=5"], Command::Award(5));
}

#[test]
fn shows_a_member(rt: HostRuntime) {
    let name = b"help".to_vec(rt.alloc()).expect(&rt, "memory");
    assert_read(
        &rt,
        rt.alloc(),
        &["show", "help"],
        Command::Show(List::from_vec(name)),
    );
}

#[test]
fn writes_versions_trades_and_calendars(rt: HostRuntime) {
    let name = b"M1".to_vec(rt.alloc()).expect(&rt, "memory");
    assert_read(&rt, rt.alloc(), &["migrate"], Command::Migrate);
    assert_read(&rt, rt.alloc(), &["trade"], Command::Trade);
    assert_read(
        &rt,
        rt.alloc(),
        &["calendar", "M1"],
        Command::Calendar(List::from_vec(name)),
    );
}

#[test]
fn asks_what_if(rt: HostRuntime) {
    let texts: [&[&str]; 3] = [
        &["whatif", "M1", "--nodes", "5"],
        &["whatif", "--nodes=5", "M1"],
        &["whatif", "--nodes", "5", "M1"],
    ];
    for words in texts {
        let name = b"M1".to_vec(rt.alloc()).expect(&rt, "memory");
        let asked = Command::WhatIf(List::from_vec(name), 5);
        assert_read(&rt, rt.alloc(), words, asked);
    }
    let name = b"M1".to_vec(rt.alloc()).expect(&rt, "memory");
    assert_read(
        &rt,
        rt.alloc(),
        &["whatif", "M1"],
        Command::WhatIf(List::from_vec(name), 20000),
    );
}

#[test]
fn opens_and_judges_months(rt: HostRuntime) {
    let texts: [&[&str]; 3] = [
        &["open", "50", "--nodes", "5"],
        &["open", "--nodes=5", "50"],
        &["open", "--nodes", "5", "50"],
    ];
    for words in texts {
        assert_read(&rt, rt.alloc(), words, Command::Open(50, 5));
    }
    assert_read(&rt, rt.alloc(), &["open", "0"], Command::Open(0, 20000));
    assert_read(&rt, rt.alloc(), &["opencheck", "0"], Command::OpenCheck(0));
    assert_read(
        &rt,
        rt.alloc(),
        &["opencheck", "50"],
        Command::OpenCheck(50),
    );
}

const SMALL: Sizes = Sizes {
    number: 7,
    members: 8,
    pairings: 24,
};

const LARGE: Sizes = Sizes {
    number: u64::MAX,
    members: 200,
    pairings: 600,
};

static TRIALS: [&[&str]; 8] = [
    &["trial", "--nodes", "5", "7", "8", "24"],
    &["trial", "--nodes=5", "7", "8", "24"],
    &["trial", "7", "--nodes", "5", "8", "24"],
    &["trial", "7", "--nodes=5", "8", "24"],
    &["trial", "7", "8", "--nodes", "5", "24"],
    &["trial", "7", "8", "--nodes=5", "24"],
    &["trial", "7", "8", "24", "--nodes", "5"],
    &["trial", "7", "8", "24", "--nodes=5"],
];

#[test]
fn makes_and_tries_months(rt: HostRuntime) {
    assert_read(
        &rt,
        rt.alloc(),
        &["make", "7", "8", "24"],
        Command::Make(SMALL),
    );
    let words = ["make", "18446744073709551615", "200", "600"];
    assert_read(&rt, rt.alloc(), &words, Command::Make(LARGE));
    assert_read(
        &rt,
        rt.alloc(),
        &["trial", "7", "8", "24"],
        Command::Trial(SMALL, 20000),
    );
    for words in &TRIALS {
        assert_read(&rt, rt.alloc(), words, Command::Trial(SMALL, 5));
    }
}
