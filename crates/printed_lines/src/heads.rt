//! The first words of lines.

/// What a line is about, by its first word.
#[derive(Clone, Copy)]
pub enum Head {
    Award,
    Vector,
    Nodes,
    Denials,
    Budget,
    Yes,
    Made,
    Migrated,
    WhatIf,
    Open,
    Calendar,
    Page,
    Member,
    Bid,
    Bad,
    No,
    Trade,
    Usage,
    /// What became of a file.
    File,
}

/// A first word, and what its lines are about.
#[derive(Clone, Copy)]
struct First {
    word: &'static [u8],
    head: Head,
}

/// The first words of lines.
static HEADS: [First; 22] = [
    First {
        word: b"award",
        head: Head::Award,
    },
    First {
        word: b"vector",
        head: Head::Vector,
    },
    First {
        word: b"nodes",
        head: Head::Nodes,
    },
    First {
        word: b"denials",
        head: Head::Denials,
    },
    First {
        word: b"budget",
        head: Head::Budget,
    },
    First {
        word: b"yes",
        head: Head::Yes,
    },
    First {
        word: b"made",
        head: Head::Made,
    },
    First {
        word: b"migrated",
        head: Head::Migrated,
    },
    First {
        word: b"whatif",
        head: Head::WhatIf,
    },
    First {
        word: b"open",
        head: Head::Open,
    },
    First {
        word: b"calendar",
        head: Head::Calendar,
    },
    First {
        word: b"page",
        head: Head::Page,
    },
    First {
        word: b"member",
        head: Head::Member,
    },
    First {
        word: b"bid",
        head: Head::Bid,
    },
    First {
        word: b"bad",
        head: Head::Bad,
    },
    First {
        word: b"no",
        head: Head::No,
    },
    First {
        word: b"trade",
        head: Head::Trade,
    },
    First {
        word: b"usage:",
        head: Head::Usage,
    },
    First {
        word: b"missing",
        head: Head::File,
    },
    First {
        word: b"read",
        head: Head::File,
    },
    First {
        word: b"write",
        head: Head::File,
    },
    First {
        word: b"too",
        head: Head::File,
    },
];

/// What the lines of a first word are about, where it is one.
pub fn head_of(word: &[u8]) -> Option<Head> {
    for first in HEADS.iter() {
        if first.word == word {
            return Some(first.head);
        }
    }
    None
}
