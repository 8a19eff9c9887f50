//! How much is spent on guesses: each bound with its unit, and what it was measured by. Where no measurement is named, the
//! bound is one that months of 6 to 60 members seldom come to.
//!
//! A relaxation of a node tests prices of pairings (dual prices) until they close it, or lines can be mixed for its needs. A
//! dive fixes lines of a mix, one after the other. A repair frees some members of a known roster (a large neighbourhood). A
//! choice takes kept lines alone (an exact cover).

use flat_search::Care;

/// What is spent on a goal at a node: on its relaxation, and where that leaves it open, on rosters.
#[derive(Clone, Copy)]
pub struct Effort {
    /// Prices that are tested, and how lines are looked for.
    pub mixes: u32,
    pub care: Care,
    /// Steps of a first choice of kept lines: a step is a look at one line, some 0.05 us.
    pub first_steps: usize,
    /// Choices of free members.
    pub repairs: usize,
    /// Relaxations that these may take together: each takes 2 to 20 ms in a large month.
    pub relaxations: u32,
    /// Exchanges of a line for a better one, each of one to four searches of 0.1 to 0.3 ms: before repairs, and after them.
    pub exchanges: usize,
    pub last_exchanges: usize,
    /// Dives, and how often each may fail.
    pub dives: u32,
    pub failures: usize,
    /// Steps of a last choice of kept lines.
    pub last_steps: usize,
}

/// What kind of month it is: a large one; a tight one, which one that is not large is from the first node on that is split by no
/// plan; or neither.
#[derive(Clone, Copy, PartialEq, Eq)]
pub enum Kind {
    Plain,
    Tight,
    Large,
}

/// What is spent in each kind of month.
#[derive(Clone, Copy)]
struct Efforts {
    plain: Effort,
    tight: Effort,
    large: Effort,
}

/// The relaxation of a root.
const ROOT: Effort = Effort {
    mixes: 60,
    care: Care::Fine,
    first_steps: 0,
    repairs: 0,
    relaxations: u32::MAX,
    exchanges: 0,
    last_exchanges: 0,
    dives: 0,
    failures: 0,
    last_steps: 0,
};

/// The relaxation of a node of a search.
const NODE: Effort = Effort { mixes: 80, ..ROOT };

/// Repairs and a dive at a root that is to be reached, and at the empty node of a search; a dive below it.
const LONG: Effort = Effort {
    repairs: 24,
    dives: 1,
    failures: 24,
    ..NODE
};

const FIRST: Effort = Effort {
    failures: 12,
    ..LONG
};

const DOWN: Effort = Effort {
    dives: 1,
    failures: 4,
    ..NODE
};

/// The relaxation in a repair, and in a dive: with 25 prices after each line and three failures a dive among 16 free members took
/// 6 s in a month of 40.
const ROUGH: Effort = Effort {
    mixes: 30,
    care: Care::Rough,
    ..ROOT
};

const FIXED: Efforts = Efforts {
    plain: Effort { mixes: 25, ..ROUGH },
    tight: Effort { mixes: 25, ..ROUGH },
    large: Effort { mixes: 8, ..ROUGH },
};

/// A root whose level is looked for.
const TESTED: Efforts = Efforts {
    plain: Effort { repairs: 6, ..ROOT },
    tight: Effort {
        first_steps: 1_000_000,
        repairs: 6,
        ..ROOT
    },
    large: Effort {
        first_steps: 200_000,
        repairs: 1_000,
        relaxations: 15,
        exchanges: 500,
        last_exchanges: 1_000,
        ..ROOT
    },
};

/// A root that is to be reached; in a large month roughly: at the last of 30 places 0.5 s for nothing, in place of 5.
const WANTED: Efforts = Efforts {
    plain: LONG,
    tight: Effort {
        last_steps: 1_000_000,
        ..LONG
    },
    large: Effort {
        repairs: 1_000,
        relaxations: 30,
        exchanges: 500,
        last_exchanges: 1_000,
        last_steps: 200_000,
        ..ROUGH
    },
};

/// The empty node of a search; repairs are for goals that ask for a bid, and in a large month for all. More of them don't pay: a
/// node of a tree takes 0.08 s at 40 members, a relaxation 0.02 to 0.1 s where searches run out of steps.
const BEGUN: Efforts = Efforts {
    plain: Effort {
        first_steps: 50_000,
        ..FIRST
    },
    tight: Effort {
        last_steps: 1_000_000,
        ..FIRST
    },
    large: Effort {
        first_steps: 200_000,
        repairs: 1_000,
        relaxations: 60,
        exchanges: 500,
        last_exchanges: 1_000,
        dives: 3,
        failures: 6,
        last_steps: 200_000,
        ..NODE
    },
};

/// In a large month of which no roster is known, before the empty node is looked at closely. Exchanges find one in 0.1 to 0.5 s at 30
/// to 40 members.
const UNKNOWN: Effort = Effort {
    first_steps: 200_000,
    exchanges: 20_000,
    dives: 3,
    failures: 6,
    ..ROUGH
};

/// Another node of a search; dives are for some of them.
const DEEPER: Efforts = Efforts {
    plain: DOWN,
    tight: Effort {
        last_steps: 200_000,
        ..DOWN
    },
    large: Effort {
        exchanges: 100,
        last_steps: 50_000,
        ..NODE
    },
};

/// At how many nodes a dive is made: at one of so many on the way down.
const DIVES: usize = 8;

/// A node at which all but some free members keep their lines.
const FREED: Efforts = Efforts {
    plain: Effort {
        dives: 1,
        failures: 3,
        ..ROUGH
    },
    tight: Effort {
        first_steps: 50_000,
        ..ROUGH
    },
    large: Effort {
        mixes: 20,
        first_steps: 50_000,
        dives: 1,
        failures: 1,
        ..ROUGH
    },
};

impl Efforts {
    /// That of the kind.
    fn of(self, kind: Kind) -> Effort {
        match kind {
            Kind::Plain => self.plain,
            Kind::Tight => self.tight,
            Kind::Large => self.large,
        }
    }
}

impl Effort {
    /// At a root of which it is asked whether it is open: nothing but the lines of its mix.
    pub fn asked() -> Effort {
        ROOT
    }

    /// At a node of a tree that is planned, by lenses that look at pairings one by one.
    pub fn planned() -> Effort {
        Effort {
            care: Care::Plain,
            ..NODE
        }
    }

    /// At a root whose level is looked for.
    pub fn tested(kind: Kind) -> Effort {
        TESTED.of(kind)
    }

    /// At a root whose level is looked for above one at which no roster was found.
    pub fn above(kind: Kind) -> Effort {
        match kind {
            Kind::Large => ROOT,
            _ => TESTED.of(kind),
        }
    }

    /// At a root that is looked at roughly.
    pub fn rough(kind: Kind) -> Effort {
        Effort {
            care: Care::Rough,
            first_steps: 0,
            exchanges: 0,
            last_exchanges: 0,
            ..TESTED.of(kind)
        }
    }

    /// At a root that is to be reached.
    pub fn wanted(kind: Kind, may_dive: bool) -> Effort {
        let effort = WANTED.of(kind);
        Effort {
            dives: if may_dive { effort.dives } else { 0 },
            ..effort
        }
    }

    /// Where no roster is known.
    pub(crate) fn unknown() -> Effort {
        UNKNOWN
    }

    /// At the empty node of a search, which may ask for a bid.
    fn begun(kind: Kind, is_granting: bool) -> Effort {
        let effort = BEGUN.of(kind);
        let may_repair = is_granting || kind == Kind::Large;
        Effort {
            repairs: if may_repair { effort.repairs } else { 0 },
            ..effort
        }
    }

    /// At the node of a search with so many decisions.
    pub fn at(kind: Kind, depth: usize, is_granting: bool) -> Effort {
        if depth == 0 {
            return Effort::begun(kind, is_granting);
        }
        let effort = DEEPER.of(kind);
        let may_dive = depth % DIVES == DIVES - 1;
        Effort {
            dives: if may_dive { effort.dives } else { 0 },
            ..effort
        }
    }

    /// After each line that a dive fixes.
    pub(crate) fn fixed(kind: Kind) -> Effort {
        FIXED.of(kind)
    }

    /// Where the others keep their lines.
    pub(crate) fn freed(kind: Kind) -> Effort {
        FREED.of(kind)
    }
}
