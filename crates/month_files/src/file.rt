//! The files of a folder.
ghost use Rattle.std.specs.Prelude.{◌≡◌, Some};
ghost use Rattle.shelf.specs.Names.{IsName};
ghost use Rattle.month_files.specs.FileNames.{name_of, limit_of};

use std::fmt;

/// A file of a folder: the eight inputs in the order in which they are read, what is judged, trades, and what is asked and
/// written of other bids and of open time.
#[derive(Clone, Copy, Debug, PartialEq, Eq)]
pub enum File {
    Rules,
    Pairings,
    Duties,
    Legs,
    Crew,
    History,
    Fixed,
    Bids,
    Certificate,
    Roster,
    Reasons,
    Trades,
    OtherBids,
    OtherRoster,
    OpenNone,
    OpenCertificate,
    OpenReasons,
    OpenRoster,
}

impl File {
    /// The name of the file in its folder.
    pub fn name(self) -> &'static str
        ensures name { result.now ≡ name_of self }
        ensures fits { IsName result.now }
    {
        match self {
            File::Rules => "rules.toml",
            File::Pairings => "pairings.csv",
            File::Duties => "duties.csv",
            File::Legs => "legs.csv",
            File::Crew => "crew.csv",
            File::History => "history.csv",
            File::Fixed => "fixed.csv",
            File::Bids => "bids.txt",
            File::Certificate => "certificate.txt",
            File::Roster => "roster.csv",
            File::Reasons => "reasons.txt",
            File::Trades => "trades.txt",
            File::OtherBids => "bids2.txt",
            File::OtherRoster => "whatif-roster.csv",
            File::OpenNone => "open-none.txt",
            File::OpenCertificate => "open-certificate.txt",
            File::OpenReasons => "open-reasons.txt",
            File::OpenRoster => "open-roster.csv",
        }
    }

    /// The most bytes that the file may have.
    pub fn limit(self) -> u64
        ensures limit { result ≡ limit_of self }
    {
        match self {
            File::Certificate | File::OpenNone | File::OpenCertificate => 2_147_483_648,
            _ => 67_108_864,
        }
    }
}

impl fmt::Display for File {
    ghost output = { λ f. Some (name_of f) };

    fn fmt<W: fmt::Write>(&self, f: &mut fmt::Formatter<W>) -> fmt::Result {
        f.write_str(self.name())
    }
}
