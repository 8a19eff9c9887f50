//! What `migrate` writes, and why it ends without.
ghost use Rattle.std.specs.Prelude.{◌≡◌};
ghost use Rattle.desk_commands.specs.MigrateEnds.{cert_stop};
ghost use Rattle.desk_commands.specs.declared.migrate_stop.MigrateStop.TheVariants.{Unread as NotRead, No as Answer, NoMemory as NoRoom};

use cert_text::{CertCode, CertFault};
use duty_calendar::{List, Memory};
use month_files::{Draft, Unread, Unwritten};

/// The version that the certificate had, and the file that holds it as it is written.
#[derive(Drop, Debug)]
pub struct Migrated {
    pub version: u32,
    pub drafts: List<Draft>,
}

/// Why `migrate` says no.
#[derive(Clone, Copy, Debug, PartialEq, Eq)]
pub enum Unmigrated {
    /// The certificate is no certificate text, from this line on.
    Certificate(CertFault),
    /// As it is written it is longer than its file may be.
    TooLong,
}

/// Why `migrate` did not write the certificate.
#[derive(Drop, Debug)]
pub enum MigrateStop {
    /// The file was not read.
    Unread(Unread),
    /// The answer is no.
    No(Unmigrated),
    /// This was to be written, and was not.
    Unwritten(Migrated, Unwritten),
    /// No memory was left.
    NoMemory,
}

impl From<Unread> for MigrateStop {
    ghost from_gives = { λ why e. e ≡ NotRead why };

    fn from(why: Unread) -> MigrateStop {
        MigrateStop::Unread(why)
    }
}

impl From<Unmigrated> for MigrateStop {
    ghost from_gives = { λ why e. e ≡ Answer why };

    fn from(why: Unmigrated) -> MigrateStop {
        MigrateStop::No(why)
    }
}

impl From<Memory> for MigrateStop {
    ghost from_gives = { λ _ e. e ≡ NoRoom };

    fn from(_want: Memory) -> MigrateStop {
        MigrateStop::NoMemory
    }
}

impl From<CertFault> for MigrateStop {
    ghost from_gives = { λ fault e. e ≡ cert_stop fault.code fault };

    fn from(fault: CertFault) -> MigrateStop {
        match fault.code {
            CertCode::NoMemory => MigrateStop::NoMemory,
            CertCode::Version
            | CertCode::Word
            | CertCode::Number
            | CertCode::Short
            | CertCode::Trailing
            | CertCode::Limit => MigrateStop::No(Unmigrated::Certificate(fault)),
        }
    }
}
