//! What is wrong with a file of rules.
ghost use Rattle.std.specs.Prelude.{◌≡◌, IfOk};
ghost use Rattle.rules_file.specs.Codes.{rule_code};

use duty_calendar::{List, Memory};
use field_text::put_bytes;
use std::alloc::Global;
use std::marker::Model;
use thiserror::Error;

/// The name of a rule, as its bytes. Contracts see the bytes.
#[derive(Drop, PartialEq, Eq, Debug)]
pub struct Key {
    pub text: List<u8>,
}

impl Model for Key {
    ghost use Rattle.std.specs.Prelude.{ℕ, List};

    ghost Value = { List ℕ };

    ghost view = { λ k. k.text };

    ghost inverse = { λ text. record { text = text } };
}

impl Key {
    /// The key of this text.
    pub(crate) fn new(alloc: Global, text: &str) -> Result<Key, Memory>
        ensures text { IfOk result (λ k. k ≡ text.now) }
    {
        let mut kept = List::new(alloc);
        put_bytes(&mut kept, text.as_bytes())?;
        Ok(Key { text: kept })
    }
}

/// Why a text gives no rules, tested in this order.
#[derive(Drop, PartialEq, Eq, Debug, Error)]
pub enum RuleFault {
    /// No memory was left. Code 0.
    #[error("out of memory")]
    NoMemory,
    /// The text is no TOML table. Code 1.
    #[error("not TOML")]
    NotToml,
    /// The first key, in the order of the format, that the table lacks. Code 2.
    #[error("a key is missing")]
    MissingKey(Key),
    /// The least key in byte order that is none of the format's. Code 3.
    #[error("an unknown key")]
    UnknownKey(Key),
    /// The first key, in the order of the format, whose value has another kind or is out of range.
    /// Code 4.
    #[error("a value of another kind or out of range")]
    Range(Key),
}

impl RuleFault {
    /// The number by which the fault is printed.
    pub fn code(&self) -> u32
        ensures value { result ≡ rule_code self.now }
    {
        match self {
            RuleFault::NoMemory => 0,
            RuleFault::NotToml => 1,
            RuleFault::MissingKey(_) => 2,
            RuleFault::UnknownKey(_) => 3,
            RuleFault::Range(_) => 4,
        }
    }
}
