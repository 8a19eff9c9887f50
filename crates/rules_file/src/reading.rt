//! Reading rules.
ghost use Rattle.std.specs.Prelude.{IfOk};
ghost use Rattle.toml.specs.View.{table_view};
ghost use Rattle.field_text.specs.Gives.{Gives};
ghost use Rattle.rules_file.specs.Rules.{told, values, rules_file, rules_in};
ghost use Rattle.duty_calendar.specs.Checks.{IsRules};

use crate::fault::{Key, RuleFault};
use crate::fields::rules_of;
use crate::keys::{first_missing, least_unknown};
use duty_calendar::Rules;
use std::alloc::Global;
use toml::Table;

fn of_table(alloc: Global, table: &Table) -> Result<Rules, RuleFault>
    ensures value { Gives told values result (rules_in (table_view table.now)) }
    ensures valid { IfOk result IsRules }
{
    if let Some(key) = first_missing(table) {
        return match Key::new(alloc, key) {
            Ok(key) => Err(RuleFault::MissingKey(key)),
            Err(_) => Err(RuleFault::NoMemory),
        };
    }
    if let Some(key) = least_unknown(table) {
        return match Key::new(alloc, key.as_str()) {
            Ok(key) => Err(RuleFault::UnknownKey(key)),
            Err(_) => Err(RuleFault::NoMemory),
        };
    }
    match rules_of(table) {
        Ok(rules) => Ok(rules),
        Err(key) => match Key::new(alloc, key) {
            Ok(key) => Err(RuleFault::Range(key)),
            Err(_) => Err(RuleFault::NoMemory),
        },
    }
}

/// The rules that a TOML text gives, or its first fault.
pub fn read_rules(alloc: Global, text: &[u8]) -> Result<Rules, RuleFault>
    ensures value { Gives told values result (rules_file text.now) }
    ensures valid { IfOk result IsRules }
{
    let table = match toml::table_from_slice(alloc, text) {
        Ok(table) => table,
        Err(e) => {
            if e.is_memory() {
                return Err(RuleFault::NoMemory);
            }
            return Err(RuleFault::NotToml);
        }
    };
    of_table(alloc, &table)
}
