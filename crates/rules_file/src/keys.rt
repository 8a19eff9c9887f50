//! The keys of a table of rules.
ghost use Rattle.std.specs.Prelude.{◌≡◌, option_map, option_copied, string_bytes, is_none, find, not};
ghost use Rattle.std.specs.BTreeMap.{keys, IsOrdered};
ghost use Rattle.std.specs.String.{string_cmp};
ghost use Rattle.toml.specs.Data.{get_member};
ghost use Rattle.toml.specs.View.{table_view, view};
ghost use Rattle.rules_file.specs.Keys.{is_known, missing, unknown};

use toml::{Table, Value};

/// The value at a key.
pub fn value_at<'a>(table: &'a Table, key: &str) -> Option<&'a Value>
    ensures value { option_map (λ v. view v.now) result
        ≡ get_member key.now (table_view table.now) }
{
    table.get(key)
}

fn is_known(key: &str) -> bool
    ensures value { result ≡ is_known key.now }
{
    "base" == key
        || "seat" == key
        || "year" == key
        || "month" == key
        || "offset" == key
        || "days_off" == key
}

fn is_missing(table: &Table, key: &str) -> bool
    ensures value { result ≡ is_none (get_member key.now (table_view table.now)) }
{
    value_at(table, key).is_none()
}

/// The first key, in the order of the format, that the table lacks.
#[tactic(auto, unfolding(crate::specs::Keys::missing))]
pub fn first_missing(table: &Table) -> Option<&'static str>
    ensures value { option_map (λ k. k.now) result ≡ missing (table_view table.now) }
{
    if is_missing(table, "base") {
        return Some("base");
    }
    if is_missing(table, "seat") {
        return Some("seat");
    }
    if is_missing(table, "year") {
        return Some("year");
    }
    if is_missing(table, "month") {
        return Some("month");
    }
    if is_missing(table, "offset") {
        return Some("offset");
    }
    if is_missing(table, "days_off") {
        return Some("days_off");
    }
    None
}

/// The first key of the table that is none of the format's. A table's keys ascend.
fn first_unknown(table: &Table) -> Option<&String>
    ensures value { option_copied result
        ≡ find (λ k. not (is_known (string_bytes k))) (keys table.now) }
    ensures ordered { IsOrdered string_cmp table.now }
{
    table.keys().find(|key| !is_known(key.as_str()))
}

/// The least key of the table, in byte order, that is none of the format's.
pub fn least_unknown(table: &Table) -> Option<&String>
    ensures value { option_map string_bytes (option_copied result)
        ≡ unknown (table_view table.now) }
{
    first_unknown(table)
}
