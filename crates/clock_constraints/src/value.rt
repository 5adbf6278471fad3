//! What the values of the file's tables say.
ghost use Rattle.std.specs.Prelude.{◌≡◌, option_map, option_and_then, map, codes};
ghost use Rattle.std.specs.List.{list_any};
ghost use Rattle.std.specs.Str.{bytes_eq};
ghost use Rattle.toml.specs.Data.{as_str, as_table, get, get_member};
ghost use Rattle.toml.specs.View.{view, table_view};
ghost use Rattle.clock_constraints.specs.Refusals.{Gives, Passes};
ghost use Rattle.clock_constraints.specs.Values.{wrong_key, first_unknown, unknown_in, text_at, text, text_passing, all_within, is_group, is_reason, settle_or_one, level};

use crate::refusal;
use cdc_base::{Name, Stop};
use std::alloc::Global;
use toml::{Table, Value};

/// The value at a key of a table.
pub fn member<'a>(table: &'a Table, key: &str) -> Option<&'a Value>
    ensures { option_map (λ v. view v.now) result ≡ get_member key.now (table_view table.now) }
{
    table.get(key)
}

/// Whether the word is one of these.
fn is_among(word: &str, words: &[&str]) -> bool
    ensures { result ≡ list_any (bytes_eq word.now) (map (λ k. k.now) words.now) }
{
    for one in words {
        if word == *one {
            return true;
        }
    }
    false
}

/// The first key, in byte order, that isn't among the known ones.
fn first_unknown<'a>(table: &'a Table, known: &[&str]) -> Option<&'a str>
    ensures { option_map (λ k. k.now) result ≡ first_unknown (map (λ k. k.now) known.now) (table_view table.now) }
{
    for (key, _) in table {
        if !is_among(key.as_str(), known) {
            return Some(key.as_str());
        }
    }
    None
}

/// Refuses an entry with another key than the known ones.
pub fn check_keys(alloc: Global, entry: &Value, known: &[&str]) -> Result<(), Stop>
    ensures { Passes result (unknown_in (map (λ k. k.now) known.now) (as_table (view entry.now))) }
{
    match entry.as_table() {
        Some(table) => check_table(alloc, table, known),
        None => Ok(()),
    }
}

/// Refuses a table with another key than the known ones.
pub fn check_table(alloc: Global, table: &Table, known: &[&str]) -> Result<(), Stop>
    ensures { Passes result (option_map wrong_key (first_unknown (map (λ k. k.now) known.now) (table_view table.now))) }
{
    match first_unknown(table, known) {
        Some(key) => Err(refusal::wrong_key(alloc, key)),
        None => Ok(()),
    }
}

/// The string at a key.
fn text_at<'a>(entry: &'a Value, key: &str) -> Option<&'a str>
    ensures { option_map (λ s. s.now) result ≡ text_at key.now (view entry.now) }
{
    match entry.get(key) {
        Some(value) => value.as_str(),
        None => None,
    }
}

/// The string that has to stand at a key.
pub fn text(alloc: Global, entry: &Value, key: &str) -> Result<Name, Stop>
    ensures { Gives result (text key.now (view entry.now)) }
{
    match text_at(entry, key) {
        Some(text) => Ok(Name::from_text(alloc, text)?),
        None => Err(refusal::wrong_key(alloc, key)),
    }
}

/// Whether each byte lies in this range, ends included.
fn all_within(text: &str, least: u8, greatest: u8) -> bool
    ensures { result ≡ all_within least greatest text.now }
{
    text.as_bytes()
        .iter()
        .all(|byte| least <= *byte && *byte <= greatest)
}

/// Whether the text names a group: it has a byte, and none below 32.
fn is_group(text: &str) -> bool
    ensures { result ≡ is_group text.now }
{
    !text.is_empty() && all_within(text, 32, u8::MAX)
}

/// The name of a group that has to stand at a key.
pub fn group(alloc: Global, entry: &Value, key: &str) -> Result<Name, Stop>
    ensures { Gives result (text_passing is_group key.now (view entry.now)) }
{
    match text_at(entry, key) {
        Some(text) if is_group(text) => Ok(Name::from_text(alloc, text)?),
        _ => Err(refusal::wrong_key(alloc, key)),
    }
}

/// Whether the text may be a reason: it has 1 to 200 bytes, from 32 to 126.
fn is_reason(text: &str) -> bool
    ensures { result ≡ is_reason text.now }
{
    !text.is_empty() && text.len() <= 200 && all_within(text, 32, 126)
}

/// The reason that has to stand at a key.
pub fn reason(alloc: Global, entry: &Value, key: &str) -> Result<Name, Stop>
    ensures { Gives result (text_passing is_reason key.now (view entry.now)) }
{
    match text_at(entry, key) {
        Some(text) if is_reason(text) => Ok(Name::from_text(alloc, text)?),
        _ => Err(refusal::wrong_key(alloc, key)),
    }
}

/// The cycles, 1 to 3, in which a clock's bits settle; 1 where the clock doesn't say.
pub fn settle(alloc: Global, entry: &Value) -> Result<u8, Stop>
    ensures { Gives result (settle_or_one (get (codes "settle") (view entry.now))) }
{
    let Some(value) = entry.get("settle") else {
        return Ok(1);
    };
    match value.as_integer() {
        Some(1) => Ok(1),
        Some(2) => Ok(2),
        Some(3) => Ok(3),
        _ => Err(refusal::wrong_key(alloc, "settle")),
    }
}

/// Whether a reset is active high: its level is `low` or `high`.
pub fn level(alloc: Global, entry: &Value) -> Result<bool, Stop>
    ensures { Gives result (level (view entry.now)) }
{
    match text_at(entry, "active") {
        Some("low") => Ok(false),
        Some("high") => Ok(true),
        _ => Err(refusal::wrong_key(alloc, "active")),
    }
}
