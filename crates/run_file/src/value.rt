//! What the values of the tree say.
ghost use Rattle.std.specs.Prelude.{◌≡◌, List, ℕ, map, IfErr};
ghost use Rattle.std.specs.List.{list_any};
ghost use Rattle.std.specs.Str.{bytes_eq};
ghost use Rattle.serde_json.specs.Find.{get, as_object};
ghost use Rattle.serde_json.specs.View.{view, items_view, members_view};
ghost use Rattle.refusals.specs.Numbers.{HasNumberIn};
ghost use Rattle.run_file.specs.Numbers.{record_numbers};
ghost use Rattle.clock_constraints.specs.Refusals.{Gives, Passes};
ghost use Rattle.run_file.specs.Values.{has_others, known_in, text, texts_of, texts, text_at, texts_at, some_texts, entry, entries_of, entries};

use crate::document::Entry;
use crate::refusal::wrong_shape;
use cdc_base::{List, Name, Stop};
use serde_json::{Map, Value};
use std::alloc::Global;

/// Whether the word is one of these.
fn is_among(word: &str, words: &[&str]) -> bool
    ensures { result ≡ list_any (bytes_eq word.now) (map (λ k. k.now) words.now) }
{
    for one in words {
        if word == *one {
            return true;
        }
    }
    false
}

fn has_others(members: &Map<String, Value>, known: &[&str]) -> bool
    ensures { result ≡ has_others (map (λ k. k.now) known.now) (members_view members.now.entries) }
{
    for (key, _) in members {
        if !is_among(key.as_str(), known) {
            return true;
        }
    }
    false
}

/// Refuses a value that is no object, and one with another key than the known ones.
pub fn check_keys(alloc: Global, value: &Value, known: &[&str]) -> Result<(), Stop>
    ensures passes { Passes result (known_in (map (λ k. k.now) known.now) (as_object (view value.now))) }
    ensures numbered { IfErr result (HasNumberIn record_numbers) }
{
    match value.as_object() {
        Some(members) if !has_others(members, known) => Ok(()),
        _ => Err(wrong_shape(alloc)),
    }
}

pub fn text(alloc: Global, value: &Value) -> Result<Name, Stop>
    ensures gives { Gives result (text (view value.now)) }
    ensures numbered { IfErr result (HasNumberIn record_numbers) }
{
    match value.as_str() {
        Some(text) => Ok(Name::from_text(alloc, text)?),
        None => Err(wrong_shape(alloc)),
    }
}

fn texts_of(alloc: Global, values: &Vec<Value>) -> Result<List<Name>, Stop>
    ensures gives { Gives result (texts_of (items_view values.now.items)) }
    ensures numbered { IfErr result (HasNumberIn record_numbers) }
{
    let mut names = List::new(alloc);
    for value in values {
        names.push(text(alloc, value)?)?;
    }
    Ok(names)
}

/// The texts of an array.
pub fn texts(alloc: Global, value: &Value) -> Result<List<Name>, Stop>
    ensures gives { Gives result (texts (view value.now)) }
    ensures numbered { IfErr result (HasNumberIn record_numbers) }
{
    match value.as_array() {
        Some(values) => texts_of(alloc, values),
        None => Err(wrong_shape(alloc)),
    }
}

/// The text that has to stand at a key.
pub fn text_at(alloc: Global, value: &Value, key: &str) -> Result<Name, Stop>
    ensures gives { Gives result (text_at key.now (view value.now)) }
    ensures numbered { IfErr result (HasNumberIn record_numbers) }
{
    match value.get(key) {
        Some(member) => text(alloc, member),
        None => Err(wrong_shape(alloc)),
    }
}

/// The array of texts that has to stand at a key.
pub fn texts_at(alloc: Global, value: &Value, key: &str) -> Result<List<Name>, Stop>
    ensures gives { Gives result (texts_at key.now (view value.now)) }
    ensures numbered { IfErr result (HasNumberIn record_numbers) }
{
    match value.get(key) {
        Some(member) => texts(alloc, member),
        None => Err(wrong_shape(alloc)),
    }
}

/// The array of texts at a key, where there is one.
pub fn some_texts_at(alloc: Global, value: &Value, key: &str) -> Result<Option<List<Name>>, Stop>
    ensures gives { Gives result (some_texts (get key.now (view value.now))) }
    ensures numbered { IfErr result (HasNumberIn record_numbers) }
{
    match value.get(key) {
        Some(member) => Ok(Some(texts(alloc, member)?)),
        None => Ok(None),
    }
}

fn entry(alloc: Global, name: &str, value: &Value) -> Result<Entry, Stop>
    ensures gives { Gives result (entry name.now (view value.now)) }
    ensures numbered { IfErr result (HasNumberIn record_numbers) }
{
    match value.as_u64() {
        Some(value) => Ok(Entry {
            name: Name::from_text(alloc, name)?,
            value,
        }),
        None => Err(wrong_shape(alloc)),
    }
}

fn entries_of(alloc: Global, members: &Map<String, Value>) -> Result<List<Entry>, Stop>
    ensures gives { Gives result (entries_of (members_view members.now.entries)) }
    ensures numbered { IfErr result (HasNumberIn record_numbers) }
{
    let mut entries = List::new(alloc);
    for (name, value) in members {
        entries.push(entry(alloc, name.as_str(), value)?)?;
    }
    Ok(entries)
}

/// The numbers by name of the object at a key, in byte order; none where there is no such key.
pub fn entries_at(alloc: Global, value: &Value, key: &str) -> Result<List<Entry>, Stop>
    ensures gives { Gives result (entries (get key.now (view value.now))) }
    ensures numbered { IfErr result (HasNumberIn record_numbers) }
{
    let Some(member) = value.get(key) else {
        return Ok(List::new(alloc));
    };
    match member.as_object() {
        Some(members) => entries_of(alloc, members),
        None => Err(wrong_shape(alloc)),
    }
}
