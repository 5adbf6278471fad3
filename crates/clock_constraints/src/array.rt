//! The file's arrays of tables.
ghost use Rattle.std.specs.Prelude.{◌≡◌};
ghost use Rattle.toml.specs.Data.{get_member};
ghost use Rattle.toml.specs.View.{table_view, array_view};
ghost use Rattle.clock_constraints.specs.Refusals.{Gives};
ghost use Rattle.clock_constraints.specs.Entries.{entries, entries_of, are_tables};

use crate::entry::Entry;
use crate::{refusal, value};
use cdc_base::{List, Stop};
use std::alloc::Global;
use toml::{Table, Value};

/// Whether each value is a table.
fn are_tables(values: &Vec<Value>) -> bool
    ensures { result ≡ are_tables (array_view values.now) }
{
    for value in values {
        if !value.is_table() {
            return false;
        }
    }
    true
}

/// The entries of an array, in order.
fn entries<T: Entry>(alloc: Global, values: &Vec<Value>) -> Result<List<T>, Stop>
    ensures { Gives result (entries T.reading (array_view values.now)) }
{
    let mut found = List::new(alloc);
    for value in values {
        found.push(T::read(alloc, value)?)?;
    }
    Ok(found)
}

/// The entries of the array of tables at this key. The array may be missing; one with an entry that is no table is
/// refused as a whole.
pub fn entries_at<T: Entry>(alloc: Global, table: &Table, key: &str) -> Result<List<T>, Stop>
    ensures { Gives result (entries_of T.reading key.now (get_member key.now (table_view table.now))) }
{
    let Some(value) = value::member(table, key) else {
        return Ok(List::new(alloc));
    };
    match value.as_array() {
        Some(values) if are_tables(values) => entries(alloc, values),
        _ => Err(refusal::wrong_key(alloc, key)),
    }
}
