//! Values that are looked up by name; where a name stands twice, the first counts.
ghost use Rattle.std.specs.Prelude.{◌≡◌, ◌≤◌, ◌<◌, ◌^◌, ◌++◌, None, Some, length, if◌then◌else◌, IfOk, OnOk};
ghost use Rattle.clock_constraints.specs.Refusals.{Text};
ghost use Rattle.std.specs.Str.{bytes_eq};
ghost use Rattle.domains.specs.Tables.{found_in, or_else, named, pairs_of, first_signal, first_clock, names_of_bits, bit_names};

use cdc_base::signal::bit_name;
use cdc_base::{Bit, Name, NoMemory, Signal};
use clock_constraints::ClockPin;
use indexmap::IndexMap;
use std::alloc::Global;

/// Gives the name this value, unless it has one.
fn add_first<'a, V: Copy>(
    table: &mut IndexMap<&'a str, V>,
    name: &'a str,
    value: V,
) -> Result<(), NoMemory>
    ensures { OnOk result ((q : Text) → found_in table.new q
        ≡ or_else (found_in table.old q) (if bytes_eq q name.now then Some value else None)) }
{
    if table.contains_key(name) {
        return Ok(());
    }
    match table.insert(name, value) {
        Ok(_) => Ok(()),
        Err(_) => Err(NoMemory),
    }
}

/// The values by name.
pub fn by_name<'a, V: Copy>(
    alloc: Global,
    pairs: &[(&'a str, V)],
) -> Result<IndexMap<&'a str, V>, NoMemory>
    ensures { IfOk result (λ table. (q : Text) → found_in table q ≡ named (pairs_of pairs.now) q) }
{
    let mut table = IndexMap::new(alloc);
    for (name, value) in pairs {
        add_first(&mut table, name, *value)?;
    }
    Ok(table)
}

fn number(place: usize) -> u32
    ensures { place < 2 ^ 32 → result ≡ place }
{
    u32::try_from(place).unwrap_or(u32::MAX)
}

/// The numbers of signals by their names.
pub fn signal_table<'a>(
    alloc: Global,
    signals: &'a [Signal],
) -> Result<IndexMap<&'a str, u32>, NoMemory>
    ensures { length signals.now ≤ 2 ^ 32 → IfOk result (λ table. (q : Text) → found_in table q ≡ first_signal signals.now q) }
{
    let mut table = IndexMap::new(alloc);
    for (place, signal) in signals.iter().enumerate() {
        add_first(&mut table, signal.name.as_str(), number(place))?;
    }
    Ok(table)
}

/// The numbers of clocks by their names.
pub fn clock_table<'a>(
    alloc: Global,
    clocks: &'a [ClockPin],
) -> Result<IndexMap<&'a str, u32>, NoMemory>
    ensures { length clocks.now ≤ 2 ^ 32 → IfOk result (λ table. (q : Text) → found_in table q ≡ first_clock clocks.now q) }
{
    let mut table = IndexMap::new(alloc);
    for (place, clock) in clocks.iter().enumerate() {
        add_first(&mut table, clock.name.as_str(), number(place))?;
    }
    Ok(table)
}

/// The bits by their printed names, as `bit_names` lists them.
pub fn bit_table<'a>(
    alloc: Global,
    names: &'a [(Name, Bit)],
) -> Result<IndexMap<&'a str, Bit>, NoMemory>
    ensures { IfOk result (λ table. (q : Text) → found_in table q ≡ named names.now q) }
{
    let mut table = IndexMap::new(alloc);
    for (name, bit) in names {
        add_first(&mut table, name.as_str(), *bit)?;
    }
    Ok(table)
}

/// Adds the printed names of a signal's bits.
fn add_bits(
    alloc: Global,
    names: &mut Vec<(Name, Bit)>,
    sig: u32,
    signal: &Signal,
) -> Result<(), NoMemory>
    ensures { OnOk result (names.new.items ≡ names.old.items ++ names_of_bits sig signal.now signal.now.width) }
{
    for at in 0..signal.width {
        let name = bit_name(alloc, signal, at)?;
        if names.push((name, Bit { sig, at })).is_err() {
            return Err(NoMemory);
        }
    }
    Ok(())
}

/// The printed names of all bits of the signals.
pub fn bit_names(alloc: Global, signals: &[Signal]) -> Result<Vec<(Name, Bit)>, NoMemory>
    ensures { length signals.now ≤ 2 ^ 32 → IfOk result (λ names. names.items ≡ bit_names 0 signals.now) }
{
    let mut names = Vec::new(alloc);
    for (place, signal) in signals.iter().enumerate() {
        add_bits(alloc, &mut names, number(place), signal)?;
    }
    Ok(names)
}
