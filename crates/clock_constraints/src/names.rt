//! Names that may stand once, and the clocks that inputs name.
ghost use Rattle.std.specs.Prelude.{◌≡◌, ◌++◌, [], ◌∷◌, List, map, not, if◌then◌else◌, IfOk};
ghost use Rattle.std.specs.List.{list_any};
ghost use Rattle.std.specs.Str.{bytes_eq};
ghost use Rattle.clock_constraints.specs.Refusals.{Text, Gives, Passes};
ghost use Rattle.clock_constraints.specs.Names.{repeated, input_pins, clock_place};

use crate::entry::{Entry, InputEntry};
use crate::refusal::{self, NO_SUCH_CLOCK};
use crate::{ClockPin, InputPin};
use cdc_base::{List, NoMemory, Stop};
use indexmap::IndexSet;
use std::alloc::Global;

/// Adds the names of the entries at the end.
pub fn add_keys<'a, T: Entry>(names: &mut Vec<&'a str>, entries: &'a [T]) -> Result<(), NoMemory>
    ensures { IfOk result (λ _. map (λ n. n.now) names.new.items ≡ map (λ n. n.now) names.old.items ++ map T.key entries.now) }
{
    for entry in entries {
        if names.push(entry.key()).is_err() {
            return Err(NoMemory);
        }
    }
    Ok(())
}

/// Adds the name at the end, unless it is there. It answers whether it was added.
fn add_new<'a>(seen: &mut IndexSet<&'a str>, name: &'a str) -> Result<bool, NoMemory>
    ensures new { IfOk result (λ added. added ≡ not (list_any (bytes_eq name.now) (map (λ n. n.now) seen.old.keys))) }
    ensures kept { IfOk result (λ added. map (λ n. n.now) seen.new.keys
        ≡ (if added then map (λ n. n.now) seen.old.keys ++ name.now ∷ [] else map (λ n. n.now) seen.old.keys)) }
{
    match seen.insert(name) {
        Ok(added) => Ok(added),
        Err(_) => Err(NoMemory),
    }
}

/// The names in their order. It refuses the first that stood before.
pub fn distinct<'a>(
    alloc: Global,
    number: u16,
    names: &[&'a str],
) -> Result<IndexSet<&'a str>, Stop>
    ensures passes { Passes result (repeated number (map (λ n. n.now) names.now)) }
    ensures in_order { IfOk result (λ s. map (λ n. n.now) s.keys ≡ map (λ n. n.now) names.now) }
{
    let mut seen = IndexSet::new(alloc);
    for name in names {
        if !add_new(&mut seen, name)? {
            return Err(refusal::refuse(alloc, number, name));
        }
    }
    Ok(seen)
}

/// The place of the clock with this name. The ports begin with the clocks, so it is the clock's place among the ports.
fn clock_place(ports: &IndexSet<&str>, clocks: &[ClockPin], name: &str) -> Option<usize>
    requires { (rest : List Text) × (map (λ n. n.now) ports.now.keys ≡ map (λ c. c.name) clocks.now ++ rest) }
    ensures { result ≡ clock_place clocks.now name.now }
{
    match ports.get_index_of(name) {
        Some(place) if place < clocks.len() => Some(place),
        _ => None,
    }
}

/// The inputs with the places of their clocks. It refuses the first whose clock isn't there.
pub fn input_pins(
    alloc: Global,
    ports: &IndexSet<&str>,
    clocks: &[ClockPin],
    inputs: &[InputEntry],
) -> Result<List<InputPin>, Stop>
    requires { (rest : List Text) × (map (λ n. n.now) ports.now.keys ≡ map (λ c. c.name) clocks.now ++ rest) }
    ensures { Gives result (input_pins clocks.now inputs.now) }
{
    let mut pins = List::new(alloc);
    for input in inputs {
        let Some(place) = clock_place(ports, clocks, input.clock.as_str()) else {
            return Err(refusal::refuse(alloc, NO_SUCH_CLOCK, input.clock.as_str()));
        };
        let Ok(clock) = u32::try_from(place) else {
            return Err(Stop::Memory);
        };
        pins.push(InputPin {
            name: input.name.copy(alloc)?,
            clock,
        })?;
    }
    Ok(pins)
}
