//! The shape of a record.
ghost use Rattle.std.specs.Prelude.{◌≡◌, List, ℕ, map, not, codes, ◌++◌, ◌∷◌, [], if◌then◌else◌, IfOk, IfErr};
ghost use Rattle.std.specs.List.{list_any};
ghost use Rattle.std.specs.Str.{bytes_eq};
ghost use Rattle.serde_json.specs.Find.{get};
ghost use Rattle.serde_json.specs.View.{view, items_view};
ghost use Rattle.refusals.specs.Numbers.{HasNumberIn};
ghost use Rattle.run_file.specs.Numbers.{record_numbers};
ghost use Rattle.clock_constraints.specs.Refusals.{Gives, Passes};
ghost use Rattle.run_file.specs.Shapes.{race, races_of, repeated, races, step, steps_of, steps, document};

use crate::document::{Document, RaceEntry, StepEntry};
use crate::refusal::wrong_shape;
use crate::value::{check_keys, entries_at, some_texts_at, text_at, texts_at};
use cdc_base::{List, NoMemory, Stop};
use indexmap::IndexSet;
use serde_json::Value;
use std::alloc::Global;

fn race(alloc: Global, value: &Value) -> Result<RaceEntry, Stop>
    ensures gives { Gives result (race (view value.now)) }
    ensures numbered { IfErr result (HasNumberIn record_numbers) }
{
    check_keys(alloc, value, &["bit", "flip", "else"])?;
    Ok(RaceEntry {
        bit: text_at(alloc, value, "bit")?,
        flip: texts_at(alloc, value, "flip")?,
        other: some_texts_at(alloc, value, "else")?,
    })
}

fn races_of(alloc: Global, values: &Vec<Value>) -> Result<List<RaceEntry>, Stop>
    ensures gives { Gives result (races_of (items_view values.now.items)) }
    ensures numbered { IfErr result (HasNumberIn record_numbers) }
{
    let mut races = List::new(alloc);
    for value in values {
        races.push(race(alloc, value)?)?;
    }
    Ok(races)
}

/// Adds the name, unless it is there. It answers whether it was added.
fn add_new<'a>(seen: &mut IndexSet<&'a str>, name: &'a str) -> Result<bool, NoMemory>
    ensures new { IfOk result (λ added. added ≡ not (list_any (bytes_eq name.now) (map (λ n. n.now) seen.old.keys))) }
    ensures kept { IfOk result (λ added. map (λ n. n.now) seen.new.keys
        ≡ (if added then map (λ n. n.now) seen.old.keys ++ name.now ∷ [] else map (λ n. n.now) seen.old.keys)) }
{
    match seen.insert(name) {
        Ok(added) => Ok(added),
        Err(_) => Err(NoMemory),
    }
}

/// Refuses two races of one bit.
fn check_bits(alloc: Global, races: &[RaceEntry]) -> Result<(), Stop>
    ensures passes { Passes result (repeated races.now) }
    ensures numbered { IfErr result (HasNumberIn record_numbers) }
{
    let mut seen = IndexSet::new(alloc);
    for race in races {
        if !add_new(&mut seen, race.bit.as_str())? {
            return Err(wrong_shape(alloc));
        }
    }
    Ok(())
}

/// The races of a step.
fn races_at(alloc: Global, value: &Value) -> Result<List<RaceEntry>, Stop>
    ensures gives { Gives result (races (get (codes "races") (view value.now))) }
    ensures numbered { IfErr result (HasNumberIn record_numbers) }
{
    let Some(member) = value.get("races") else {
        return Ok(List::new(alloc));
    };
    let Some(values) = member.as_array() else {
        return Err(wrong_shape(alloc));
    };
    let races = races_of(alloc, values)?;
    check_bits(alloc, races.as_slice())?;
    Ok(races)
}

fn step(alloc: Global, value: &Value) -> Result<StepEntry, Stop>
    ensures gives { Gives result (step (view value.now)) }
    ensures numbered { IfErr result (HasNumberIn record_numbers) }
{
    check_keys(alloc, value, &["edges", "inputs", "races"])?;
    Ok(StepEntry {
        edges: texts_at(alloc, value, "edges")?,
        inputs: entries_at(alloc, value, "inputs")?,
        races: races_at(alloc, value)?,
    })
}

fn steps_of(alloc: Global, values: &Vec<Value>) -> Result<List<StepEntry>, Stop>
    ensures gives { Gives result (steps_of (items_view values.now.items)) }
    ensures numbered { IfErr result (HasNumberIn record_numbers) }
{
    let mut steps = List::new(alloc);
    for value in values {
        steps.push(step(alloc, value)?)?;
    }
    Ok(steps)
}

fn steps_at(alloc: Global, value: &Value) -> Result<List<StepEntry>, Stop>
    ensures gives { Gives result (steps (get (codes "steps") (view value.now))) }
    ensures numbered { IfErr result (HasNumberIn record_numbers) }
{
    let Some(member) = value.get("steps") else {
        return Err(wrong_shape(alloc));
    };
    match member.as_array() {
        Some(values) => steps_of(alloc, values),
        None => Err(wrong_shape(alloc)),
    }
}

/// What the tree says. It is refused where there is another key anywhere, a missing one, a value of another kind, or a
/// step with two races of one bit.
pub fn document(alloc: Global, value: &Value) -> Result<Document, Stop>
    ensures gives { Gives result (document (view value.now)) }
    ensures numbered { IfErr result (HasNumberIn record_numbers) }
{
    check_keys(alloc, value, &["start", "steps"])?;
    Ok(Document {
        start: entries_at(alloc, value, "start")?,
        steps: steps_at(alloc, value)?,
    })
}
