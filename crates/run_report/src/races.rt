//! The races of a step.
ghost use Rattle.std.specs.Prelude.{◌≡◌, List, map, ◌++◌, IfOk};
ghost use Rattle.cdc_model.specs.declared.record.Race.{Race};
ghost use Rattle.run_report.specs.Lines.{other_of, race_line, race_lines, AreByBit};

use crate::bits::{add_bit, add_list};
use cdc_base::{Bit, List, NoMemory};
use cdc_model::Race;
use cell_graph::Net;
use report::text::Text;
use std::alloc::Global;

fn add_other(text: &mut Text, net: &Net, other: &Option<List<Bit>>) -> Result<(), NoMemory>
    ensures { IfOk result (λ _. text.new ≡ text.old ++ other_of net.now.graph.signals other.now) }
{
    match other {
        Some(other) => {
            text.add(" else")?;
            add_list(text, net, other.as_slice())
        }
        None => Ok(()),
    }
}

fn add_race(text: &mut Text, net: &Net, race: &Race) -> Result<(), NoMemory>
    ensures { IfOk result (λ _. text.new ≡ text.old ++ race_line net.now.graph.signals race.now) }
{
    text.add("  race ")?;
    add_bit(text, net, race.bit)?;
    text.add(": flip")?;
    add_list(text, net, race.flip.as_slice())?;
    add_other(text, net, &race.other)?;
    text.add("\n")
}

/// The races, by their bits.
fn by_bit<'a>(alloc: Global, races: &'a [Race]) -> Result<Vec<&'a Race>, NoMemory>
    ensures { IfOk result (λ sorted. AreByBit (map (λ r. r.now) sorted.items) races.now) }
{
    let mut sorted = Vec::new(alloc);
    for race in races {
        if sorted.push(race).is_err() {
            return Err(NoMemory);
        }
    }
    sorted.sort_unstable_by_key(|race| race.bit);
    Ok(sorted)
}

fn add_all(text: &mut Text, net: &Net, races: &[&Race]) -> Result<(), NoMemory>
    ensures { IfOk result (λ _. text.new ≡ text.old ++ race_lines net.now.graph.signals (map (λ r. r.now) races.now)) }
{
    for race in races {
        add_race(text, net, race)?;
    }
    Ok(())
}

/// Adds a line for each race, by its bit.
pub fn add_races(text: &mut Text, net: &Net, races: &[Race]) -> Result<(), NoMemory>
    ensures { IfOk result (λ _. (sorted : List Race) × AreByBit sorted races.now × (text.new ≡ text.old ++ race_lines net.now.graph.signals sorted)) }
{
    let sorted = by_bit(text.alloc(), races)?;
    add_all(text, net, sorted.as_slice())
}
