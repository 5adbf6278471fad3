//! The orders of a step's clocks, inputs and races.
ghost use Rattle.std.specs.Prelude.{◌≡◌, ◌≤◌, ◌^◌, Some, false, length, map, replicate, IfOk};
ghost use Rattle.std.specs.List.Sorted.{IsPermutation, IsSortedByKey};
ghost use Rattle.std.specs.Ordering.{nat_cmp};
ghost use Rattle.std.specs.Cmp.Lexicographic.{slice_cmp};
ghost use Rattle.cdc_model.specs.declared.record.Given.{Given};
ghost use Rattle.cdc_model.specs.declared.record.Race.{Race};
ghost use Rattle.cdc_model.specs.Replay.{has_edge};
ghost use Rattle.settling_sim.specs.Edges.{is_marked, mark_in};
ghost use Rattle.campaign.specs.Lines.{bit_order};
ghost use Rattle.campaign.specs.Names.{name_of};
ghost use Rattle.campaign.specs.Numbers.{numbers_from};

use crate::names::compare;
use crate::numbers::{add_if, number_of};
use cdc_base::{List, NoMemory};
use cdc_model::{Given, Race};
use cell_graph::Net;
use settling_sim::edges::mark;
use std::alloc::Global;

/// Which of so many clocks tick.
fn marks(alloc: Global, clocks: usize, edges: &[u32]) -> Result<Vec<bool>, NoMemory>
    ensures { IfOk result (λ ticking. ticking.items ≡ mark_in (replicate clocks false) edges.now) }
{
    let Ok(mut ticking) = vec![in alloc; false; clocks] else {
        return Err(NoMemory);
    };
    mark(&mut ticking, edges);
    Ok(ticking)
}

fn ticks_at(ticking: &[bool], clock: usize) -> bool
    ensures { result ≡ is_marked ticking.now (Some clock) }
{
    ticking.get(clock).copied().unwrap_or(false)
}

/// The marked clocks in their order.
fn marked(alloc: Global, ticking: &[bool], clocks: usize) -> Result<List<u32>, NoMemory>
    ensures { IfOk result (λ listed. clocks ≤ 2 ^ 32 → listed ≡ numbers_from (λ c. is_marked ticking.now (Some c)) 0 clocks) }
{
    let mut listed = List::new(alloc);
    for place in 0..clocks {
        add_if(&mut listed, ticks_at(ticking, place), number_of(place))?;
    }
    Ok(listed)
}

/// The clocks of the edges, of so many clocks, in their order and each once.
pub fn clocks_in_order(alloc: Global, clocks: usize, edges: &[u32]) -> Result<List<u32>, NoMemory>
    ensures { IfOk result (λ listed. clocks ≤ 2 ^ 32 → listed ≡ numbers_from (has_edge edges.now) 0 clocks) }
{
    let ticking = marks(alloc, clocks, edges)?;
    marked(alloc, ticking.as_slice(), clocks)
}

/// The inputs in the byte order of their names.
pub fn inputs_by_name(alloc: Global, net: &Net, inputs: &[Given]) -> Result<Vec<Given>, NoMemory>
    ensures same { IfOk result (λ named. IsPermutation inputs.now named.items) }
    ensures sorted { IfOk result (λ named. IsSortedByKey (λ (g : Given). name_of net.now.graph.signals g.sig) (slice_cmp nat_cmp) named.items) }
{
    let Ok(mut named) = Vec::from_slice(alloc, inputs) else {
        return Err(NoMemory);
    };
    named.sort_unstable_by(|given, other| compare(net, given.sig, other.sig));
    Ok(named)
}

fn all_races<'a>(alloc: Global, races: &'a [Race]) -> Result<Vec<&'a Race>, NoMemory>
    ensures { IfOk result (λ all. map (λ r. r.now) all.items ≡ races.now) }
{
    let mut all = Vec::new(alloc);
    for race in races {
        if all.push(race).is_err() {
            return Err(NoMemory);
        }
    }
    Ok(all)
}

/// The races in the order of their bits.
pub fn races_by_bit<'a>(alloc: Global, races: &'a [Race]) -> Result<Vec<&'a Race>, NoMemory>
    ensures same { IfOk result (λ ordered. IsPermutation races.now (map (λ r. r.now) ordered.items)) }
    ensures sorted { IfOk result (λ ordered. IsSortedByKey (λ (r : Race). r.bit) bit_order (map (λ r. r.now) ordered.items)) }
{
    let mut ordered = all_races(alloc, races)?;
    ordered.sort_unstable_by_key(|race| race.bit);
    Ok(ordered)
}
