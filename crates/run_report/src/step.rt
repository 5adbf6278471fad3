//! A step of a run.
ghost use Rattle.std.specs.Prelude.{◌≡◌, ◌++◌, codes, length, replicate, false, IfOk};
ghost use Rattle.std.specs.Fmt.{decimal};
ghost use Rattle.settling_sim.specs.Edges.{is_marked, mark_in};
ghost use Rattle.run_report.specs.Lines.{edge_name, edge_names, head_line, IsPrintable, IsStepText};

use crate::changes::{add_changes, add_unsettled};
use crate::races::add_races;
use cdc_base::{Bit, List, NoMemory};
use cdc_model::RecordStep;
use cell_graph::Net;
use clock_constraints::ClockPin;
use domains::Domains;
use report::text::Text;
use settling_sim::edges::mark;
use std::alloc::Global;

/// Which of so many clocks tick.
fn ticking(alloc: Global, count: usize, edges: &[u32]) -> Result<Vec<bool>, NoMemory>
    ensures { IfOk result (λ ticking. ticking.items ≡ mark_in (replicate count false) edges.now) }
{
    let Ok(mut ticking) = vec![in alloc; false; count] else {
        return Err(NoMemory);
    };
    mark(&mut ticking, edges);
    Ok(ticking)
}

/// Whether the clock at a place ticks.
fn ticks(ticking: &[bool], place: usize) -> bool
    ensures { result ≡ is_marked ticking.now (Some place) }
{
    ticking.get(place).copied().unwrap_or(false)
}

/// Adds the name of the clock if it ticks.
fn add_edge(text: &mut Text, ticks: bool, clock: &ClockPin) -> Result<(), NoMemory>
    ensures { IfOk result (λ _. text.new ≡ text.old ++ edge_name ticks clock.now) }
{
    if !ticks {
        return Ok(());
    }
    text.add(" ")?;
    text.add(clock.name.as_str())
}

/// Adds the names of the ticking clocks, in their own order.
fn add_edges(text: &mut Text, clocks: &[ClockPin], ticking: &[bool]) -> Result<(), NoMemory>
    ensures { IfOk result (λ _. text.new ≡ text.old ++ edge_names ticking.now 0 clocks.now) }
{
    for (place, clock) in clocks.iter().enumerate() {
        add_edge(text, ticks(ticking, place), clock)?;
    }
    Ok(())
}

fn add_head(text: &mut Text, domains: &Domains, number: u32, edges: &[u32]) -> Result<(), NoMemory>
    ensures { IfOk result (λ _. text.new ≡ text.old ++ head_line domains.now number edges.now) }
{
    let clocks = domains.clocks.as_slice();
    let ticking = ticking(text.alloc(), clocks.len(), edges)?;
    text.add("step ")?;
    text.add_number(u64::from(number))?;
    text.add(":")?;
    add_edges(text, clocks, ticking.as_slice())?;
    text.add("\n")
}

/// One step of a run: the clocks that tick, the races, the values that changed, and the bits that are then unsettled.
/// `before` and `after` have the word of each signal before and after the step.
pub fn step_text(
    alloc: Global,
    net: &Net,
    domains: &Domains,
    number: u32,
    step: &RecordStep,
    before: &[u64],
    after: &[u64],
    unsettled: &[Bit],
) -> Result<List<u8>, NoMemory>
    ensures { IsPrintable net.now domains.now → IfOk result (IsStepText net.now domains.now number step.now before.now after.now unsettled.now) }
{
    let mut text = Text::new(alloc);
    add_head(&mut text, domains, number, step.edges.as_slice())?;
    add_races(&mut text, net, step.races.as_slice())?;
    add_changes(&mut text, net, domains, before, after)?;
    add_unsettled(&mut text, net, unsettled)?;
    Ok(text.into_list())
}
