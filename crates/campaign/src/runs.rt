//! The search of a campaign.
ghost use Rattle.std.specs.Prelude.{◌≡◌, ◌<◌, ◌+◌, ◌==◌, ℕ, List, None, map, IfOk};
ghost use Rattle.cdc_model.specs.Listed.{sync_entry};
ghost use Rattle.cdc_model.specs.Syncs.{syncs_of};
ghost use Rattle.campaign.specs.Campaign.{IsAnswer, campaign, in_steps};
ghost use Rattle.campaign.specs.Rows.{AreValuesIn};
ghost use Rattle.campaign.specs.Run.{CanRun, HasSpace, IsPlanned, domains_of, net_of};
ghost use Rattle.campaign.specs.Searched.{AreRuns, IsFoundBy, IsStepOfRuns, IsStepOfOne};

use crate::found::Found;
use crate::lanes::Lanes;
use crate::plan::Plan;
use crate::rows::{fill, rows};
use crate::run::{Room, Run, step};
use cdc_base::{List, NoMemory};
use cdc_model::{Crossing, Record, Sync};
use cell_graph::Net;
use domains::Domains;
use std::alloc::Global;
use std::mem;

/// The first capture of eight random runs of so many steps, whose words the seed determines. `syncs` are all
/// synchronizers of the net.
pub fn search(
    alloc: Global,
    net: &Net,
    domains: &Domains,
    syncs: &[Sync],
    steps: u32,
    seed: u32,
) -> Result<Option<Found>, NoMemory>
    ensures first { IfOk result (λ found. CanRun net.now domains.now → syncs.now ≡ map sync_entry (syncs_of net.now domains.now) → IsAnswer net.now domains.now steps seed found) }
{
    let plan = Plan::open(alloc, net, domains, syncs)?;
    let found = search_by(alloc, &plan, steps, seed)?;
    Ok(found)
}

/// The first capture of the plan's net; one without clocks has no steps.
fn search_by(alloc: Global, plan: &Plan, steps: u32, seed: u32) -> Result<Option<Found>, NoMemory>
    ensures { IfOk result (λ found. (named : List ℕ) → IsPlanned named plan.now → found ≡ campaign (net_of plan.now) (domains_of plan.now) named steps seed) }
{
    if plan.design.domains.clocks.len() == 0 {
        return Ok(None);
    }
    let found = search_steps(alloc, plan, steps, seed)?;
    Ok(found)
}

/// The first capture within so many steps.
fn search_steps(
    alloc: Global,
    plan: &Plan,
    steps: u32,
    seed: u32,
) -> Result<Option<Found>, NoMemory>
    ensures { IfOk result (λ found. (named : List ℕ) → IsPlanned named plan.now → found ≡ in_steps (net_of plan.now) (domains_of plan.now) named seed 0 steps) }
{
    let net = plan.design.net;
    let mut runs = open_runs(alloc, net, plan.design.domains, seed)?;
    let mut room = Room::open(alloc, net, plan.design.domains)?;
    let mut words = rows(alloc, net.graph.signals().len())?;
    let mut cells = Lanes::open(alloc, &net.graph)?;
    for place in 0..steps {
        fill(net, runs.as_slice(), &mut words, &mut cells);
        let found = step_runs(alloc, plan, &mut runs, &mut room, &cells, place + 1)?;
        if found.is_some() {
            return Ok(found);
        }
    }
    Ok(None)
}

/// The eight runs before their first steps.
fn open_runs(alloc: Global, net: &Net, domains: &Domains, seed: u32) -> Result<Vec<Run>, NoMemory>
    ensures { IfOk result (λ runs. CanRun net.now domains.now → (named : List ℕ) → AreRuns net.now domains.now named seed 0 0 runs.items) }
{
    let mut runs = Vec::new(alloc);
    for index in 0..8 {
        let run = Run::open(alloc, net, domains, u64::from(seed) + index)?;
        if runs.push(run).is_err() {
            return Err(NoMemory);
        }
    }
    Ok(runs)
}

/// Goes a step in each run, up to the first that shows a capture.
fn step_runs(
    alloc: Global,
    plan: &Plan,
    runs: &mut Vec<Run>,
    room: &mut Room,
    cells: &Lanes,
    number: u32,
) -> Result<Option<Found>, NoMemory>
    ensures { IfOk result (λ found. (named : List ℕ) (seed n : ℕ) → IsPlanned named plan.now → AreRuns (net_of plan.now) (domains_of plan.now) named seed n 0 runs.old.items →
        AreValuesIn (net_of plan.now) runs.old.items 0 cells.now → HasSpace (net_of plan.now) (domains_of plan.now) room.old → number ≡ n + 1 →
        IsStepOfRuns (net_of plan.now) (domains_of plan.now) named seed n runs.new.items room.new found) }
{
    for index in 0..8 {
        let found = step_one(alloc, plan, runs, room, cells, index, number)?;
        if found.is_some() {
            return Ok(found);
        }
    }
    Ok(None)
}

/// Goes a step in one run.
fn step_one(
    alloc: Global,
    plan: &Plan,
    runs: &mut Vec<Run>,
    room: &mut Room,
    cells: &Lanes,
    index: usize,
    number: u32,
) -> Result<Option<Found>, NoMemory>
    ensures { IfOk result (λ found. (named : List ℕ) (seed n : ℕ) → IsPlanned named plan.now → AreRuns (net_of plan.now) (domains_of plan.now) named seed n index runs.old.items →
        AreValuesIn (net_of plan.now) runs.old.items index cells.now → HasSpace (net_of plan.now) (domains_of plan.now) room.old → number ≡ n + 1 → index < 8 →
        IsStepOfOne (net_of plan.now) (domains_of plan.now) named seed n index cells.now runs.new.items room.new found) }
{
    let Some(run) = runs.get_mut(index) else {
        return Ok(None);
    };
    let captured = step(alloc, plan, run, room, cells, index, number)?;
    match captured {
        Some(capture) => Ok(Some(found_in(alloc, run, capture))),
        None => Ok(None),
    }
}

/// What is found where a run's last step shows a capture.
fn found_in(alloc: Global, run: &mut Run, capture: Crossing) -> Found
    ensures { IsFoundBy run.old.steps capture result }
{
    let steps = mem::replace(&mut run.steps, List::new(alloc));
    Found {
        run: Record {
            start: List::new(alloc),
            steps,
        },
        to: capture.to,
        from: capture.from,
    }
}
