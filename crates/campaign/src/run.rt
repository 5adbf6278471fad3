//! A lane of a campaign: one of its random runs.
ghost use Rattle.std.specs.Prelude.{◌≡◌, ◌≤◌, ◌<◌, ◌^◌, ◌+◌, ◌++◌, ◌∷◌, [], length, map, IfOk, ℕ, List, replicate};
ghost use Rattle.cell_graph.specs.Values.{values_of};
ghost use Rattle.settling_sim.specs.Design.{copied_in};
ghost use Rattle.settling_sim.specs.Trial.{register_ticks, tried_cycles};
ghost use Rattle.campaign.specs.Campaign.{captured_races};
ghost use Rattle.campaign.specs.Drawn.{race_of_toss, step_with};
ghost use Rattle.campaign.specs.Draws.{seeded};
ghost use Rattle.campaign.specs.Lanes.{lane};
ghost use Rattle.campaign.specs.Tested.{behind_passing, put_drawn, givens_in};
ghost use Rattle.campaign.specs.Run.{HasSpace, IsDrawnIn, IsPlanned, IsRunAfter, IsStepOfRun, domains_of, net_of};
ghost use Rattle.settling_sim.specs.Cycles.{settled};
ghost use Rattle.settling_sim.specs.Starts.{start_words};
ghost use Rattle.std.specs.List.Sorted.{IsStrictlyIncreasing};

use crate::advance::take_plain;
use crate::capture::capture;
use crate::draws::seeded;
use crate::edges::draw_edges;
use crate::inputs::{draw_inputs, values};
use crate::lanes::Lanes;
use crate::loose::{draw_tosses, take_tosses};
use crate::plan::Plan;
use crate::probe::Probe;
use crate::races::{captured_races, races};
use crate::toss::Toss;
use cdc_base::{List, NoMemory};
use cdc_model::{Crossing, Given, RecordStep};
use cell_graph::Net;
use domains::Domains;
use rand_xoshiro::Xoshiro256PlusPlus;
use settling_sim::moment::{Moment, zeros};
use settling_sim::trial::{Trial, try_cycles};
use std::alloc::Global;
use std::mem;

/// The generator, the present moment, and the steps so far.
#[derive(Drop)]
pub struct Run {
    pub rng: Xoshiro256PlusPlus,
    pub moment: Moment,
    pub steps: List<RecordStep>,
}

/// Room for a step of any run.
#[derive(Drop)]
pub struct Room {
    pub trial: Trial,
    pub drawn: Vec<u64>,
    pub probe: Probe,
}

impl Room {
    pub fn open(alloc: Global, net: &Net, domains: &Domains) -> Result<Room, NoMemory>
        ensures { IfOk result (HasSpace net.now domains.now) }
    {
        Ok(Room {
            trial: Trial::open(alloc, net, domains)?,
            drawn: zeros(alloc, net.graph.signals().len())?,
            probe: Probe::open(alloc, net)?,
        })
    }
}

/// What a step draws: its clocks, its inputs, and the choices of its settling flops.
#[derive(Drop)]
pub struct Choices {
    pub edges: List<u32>,
    pub inputs: List<Given>,
    pub tosses: List<Toss>,
}

impl Run {
    /// The run before its first step.
    pub fn open(alloc: Global, net: &Net, domains: &Domains, seed: u64) -> Result<Run, NoMemory>
        ensures rng { IfOk result (λ run. run.rng ≡ seeded seed) }
        ensures words { length net.now.graph.signals ≤ 2 ^ 32 → IsStrictlyIncreasing domains.now.statics →
            IfOk result (λ run. run.moment.words.items ≡ start_words net.now domains.now 0 net.now.graph.signals) }
        ensures cycles { IfOk result (λ run. run.moment.cycles.items ≡ replicate (length net.now.graph.signals) settled) }
        ensures steps { IfOk result (λ run. run.steps ≡ []) }
    {
        Ok(Run {
            rng: seeded(seed),
            moment: Moment::open(alloc, net, domains, &[])?,
            steps: List::new(alloc),
        })
    }
}

/// Draws the inputs that change.
fn draw_values(
    alloc: Global,
    plan: &Plan,
    rng: &mut Xoshiro256PlusPlus,
    room: &mut Room,
) -> Result<List<Given>, NoMemory>
    ensures rng { IfOk result (λ _. rng.new ≡ behind_passing (register_ticks plan.now.design.domains.now room.old.trial.ticking.items) plan.now.inputs rng.old) }
    ensures drawn { IfOk result (λ _. room.new.drawn.items ≡ put_drawn (register_ticks plan.now.design.domains.now room.old.trial.ticking.items) plan.now.inputs rng.old room.old.drawn.items) }
    ensures trial { IfOk result (λ _. room.new.trial ≡ room.old.trial) }
    ensures probe { IfOk result (λ _. room.new.probe ≡ room.old.probe) }
    ensures values { IfOk result (λ values. values ≡ givens_in plan.now.design.net.now.graph.signals
        (put_drawn (register_ticks plan.now.design.domains.now room.old.trial.ticking.items) plan.now.inputs rng.old room.old.drawn.items)
        (register_ticks plan.now.design.domains.now room.old.trial.ticking.items) plan.now.named.items) }
{
    let domains = plan.design.domains;
    draw_inputs(
        domains,
        &room.trial.ticking,
        plan.inputs.as_slice(),
        rng,
        &mut room.drawn,
    );
    values(
        alloc,
        plan.design.net,
        domains,
        &room.trial.ticking,
        plan.named.as_slice(),
        room.drawn.as_slice(),
    )
}

/// Draws a step, and tries where it leads.
fn draw(
    alloc: Global,
    plan: &Plan,
    moment: &Moment,
    cells: &Lanes,
    index: usize,
    number: u32,
    rng: &mut Xoshiro256PlusPlus,
    room: &mut Room,
) -> Result<Choices, NoMemory>
    ensures { IfOk result (λ k. index < 8 → length plan.now.design.domains.now.clocks ≤ 2 ^ 32 → length room.old.trial.words.items ≡ length moment.now.words.items →
        IsDrawnIn plan.now.design.net.now plan.now.design.domains.now (copied_in plan.now.design.cells.items plan.now.design.copies) plan.now.inputs plan.now.named.items
        plan.now.flops.items (lane index cells.now) moment.now number rng.old room.old k rng.new room.new) }
{
    let domains = plan.design.domains;
    let edges = draw_edges(alloc, domains, number, rng)?;
    room.trial.mark(edges.as_slice());
    let inputs = draw_values(alloc, plan, rng, room)?;
    take_plain(
        domains,
        &room.trial.ticking,
        cells,
        index,
        plan.design.net.regs.as_slice(),
        moment.words.as_slice(),
        inputs.as_slice(),
        &mut room.trial.words,
    );
    let tosses = draw_tosses(
        alloc,
        &plan.design,
        &room.trial.ticking,
        moment,
        room.trial.words.as_slice(),
        plan.flops.as_slice(),
        rng,
    )?;
    take_tosses(
        tosses.as_slice(),
        moment.words.as_slice(),
        &mut room.trial.words,
    );
    Ok(Choices {
        edges,
        inputs,
        tosses,
    })
}

/// Adds the step in which a bit is captured.
fn end(
    alloc: Global,
    drawn: Choices,
    capture: Crossing,
    steps: &mut List<RecordStep>,
) -> Result<(), NoMemory>
    ensures { IfOk result (λ _. steps.new ≡ steps.old ++ step_with drawn.edges drawn.inputs (captured_races drawn.tosses capture) ∷ []) }
{
    let races = captured_races(alloc, drawn.tosses.as_slice(), capture)?;
    steps.push(RecordStep {
        edges: drawn.edges,
        inputs: drawn.inputs,
        races,
    })
}

/// Adds the step, and goes where it leads.
fn advance(
    alloc: Global,
    plan: &Plan,
    drawn: Choices,
    room: &mut Room,
    moment: &mut Moment,
    steps: &mut List<RecordStep>,
) -> Result<(), NoMemory>
    ensures steps { IfOk result (λ _. steps.new ≡ steps.old ++ step_with drawn.edges drawn.inputs (map race_of_toss drawn.tosses) ∷ []) }
    ensures words { IfOk result (λ _. moment.new.words ≡ room.old.trial.words) }
    ensures cycles { IfOk result (λ _. length room.old.trial.cycles.items ≡ length moment.old.cycles.items →
        moment.new.cycles.items ≡ tried_cycles plan.now.design.domains.now (copied_in plan.now.design.cells.items plan.now.design.copies) room.old.trial.ticking.items
        plan.now.design.net.now.regs (map race_of_toss drawn.tosses) moment.old.cycles.items) }
    ensures room { IfOk result (λ _. HasSpace plan.now.design.net.now plan.now.design.domains.now room.old → length moment.old.words.items ≡ length plan.now.design.net.now.graph.signals →
        length moment.old.cycles.items ≡ length plan.now.design.net.now.graph.signals → HasSpace plan.now.design.net.now plan.now.design.domains.now room.new) }
{
    let races = races(alloc, drawn.tosses.as_slice())?;
    try_cycles(&plan.design, moment, &mut room.trial, races.as_slice());
    mem::swap(&mut moment.words, &mut room.trial.words);
    mem::swap(&mut moment.cycles, &mut room.trial.cycles);
    steps.push(RecordStep {
        edges: drawn.edges,
        inputs: drawn.inputs,
        races,
    })
}

/// Goes the step with this number, by the values of the cells in lane `index`, up to a capture. The capturing step is the
/// last one.
pub fn step(
    alloc: Global,
    plan: &Plan,
    run: &mut Run,
    room: &mut Room,
    cells: &Lanes,
    index: usize,
    number: u32,
) -> Result<Option<Crossing>, NoMemory>
    ensures space { IfOk result (λ _. (named : List ℕ) (seed n : ℕ) → IsPlanned named plan.now → IsRunAfter (net_of plan.now) (domains_of plan.now) named seed n run.old → index < 8 →
        HasSpace (net_of plan.now) (domains_of plan.now) room.old → HasSpace (net_of plan.now) (domains_of plan.now) room.new) }
    ensures stepped { IfOk result (λ captured. (named : List ℕ) (seed n : ℕ) → IsPlanned named plan.now → IsRunAfter (net_of plan.now) (domains_of plan.now) named seed n run.old →
        number ≡ n + 1 → lane index cells.now ≡ values_of (net_of plan.now).graph run.old.moment.words.items → index < 8 → HasSpace (net_of plan.now) (domains_of plan.now) room.old →
        IsStepOfRun (net_of plan.now) (domains_of plan.now) named seed n run.new captured) }
{
    let drawn = draw(
        alloc,
        plan,
        &run.moment,
        cells,
        index,
        number,
        &mut run.rng,
        room,
    )?;
    let captured = capture(
        alloc,
        &plan.design,
        &room.trial.ticking,
        &run.moment,
        room.trial.words.as_slice(),
        &mut room.probe,
        plan.pairs.as_slice(),
    )?;
    match captured {
        Some(capture) => {
            end(alloc, drawn, capture, &mut run.steps)?;
            Ok(Some(capture))
        }
        None => {
            advance(alloc, plan, drawn, room, &mut run.moment, &mut run.steps)?;
            Ok(None)
        }
    }
}
