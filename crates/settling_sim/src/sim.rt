//! The simulator.
ghost use Rattle.std.specs.Prelude.{◌≡◌, not, ◌==◌, IfOk, OnErr};
ghost use Rattle.cell_graph.specs.Values.{reading_of};
ghost use Rattle.cdc_model.specs.declared.record.RecordStep.{RecordStep};
ghost use Rattle.cdc_model.specs.Nets.{design_of};
ghost use Rattle.domains.specs.Fit.{Fit};
ghost use Rattle.settling_sim.specs.Cycles.{cycles_of};
ghost use Rattle.settling_sim.specs.Opened.{CanOpen, AreStarts, IsOpened, HaveRecords};
ghost use Rattle.settling_sim.specs.Present.{Present, IsKept, CanStep, IsStepped};
ghost use Rattle.settling_sim.specs.Runs.{IsStepOf};

use crate::cycles::cycles_of;
use crate::design::Design;
use crate::fault::StepFault;
use crate::loose::{check_clocks, check_differing, check_inputs, check_loose};
use crate::moment::Moment;
use crate::trial::{Trial, try_cycles, try_words};
use crate::word::value_of;
use cdc_base::{Bit, NoMemory};
use cdc_model::{Given, Race};
use cell_graph::Net;
use domains::Domains;
use std::alloc::Global;
use std::marker::Model;
use std::mem;

/// A run of a net under its domains, at its present moment.
#[derive(Drop)]
pub struct Sim<'a> {
    design: Design<'a>,
    moment: Moment,
    trial: Trial,
}

impl<'a> Model for Sim<'a> {
    ghost use Rattle.settling_sim.specs.Present.{Present, IsKept};

    ghost Value = { Present };

    ghost view = { λ s. record { net = s.design.net.now; domains = s.design.domains.now; words = s.moment.words.items; cycles = s.moment.cycles.items } };

    ghost invariant = { λ s. IsKept s.design.net.now s.design.domains.now s.design.cells.items s.design.copies s.moment s.trial };
}

impl<'a> Sim<'a> {
    /// The first moment of a run: the one that the model opens, where `start` has values of state signals, each named
    /// once, which fit and agree with the known start values; a bit that has neither is 0. It takes all memory that steps
    /// need. Every run that begins so has a record, whose steps lead through the same states.
    pub fn open(
        alloc: Global,
        net: &'a Net,
        domains: &'a Domains,
        start: &[Given],
    ) -> Result<Sim<'a>, NoMemory>
        ensures net { IfOk result (λ s. s.net ≡ net.now) }
        ensures domains { IfOk result (λ s. s.domains ≡ domains.now) }
        ensures opened { CanOpen net.now domains.now → AreStarts net.now domains.now start.now → IfOk result (IsOpened start.now) }
        ensures recorded { Fit net.now domains.now → HaveRecords (design_of net.now domains.now) start.now }
    {
        let design = Design::open(alloc, net, domains)?;
        let moment = Moment::open(alloc, net, domains, start)?;
        let trial = Trial::open(alloc, net, domains)?;
        Ok(Sim {
            design,
            moment,
            trial,
        })
    }

    /// Goes one step, in which the clocks of `edges` tick: ticking inputs take their given values, and each ticking
    /// register bit takes its next value, with the bits that its race flips at their other value. A bit whose race has
    /// other bits is then unsettled. A step that is refused changes nothing.
    pub fn step(&mut self, edges: &[u32], inputs: &[Given], races: &[Race]) -> Result<(), StepFault>
        ensures net { self.new.net ≡ self.old.net }
        ensures domains { self.new.domains ≡ self.old.domains }
        ensures unchanged { OnErr result (self.new ≡ self.old) }
        ensures exact { let k : RecordStep = record { edges = edges.now; inputs = inputs.now; races = races.now } in
            CanStep self.old → IsStepOf self.old.net self.old.domains k → IsStepped self.old k self.new result }
    {
        step(
            &self.design,
            &mut self.moment,
            &mut self.trial,
            edges,
            inputs,
            races,
        )
    }

    /// A word for each signal, 0 for those that hold no state.
    pub fn words(&self) -> &[u64]
        ensures { result.now ≡ self.now.words }
    {
        self.moment.words.as_slice()
    }

    /// The value of a state bit.
    pub fn value(&self, bit: Bit) -> bool
        ensures { result ≡ reading_of self.now.words bit }
    {
        value_of(self.moment.words.as_slice(), bit)
    }

    /// Whether the bit may still need cycles of its clock to settle.
    pub fn unsettled(&self, bit: Bit) -> bool
        ensures { result ≡ not (cycles_of self.now.cycles bit == 0) }
    {
        self.left(bit) != 0
    }

    /// The cycles of its clock, 0 to 3, that a register bit may still need to settle; 0 for any other bit.
    pub fn left(&self, bit: Bit) -> u8
        ensures { result ≡ cycles_of self.now.cycles bit }
    {
        cycles_of(self.moment.cycles.as_slice(), bit)
    }
}

fn step(
    design: &Design,
    moment: &mut Moment,
    trial: &mut Trial,
    edges: &[u32],
    inputs: &[Given],
    races: &[Race],
) -> Result<(), StepFault>
    ensures unchanged { OnErr result (moment.new ≡ moment.old) }
    ensures exact { let old : Present = record { net = design.now.net.now; domains = design.now.domains.now; words = moment.old.words.items; cycles = moment.old.cycles.items } in
        let new : Present = record { net = design.now.net.now; domains = design.now.domains.now; words = moment.new.words.items; cycles = moment.new.cycles.items } in
        let k : RecordStep = record { edges = edges.now; inputs = inputs.now; races = races.now } in
        IsKept design.now.net.now design.now.domains.now design.now.cells.items design.now.copies moment.old trial.old →
        CanStep old → IsStepOf design.now.net.now design.now.domains.now k → IsStepped old k new result }
    ensures kept { IsKept design.now.net.now design.now.domains.now design.now.cells.items design.now.copies moment.old trial.old →
        IsKept design.now.net.now design.now.domains.now design.now.cells.items design.now.copies moment.new trial.new }
{
    if edges.is_empty() {
        return Err(StepFault::NoEdge);
    }
    trial.mark(edges);
    check_inputs(design.domains, &trial.ticking, inputs)?;
    check_clocks(design.domains, &trial.ticking, races)?;
    try_words(design, moment.words.as_slice(), trial, inputs, races);
    check_loose(design, moment, trial.words.as_slice(), races)?;
    check_differing(
        design.net,
        &mut trial.reader,
        moment.words.as_slice(),
        trial.words.as_slice(),
        races,
    )?;
    try_cycles(design, moment, trial, races);
    mem::swap(&mut moment.words, &mut trial.words);
    mem::swap(&mut moment.cycles, &mut trial.cycles);
    Ok(())
}
