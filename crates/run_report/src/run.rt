//! A whole run.
ghost use Rattle.std.specs.Prelude.{◌≡◌, ◌<◌, ◌^◌, ◌+◌, ◌∷◌, [], ◌++◌, length, IfOk, IfErr, MatchResult};
ghost use Rattle.cdc_model.specs.Nets.{bits_of_registers};
ghost use Rattle.settling_sim.specs.Opened.{CanOpen, AreStarts};
ghost use Rattle.settling_sim.specs.Present.{CanStep};
ghost use Rattle.settling_sim.specs.Runs.{IsStepOf};
ghost use Rattle.refusals.specs.Numbers.{HasNumberIn};
ghost use Rattle.run_report.specs.Lines.{IsPrintable, IsStepText};
ghost use Rattle.run_report.specs.Printed.{unsettled_in, end_line, ended, IsAt, Leads, IsRefusedAt, IsPrinted, GoesOn, AreSteps, IsRunText};
ghost use Rattle.run_report.specs.Refusals.{step_numbers};

use crate::refusal::refused_step;
use crate::start::start_text;
use crate::step::step_text;
use cdc_base::{Bit, List, NoMemory, Stop};
use cdc_model::view::register_bits;
use cdc_model::{Record, RecordStep};
use cell_graph::Net;
use domains::Domains;
use report::text::Text;
use settling_sim::Sim;
use std::alloc::Global;

fn words_of(alloc: Global, sim: &Sim) -> Result<Vec<u64>, NoMemory>
    ensures { IfOk result (λ words. words.items ≡ sim.now.words) }
{
    match Vec::from_slice(alloc, sim.words()) {
        Ok(words) => Ok(words),
        Err(_) => Err(NoMemory),
    }
}

fn add_if_unsettled(found: &mut List<Bit>, sim: &Sim, bit: Bit) -> Result<(), NoMemory>
    ensures { IfOk result (λ _. found.new ≡ found.old ++ unsettled_in sim.now.cycles (bit ∷ [])) }
{
    if !sim.unsettled(bit) {
        return Ok(());
    }
    found.push(bit)
}

/// The bits that are unsettled, of these.
fn unsettled(alloc: Global, sim: &Sim, bits: &[Bit]) -> Result<List<Bit>, NoMemory>
    ensures { IfOk result (λ found. found ≡ unsettled_in sim.now.cycles bits.now) }
{
    let mut found = List::new(alloc);
    for bit in bits {
        add_if_unsettled(&mut found, sim, *bit)?;
    }
    Ok(found)
}

/// Goes one step, or refuses it.
fn go(alloc: Global, net: &Net, sim: &mut Sim, number: u32, step: &RecordStep) -> Result<(), Stop>
    ensures numbered { IfErr result (HasNumberIn step_numbers) }
    ensures exact { CanStep sim.old → IsStepOf sim.old.net sim.old.domains step.now →
        MatchResult result (λ _. Leads sim.old.net sim.old.domains sim.old step.now sim.new) (IsRefusedAt net.now sim.old number step.now) }
{
    match sim.step(
        step.edges.as_slice(),
        step.inputs.as_slice(),
        step.races.as_slice(),
    ) {
        Ok(()) => Ok(()),
        Err(fault) => Err(refused_step(alloc, net, number, fault)),
    }
}

/// The text of a step that was gone. `registers` are the bits of all registers.
fn gone_text(
    alloc: Global,
    net: &Net,
    domains: &Domains,
    sim: &Sim,
    registers: &[Bit],
    number: u32,
    step: &RecordStep,
    before: &[u64],
) -> Result<List<u8>, NoMemory>
    ensures { IsPrintable net.now domains.now →
        IfOk result (IsStepText net.now domains.now number step.now before.now sim.now.words (unsettled_in sim.now.cycles registers.now)) }
{
    let unsettled = unsettled(alloc, sim, registers)?;
    step_text(
        alloc,
        net,
        domains,
        number,
        step,
        before,
        sim.words(),
        unsettled.as_slice(),
    )
}

/// Goes one step, and adds its text. `registers` are the bits of all registers.
fn add_step(
    text: &mut Text,
    net: &Net,
    domains: &Domains,
    sim: &mut Sim,
    registers: &[Bit],
    number: u32,
    step: &RecordStep,
) -> Result<(), Stop>
    ensures numbered { IfErr result (HasNumberIn step_numbers) }
    ensures exact { IsPrintable net.now domains.now → IsAt net.now domains.now sim.old → IsStepOf net.now domains.now step.now →
        registers.now ≡ bits_of_registers net.now.graph.signals net.now.regs →
        IsPrinted net.now domains.now sim.old number step.now sim.new text.old text.new result }
{
    let alloc = text.alloc();
    let before = words_of(alloc, sim)?;
    go(alloc, net, sim, number, step)?;
    let added = gone_text(
        alloc,
        net,
        domains,
        sim,
        registers,
        number,
        step,
        before.as_slice(),
    )?;
    text.add_bytes(added.as_slice())?;
    Ok(())
}

/// The number of the step at a place.
fn number_of(place: usize) -> u32
    ensures { place + 1 < 2 ^ 32 → result ≡ place + 1 }
{
    u32::try_from(place).unwrap_or(u32::MAX).saturating_add(1)
}

/// Goes all steps, and adds their texts.
fn add_steps(
    text: &mut Text,
    net: &Net,
    domains: &Domains,
    sim: &mut Sim,
    steps: &[RecordStep],
) -> Result<(), Stop>
    ensures numbered { IfErr result (HasNumberIn step_numbers) }
    ensures exact { IsPrintable net.now domains.now → AreSteps net.now domains.now steps.now → IsAt net.now domains.now sim.old →
        GoesOn net.now domains.now sim.old 0 steps.now text.old (ended text.new (length steps.now) result) }
{
    let registers = register_bits(text.alloc(), net)?;
    for (place, step) in steps.iter().enumerate() {
        let number = number_of(place);
        add_step(text, net, domains, sim, registers.as_slice(), number, step)?;
    }
    Ok(())
}

fn add_end(text: &mut Text, steps: usize) -> Result<(), NoMemory>
    ensures { IfOk result (λ _. text.new ≡ text.old ++ end_line steps) }
{
    text.add("end steps=")?;
    text.add_number(steps as u64)?;
    text.add("\n")
}

/// The run that a record fixes, as text: its first moment, each step, and the number of steps. It refuses the first
/// step that asks for what isn't met: E504 a flipped bit that isn't loose, E505 other bits that give the same value, E506
/// no clock that ticks, E507 an input or a race whose clock doesn't.
pub fn run_text(alloc: Global, net: &Net, domains: &Domains, run: &Record) -> Result<List<u8>, Stop>
    ensures numbered { IfErr result (HasNumberIn step_numbers) }
    ensures exact { IsPrintable net.now domains.now → CanOpen net.now domains.now → AreStarts net.now domains.now run.now.start →
        AreSteps net.now domains.now run.now.steps → IsRunText net.now domains.now run.now result }
{
    let mut sim = Sim::open(alloc, net, domains, run.start.as_slice())?;
    let mut text = Text::new(alloc);
    let start = start_text(alloc, net, domains, sim.words())?;
    text.add_bytes(start.as_slice())?;
    let steps = run.steps.as_slice();
    add_steps(&mut text, net, domains, &mut sim, steps)?;
    add_end(&mut text, steps.len())?;
    Ok(text.into_list())
}
