//! The signals, bits and clocks that a record names.
ghost use Rattle.std.specs.Prelude.{◌≡◌, ◌^◌, ◌<◌, ◌≤◌, nat_le, length, IfSome, IfErr};
ghost use Rattle.cdc_base.specs.declared.bit.Bit.{Bit};
ghost use Rattle.domains.specs.Nets.{is_register};
ghost use Rattle.domains.specs.Tables.{first_signal, first_clock};
ghost use Rattle.settling_sim.specs.State.{has_kind};
ghost use Rattle.refusals.specs.Numbers.{HasNumberIn};
ghost use Rattle.run_file.specs.Numbers.{record_numbers};
ghost use Rattle.clock_constraints.specs.Refusals.{Gives, IsStop};
ghost use Rattle.run_file.specs.Tables.{CanName};
ghost use Rattle.run_file.specs.Names.{bit_named, given, has_start, start_value, input_value, each, edge, register_bit, state_bit, other_bits, race, step};

use crate::document::{Entry, RaceEntry, StepEntry};
use crate::refusal::{OTHER_START, TOO_WIDE, UNKNOWN_NAME, refuse};
use crate::table::Names;
use cdc_base::{Bit, List, Name, Signal, Stop};
use cdc_model::{Given, Race, RecordStep};
use cell_graph::Net;
use domains::Domains;
use settling_sim::{is_clocked_input, is_register, is_state_signal};
use std::alloc::Global;

fn unknown(alloc: Global, name: &Name) -> Stop
    ensures stop { IsStop UNKNOWN_NAME name.now result }
    ensures numbered { HasNumberIn record_numbers result }
{
    refuse(alloc, UNKNOWN_NAME, name.as_str())
}

/// The first signal with this name.
fn signal_named(net: &Net, domains: &Domains, names: &Names, name: &str) -> Option<u32>
    ensures { CanName net.now domains.now names.now → result ≡ first_signal net.now.graph.signals name.now }
{
    names.signals.get(name).copied()
}

/// Whether the value needs more bits than these.
fn is_wider(value: u64, width: u8) -> bool
    ensures { result ≡ nat_le (2 ^ width) value }
{
    width < 64 && value >> width != 0
}

/// The value of a signal. It is refused where it needs more bits than the signal has.
fn given(alloc: Global, net: &Net, sig: u32, entry: &Entry) -> Result<Given, Stop>
    ensures gives { Gives result (given net.now.graph.signals entry.now sig) }
    ensures numbered { IfErr result (HasNumberIn record_numbers) }
{
    match net.graph.signals().get(sig as usize) {
        Some(signal) if is_wider(entry.value, signal.width) => {
            Err(refuse(alloc, TOO_WIDE, entry.name.as_str()))
        }
        _ => Ok(Given {
            sig,
            value: entry.value,
        }),
    }
}

/// Whether the value has the known start bits of its signal.
fn has_start(signals: &[Signal], given: Given) -> bool
    ensures { result ≡ has_start signals.now given }
{
    match signals.get(given.sig as usize) {
        Some(signal) => (given.value ^ signal.start) & signal.known == 0,
        None => true,
    }
}

/// A start value: of a register, a clocked input or a static input.
fn start_value(
    alloc: Global,
    net: &Net,
    domains: &Domains,
    names: &Names,
    entry: &Entry,
) -> Result<Given, Stop>
    ensures gives { CanName net.now domains.now names.now → Gives result (start_value net.now domains.now entry.now) }
    ensures numbered { IfErr result (HasNumberIn record_numbers) }
{
    match signal_named(net, domains, names, entry.name.as_str()) {
        Some(sig) if is_state_signal(net, domains, sig) => {
            let given = given(alloc, net, sig, entry)?;
            if has_start(net.graph.signals(), given) {
                Ok(given)
            } else {
                Err(refuse(alloc, OTHER_START, entry.name.as_str()))
            }
        }
        _ => Err(unknown(alloc, &entry.name)),
    }
}

/// A value of a clocked input.
fn input_value(
    alloc: Global,
    net: &Net,
    domains: &Domains,
    names: &Names,
    entry: &Entry,
) -> Result<Given, Stop>
    ensures gives { CanName net.now domains.now names.now → Gives result (input_value net.now domains.now entry.now) }
    ensures numbered { IfErr result (HasNumberIn record_numbers) }
{
    match signal_named(net, domains, names, entry.name.as_str()) {
        Some(sig) if is_clocked_input(net, domains, sig) => given(alloc, net, sig, entry),
        _ => Err(unknown(alloc, &entry.name)),
    }
}

pub fn start_values(
    alloc: Global,
    net: &Net,
    domains: &Domains,
    names: &Names,
    entries: &[Entry],
) -> Result<List<Given>, Stop>
    ensures gives { CanName net.now domains.now names.now → Gives result (each (start_value net.now domains.now) entries.now) }
    ensures numbered { IfErr result (HasNumberIn record_numbers) }
{
    let mut values = List::new(alloc);
    for entry in entries {
        values.push(start_value(alloc, net, domains, names, entry)?)?;
    }
    Ok(values)
}

fn input_values(
    alloc: Global,
    net: &Net,
    domains: &Domains,
    names: &Names,
    entries: &[Entry],
) -> Result<List<Given>, Stop>
    ensures gives { CanName net.now domains.now names.now → Gives result (each (input_value net.now domains.now) entries.now) }
    ensures numbered { IfErr result (HasNumberIn record_numbers) }
{
    let mut values = List::new(alloc);
    for entry in entries {
        values.push(input_value(alloc, net, domains, names, entry)?)?;
    }
    Ok(values)
}

/// The number of the first clock with this name.
fn clock_named(net: &Net, domains: &Domains, names: &Names, name: &str) -> Option<u32>
    ensures { CanName net.now domains.now names.now → result ≡ first_clock domains.now.clocks name.now }
{
    names.clocks.get(name).copied()
}

fn edges(
    alloc: Global,
    net: &Net,
    domains: &Domains,
    names: &Names,
    clocks: &[Name],
) -> Result<List<u32>, Stop>
    ensures gives { CanName net.now domains.now names.now → Gives result (each (edge domains.now.clocks) clocks.now) }
    ensures numbered { IfErr result (HasNumberIn record_numbers) }
{
    let mut edges = List::new(alloc);
    for name in clocks {
        match clock_named(net, domains, names, name.as_str()) {
            Some(clock) => edges.push(clock)?,
            None => return Err(unknown(alloc, name)),
        }
    }
    Ok(edges)
}

/// The first bit with this printed name.
fn bit_named(net: &Net, domains: &Domains, names: &Names, name: &str) -> Option<Bit>
    ensures { CanName net.now domains.now names.now → result ≡ bit_named net.now.graph.signals name.now }
{
    names.bits.get(name).copied()
}

/// A bit of a register.
fn register_bit(
    alloc: Global,
    net: &Net,
    domains: &Domains,
    names: &Names,
    name: &Name,
) -> Result<Bit, Stop>
    ensures gives { CanName net.now domains.now names.now → Gives result (register_bit net.now name.now) }
    ensures numbered { IfErr result (HasNumberIn record_numbers) }
{
    match bit_named(net, domains, names, name.as_str()) {
        Some(bit) if is_register(net, bit.sig) => Ok(bit),
        _ => Err(unknown(alloc, name)),
    }
}

/// A bit of a register, of a clocked input or of a static input.
fn state_bit(
    alloc: Global,
    net: &Net,
    domains: &Domains,
    names: &Names,
    name: &Name,
) -> Result<Bit, Stop>
    ensures gives { CanName net.now domains.now names.now → Gives result (state_bit net.now domains.now name.now) }
    ensures numbered { IfErr result (HasNumberIn record_numbers) }
{
    match bit_named(net, domains, names, name.as_str()) {
        Some(bit) if is_state_signal(net, domains, bit.sig) => Ok(bit),
        _ => Err(unknown(alloc, name)),
    }
}

fn state_bits(
    alloc: Global,
    net: &Net,
    domains: &Domains,
    names: &Names,
    bits: &[Name],
) -> Result<List<Bit>, Stop>
    ensures gives { CanName net.now domains.now names.now → Gives result (each (state_bit net.now domains.now) bits.now) }
    ensures numbered { IfErr result (HasNumberIn record_numbers) }
{
    let mut found = List::new(alloc);
    for name in bits {
        found.push(state_bit(alloc, net, domains, names, name)?)?;
    }
    Ok(found)
}

fn other_bits(
    alloc: Global,
    net: &Net,
    domains: &Domains,
    names: &Names,
    bits: &Option<List<Name>>,
) -> Result<Option<List<Bit>>, Stop>
    ensures gives { CanName net.now domains.now names.now → Gives result (other_bits net.now domains.now bits.now) }
    ensures numbered { IfErr result (HasNumberIn record_numbers) }
{
    match bits {
        Some(bits) => Ok(Some(state_bits(alloc, net, domains, names, bits.as_slice())?)),
        None => Ok(None),
    }
}

fn race(
    alloc: Global,
    net: &Net,
    domains: &Domains,
    names: &Names,
    entry: &RaceEntry,
) -> Result<Race, Stop>
    ensures gives { CanName net.now domains.now names.now → Gives result (race net.now domains.now entry.now) }
    ensures numbered { IfErr result (HasNumberIn record_numbers) }
{
    Ok(Race {
        bit: register_bit(alloc, net, domains, names, &entry.bit)?,
        flip: state_bits(alloc, net, domains, names, entry.flip.as_slice())?,
        other: other_bits(alloc, net, domains, names, &entry.other)?,
    })
}

fn races(
    alloc: Global,
    net: &Net,
    domains: &Domains,
    names: &Names,
    entries: &[RaceEntry],
) -> Result<List<Race>, Stop>
    ensures gives { CanName net.now domains.now names.now → Gives result (each (race net.now domains.now) entries.now) }
    ensures numbered { IfErr result (HasNumberIn record_numbers) }
{
    let mut races = List::new(alloc);
    for entry in entries {
        races.push(race(alloc, net, domains, names, entry)?)?;
    }
    Ok(races)
}

fn step(
    alloc: Global,
    net: &Net,
    domains: &Domains,
    names: &Names,
    entry: &StepEntry,
) -> Result<RecordStep, Stop>
    ensures gives { CanName net.now domains.now names.now → Gives result (step net.now domains.now entry.now) }
    ensures numbered { IfErr result (HasNumberIn record_numbers) }
{
    Ok(RecordStep {
        edges: edges(alloc, net, domains, names, entry.edges.as_slice())?,
        inputs: input_values(alloc, net, domains, names, entry.inputs.as_slice())?,
        races: races(alloc, net, domains, names, entry.races.as_slice())?,
    })
}

pub fn steps(
    alloc: Global,
    net: &Net,
    domains: &Domains,
    names: &Names,
    entries: &[StepEntry],
) -> Result<List<RecordStep>, Stop>
    ensures gives { CanName net.now domains.now names.now → Gives result (each (step net.now domains.now) entries.now) }
    ensures numbered { IfErr result (HasNumberIn record_numbers) }
{
    let mut steps = List::new(alloc);
    for entry in entries {
        steps.push(step(alloc, net, domains, names, entry)?)?;
    }
    Ok(steps)
}
