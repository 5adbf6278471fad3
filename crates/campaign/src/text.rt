//! The text of a record.
ghost use Rattle.std.specs.Prelude.{◌≡◌, ◌≤◌, ◌^◌, ◌++◌, [], ◌∷◌, codes, length, map, IfOk};
ghost use Rattle.json.specs.Tree.{json_tokens};
ghost use Rattle.cdc_model.specs.declared.record.RecordStep.{RecordStep};
ghost use Rattle.report.specs.VerdictJson.{entry_tokens, list_value, object_of, texts_value};
ghost use Rattle.campaign.specs.Lines.{clock_name, input_entry, race_value, step_value, HasStep, HasSteps, IsLine};
ghost use Rattle.campaign.specs.Names.{name_of};

use crate::bits::add_race;
use crate::order::{clocks_in_order, inputs_by_name, races_by_bit};
use cdc_base::{List, NoMemory};
use cdc_model::{Given, Race, Record, RecordStep};
use cell_graph::Net;
use domains::Domains;
use report::output::Output;
use std::alloc::Global;

/// The record as one line of JSON: in each step the clocks stand in their order, the inputs in that of their names, and
/// the races in that of their bits.
pub fn record_text(
    alloc: Global,
    net: &Net,
    domains: &Domains,
    run: &Record,
) -> Result<List<u8>, NoMemory>
    ensures { IfOk result (λ text. length domains.now.clocks ≤ 2 ^ 32 → IsLine net.now domains.now run.now text) }
{
    let mut output = Output::new(alloc);
    output.begin_object()?;
    output.key("steps")?;
    output.begin_array()?;
    add_steps(&mut output, net, domains, run.steps.as_slice())?;
    output.end_array()?;
    output.end_object()?;
    output.into_line()
}

fn add_steps(
    output: &mut Output,
    net: &Net,
    domains: &Domains,
    steps: &[RecordStep],
) -> Result<(), NoMemory>
    ensures { IfOk result (λ _. length domains.now.clocks ≤ 2 ^ 32 → HasSteps net.now domains.now steps.now output.old output.new) }
{
    for step in steps {
        add_step(output, net, domains, step)?;
    }
    Ok(())
}

fn add_step(
    output: &mut Output,
    net: &Net,
    domains: &Domains,
    step: &RecordStep,
) -> Result<(), NoMemory>
    ensures { IfOk result (λ _. length domains.now.clocks ≤ 2 ^ 32 → HasStep net.now domains.now step.now output.old output.new) }
{
    let alloc = output.alloc();
    let edges = clocks_in_order(alloc, domains.clocks.len(), step.edges.as_slice())?;
    let inputs = inputs_by_name(alloc, net, step.inputs.as_slice())?;
    let races = races_by_bit(alloc, step.races.as_slice())?;
    add_ordered(
        output,
        net,
        domains,
        edges.as_slice(),
        inputs.as_slice(),
        races.as_slice(),
    )
}

/// Adds a step whose clocks, inputs and races are in their orders.
fn add_ordered(
    output: &mut Output,
    net: &Net,
    domains: &Domains,
    edges: &[u32],
    inputs: &[Given],
    races: &[&Race],
) -> Result<(), NoMemory>
    ensures { IfOk result (λ _. let k : RecordStep = record { edges = edges.now; inputs = inputs.now; races = map (λ r. r.now) races.now } in
        output.new ≡ output.old ++ json_tokens (step_value net.now domains.now k)) }
{
    output.begin_object()?;
    output.key("edges")?;
    add_edges(output, domains, edges)?;
    add_inputs_entry(output, net, inputs)?;
    add_races_entry(output, net, races)?;
    output.end_object()
}

fn add_inputs_entry(output: &mut Output, net: &Net, inputs: &[Given]) -> Result<(), NoMemory>
    ensures { IfOk result (λ _. output.new ≡ output.old ++ entry_tokens ((codes "inputs", object_of (map (input_entry net.now.graph.signals) inputs.now)) ∷ [])) }
{
    output.key("inputs")?;
    add_inputs(output, net, inputs)
}

fn add_races_entry(output: &mut Output, net: &Net, races: &[&Race]) -> Result<(), NoMemory>
    ensures { IfOk result (λ _. output.new ≡ output.old ++ entry_tokens ((codes "races", list_value (map (race_value net.now.graph.signals) (map (λ r. r.now) races.now))) ∷ [])) }
{
    output.key("races")?;
    add_races(output, net, races)
}

fn add_edges(output: &mut Output, domains: &Domains, edges: &[u32]) -> Result<(), NoMemory>
    ensures { IfOk result (λ _. output.new ≡ output.old ++ json_tokens (texts_value (map (clock_name domains.now) edges.now))) }
{
    output.begin_array()?;
    for edge in edges {
        output.text(clock_name(domains, *edge))?;
    }
    output.end_array()
}

fn clock_name(domains: &Domains, clock: u32) -> &str
    ensures { result.now ≡ clock_name domains.now clock }
{
    match domains.clocks.as_slice().get(clock as usize) {
        Some(pin) => pin.name.as_str(),
        None => "",
    }
}

fn add_inputs(output: &mut Output, net: &Net, inputs: &[Given]) -> Result<(), NoMemory>
    ensures { IfOk result (λ _. output.new ≡ output.old ++ json_tokens (object_of (map (input_entry net.now.graph.signals) inputs.now))) }
{
    output.begin_object()?;
    for given in inputs {
        output.key(signal_name(net, given.sig))?;
        output.count(given.value)?;
    }
    output.end_object()
}

fn signal_name(net: &Net, sig: u32) -> &str
    ensures { result.now ≡ name_of net.now.graph.signals sig }
{
    match net.graph.signals().get(sig as usize) {
        Some(signal) => signal.name.as_str(),
        None => "",
    }
}

fn add_races(output: &mut Output, net: &Net, races: &[&Race]) -> Result<(), NoMemory>
    ensures { IfOk result (λ _. output.new ≡ output.old ++ json_tokens (list_value (map (race_value net.now.graph.signals) (map (λ r. r.now) races.now)))) }
{
    output.begin_array()?;
    for race in races {
        add_race(output, net, race)?;
    }
    output.end_array()
}
