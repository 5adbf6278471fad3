//! Refusals of steps. None of them has a place; the name is `step`, its number, and the printed names of the bits concerned.
ghost use Rattle.std.specs.Prelude.{◌≡◌, true, ◌++◌, codes, IfOk};
ghost use Rattle.std.specs.Fmt.{decimal};
ghost use Rattle.clock_constraints.specs.Refusals.{IsStop};
ghost use Rattle.report.specs.Names.{bit_of};
ghost use Rattle.run_report.specs.Refusals.{number_of, name_of, step_numbers};
ghost use Rattle.refusals.specs.Numbers.{is_listed, HasNumberIn};

use cdc_base::signal::bit_name;
use cdc_base::{Bit, Fault, Name, NoMemory, Stop};
use cell_graph::Net;
use settling_sim::StepFault;
use std::alloc::Global;

/// A flipped bit isn't loose: the race's bit, and the flipped one.
pub const NOT_LOOSE: u16 = 504;
/// A race's other bits give the value that its flipped ones give.
pub const SAME_VALUE: u16 = 505;
/// No clock ticks.
pub const NO_EDGE: u16 = 506;
/// The clock of an input or of a race doesn't tick.
pub const UNTICKED: u16 = 507;

fn number_of(fault: StepFault) -> u16
    ensures exact { result ≡ number_of fault }
    ensures numbered { is_listed step_numbers result ≡ true }
{
    match fault {
        StepFault::NoEdge => NO_EDGE,
        StepFault::Unticked(_) => UNTICKED,
        StepFault::NotLoose(_, _) => NOT_LOOSE,
        StepFault::NotOther(_) => SAME_VALUE,
    }
}

/// The printed name of a bit of the net.
fn named(alloc: Global, net: &Net, bit: Bit) -> Result<Name, NoMemory>
    ensures { IfOk result (λ name. name ≡ bit_of net.now.graph.signals bit) }
{
    match net.graph.signals().get(bit.sig as usize) {
        Some(signal) => bit_name(alloc, signal, bit.at),
        None => Name::from_text(alloc, ""),
    }
}

fn step_text(alloc: Global, step: u32) -> Result<Name, NoMemory>
    ensures { IfOk result (λ name. name ≡ codes "step " ++ decimal step) }
{
    match format!(in alloc; "step {step}") {
        Ok(text) => Name::from_text(alloc, text.as_str()),
        Err(_) => Err(NoMemory),
    }
}

/// A name, and a bit's behind a space.
fn with_bit(alloc: Global, net: &Net, name: Name, bit: Bit) -> Result<Name, NoMemory>
    ensures { IfOk result (λ longer. longer ≡ name ++ (codes " " ++ bit_of net.now.graph.signals bit)) }
{
    let bit = named(alloc, net, bit)?;
    let name = name.as_str();
    let bit = bit.as_str();
    match format!(in alloc; "{name} {bit}") {
        Ok(text) => Name::from_text(alloc, text.as_str()),
        Err(_) => Err(NoMemory),
    }
}

fn name_of(alloc: Global, net: &Net, step: u32, fault: StepFault) -> Result<Name, NoMemory>
    ensures { IfOk result (λ name. name ≡ name_of net.now.graph.signals step fault) }
{
    let name = step_text(alloc, step)?;
    match fault {
        StepFault::NoEdge => Ok(name),
        StepFault::Unticked(bit) | StepFault::NotOther(bit) => with_bit(alloc, net, name, bit),
        StepFault::NotLoose(bit, flipped) => {
            let name = with_bit(alloc, net, name, bit)?;
            with_bit(alloc, net, name, flipped)
        }
    }
}

/// The refusal of the step with this number.
pub fn refused_step(alloc: Global, net: &Net, step: u32, fault: StepFault) -> Stop
    ensures stop { IsStop (number_of fault) (name_of net.now.graph.signals step fault) result }
    ensures numbered { HasNumberIn step_numbers result }
{
    match name_of(alloc, net, step, fault) {
        Ok(name) => Stop::Refused(Fault {
            number: number_of(fault),
            place: None,
            name,
        }),
        Err(_) => Stop::Memory,
    }
}
