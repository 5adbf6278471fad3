//! What ports are declared as.
ghost use Rattle.std.specs.Prelude.{◌≡◌, ◌++◌, map, IfOk, OnOk};
ghost use Rattle.clock_constraints.specs.Refusals.{Gives, Passes};
ghost use Rattle.domains.specs.Tables.{found_in, pairs_of};
ghost use Rattle.domains.specs.Ports.{signal_port, signal_ports, clock_roles, input_roles, reset_roles, static_roles, roles, is_found, lost, wide, is_one, signal_role, signal_roles};

use cdc_base::{List, Name, NoMemory, ResetPin, SigKind, Signal, Stop};
use clock_constraints::refusal::refuse;
use clock_constraints::{ClockPin, Constraints, InputPin};
use indexmap::IndexMap;
use std::alloc::Global;

/// A declared clock, input or static port isn't an input of the top, or a declared reset is no signal; the name is the port.
const NO_SUCH_PORT: u16 = 403;
/// An input of the top has no declaration; the name is the input.
const NOT_DECLARED: u16 = 405;
/// A clock's port has several bits; the name is the port.
const WIDE_CLOCK: u16 = 407;
/// A reset's port has several bits; the name is the port.
const WIDE_RESET: u16 = 408;

/// What a port is declared as: the pin of a clock, an input that changes with a clock, a reset, or static. Clocks go by
/// their place in the list.
#[derive(Clone, Copy, PartialEq, Eq, Debug, Drop)]
pub enum Role {
    Pin(u32),
    Clocked(u32),
    Reset,
    Static,
}

/// What a port may be declared of: a signal's width, and whether it is an input of the top.
#[derive(Clone, Copy)]
pub struct Port {
    width: u8,
    is_input: bool,
}

fn signal_port(signal: &Signal) -> Port
    ensures { result ≡ signal_port signal.now }
{
    Port {
        width: signal.width,
        is_input: matches!(signal.kind, SigKind::Input),
    }
}

/// The names of all signals, and what a port may be declared of each.
pub fn signal_ports(alloc: Global, signals: &[Signal]) -> Result<Vec<(&str, Port)>, NoMemory>
    ensures { IfOk result (λ ports. pairs_of ports.items ≡ signal_ports signals.now) }
{
    let mut ports = Vec::new(alloc);
    for signal in signals {
        let port = (signal.name.as_str(), signal_port(signal));
        if ports.push(port).is_err() {
            return Err(NoMemory);
        }
    }
    Ok(ports)
}

fn add_clocks<'a>(roles: &mut Vec<(&'a str, Role)>, clocks: &'a [ClockPin]) -> Result<(), NoMemory>
    ensures { OnOk result (pairs_of roles.new.items ≡ pairs_of roles.old.items ++ clock_roles 0 clocks.now) }
{
    for (place, clock) in clocks.iter().enumerate() {
        let Ok(place) = u32::try_from(place) else {
            return Err(NoMemory);
        };
        if roles.push((clock.name.as_str(), Role::Pin(place))).is_err() {
            return Err(NoMemory);
        }
    }
    Ok(())
}

fn add_inputs<'a>(roles: &mut Vec<(&'a str, Role)>, inputs: &'a [InputPin]) -> Result<(), NoMemory>
    ensures { OnOk result (pairs_of roles.new.items ≡ pairs_of roles.old.items ++ input_roles inputs.now) }
{
    for input in inputs {
        let role = Role::Clocked(input.clock);
        if roles.push((input.name.as_str(), role)).is_err() {
            return Err(NoMemory);
        }
    }
    Ok(())
}

fn add_resets<'a>(roles: &mut Vec<(&'a str, Role)>, resets: &'a [ResetPin]) -> Result<(), NoMemory>
    ensures { OnOk result (pairs_of roles.new.items ≡ pairs_of roles.old.items ++ reset_roles resets.now) }
{
    for reset in resets {
        if roles.push((reset.name.as_str(), Role::Reset)).is_err() {
            return Err(NoMemory);
        }
    }
    Ok(())
}

fn add_statics<'a>(roles: &mut Vec<(&'a str, Role)>, statics: &'a [Name]) -> Result<(), NoMemory>
    ensures { OnOk result (pairs_of roles.new.items ≡ pairs_of roles.old.items ++ static_roles statics.now) }
{
    for name in statics {
        if roles.push((name.as_str(), Role::Static)).is_err() {
            return Err(NoMemory);
        }
    }
    Ok(())
}

/// The names and roles of all ports that are declared: clocks, inputs, resets, statics.
pub fn roles<'a>(
    alloc: Global,
    constraints: &'a Constraints,
) -> Result<Vec<(&'a str, Role)>, NoMemory>
    ensures { IfOk result (λ found. pairs_of found.items ≡ roles constraints.now) }
{
    let mut roles = Vec::new(alloc);
    add_clocks(&mut roles, constraints.clocks.as_slice())?;
    add_inputs(&mut roles, constraints.inputs.as_slice())?;
    add_resets(&mut roles, constraints.resets.as_slice())?;
    add_statics(&mut roles, constraints.statics.as_slice())?;
    Ok(roles)
}

/// Whether the port is a signal that may have the role: a reset may be any signal, and all other ports are inputs of the
/// top.
fn is_found(ports: &IndexMap<&str, Port>, name: &str, role: Role) -> bool
    ensures { result ≡ is_found (found_in ports.now name.now) role }
{
    match ports.get(name) {
        Some(port) => port.is_input || matches!(role, Role::Reset),
        None => false,
    }
}

/// Refuses the first port that isn't found.
pub fn check_found(
    alloc: Global,
    ports: &IndexMap<&str, Port>,
    roles: &[(&str, Role)],
) -> Result<(), Stop>
    ensures { Passes result (lost (λ q. found_in ports.now q) (pairs_of roles.now)) }
{
    for (name, role) in roles {
        if !is_found(ports, name, *role) {
            return Err(refuse(alloc, NO_SUCH_PORT, name));
        }
    }
    Ok(())
}

/// Whether the port has one bit.
fn has_one_bit(ports: &IndexMap<&str, Port>, name: &str) -> bool
    ensures { result ≡ is_one (found_in ports.now name.now) }
{
    match ports.get(name) {
        Some(port) => port.width == 1,
        None => false,
    }
}

/// Refuses the first clock whose port hasn't one bit.
pub fn check_clocks(
    alloc: Global,
    ports: &IndexMap<&str, Port>,
    clocks: &[ClockPin],
) -> Result<(), Stop>
    ensures { Passes result (wide 407 (λ q. found_in ports.now q) (map (λ c. c.name) clocks.now)) }
{
    for clock in clocks {
        if !has_one_bit(ports, clock.name.as_str()) {
            return Err(refuse(alloc, WIDE_CLOCK, clock.name.as_str()));
        }
    }
    Ok(())
}

/// Refuses the first reset whose port hasn't one bit.
pub fn check_resets(
    alloc: Global,
    ports: &IndexMap<&str, Port>,
    resets: &[ResetPin],
) -> Result<(), Stop>
    ensures { Passes result (wide 408 (λ q. found_in ports.now q) (map (λ r. r.name) resets.now)) }
{
    for reset in resets {
        if !has_one_bit(ports, reset.name.as_str()) {
            return Err(refuse(alloc, WIDE_RESET, reset.name.as_str()));
        }
    }
    Ok(())
}

/// The role of each signal that is an input of the top. It refuses the first input without one.
pub fn signal_roles(
    alloc: Global,
    signals: &[Signal],
    declared: &IndexMap<&str, Role>,
) -> Result<List<Option<Role>>, Stop>
    ensures { Gives result (signal_roles (λ q. found_in declared.now q) signals.now) }
{
    let mut roles = List::new(alloc);
    for signal in signals {
        roles.push(signal_role(alloc, signal, declared)?)?;
    }
    Ok(roles)
}

/// The role of the signal, which an input of the top has to have.
fn signal_role(
    alloc: Global,
    signal: &Signal,
    declared: &IndexMap<&str, Role>,
) -> Result<Option<Role>, Stop>
    ensures { Gives result (signal_role (λ q. found_in declared.now q) signal.now) }
{
    if !matches!(signal.kind, SigKind::Input) {
        return Ok(None);
    }
    match declared.get(signal.name.as_str()) {
        Some(role) => Ok(Some(*role)),
        None => Err(refuse(alloc, NOT_DECLARED, signal.name.as_str())),
    }
}
