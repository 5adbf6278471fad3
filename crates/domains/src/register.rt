//! The clocks of registers.
ghost use Rattle.std.specs.Prelude.{◌≡◌, true, false, length, map, None, Some, All, Any, MatchBool, IfOk, IfErr, IsSome};
ghost use Rattle.std.proofs.Math.ListN.{set};
ghost use Rattle.cell_graph.specs.Feeds.{node};
ghost use Rattle.cell_graph.specs.Unfolded.{IsWellFormed, IsNodeOf};
ghost use Rattle.clock_constraints.specs.Refusals.{broken};
ghost use Rattle.domains.specs.Assignment.{Refuses, IsFirstUnclocked};
ghost use Rattle.domains.specs.Clocks.{role_at, pin_of, pin_bits, input_clock, register_clock, signal_name, ReadsOne, ReadsNone, HasClock, LacksClock, AreClocks, AreClocked};
ghost use Rattle.domains.specs.Cones.{stands, stands_on_pin, cells_on_pins, AreClear};
ghost use Rattle.domains.specs.Nets.{IsNet};
ghost use Rattle.refusals.specs.Numbers.{HasNumberIn, assignment_numbers};

use crate::port::Role;
use cdc_base::{Bit, NoMemory, Signal, Stop};
use cell_graph::{Cell, CellId, Cofactors, Graph, Net, Node, Reg};
use clock_constraints::refusal::refuse;
use std::alloc::Global;

/// The origin of a register's clock isn't the pin of a clock, or its next value reads such a pin; the name is the register.
const NO_CLOCK_PIN: u16 = 406;

/// The clock pins of a net, and the cells that stand on one.
#[derive(Drop)]
pub struct Pins {
    bits: Vec<Bit>,
    below: Vec<bool>,
}

impl Pins {
    /// Looks for the pins among the signals, and for cells that stand on one.
    pub fn open(alloc: Global, graph: &Graph, roles: &[Option<Role>]) -> Result<Pins, NoMemory>
        ensures bits { IfOk result (λ pins. pins.bits.items ≡ pin_bits 0 roles.now) }
        ensures clear { IfOk result (λ pins. AreClear graph.now pins.bits.items pins.below.items) }
    {
        Ok(Pins {
            bits: pin_bits(alloc, roles)?,
            below: cells_on_pins(alloc, graph, roles)?,
        })
    }
}

/// The bit of each clock pin, ascending.
fn pin_bits(alloc: Global, roles: &[Option<Role>]) -> Result<Vec<Bit>, NoMemory>
    ensures { IfOk result (λ bits. bits.items ≡ pin_bits 0 roles.now) }
{
    let mut bits = Vec::new(alloc);
    for (sig, role) in roles.iter().enumerate() {
        if let Some(Role::Pin(_)) = role {
            let Ok(sig) = u32::try_from(sig) else {
                return Err(NoMemory);
            };
            if bits.push(Bit { sig, at: 0 }).is_err() {
                return Err(NoMemory);
            }
        }
    }
    Ok(bits)
}

/// For each cell whether a clock pin stands in its tree.
fn cells_on_pins(
    alloc: Global,
    graph: &Graph,
    roles: &[Option<Role>],
) -> Result<Vec<bool>, NoMemory>
    ensures { IfOk result (λ below. below.items ≡ cells_on_pins roles.now graph.now) }
{
    let mut below = Vec::new(alloc);
    for place in 0..graph.cell_count() {
        let stands = stands_on_pin(graph.cell(CellId(place)), roles, below.as_slice());
        if below.push(stands).is_err() {
            return Err(NoMemory);
        }
    }
    Ok(below)
}

/// Whether the cell is a clock pin, or has an operand that stands on one. `below` has the answers for earlier cells.
fn stands_on_pin(cell: Cell, roles: &[Option<Role>], below: &[bool]) -> bool
    ensures { result ≡ stands_on_pin roles.now below.now cell }
{
    match cell {
        Cell::Var { sig } => pin_of(roles, sig).is_some(),
        Cell::Const { .. } => false,
        Cell::Not { a } | Cell::Slice { a, .. } | Cell::Extend { a, .. } | Cell::Reduce { a, .. } =>
            stands(below, a),
        Cell::And { a, b }
        | Cell::Or { a, b }
        | Cell::Xor { a, b }
        | Cell::Add { a, b }
        | Cell::Sub { a, b }
        | Cell::Eq { a, b }
        | Cell::Lt { a, b }
        | Cell::Shl { a, by: b }
        | Cell::Shr { a, by: b }
        | Cell::Concat { high: a, low: b } => stands(below, a) || stands(below, b),
        Cell::Mux { cond, yes, other } => {
            stands(below, cond) || stands(below, yes) || stands(below, other)
        }
    }
}

/// The answer for a cell; of a cell without one a pin may stand in its tree.
fn stands(below: &[bool], cell: CellId) -> bool
    ensures { result ≡ stands below.now cell }
{
    below.get(cell.0 as usize).copied().unwrap_or(true)
}

/// The clock whose pin the signal is.
fn pin_of(roles: &[Option<Role>], sig: u32) -> Option<u32>
    ensures { result ≡ pin_of (role_at roles.now sig) }
{
    match roles.get(sig as usize) {
        Some(Some(Role::Pin(clock))) => Some(*clock),
        _ => None,
    }
}

/// The clock whose pin is the origin of the register's clock.
fn declared_clock<C: Cofactors>(net: &Net, roles: &[Option<Role>], by: &C, reg: Reg) -> Option<u32>
    ensures { IsWellFormed net.now.graph → IsNodeOf net.now.graph (node reg.clock 0) →
        result ≡ register_clock net.now.graph roles.now reg.clock }
{
    let clock = Node {
        cell: reg.clock,
        at: 0,
    };
    let origin = by.origin_of(net, clock)?;
    match net.graph.cell(origin.cell) {
        Cell::Var { sig } => pin_of(roles, sig),
        _ => None,
    }
}

/// Whether the register's next value reads a clock pin. A value without a pin in its tree reads none, so cofactors are
/// asked only where there is one.
fn reads_pin<C: Cofactors>(
    alloc: Global,
    net: &Net,
    pins: &Pins,
    by: &C,
    reg: Reg,
) -> Result<bool, NoMemory>
    requires clear { AreClear net.now.graph pins.now.bits.items pins.now.below.items }
    ensures { IfOk result (λ answer. MatchBool answer
        (ReadsOne C.reads net.now.graph pins.now.bits.items reg.next)
        (ReadsNone C.reads net.now.graph pins.now.bits.items reg.next)) }
{
    if !stands(pins.below.as_slice(), reg.next) {
        return Ok(false);
    }
    for at in 0..net.graph.width(reg.next) {
        let node = Node { cell: reg.next, at };
        if reads_any(alloc, net, pins.bits.as_slice(), by, node)? {
            return Ok(true);
        }
    }
    Ok(false)
}

/// Whether the node reads one of the bits.
fn reads_any<C: Cofactors>(
    alloc: Global,
    net: &Net,
    bits: &[Bit],
    by: &C,
    node: Node,
) -> Result<bool, NoMemory>
    ensures { IfOk result (λ answer. MatchBool answer
        (Any (λ b. C.reads net.now.graph node b true) bits.now)
        (All (λ b. C.reads net.now.graph node b false) bits.now)) }
{
    for bit in bits {
        if by.reads_bit(alloc, net, node, *bit)? {
            return Ok(true);
        }
    }
    Ok(false)
}

/// The clock of the register. It refuses one whose clock is no declared pin, or whose next value reads a pin.
fn clock_of_register<C: Cofactors>(
    alloc: Global,
    net: &Net,
    roles: &[Option<Role>],
    pins: &Pins,
    by: &C,
    reg: Reg,
) -> Result<u32, Stop>
    requires bits { pins.now.bits.items ≡ pin_bits 0 roles.now }
    requires clear { AreClear net.now.graph pins.now.bits.items pins.now.below.items }
    ensures clock { IsWellFormed net.now.graph → IsNodeOf net.now.graph (node reg.clock 0) →
        IfOk result (λ clock. HasClock C.reads net.now.graph roles.now reg clock) }
    ensures refused { IsWellFormed net.now.graph → IsNodeOf net.now.graph (node reg.clock 0) →
        IfErr result (Refuses (λ f. (f ≡ broken 406 (signal_name net.now.graph.signals reg.sig))
        × LacksClock C.reads net.now.graph roles.now reg)) }
    ensures numbered { IfErr result (HasNumberIn assignment_numbers) }
{
    match declared_clock(net, roles, by, reg) {
        Some(clock) if !reads_pin(alloc, net, pins, by, reg)? => Ok(clock),
        _ => {
            let name = name_of(net.graph.signals(), reg.sig);
            Err(refuse(alloc, NO_CLOCK_PIN, name))
        }
    }
}

fn name_of(signals: &[Signal], sig: u32) -> &str
    ensures { result.now ≡ signal_name signals.now sig }
{
    match signals.get(sig as usize) {
        Some(signal) => signal.name.as_str(),
        None => "",
    }
}

/// The clock of each signal that is a clocked input.
fn input_clocks(alloc: Global, roles: &[Option<Role>]) -> Result<Vec<Option<u32>>, NoMemory>
    ensures { IfOk result (λ clocks. clocks.items ≡ map input_clock roles.now) }
{
    let mut clocks = Vec::new(alloc);
    for role in roles {
        let clock = match role {
            Some(Role::Clocked(clock)) => Some(*clock),
            _ => None,
        };
        if clocks.push(clock).is_err() {
            return Err(NoMemory);
        }
    }
    Ok(clocks)
}

/// The clock of each signal that is a register or a clocked input. It refuses the first register without a declared clock
/// pin of its own.
pub fn clock_by_sig<C: Cofactors>(
    alloc: Global,
    net: &Net,
    roles: &[Option<Role>],
    by: &C,
) -> Result<Vec<Option<u32>>, Stop>
    ensures registers { IsNet net.now → IfOk result (λ _. AreClocked C.reads net.now.graph roles.now net.now.regs) }
    ensures clocks { IsNet net.now → IfOk result (λ clocks. AreClocks net.now.graph roles.now net.now.regs clocks.items) }
    ensures refused { IsNet net.now → IfErr result (Refuses (λ f. (r : Reg)
        × IsFirstUnclocked C.reads net.now.graph roles.now net.now.regs r
        × (f ≡ broken 406 (signal_name net.now.graph.signals r.sig)))) }
    ensures numbered { IfErr result (HasNumberIn assignment_numbers) }
{
    let pins = Pins::open(alloc, &net.graph, roles)?;
    let mut clocks = input_clocks(alloc, roles)?;
    for reg in net.regs.as_slice() {
        let clock = match clock_of_register(alloc, net, roles, &pins, by, *reg) {
            Ok(clock) => clock,
            Err(stop) => return Err(stop),
        };
        set_clock(&mut clocks, reg.sig, clock);
    }
    Ok(clocks)
}

fn set_clock(clocks: &mut Vec<Option<u32>>, sig: u32, clock: u32)
    ensures { clocks.new.items ≡ set clocks.old.items sig (Some clock) }
{
    let place = sig as usize;
    if place < clocks.len() {
        clocks[place] = Some(clock);
    }
}
