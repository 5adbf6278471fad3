//! Printed names of bits, signals, nodes and groups.
ghost use Rattle.std.specs.Prelude.{◌≡◌, ◌++◌, IfOk};
ghost use Rattle.report.specs.Names.{bit_of, bits_of, cell_bit, group_of, kind_of, node_of, reduction_of, signal_of, spaced};

use crate::line::Line;
use cdc_base::signal::bit_name;
use cdc_base::{Bit, NoMemory};
use cell_graph::{Cell, Net, Node, ReduceKind};
use domains::Domains;

pub fn add_bit(line: &mut Line, net: &Net, bit: Bit) -> Result<(), NoMemory>
    ensures { IfOk result (λ _. line.new ≡ line.old ++ bit_of net.now.graph.signals bit) }
{
    match net.graph.signals().get(bit.sig as usize) {
        Some(signal) => {
            let name = bit_name(line.alloc(), signal, bit.at)?;
            line.add(name.as_str())
        }
        None => Ok(()),
    }
}

/// Adds the bits, each behind a space.
fn add_spaced(line: &mut Line, net: &Net, bits: &[Bit]) -> Result<(), NoMemory>
    ensures { IfOk result (λ _. line.new ≡ line.old ++ spaced net.now.graph.signals bits.now) }
{
    for bit in bits {
        line.add(" ")?;
        add_bit(line, net, *bit)?;
    }
    Ok(())
}

/// Adds the bits, separated by spaces.
pub fn add_bits(line: &mut Line, net: &Net, bits: &[Bit]) -> Result<(), NoMemory>
    ensures { IfOk result (λ _. line.new ≡ line.old ++ bits_of net.now.graph.signals bits.now) }
{
    match bits {
        [] => Ok(()),
        [first, others @ ..] => {
            add_bit(line, net, *first)?;
            add_spaced(line, net, others)
        }
    }
}

pub fn add_signal(line: &mut Line, net: &Net, sig: u32) -> Result<(), NoMemory>
    ensures { IfOk result (λ _. line.new ≡ line.old ++ signal_of net.now.graph.signals sig) }
{
    match net.graph.signals().get(sig as usize) {
        Some(signal) => line.add(signal.name.as_str()),
        None => Ok(()),
    }
}

pub fn add_group(line: &mut Line, domains: &Domains, group: u32) -> Result<(), NoMemory>
    ensures { IfOk result (λ _. line.new ≡ line.old ++ group_of domains.now.groups group) }
{
    match domains.groups.as_slice().get(group as usize) {
        Some(name) => line.add(name.as_str()),
        None => Ok(()),
    }
}

/// Adds a bit of a state signal by its name, and a bit of any other cell by the kind of the cell.
pub fn add_node(line: &mut Line, net: &Net, node: Node) -> Result<(), NoMemory>
    ensures { IfOk result (λ _. line.new ≡ line.old ++ node_of net.now.graph node) }
{
    let cell = net.graph.cell(node.cell);
    match cell {
        Cell::Var { sig } => add_bit(line, net, Bit { sig, at: node.at }),
        _ => add_cell_bit(line, cell, node.at),
    }
}

fn add_cell_bit(line: &mut Line, cell: Cell, at: u8) -> Result<(), NoMemory>
    ensures { IfOk result (λ _. line.new ≡ line.old ++ cell_bit cell at) }
{
    line.add(kind_of(cell))?;
    line.add("[")?;
    line.add_number(u64::from(at))?;
    line.add("]")
}

fn kind_of(cell: Cell) -> &'static str
    ensures { result.now ≡ kind_of cell }
{
    match cell {
        Cell::Var { .. } => "Var",
        Cell::Const { .. } => "Const",
        Cell::Not { .. } => "Not",
        Cell::And { .. } => "And",
        Cell::Or { .. } => "Or",
        Cell::Xor { .. } => "Xor",
        Cell::Add { .. } => "Add",
        Cell::Sub { .. } => "Sub",
        Cell::Eq { .. } => "Eq",
        Cell::Lt { .. } => "Lt",
        Cell::Shl { .. } => "Shl",
        Cell::Shr { .. } => "Shr",
        Cell::Mux { .. } => "Mux",
        Cell::Concat { .. } => "Concat",
        Cell::Slice { .. } => "Slice",
        Cell::Extend { .. } => "Extend",
        Cell::Reduce { kind, .. } => reduction(kind),
    }
}

fn reduction(kind: ReduceKind) -> &'static str
    ensures { result.now ≡ reduction_of kind }
{
    match kind {
        ReduceKind::And => "ReduceAnd",
        ReduceKind::Or => "ReduceOr",
        ReduceKind::Xor => "ReduceXor",
    }
}
