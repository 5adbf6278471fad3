//! The guards that stand on ways.
ghost use Rattle.std.specs.Prelude.{◌≡◌, ◌++◌, [], ◌∷◌, true, false, IfOk, OnOk};
ghost use Rattle.std.specs.List.{Contains};
ghost use Rattle.cell_graph.specs.Cells.{cell_at, cell_width};
ghost use Rattle.cell_graph.specs.Unfolded.{IsWellFormed, IsNodeOf};
ghost use Rattle.fifo_ways.specs.declared.sought.Guard.{Guard as GuardOf};
ghost use Rattle.fifo_ways.specs.Guards.{guard, pair_guards, cell_guards, all_guards, IsAsked};
ghost use Rattle.fifo_ways.specs.Sought.{AreNodes};

use crate::judge::cells_of;
use crate::sought::Guard;
use cdc_base::{Bit, List, NoMemory};
use cell_graph::{Cell, CellId, Graph, Net, Node};
use std::alloc::Global;

/// The guards on ways from the roots to words, in any order, some of them more than once.
pub fn guards(
    alloc: Global,
    net: &Net,
    words: &[Bit],
    roots: &[Node],
) -> Result<List<Guard>, NoMemory>
    ensures all { IfOk result (λ guards. IsWellFormed net.now.graph → AreNodes net.now.graph roots.now → (p : GuardOf) → IsAsked net.now.graph words.now roots.now p → Contains guards p) }
    ensures nodes { IfOk result (λ guards. IsWellFormed net.now.graph → AreNodes net.now.graph roots.now → (p : GuardOf) → Contains guards p → IsNodeOf net.now.graph p.node) }
{
    let tops = cells_of(alloc, roots)?;
    let cells = net.graph.cells_below(alloc, tops.as_slice())?;
    guards_of(alloc, &net.graph, cells.as_slice())
}

/// The guards of these cells.
fn guards_of(alloc: Global, graph: &Graph, cells: &[CellId]) -> Result<List<Guard>, NoMemory>
    ensures { IfOk result (λ guards. guards ≡ all_guards graph.now cells.now) }
{
    let mut guards = List::new(alloc);
    for cell in cells {
        add_guards(graph, *cell, &mut guards)?;
    }
    Ok(guards)
}

/// Adds the guards of a cell.
fn add_guards(graph: &Graph, cell: CellId, guards: &mut List<Guard>) -> Result<(), NoMemory>
    ensures { OnOk result (guards.new ≡ guards.old ++ cell_guards (cell_at graph.now cell) (cell_width graph.now cell)) }
{
    let width = graph.width(cell);
    match graph.cell(cell) {
        Cell::And { a, b } => add_pairs(a, b, true, width, guards),
        Cell::Or { a, b } => add_pairs(a, b, false, width, guards),
        Cell::Mux { cond, .. } => add_condition(cond, guards),
        _ => Ok(()),
    }
}

/// Adds the lowest bits of both operands at the value.
fn add_pairs(
    a: CellId,
    b: CellId,
    value: bool,
    width: u8,
    guards: &mut List<Guard>,
) -> Result<(), NoMemory>
    ensures { OnOk result (guards.new ≡ guards.old ++ pair_guards a b value width) }
{
    for at in 0..width {
        guards.push(Guard {
            node: Node { cell: a, at },
            value,
        })?;
        guards.push(Guard {
            node: Node { cell: b, at },
            value,
        })?;
    }
    Ok(())
}

/// Adds a condition at both values.
fn add_condition(cond: CellId, guards: &mut List<Guard>) -> Result<(), NoMemory>
    ensures { OnOk result (guards.new ≡ guards.old ++ guard cond 0 true ∷ guard cond 0 false ∷ []) }
{
    let node = Node { cell: cond, at: 0 };
    guards.push(Guard { node, value: true })?;
    guards.push(Guard { node, value: false })
}
