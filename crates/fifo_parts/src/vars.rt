//! The cells of signals.
ghost use Rattle.std.specs.Prelude.{◌≡◌, ◌+◌, ◌<◌, length, IfOk};
ghost use Rattle.fifo_parts.specs.Sides.{AreVars, AreVarsBelow, var_of};

use cdc_base::NoMemory;
use cell_graph::{Cell, CellId, Net};
use std::alloc::Global;
use std::marker::Model;

/// The cell of each signal, where the graph has one.
#[derive(Drop)]
pub struct Vars {
    cells: Vec<Option<CellId>>,
}

impl Model for Vars {
    ghost use Rattle.std.specs.Prelude.{List, Option};
    ghost use Rattle.cell_graph.specs.declared.cell.CellId.{CellId};

    ghost Value = { List (Option CellId) };

    ghost view = { λ v. v.cells.items };
}

impl Vars {
    pub fn find(alloc: Global, net: &Net) -> Result<Vars, NoMemory>
        ensures { IfOk result (λ vars. AreVars net.now.graph vars) }
    {
        let mut vars = match vec![in alloc; None; net.graph.signals().len()] {
            Ok(cells) => Vars { cells },
            Err(_) => return Err(NoMemory),
        };
        for place in 0..net.graph.cell_count() {
            vars.note(net, CellId(place));
        }
        Ok(vars)
    }

    /// Notes the cell, where it is a signal's.
    fn note(&mut self, net: &Net, cell: CellId)
        ensures { cell.0 < length net.now.graph.cells → AreVarsBelow net.now.graph cell.0 self.old → AreVarsBelow net.now.graph (cell.0 + 1) self.new }
    {
        if let Cell::Var { sig } = net.graph.cell(cell) {
            let place = sig as usize;
            if place < self.cells.len() {
                self.cells[place] = Some(cell);
            }
        }
    }

    /// The cell of a signal.
    pub fn of(&self, sig: u32) -> Option<CellId>
        ensures { result ≡ var_of self.now sig }
    {
        self.cells.get(sig as usize).copied().flatten()
    }
}
