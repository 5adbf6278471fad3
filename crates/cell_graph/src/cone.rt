//! The cells on which cells stand.
ghost use Rattle.std.specs.Prelude.{◌≡◌, ◌⊎◌, ◌<◌, ◌^◌, length, slice_get, IfOk, OnOk};
ghost use Rattle.std.specs.List.{Contains};
ghost use Rattle.cell_graph.specs.Unfolded.{IsWellFormed};
ghost use Rattle.cell_graph.specs.Below.{IsOperand, IsBelow, IsClosed, AreIn, AreAscending, KeepPlaces};

use crate::cell::{Cell, CellId};
use crate::graph::Graph;
use cdc_base::NoMemory;
use std::alloc::Global;
use std::collections::HashSet;
use std::marker::Model;

/// The cells that were met, each once, in the order in which they were.
#[derive(Drop)]
struct Cone {
    met: HashSet<CellId>,
    cells: Vec<CellId>,
}

impl Model for Cone {
    ghost use Rattle.std.specs.Prelude.{List};
    ghost use Rattle.cell_graph.specs.declared.cell.CellId.{CellId};
    ghost use Rattle.cell_graph.specs.Met.{AreListed};

    ghost Value = { List CellId };

    ghost view = { λ c. c.cells.items };

    ghost invariant = { λ c. AreListed c.met c.cells.items };
}

impl Graph {
    /// The cells on which these cells stand, they themselves among them, ascending. So each stands behind its operands.
    pub fn cells_below(&self, alloc: Global, roots: &[CellId]) -> Result<Vec<CellId>, NoMemory>
        ensures roots { IfOk result (λ cells. (c : CellId) → Contains roots.now c → Contains cells.items c) }
        ensures closed { IfOk result (λ cells. IsClosed self.now cells.items) }
        ensures below { IfOk result (λ cells. (c : CellId) → Contains cells.items c → IsBelow self.now roots.now c) }
        ensures ascending { IfOk result (λ cells. AreAscending cells.items) }
        ensures within { IfOk result (λ cells. IsWellFormed self.now → AreIn self.now roots.now → AreIn self.now cells.items) }
    {
        let mut cone = Cone::of_roots(alloc, roots)?;
        for place in 0..usize::MAX {
            let Some(cell) = cone.get(place) else {
                break;
            };
            cone.meet_operands(self.cell(cell))?;
        }
        Ok(cone.into_ascending())
    }
}

impl Cone {
    fn of_roots(alloc: Global, roots: &[CellId]) -> Result<Cone, NoMemory>
        ensures there { IfOk result (λ cells. (c : CellId) → Contains roots.now c → Contains cells c) }
        ensures only { IfOk result (λ cells. (c : CellId) → Contains cells c → Contains roots.now c) }
    {
        let mut cone = Cone {
            met: HashSet::new(alloc),
            cells: Vec::new(alloc),
        };
        for root in roots {
            cone.meet(*root)?;
        }
        Ok(cone)
    }

    fn get(&self, place: usize) -> Option<CellId>
        ensures { result ≡ slice_get self.now place }
    {
        self.cells.get(place).copied()
    }

    fn into_ascending(self) -> Vec<CellId>
        ensures there { (c : CellId) → Contains self c → Contains result.items c }
        ensures only { (c : CellId) → Contains result.items c → Contains self c }
        ensures ascending { AreAscending result.items }
        ensures short { length self < 2 ^ 63 }
    {
        let mut cells = self.cells;
        cells.sort_unstable();
        cells.dedup();
        cells
    }

    fn meet(&mut self, cell: CellId) -> Result<(), NoMemory>
        ensures there { OnOk result (Contains self.new cell) }
        ensures places { OnOk result (KeepPlaces self.old self.new) }
        ensures kept { OnOk result ((c : CellId) → Contains self.old c → Contains self.new c) }
        ensures only { OnOk result ((c : CellId) → Contains self.new c → Contains self.old c ⊎ (c ≡ cell)) }
    {
        if self.met.contains(&cell) {
            return Ok(());
        }
        if self.cells.push(cell).is_err() {
            return Err(NoMemory);
        }
        if self.met.insert(cell).is_err() {
            return Err(NoMemory);
        }
        Ok(())
    }

    fn meet_both(&mut self, a: CellId, b: CellId) -> Result<(), NoMemory>
        ensures there { OnOk result ((c : CellId) → (c ≡ a) ⊎ (c ≡ b) → Contains self.new c) }
        ensures places { OnOk result (KeepPlaces self.old self.new) }
        ensures kept { OnOk result ((c : CellId) → Contains self.old c → Contains self.new c) }
        ensures only { OnOk result ((c : CellId) → Contains self.new c → Contains self.old c ⊎ ((c ≡ a) ⊎ (c ≡ b))) }
    {
        self.meet(a)?;
        self.meet(b)
    }

    fn meet_operands(&mut self, cell: Cell) -> Result<(), NoMemory>
        ensures there { OnOk result ((c : CellId) → IsOperand cell c → Contains self.new c) }
        ensures places { OnOk result (KeepPlaces self.old self.new) }
        ensures kept { OnOk result ((c : CellId) → Contains self.old c → Contains self.new c) }
        ensures only { OnOk result ((c : CellId) → Contains self.new c → Contains self.old c ⊎ IsOperand cell c) }
    {
        match cell {
            Cell::Var { .. } | Cell::Const { .. } => Ok(()),
            Cell::Not { a } => self.meet(a),
            Cell::Slice { a, .. } => self.meet(a),
            Cell::Extend { a, .. } => self.meet(a),
            Cell::Reduce { a, .. } => self.meet(a),
            Cell::And { a, b }
            | Cell::Or { a, b }
            | Cell::Xor { a, b }
            | Cell::Add { a, b }
            | Cell::Sub { a, b }
            | Cell::Eq { a, b }
            | Cell::Lt { a, b }
            | Cell::Shl { a, by: b }
            | Cell::Shr { a, by: b }
            | Cell::Concat { high: a, low: b } => self.meet_both(a, b),
            Cell::Mux { cond, yes, other } => {
                self.meet(cond)?;
                self.meet_both(yes, other)
            }
        }
    }
}
