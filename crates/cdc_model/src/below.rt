//! On which marked signals cells stand.
ghost use Rattle.std.specs.Prelude.{◌≡◌, ℕ, ◌<◌, [], ◌∷◌, ◌++◌, length, Option, IfOk, OnOk};
ghost use Rattle.cell_graph.specs.declared.cell.Cell.TheVariants.{Var};
ghost use Rattle.cell_graph.specs.Below.{IsOperand};
ghost use Rattle.cell_graph.specs.Unfolded.{IsWellFormed};
ghost use Rattle.cdc_model.specs.Marked.{Admits, mark_of, marks_at, ShowsMarks};

use cdc_base::NoMemory;
use cell_graph::{Cell, CellId, Graph};
use std::alloc::Global;
use std::marker::Model;

/// The marks of the signals on which a cell stands.
#[derive(Clone, Copy, PartialEq, Eq, Debug, Drop)]
pub enum Marks {
    Nothing,
    /// This one alone.
    One(u32),
    Several,
}

impl Marks {
    fn of(mark: Option<u32>) -> Marks
        ensures { Admits result mark }
    {
        match mark {
            Some(mark) => Marks::One(mark),
            None => Marks::Nothing,
        }
    }

    fn and(self, other: Marks) -> Marks
        ensures one { (mark : Option ℕ) → Admits self mark → Admits result mark }
        ensures other { (mark : Option ℕ) → Admits other mark → Admits result mark }
    {
        match (self, other) {
            (Marks::Nothing, marks) | (marks, Marks::Nothing) => marks,
            (Marks::One(a), Marks::One(b)) if a == b => self,
            _ => Marks::Several,
        }
    }
}

/// The marks below each cell of a graph. A bit of a cell reads no bit of another signal than those below the cell.
#[derive(Drop)]
pub struct Below {
    cells: Vec<Marks>,
}

impl Model for Below {
    ghost use Rattle.std.specs.Prelude.{List};
    ghost use Rattle.cdc_model.specs.declared.below.Marks.{Marks};

    ghost Value = { List Marks };

    ghost view = { λ b. b.cells.items };
}

impl Below {
    /// Goes through the graph once. `marks` has the mark of each signal.
    pub fn find(alloc: Global, graph: &Graph, marks: &[Option<u32>]) -> Result<Below, NoMemory>
        ensures { IfOk result (λ below. IsWellFormed graph.now → (id : CellId) → id.0 < length graph.now.cells →
            ShowsMarks graph.now marks.now below id) }
    {
        let mut below = Below {
            cells: Vec::new(alloc),
        };
        for place in 0..graph.cell_count() {
            let marks = below.of_cell(marks, graph.cell(CellId(place)));
            below.add(marks)?;
        }
        Ok(below)
    }

    fn add(&mut self, marks: Marks) -> Result<(), NoMemory>
        ensures { OnOk result (self.new ≡ self.old ++ marks ∷ []) }
    {
        match self.cells.push(marks) {
            Ok(()) => Ok(()),
            Err(_) => Err(NoMemory),
        }
    }

    /// The marks below a cell.
    pub fn of(&self, cell: CellId) -> Marks
        ensures { result ≡ marks_at self.now cell }
    {
        match self.cells.get(cell.0 as usize) {
            Some(marks) => *marks,
            None => Marks::Several,
        }
    }

    /// The marks below a cell, from those of its operands.
    fn of_cell(&self, marks: &[Option<u32>], cell: Cell) -> Marks
        ensures own { (sig : ℕ) → cell ≡ Var sig → Admits result (mark_of marks.now sig) }
        ensures operands { (a : CellId) (mark : Option ℕ) → IsOperand cell a → Admits (marks_at self.now a) mark → Admits result mark }
    {
        match cell {
            Cell::Var { sig } => match marks.get(sig as usize) {
                Some(mark) => Marks::of(*mark),
                None => Marks::Several,
            },
            Cell::Const { .. } => Marks::Nothing,
            Cell::Not { a }
            | Cell::Slice { a, .. }
            | Cell::Extend { a, .. }
            | Cell::Reduce { a, .. } => self.of(a),
            Cell::And { a, b }
            | Cell::Or { a, b }
            | Cell::Xor { a, b }
            | Cell::Add { a, b }
            | Cell::Sub { a, b }
            | Cell::Eq { a, b }
            | Cell::Lt { a, b }
            | Cell::Shl { a, by: b }
            | Cell::Shr { a, by: b }
            | Cell::Concat { high: a, low: b } => self.of(a).and(self.of(b)),
            Cell::Mux { cond, yes, other } => {
                self.of(cond).and(self.of(yes)).and(self.of(other))
            }
        }
    }
}
