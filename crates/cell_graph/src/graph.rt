//! A growing graph of cells over the signals of a design.
ghost use Rattle.std.specs.Prelude.{◌≡◌, ◌+◌, ◌<◌, ◌≤◌, List, [], length, map, Some, slice_get, IfOk, IfErr, OnOk, OnErr};
ghost use Rattle.cell_graph.specs.Cells.{place_in, place_of, with_cell, cell_at, cell_width, width_of, widths, signal_width};
ghost use Rattle.refusals.specs.Limits.{HasCause};
ghost use Rattle.cell_graph.specs.Kept.{cells_of};

use crate::cell::{Cell, CellId, Entry};
use cdc_base::limits::MAX_CELLS;
use cdc_base::{List, NoMemory, Signal, Stop};
use refusals::past_limit;
use std::alloc::Global;
use std::collections::HashMap;
use std::marker::Model;

/// Cells over signals. Each cell stands behind its operands, and equal cells are kept once.
#[derive(Drop)]
pub struct Graph {
    alloc: Global,
    signals: List<Signal>,
    entries: Vec<Entry>,
    places: HashMap<Cell, u32>,
    calls: u32,
}

impl Model for Graph {
    ghost use Rattle.cell_graph.specs.Cells.{Cells};
    ghost use Rattle.cell_graph.specs.Kept.{IsKept, cells_of};

    ghost Value = { Cells };

    ghost view = { λ g. record { signals = g.signals; cells = cells_of g.entries.items; calls = g.calls } };

    ghost invariant = { λ g. IsKept g.signals g.entries.items g.places g.calls };
}

impl Graph {
    /// A graph without cells.
    pub fn new(alloc: Global, signals: List<Signal>) -> Result<Graph, NoMemory>
        ensures { IfOk result (λ g. (g.signals ≡ signals) × (g.cells ≡ []) × (g.calls ≡ 0)) }
    {
        Ok(Graph {
            alloc,
            signals,
            entries: Vec::new(alloc),
            places: HashMap::new(alloc),
            calls: 0,
        })
    }

    /// The place of the cell, which is added at the end where no equal one is there. Refused with E602 where as many
    /// cells as the limit allows were given a place before, equal ones counted again.
    pub fn add(&mut self, cell: Cell) -> Result<CellId, Stop>
        ensures there { IfOk result (λ id. id.0 ≡ place_of self.old.cells cell) }
        ensures cells { OnOk result (self.new.cells ≡ with_cell self.old.cells cell) }
        ensures found { IfOk result (λ id. slice_get self.new.cells id.0 ≡ Some cell) }
        ensures signals { self.new.signals ≡ self.old.signals }
        ensures counted { OnOk result (self.new.calls ≡ self.old.calls + 1) }
        ensures room { OnOk result (self.old.calls < MAX_CELLS) }
        ensures full { IfErr result (HasCause 602 (MAX_CELLS ≤ self.old.calls)) }
        ensures unchanged { OnErr result (self.new ≡ self.old) }
    {
        if self.calls >= MAX_CELLS {
            return Err(past_limit(self.alloc, 602));
        }
        if let Some(id) = self.place(cell) {
            self.calls += 1;
            return Ok(CellId(id));
        }
        let id = self.cell_count();
        let width = self.width_of(cell);
        let count = self.entries.len();
        if self.entries.push(Entry { cell, width }).is_err() {
            return Err(Stop::Memory);
        }
        if self.places.insert(cell, id).is_err() {
            self.entries.truncate(count);
            return Err(Stop::Memory);
        }
        self.calls += 1;
        Ok(CellId(id))
    }

    /// Counts `calls` further calls of `add`, as if they had answered. Refused with E602, and nothing counted, where
    /// that passes the limit.
    pub fn count_again(&mut self, calls: u32) -> Result<(), Stop>
        ensures cells { self.new.cells ≡ self.old.cells }
        ensures signals { self.new.signals ≡ self.old.signals }
        ensures counted { OnOk result (self.new.calls ≡ self.old.calls + calls) }
        ensures room { OnOk result (self.old.calls + calls ≤ MAX_CELLS) }
        ensures full { IfErr result (HasCause 602 (MAX_CELLS < self.old.calls + calls)) }
        ensures unchanged { OnErr result (self.new ≡ self.old) }
    {
        if calls > MAX_CELLS - self.calls {
            return Err(past_limit(self.alloc, 602));
        }
        self.calls += calls;
        Ok(())
    }

    pub fn signals(&self) -> &[Signal]
        ensures { result.now ≡ self.now.signals }
    {
        self.signals.as_slice()
    }

    /// How many cells there are, equal ones counted once.
    pub fn cell_count(&self) -> u32
        ensures { result ≡ length self.now.cells }
    {
        u32::try_from(self.entries.len()).unwrap_or(u32::MAX)
    }

    /// The cell at a place; a zero bit where the graph has no such place.
    pub fn cell(&self, id: CellId) -> Cell
        ensures { result ≡ cell_at self.now id }
    {
        match self.entries.get(id.0 as usize) {
            Some(entry) => entry.cell,
            None => Cell::Const { width: 1, value: 0 },
        }
    }

    /// The bits of the cell.
    pub fn width(&self, id: CellId) -> u8
        ensures { result ≡ cell_width self.now id }
    {
        match self.entries.get(id.0 as usize) {
            Some(entry) => entry.width,
            None => 1,
        }
    }

    pub(crate) fn entries(&self) -> &[Entry]
        ensures cells { cells_of result.now ≡ self.now.cells }
    {
        self.entries.as_slice()
    }

    /// The place that the cell has already.
    fn place(&self, cell: Cell) -> Option<u32>
        ensures { result ≡ place_in self.now.cells cell }
    {
        self.places.get(&cell).copied()
    }

    /// The bits that the cell has here. A sum of widths stands still at the end of its type.
    fn width_of(&self, cell: Cell) -> u8
        ensures { result ≡ width_of self.now.signals (widths self.now.signals self.now.cells) cell }
    {
        match cell {
            Cell::Var { sig } => self.signal_width(sig),
            Cell::Const { width, .. } | Cell::Slice { width, .. } | Cell::Extend { width, .. } => {
                width
            }
            Cell::Not { a }
            | Cell::And { a, .. }
            | Cell::Or { a, .. }
            | Cell::Xor { a, .. }
            | Cell::Add { a, .. }
            | Cell::Sub { a, .. }
            | Cell::Shl { a, .. }
            | Cell::Shr { a, .. } => self.width(a),
            Cell::Eq { .. } | Cell::Lt { .. } | Cell::Reduce { .. } => 1,
            Cell::Mux { yes, .. } => self.width(yes),
            Cell::Concat { high, low } => self.width(high).saturating_add(self.width(low)),
        }
    }

    fn signal_width(&self, sig: u32) -> u8
        ensures { result ≡ signal_width self.now.signals sig }
    {
        match self.signals.as_slice().get(sig as usize) {
            Some(signal) => signal.width,
            None => 1,
        }
    }
}
