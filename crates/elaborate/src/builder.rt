//! A graph in which every cell fits.
//!
//! The drafts of a flat design fit each other, and become cells as they are. Words that don't are fitted as the language
//! fits them: zeros stand above the narrower one, and a condition is whether its word isn't zero. No word has more than
//! 64 bits, and bits that aren't there are zero.
ghost use Rattle.std.specs.Prelude.{◌≡◌, ◌≤◌, ◌<◌, ◌^◌, ℕ, length, Some, slice_get, IfOk, OnOk};
ghost use Rattle.cell_graph.specs.Cells.{Cells, cell_width, signal_width as width_in, width_of, widths};
ghost use Rattle.cell_graph.specs.Nets.{AreSized, IsWordOf};
ghost use Rattle.cell_graph.specs.Shared.{IsShared};
ghost use Rattle.cell_graph.specs.Unfolded.{AreAlike, IsCellOf, IsWellFormed};
ghost use Rattle.cell_graph.specs.declared.cell.Cell.TheVariants.{Var, Const, Concat, Slice, Extend};
ghost use Rattle.elaborate.specs.Grown.{Grows};
ghost use Rattle.flat_meaning.specs.Design.{kind_in, kind_is_variable};
ghost use Rattle.elaborate.specs.Words.{word_width};

use cdc_base::{List, NoMemory, SigKind, Signal};
use cell_graph::word::low_bits;
use cell_graph::{Cell, CellId, Graph, ReduceKind};
use std::alloc::Global;
use std::marker::Model;

/// A graph that grows by cells that fit.
#[derive(Drop)]
pub struct Builder {
    graph: Graph,
}

impl Model for Builder {
    ghost use Rattle.cell_graph.specs.Cells.{Cells};
    ghost use Rattle.cell_graph.specs.Shared.{IsShared};
    ghost use Rattle.cell_graph.specs.Unfolded.{IsWellFormed};

    ghost Value = { Cells };

    ghost view = { λ b. b.graph };

    ghost invariant = { λ b. IsWellFormed b.graph × IsShared b.graph };
}

/// The bits that a word may have: 1 to 64.
pub fn sized(width: u8) -> u8
    ensures exact { result ≡ word_width width }
    ensures word { (1 ≤ result) × (result ≤ 64) }
{
    width.min(64).max(1)
}

impl Builder {
    /// A graph without cells.
    pub fn new(alloc: Global, signals: List<Signal>) -> Result<Builder, NoMemory>
        requires { AreSized signals }
        ensures { IfOk result (λ b. b.signals ≡ signals) }
    {
        let graph = Graph::new(alloc, signals)?;
        Ok(Builder { graph })
    }

    pub fn into_graph(self) -> Graph
        ensures same { result ≡ self }
        ensures well_formed { IsWellFormed result }
        ensures shared { IsShared result }
    {
        let Builder { graph } = self;
        graph
    }

    pub fn signals(&self) -> &[Signal]
        ensures { result.now ≡ self.now.signals }
    {
        self.graph.signals()
    }

    /// The bits of the signal; 1 where there is none.
    pub fn signal_width(&self, sig: u32) -> u8
        ensures exact { result ≡ width_in self.now.signals sig }
        ensures word { (1 ≤ result) × (result ≤ 64) }
    {
        match self.graph.signals().get(sig as usize) {
            Some(signal) => signal.width,
            None => 1,
        }
    }

    /// Whether the signal is a register or a top input.
    pub fn is_variable(&self, sig: u32) -> bool
        ensures { result ≡ kind_is_variable (kind_in self.now.signals sig) }
    {
        is_variable_in(self.graph.signals(), sig)
    }

    /// The bits of the cell.
    pub fn width(&self, id: CellId) -> u8
        ensures exact { result ≡ cell_width self.now id }
        ensures word { (1 ≤ result) × (result ≤ 64) }
    {
        self.graph.width(id)
    }

    /// Adds a cell that fits. The cells of the design were counted before, so that the graph has room for them.
    fn place(&mut self, cell: Cell) -> Result<CellId, NoMemory>
        requires { IsCellOf self.old (length self.old.cells) cell }
        ensures signals { self.new.signals ≡ self.old.signals }
        ensures grown { OnOk result (Grows self.old self.new) }
        ensures word { IfOk result (λ id. IsWordOf self.new id (width_of self.new.signals (widths self.new.signals self.new.cells) cell)) }
        ensures found { IfOk result (λ id. slice_get self.new.cells id.0 ≡ Some cell) }
    {
        let Ok(id) = self.graph.add(cell) else {
            return Err(NoMemory);
        };
        Ok(id)
    }

    /// The cell; a zero bit where the graph has none.
    pub fn there(&mut self, id: CellId) -> Result<CellId, NoMemory>
        ensures signals { self.new.signals ≡ self.old.signals }
        ensures grown { OnOk result (Grows self.old self.new) }
        ensures word { IfOk result (λ c. IsWordOf self.new c (cell_width self.old id)) }
        ensures same { id.0 < length self.old.cells → IfOk result (λ c. c ≡ id) }
    {
        if id.0 < self.graph.cell_count() {
            return Ok(id);
        }
        let zero = self.place(Cell::Const { width: 1, value: 0 })?;
        Ok(zero)
    }

    /// The word at `width` bits: with zeros above, or its lowest bits.
    pub fn fitted(&mut self, word: CellId, width: u8) -> Result<CellId, NoMemory>
        requires { (1 ≤ width) × (width ≤ 64) }
        ensures signals { self.new.signals ≡ self.old.signals }
        ensures grown { OnOk result (Grows self.old self.new) }
        ensures word { IfOk result (λ c. IsWordOf self.new c width) }
        ensures same { IsWordOf self.old word width → IfOk result (λ c. c ≡ word) }
    {
        let a = self.there(word)?;
        let own = self.width(a);
        if own < width {
            let wider = self.place(Cell::Extend { a, width })?;
            return Ok(wider);
        }
        if own > width {
            let lowest = self.place(Cell::Slice { a, at: 0, width })?;
            return Ok(lowest);
        }
        Ok(a)
    }

    /// Both words, the narrower one with zeros above.
    fn alike(&mut self, a: CellId, b: CellId) -> Result<(CellId, CellId), NoMemory>
        ensures signals { self.new.signals ≡ self.old.signals }
        ensures grown { OnOk result (Grows self.old self.new) }
        ensures words { IfOk result (λ p. (w : ℕ) × (IsWordOf self.new p.0 w × IsWordOf self.new p.1 w)) }
        ensures same { AreAlike self.old (length self.old.cells) a b → IfOk result (λ p. p ≡ (a, b)) }
    {
        let width = self.width(a).max(self.width(b));
        let x = self.fitted(a, width)?;
        let y = self.fitted(b, width)?;
        Ok((x, y))
    }

    /// Both words, as wide as they are.
    fn both(&mut self, a: CellId, b: CellId) -> Result<(CellId, CellId), NoMemory>
        ensures signals { self.new.signals ≡ self.old.signals }
        ensures grown { OnOk result (Grows self.old self.new) }
        ensures words { IfOk result (λ p. IsWordOf self.new p.0 (cell_width self.old a) × IsWordOf self.new p.1 (cell_width self.old b)) }
        ensures same { a.0 < length self.old.cells → b.0 < length self.old.cells → IfOk result (λ p. p ≡ (a, b)) }
    {
        let wide = self.width(b);
        let x = self.there(a)?;
        let y = self.fitted(b, wide)?;
        Ok((x, y))
    }

    /// Whether the word isn't zero, as one bit.
    fn truth(&mut self, word: CellId) -> Result<CellId, NoMemory>
        ensures signals { self.new.signals ≡ self.old.signals }
        ensures grown { OnOk result (Grows self.old self.new) }
        ensures word { IfOk result (λ c. IsWordOf self.new c 1) }
        ensures same { IsWordOf self.old word 1 → IfOk result (λ c. c ≡ word) }
    {
        let a = self.there(word)?;
        if self.width(a) == 1 {
            return Ok(a);
        }
        let bit = self.place(Cell::Reduce {
            kind: ReduceKind::Or,
            a,
        })?;
        Ok(bit)
    }

    /// The signal; a zero bit where there is none.
    fn variable(&self, sig: u32) -> Cell
        ensures fits { IsCellOf self.now (length self.now.cells) result }
        ensures same { IsCellOf self.now (length self.now.cells) (Var sig) → result ≡ Var sig }
    {
        if (sig as usize) < self.graph.signals().len() {
            Cell::Var { sig }
        } else {
            Cell::Const { width: 1, value: 0 }
        }
    }

    /// The one word above the other.
    fn joined(&mut self, high: CellId, low: CellId) -> Result<Cell, NoMemory>
        ensures signals { self.new.signals ≡ self.old.signals }
        ensures grown { OnOk result (Grows self.old self.new) }
        ensures fits { IfOk result (IsCellOf self.new (length self.new.cells)) }
        ensures same { IsCellOf self.old (length self.old.cells) (Concat high low) → IfOk result (λ c. c ≡ Concat high low) }
    {
        let wide = self.width(high);
        let below = self.there(low)?;
        let room = 64 - self.width(below);
        if room == 0 {
            return Ok(Cell::Slice {
                a: below,
                at: 0,
                width: 64,
            });
        }
        let above = self.fitted(high, wide.min(room))?;
        Ok(Cell::Concat {
            high: above,
            low: below,
        })
    }

    /// The `width` bits of the word from `at` on.
    fn slice(&mut self, word: CellId, at: u8, width: u8) -> Result<Cell, NoMemory>
        ensures signals { self.new.signals ≡ self.old.signals }
        ensures grown { OnOk result (Grows self.old self.new) }
        ensures fits { IfOk result (IsCellOf self.new (length self.new.cells)) }
        ensures same { IsCellOf self.old (length self.old.cells) (Slice word at width) → IfOk result (λ c. c ≡ Slice word at width) }
    {
        let wide = self.width(word);
        let size = sized(width);
        let a = self.there(word)?;
        let rest = wide.saturating_sub(at);
        if size <= rest {
            return Ok(Cell::Slice { a, at, width: size });
        }
        if rest == 0 {
            return Ok(Cell::Const {
                width: size,
                value: 0,
            });
        }
        let inside = self.place(Cell::Slice { a, at, width: rest })?;
        Ok(Cell::Extend {
            a: inside,
            width: size,
        })
    }

    /// The word with zeros above, or its lowest bits.
    fn extended(&mut self, word: CellId, width: u8) -> Result<Cell, NoMemory>
        requires { (1 ≤ width) × (width ≤ 64) }
        ensures signals { self.new.signals ≡ self.old.signals }
        ensures grown { OnOk result (Grows self.old self.new) }
        ensures fits { IfOk result (IsCellOf self.new (length self.new.cells)) }
        ensures same { IsCellOf self.old (length self.old.cells) (Extend word width) → IfOk result (λ c. c ≡ Extend word width) }
    {
        let a = self.there(word)?;
        if self.width(a) < width {
            Ok(Cell::Extend { a, width })
        } else {
            Ok(Cell::Slice { a, at: 0, width })
        }
    }

    /// The cell over words that fit it: itself where its words do.
    fn fit(&mut self, cell: Cell) -> Result<Cell, NoMemory>
        ensures signals { self.new.signals ≡ self.old.signals }
        ensures grown { OnOk result (Grows self.old self.new) }
        ensures fits { IfOk result (IsCellOf self.new (length self.new.cells)) }
        ensures same { IsCellOf self.old (length self.old.cells) cell → IfOk result (λ c. c ≡ cell) }
    {
        match cell {
            Cell::Var { sig } => Ok(self.variable(sig)),
            Cell::Const { width, value } => Ok(constant(width, value)),
            Cell::Not { a } => {
                let a = self.there(a)?;
                Ok(Cell::Not { a })
            }
            Cell::And { a, b } => {
                let (a, b) = self.alike(a, b)?;
                Ok(Cell::And { a, b })
            }
            Cell::Or { a, b } => {
                let (a, b) = self.alike(a, b)?;
                Ok(Cell::Or { a, b })
            }
            Cell::Xor { a, b } => {
                let (a, b) = self.alike(a, b)?;
                Ok(Cell::Xor { a, b })
            }
            Cell::Add { a, b } => {
                let (a, b) = self.alike(a, b)?;
                Ok(Cell::Add { a, b })
            }
            Cell::Sub { a, b } => {
                let (a, b) = self.alike(a, b)?;
                Ok(Cell::Sub { a, b })
            }
            Cell::Eq { a, b } => {
                let (a, b) = self.alike(a, b)?;
                Ok(Cell::Eq { a, b })
            }
            Cell::Lt { a, b } => {
                let (a, b) = self.alike(a, b)?;
                Ok(Cell::Lt { a, b })
            }
            Cell::Shl { a, by } => {
                let (a, by) = self.both(a, by)?;
                Ok(Cell::Shl { a, by })
            }
            Cell::Shr { a, by } => {
                let (a, by) = self.both(a, by)?;
                Ok(Cell::Shr { a, by })
            }
            Cell::Mux { cond, yes, other } => {
                let cond = self.truth(cond)?;
                let (yes, other) = self.alike(yes, other)?;
                Ok(Cell::Mux { cond, yes, other })
            }
            Cell::Concat { high, low } => self.joined(high, low),
            Cell::Slice { a, at, width } => self.slice(a, at, width),
            Cell::Extend { a, width } => self.extended(a, sized(width)),
            Cell::Reduce { kind, a } => {
                let a = self.there(a)?;
                Ok(Cell::Reduce { kind, a })
            }
        }
    }

    /// Adds the cell over words that fit it: the cell itself where its words do.
    pub fn add(&mut self, cell: Cell) -> Result<CellId, NoMemory>
        ensures signals { self.new.signals ≡ self.old.signals }
        ensures grown { OnOk result (Grows self.old self.new) }
        ensures found { IsCellOf self.old (length self.old.cells) cell → IfOk result (λ id. slice_get self.new.cells id.0 ≡ Some cell) }
    {
        let fitting = self.fit(cell)?;
        let id = self.place(fitting)?;
        Ok(id)
    }

    /// Every cell of the graph fits.
    pub fn fits(&self)
        ensures { IsWellFormed self.now }
    {
        let _ = &self.graph;
    }
}

/// A number of a word's bits.
fn constant(width: u8, value: u64) -> Cell
    ensures fits { (g : Cells) → IsCellOf g (length g.cells) result }
    ensures same { 1 ≤ width → width ≤ 64 → value < 2 ^ width → result ≡ Const width value }
{
    let size = sized(width);
    Cell::Const {
        width: size,
        value: low_bits(value, size),
    }
}

/// Whether the signal is a register or a top input.
pub fn is_variable_in(signals: &[Signal], sig: u32) -> bool
    ensures { result ≡ kind_is_variable (kind_in signals.now sig) }
{
    match signals.get(sig as usize) {
        Some(signal) => is_variable_kind(signal.kind),
        None => false,
    }
}

fn is_variable_kind(kind: SigKind) -> bool
    ensures { result ≡ kind_is_variable kind }
{
    match kind {
        SigKind::Input | SigKind::Register => true,
        SigKind::Wire => false,
    }
}
