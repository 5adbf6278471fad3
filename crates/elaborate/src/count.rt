//! How many cells the trees of a design have, those of a shared tree counted each time. No cell is made yet. A count
//! stops at the end of `u32`.
ghost use Rattle.std.specs.Prelude.{◌≡◌, ◌≤◌, ◌<◌, ◌+◌, ◌-◌, ◌^◌, ℕ, List as Items, ◌∷◌, [], length, max, false, set, slice_get, Some, ◌⊎◌, IfOk};
ghost use Rattle.cell_graph.specs.Below.{IsOperand};
ghost use Rattle.cell_graph.specs.Tree.{Tree, Const as ConstTree};
ghost use Rattle.cell_graph.specs.Unfolded.{unfolded};
ghost use Rattle.cell_graph.specs.declared.cell.CellId.{CellId as Id};
ghost use Rattle.driver_loops.specs.Leads.{id_in, ids_in};
ghost use Rattle.driver_trees.specs.Drafts.{draft_trees, IsMade, tree_in};
ghost use Rattle.driver_trees.specs.Sketches.{pieces_in};
ghost use Rattle.driver_trees.specs.declared.draft.Draft.{Draft as OneDraft};
ghost use Rattle.driver_trees.specs.declared.sketch.Piece.{Piece as PieceDraft};
ghost use Rattle.elaborate.specs.Counts.{added, capped, cells_in, count_at, IsCountOf, IsCounted};
ghost use Rattle.elaborate.specs.Counted.{CanAdd, CanCount, IsLowCount};
ghost use Rattle.elaborate.specs.Lowered.{FormLeadsTo, IsJoiningBy, LeadsTo, Meets};
ghost use Rattle.flat_meaning.specs.Design.{Flat as FlatOf, is_variable, size_in, width_in};
ghost use Rattle.flat_meaning.specs.Pieces.{Piece as PieceOf, wire_select};
ghost use Rattle.flat_meaning.specs.Trees.{Selects, cut as cut_tree, glue};

use crate::builder::is_variable_in;
use cdc_base::{NoMemory, Signal};
use cell_graph::{Cell, CellId};
use driver_loops::links::{first_piece, operands, past_pieces};
use driver_trees::memory::filled;
use driver_trees::{Draft, Form, Piece, Sketch};
use std::alloc::Global;

/// The cells of the tree of each vertex that was met.
#[derive(Drop)]
pub struct Counts {
    pub cells: Vec<u32>,
}

/// The cells of what was joined of a read from its lowest bit on.
#[derive(Clone, Copy, Drop)]
struct Joined {
    cells: u32,
    bits: u8,
}

impl Counts {
    /// No vertex of `count` was met.
    pub fn new(alloc: Global, count: usize) -> Result<Counts, NoMemory>
        ensures { IfOk result (λ counts. length counts.cells.items ≡ count) }
    {
        let cells = filled(alloc, 0, count)?;
        Ok(Counts { cells })
    }

    /// The cells of these vertices' trees together.
    pub fn sum(&self, vertices: &[u32]) -> u32
        ensures { result ≡ capped (added self.now.cells.items vertices.now) }
    {
        let mut cells = 0u32;
        for vertex in vertices {
            cells = cells.saturating_add(self.at(*vertex as usize));
        }
        cells
    }

    /// Counts the cells of a vertex's tree from those that it leads to.
    pub fn meet(&mut self, signals: &[Signal], sketch: &Sketch, vertex: usize)
        ensures counted { length self.new.cells.items ≡ length self.old.cells.items }
        ensures met { (f : FlatOf) (sel : Selects) → CanCount f sel sketch.now.drafts sketch.now signals.now
            → length self.old.cells.items ≡ length sketch.now.drafts + length sketch.now.pieces.items
            → ((e : ℕ) → LeadsTo f sketch.now.drafts sketch.now.pieces.items vertex e → IsCounted sel sketch.now.drafts sketch.now.pieces.items self.old.cells.items e)
            → (v : ℕ) → (v ≡ vertex) ⊎ IsCounted sel sketch.now.drafts sketch.now.pieces.items self.old.cells.items v
            → IsCounted sel sketch.now.drafts sketch.now.pieces.items self.new.cells.items v }
    {
        let cells = self.counted(signals, sketch, vertex);
        self.keep(vertex, cells);
    }

    fn keep(&mut self, vertex: usize, cells: u32)
        ensures kept { vertex < length self.old.cells.items → self.new.cells.items ≡ set self.old.cells.items vertex cells }
        ensures counted { length self.new.cells.items ≡ length self.old.cells.items }
        ensures past { length self.old.cells.items ≤ vertex → self.new.cells.items ≡ self.old.cells.items }
    {
        if vertex < self.cells.len() {
            self.cells[vertex] = cells;
        }
    }

    fn at(&self, vertex: usize) -> u32
        ensures exact { result ≡ count_at self.now.cells.items vertex }
        ensures short { length self.now.cells.items < 2 ^ 63 }
    {
        self.cells.get(vertex).copied().unwrap_or(0)
    }

    /// The cells of the tree of a draft or of a piece.
    fn counted(&self, signals: &[Signal], sketch: &Sketch, vertex: usize) -> u32
        ensures { (f : FlatOf) (sel : Selects) → CanCount f sel sketch.now.drafts sketch.now signals.now
            → ((e : ℕ) → LeadsTo f sketch.now.drafts sketch.now.pieces.items vertex e → IsCounted sel sketch.now.drafts sketch.now.pieces.items self.now.cells.items e)
            → IsCountOf sel sketch.now.drafts sketch.now.pieces.items vertex result }
    {
        match sketch.drafts.as_slice().get(vertex) {
            Some(draft) => self.drafted(signals, sketch, *draft),
            None => self.behind(sketch, vertex),
        }
    }

    /// The cells of the tree that a vertex behind the drafts, a piece, leads to.
    fn behind(&self, sketch: &Sketch, vertex: usize) -> u32
        ensures { (i : ℕ) (p : PieceDraft) → vertex ≡ length sketch.now.drafts + i → slice_get sketch.now.pieces.items i ≡ Some p → result ≡ count_at self.now.cells.items p.tree.0 }
    {
        let place = vertex.saturating_sub(sketch.drafts.as_slice().len());
        match sketch.pieces.as_slice().get(place) {
            Some(piece) => self.at(piece.tree.0 as usize),
            None => 0,
        }
    }

    fn drafted(&self, signals: &[Signal], sketch: &Sketch, draft: Draft) -> u32
        ensures { (f : FlatOf) (sel : Selects) (id : Id) → CanCount f sel sketch.now.drafts sketch.now signals.now
            → slice_get sketch.now.drafts id.0 ≡ Some draft
            → ((e : ℕ) → FormLeadsTo f (length sketch.now.drafts) sketch.now.pieces.items draft.width draft.form e → IsCounted sel sketch.now.drafts sketch.now.pieces.items self.now.cells.items e)
            → result ≡ capped (cells_in (tree_in sel sketch.now.drafts id)) }
    {
        match draft.form {
            Form::Made(cell) => self.made(cell),
            Form::Read { sig, at } => self.read(signals, sketch, sig, at, draft.width),
        }
    }

    /// A cell and those of its operands.
    fn made(&self, cell: Cell) -> u32
        ensures { (ds : Items OneDraft) (sel : Selects) (n w : ℕ) → IsMade ds n w cell
            → ((a : Id) → IsOperand cell a → count_at self.now.cells.items a.0 ≡ capped (cells_in (tree_in sel ds a)))
            → result ≡ capped (cells_in (unfolded [] (draft_trees sel ds) cell)) }
    {
        let all = operands(cell);
        self.operands(&all).saturating_add(1)
    }

    fn operands(&self, operands: &[Option<CellId>]) -> u32
        ensures { result ≡ capped (added self.now.cells.items (ids_in operands.now)) }
    {
        let mut cells = 0u32;
        for operand in operands {
            cells = cells.saturating_add(self.operand(*operand));
        }
        cells
    }

    fn operand(&self, operand: Option<CellId>) -> u32
        ensures { result ≡ added self.now.cells.items (id_in operand) }
    {
        match operand {
            Some(id) => self.at(id.0 as usize),
            None => 0,
        }
    }

    /// The cells of what `width` bits of a signal from `at` on stand for.
    fn read(&self, signals: &[Signal], sketch: &Sketch, sig: u32, at: u8, width: u8) -> u32
        ensures { (f : FlatOf) (sel : Selects) → CanCount f sel sketch.now.drafts sketch.now signals.now
            → (is_variable f sig ≡ false → CanAdd sel sketch.now.drafts sketch.now.pieces.items self.now.cells.items sig at width)
            → result ≡ capped (cells_in (sel sig at width)) }
    {
        if is_variable_in(signals, sig) {
            cut(1, signal_width(signals, sig), width)
        } else {
            self.driven(sketch, sig, at, width)
        }
    }

    fn driven(&self, sketch: &Sketch, sig: u32, at: u8, width: u8) -> u32
        ensures { (sel : Selects) → CanAdd sel sketch.now.drafts sketch.now.pieces.items self.now.cells.items sig at width
            → result ≡ capped (cells_in (wire_select (pieces_in sel sketch.now.drafts sketch.now.pieces.items sig) at width)) }
    {
        let joined = self.joined(sketch, sig, at, width);
        filled_up(joined.cells, joined.bits, width)
    }

    /// The parts of the signal's pieces that lie in the bits read, joined from the lowest, with zeros between them.
    fn joined(&self, sketch: &Sketch, sig: u32, at: u8, width: u8) -> Joined
        ensures { (sel : Selects) → CanAdd sel sketch.now.drafts sketch.now.pieces.items self.now.cells.items sig at width
            → IsJoiningBy (IsLowCount result.cells) result.bits [] at width (wire_select (pieces_in sel sketch.now.drafts sketch.now.pieces.items sig) at width) }
    {
        let pieces = sketch.pieces.as_slice();
        let mut joined = Joined { cells: 0, bits: 0 };
        for place in first_piece(pieces, sig)..past_pieces(pieces, sig) {
            let Some(piece) = pieces.get(place) else {
                return joined;
            };
            let cells = self.piece(sketch, place);
            let size = sketch.drafts.width(piece.tree);
            joined = join(joined, cells, size, *piece, at, width);
        }
        joined
    }

    /// The cells of a piece's tree.
    fn piece(&self, sketch: &Sketch, place: usize) -> u32
        ensures { (t : Tree) → count_at self.now.cells.items (length sketch.now.drafts + place) ≡ capped (cells_in t) → result ≡ capped (cells_in t) }
    {
        let first = sketch.drafts.as_slice().len();
        self.at(first.saturating_add(place))
    }
}

/// What was joined, and above it the piece's part of the `width` bits from `at` on. The piece's tree has `size` bits.
fn join(joined: Joined, cells: u32, size: u8, piece: Piece, at: u8, width: u8) -> Joined
    ensures short { at + result.bits ≤ max (at + joined.bits) (piece.at + piece.width) }
    ensures joined { (t : Tree) (left : Items PieceOf) (whole : Tree)
        → IsJoiningBy (IsLowCount joined.cells) joined.bits (record { at = piece.at; bits = piece.width; tree = t; size = size; inside = piece.inside } ∷ left) at width whole
        → (Meets piece at width → cells ≡ capped (cells_in t)) → at + width ≤ 64 → at + joined.bits ≤ max at piece.at
        → IsJoiningBy (IsLowCount result.cells) result.bits left at width whole }
{
    let low = piece.at.max(at);
    let end = piece.at.saturating_add(piece.width);
    let high = end.min(at.saturating_add(width));
    if high <= low {
        return joined;
    }
    let below = filled_up(joined.cells, joined.bits, low - at);
    let part = cut(cells, size, high - low);
    Joined {
        cells: above(part, below, low - at),
        bits: high - at,
    }
}

/// The cells of a tree of `own` bits, cut to `width`.
fn cut(cells: u32, own: u8, width: u8) -> u32
    ensures { (t : Tree) (at : ℕ) → cells ≡ capped (cells_in t) → result ≡ capped (cells_in (cut_tree own at width t)) }
{
    if own == width {
        cells
    } else {
        cells.saturating_add(1)
    }
}

/// The cells of a tree and, below it, of `bits` bits.
fn above(high: u32, low: u32, bits: u8) -> u32
    ensures { (t u : Tree) (m : ℕ) → high ≡ capped (cells_in t) → IsLowCount low u bits → 1 ≤ m → result ≡ capped (cells_in (glue m t bits u)) }
{
    if bits == 0 {
        high
    } else {
        high.saturating_add(low).saturating_add(1)
    }
}

/// The cells of `bits` bits, with zeros above up to `end` bits.
fn filled_up(low: u32, bits: u8, end: u8) -> u32
    ensures { (u : Tree) → IsLowCount low u bits → bits ≤ end → IsLowCount result (glue (end - bits) (ConstTree (end - bits) 0) bits u) end }
{
    if end <= bits {
        low
    } else {
        above(1, low, bits)
    }
}

/// The bits of the signal; none where there is none.
fn signal_width(signals: &[Signal], sig: u32) -> u8
    ensures { result ≡ width_in signals.now sig }
{
    match signals.get(sig as usize) {
        Some(signal) => signal.width,
        None => 0,
    }
}
