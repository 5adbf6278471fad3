//! The cells of a design, made from its drafts once no wire leads back to itself.
ghost use Rattle.std.specs.Prelude.{◌≡◌, ◌≤◌, ◌<◌, ◌+◌, ◌-◌, ◌^◌, ℕ, List as Items, [], ◌∷◌, length, max, false, Some, set, slice_get, ◌⊎◌, IfOk, OnOk};
ghost use Rattle.cell_graph.specs.Below.{IsOperand};
ghost use Rattle.cell_graph.specs.Nets.{AreSized, IsWordOf};
ghost use Rattle.cell_graph.specs.Tree.{Tree as TreeOf, Const as ConstTree};
ghost use Rattle.cell_graph.specs.Unfolded.{IsCellOf, tree_of, unfolded};
ghost use Rattle.cell_graph.specs.declared.cell.CellId.{CellId as Id};
ghost use Rattle.driver_trees.specs.Drafts.{draft_trees, IsMade, tree_in, width_at};
ghost use Rattle.driver_trees.specs.Sketches.{pieces_in};
ghost use Rattle.driver_trees.specs.declared.draft.Draft.{Draft as OneDraft};
ghost use Rattle.driver_trees.specs.declared.sketch.Piece.{Piece as PieceDraft};
ghost use Rattle.elaborate.specs.Grown.{Grows};
ghost use Rattle.elaborate.specs.Lowered.{CanJoin, CanLower, FormLeadsTo, HasTree, IsJoined, IsJoining, IsMadeOf, IsMet, IsTreeOf, Knows, LeadsTo, Meets, cell_met, over, tree_met};
ghost use Rattle.flat_meaning.specs.Design.{Flat as FlatOf, is_variable, size_in};
ghost use Rattle.flat_meaning.specs.Pieces.{Piece as PieceOf, wire_select};
ghost use Rattle.flat_meaning.specs.Trees.{Selects, cut as cut_tree, glue};

use crate::builder::Builder;
use cdc_base::{List, NoMemory, Signal};
use cell_graph::{Cell, CellId};
use driver_loops::links::{first_piece, past_pieces};
use driver_trees::memory::filled;
use driver_trees::{Draft, Form, Piece, Sketch};
use std::alloc::Global;

/// The cell of a tree.
#[derive(Clone, Copy, Drop)]
pub struct Tree {
    pub cell: CellId,
}

/// What was joined of a read from its lowest bit on; no tree where there is no bit yet.
#[derive(Clone, Copy, Drop)]
struct Joined {
    tree: Option<Tree>,
    bits: u8,
}

/// A tree for each vertex that was met so far.
#[derive(Drop)]
pub struct Lowering {
    pub graph: Builder,
    pub trees: Vec<Option<Tree>>,
}

impl Lowering {
    /// No vertex of `count` was met.
    pub fn new(alloc: Global, words: List<Signal>, count: usize) -> Result<Lowering, NoMemory>
        requires { AreSized words }
        ensures signals { IfOk result (λ lowering. lowering.graph.signals ≡ words) }
        ensures counted { IfOk result (λ lowering. length lowering.trees.items ≡ count) }
    {
        let graph = Builder::new(alloc, words)?;
        let trees = filled(alloc, None, count)?;
        Ok(Lowering { graph, trees })
    }

    /// The tree of a vertex that was met.
    fn tree(&self, vertex: usize) -> Option<Tree>
        ensures exact { result ≡ tree_met self.now.trees.items vertex }
        ensures short { length self.now.trees.items < 2 ^ 63 }
    {
        self.trees.get(vertex).copied().unwrap_or(None)
    }

    /// The word of a draft that was met, at `width` bits.
    pub fn word(&mut self, draft: CellId, width: u8) -> Result<CellId, NoMemory>
        requires { (1 ≤ width) × (width ≤ 64) }
        ensures signals { self.new.graph.signals ≡ self.old.graph.signals }
        ensures trees { self.new.trees ≡ self.old.trees }
        ensures grown { OnOk result (Grows self.old.graph self.new.graph) }
        ensures word { IfOk result (λ c. IsWordOf self.new.graph c width) }
        ensures tree { (t : TreeOf) → IsMet self.old.graph self.old.trees.items draft.0 t width → IfOk result (λ c. tree_of self.new.graph c ≡ t) }
    {
        let cell = self.cell(draft);
        let word = self.graph.fitted(cell, width)?;
        Ok(word)
    }

    /// The word of a draft that was met.
    pub fn output(&mut self, draft: CellId) -> Result<CellId, NoMemory>
        ensures signals { self.new.graph.signals ≡ self.old.graph.signals }
        ensures trees { self.new.trees ≡ self.old.trees }
        ensures grown { OnOk result (Grows self.old.graph self.new.graph) }
        ensures there { IfOk result (λ c. c.0 < length self.new.graph.cells) }
        ensures tree { (t : TreeOf) (w : ℕ) → IsMet self.old.graph self.old.trees.items draft.0 t w → IfOk result (λ c. tree_of self.new.graph c ≡ t) }
    {
        let cell = self.cell(draft);
        let word = self.graph.there(cell)?;
        Ok(word)
    }

    fn operand(&self, id: CellId) -> Tree
        ensures known { (t : TreeOf) (w : ℕ) → IsMet self.now.graph self.now.trees.items id.0 t w → HasTree self.now.graph result t w }
        ensures cell { result.cell ≡ cell_met self.now.trees.items id }
    {
        match self.tree(id.0 as usize) {
            Some(tree) => tree,
            None => Tree { cell: id },
        }
    }

    /// Makes the tree of a vertex from those that it leads to.
    pub fn meet(&mut self, sketch: &Sketch, vertex: usize) -> Result<(), NoMemory>
        ensures signals { self.new.graph.signals ≡ self.old.graph.signals }
        ensures counted { length self.new.trees.items ≡ length self.old.trees.items }
        ensures met { OnOk result ((f : FlatOf) (sel : Selects) → CanLower f sel sketch.now.drafts sketch.now self.old.graph.signals
            → length self.old.trees.items ≡ length sketch.now.drafts + length sketch.now.pieces.items
            → ((e : ℕ) → LeadsTo f sketch.now.drafts sketch.now.pieces.items vertex e → Knows sel sketch.now.drafts sketch.now.pieces.items self.old.graph self.old.trees.items e)
            → (v : ℕ) → (v ≡ vertex) ⊎ Knows sel sketch.now.drafts sketch.now.pieces.items self.old.graph self.old.trees.items v
            → Knows sel sketch.now.drafts sketch.now.pieces.items self.new.graph self.new.trees.items v) }
    {
        let tree = self.made_for(sketch, vertex)?;
        self.keep(vertex, tree);
        Ok(())
    }

    fn keep(&mut self, vertex: usize, tree: Tree)
        ensures graph { self.new.graph ≡ self.old.graph }
        ensures counted { length self.new.trees.items ≡ length self.old.trees.items }
        ensures kept { vertex < length self.old.trees.items → self.new.trees.items ≡ set self.old.trees.items vertex (Some tree) }
        ensures past { length self.old.trees.items ≤ vertex → self.new.trees.items ≡ self.old.trees.items }
    {
        if vertex < self.trees.len() {
            self.trees[vertex] = Some(tree);
        }
    }

    /// The tree of a draft or of a piece, from those that it leads to.
    fn made_for(&mut self, sketch: &Sketch, vertex: usize) -> Result<Tree, NoMemory>
        ensures signals { self.new.graph.signals ≡ self.old.graph.signals }
        ensures trees { self.new.trees ≡ self.old.trees }
        ensures grown { OnOk result (Grows self.old.graph self.new.graph) }
        ensures tree { (f : FlatOf) (sel : Selects) → CanLower f sel sketch.now.drafts sketch.now self.old.graph.signals
            → ((e : ℕ) → LeadsTo f sketch.now.drafts sketch.now.pieces.items vertex e → Knows sel sketch.now.drafts sketch.now.pieces.items self.old.graph self.old.trees.items e)
            → IfOk result (IsTreeOf sel sketch.now.drafts sketch.now.pieces.items self.new.graph vertex) }
    {
        let drafts = sketch.drafts.as_slice();
        match drafts.get(vertex) {
            Some(draft) => {
                let tree = self.lower(sketch, *draft)?;
                Ok(tree)
            }
            None => Ok(self.behind(sketch, vertex)),
        }
    }

    /// The tree that a vertex behind the drafts, a piece, leads to.
    fn behind(&self, sketch: &Sketch, vertex: usize) -> Tree
        ensures { (i : ℕ) (p : PieceDraft) → vertex ≡ length sketch.now.drafts + i → slice_get sketch.now.pieces.items i ≡ Some p →
            (t : TreeOf) (w : ℕ) → IsMet self.now.graph self.now.trees.items p.tree.0 t w → HasTree self.now.graph result t w }
    {
        let place = vertex.saturating_sub(sketch.drafts.as_slice().len());
        match sketch.pieces.as_slice().get(place) {
            Some(piece) => self.operand(piece.tree),
            None => Tree { cell: CellId(0) },
        }
    }

    /// Makes the tree of a draft from those that it leads to.
    fn lower(&mut self, sketch: &Sketch, draft: Draft) -> Result<Tree, NoMemory>
        ensures signals { self.new.graph.signals ≡ self.old.graph.signals }
        ensures trees { self.new.trees ≡ self.old.trees }
        ensures grown { OnOk result (Grows self.old.graph self.new.graph) }
        ensures lowered { (f : FlatOf) (sel : Selects) (id : Id) → CanLower f sel sketch.now.drafts sketch.now self.old.graph.signals
            → slice_get sketch.now.drafts id.0 ≡ Some draft
            → ((e : ℕ) → FormLeadsTo f (length sketch.now.drafts) sketch.now.pieces.items draft.width draft.form e → Knows sel sketch.now.drafts sketch.now.pieces.items self.old.graph self.old.trees.items e)
            → IfOk result (λ r. HasTree self.new.graph r (tree_in sel sketch.now.drafts id) (width_at sketch.now.drafts id)) }
    {
        match draft.form {
            Form::Made(cell) => {
                let tree = self.made(cell)?;
                Ok(tree)
            }
            Form::Read { sig, at } => {
                let tree = self.read(sketch, sig, at, draft.width)?;
                Ok(tree)
            }
        }
    }

    /// Adds a cell over trees that were made before.
    fn add(&mut self, cell: Cell) -> Result<Tree, NoMemory>
        ensures signals { self.new.graph.signals ≡ self.old.graph.signals }
        ensures trees { self.new.trees ≡ self.old.trees }
        ensures grown { OnOk result (Grows self.old.graph self.new.graph) }
        ensures made { IsCellOf self.old.graph (length self.old.graph.cells) cell → IfOk result (λ r. IsMadeOf self.new.graph r.cell cell) }
    {
        let id = self.graph.add(cell)?;
        self.graph.fits();
        Ok(Tree { cell: id })
    }

    /// The `width` bits of the tree from `at` on.
    fn cut(&mut self, tree: Tree, at: u8, width: u8) -> Result<Tree, NoMemory>
        ensures signals { self.new.graph.signals ≡ self.old.graph.signals }
        ensures trees { self.new.trees ≡ self.old.trees }
        ensures grown { OnOk result (Grows self.old.graph self.new.graph) }
        ensures cut { (t : TreeOf) (w : ℕ) → HasTree self.old.graph tree t w → 1 ≤ width → at + width ≤ w
            → IfOk result (λ r. HasTree self.new.graph r (cut_tree w at width t) width) }
    {
        let own = self.graph.width(tree.cell);
        if own == width {
            return Ok(tree);
        }
        let a = tree.cell;
        let bits = self.add(Cell::Slice { a, at, width })?;
        Ok(bits)
    }

    fn zero(&mut self, width: u8) -> Result<Tree, NoMemory>
        ensures signals { self.new.graph.signals ≡ self.old.graph.signals }
        ensures trees { self.new.trees ≡ self.old.trees }
        ensures grown { OnOk result (Grows self.old.graph self.new.graph) }
        ensures zero { 1 ≤ width → width ≤ 64 → IfOk result (λ r. HasTree self.new.graph r (ConstTree width 0) width) }
    {
        let zero = self.add(Cell::Const { width, value: 0 })?;
        Ok(zero)
    }

    /// The tree `high` and, below it, what was joined so far.
    fn above(&mut self, high: Tree, low: Option<Tree>) -> Result<Tree, NoMemory>
        ensures signals { self.new.graph.signals ≡ self.old.graph.signals }
        ensures trees { self.new.trees ≡ self.old.trees }
        ensures grown { OnOk result (Grows self.old.graph self.new.graph) }
        ensures above { (t u : TreeOf) (m n : ℕ) → HasTree self.old.graph high t m → IsJoined self.old.graph low u n → 1 ≤ m → m + n ≤ 64
            → IfOk result (λ r. HasTree self.new.graph r (glue m t n u) (m + n)) }
    {
        match low {
            Some(below) => {
                let cell = Cell::Concat {
                    high: high.cell,
                    low: below.cell,
                };
                let both = self.add(cell)?;
                Ok(both)
            }
            None => Ok(high),
        }
    }

    /// What `width` bits of a signal from `at` on stand for: those of its variable, or those of its drivers.
    fn read(&mut self, sketch: &Sketch, sig: u32, at: u8, width: u8) -> Result<Tree, NoMemory>
        ensures signals { self.new.graph.signals ≡ self.old.graph.signals }
        ensures trees { self.new.trees ≡ self.old.trees }
        ensures grown { OnOk result (Grows self.old.graph self.new.graph) }
        ensures read { (f : FlatOf) (sel : Selects) → CanLower f sel sketch.now.drafts sketch.now self.old.graph.signals
            → 1 ≤ width → at + width ≤ size_in f sig → size_in f sig ≤ 64
            → (is_variable f sig ≡ false → CanJoin sel sketch.now.drafts sketch.now.pieces.items self.old.graph self.old.trees.items sig at width)
            → IfOk result (λ r. HasTree self.new.graph r (sel sig at width) width) }
    {
        if self.graph.is_variable(sig) {
            let variable = self.add(Cell::Var { sig })?;
            let bits = self.cut(variable, at, width)?;
            Ok(bits)
        } else {
            let bits = self.driven(sketch, sig, at, width)?;
            Ok(bits)
        }
    }

    /// What the signal's pieces give the bits read, with zeros where nothing drives them.
    fn driven(&mut self, sketch: &Sketch, sig: u32, at: u8, width: u8) -> Result<Tree, NoMemory>
        ensures signals { self.new.graph.signals ≡ self.old.graph.signals }
        ensures trees { self.new.trees ≡ self.old.trees }
        ensures grown { OnOk result (Grows self.old.graph self.new.graph) }
        ensures driven { (sel : Selects) → CanJoin sel sketch.now.drafts sketch.now.pieces.items self.old.graph self.old.trees.items sig at width
            → IfOk result (λ r. HasTree self.new.graph r (wire_select (pieces_in sel sketch.now.drafts sketch.now.pieces.items sig) at width) width) }
    {
        let joined = self.joined(sketch, sig, at, width)?;
        let whole = self.filled(joined.tree, joined.bits, width)?;
        match whole {
            Some(tree) => Ok(tree),
            None => {
                let zero = self.zero(width.max(1))?;
                Ok(zero)
            }
        }
    }

    /// The parts of the signal's pieces that lie in the bits read, joined from the lowest, with zeros between them.
    fn joined(&mut self, sketch: &Sketch, sig: u32, at: u8, width: u8) -> Result<Joined, NoMemory>
        ensures signals { self.new.graph.signals ≡ self.old.graph.signals }
        ensures trees { self.new.trees ≡ self.old.trees }
        ensures grown { OnOk result (Grows self.old.graph self.new.graph) }
        ensures joined { (sel : Selects) → CanJoin sel sketch.now.drafts sketch.now.pieces.items self.old.graph self.old.trees.items sig at width
            → IfOk result (λ j. IsJoining self.new.graph j.tree j.bits [] at width (wire_select (pieces_in sel sketch.now.drafts sketch.now.pieces.items sig) at width)) }
    {
        let pieces = sketch.pieces.as_slice();
        let mut joined = Joined {
            tree: None,
            bits: 0,
        };
        for place in first_piece(pieces, sig)..past_pieces(pieces, sig) {
            let Some(piece) = pieces.get(place) else {
                return Ok(joined);
            };
            let tree = self.piece(sketch, place);
            joined = self.join(joined, tree, *piece, at, width)?;
        }
        Ok(joined)
    }

    /// What was joined, and above it the piece's part of the `width` bits from `at` on.
    fn join(
        &mut self,
        joined: Joined,
        tree: Tree,
        piece: Piece,
        at: u8,
        width: u8,
    ) -> Result<Joined, NoMemory>
        ensures signals { self.new.graph.signals ≡ self.old.graph.signals }
        ensures trees { self.new.trees ≡ self.old.trees }
        ensures grown { OnOk result (Grows self.old.graph self.new.graph) }
        ensures short { IfOk result (λ j. at + j.bits ≤ max (at + joined.bits) (piece.at + piece.width)) }
        ensures joined { (t : TreeOf) (size : ℕ) (left : Items PieceOf) (whole : TreeOf)
            → IsJoining self.old.graph joined.tree joined.bits (record { at = piece.at; bits = piece.width; tree = t; size = size; inside = piece.inside } ∷ left) at width whole
            → (Meets piece at width → HasTree self.old.graph tree t size) → piece.inside + piece.width ≤ size
            → at + width ≤ 64 → at + joined.bits ≤ max at piece.at
            → IfOk result (λ j. IsJoining self.new.graph j.tree j.bits left at width whole) }
    {
        self.graph.fits();
        let low = piece.at.max(at);
        let end = piece.at.saturating_add(piece.width);
        let high = end.min(at.saturating_add(width));
        if high <= low {
            return Ok(joined);
        }
        let below = self.filled(joined.tree, joined.bits, low - at)?;
        let inside = piece.inside.saturating_add(low - piece.at);
        let part = self.cut(tree, inside, high - low)?;
        let whole = self.above(part, below)?;
        Ok(Joined {
            tree: Some(whole),
            bits: high - at,
        })
    }

    /// The `bits` joined so far, with zeros above up to `end` bits.
    fn filled(&mut self, joined: Option<Tree>, bits: u8, end: u8) -> Result<Option<Tree>, NoMemory>
        ensures signals { self.new.graph.signals ≡ self.old.graph.signals }
        ensures trees { self.new.trees ≡ self.old.trees }
        ensures grown { OnOk result (Grows self.old.graph self.new.graph) }
        ensures filled { (u : TreeOf) → IsJoined self.old.graph joined u bits → bits ≤ end → end ≤ 64
            → IfOk result (λ r. IsJoined self.new.graph r (glue (end - bits) (ConstTree (end - bits) 0) bits u) end) }
    {
        if end <= bits {
            return Ok(joined);
        }
        let zero = self.zero(end - bits)?;
        let whole = self.above(zero, joined)?;
        Ok(Some(whole))
    }

    /// The tree of a piece that was met.
    fn piece(&self, sketch: &Sketch, place: usize) -> Tree
        ensures { (t : TreeOf) (w : ℕ) → IsMet self.now.graph self.now.trees.items (length sketch.now.drafts + place) t w → HasTree self.now.graph result t w }
    {
        let vertex = sketch.drafts.as_slice().len().saturating_add(place);
        match self.tree(vertex) {
            Some(tree) => tree,
            None => Tree { cell: CellId(0) },
        }
    }

    /// The cell of a draft, over the trees of its operands.
    fn made(&mut self, cell: Cell) -> Result<Tree, NoMemory>
        ensures signals { self.new.graph.signals ≡ self.old.graph.signals }
        ensures trees { self.new.trees ≡ self.old.trees }
        ensures grown { OnOk result (Grows self.old.graph self.new.graph) }
        ensures made { (ds : Items OneDraft) (sel : Selects) (n w : ℕ) → IsMade ds n w cell
            → ((a : Id) → IsOperand cell a → IsMet self.old.graph self.old.trees.items a.0 (tree_in sel ds a) (width_at ds a))
            → IfOk result (λ r. HasTree self.new.graph r (unfolded [] (draft_trees sel ds) cell) w) }
    {
        let tree = self.add(self.over_trees(cell))?;
        Ok(tree)
    }

    fn over_trees(&self, cell: Cell) -> Cell
        ensures { result ≡ over (cell_met self.now.trees.items) cell }
    {
        match cell {
            Cell::Var { .. } | Cell::Const { .. } => cell,
            Cell::Not { a } => Cell::Not { a: self.cell(a) },
            Cell::And { a, b } => Cell::And {
                a: self.cell(a),
                b: self.cell(b),
            },
            Cell::Or { a, b } => Cell::Or {
                a: self.cell(a),
                b: self.cell(b),
            },
            Cell::Xor { a, b } => Cell::Xor {
                a: self.cell(a),
                b: self.cell(b),
            },
            Cell::Add { a, b } => Cell::Add {
                a: self.cell(a),
                b: self.cell(b),
            },
            Cell::Sub { a, b } => Cell::Sub {
                a: self.cell(a),
                b: self.cell(b),
            },
            Cell::Eq { a, b } => Cell::Eq {
                a: self.cell(a),
                b: self.cell(b),
            },
            Cell::Lt { a, b } => Cell::Lt {
                a: self.cell(a),
                b: self.cell(b),
            },
            Cell::Shl { a, by } => Cell::Shl {
                a: self.cell(a),
                by: self.cell(by),
            },
            Cell::Shr { a, by } => Cell::Shr {
                a: self.cell(a),
                by: self.cell(by),
            },
            Cell::Mux { cond, yes, other } => Cell::Mux {
                cond: self.cell(cond),
                yes: self.cell(yes),
                other: self.cell(other),
            },
            Cell::Concat { high, low } => Cell::Concat {
                high: self.cell(high),
                low: self.cell(low),
            },
            Cell::Slice { a, at, width } => Cell::Slice {
                a: self.cell(a),
                at,
                width,
            },
            Cell::Extend { a, width } => Cell::Extend {
                a: self.cell(a),
                width,
            },
            Cell::Reduce { kind, a } => Cell::Reduce {
                kind,
                a: self.cell(a),
            },
        }
    }

    /// The graph's cell for a draft that was met.
    fn cell(&self, id: CellId) -> CellId
        ensures { result ≡ cell_met self.now.trees.items id }
    {
        self.operand(id).cell
    }
}
