//! Trees whose reads of signals are still open: a wire's tree is known only once all its drivers are.
ghost use Rattle.std.specs.Prelude.{◌≡◌, ◌≢◌, ℕ, ◌+◌, ◌≤◌, ◌<◌, ◌^◌, ◌∷◌, ◌++◌, [], length, map, All, IfOk};
ghost use Rattle.cell_graph.specs.Unfolded.{unfolded};
ghost use Rattle.flat_meaning.specs.Trees.{fit, cut as cut_tree, glue, truth as truth_tree};
ghost use Rattle.cell_graph.specs.Tree.{Const as ConstTree};
ghost use Rattle.driver_trees.specs.Drafts.{draft_trees, form_tree, tree_in, width_at, IsMade, IsDraftAt, AreDrafts, IsDraftOf};
ghost use Rattle.driver_trees.specs.Growth.{cell_bits, drafted, IsBuilt, AreIn, joined_bits, joined_in, optional_bits, optional_tree, IsOptionalDraft};

use crate::memory::{numbered, push};
use cdc_base::NoMemory;
use cell_graph::{Cell, CellId, ReduceKind};
use std::alloc::Global;
use std::marker::Model;

#[derive(Clone, Copy, Drop)]
pub enum Form {
    /// Bits of a signal, from `at` on.
    Read { sig: u32, at: u8 },
    /// A cell whose operands are earlier drafts.
    Made(Cell),
}

/// One node of a tree, and its bits.
#[derive(Clone, Copy, Drop)]
pub struct Draft {
    pub form: Form,
    pub width: u8,
}

/// Drafts, each behind its operands. A `CellId` among them is a place in this list.
#[derive(Drop)]
pub struct Drafts {
    drafts: Vec<Draft>,
}

impl Model for Drafts {
    ghost use Rattle.std.specs.Prelude.{List};
    ghost use Rattle.driver_trees.specs.declared.draft.Draft.{Draft as OneDraft};

    ghost Value = { List OneDraft };

    ghost view = { λ d. d.drafts.items };
}

impl Drafts {
    pub fn new(alloc: Global) -> Drafts
        ensures { result ≡ [] }
    {
        Drafts {
            drafts: Vec::new(alloc),
        }
    }

    pub fn as_slice(&self) -> &[Draft]
        ensures { result.now ≡ self.now }
    {
        self.drafts.as_slice()
    }

    pub fn width(&self, id: CellId) -> u8
        ensures { result ≡ width_at self.now id }
    {
        self.drafts
            .get(id.0 as usize)
            .map_or(1, |draft| draft.width)
    }

    fn push(&mut self, form: Form, width: u8) -> Result<CellId, NoMemory>
        ensures added { IfOk result (λ id. (id.0 ≡ length self.old) × (self.new ≡ self.old ++ drafted form width ∷ [])) }
    {
        let place = numbered(self.drafts.len())?;
        push(&mut self.drafts, Draft { form, width })?;
        Ok(CellId(place))
    }

    /// Bits of a signal as they are outside its own process.
    pub fn read(&mut self, sig: u32, at: u8, width: u8) -> Result<CellId, NoMemory>
        ensures built { (wid : ℕ → ℕ) → AreDrafts wid self.old → 1 ≤ width → at + width ≤ wid sig → wid sig ≤ 64
            → IfOk result (λ id. IsBuilt wid self.old self.new id width (λ sel. sel sig at width)) }
    {
        self.push(Form::Read { sig, at }, width)
    }

    /// Adds a cell over earlier drafts.
    pub fn add(&mut self, cell: Cell) -> Result<CellId, NoMemory>
        ensures added { IfOk result (λ id. (id.0 ≡ length self.old) × (self.new ≡ self.old ++ drafted (Form.Made cell) (cell_bits self.old cell) ∷ [])) }
        ensures built { (wid : ℕ → ℕ) (w : ℕ) → AreDrafts wid self.old → IsMade self.old (length self.old) w cell
            → IfOk result (λ id. IsBuilt wid self.old self.new id w (λ sel. unfolded [] (draft_trees sel self.old) cell)) }
    {
        let width = self.width_of(cell);
        self.push(Form::Made(cell), width)
    }

    fn width_of(&self, cell: Cell) -> u8
        ensures { result ≡ cell_bits self.now cell }
    {
        match cell {
            Cell::Var { .. } | Cell::Eq { .. } | Cell::Lt { .. } | Cell::Reduce { .. } => 1,
            Cell::Const { width, .. } | Cell::Slice { width, .. } | Cell::Extend { width, .. } => {
                width
            }
            Cell::Not { a }
            | Cell::And { a, .. }
            | Cell::Or { a, .. }
            | Cell::Xor { a, .. }
            | Cell::Add { a, .. }
            | Cell::Sub { a, .. }
            | Cell::Shl { a, .. }
            | Cell::Shr { a, .. } => self.width(a),
            Cell::Mux { yes, .. } => self.width(yes),
            Cell::Concat { high, low } => self.width(high).saturating_add(self.width(low)),
        }
    }

    pub fn constant(&mut self, width: u8, value: u64) -> Result<CellId, NoMemory>
        ensures built { (wid : ℕ → ℕ) → AreDrafts wid self.old → 1 ≤ width → width ≤ 64 → value < 2 ^ width
            → IfOk result (λ id. IsBuilt wid self.old self.new id width (λ sel. ConstTree width value)) }
    {
        self.add(Cell::Const { width, value })
    }

    /// The word with zeros above, up to `width` bits.
    pub fn fitted(&mut self, a: CellId, width: u8) -> Result<CellId, NoMemory>
        ensures built { (wid : ℕ → ℕ) (w : ℕ) → AreDrafts wid self.old → IsDraftOf self.old a w → w ≤ width → width ≤ 64
            → IfOk result (λ id. IsBuilt wid self.old self.new id width (λ sel. fit width w (tree_in sel self.old a))) }
    {
        if self.width(a) < width {
            self.add(Cell::Extend { a, width })
        } else {
            Ok(a)
        }
    }

    /// The `width` bits of the word from `at` on.
    pub fn cut(&mut self, a: CellId, at: u8, width: u8) -> Result<CellId, NoMemory>
        ensures built { (wid : ℕ → ℕ) (w : ℕ) → AreDrafts wid self.old → IsDraftOf self.old a w → 1 ≤ width → at + width ≤ w
            → IfOk result (λ id. IsBuilt wid self.old self.new id width (λ sel. cut_tree w at width (tree_in sel self.old a))) }
    {
        if self.width(a) == width {
            Ok(a)
        } else {
            self.add(Cell::Slice { a, at, width })
        }
    }

    /// Whether the word isn't zero, as one bit.
    pub fn truth(&mut self, a: CellId) -> Result<CellId, NoMemory>
        ensures built { (wid : ℕ → ℕ) (w : ℕ) → AreDrafts wid self.old → IsDraftOf self.old a w
            → IfOk result (λ id. IsBuilt wid self.old self.new id 1 (λ sel. truth_tree w (tree_in sel self.old a))) }
    {
        if self.width(a) == 1 {
            Ok(a)
        } else {
            self.add(Cell::Reduce {
                kind: ReduceKind::Or,
                a,
            })
        }
    }

    /// The words side by side, the first one highest.
    pub fn joined(&mut self, words: Vec<CellId>) -> Result<CellId, NoMemory>
        ensures built { (wid : ℕ → ℕ) → AreDrafts wid self.old → AreIn self.old words.items
            → 1 ≤ joined_bits self.old words.items → joined_bits self.old words.items ≤ 64
            → IfOk result (λ id. IsBuilt wid self.old self.new id (joined_bits self.old words.items) (λ sel. joined_in sel self.old words.items)) }
    {
        let mut left = words;
        let mut whole = None;
        while let Some(word) = left.pop() {
            whole = Some(self.above(word, whole)?);
        }
        match whole {
            Some(word) => Ok(word),
            None => self.constant(1, 0),
        }
    }

    /// The word `high` and, below it, the word `low` where there is one.
    pub fn above(&mut self, high: CellId, low: Option<CellId>) -> Result<CellId, NoMemory>
        ensures built { (wid : ℕ → ℕ) (m : ℕ) → AreDrafts wid self.old → IsDraftOf self.old high m → IsOptionalDraft self.old low → m + optional_bits self.old low ≤ 64
            → IfOk result (λ id. IsBuilt wid self.old self.new id (m + optional_bits self.old low)
            (λ sel. glue m (tree_in sel self.old high) (optional_bits self.old low) (optional_tree sel self.old low))) }
    {
        match low {
            Some(low) => self.add(Cell::Concat { high, low }),
            None => Ok(high),
        }
    }
}
