//! The cofactors of all cells of a net under one cube.
ghost use Rattle.std.specs.Prelude.{◌≡◌, ℕ, ◌+◌, ◌≤◌, ◌<◌, Bool, false, cond, List, [], ◌∷◌, ◌++◌, length, Option, Some, None, option_map, slice_get, unwrap_or, IfOk, OnOk, IfSome};
ghost use Rattle.cell_graph.specs.Cells.{cell_at, cell_width};
ghost use Rattle.cell_graph.specs.Below.{IsOperand, IsBelow, AreIn, AreAscending};
ghost use Rattle.cell_graph.specs.Reading as reading;
ghost use Rattle.cell_graph.specs.Reading.{bit_eq};
ghost use Rattle.cell_graph.specs.Tree.{bit_at};
ghost use Rattle.cell_graph.specs.Cofactor.{known, known_number, same, if_known_to_be, chosen, agreed_bit};
ghost use Rattle.cell_graph.specs.Unfolded.{IsWellFormed, IsNodeOf, tree_of};
ghost use Rattle.cofactor.specs.Cubes.{bit, cube_of};
ghost use Rattle.cofactor.specs.Masks.{masks_of};
ghost use Rattle.cofactor.specs.declared.table.Row.{Row};
ghost use Rattle.cofactor.specs.Shown.{place_among, place_in, no_row, row_at, masks_at, same_in, same_at, same_passed, IsSame, HasNoneBeside, HasNoChoice, HasNoSames, ShowsMasks, ShowsSames, Shows, KeepBits, IsComplete};

use crate::cube::{Cube, fixed_bits};
use crate::marks::Marks;
use crate::masks::{
    Masks, UNKNOWN, and_of, bits_known_to_be, choice_of, difference_of, equal_of, extended,
    has_bit, joined, less_of, moved_down, moved_up, not_of, or_of, reduced, sliced, sum_of,
    with_bit, xor_of,
};
use crate::walk::Wanted;
use cdc_base::{Bit, NoMemory};
use cell_graph::{Cell, CellId, Graph, Net, Node, Passed};
use std::alloc::Global;
use std::marker::Model;

/// What a cell shows under the cube. `same` masks the bits that equal a state bit; these bits stand in the table from
/// `start` on, bit 0 first.
#[derive(Clone, Copy, Debug, Drop)]
pub(crate) struct Row {
    pub(crate) masks: Masks,
    pub(crate) same: u64,
    start: usize,
}

/// The cofactors of cells of a net under one cube.
#[derive(Drop)]
pub struct Table {
    /// The cells that have rows, ascending; all cells of the graph where it is None.
    cells: Option<Vec<CellId>>,
    rows: Vec<Row>,
    sames: Vec<Bit>,
    pub(crate) marks: Marks,
    /// What the last walk asked for, whose room the next one uses.
    pub(crate) wanted: Vec<Wanted>,
}

impl Model for Table {
    ghost use Rattle.std.specs.Prelude.{option_map, IfSome};
    ghost use Rattle.cell_graph.specs.Below.{AreAscending};
    ghost use Rattle.cofactor.specs.Shown.{Shown};

    ghost Value = { Shown };

    ghost view = { λ t. record { cells = option_map (λ v. v.items) t.cells; rows = t.rows.items; sames = t.sames.items } };

    ghost invariant = { λ t. IfSome t.cells (λ v. AreAscending v.items) };
}

impl Table {
    /// The table of all cells. It takes all memory that `masks` and `same` need.
    pub fn open(alloc: Global, net: &Net, cube: &Cube) -> Result<Table, NoMemory>
        ensures known { IfOk result (λ t. IsWellFormed net.now.graph → (id : CellId) → id.0 < length net.now.graph.cells →
            ShowsMasks net.now.graph (cube_of cube.now) t id) }
        ensures same { IfOk result (λ t. IsWellFormed net.now.graph → (id : CellId) → id.0 < length net.now.graph.cells →
            (i : ℕ) → i < cell_width net.now.graph id → same_at t id i ≡ same (cube_of cube.now) (tree_of net.now.graph id) i) }
        ensures shown { IfOk result (λ t. IsWellFormed net.now.graph → (id : CellId) → id.0 < length net.now.graph.cells →
            Shows net.now.graph (cube_of cube.now) t id) }
    {
        let count = net.graph.cell_count() as usize;
        Table::of_cells(alloc, &net.graph, cube, None, count)
    }

    /// The table of these cells and of those on which they stand. Of other cells it shows nothing.
    pub fn open_below(
        alloc: Global,
        net: &Net,
        cube: &Cube,
        roots: &[CellId],
    ) -> Result<Table, NoMemory>
        ensures known { IfOk result (λ t. IsWellFormed net.now.graph → AreIn net.now.graph roots.now → (id : CellId) →
            IsBelow net.now.graph roots.now id → ShowsMasks net.now.graph (cube_of cube.now) t id) }
        ensures same { IfOk result (λ t. IsWellFormed net.now.graph → AreIn net.now.graph roots.now → (id : CellId) →
            IsBelow net.now.graph roots.now id → (i : ℕ) → i < cell_width net.now.graph id →
            same_at t id i ≡ same (cube_of cube.now) (tree_of net.now.graph id) i) }
        ensures shown { IfOk result (λ t. IsWellFormed net.now.graph → AreIn net.now.graph roots.now → (id : CellId) →
            IsBelow net.now.graph roots.now id → Shows net.now.graph (cube_of cube.now) t id) }
    {
        let cells = net.graph.cells_below(alloc, roots)?;
        let count = cells.len();
        Table::of_cells(alloc, &net.graph, cube, Some(cells), count)
    }

    fn of_cells(
        alloc: Global,
        graph: &Graph,
        cube: &Cube,
        cells: Option<Vec<CellId>>,
        count: usize,
    ) -> Result<Table, NoMemory>
        requires { IfSome cells (λ v. AreAscending v.items) }
        ensures cells { IfOk result (λ t. t.cells ≡ option_map (λ v. v.items) cells) }
        ensures known { IfOk result (λ t. IsWellFormed graph.now → IsComplete graph.now (option_map (λ v. v.items) cells) count →
            (place : ℕ) (id : CellId) → place < count → place_in (option_map (λ v. v.items) cells) id ≡ Some place →
            ShowsMasks graph.now (cube_of cube.now) t id) }
        ensures same { IfOk result (λ t. IsWellFormed graph.now → IsComplete graph.now (option_map (λ v. v.items) cells) count →
            (place : ℕ) (id : CellId) → place < count → place_in (option_map (λ v. v.items) cells) id ≡ Some place →
            ShowsSames graph.now (cube_of cube.now) t id) }
    {
        let mut table = Table {
            cells,
            rows: Vec::new(alloc),
            sames: Vec::new(alloc),
            marks: Marks::new(alloc),
            wanted: Vec::new(alloc),
        };
        for place in 0..count {
            let cell = table.cell_at(graph, place);
            table.push(graph, cube, cell)?;
        }
        Ok(table)
    }

    /// The cell of the graph whose row stands at this place.
    pub(crate) fn cell_at(&self, graph: &Graph, place: usize) -> CellId
        ensures { (id : CellId) → id.0 < length graph.now.cells → place_in self.now.cells id ≡ Some place → result ≡ id }
    {
        match &self.cells {
            Some(cells) => cell_among(cells.as_slice(), place),
            None => nth_cell(graph.cell_count(), place),
        }
    }

    /// Where the cell's row stands, if it has one.
    pub(crate) fn place_of(&self, cell: CellId) -> Option<usize>
        ensures { result ≡ place_in self.now.cells cell }
    {
        match &self.cells {
            Some(cells) => search(cells.as_slice(), cell),
            None => Some(cell.0 as usize),
        }
    }

    /// What is known of the bits of a cell.
    pub fn masks(&self, cell: CellId) -> Masks
        ensures { result ≡ masks_at self.now cell }
    {
        self.row(cell).masks
    }

    /// The state bit that the node equals, where the rules show one.
    pub fn same(&self, node: Node) -> Option<Bit>
        ensures { result ≡ same_at self.now node.cell node.at }
    {
        self.same_in(self.row(node.cell), node.at)
    }

    /// The state bit that a bit of a row's cell equals.
    pub(crate) fn same_in(&self, row: Row, at: u8) -> Option<Bit>
        ensures { result ≡ same_in self.now row at }
    {
        if has_bit(row.same, at) {
            self.sames
                .get(row.start.saturating_add(usize::from(at)))
                .copied()
        } else {
            None
        }
    }

    /// The row of a cell; nothing is shown of a cell that the table doesn't have.
    fn row(&self, cell: CellId) -> Row
        ensures { result ≡ row_at self.now cell }
    {
        match self.place_of(cell) {
            Some(place) => self.row_there(place),
            None => NO_ROW,
        }
    }

    /// The row at a place.
    pub(crate) fn row_there(&self, place: usize) -> Row
        ensures { result ≡ unwrap_or (slice_get self.now.rows place) no_row }
    {
        match self.rows.get(place) {
            Some(row) => *row,
            None => NO_ROW,
        }
    }

    pub(crate) fn row_count(&self) -> usize {
        self.rows.len()
    }

    /// The amount of a shift, where all its bits are known.
    pub(crate) fn amount(&self, graph: &Graph, by: CellId) -> Option<u64>
        ensures { (k : ℕ → Option Bool) → cell_width graph.now by ≤ 64 →
            masks_at self.now by ≡ masks_of k (cell_width graph.now by) → result ≡ known_number k (cell_width graph.now by) }
    {
        self.masks(by).word(graph.width(by))
    }

    /// The condition of a choice, where it is known.
    pub(crate) fn condition(&self, cond: CellId) -> Option<bool>
        ensures { (k : ℕ → Option Bool) (w : ℕ) → 0 < w → masks_at self.now cond ≡ masks_of k w → result ≡ k 0 }
    {
        self.masks(cond).bit(0)
    }

    /// Adds the row of a cell whose operands have theirs.
    fn push(&mut self, graph: &Graph, cube: &Cube, id: CellId) -> Result<(), NoMemory>
        ensures cells { OnOk result (self.new.cells ≡ self.old.cells) }
        ensures row { OnOk result ((row : Row) × (self.new.rows ≡ self.old.rows ++ row ∷ []) × (IsWellFormed graph.now →
            id.0 < length graph.now.cells → ((a : CellId) → IsOperand (cell_at graph.now id) a → ShowsMasks graph.now (cube_of cube.now) self.old a) →
            row.masks ≡ masks_of (known (cube_of cube.now) (tree_of graph.now id)) (cell_width graph.now id)) × (IsWellFormed graph.now →
            id.0 < length graph.now.cells → ((a : CellId) → IsOperand (cell_at graph.now id) a → ShowsMasks graph.now (cube_of cube.now) self.old a) →
            ((a : CellId) → IsOperand (cell_at graph.now id) a → ShowsSames graph.now (cube_of cube.now) self.old a) →
            (i : ℕ) → i < cell_width graph.now id →
            IsSame (bit_at row.same i) (slice_get self.new.sames (row.start + i)) (same (cube_of cube.now) (tree_of graph.now id) i))) }
        ensures kept { OnOk result (KeepBits self.old.sames self.new.sames) }
    {
        let masks = self.known_bits(graph, cube, id);
        let start = self.sames.len();
        let same = self.find_row_sames(graph, id, masks)?;
        self.add_row(Row { masks, same, start })
    }

    fn add_row(&mut self, row: Row) -> Result<(), NoMemory>
        ensures cells { OnOk result (self.new.cells ≡ self.old.cells) }
        ensures rows { OnOk result (self.new.rows ≡ self.old.rows ++ row ∷ []) }
        ensures sames { OnOk result (self.new.sames ≡ self.old.sames) }
    {
        match self.rows.push(row) {
            Ok(()) => Ok(()),
            Err(_) => Err(NoMemory),
        }
    }

    /// Adds the state bit of each bit of the cell, if the cell may have one, and says which bits have one.
    fn find_row_sames(&mut self, graph: &Graph, id: CellId, masks: Masks) -> Result<u64, NoMemory>
        ensures cells { OnOk result (self.new.cells ≡ self.old.cells) }
        ensures rows { OnOk result (self.new.rows ≡ self.old.rows) }
        ensures kept { OnOk result (KeepBits self.old.sames self.new.sames) }
        ensures found { IfOk result (λ found. (cube : reading.Cube) → IsWellFormed graph.now → id.0 < length graph.now.cells →
            ((a : CellId) → IsOperand (cell_at graph.now id) a → ShowsMasks graph.now cube self.old a) →
            ((a : CellId) → IsOperand (cell_at graph.now id) a → ShowsSames graph.now cube self.old a) →
            masks ≡ masks_of (known cube (tree_of graph.now id)) (cell_width graph.now id) →
            (i : ℕ) → i < cell_width graph.now id →
            IsSame (bit_at found i) (slice_get self.new.sames (length self.old.sames + i)) (same cube (tree_of graph.now id) i)) }
    {
        if self.may_have_same(graph.cell(id)) {
            self.push_sames(graph, id, masks)
        } else {
            Ok(0)
        }
    }

    /// What is known of the bits of a cell, by the rows of its operands.
    fn known_bits(&self, graph: &Graph, cube: &Cube, id: CellId) -> Masks
        ensures { IsWellFormed graph.now → id.0 < length graph.now.cells →
            ((a : CellId) → IsOperand (cell_at graph.now id) a → ShowsMasks graph.now (cube_of cube.now) self.now a) →
            result ≡ masks_of (known (cube_of cube.now) (tree_of graph.now id)) (cell_width graph.now id) }
    {
        let width = graph.width(id);
        match graph.cell(id) {
            Cell::Var { sig } => {
                let fixed = fixed_bits(cube, sig);
                sliced(fixed, 0, width)
            }
            Cell::Const { value, .. } => Masks::of_word(value, width),
            Cell::Not { a } => not_of(self.masks(a)),
            Cell::And { a, b } => and_of(self.masks(a), self.masks(b)),
            Cell::Or { a, b } => or_of(self.masks(a), self.masks(b)),
            Cell::Xor { a, b } => xor_of(self.masks(a), self.masks(b)),
            Cell::Add { a, b } => sum_of(self.masks(a), self.masks(b), width),
            Cell::Sub { a, b } => difference_of(self.masks(a), self.masks(b), width),
            Cell::Eq { a, b } => equal_of(self.masks(a), self.masks(b), graph.width(a)),
            Cell::Lt { a, b } => less_of(self.masks(a), self.masks(b), graph.width(a)),
            Cell::Shl { a, by } => match self.amount(graph, by) {
                Some(amount) => moved_up(self.masks(a), amount, width),
                None => UNKNOWN,
            },
            Cell::Shr { a, by } => match self.amount(graph, by) {
                Some(amount) => moved_down(self.masks(a), amount, width),
                None => UNKNOWN,
            },
            Cell::Mux { cond, yes, other } => {
                choice_of(self.condition(cond), self.masks(yes), self.masks(other))
            }
            Cell::Concat { high, low } => {
                joined(self.masks(high), self.masks(low), graph.width(low))
            }
            Cell::Slice { a, at, .. } => sliced(self.masks(a), at, width),
            Cell::Extend { a, .. } => extended(self.masks(a), graph.width(a), width),
            Cell::Reduce { kind, a } => reduced(kind, self.masks(a), graph.width(a)),
        }
    }

    /// Whether the rules may show a state bit that a bit of the cell equals, by the rows of its operands.
    fn may_have_same(&self, cell: Cell) -> bool
        ensures { result ≡ false → HasNoSames self.now cell }
    {
        match cell {
            Cell::Var { .. } => true,
            Cell::Const { .. } => false,
            Cell::Not { .. } => false,
            Cell::And { a, b } => passes_beside(self.row(a), self.row(b), true),
            Cell::Or { a, b } => passes_beside(self.row(a), self.row(b), false),
            Cell::Xor { a, b } => passes_beside(self.row(a), self.row(b), false),
            Cell::Add { .. } => false,
            Cell::Sub { .. } => false,
            Cell::Eq { .. } => false,
            Cell::Lt { .. } => false,
            Cell::Shl { a, .. } => self.has_sames(a),
            Cell::Shr { a, .. } => self.has_sames(a),
            Cell::Mux { cond, yes, other } => self.may_choose_same(cond, yes, other),
            Cell::Concat { high, low } => self.either_has_sames(high, low),
            Cell::Slice { a, .. } => self.has_sames(a),
            Cell::Extend { a, .. } => self.has_sames(a),
            Cell::Reduce { a, .. } => self.has_sames(a),
        }
    }

    /// Where the condition is unknown, both branches have to have the state bit.
    fn may_choose_same(&self, cond: CellId, yes: CellId, other: CellId) -> bool
        ensures { result ≡ false → HasNoChoice self.now cond yes other }
    {
        if self.masks(cond).known == 0 {
            self.row(yes).same & self.row(other).same != 0
        } else {
            self.either_has_sames(yes, other)
        }
    }

    fn has_sames(&self, a: CellId) -> bool
        ensures { result ≡ false → (row_at self.now a).same ≡ 0 }
    {
        self.row(a).same != 0
    }

    fn either_has_sames(&self, a: CellId, b: CellId) -> bool
        ensures { result ≡ false → ((row_at self.now a).same ≡ 0) × ((row_at self.now b).same ≡ 0) }
    {
        if self.has_sames(a) {
            true
        } else {
            self.has_sames(b)
        }
    }

    /// Adds the state bit of each bit of the cell, and says which bits have one.
    fn push_sames(&mut self, graph: &Graph, id: CellId, masks: Masks) -> Result<u64, NoMemory>
        ensures cells { OnOk result (self.new.cells ≡ self.old.cells) }
        ensures rows { OnOk result (self.new.rows ≡ self.old.rows) }
        ensures kept { OnOk result (KeepBits self.old.sames self.new.sames) }
        ensures found { IfOk result (λ found. (cube : reading.Cube) → IsWellFormed graph.now → id.0 < length graph.now.cells →
            ((a : CellId) → IsOperand (cell_at graph.now id) a → ShowsMasks graph.now cube self.old a) →
            ((a : CellId) → IsOperand (cell_at graph.now id) a → ShowsSames graph.now cube self.old a) →
            masks ≡ masks_of (known cube (tree_of graph.now id)) (cell_width graph.now id) →
            (i : ℕ) → i < cell_width graph.now id →
            IsSame (bit_at found i) (slice_get self.new.sames (length self.old.sames + i)) (same cube (tree_of graph.now id) i)) }
    {
        let mut found = 0;
        for at in 0..graph.width(id) {
            let same = self.same_of(graph, masks, Node { cell: id, at });
            found = with_bit(found, at, same.is_some());
            self.add_same(same)?;
        }
        Ok(found)
    }

    fn add_same(&mut self, same: Option<Bit>) -> Result<(), NoMemory>
        ensures cells { OnOk result (self.new.cells ≡ self.old.cells) }
        ensures rows { OnOk result (self.new.rows ≡ self.old.rows) }
        ensures sames { OnOk result (self.new.sames ≡ self.old.sames ++ unwrap_or same (bit 0 0) ∷ []) }
    {
        match self.sames.push(same.unwrap_or(Bit { sig: 0, at: 0 })) {
            Ok(()) => Ok(()),
            Err(_) => Err(NoMemory),
        }
    }

    /// The state bit that a bit of a cell equals, from the rows of the operands.
    fn same_of(&self, graph: &Graph, masks: Masks, node: Node) -> Option<Bit>
        ensures { (cube : reading.Cube) → IsWellFormed graph.now → IsNodeOf graph.now node →
            ((a : CellId) → IsOperand (cell_at graph.now node.cell) a → ShowsMasks graph.now cube self.now a) →
            ((a : CellId) → IsOperand (cell_at graph.now node.cell) a → ShowsSames graph.now cube self.now a) →
            masks ≡ masks_of (known cube (tree_of graph.now node.cell)) (cell_width graph.now node.cell) →
            result ≡ same cube (tree_of graph.now node.cell) node.at }
    {
        let at = node.at;
        match graph.cell(node.cell) {
            Cell::Var { sig } => unless_known(masks, at, Some(Bit { sig, at })),
            Cell::Const { .. } => None,
            Cell::Not { .. } => None,
            Cell::And { a, b } => unless_known(masks, at, self.same_side(a, b, at, true)),
            Cell::Or { a, b } => unless_known(masks, at, self.same_side(a, b, at, false)),
            Cell::Xor { a, b } => unless_known(masks, at, self.same_side(a, b, at, false)),
            Cell::Add { .. } => None,
            Cell::Sub { .. } => None,
            Cell::Eq { .. } => None,
            Cell::Lt { .. } => None,
            Cell::Shl { a, by } => match self.amount(graph, by) {
                Some(amount) => self.same_passed(graph.shifted_left(a, at, amount)),
                None => None,
            },
            Cell::Shr { a, by } => match self.amount(graph, by) {
                Some(amount) => self.same_passed(graph.shifted_right(a, at, amount)),
                None => None,
            },
            Cell::Mux { cond, yes, other } => {
                unless_known(masks, at, self.same_choice(cond, yes, other, at))
            }
            Cell::Concat { .. } => self.same_passed(graph.passed(node)),
            Cell::Slice { .. } => self.same_passed(graph.passed(node)),
            Cell::Extend { .. } => self.same_passed(graph.passed(node)),
            Cell::Reduce { a, .. } => {
                if graph.width(a) == 1 {
                    self.same(Node { cell: a, at: 0 })
                } else {
                    None
                }
            }
        }
    }

    fn same_passed(&self, passed: Passed) -> Option<Bit>
        ensures { result ≡ same_passed self.now passed }
    {
        match passed {
            Passed::Bit(node) => self.same(node),
            Passed::Zero => None,
            Passed::Other => None,
        }
    }

    /// The one side's, where the other is known to have the neutral value.
    fn same_side(&self, a: CellId, b: CellId, at: u8, neutral: bool) -> Option<Bit>
        ensures { (k l : ℕ → Option Bool) (w : ℕ) → at < w → masks_at self.now a ≡ masks_of k w → masks_at self.now b ≡ masks_of l w →
            result ≡ if_known_to_be (k at) neutral (same_at self.now b at) (if_known_to_be (l at) neutral (same_at self.now a at) None) }
    {
        if_value(
            self.masks(a).bit(at),
            neutral,
            self.same(Node { cell: b, at }),
            if_value(
                self.masks(b).bit(at),
                neutral,
                self.same(Node { cell: a, at }),
                None,
            ),
        )
    }

    /// The chosen branch's where the condition is known, else the branches' where both have one and the same.
    fn same_choice(&self, cond: CellId, yes: CellId, other: CellId, at: u8) -> Option<Bit>
        ensures { (k : ℕ → Option Bool) (w : ℕ) → 0 < w → masks_at self.now cond ≡ masks_of k w →
            result ≡ chosen (k 0) (same_at self.now yes at) (same_at self.now other at) (agreed_bit (same_at self.now yes at) (same_at self.now other at)) }
    {
        chosen_same(
            self.condition(cond),
            self.same(Node { cell: yes, at }),
            self.same(Node { cell: other, at }),
        )
    }
}

/// Whether one row has a state bit where the other is known to have the neutral value.
fn passes_beside(a: Row, b: Row, neutral: bool) -> bool
    ensures { result ≡ false → HasNoneBeside a b neutral }
{
    if bits_known_to_be(b.masks, neutral) & a.same != 0 {
        true
    } else {
        bits_known_to_be(a.masks, neutral) & b.same != 0
    }
}

fn unless_known(masks: Masks, at: u8, same: Option<Bit>) -> Option<Bit>
    ensures { result ≡ cond (bit_at masks.known at) None same }
{
    if has_bit(masks.known, at) { None } else { same }
}

/// `yes` where the value is known to be this one, else `other`.
fn if_value(known: Option<bool>, value: bool, yes: Option<Bit>, other: Option<Bit>) -> Option<Bit>
    ensures { result ≡ if_known_to_be known value yes other }
{
    match known {
        Some(known) => { if known == value { yes } else { other } }
        None => other,
    }
}

fn chosen_same(cond: Option<bool>, yes: Option<Bit>, other: Option<Bit>) -> Option<Bit>
    ensures { result ≡ chosen cond yes other (agreed_bit yes other) }
{
    match cond {
        Some(first) => { if first { yes } else { other } }
        None => agreed(yes, other),
    }
}

/// The bit, if both are one and the same.
fn agreed(first: Option<Bit>, second: Option<Bit>) -> Option<Bit>
    ensures { result ≡ agreed_bit first second }
{
    match first {
        Some(a) => match second {
            Some(b) => { if is_one_bit(a, b) { Some(a) } else { None } }
            None => None,
        },
        None => None,
    }
}

fn is_one_bit(a: Bit, b: Bit) -> bool
    ensures { result ≡ bit_eq a b }
{
    a.sig == b.sig && a.at == b.at
}

const NO_ROW: Row = Row {
    masks: UNKNOWN,
    same: 0,
    start: 0,
};

/// The cell at a place of a graph with so many.
fn nth_cell(count: u32, place: usize) -> CellId
    ensures { place < count → result.0 ≡ place }
{
    if place < count as usize {
        CellId(place as u32)
    } else {
        CellId(count)
    }
}

/// The cell at a place of the list.
fn cell_among(cells: &[CellId], place: usize) -> CellId
    ensures { (id : CellId) → place_among cells.now id ≡ Some place → result ≡ id }
{
    match cells.get(place) {
        Some(cell) => *cell,
        None => CellId(0),
    }
}

/// The place of a cell among cells that ascend.
fn search(cells: &[CellId], cell: CellId) -> Option<usize>
    requires { AreAscending cells.now }
    ensures { result ≡ place_among cells.now cell }
{
    match cells.binary_search(&cell) {
        Ok(place) => Some(place),
        Err(_) => None,
    }
}
