//! The state bits that a node reads, by a walk that meets each bit of a cell once.
ghost use Rattle.std.specs.Prelude.{◌≡◌, ◌⊎◌, ◌↔◌, ℕ, ◌^◌, ◌≤◌, ◌<◌, ◌&&◌, true, [], ◌∷◌, ◌++◌, length, Some, slice_get, IfOk, OnOk};
ghost use Rattle.std.specs.List.{Contains};
ghost use Rattle.cdc_base.specs.declared.bit.Bit.{Bit};
ghost use Rattle.cell_graph.specs.declared.cell.Cell.TheVariants.{Mux, Concat};
ghost use Rattle.cell_graph.specs.declared.cell.CellId.{CellId};
ghost use Rattle.cell_graph.specs.Below.{IsOperand, IsBelow};
ghost use Rattle.cell_graph.specs.Cells.{Cells, cell_at, cell_width};
ghost use Rattle.cell_graph.specs.Cofactor.{reads};
ghost use Rattle.cell_graph.specs.Reading as reading;
ghost use Rattle.cell_graph.specs.Tree.{bit_at};
ghost use Rattle.cell_graph.specs.Unfolded.{IsWellFormed, IsNodeOf, IsCellOf, tree_of};
ghost use Rattle.cofactor.specs.declared.walk.Wanted.{Wanted};
ghost use Rattle.cofactor.specs.Made.{HasBit, IsMadeOf};
ghost use Rattle.cofactor.specs.Marks.{marked};
ghost use Rattle.cofactor.specs.Order.{AreAscending};
ghost use Rattle.cofactor.specs.Shown.{place_in, same_in, ShowsMasks, HasPlace, Shows};
ghost use Rattle.cofactor.specs.Walked.{IsMet, IsAsked, IsWithin, IsPartOf, AreMakers, KeepEntries, is_sought, IsRead};

use crate::marks::Marks;
use crate::masks::has_bit;
use crate::table::{Row, Table};
use cdc_base::{Bit, List, NoMemory};
use cell_graph::word::{mask, shifted_left, shifted_right};
use cell_graph::{Cell, CellId, Graph, Net, Node};
use std::alloc::Global;
use std::marker::Model;
use std::mem;

/// Bits of the cell at a place that are to be read.
#[derive(Clone, Copy, Debug, Drop)]
pub(crate) struct Wanted {
    place: usize,
    bits: u64,
}

/// A walk under way: the bits that were asked for, in the order in which they were, each once, and the state bits found.
#[derive(Drop)]
struct Walk {
    marks: Marks,
    wanted: Vec<Wanted>,
    found: Vec<Bit>,
}

impl Model for Walk {
    ghost use Rattle.cofactor.specs.Walked.{Walked, AreListed};

    ghost Value = { Walked };

    ghost view = { λ w. record { wanted = w.wanted.items; found = w.found.items } };

    ghost invariant = { λ w. AreListed w.marks w.wanted.items };
}

impl Table {
    /// The state bits that the node reads, ascending.
    pub fn reads(&mut self, alloc: Global, net: &Net, node: Node) -> Result<List<Bit>, NoMemory>
        ensures exact { IfOk result (λ bits. (cube : reading.Cube) → IsWellFormed net.now.graph → IsNodeOf net.now.graph node →
            ((id : CellId) → IsBelow net.now.graph (node.cell ∷ []) id → Shows net.now.graph cube self.old id) →
            (b : Bit) → (Contains bits b) ↔ (reads cube (tree_of net.now.graph node.cell) node.at b ≡ true)) }
        ensures ascending { IfOk result (λ bits. AreAscending bits) }
        ensures unchanged { self.new ≡ self.old }
    {
        self.reads_marked(alloc, net, node, &[])
    }

    /// The state bits of marked signals that the node reads, ascending. A signal beyond the marks counts as marked.
    pub fn reads_marked(
        &mut self,
        alloc: Global,
        net: &Net,
        node: Node,
        marks: &[Option<u32>],
    ) -> Result<List<Bit>, NoMemory>
        ensures exact { IfOk result (λ bits. (cube : reading.Cube) → IsWellFormed net.now.graph → IsNodeOf net.now.graph node →
            ((id : CellId) → IsBelow net.now.graph (node.cell ∷ []) id → Shows net.now.graph cube self.old id) →
            (b : Bit) → (Contains bits b) ↔ ((is_sought marks.now b && reads cube (tree_of net.now.graph node.cell) node.at b) ≡ true)) }
        ensures ascending { IfOk result (λ bits. AreAscending bits) }
        ensures unchanged { self.new ≡ self.old }
    {
        let met = mem::replace(&mut self.marks, Marks::new(alloc));
        let met = met.begin(alloc, self.row_count())?;
        let wanted = mem::replace(&mut self.wanted, Vec::new(alloc));
        let (met, wanted, found) = self.walk(alloc, &net.graph, node, met, wanted, marks)?;
        self.marks = met;
        self.wanted = wanted;
        Ok(List::from_vec(into_ascending(found)))
    }

    /// The bits of cells that a whole walk from a node has met and asked for, and the state bits of marked signals found.
    /// What the list held is dropped, its room is used again.
    fn walk(
        &self,
        alloc: Global,
        graph: &Graph,
        node: Node,
        met: Marks,
        wanted: Vec<Wanted>,
        marks: &[Option<u32>],
    ) -> Result<(Marks, Vec<Wanted>, Vec<Bit>), NoMemory>
        requires { (place : ℕ) → marked met place ≡ 0 }
        ensures { IfOk result (λ parts. (cube : reading.Cube) → IsWellFormed graph.now → IsNodeOf graph.now node →
            ((id : CellId) → IsBelow graph.now (node.cell ∷ []) id → Shows graph.now cube self.now id) →
            (b : Bit) → (Contains parts.2.items b) ↔ ((is_sought marks.now b && reads cube (tree_of graph.now node.cell) node.at b) ≡ true)) }
    {
        let mut wanted = wanted;
        wanted.clear();
        let mut walk = Walk {
            marks: met,
            wanted,
            found: Vec::new(alloc),
        };
        walk.want(self, node.cell, shifted_left(1, u64::from(node.at)))?;
        for turn in 0..usize::MAX {
            let Some(wanted) = walk.get(turn) else {
                break;
            };
            walk.read(self, graph, wanted, marks)?;
        }
        Ok(walk.into_parts())
    }
}

impl Walk {
    fn into_parts(self) -> (Marks, Vec<Wanted>, Vec<Bit>)
        ensures found { result.2.items ≡ self.found }
        ensures short { length self.wanted < 2 ^ 63 }
    {
        (self.marks, self.wanted, self.found)
    }

    fn get(&self, turn: usize) -> Option<Wanted>
        ensures { result ≡ slice_get self.now.wanted turn }
    {
        self.wanted.get(turn).copied()
    }

    /// Asks for those of the bits of a cell that the walk hasn't met.
    fn want(&mut self, table: &Table, cell: CellId, bits: u64) -> Result<(), NoMemory>
        ensures asked { OnOk result (HasPlace table.now cell → (i : ℕ) → bit_at bits i ≡ true → IsAsked table.now self.new.wanted cell i) }
        ensures only { OnOk result ((w : Wanted) → Contains self.new.wanted w → Contains self.old.wanted w ⊎ IsPartOf table.now cell bits w) }
        ensures kept { OnOk result (KeepEntries self.old.wanted self.new.wanted) }
        ensures found { OnOk result (self.new.found ≡ self.old.found) }
    {
        match table.place_of(cell) {
            Some(place) => self.want_at(place, bits),
            None => Ok(()),
        }
    }

    fn want_at(&mut self, place: usize, bits: u64) -> Result<(), NoMemory>
        ensures asked { OnOk result ((i : ℕ) → bit_at bits i ≡ true → IsMet self.new.wanted place i) }
        ensures only { OnOk result ((w : Wanted) → Contains self.new.wanted w → Contains self.old.wanted w ⊎ ((w.place ≡ place) × IsWithin w.bits bits)) }
        ensures kept { OnOk result (KeepEntries self.old.wanted self.new.wanted) }
        ensures found { OnOk result (self.new.found ≡ self.old.found) }
    {
        let bits = bits & !self.marks.met(place);
        if bits == 0 {
            return Ok(());
        }
        match self.wanted.push(Wanted { place, bits }) {
            Ok(()) => {
                self.marks.mark(place, bits);
                Ok(())
            }
            Err(_) => Err(NoMemory),
        }
    }

    /// Asks for the same bits of both cells.
    fn want_both(&mut self, table: &Table, a: CellId, b: CellId, bits: u64) -> Result<(), NoMemory>
        ensures asked { OnOk result ((x : CellId) → (x ≡ a) ⊎ (x ≡ b) → HasPlace table.now x → (i : ℕ) → bit_at bits i ≡ true →
            IsAsked table.now self.new.wanted x i) }
        ensures only { OnOk result ((w : Wanted) → Contains self.new.wanted w → Contains self.old.wanted w ⊎
            ((x : CellId) × ((x ≡ a) ⊎ (x ≡ b)) × IsPartOf table.now x bits w)) }
        ensures kept { OnOk result (KeepEntries self.old.wanted self.new.wanted) }
        ensures found { OnOk result (self.new.found ≡ self.old.found) }
    {
        self.want(table, a, bits)?;
        self.want(table, b, bits)
    }

    /// Asks for all bits of both cells.
    fn want_all(
        &mut self,
        table: &Table,
        graph: &Graph,
        a: CellId,
        b: CellId,
    ) -> Result<(), NoMemory>
        ensures asked { OnOk result ((x : CellId) → (x ≡ a) ⊎ (x ≡ b) → HasPlace table.now x → (i : ℕ) → i < cell_width graph.now x → i < 64 →
            IsAsked table.now self.new.wanted x i) }
        ensures only { OnOk result ((w : Wanted) → Contains self.new.wanted w → Contains self.old.wanted w ⊎
            ((x : CellId) × ((x ≡ a) ⊎ (x ≡ b)) × (place_in table.now.cells x ≡ Some w.place))) }
        ensures kept { OnOk result (KeepEntries self.old.wanted self.new.wanted) }
        ensures found { OnOk result (self.new.found ≡ self.old.found) }
    {
        self.want(table, a, mask(graph.width(a)))?;
        self.want(table, b, mask(graph.width(b)))
    }

    /// Reads bits of a cell: known ones read nothing, those that equal a state bit read it, the others read what they
    /// are made of.
    fn read(
        &mut self,
        table: &Table,
        graph: &Graph,
        wanted: Wanted,
        marks: &[Option<u32>],
    ) -> Result<(), NoMemory>
        ensures read { OnOk result ((cube : reading.Cube) (id : CellId) → IsWellFormed graph.now → id.0 < length graph.now.cells →
            place_in table.now.cells id ≡ Some wanted.place → Shows graph.now cube table.now id →
            ((a : CellId) → IsOperand (cell_at graph.now id) a → Shows graph.now cube table.now a) →
            IsRead graph.now cube table.now marks.now id wanted.bits self.old self.new) }
        ensures kept { OnOk result (KeepEntries self.old.wanted self.new.wanted) }
    {
        let cell = table.cell_at(graph, wanted.place);
        let row = table.row_there(wanted.place);
        let width = graph.width(cell);
        let unknown = wanted.bits & !row.masks.known & mask(width);
        let same = unknown & row.same;
        self.find_all(table, row, same, marks)?;
        let bits = unknown & !same;
        if bits == 0 {
            return Ok(());
        }
        self.want_makers(table, graph, graph.cell(cell), bits)
    }

    /// Finds the state bits of marked signals that these bits of a row's cell equal.
    fn find_all(
        &mut self,
        table: &Table,
        row: Row,
        bits: u64,
        marks: &[Option<u32>],
    ) -> Result<(), NoMemory>
        ensures there { OnOk result ((i : ℕ) (b : Bit) → is_sought marks.now b ≡ true → bit_at bits i ≡ true → same_in table.now row i ≡ Some b →
            Contains self.new.found b) }
        ensures sought { OnOk result ((b : Bit) → Contains self.new.found b → Contains self.old.found b ⊎ (is_sought marks.now b ≡ true)) }
        ensures only { OnOk result ((b : Bit) → Contains self.new.found b → Contains self.old.found b ⊎
            ((i : ℕ) × (bit_at bits i ≡ true) × (same_in table.now row i ≡ Some b))) }
        ensures kept { OnOk result ((b : Bit) → Contains self.old.found b → Contains self.new.found b) }
        ensures wanted { OnOk result (self.new.wanted ≡ self.old.wanted) }
    {
        for at in lowest(bits)..end(bits) {
            self.find(table, row, bits, at, marks)?;
        }
        Ok(())
    }

    /// Finds the state bit that bit `at` of a row's cell equals, if it is one of these bits and of a marked signal.
    fn find(
        &mut self,
        table: &Table,
        row: Row,
        bits: u64,
        at: u8,
        marks: &[Option<u32>],
    ) -> Result<(), NoMemory>
        ensures there { OnOk result ((b : Bit) → is_sought marks.now b ≡ true → bit_at bits at ≡ true → same_in table.now row at ≡ Some b →
            Contains self.new.found b) }
        ensures sought { OnOk result ((b : Bit) → Contains self.new.found b → Contains self.old.found b ⊎ (is_sought marks.now b ≡ true)) }
        ensures only { OnOk result ((b : Bit) → Contains self.new.found b → Contains self.old.found b ⊎
            ((bit_at bits at ≡ true) × (same_in table.now row at ≡ Some b))) }
        ensures kept { OnOk result ((b : Bit) → Contains self.old.found b → Contains self.new.found b) }
        ensures wanted { OnOk result (self.new.wanted ≡ self.old.wanted) }
    {
        if !has_bit(bits, at) {
            return Ok(());
        }
        match table.same_in(row, at) {
            Some(bit) => self.add_sought(bit, marks),
            None => Ok(()),
        }
    }

    /// Adds a state bit that is found, if its signal is marked.
    fn add_sought(&mut self, bit: Bit, marks: &[Option<u32>]) -> Result<(), NoMemory>
        ensures there { OnOk result (is_sought marks.now bit ≡ true → Contains self.new.found bit) }
        ensures only { OnOk result ((b : Bit) → Contains self.new.found b → Contains self.old.found b ⊎ (b ≡ bit)) }
        ensures sought { OnOk result ((b : Bit) → Contains self.new.found b → Contains self.old.found b ⊎ (is_sought marks.now b ≡ true)) }
        ensures kept { OnOk result ((b : Bit) → Contains self.old.found b → Contains self.new.found b) }
        ensures wanted { OnOk result (self.new.wanted ≡ self.old.wanted) }
    {
        if is_sought(marks, bit) {
            self.add_found(bit)
        } else {
            Ok(())
        }
    }

    fn add_found(&mut self, bit: Bit) -> Result<(), NoMemory>
        ensures found { OnOk result (self.new.found ≡ self.old.found ++ bit ∷ []) }
        ensures wanted { OnOk result (self.new.wanted ≡ self.old.wanted) }
    {
        match self.found.push(bit) {
            Ok(()) => Ok(()),
            Err(_) => Err(NoMemory),
        }
    }

    /// Asks for the bits of which these bits of a cell are made.
    fn want_makers(
        &mut self,
        table: &Table,
        graph: &Graph,
        cell: Cell,
        bits: u64,
    ) -> Result<(), NoMemory>
        ensures asked { OnOk result ((cube : reading.Cube) (n : ℕ) → IsWellFormed graph.now → IsCellOf graph.now n cell →
            ((a : CellId) → IsOperand cell a → ShowsMasks graph.now cube table.now a) →
            (i j : ℕ) (x : CellId) → bit_at bits i ≡ true → IsMadeOf graph.now cube cell i x j → j < cell_width graph.now x →
            HasPlace table.now x → IsAsked table.now self.new.wanted x j) }
        ensures only { OnOk result ((cube : reading.Cube) (n : ℕ) → IsWellFormed graph.now → IsCellOf graph.now n cell →
            ((a : CellId) → IsOperand cell a → ShowsMasks graph.now cube table.now a) → HasBit bits →
            (w : Wanted) → Contains self.new.wanted w → Contains self.old.wanted w ⊎ AreMakers graph.now cube table.now cell bits w) }
        ensures kept { OnOk result (KeepEntries self.old.wanted self.new.wanted) }
        ensures found { OnOk result (self.new.found ≡ self.old.found) }
    {
        match cell {
            Cell::Var { .. } | Cell::Const { .. } => Ok(()),
            Cell::Not { a } => self.want(table, a, bits),
            Cell::And { a, b } | Cell::Or { a, b } | Cell::Xor { a, b } => {
                self.want_both(table, a, b, bits)
            }
            Cell::Add { a, b } | Cell::Sub { a, b } => self.want_both(table, a, b, up_to(bits)),
            Cell::Eq { a, b } | Cell::Lt { a, b } => {
                self.want_both(table, a, b, mask(graph.width(a)))
            }
            Cell::Shl { a, by } => match table.amount(graph, by) {
                Some(amount) => self.want(table, a, shifted_right(bits, amount)),
                None => self.want_all(table, graph, a, by),
            },
            Cell::Shr { a, by } => match table.amount(graph, by) {
                Some(amount) => self.want(table, a, shifted_left(bits, amount)),
                None => self.want_all(table, graph, a, by),
            },
            Cell::Mux { cond, yes, other } => self.want_choice(table, cond, yes, other, bits),
            Cell::Concat { high, low } => self.want_parts(table, graph, high, low, bits),
            Cell::Slice { a, at, .. } => self.want(table, a, shifted_left(bits, u64::from(at))),
            Cell::Extend { a, .. } => self.want(table, a, bits & mask(graph.width(a))),
            Cell::Reduce { a, .. } => self.want(table, a, mask(graph.width(a))),
        }
    }

    /// Asks for what these bits of a choice are made of.
    fn want_choice(
        &mut self,
        table: &Table,
        cond: CellId,
        yes: CellId,
        other: CellId,
        bits: u64,
    ) -> Result<(), NoMemory>
        ensures asked { OnOk result ((g : Cells) (cube : reading.Cube) → 0 < cell_width g cond → ShowsMasks g cube table.now cond →
            (i j : ℕ) (x : CellId) → bit_at bits i ≡ true → IsMadeOf g cube (Mux cond yes other) i x j → HasPlace table.now x →
            IsAsked table.now self.new.wanted x j) }
        ensures only { OnOk result ((g : Cells) (cube : reading.Cube) → 0 < cell_width g cond → ShowsMasks g cube table.now cond → HasBit bits →
            (w : Wanted) → Contains self.new.wanted w → Contains self.old.wanted w ⊎ AreMakers g cube table.now (Mux cond yes other) bits w) }
        ensures kept { OnOk result (KeepEntries self.old.wanted self.new.wanted) }
        ensures found { OnOk result (self.new.found ≡ self.old.found) }
    {
        match table.condition(cond) {
            Some(first) => {
                if first {
                    self.want(table, yes, bits)
                } else {
                    self.want(table, other, bits)
                }
            }
            None => {
                self.want(table, cond, 1)?;
                self.want_both(table, yes, other, bits)
            }
        }
    }

    /// Asks for the bits of both parts of which these bits of a concatenation are made.
    fn want_parts(
        &mut self,
        table: &Table,
        graph: &Graph,
        high: CellId,
        low: CellId,
        bits: u64,
    ) -> Result<(), NoMemory>
        ensures asked { OnOk result ((cube : reading.Cube) (i j : ℕ) (x : CellId) → bit_at bits i ≡ true → IsMadeOf graph.now cube (Concat high low) i x j →
            HasPlace table.now x → IsAsked table.now self.new.wanted x j) }
        ensures only { OnOk result ((cube : reading.Cube) (w : Wanted) → Contains self.new.wanted w →
            Contains self.old.wanted w ⊎ AreMakers graph.now cube table.now (Concat high low) bits w) }
        ensures kept { OnOk result (KeepEntries self.old.wanted self.new.wanted) }
        ensures found { OnOk result (self.new.found ≡ self.old.found) }
    {
        let width = graph.width(low);
        self.want(table, low, bits & mask(width))?;
        self.want(table, high, shifted_right(bits, u64::from(width)))
    }
}

/// Whether the bit's signal is marked, or stands beyond the marks.
fn is_sought(marks: &[Option<u32>], bit: Bit) -> bool
    ensures { result ≡ is_sought marks.now bit }
{
    match marks.get(bit.sig as usize) {
        Some(mark) => mark.is_some(),
        None => true,
    }
}

/// The place of the lowest bit that is set; 64 where none is.
fn lowest(bits: u64) -> u8
    ensures { (i : ℕ) → bit_at bits i ≡ true → result ≤ i }
{
    bits.trailing_zeros() as u8
}

/// The place behind the highest bit that is set; 0 where none is.
fn end(bits: u64) -> u8
    ensures { (i : ℕ) → bit_at bits i ≡ true → i < result }
{
    64 - bits.leading_zeros() as u8
}

/// All bits up to the highest of these.
fn up_to(bits: u64) -> u64
    ensures there { (i j : ℕ) → bit_at bits i ≡ true → j ≤ i → bit_at result j ≡ true }
    ensures only { (j : ℕ) → bit_at result j ≡ true → (i : ℕ) × (bit_at bits i ≡ true) × (j ≤ i) }
{
    shifted_right(u64::MAX, u64::from(bits.leading_zeros()))
}

/// The bits in their order, each once.
fn into_ascending(bits: Vec<Bit>) -> Vec<Bit>
    ensures there { (b : Bit) → Contains bits.items b → Contains result.items b }
    ensures only { (b : Bit) → Contains result.items b → Contains bits.items b }
    ensures ascending { AreAscending result.items }
{
    let mut bits = bits;
    bits.sort_unstable();
    bits.dedup();
    bits
}
