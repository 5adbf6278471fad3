//! Paths of crossings: from the next value down to the bit that it reads.
ghost use Rattle.std.specs.Prelude.{◌≡◌, ◌↔◌, ℕ, ◌≤◌, ◌<◌, ◌≢◌, Bool, true, Option, Some, None, List, [], length, bit_or, IfOk};
ghost use Rattle.std.specs.List.{Contains};
ghost use Rattle.cdc_base.specs.declared.bit.Bit.{Bit};
ghost use Rattle.cell_graph.specs.declared.cell.Cell.TheVariants.{Mux};
ghost use Rattle.cell_graph.specs.declared.cell.CellId.{CellId};
ghost use Rattle.cell_graph.specs.Below.{IsOperand, IsClosed, AreIn, AreAscending};
ghost use Rattle.cell_graph.specs.Cells.{Cells, cell_at, cell_width};
ghost use Rattle.cell_graph.specs.Cofactor.{reads, known_number};
ghost use Rattle.cell_graph.specs.Feeds.{feeds_of};
ghost use Rattle.cell_graph.specs.Tree.{bit_at, number};
ghost use Rattle.cell_graph.specs.Unfolded.{IsCellOf, IsWellFormed};
ghost use Rattle.cofactor.specs.Masks.{masks_of};
ghost use Rattle.cofactor.specs.Shown.{masks_at, ShowsMasks};
ghost use Rattle.domains.specs.Nets.{IsNet};
ghost use Rattle.cdc_model.specs.Listed.{BeginsWith, IsNodePath, IsPathOf};
ghost use Rattle.cdc_model.specs.Nets.{HasNextCells, bit_count, next_tree};
ghost use Rattle.cdc_model.specs.Tables.{ShowsNet};
ghost use Rattle.crossings.specs.Readings.{word_at, IsReading, AreReadings, AreOperandsRead, AreFed, IsFromLowest, IsAllIfAny, reads_shown, first_set, IsOnPath};

use cdc_base::{Bit, List, NoMemory};
use cdc_model::Crossing;
use cdc_model::view::{has_bit, known_value, next_node};
use cell_graph::word::{mask, shifted_left, shifted_right};
use cell_graph::{Cell, CellId, Graph, Net, Node};
use cofactor::Table;
use std::alloc::Global;
use std::marker::Model;

/// The most feeds that a bit has: all bits of two words.
const MAX_FEEDS: u32 = 128;

/// The paths of a net, asked for one after another. Each one costs the cells below its end. `plain` is always the net's
/// table without a cube.
#[derive(Drop)]
pub struct Paths {
    /// Of each cell below the end of the path in hand, the bits that read its source; of other cells what an earlier
    /// path left.
    words: Vec<u64>,
}

impl Model for Paths {
    ghost use Rattle.std.specs.Prelude.{ℕ, List};

    ghost Value = { List ℕ };

    ghost view = { λ p. p.words.items };
}

impl Paths {
    pub fn open(alloc: Global, net: &Net) -> Result<Paths, NoMemory>
        ensures { IfOk result (λ paths. length paths ≡ length net.now.graph.cells) }
    {
        match vec![in alloc; 0u64; net.graph.cell_count() as usize] {
            Ok(words) => Ok(Paths { words }),
            Err(_) => Err(NoMemory),
        }
    }

    /// The path of a crossing: from each node to the feed of least number that reads the source, down to the source.
    pub fn path(
        &mut self,
        alloc: Global,
        net: &Net,
        plain: &Table,
        crossing: &Crossing,
    ) -> Result<List<Node>, NoMemory>
        ensures exact { IfOk result (λ path. IsNet net.now → HasNextCells net.now → ShowsNet net.now [] plain.now →
            length self.old ≡ length net.now.graph.cells → crossing.now.to.at < bit_count net.now.graph.signals crossing.now.to.sig →
            reads [] (next_tree net.now crossing.now.to.sig) crossing.now.to.at crossing.now.from ≡ true →
            IsPathOf net.now crossing.now.from crossing.now.to path) }
        ensures kept { length self.new ≡ length self.old }
    {
        let Some(start) = next_node(net, crossing.to) else {
            return Ok(List::new(alloc));
        };
        let roots = [start.cell];
        let cells = net.graph.cells_below(alloc, &roots)?;
        self.read_all(net, plain, cells.as_slice(), crossing.from);
        self.walk(alloc, net, start)
    }

    /// Finds the bits of these cells that read the source. Each cell stands behind its operands.
    fn read_all(&mut self, net: &Net, plain: &Table, cells: &[CellId], source: Bit)
        ensures words { IsWellFormed net.now.graph → ShowsNet net.now [] plain.now → length self.old ≡ length net.now.graph.cells →
            IsClosed net.now.graph cells.now → AreAscending cells.now → AreIn net.now.graph cells.now →
            AreReadings net.now.graph source self.new cells.now }
        ensures kept { length self.new ≡ length self.old }
    {
        for cell in cells {
            let word = self.reading_bits(net, plain, *cell, source);
            self.set(*cell, word);
        }
    }

    fn set(&mut self, cell: CellId, word: u64)
        ensures here { cell.0 < length self.old → word_at self.new cell ≡ word }
        ensures others { (c : CellId) → c.0 ≢ cell.0 → word_at self.new c ≡ word_at self.old c }
        ensures kept { length self.new ≡ length self.old }
    {
        let place = cell.0 as usize;
        if place < self.words.len() {
            self.words[place] = word;
        }
    }

    fn word(&self, cell: CellId) -> u64
        ensures { result ≡ word_at self.now cell }
    {
        self.words.get(cell.0 as usize).copied().unwrap_or(0)
    }

    /// The bits of the cell that read the source, once those of its operands are known.
    fn reading_bits(&self, net: &Net, plain: &Table, cell: CellId, source: Bit) -> u64
        ensures { IsWellFormed net.now.graph → ShowsNet net.now [] plain.now → cell.0 < length net.now.graph.cells →
            AreOperandsRead net.now.graph source self.now (cell_at net.now.graph cell) → IsReading net.now.graph source cell result }
    {
        let fed = self.fed_bits(&net.graph, plain, net.graph.cell(cell));
        let known = plain.masks(cell).known;
        let mut bits = 0;
        for at in 0..net.graph.width(cell).min(64) {
            if reads_source(plain, Node { cell, at }, known, fed, source) {
                bits |= shifted_left(1, u64::from(at));
            }
        }
        bits
    }

    /// The bits of the cell that are made of a bit that reads the source. Where a condition or a shift's amount is
    /// known, a bit is made only of what passes.
    fn fed_bits(&self, graph: &Graph, plain: &Table, cell: Cell) -> u64
        ensures { (b : Bit) (n : ℕ) → IsWellFormed graph.now → IsCellOf graph.now n cell →
            ((a : CellId) → IsOperand cell a → ShowsMasks graph.now [] plain.now a) → AreOperandsRead graph.now b self.now cell →
            AreFed graph.now b cell result }
    {
        match cell {
            Cell::Var { .. } | Cell::Const { .. } => 0,
            Cell::Not { a } => self.word(a),
            Cell::Extend { a, .. } => self.word(a),
            Cell::And { a, b } | Cell::Or { a, b } | Cell::Xor { a, b } => self.either(a, b),
            Cell::Add { a, b } | Cell::Sub { a, b } => from_lowest(self.either(a, b)),
            Cell::Eq { a, b } | Cell::Lt { a, b } => all_if_any(self.either(a, b)),
            Cell::Shl { a, by } => match amount(graph, plain, by) {
                Some(amount) => shifted_left(self.word(a), amount),
                None => all_if_any(self.either(a, by)),
            },
            Cell::Shr { a, by } => match amount(graph, plain, by) {
                Some(amount) => shifted_right(self.word(a), amount),
                None => all_if_any(self.either(a, by)),
            },
            Cell::Mux { cond, yes, other } => self.fed_by_choice(plain, cond, yes, other),
            Cell::Concat { high, low } => {
                self.word(low) | shifted_left(self.word(high), u64::from(graph.width(low)))
            }
            Cell::Slice { a, at, .. } => shifted_right(self.word(a), u64::from(at)),
            Cell::Reduce { a, .. } => all_if_any(self.word(a)),
        }
    }

    fn fed_by_choice(&self, plain: &Table, cond: CellId, yes: CellId, other: CellId) -> u64
        ensures { (g : Cells) (b : Bit) → cell_width g cond ≡ 1 → ShowsMasks g [] plain.now cond → AreOperandsRead g b self.now (Mux cond yes other) →
            AreFed g b (Mux cond yes other) result }
    {
        match known_value(plain, Node { cell: cond, at: 0 }) {
            Some(true) => self.word(yes),
            Some(false) => self.word(other),
            None => all_if_any(self.word(cond)) | self.either(yes, other),
        }
    }

    fn either(&self, a: CellId, b: CellId) -> u64
        ensures { result ≡ bit_or (word_at self.now a) (word_at self.now b) }
    {
        self.word(a) | self.word(b)
    }

    fn walk(&self, alloc: Global, net: &Net, start: Node) -> Result<List<Node>, NoMemory>
        ensures begins { IfOk result (λ path. BeginsWith start path) }
        ensures path { IfOk result (λ path. (b : Bit) (cells : List CellId) → IsWellFormed net.now.graph →
            IsOnPath net.now.graph b self.now cells start → IsNodePath net.now.graph b path) }
    {
        let mut path = List::new(alloc);
        path.push(start)?;
        let mut node = start;
        for _ in 0..start.cell.0 {
            let Some(feed) = self.first_reading_feed(net, node) else {
                break;
            };
            path.push(feed)?;
            node = feed;
        }
        Ok(path)
    }

    fn first_reading_feed(&self, net: &Net, node: Node) -> Option<Node>
        ensures { length (feeds_of net.now.graph (cell_at net.now.graph node.cell) node.at) ≤ MAX_FEEDS →
            result ≡ first_set self.now (feeds_of net.now.graph (cell_at net.now.graph node.cell) node.at) }
    {
        for n in 0..MAX_FEEDS {
            let Some(feed) = net.graph.feeds(node.cell, node.at, n) else {
                return None;
            };
            if has_bit(self.word(feed.cell), feed.at) {
                return Some(feed);
            }
        }
        None
    }
}

/// Whether a bit reads the source, where `known` are the bits of its cell that are known, and `fed` those that are made
/// of a bit that reads it.
fn reads_source(plain: &Table, node: Node, known: u64, fed: u64, source: Bit) -> bool
    ensures { result ≡ reads_shown plain.now source known fed node }
{
    if has_bit(known, node.at) {
        return false;
    }
    match plain.same(node) {
        Some(bit) => bit == source,
        None => has_bit(fed, node.at),
    }
}

/// The amount of a shift, where all its bits are known.
fn amount(graph: &Graph, plain: &Table, by: CellId) -> Option<u64>
    ensures { (k : ℕ → Option Bool) → cell_width graph.now by ≤ 64 → masks_at plain.now by ≡ masks_of k (cell_width graph.now by) →
        result ≡ known_number k (cell_width graph.now by) }
{
    let masks = plain.masks(by);
    if masks.known == mask(graph.width(by)) {
        Some(masks.value)
    } else {
        None
    }
}

/// All bits from the lowest set one on.
fn from_lowest(word: u64) -> u64
    ensures { IsFromLowest word result }
{
    shifted_left(u64::MAX, u64::from(word.trailing_zeros()))
}

/// All bits where any bit is set.
fn all_if_any(word: u64) -> u64
    ensures { IsAllIfAny word result }
{
    if word == 0 { 0 } else { u64::MAX }
}
