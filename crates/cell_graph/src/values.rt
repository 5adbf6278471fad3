//! The values of all cells of a graph in one reading of its signals.
ghost use Rattle.std.specs.Prelude.{◌≡◌, ◌<◌, length, replicate, set, IfOk};
ghost use Rattle.cell_graph.specs.Cells.{cell_at, cell_width};
ghost use Rattle.cell_graph.specs.Unfolded.{IsWellFormed};
ghost use Rattle.cell_graph.specs.Values.{AreWordsOf, values_of, word_at, cell_word, reduced_word};

use crate::cell::{Cell, CellId, ReduceKind};
use crate::graph::Graph;
use crate::word::{low_bits, mask, shifted_left, shifted_right};
use cdc_base::NoMemory;
use std::alloc::Global;
use std::marker::Model;

/// One value for each cell of the graph that they were opened for.
#[derive(Drop)]
pub struct Values {
    words: Vec<u64>,
}

impl Model for Values {
    ghost use Rattle.std.specs.Prelude.{List, ℕ};

    ghost Value = { List ℕ };

    ghost view = { λ v. v.words.items };
}

impl Values {
    /// Takes all memory that `fill` needs for this graph.
    pub fn open(alloc: Global, graph: &Graph) -> Result<Values, NoMemory>
        ensures zeros { IfOk result (λ v. v ≡ replicate (length graph.now.cells) 0) }
    {
        match vec![in alloc; 0u64; graph.cell_count() as usize] {
            Ok(words) => Ok(Values { words }),
            Err(_) => Err(NoMemory),
        }
    }

    /// Sets the value of every cell for one reading: a word per signal. The values are those of the cells' trees where
    /// they were opened for this graph.
    pub fn fill(&mut self, graph: &Graph, words: &[u64])
        ensures opened { length self.new ≡ length self.old }
        ensures filled { IsWellFormed graph.now → AreWordsOf graph.now.signals words.now →
            length self.old ≡ length graph.now.cells → self.new ≡ values_of graph.now words.now }
    {
        for place in 0..graph.cell_count() {
            let value = value_of(graph, words, self.words.as_slice(), CellId(place));
            put_word(&mut self.words, place, value);
        }
    }

    /// The cell's value by the last `fill`, and 0 before the first.
    pub fn value(&self, id: CellId) -> u64
        ensures { result ≡ word_at self.now id.0 }
    {
        get_word(self.words.as_slice(), id.0)
    }
}

fn get_word(words: &[u64], place: u32) -> u64
    ensures { result ≡ word_at words.now place }
{
    words.get(place as usize).copied().unwrap_or(0)
}

fn put_word(words: &mut Vec<u64>, place: u32, value: u64)
    ensures length { length words.new.items ≡ length words.old.items }
    ensures stored { place < length words.old.items → words.new.items ≡ set words.old.items place value }
{
    if (place as usize) < words.len() {
        words[place as usize] = value;
    }
}

/// The value of a cell, from the words of the signals and the values of the cells before it.
fn value_of(graph: &Graph, signals: &[u64], cells: &[u64], id: CellId) -> u64
    ensures { result ≡ cell_word graph.now signals.now cells.now (cell_width graph.now id) (cell_at graph.now id) }
{
    let width = graph.width(id);
    match graph.cell(id) {
        Cell::Var { sig } => get_word(signals, sig),
        Cell::Const { value, .. } => value,
        Cell::Not { a } => low_bits(!get_word(cells, a.0), width),
        Cell::And { a, b } => get_word(cells, a.0) & get_word(cells, b.0),
        Cell::Or { a, b } => get_word(cells, a.0) | get_word(cells, b.0),
        Cell::Xor { a, b } => get_word(cells, a.0) ^ get_word(cells, b.0),
        Cell::Add { a, b } => low_bits(
            get_word(cells, a.0).wrapping_add(get_word(cells, b.0)),
            width,
        ),
        Cell::Sub { a, b } => low_bits(
            get_word(cells, a.0).wrapping_sub(get_word(cells, b.0)),
            width,
        ),
        Cell::Eq { a, b } => u64::from(get_word(cells, a.0) == get_word(cells, b.0)),
        Cell::Lt { a, b } => u64::from(get_word(cells, a.0) < get_word(cells, b.0)),
        Cell::Shl { a, by } => low_bits(
            shifted_left(get_word(cells, a.0), get_word(cells, by.0)),
            width,
        ),
        Cell::Shr { a, by } => shifted_right(get_word(cells, a.0), get_word(cells, by.0)),
        Cell::Mux { cond, yes, other } => {
            if get_word(cells, cond.0) == 0 {
                get_word(cells, other.0)
            } else {
                get_word(cells, yes.0)
            }
        }
        Cell::Concat { high, low } => {
            let by = u64::from(graph.width(low));
            shifted_left(get_word(cells, high.0), by) | get_word(cells, low.0)
        }
        Cell::Slice { a, at, .. } => low_bits(
            shifted_right(get_word(cells, a.0), u64::from(at)),
            width,
        ),
        Cell::Extend { a, .. } => get_word(cells, a.0),
        Cell::Reduce { kind, a } => reduced(kind, graph.width(a), get_word(cells, a.0)),
    }
}

/// 1 where all bits are ones, where any bit is, or where an odd number of them are.
fn reduced(kind: ReduceKind, width: u8, word: u64) -> u64
    ensures { result ≡ reduced_word kind width word }
{
    match kind {
        ReduceKind::And => u64::from(word == mask(width)),
        ReduceKind::Or => u64::from(word != 0),
        ReduceKind::Xor => u64::from(word.count_ones() % 2),
    }
}
