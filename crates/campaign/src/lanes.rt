//! The values of all cells of a graph in eight readings of its signals at once.
ghost use Rattle.std.specs.Prelude.{◌≡◌, ℕ, ◌+◌, ◌-◌, ◌*◌, ◌/◌, ◌%◌, ◌<◌, ◌^◌, ◌==◌, nat_lt, bit_and, bit_or, bit_xor, cond, length, replicate, set, slice_index, IfOk};
ghost use Rattle.cell_graph.specs.Cells.{cell_at, cell_width};
ghost use Rattle.cell_graph.specs.Unfolded.{IsWellFormed};
ghost use Rattle.cell_graph.specs.Values.{cell_word, reduced_word, word_at};
ghost use Rattle.campaign.specs.Lanes.{lane, AreLanesOf};

use cdc_base::NoMemory;
use cell_graph::word::{low_bits, mask, shifted_left, shifted_right};
use cell_graph::{Cell, CellId, Graph, ReduceKind};
use std::alloc::Global;
use std::marker::Model;
use std::simd::Simd;
use std::simd::prelude::*;

/// One value for each cell and each of eight readings, for the graph that they were opened for.
#[derive(Drop)]
pub struct Lanes {
    rows: Vec<[u64; 8]>,
}

impl Model for Lanes {
    ghost use Rattle.std.specs.Prelude.{List, ℕ};

    ghost Value = { List (List ℕ) };

    ghost view = { λ l. l.rows.items };
}

impl Lanes {
    /// Takes all memory that `fill` needs for this graph.
    pub fn open(alloc: Global, graph: &Graph) -> Result<Lanes, NoMemory>
        ensures zeros { IfOk result (λ l. l ≡ replicate (length graph.now.cells) (replicate 8 0)) }
    {
        match vec![in alloc; [0u64; 8]; graph.cell_count() as usize] {
            Ok(rows) => Ok(Lanes { rows }),
            Err(_) => Err(NoMemory),
        }
    }

    /// Sets the values of every cell for eight readings: for each signal a word of each. The values of a lane are those of
    /// the cells' trees where they were opened for this graph.
    pub fn fill(&mut self, graph: &Graph, words: &[[u64; 8]])
        ensures opened { length self.new ≡ length self.old }
        ensures filled { IsWellFormed graph.now → length self.old ≡ length graph.now.cells → AreLanesOf graph.now words.now self.new }
    {
        for place in 0..graph.cell_count() {
            let values = values_of(graph, words, self.rows.as_slice(), CellId(place));
            put_row(&mut self.rows, place, values);
        }
    }

    /// The cell's values by the last `fill`, and 0 before the first.
    pub fn value(&self, id: CellId) -> [u64; 8]
        ensures { (i : ℕ) → i < 8 → slice_index result i ≡ word_at (lane i self.now) id.0 }
    {
        get_row(self.rows.as_slice(), id.0)
    }

    /// The cell's value in one lane, below 8.
    pub fn value_in(&self, id: CellId, index: usize) -> u64
        ensures { index < 8 → result ≡ word_at (lane index self.now) id.0 }
    {
        match self.rows.get(id.0 as usize) {
            Some(row) if index < 8 => row[index],
            _ => 0,
        }
    }
}

fn get_row(rows: &[[u64; 8]], place: u32) -> [u64; 8]
    ensures { (i : ℕ) → i < 8 → slice_index result i ≡ word_at (lane i rows.now) place }
{
    rows.get(place as usize).copied().unwrap_or([0; 8])
}

fn put_row(rows: &mut Vec<[u64; 8]>, place: u32, row: [u64; 8])
    ensures length { length rows.new.items ≡ length rows.old.items }
    ensures stored { place < length rows.old.items → rows.new.items ≡ set rows.old.items place row }
{
    if (place as usize) < rows.len() {
        rows[place as usize] = row;
    }
}

/// The values of a cell, from the words of the signals and the values of the cells before it.
fn values_of(graph: &Graph, signals: &[[u64; 8]], rows: &[[u64; 8]], id: CellId) -> [u64; 8]
    ensures { (i : ℕ) → i < 8 → slice_index result i ≡ cell_word graph.now (lane i signals.now) (lane i rows.now) (cell_width graph.now id) (cell_at graph.now id) }
{
    let width = graph.width(id);
    match graph.cell(id) {
        Cell::Var { sig } => get_row(signals, sig),
        Cell::Const { value, .. } => [value; 8],
        Cell::Not { a } => low(nots(get_row(rows, a.0)), width),
        Cell::And { a, b } => ands(get_row(rows, a.0), get_row(rows, b.0)),
        Cell::Or { a, b } => ors(get_row(rows, a.0), get_row(rows, b.0)),
        Cell::Xor { a, b } => xors(get_row(rows, a.0), get_row(rows, b.0)),
        Cell::Add { a, b } => low(sums(get_row(rows, a.0), get_row(rows, b.0)), width),
        Cell::Sub { a, b } => low(differences(get_row(rows, a.0), get_row(rows, b.0)), width),
        Cell::Eq { a, b } => equals(get_row(rows, a.0), get_row(rows, b.0)),
        Cell::Lt { a, b } => lesser(get_row(rows, a.0), get_row(rows, b.0)),
        Cell::Shl { a, by } => low(moved_up(get_row(rows, a.0), get_row(rows, by.0)), width),
        Cell::Shr { a, by } => moved_down(get_row(rows, a.0), get_row(rows, by.0)),
        Cell::Mux { cond, yes, other } => chosen(
            get_row(rows, cond.0),
            get_row(rows, yes.0),
            get_row(rows, other.0),
        ),
        Cell::Concat { high, low } => joined(
            get_row(rows, high.0),
            get_row(rows, low.0),
            graph.width(low),
        ),
        Cell::Slice { a, at, .. } => sliced(get_row(rows, a.0), at, width),
        Cell::Extend { a, .. } => get_row(rows, a.0),
        Cell::Reduce { kind, a } => reduced(kind, graph.width(a), get_row(rows, a.0)),
    }
}

/// Both words, bit by bit.
fn ands(a: [u64; 8], b: [u64; 8]) -> [u64; 8]
    ensures { (i : ℕ) → i < 8 → slice_index result i ≡ bit_and (slice_index a i) (slice_index b i) }
{
    (Simd::from_array(a) & Simd::from_array(b)).to_array()
}

/// Either word, bit by bit.
fn ors(a: [u64; 8], b: [u64; 8]) -> [u64; 8]
    ensures { (i : ℕ) → i < 8 → slice_index result i ≡ bit_or (slice_index a i) (slice_index b i) }
{
    (Simd::from_array(a) | Simd::from_array(b)).to_array()
}

/// One word or the other, bit by bit.
fn xors(a: [u64; 8], b: [u64; 8]) -> [u64; 8]
    ensures { (i : ℕ) → i < 8 → slice_index result i ≡ bit_xor (slice_index a i) (slice_index b i) }
{
    (Simd::from_array(a) ^ Simd::from_array(b)).to_array()
}

/// The sums, without what passes 64 bits.
fn sums(a: [u64; 8], b: [u64; 8]) -> [u64; 8]
    ensures { (i : ℕ) → i < 8 → slice_index result i ≡ (slice_index a i + slice_index b i) % 2 ^ 64 }
{
    (Simd::from_array(a) + Simd::from_array(b)).to_array()
}

/// The differences, by 64 bits.
fn differences(a: [u64; 8], b: [u64; 8]) -> [u64; 8]
    ensures { (i : ℕ) → i < 8 → slice_index result i ≡ (slice_index a i + (2 ^ 64 - slice_index b i)) % 2 ^ 64 }
{
    (Simd::from_array(a) - Simd::from_array(b)).to_array()
}

/// The words with all bits turned.
fn nots(a: [u64; 8]) -> [u64; 8]
    ensures { (i : ℕ) → i < 8 → slice_index result i ≡ 2 ^ 64 - 1 - slice_index a i }
{
    (!Simd::from_array(a)).to_array()
}

/// The low `width` bits.
fn low(row: [u64; 8], width: u8) -> [u64; 8]
    ensures { (i : ℕ) → i < 8 → slice_index result i ≡ slice_index row i % 2 ^ width }
{
    let mut out = [0u64; 8];
    for i in 0..8 {
        out[i] = low_bits(row[i], width);
    }
    out
}

/// 1 where the words are equal.
fn equals(a: [u64; 8], b: [u64; 8]) -> [u64; 8]
    ensures { (i : ℕ) → i < 8 → slice_index result i ≡ cond (slice_index a i == slice_index b i) 1 0 }
{
    let mut out = [0u64; 8];
    for i in 0..8 {
        out[i] = u64::from(a[i] == b[i]);
    }
    out
}

/// 1 where the first word is less.
fn lesser(a: [u64; 8], b: [u64; 8]) -> [u64; 8]
    ensures { (i : ℕ) → i < 8 → slice_index result i ≡ cond (nat_lt (slice_index a i) (slice_index b i)) 1 0 }
{
    let mut out = [0u64; 8];
    for i in 0..8 {
        out[i] = u64::from(a[i] < b[i]);
    }
    out
}

/// The words moved up by as many places as each lane says.
fn moved_up(a: [u64; 8], by: [u64; 8]) -> [u64; 8]
    ensures { (i : ℕ) → i < 8 → slice_index result i ≡ slice_index a i * 2 ^ slice_index by i % 2 ^ 64 }
{
    let mut out = [0u64; 8];
    for i in 0..8 {
        out[i] = shifted_left(a[i], by[i]);
    }
    out
}

/// The words moved down by as many places as each lane says.
fn moved_down(a: [u64; 8], by: [u64; 8]) -> [u64; 8]
    ensures { (i : ℕ) → i < 8 → slice_index result i ≡ slice_index a i / 2 ^ slice_index by i }
{
    let mut out = [0u64; 8];
    for i in 0..8 {
        out[i] = shifted_right(a[i], by[i]);
    }
    out
}

/// 1 where all bits are ones, where any bit is, or where an odd number of them are.
fn reduced(kind: ReduceKind, width: u8, row: [u64; 8]) -> [u64; 8]
    ensures { (i : ℕ) → i < 8 → slice_index result i ≡ reduced_word kind width (slice_index row i) }
{
    let mut out = [0u64; 8];
    for i in 0..8 {
        out[i] = reduced_one(kind, width, row[i]);
    }
    out
}

pub(crate) fn reduced_one(kind: ReduceKind, width: u8, word: u64) -> u64
    ensures { result ≡ reduced_word kind width word }
{
    match kind {
        ReduceKind::And => u64::from(word == mask(width)),
        ReduceKind::Or => u64::from(word != 0),
        ReduceKind::Xor => u64::from(word.count_ones() % 2),
    }
}

/// `yes`, or `other` where the condition is 0.
fn chosen(conditions: [u64; 8], yes: [u64; 8], other: [u64; 8]) -> [u64; 8]
    ensures { (i : ℕ) → i < 8 → slice_index result i ≡ cond (slice_index conditions i == 0) (slice_index other i) (slice_index yes i) }
{
    let mut out = [0u64; 8];
    for i in 0..8 {
        out[i] = if conditions[i] == 0 { other[i] } else { yes[i] };
    }
    out
}

/// The words `high` above `by` bits of the words `low`.
fn joined(high: [u64; 8], low: [u64; 8], by: u8) -> [u64; 8]
    ensures { (i : ℕ) → i < 8 → slice_index result i ≡ bit_or (slice_index high i * 2 ^ by % 2 ^ 64) (slice_index low i) }
{
    let mut out = [0u64; 8];
    for i in 0..8 {
        out[i] = shifted_left(high[i], u64::from(by)) | low[i];
    }
    out
}

/// `width` bits from bit `at` on.
fn sliced(row: [u64; 8], at: u8, width: u8) -> [u64; 8]
    ensures { (i : ℕ) → i < 8 → slice_index result i ≡ slice_index row i / 2 ^ at % 2 ^ width }
{
    let mut out = [0u64; 8];
    for i in 0..8 {
        out[i] = low_bits(shifted_right(row[i], u64::from(at)), width);
    }
    out
}
