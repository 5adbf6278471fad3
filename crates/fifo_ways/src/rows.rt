//! Which bits of cells have only ways that pass what is looked for.
ghost use Rattle.std.specs.Prelude.{◌≡◌, ℕ, suc, ◌≤◌, ◌<◌, Bool, Some, OnOk};
ghost use Rattle.std.specs.HashMap as hash;
ghost use Rattle.cell_graph.specs.Met.{same_id};
ghost use Rattle.cell_graph.specs.Tree.{bit_at, number, all_below};
ghost use Rattle.fifo_ways.specs.Rows.{row_at, has, bits_of};

use cdc_base::NoMemory;
use cell_graph::word::{mask, shifted_left, shifted_right};
use cell_graph::{CellId, Node};
use std::collections::HashMap;

/// Of each bit of a cell whether all ways from it pass a read where a guard was passed above, and whether all pass a
/// guard and a read where none was.
#[derive(Clone, Copy, PartialEq, Eq, Debug, Drop)]
pub struct Row {
    pub guarded: u64,
    pub free: u64,
}

/// No bit of a cell.
pub const NO_BITS: Row = Row {
    guarded: 0,
    free: 0,
};

/// The rows of cells.
pub type Rows = HashMap<CellId, Row>;

pub fn add_row(rows: &mut Rows, cell: CellId, row: Row) -> Result<(), NoMemory>
    ensures { OnOk result (hash.Updates same_id rows.old rows.new cell (Some row)) }
{
    match rows.insert(cell, row) {
        Ok(_) => Ok(()),
        Err(_) => Err(NoMemory),
    }
}

/// The bits of a cell.
fn bits_of(rows: &Rows, cell: CellId, guarded: bool) -> u64
    ensures { result ≡ bits_of guarded (row_at rows.now cell) }
{
    let row = match rows.get(&cell) {
        Some(row) => *row,
        None => NO_BITS,
    };
    if guarded { row.guarded } else { row.free }
}

/// Whether the bit of a cell is among them.
pub fn has(rows: &Rows, node: Node, guarded: bool) -> bool
    ensures { result ≡ has rows.now guarded node.cell node.at }
{
    shifted_right(bits_of(rows, node.cell, guarded), u64::from(node.at)) & 1 == 1
}

/// Whether the lowest `count` bits of a cell are, at most 64.
pub fn has_all(rows: &Rows, cell: CellId, count: u8, guarded: bool) -> bool
    ensures { count ≤ 64 → result ≡ all_below (has rows.now guarded cell) count }
{
    let ones = mask(count);
    bits_of(rows, cell, guarded) & ones == ones
}

/// The word with one more bit above its own.
pub fn with_bit(word: u64, at: u8, bit: bool) -> u64
    ensures { (f : ℕ → Bool) → at < 64 → word ≡ number f at → bit ≡ f at → result ≡ number f (suc at) }
{
    if bit {
        word | shifted_left(1, u64::from(at))
    } else {
        word
    }
}
