//! The values of cells where one bit has its other value.
ghost use Rattle.std.specs.Prelude.{◌≡◌, ◌<◌, ◌∷◌, [], length};
ghost use Rattle.cell_graph.specs.declared.cell.CellId.{CellId};
ghost use Rattle.cell_graph.specs.Cells.{cell_at, cell_width};
ghost use Rattle.cell_graph.specs.Unfolded.{IsWellFormed};
ghost use Rattle.cell_graph.specs.Values.{AreWordsOf, cell_word, values_of, word_at};
ghost use Rattle.settling_sim.specs.Words.{flip_in};
ghost use Rattle.campaign.specs.Room.{IsConeOf};

use crate::lanes::reduced_one;
use cdc_base::Bit;
use cdc_model::view::has_bit;
use cell_graph::word::{low_bits, shifted_left, shifted_right};
use cell_graph::{Cell, CellId, Graph};
use settling_sim::word::{put_word, with_bit};

/// The word at a place, and 0 where there is none.
pub fn word_at(words: &[u64], place: u32) -> u64
    ensures { result ≡ word_at words.now place }
{
    words.get(place as usize).copied().unwrap_or(0)
}

/// The word of a signal, with the bit at its other value where it is one of this signal.
fn word_with(words: &[u64], flipped: Bit, sig: u32) -> u64
    ensures { flipped.sig < length words.now → result ≡ word_at (flip_in words.now words.now (flipped ∷ [])) sig }
{
    let word = word_at(words, sig);
    if flipped.sig == sig {
        with_bit(word, flipped.at, !has_bit(word, flipped.at))
    } else {
        word
    }
}

/// Sets the values of these cells by the words of the signals with the bit at its other value. The cells ascend and have
/// their operands among them; each step takes one cell.
pub fn fill_cells(graph: &Graph, words: &[u64], flipped: Bit, cells: &[CellId], values: &mut [u64])
    ensures counted { length values.new ≡ length values.old }
    ensures filled { IsWellFormed graph.now → AreWordsOf graph.now.signals (flip_in words.now words.now (flipped ∷ [])) → flipped.sig < length words.now →
        length values.old ≡ length graph.now.cells → (top : CellId) → IsConeOf graph.now top cells.now →
        word_at values.new top.0 ≡ word_at (values_of graph.now (flip_in words.now words.now (flipped ∷ []))) top.0 }
{
    for id in cells {
        let value = value_of(graph, words, flipped, values, *id);
        put_word(values, id.0, value);
    }
}

/// The value of a cell, from the words of the signals with the bit at its other value, and the values of the cells before
/// it.
fn value_of(graph: &Graph, words: &[u64], flipped: Bit, values: &[u64], id: CellId) -> u64
    ensures { flipped.sig < length words.now →
        result ≡ cell_word graph.now (flip_in words.now words.now (flipped ∷ [])) values.now (cell_width graph.now id) (cell_at graph.now id) }
{
    let width = graph.width(id);
    match graph.cell(id) {
        Cell::Var { sig } => word_with(words, flipped, sig),
        Cell::Const { value, .. } => value,
        Cell::Not { a } => low_bits(!word_at(values, a.0), width),
        Cell::And { a, b } => word_at(values, a.0) & word_at(values, b.0),
        Cell::Or { a, b } => word_at(values, a.0) | word_at(values, b.0),
        Cell::Xor { a, b } => word_at(values, a.0) ^ word_at(values, b.0),
        Cell::Add { a, b } => low_bits(
            word_at(values, a.0).wrapping_add(word_at(values, b.0)),
            width,
        ),
        Cell::Sub { a, b } => low_bits(
            word_at(values, a.0).wrapping_sub(word_at(values, b.0)),
            width,
        ),
        Cell::Eq { a, b } => u64::from(word_at(values, a.0) == word_at(values, b.0)),
        Cell::Lt { a, b } => u64::from(word_at(values, a.0) < word_at(values, b.0)),
        Cell::Shl { a, by } => low_bits(
            shifted_left(word_at(values, a.0), word_at(values, by.0)),
            width,
        ),
        Cell::Shr { a, by } => shifted_right(word_at(values, a.0), word_at(values, by.0)),
        Cell::Mux { cond, yes, other } => {
            if word_at(values, cond.0) == 0 {
                word_at(values, other.0)
            } else {
                word_at(values, yes.0)
            }
        }
        Cell::Concat { high, low } => {
            let by = u64::from(graph.width(low));
            shifted_left(word_at(values, high.0), by) | word_at(values, low.0)
        }
        Cell::Slice { a, at, .. } => low_bits(
            shifted_right(word_at(values, a.0), u64::from(at)),
            width,
        ),
        Cell::Extend { a, .. } => word_at(values, a.0),
        Cell::Reduce { kind, a } => reduced_one(kind, graph.width(a), word_at(values, a.0)),
    }
}
