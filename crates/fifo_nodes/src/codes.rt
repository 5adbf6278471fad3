//! Bits of Gray codes of counts.
ghost use Rattle.std.specs.Prelude.{◌≡◌, ◌↔◌, ◌<◌, suc, true, Some, [], length, map, option_map, slice_get, IfOk};
ghost use Rattle.cell_graph.specs.Cells.{Cells};
ghost use Rattle.cell_graph.specs.Origin.{origin};
ghost use Rattle.cell_graph.specs.Unfolded.{bit_of, tree_of, IsNodeOf};
ghost use Rattle.cdc_model.specs.Tables.{ShowsNet};
ghost use Rattle.cdc_model.specs.Word.{cells, IsXorOf, IsZero};
ghost use Rattle.fifo_terms.specs.Codes.{IsCodeBit, FitsGray};
ghost use Rattle.gray_pointer.specs.Words.{IsPlain, IsIn};
ghost use Rattle.fifo_nodes.specs.Codes.{code_of, word_tree, word_bit, AreOperands, IsBesideZero, IsCodeIn, IsWordIn};
ghost use Rattle.fifo_nodes.specs.Codes.{FitsBy, FitsNext, IsNextCount, IsSumOrChoice};
ghost use Rattle.fifo_nodes.specs.Terms.{terms_of, AreTermsIn};

use crate::bits::is_bit;
use crate::counts::counted;
use crate::term::{Term, have_one_set};
use cdc_base::{Bit, List, NoMemory};
use cdc_model::view::known_value;
use cell_graph::{Cell, CellId, Net, Node};
use cofactor::{Table, origin};
use gray_pointer::word::are_same;
use std::alloc::Global;

/// The count itself, or its next value, which counts under these terms.
#[derive(Drop)]
pub enum Moment {
    Now,
    Next(List<Term>),
}

/// A Gray code of the register `count` of `width` bits: the nodes that hold it, from bit 0 on and if there are any, and
/// whether it is that of the count or of the next count.
#[derive(Drop)]
pub struct Code {
    pub count: u32,
    pub width: u8,
    pub held: List<Option<Node>>,
    pub moment: Moment,
}

/// Whether a node is bit `at` of the code: it holds it, or is the exclusive or of two neighbours of a word that is the
/// count, or of one that counts under the code's terms. The table is the net's without a cube.
pub fn is_code_bit(
    alloc: Global,
    net: &Net,
    table: &Table,
    code: &Code,
    at: u8,
    node: Option<Node>,
) -> Result<bool, NoMemory>
    ensures { IfOk result (λ is. IsPlain net.now.graph → ShowsNet net.now [] table.now → IsCodeIn net.now.graph code.now → IsIn net.now.graph node →
        (is ≡ true) ↔ IsCodeBit (code_of net.now.graph code.now) at (option_map (bit_of net.now.graph) node)) }
{
    if is_held(code, at, node) {
        return Ok(true);
    }
    if at >= code.width {
        return Ok(false);
    }
    match &code.moment {
        Moment::Now => Ok(fits(net, table, Word::Own(code.count), code.width, at, node)),
        Moment::Next(under) => fits_next(alloc, net, table, code, under.as_slice(), at, node),
    }
}

/// Whether the node holds bit `at` of the code.
fn is_held(code: &Code, at: u8, node: Option<Node>) -> bool
    ensures { (g : Cells) → IsPlain g → IsCodeIn g code.now → IsIn g node →
        (result ≡ true) ↔ (slice_get (map (option_map (bit_of g)) code.now.held) at ≡ Some (option_map (bit_of g) node)) }
{
    match code.held.as_slice().get(usize::from(at)) {
        Some(held) => are_same(*held, node),
        None => false,
    }
}

/// A word whose Gray code is looked for: a register's own value, or the lowest bits of a cell.
#[derive(Clone, Copy, Drop)]
enum Word {
    Own(u32),
    Cell(CellId),
}

impl Word {
    /// Whether the node is bit `at` of the word.
    fn has(self, net: &Net, at: u8, node: Option<Node>) -> bool
        ensures { IsPlain net.now.graph → IsWordIn net.now.graph self → IsIn net.now.graph node →
            (result ≡ true) ↔ (option_map (bit_of net.now.graph) node ≡ word_bit net.now.graph self at) }
    {
        match self {
            Word::Own(sig) => is_bit(net, node, Bit { sig, at }),
            Word::Cell(cell) => are_same(node, Some(Node { cell, at })),
        }
    }
}

/// The operands' bits of an exclusive or.
#[derive(Clone, Copy, Drop)]
struct Operands {
    one: Node,
    another: Node,
}

fn operands_of(net: &Net, node: Option<Node>) -> Option<Operands>
    ensures { IsPlain net.now.graph → IsIn net.now.graph node → AreOperands net.now.graph (option_map (bit_of net.now.graph) node) result }
{
    let node = node?;
    match net.graph.cell(node.cell) {
        Cell::Xor { a, b } => Some(Operands {
            one: Node {
                cell: a,
                at: node.at,
            },
            another: Node {
                cell: b,
                at: node.at,
            },
        }),
        _ => None,
    }
}

/// Whether the node fits as bit `at` of a Gray word of the word, of `width` bits.
fn fits(net: &Net, table: &Table, word: Word, width: u8, at: u8, node: Option<Node>) -> bool
    ensures { IsPlain net.now.graph → ShowsNet net.now [] table.now → IsWordIn net.now.graph word → IsIn net.now.graph node → at < width →
        (result ≡ true) ↔ FitsGray (cells (word_tree net.now.graph word) 0 width) at (option_map (bit_of net.now.graph) node) }
{
    if at.saturating_add(1) < width {
        is_pair(net, word, at, node)
    } else {
        word.has(net, at, node) || is_top(net, table, word, at, node)
    }
}

/// Whether the node is the exclusive or of bits `at` and `at` + 1 of the word.
fn is_pair(net: &Net, word: Word, at: u8, node: Option<Node>) -> bool
    ensures { IsPlain net.now.graph → IsWordIn net.now.graph word → IsIn net.now.graph node → at < 255 →
        (result ≡ true) ↔ IsXorOf (option_map (bit_of net.now.graph) node) (word_bit net.now.graph word at) (word_bit net.now.graph word (suc at)) }
{
    let Some(Operands { one, another }) = operands_of(net, node) else {
        return false;
    };
    let above = at.saturating_add(1);
    let one = origin(net, one);
    let another = origin(net, another);
    (word.has(net, at, one) && word.has(net, above, another))
        || (word.has(net, above, one) && word.has(net, at, another))
}

/// Whether the node is the exclusive or of bit `at` of the word and a zero.
fn is_top(net: &Net, table: &Table, word: Word, at: u8, node: Option<Node>) -> bool
    ensures { IsPlain net.now.graph → ShowsNet net.now [] table.now → IsWordIn net.now.graph word → IsIn net.now.graph node →
        (result ≡ true) ↔ IsBesideZero (option_map (bit_of net.now.graph) node) (word_bit net.now.graph word at) }
{
    let Some(sides) = operands_of(net, node) else {
        return false;
    };
    is_with_zero(net, table, word, at, sides.one, sides.another)
        || is_with_zero(net, table, word, at, sides.another, sides.one)
}

/// Whether one operand is bit `at` of the word, and the other a zero.
fn is_with_zero(net: &Net, table: &Table, word: Word, at: u8, one: Node, another: Node) -> bool
    ensures { IsPlain net.now.graph → ShowsNet net.now [] table.now → IsWordIn net.now.graph word → IsNodeOf net.now.graph one → IsNodeOf net.now.graph another →
        (result ≡ true) ↔ (origin (tree_of net.now.graph one.cell) one.at ≡ word_bit net.now.graph word at) × IsZero (tree_of net.now.graph another.cell) another.at }
{
    word.has(net, at, origin(net, one)) && is_zero(net, table, another)
}

/// Whether the node is the zero bit, or known to be 0.
fn is_zero(net: &Net, table: &Table, node: Node) -> bool
    ensures { IsPlain net.now.graph → ShowsNet net.now [] table.now → IsNodeOf net.now.graph node →
        (result ≡ true) ↔ IsZero (tree_of net.now.graph node.cell) node.at }
{
    origin(net, node).is_none() || known_value(table, node) == Some(false)
}

/// Whether the node fits as bit `at` of a Gray word of a word that counts under these terms. A bit of the word is the
/// node or an operand of it, so the word is the cell of one of them.
fn fits_next(
    alloc: Global,
    net: &Net,
    table: &Table,
    code: &Code,
    under: &[Term],
    at: u8,
    node: Option<Node>,
) -> Result<bool, NoMemory>
    ensures { IfOk result (λ is. IsPlain net.now.graph → ShowsNet net.now [] table.now → IsCodeIn net.now.graph code.now → AreTermsIn net.now.graph under.now →
        IsIn net.now.graph node → at < code.now.width →
        (is ≡ true) ↔ FitsNext code.now.count code.now.width (terms_of net.now.graph under.now) at (option_map (bit_of net.now.graph) node)) }
{
    if fits_cell(alloc, net, table, code, under, at, node, node)? {
        return Ok(true);
    }
    let Some(sides) = operands_of(net, node) else {
        return Ok(false);
    };
    let one = origin(net, sides.one);
    if fits_cell(alloc, net, table, code, under, at, node, one)? {
        return Ok(true);
    }
    let another = origin(net, sides.another);
    fits_cell(alloc, net, table, code, under, at, node, another)
}

/// Whether it does so by the cell of `bit`.
fn fits_cell(
    alloc: Global,
    net: &Net,
    table: &Table,
    code: &Code,
    under: &[Term],
    at: u8,
    node: Option<Node>,
    bit: Option<Node>,
) -> Result<bool, NoMemory>
    ensures { IfOk result (λ is. IsPlain net.now.graph → ShowsNet net.now [] table.now → IsCodeIn net.now.graph code.now → AreTermsIn net.now.graph under.now →
        IsIn net.now.graph node → IsIn net.now.graph bit → at < code.now.width →
        (is ≡ true) ↔ FitsBy net.now.graph code.now.count code.now.width (terms_of net.now.graph under.now) at (option_map (bit_of net.now.graph) node) bit) }
{
    let Some(bit) = bit else {
        return Ok(false);
    };
    if !fits(net, table, Word::Cell(bit.cell), code.width, at, node) {
        return Ok(false);
    }
    counts_under(alloc, net, table, code, under, bit.cell)
}

/// Whether the bits of a sum or of a choice count the code's register under these terms.
fn counts_under(
    alloc: Global,
    net: &Net,
    table: &Table,
    code: &Code,
    under: &[Term],
    cell: CellId,
) -> Result<bool, NoMemory>
    ensures { IfOk result (λ is. IsPlain net.now.graph → ShowsNet net.now [] table.now → IsCodeIn net.now.graph code.now → AreTermsIn net.now.graph under.now →
        cell.0 < length net.now.graph.cells →
        (is ≡ true) ↔ IsNextCount code.now.count code.now.width (terms_of net.now.graph under.now) (tree_of net.now.graph cell)) }
{
    if net.graph.width(cell) < code.width || !is_sum_or_choice(net, cell) {
        return Ok(false);
    }
    match counted(alloc, net, table, code.count, code.width, cell)? {
        Some(terms) => Ok(have_one_set(under, terms.as_slice())),
        None => Ok(false),
    }
}

fn is_sum_or_choice(net: &Net, cell: CellId) -> bool
    ensures { IsPlain net.now.graph → cell.0 < length net.now.graph.cells → (result ≡ true) ↔ IsSumOrChoice (tree_of net.now.graph cell) }
{
    match net.graph.cell(cell) {
        Cell::Add { .. } => true,
        Cell::Mux { .. } => true,
        _ => false,
    }
}
