//! Words of origins: own words, sums, choices and Gray codes.
ghost use Rattle.std.specs.Prelude.{◌≡◌, ◌↔◌, ◌⊎◌, ◌<◌, ◌≤◌, ◌+◌, ℕ, suc, true, Some, [], length, option_map};
ghost use Rattle.cell_graph.specs.declared.net.Net.{Net};
ghost use Rattle.cell_graph.specs.declared.cell.Cell.TheVariants.{Var};
ghost use Rattle.cell_graph.specs.Cells.{cell_at, cell_width, signal_width};
ghost use Rattle.cell_graph.specs.Origin.{origin as tree_origin};
ghost use Rattle.cell_graph.specs.Unfolded.{IsNodeOf, bit_of, tree_of};
ghost use Rattle.cdc_model.specs.Tables.{ShowsNet};
ghost use Rattle.cdc_model.specs.Word.{own_word, IsStepOfOne, IsZero, IsXorOf, IsTopOf, IsGrayWord};
ghost use Rattle.gray_pointer.specs.Words.{IsPlain, word_of, HasWord, IsIn, IsWhole, IsChoice, IsPlus, coded_word, coded_bit, HasCoded, AreSides, IsExclusive};

use crate::register::Register;
use cdc_model::view::known_value;
use cell_graph::{Cell, CellId, Net, Node};
use cofactor::{Table, origin};

/// Whether both are one bit, or both the zero bit.
pub fn are_same(one: Option<Node>, another: Option<Node>) -> bool
    ensures { (result ≡ true) ↔ (one ≡ another) }
{
    one == another
}

/// Whether the cell is the signal itself.
fn is_signal(net: &Net, cell: CellId, sig: u32) -> bool
    ensures { (result ≡ true) ↔ (cell_at net.now.graph cell ≡ Var sig) }
{
    match net.graph.cell(cell) {
        Cell::Var { sig: own } => own == sig,
        _ => false,
    }
}

/// The cell whose lowest bits are the origins of the lowest `width` bits of a cell.
fn whole_origin(net: &Net, cell: CellId, width: u8) -> Option<CellId>
    ensures { IsPlain net.now.graph → HasWord net.now.graph cell width → IsWhole net.now.graph cell width result }
{
    let whole = origin(net, Node { cell, at: 0 })?.cell;
    for at in 0..width {
        if !are_same(
            origin(net, Node { cell, at }),
            Some(Node { cell: whole, at }),
        ) {
            return None;
        }
    }
    Some(whole)
}

/// The two branches of a choice, and the origin of its condition.
#[derive(Clone, Copy, Debug, Drop)]
pub struct Choice {
    pub cond: Option<Node>,
    pub yes: CellId,
    pub other: CellId,
}

/// The multiplexer whose lowest bits a cell passes on.
pub fn choice_of(net: &Net, cell: CellId, width: u8) -> Option<Choice>
    ensures { IsPlain net.now.graph → HasWord net.now.graph cell width → IsChoice net.now.graph cell width result }
{
    let whole = whole_origin(net, cell, width)?;
    match net.graph.cell(whole) {
        Cell::Mux { cond, yes, other } => Some(Choice {
            cond: origin(net, Node { cell: cond, at: 0 }),
            yes,
            other,
        }),
        _ => None,
    }
}

/// Whether the cell passes on the register's own value.
pub fn is_own(net: &Net, cell: CellId, register: &Register) -> bool
    ensures { IsPlain net.now.graph → HasWord net.now.graph cell register.now.width → signal_width net.now.graph.signals register.now.sig ≡ register.now.width →
        (result ≡ true) ↔ (word_of net.now.graph cell register.now.width ≡ own_word register.now.sig register.now.width) }
{
    match whole_origin(net, cell, register.width) {
        Some(whole) => is_signal(net, whole, register.sig),
        None => false,
    }
}

/// Whether the cell passes on the register's own value plus 0 or 1: the sum with a word whose bits above the lowest
/// are known to be 0.
fn is_plus(net: &Net, table: &Table, cell: CellId, register: &Register) -> bool
    ensures { IsPlain net.now.graph → ShowsNet net.now [] table.now → HasWord net.now.graph cell register.now.width →
        signal_width net.now.graph.signals register.now.sig ≡ register.now.width →
        (result ≡ true) ↔ IsPlus register.now.sig register.now.width (word_of net.now.graph cell register.now.width) }
{
    let Some(whole) = whole_origin(net, cell, register.width) else {
        return false;
    };
    match net.graph.cell(whole) {
        Cell::Add { a, b } => {
            is_plus_of(net, table, a, b, register) || is_plus_of(net, table, b, a, register)
        }
        _ => false,
    }
}

/// Whether the cell passes on the register's own value, or that plus 0 or 1.
pub fn is_own_or_plus(net: &Net, table: &Table, cell: CellId, register: &Register) -> bool
    ensures { IsPlain net.now.graph → ShowsNet net.now [] table.now → HasWord net.now.graph cell register.now.width →
        signal_width net.now.graph.signals register.now.sig ≡ register.now.width →
        (result ≡ true) ↔ (word_of net.now.graph cell register.now.width ≡ own_word register.now.sig register.now.width)
        ⊎ IsPlus register.now.sig register.now.width (word_of net.now.graph cell register.now.width) }
{
    is_own(net, cell, register) || is_plus(net, table, cell, register)
}

/// Whether the one passes on the register's own value, and the other 0 or 1.
fn is_plus_of(net: &Net, table: &Table, one: CellId, step: CellId, register: &Register) -> bool
    ensures { IsPlain net.now.graph → ShowsNet net.now [] table.now → HasWord net.now.graph one register.now.width → HasWord net.now.graph step register.now.width →
        signal_width net.now.graph.signals register.now.sig ≡ register.now.width →
        (result ≡ true) ↔ (word_of net.now.graph one register.now.width ≡ own_word register.now.sig register.now.width)
        × IsStepOfOne (tree_of net.now.graph step) register.now.width }
{
    is_own(net, one, register) && is_step(table, step, register.width)
}

/// Whether all bits but the lowest are known to be 0.
fn is_step(table: &Table, cell: CellId, width: u8) -> bool
    ensures { (net : Net) → ShowsNet net [] table.now → HasWord net.graph cell width → (result ≡ true) ↔ IsStepOfOne (tree_of net.graph cell) width }
{
    for at in 1..width {
        if known_value(table, Node { cell, at }) != Some(false) {
            return false;
        }
    }
    true
}

/// A word whose code is looked for: what a cell passes on, or a register's own value.
#[derive(Clone, Copy, Debug, Drop)]
pub enum Coded {
    Cell(CellId),
    Own(u32),
}

impl Coded {
    /// Whether bit `at` of the word has this origin.
    fn has(self, net: &Net, at: u8, bit: Option<Node>) -> bool
        ensures { (w : ℕ) → IsPlain net.now.graph → HasCoded net.now.graph self w → at < w → IsIn net.now.graph bit →
            (result ≡ true) ↔ (coded_bit net.now.graph self w at ≡ option_map (bit_of net.now.graph) bit) }
    {
        match self {
            Coded::Cell(cell) => are_same(origin(net, Node { cell, at }), bit),
            Coded::Own(sig) => match bit {
                Some(node) => node.at == at && is_signal(net, node.cell, sig),
                None => false,
            },
        }
    }
}

/// Whether the cell passes on the Gray code of a word: each bit is the exclusive or of two neighbours of the word, and
/// the highest is the word's highest.
pub fn is_gray_code(net: &Net, table: &Table, cell: CellId, word: Coded, width: u8) -> bool
    ensures { IsPlain net.now.graph → ShowsNet net.now [] table.now → HasWord net.now.graph cell width → HasCoded net.now.graph word width →
        (result ≡ true) ↔ IsGrayWord (word_of net.now.graph cell width) (coded_word net.now.graph word width) }
{
    let top = width.saturating_sub(1);
    for at in 0..top {
        if !is_code_bit(net, cell, word, at) {
            return false;
        }
    }
    is_top_bit(net, table, cell, word, top)
}

/// The two operands' bits where the bit of a cell is that of an exclusive or.
#[derive(Clone, Copy, Debug, Drop)]
struct Sides {
    one: Node,
    another: Node,
}

fn sides_of(net: &Net, node: Node) -> Option<Sides>
    ensures { IsPlain net.now.graph → IsNodeOf net.now.graph node →
        AreSides net.now.graph (tree_origin (tree_of net.now.graph node.cell) node.at) result }
{
    let bit = origin(net, node)?;
    match net.graph.cell(bit.cell) {
        Cell::Xor { a, b } => Some(Sides {
            one: Node {
                cell: a,
                at: bit.at,
            },
            another: Node {
                cell: b,
                at: bit.at,
            },
        }),
        _ => None,
    }
}

/// The origins of the operands' bits where a bit is that of an exclusive or; None is the zero bit.
#[derive(Clone, Copy, Debug, Drop)]
pub struct Exclusive {
    pub one: Option<Node>,
    pub another: Option<Node>,
}

/// The operands of the exclusive or that bit `at` of the cell comes from.
pub fn exclusive_of(net: &Net, cell: CellId, at: u8) -> Option<Exclusive>
    ensures { IsPlain net.now.graph → cell.0 < length net.now.graph.cells → at < cell_width net.now.graph cell →
        IsExclusive net.now.graph (tree_origin (tree_of net.now.graph cell) at) result }
{
    let sides = sides_of(net, Node { cell, at })?;
    Some(Exclusive {
        one: origin(net, sides.one),
        another: origin(net, sides.another),
    })
}

fn is_code_bit(net: &Net, cell: CellId, word: Coded, at: u8) -> bool
    ensures { (w : ℕ) → w < 256 → IsPlain net.now.graph → HasWord net.now.graph cell w → HasCoded net.now.graph word w → suc at < w →
        (result ≡ true) ↔ IsXorOf (tree_origin (tree_of net.now.graph cell) at) (coded_bit net.now.graph word w at) (coded_bit net.now.graph word w (suc at)) }
{
    let Some(Exclusive { one, another }) = exclusive_of(net, cell, at) else {
        return false;
    };
    let above = at.saturating_add(1);
    (word.has(net, at, one) && word.has(net, above, another))
        || (word.has(net, above, one) && word.has(net, at, another))
}

fn is_top_bit(net: &Net, table: &Table, cell: CellId, word: Coded, at: u8) -> bool
    ensures { (w : ℕ) → IsPlain net.now.graph → ShowsNet net.now [] table.now → HasWord net.now.graph cell w → HasCoded net.now.graph word w → at < w →
        (result ≡ true) ↔ IsTopOf (tree_origin (tree_of net.now.graph cell) at) (coded_bit net.now.graph word w at) }
{
    let node = Node { cell, at };
    if word.has(net, at, origin(net, node)) {
        return true;
    }
    let Some(Sides { one, another }) = sides_of(net, node) else {
        return false;
    };
    is_beside_zero(net, table, one, another, word, at)
        || is_beside_zero(net, table, another, one, word, at)
}

/// Whether one side is bit `at` of the word, and the other is zero.
fn is_beside_zero(net: &Net, table: &Table, one: Node, another: Node, word: Coded, at: u8) -> bool
    ensures { (w : ℕ) → IsPlain net.now.graph → ShowsNet net.now [] table.now → IsNodeOf net.now.graph one → IsNodeOf net.now.graph another →
        HasCoded net.now.graph word w → at < w →
        (result ≡ true) ↔ (tree_origin (tree_of net.now.graph one.cell) one.at ≡ coded_bit net.now.graph word w at) × IsZero (tree_of net.now.graph another.cell) another.at }
{
    word.has(net, at, origin(net, one)) && is_zero(net, table, another)
}

/// Whether the node is the zero bit, or known to be 0.
fn is_zero(net: &Net, table: &Table, node: Node) -> bool
    ensures { IsPlain net.now.graph → ShowsNet net.now [] table.now → IsNodeOf net.now.graph node →
        (result ≡ true) ↔ IsZero (tree_of net.now.graph node.cell) node.at }
{
    origin(net, node).is_none() || known_value(table, node) == Some(false)
}
