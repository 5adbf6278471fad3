//! Which bits make a bit of a cell.
ghost use Rattle.std.specs.Prelude.{◌≡◌, ◌+◌, ◌≤◌, [], ◌∷◌, ◌++◌, slice_get};
ghost use Rattle.cell_graph.specs.Cells.{cell_at};
ghost use Rattle.cell_graph.specs.Feeds.{node, bit_or_zero, moved_up, moved_down, constant, passed_by, pairs_from, all_bits, feeds_of};

use crate::cell::{Cell, CellId, Node};
use crate::graph::Graph;

/// What a bit of a cell is, where the cell only moves bits.
#[derive(Clone, Copy, PartialEq, Eq, Debug, Drop)]
pub enum Passed {
    /// Another bit.
    Bit(Node),
    /// Zero.
    Zero,
    /// The cell does more than to move bits.
    Other,
}

impl Graph {
    /// The bit that a concatenation, a slice, an extension or a shift by a constant passes.
    pub fn passed(&self, node: Node) -> Passed
        ensures { result ≡ passed_by self.now (cell_at self.now node.cell) node.at }
    {
        let bit = node.at;
        match self.cell(node.cell) {
            Cell::Concat { high, low } => {
                let width = self.width(low);
                if bit < width {
                    bit_of(low, bit)
                } else {
                    bit_of(high, bit - width)
                }
            }
            Cell::Slice { a, at, .. } => self.bit_or_zero(a, u128::from(at) + u128::from(bit)),
            Cell::Extend { a, .. } => self.bit_or_zero(a, u128::from(bit)),
            Cell::Shl { a, by } => match self.constant(by) {
                Some(amount) => self.shifted_left(a, bit, amount),
                None => Passed::Other,
            },
            Cell::Shr { a, by } => match self.constant(by) {
                Some(amount) => self.shifted_right(a, bit, amount),
                None => Passed::Other,
            },
            _ => Passed::Other,
        }
    }

    /// Bit `bit` of `a` moved up by `amount` places.
    pub fn shifted_left(&self, a: CellId, bit: u8, amount: u64) -> Passed
        ensures { result ≡ moved_up self.now a bit amount }
    {
        match u64::from(bit).checked_sub(amount) {
            Some(from) => self.bit_or_zero(a, u128::from(from)),
            None => Passed::Zero,
        }
    }

    /// Bit `bit` of `a` moved down by `amount` places.
    pub fn shifted_right(&self, a: CellId, bit: u8, amount: u64) -> Passed
        ensures { result ≡ moved_down self.now a bit amount }
    {
        self.bit_or_zero(a, u128::from(bit) + u128::from(amount))
    }

    /// Feed number `n`, from 0, of a bit of the cell; None where the bit has no such feed.
    pub fn feeds(&self, id: CellId, bit: u8, n: u32) -> Option<Node>
        ensures { result ≡ slice_get (feeds_of self.now (cell_at self.now id) bit) n }
    {
        match self.cell(id) {
            Cell::Var { .. } | Cell::Const { .. } => None,
            Cell::Not { a } => only(Node { cell: a, at: bit }, n),
            Cell::And { a, b } | Cell::Or { a, b } | Cell::Xor { a, b } => paired(a, b, bit, n),
            Cell::Add { a, b } | Cell::Sub { a, b } => pairs(a, b, u32::from(bit) + 1, n),
            Cell::Eq { a, b } | Cell::Lt { a, b } => pairs(a, b, u32::from(self.width(a)), n),
            Cell::Shl { a, by } | Cell::Shr { a, by } => match self.passed(Node {
                cell: id,
                at: bit,
            }) {
                Passed::Bit(node) => only(node, n),
                Passed::Zero => None,
                Passed::Other => self.bits_of_both(a, by, n),
            },
            Cell::Mux { cond, yes, other } => match n {
                0 => Some(Node { cell: cond, at: 0 }),
                1 => Some(Node { cell: yes, at: bit }),
                2 => Some(Node {
                    cell: other,
                    at: bit,
                }),
                _ => None,
            },
            Cell::Concat { .. } | Cell::Slice { .. } | Cell::Extend { .. } => {
                match self.passed(Node { cell: id, at: bit }) {
                    Passed::Bit(node) => only(node, n),
                    _ => None,
                }
            }
            Cell::Reduce { a, .. } => self.bit_number(a, n),
        }
    }

    /// The value of a cell that is a constant.
    fn constant(&self, id: CellId) -> Option<u64>
        ensures { result ≡ constant (cell_at self.now id) }
    {
        match self.cell(id) {
            Cell::Const { value, .. } => Some(value),
            _ => None,
        }
    }

    /// Bit `at` of the cell, and zero above its width.
    fn bit_or_zero(&self, cell: CellId, at: u128) -> Passed
        ensures { result ≡ bit_or_zero self.now cell at }
    {
        if at < u128::from(self.width(cell)) {
            bit_of(cell, at as u8)
        } else {
            Passed::Zero
        }
    }

    /// Bit number `n` of the cell.
    fn bit_number(&self, cell: CellId, n: u32) -> Option<Node>
        ensures { result ≡ slice_get (all_bits self.now cell) n }
    {
        if n < u32::from(self.width(cell)) {
            Some(Node { cell, at: n as u8 })
        } else {
            None
        }
    }

    /// All bits of `a`, and then all bits of `b`.
    fn bits_of_both(&self, a: CellId, b: CellId, n: u32) -> Option<Node>
        ensures { result ≡ slice_get (all_bits self.now a ++ all_bits self.now b) n }
    {
        let width = u32::from(self.width(a));
        if n < width {
            self.bit_number(a, n)
        } else {
            self.bit_number(b, n - width)
        }
    }
}

fn bit_of(cell: CellId, at: u8) -> Passed
    ensures { result ≡ Passed.Bit (node cell at) }
{
    Passed::Bit(Node { cell, at })
}

fn only(feed: Node, n: u32) -> Option<Node>
    ensures { result ≡ slice_get (feed ∷ []) n }
{
    if n == 0 { Some(feed) } else { None }
}

/// A bit of `a`, and then the same bit of `b`.
fn paired(a: CellId, b: CellId, bit: u8, n: u32) -> Option<Node>
    ensures { result ≡ slice_get (node a bit ∷ node b bit ∷ []) n }
{
    match n {
        0 => Some(Node { cell: a, at: bit }),
        1 => Some(Node { cell: b, at: bit }),
        _ => None,
    }
}

/// The lowest `count` bits of `a` and `b`, in pairs.
fn pairs(a: CellId, b: CellId, count: u32, n: u32) -> Option<Node>
    requires { count ≤ 256 }
    ensures { result ≡ slice_get (pairs_from a b 0 count) n }
{
    if n / 2 >= count {
        return None;
    }
    let at = (n / 2) as u8;
    if n % 2 == 0 {
        Some(Node { cell: a, at })
    } else {
        Some(Node { cell: b, at })
    }
}
