//! The kinds of cells.

/// A cell of a graph, by its place.
#[derive(Clone, Copy, PartialEq, Eq, PartialOrd, Ord, Hash, Debug, Drop)]
pub struct CellId(pub u32);

#[derive(Clone, Copy, PartialEq, Eq, PartialOrd, Ord, Hash, Debug, Drop)]
pub enum ReduceKind {
    And,
    Or,
    Xor,
}

/// A word of 1 to 64 bits. `And`, `Or`, `Xor`, `Add` and `Sub` have two operands of their own width; `Eq` and `Lt` two
/// of one width, and 1 bit; `Shl` and `Shr` the width of `a`; `Mux` a condition of 1 bit and two branches of its own
/// width; `Concat` the sum of both; `Slice` the bits of `a` from `at` on; `Extend` is `a` with zeros above; `Reduce`
/// has 1 bit.
#[derive(Clone, Copy, PartialEq, Eq, PartialOrd, Ord, Hash, Debug, Drop)]
pub enum Cell {
    Var {
        sig: u32,
    },
    Const {
        width: u8,
        value: u64,
    },
    Not {
        a: CellId,
    },
    And {
        a: CellId,
        b: CellId,
    },
    Or {
        a: CellId,
        b: CellId,
    },
    Xor {
        a: CellId,
        b: CellId,
    },
    Add {
        a: CellId,
        b: CellId,
    },
    Sub {
        a: CellId,
        b: CellId,
    },
    Eq {
        a: CellId,
        b: CellId,
    },
    Lt {
        a: CellId,
        b: CellId,
    },
    Shl {
        a: CellId,
        by: CellId,
    },
    Shr {
        a: CellId,
        by: CellId,
    },
    Mux {
        cond: CellId,
        yes: CellId,
        other: CellId,
    },
    Concat {
        high: CellId,
        low: CellId,
    },
    Slice {
        a: CellId,
        at: u8,
        width: u8,
    },
    Extend {
        a: CellId,
        width: u8,
    },
    Reduce {
        kind: ReduceKind,
        a: CellId,
    },
}

/// A bit of a cell. `at` 0 is the least significant bit.
#[derive(Clone, Copy, PartialEq, Eq, PartialOrd, Ord, Hash, Debug, Drop)]
pub struct Node {
    pub cell: CellId,
    pub at: u8,
}

/// A cell of a graph and its bits.
#[derive(Clone, Copy, Debug, Drop)]
pub(crate) struct Entry {
    pub(crate) cell: Cell,
    pub(crate) width: u8,
}
