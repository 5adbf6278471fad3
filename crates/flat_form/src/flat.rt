//! The form of a flat design. Signals are numbered by their place in the list of signals, and `width` counts the bits
//! of an expression's own size.
use cdc_base::{List, Signal};
use verilog_ast::BinaryOp;

/// A design without instances. `outputs` are the outputs of the top.
#[derive(Drop)]
pub struct Flat {
    pub signals: List<Signal>,
    pub assigns: List<FlatAssign>,
    pub combs: List<FlatComb>,
    pub clocked: List<FlatClocked>,
    pub outputs: List<u32>,
}

#[derive(Drop)]
pub struct FlatAssign {
    pub target: FTarget,
    pub value: FExpr,
}

/// A process that runs whenever something that it reads changes.
#[derive(Drop)]
pub struct FlatComb {
    pub body: FStmt,
}

/// A process that runs at the rising edges of the signal `clock`.
#[derive(Drop)]
pub struct FlatClocked {
    pub clock: u32,
    pub body: FStmt,
}

/// What the reset of a clocked process tells of its drivers: the signal of its second edge, and the first branch of its
/// reset form, or `Null`.
#[derive(Drop)]
pub struct FlatReset {
    pub edge: Option<u32>,
    pub branch: FStmt,
}

/// An expression. A `Number` stands for a number, a parameter, a maximal whole expression or a reset; a `Read` for a
/// whole signal or a constant select, whose lowest bit is `at`; an `At` has a variable index; a `Gate` folds its inputs of
/// one bit each from the left.
#[derive(Drop)]
pub enum FExpr {
    Number {
        value: u64,
        width: u8,
    },
    Read {
        sig: u32,
        at: u8,
        width: u8,
    },
    At {
        sig: u32,
        index: Box<FExpr>,
        width: u8,
    },
    Unary {
        op: FUnaryOp,
        a: Box<FExpr>,
        width: u8,
    },
    Binary {
        op: BinaryOp,
        a: Box<FExpr>,
        b: Box<FExpr>,
        width: u8,
    },
    Choose {
        cond: Box<FExpr>,
        yes: Box<FExpr>,
        other: Box<FExpr>,
        width: u8,
    },
    Gate {
        op: BinaryOp,
        inputs: List<FExpr>,
    },
    Join {
        parts: List<FExpr>,
        width: u8,
    },
    Repeat {
        count: u8,
        parts: List<FExpr>,
        width: u8,
    },
}

/// `~ ! & | ^ ~& ~| ~^`, in this order. The unary `-` stands as a difference from 0.
#[derive(Clone, Copy, PartialEq, Eq, Debug, Drop)]
pub enum FUnaryOp {
    Not,
    LogicNot,
    And,
    Or,
    Xor,
    Nand,
    Nor,
    Xnor,
}

/// A target. `Part` is a constant select, whose lowest bit is `at`.
#[derive(Drop)]
pub enum FTarget {
    Whole { sig: u32 },
    At { sig: u32, index: FExpr },
    Part { sig: u32, at: u8, width: u8 },
    Join(List<FTarget>),
}

#[derive(Drop)]
#[cycle(flat_stmt)]
pub enum FStmt {
    Null,
    Set {
        blocking: bool,
        target: FTarget,
        value: FExpr,
    },
    If {
        cond: FExpr,
        yes: Box<FStmt>,
        other: Option<Box<FStmt>>,
    },
    Case {
        subject: FExpr,
        items: List<FCaseItem>,
        default: Option<Box<FStmt>>,
    },
    Block(List<FStmt>),
}

#[derive(Drop)]
#[cycle(flat_stmt)]
pub struct FCaseItem {
    pub labels: List<FExpr>,
    pub body: FStmt,
}
