//! The source of a netlist, as its text reads: modules, their items, statements, targets and expressions.
#![tactic(auto)]

pub mod depths;

use cdc_base::{List, Name, NumberSize, Place};
pub use depths::depth;

#[derive(Drop)]
pub struct Source {
    pub modules: List<Module>,
}

/// A module. `ansi` tells whether its header declares its ports.
#[derive(Drop)]
pub struct Module {
    pub place: Place,
    pub name: Name,
    pub ansi: bool,
    pub params: List<ParamDecl>,
    pub ports: List<Port>,
    pub items: List<Item>,
}

/// An entry of a module's header: in the old style a bare name, in the ANSI style a declaration of that name.
#[derive(Drop)]
pub struct Port {
    pub name: Name,
    pub decl: Option<Decl>,
}

/// A `parameter`, or a `localparam`, which no instance overrides.
#[derive(Drop)]
pub struct ParamDecl {
    pub local: bool,
    pub range: Option<Range>,
    pub name: Name,
    pub value: Expr,
}

#[derive(Drop)]
pub struct Range {
    pub left: Expr,
    pub right: Expr,
}

/// A declaration of one name. `init` is the expression behind `=`, and `array` the range behind the name.
#[derive(Drop)]
pub struct Decl {
    pub kind: DeclKind,
    pub range: Option<Range>,
    pub name: Name,
    pub init: Option<Expr>,
    pub array: Option<Range>,
}

#[derive(Clone, Copy, PartialEq, Eq, Debug, Drop)]
pub enum DeclKind {
    Input,
    Output,
    OutputReg,
    Wire,
    Reg,
}

/// One item of a module. Each entry of a comma list is an item of its own, with the place of the list's first word.
#[derive(Drop)]
pub struct Item {
    pub place: Place,
    pub body: ItemBody,
}

#[derive(Drop)]
pub enum ItemBody {
    Param(ParamDecl),
    Decl(Decl),
    Assign {
        target: Target,
        value: Expr,
    },
    Gate {
        kind: GateKind,
        terminals: List<Expr>,
    },
    Instance {
        module: Name,
        params: Conns,
        name: Name,
        ports: Conns,
    },
    Always {
        event: Event,
        body: Stmt,
    },
    Initial(Stmt),
}

#[derive(Clone, Copy, PartialEq, Eq, Debug, Drop)]
pub enum GateKind {
    And,
    Nand,
    Or,
    Nor,
    Xor,
    Xnor,
    Buf,
    Not,
}

/// Connections of an instance, or overrides of its parameters.
#[derive(Drop)]
pub enum Conns {
    Ordered(List<Option<Expr>>),
    Named(List<Conn>),
}

#[derive(Drop)]
pub struct Conn {
    pub name: Name,
    pub value: Option<Expr>,
}

/// What an `always` waits for: anything that it reads, or edges.
#[derive(Drop)]
pub enum Event {
    Star,
    Edges(List<Edge>),
}

#[derive(Drop)]
pub struct Edge {
    pub kind: EdgeKind,
    pub name: Name,
}

#[derive(Clone, Copy, PartialEq, Eq, Debug, Drop)]
pub enum EdgeKind {
    Pos,
    Neg,
    Level,
}

/// A statement. Only one that doesn't block has a `delay`. `masks` tells a `casez`, whose labels may be masks; the
/// `default` stands apart from the items, wherever the text has it.
#[derive(Drop)]
#[cycle(stmt)]
pub enum Stmt {
    Null,
    Set {
        blocking: bool,
        delay: Option<Delay>,
        target: Target,
        value: Expr,
    },
    If {
        cond: Expr,
        yes: Box<Stmt>,
        other: Option<Box<Stmt>>,
    },
    Case {
        masks: bool,
        subject: Expr,
        items: List<CaseItem>,
        default: Option<Box<Stmt>>,
    },
    Block(List<Stmt>),
}

/// The delay of an assignment, as it is written.
#[derive(Drop)]
pub enum Delay {
    Number(u64),
    Name(Name),
}

#[derive(Drop)]
#[cycle(stmt)]
pub struct CaseItem {
    pub labels: List<Label>,
    pub body: Stmt,
}

/// What a subject is compared with: a value, or a mask, whose `value` is 0 at the bits of `open`.
#[derive(Drop)]
pub enum Label {
    Value(Expr),
    Mask { value: u64, open: u64, width: u8 },
}

/// What stands between the brackets of a part: `[left:right]`, `[left +: right]`, `[left -: right]`.
#[derive(Clone, Copy, PartialEq, Eq, Debug, Drop)]
pub enum PartKind {
    Range,
    Up,
    Down,
}

/// What is assigned: a whole name, an index or a part of it, or a concatenation, whose first part has the highest bits.
#[derive(Drop)]
pub enum Target {
    Whole(Name),
    At {
        name: Name,
        index: Expr,
    },
    Part {
        name: Name,
        kind: PartKind,
        left: Expr,
        right: Expr,
    },
    Join(List<Target>),
}

/// An expression. `size` tells how a number's size is written. `Paren` is a pair of parentheses.
#[derive(Drop)]
pub enum Expr {
    Number {
        value: u64,
        width: u8,
        size: NumberSize,
    },
    Ident(Name),
    At {
        name: Name,
        index: Box<Expr>,
    },
    Part {
        name: Name,
        kind: PartKind,
        left: Box<Expr>,
        right: Box<Expr>,
    },
    Unary {
        op: UnaryOp,
        a: Box<Expr>,
    },
    Binary {
        op: BinaryOp,
        a: Box<Expr>,
        b: Box<Expr>,
    },
    Choose {
        cond: Box<Expr>,
        yes: Box<Expr>,
        other: Box<Expr>,
    },
    Join(List<Expr>),
    Repeat {
        count: Box<Expr>,
        parts: List<Expr>,
    },
    Paren(Box<Expr>),
}

/// `- ~ ! & | ^ ~& ~| ~^`, in this order.
#[derive(Clone, Copy, PartialEq, Eq, Debug, Drop)]
pub enum UnaryOp {
    Minus,
    Not,
    LogicNot,
    And,
    Or,
    Xor,
    Nand,
    Nor,
    Xnor,
}

/// `* / % + - << >> < <= > >= == != & ^ ~^ | && ||`, in this order.
#[derive(Clone, Copy, PartialEq, Eq, Debug, Drop)]
pub enum BinaryOp {
    Mul,
    Div,
    Mod,
    Add,
    Sub,
    Shl,
    Shr,
    Lt,
    Le,
    Gt,
    Ge,
    Eq,
    Ne,
    And,
    Xor,
    Xnor,
    Or,
    LogicAnd,
    LogicOr,
}
