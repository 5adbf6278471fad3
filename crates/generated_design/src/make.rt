//! Small pieces of a source: names, declarations, statements and processes.
ghost use Rattle.std.specs.Prelude.{◌≡◌, map, codes, None, Some, Option, IfOk};
ghost use Rattle.verilog_reading.specs.ExprTree.{number, name as named, binary, tree_of};
ghost use Rattle.verilog_reading.specs.SourceTree.{bounds_of, item_of, maybe, port_of};
ghost use Rattle.verilog_reading.specs.StmtTree.{stmt_tree_of};
ghost use Rattle.generated_design.specs.Pieces.{signal, flop, plain, byte, bit_item, byte_item, takes, clocked, input_port};

use cdc_base::{List, Name, NoMemory, NumberSize, Place};
use std::alloc::Global;
use verilog_ast::{
    BinaryOp, Decl, DeclKind, Edge, EdgeKind, Event, Expr, Item, ItemBody, Port, Range, Stmt,
    Target,
};

/// Nothing of the generated source stands in a text.
pub const NOWHERE: Place = Place { line: 1, column: 1 };

pub fn boxed<T: Drop>(alloc: Global, value: T) -> Result<Box<T>, NoMemory>
    ensures { IfOk result (λ b. b.value ≡ value) }
{
    match Box::new(alloc, value) {
        Ok(made) => Ok(made),
        Err(_) => Err(NoMemory),
    }
}

/// The name of a channel's signal, as `r0`.
pub fn name(alloc: Global, letter: &str, channel: u32) -> Result<Name, NoMemory>
    ensures { IfOk result (λ name. name ≡ signal letter.now channel) }
{
    match format!(in alloc; "{letter}{channel}") {
        Ok(text) => Name::from_text(alloc, text.as_str()),
        Err(_) => Err(NoMemory),
    }
}

/// The name of a flop of a channel's chain, as `s0_1`.
pub fn flop(alloc: Global, letter: &str, channel: u32, place: u32) -> Result<Name, NoMemory>
    ensures { IfOk result (λ name. name ≡ flop letter.now channel place) }
{
    match format!(in alloc; "{letter}{channel}_{place}") {
        Ok(text) => Name::from_text(alloc, text.as_str()),
        Err(_) => Err(NoMemory),
    }
}

fn plain(value: u64) -> Expr
    ensures { tree_of result ≡ plain value }
{
    Expr::Number {
        value,
        width: 32,
        size: NumberSize::Plain,
    }
}

/// `[7:0]`
pub fn byte_range() -> Range
    ensures { bounds_of result ≡ byte }
{
    Range {
        left: plain(7),
        right: plain(0),
    }
}

fn item(body: ItemBody) -> Item
    ensures { (result.body ≡ body) × (result.place ≡ NOWHERE) }
{
    Item {
        place: NOWHERE,
        body,
    }
}

/// `reg NAME = 0;`
pub fn bit_register(name: Name) -> Item
    ensures { item_of result ≡ bit_item name }
{
    item(ItemBody::Decl(Decl {
        kind: DeclKind::Reg,
        range: None,
        name,
        init: Some(plain(0)),
        array: None,
    }))
}

/// `reg [7:0] NAME;`
pub fn byte_register(name: Name) -> Item
    ensures { item_of result ≡ byte_item name }
{
    item(ItemBody::Decl(Decl {
        kind: DeclKind::Reg,
        range: Some(byte_range()),
        name,
        init: None,
        array: None,
    }))
}

/// `TARGET <= VALUE;`
pub fn takes(target: Name, value: Expr) -> Stmt
    ensures { stmt_tree_of result ≡ takes target (tree_of value) }
{
    Stmt::Set {
        blocking: false,
        delay: None,
        target: Target::Whole(target),
        value,
    }
}

pub fn binary(alloc: Global, op: BinaryOp, a: Expr, b: Expr) -> Result<Expr, NoMemory>
    ensures { IfOk result (λ made. tree_of made ≡ binary op (tree_of a) (tree_of b)) }
{
    let a = boxed(alloc, a)?;
    let b = boxed(alloc, b)?;
    Ok(Expr::Binary { op, a, b })
}

/// `always @(posedge CLOCK) begin .. end`
pub fn process(alloc: Global, clock: &str, steps: List<Stmt>) -> Result<Item, NoMemory>
    ensures { IfOk result (λ made. item_of made ≡ clocked clock.now (map stmt_tree_of steps)) }
{
    let mut edges = List::new(alloc);
    edges.push(Edge {
        kind: EdgeKind::Pos,
        name: Name::from_text(alloc, clock)?,
    })?;
    Ok(item(ItemBody::Always {
        event: Event::Edges(edges),
        body: Stmt::Block(steps),
    }))
}

/// `input NAME`, with its range.
pub fn port(alloc: Global, text: &str, range: Option<Range>) -> Result<Port, NoMemory>
    ensures { IfOk result (λ made. port_of made ≡ input_port text.now (maybe bounds_of range)) }
{
    let name = Name::from_text(alloc, text)?;
    let copied = name.copy(alloc)?;
    Ok(Port {
        name,
        decl: Some(Decl {
            kind: DeclKind::Input,
            range,
            name: copied,
            init: None,
            array: None,
        }),
    })
}
