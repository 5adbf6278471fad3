//! Trees of parts that were read.
ghost use Rattle.std.specs.Prelude.{◌≡◌, suc, max, map, IfOk};
ghost use Rattle.verilog_exprs.specs.Selected.{selection_of};
ghost use Rattle.verilog_reading.specs.ExprTree.{tree_of, trees_of, height, heights, number, name, unary, binary, choice, join, repeat, paren};
ghost use Rattle.verilog_reading.specs.Reader.{selected, select_height};

use cdc_base::{List, Name, NoMemory, NumberSize};
use std::alloc::Global;
use verilog_ast::{BinaryOp, Expr, PartKind, UnaryOp};

/// The end of a part that stands to the right, and the kind of part that it ends.
#[derive(Drop)]
pub struct PartEnd {
    pub kind: PartKind,
    pub expr: Expr,
}

pub fn boxed(alloc: Global, expr: Expr) -> Result<Box<Expr>, NoMemory>
    ensures { IfOk result (λ b. b.value ≡ expr) }
{
    match Box::new(alloc, expr) {
        Ok(boxed) => Ok(boxed),
        Err(_) => Err(NoMemory),
    }
}

pub fn make_number(value: u64, width: u8, size: NumberSize) -> Expr
    ensures tree { tree_of result ≡ number value width size }
    ensures tall { height (tree_of result) ≡ 0 }
{
    Expr::Number { value, width, size }
}

pub fn make_name(text: Name) -> Expr
    ensures tree { tree_of result ≡ name text }
    ensures tall { height (tree_of result) ≡ 0 }
{
    Expr::Ident(text)
}

pub fn make_unary(alloc: Global, op: UnaryOp, a: Expr) -> Result<Expr, NoMemory>
    ensures tree { IfOk result (λ e. tree_of e ≡ unary op (tree_of a)) }
    ensures tall { IfOk result (λ e. height (tree_of e) ≡ suc (height (tree_of a))) }
{
    Ok(Expr::Unary {
        op,
        a: boxed(alloc, a)?,
    })
}

pub fn make_binary(alloc: Global, op: BinaryOp, a: Expr, b: Expr) -> Result<Expr, NoMemory>
    ensures tree { IfOk result (λ e. tree_of e ≡ binary op (tree_of a) (tree_of b)) }
    ensures tall { IfOk result (λ e. height (tree_of e) ≡ suc (max (height (tree_of a)) (height (tree_of b)))) }
{
    Ok(Expr::Binary {
        op,
        a: boxed(alloc, a)?,
        b: boxed(alloc, b)?,
    })
}

pub fn make_choice(alloc: Global, cond: Expr, yes: Expr, other: Expr) -> Result<Expr, NoMemory>
    ensures tree { IfOk result (λ e. tree_of e ≡ choice (tree_of cond) (tree_of yes) (tree_of other)) }
    ensures tall { IfOk result (λ e. height (tree_of e) ≡ suc (max (height (tree_of cond)) (max (height (tree_of yes)) (height (tree_of other))))) }
{
    Ok(Expr::Choose {
        cond: boxed(alloc, cond)?,
        yes: boxed(alloc, yes)?,
        other: boxed(alloc, other)?,
    })
}

pub fn make_paren(alloc: Global, a: Expr) -> Result<Expr, NoMemory>
    ensures tree { IfOk result (λ e. tree_of e ≡ paren (tree_of a)) }
    ensures tall { IfOk result (λ e. height (tree_of e) ≡ suc (height (tree_of a))) }
{
    Ok(Expr::Paren(boxed(alloc, a)?))
}

pub fn make_join(parts: List<Expr>) -> Expr
    ensures tree { tree_of result ≡ join (trees_of (map tree_of parts)) }
    ensures tall { height (tree_of result) ≡ heights (trees_of (map tree_of parts)) }
{
    Expr::Join(parts)
}

pub fn make_repeat(alloc: Global, count: Expr, parts: List<Expr>) -> Result<Expr, NoMemory>
    ensures tree { IfOk result (λ e. tree_of e ≡ repeat (tree_of count) (trees_of (map tree_of parts))) }
    ensures tall { IfOk result (λ e. height (tree_of e) ≡ max (suc (height (tree_of count))) (heights (trees_of (map tree_of parts)))) }
{
    Ok(Expr::Repeat {
        count: boxed(alloc, count)?,
        parts,
    })
}

/// The bit at the index, or the part from the index to `right`.
pub fn make_select(
    alloc: Global,
    name: Name,
    index: Expr,
    right: Option<PartEnd>,
) -> Result<Expr, NoMemory>
    ensures tree { IfOk result (λ e. tree_of e ≡ selected name (selection_of index right)) }
    ensures tall { IfOk result (λ e. height (tree_of e) ≡ suc (select_height (selection_of index right))) }
{
    let index = boxed(alloc, index)?;
    match right {
        None => Ok(Expr::At { name, index }),
        Some(right) => Ok(Expr::Part {
            name,
            kind: right.kind,
            left: index,
            right: boxed(alloc, right.expr)?,
        }),
    }
}
