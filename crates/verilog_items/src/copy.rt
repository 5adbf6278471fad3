//! Copies of trees: each entry of a list owns what the list says once for all of them.
ghost use Rattle.std.specs.Prelude.{◌≡◌, map, IfOk};
ghost use Rattle.verilog_reading.specs.ExprTree.{tree_of};
ghost use Rattle.verilog_reading.specs.SourceTree.{maybe, bounds_of, conn_of, conns_of};

use cdc_base::{List, NoMemory};
use std::alloc::Global;
use verilog_ast::{Conn, Conns, Expr, Range};
use verilog_exprs::make::{
    PartEnd, make_binary, make_choice, make_join, make_name, make_number, make_paren, make_repeat,
    make_select, make_unary,
};

#[cycle(copy)]
pub fn copy_expr(alloc: Global, expr: &Expr) -> Result<Expr, NoMemory>
    ensures { IfOk result (λ e. tree_of e ≡ tree_of expr.now) }
{
    match expr {
        Expr::Number { value, width, size } => Ok(make_number(*value, *width, *size)),
        Expr::Ident(name) => Ok(make_name(name.copy(alloc)?)),
        Expr::At { name, index } => {
            let index = copy_expr(alloc, index)?;
            make_select(alloc, name.copy(alloc)?, index, None)
        }
        Expr::Part {
            name,
            kind,
            left,
            right,
        } => {
            let left = copy_expr(alloc, left)?;
            let end = PartEnd {
                kind: *kind,
                expr: copy_expr(alloc, right)?,
            };
            make_select(alloc, name.copy(alloc)?, left, Some(end))
        }
        Expr::Unary { op, a } => make_unary(alloc, *op, copy_expr(alloc, a)?),
        Expr::Binary { op, a, b } => {
            let a = copy_expr(alloc, a)?;
            make_binary(alloc, *op, a, copy_expr(alloc, b)?)
        }
        Expr::Choose { cond, yes, other } => {
            let cond = copy_expr(alloc, cond)?;
            let yes = copy_expr(alloc, yes)?;
            make_choice(alloc, cond, yes, copy_expr(alloc, other)?)
        }
        Expr::Join(parts) => Ok(make_join(copy_exprs(alloc, parts.as_slice())?)),
        Expr::Repeat { count, parts } => {
            let count = copy_expr(alloc, count)?;
            make_repeat(alloc, count, copy_exprs(alloc, parts.as_slice())?)
        }
        Expr::Paren(a) => make_paren(alloc, copy_expr(alloc, a)?),
    }
}

#[cycle(copy)]
fn copy_exprs(alloc: Global, exprs: &[Expr]) -> Result<List<Expr>, NoMemory>
    ensures { IfOk result (λ es. map tree_of es ≡ map tree_of exprs.now) }
{
    let mut copies = List::new(alloc);
    for expr in exprs {
        copies.push(copy_expr(alloc, expr)?)?;
    }
    Ok(copies)
}

pub fn copy_range(alloc: Global, range: &Option<Range>) -> Result<Option<Range>, NoMemory>
    ensures { IfOk result (λ r. maybe bounds_of r ≡ maybe bounds_of range.now) }
{
    match range {
        None => Ok(None),
        Some(range) => Ok(Some(Range {
            left: copy_expr(alloc, &range.left)?,
            right: copy_expr(alloc, &range.right)?,
        })),
    }
}

fn copy_value(alloc: Global, value: &Option<Expr>) -> Result<Option<Expr>, NoMemory>
    ensures { IfOk result (λ e. maybe tree_of e ≡ maybe tree_of value.now) }
{
    match value {
        None => Ok(None),
        Some(value) => Ok(Some(copy_expr(alloc, value)?)),
    }
}

fn copy_ordered(alloc: Global, values: &[Option<Expr>]) -> Result<List<Option<Expr>>, NoMemory>
    ensures { IfOk result (λ es. map (maybe tree_of) es ≡ map (maybe tree_of) values.now) }
{
    let mut copies = List::new(alloc);
    for value in values {
        copies.push(copy_value(alloc, value)?)?;
    }
    Ok(copies)
}

fn copy_named(alloc: Global, conns: &[Conn]) -> Result<List<Conn>, NoMemory>
    ensures { IfOk result (λ cs. map conn_of cs ≡ map conn_of conns.now) }
{
    let mut copies = List::new(alloc);
    for conn in conns {
        copies.push(Conn {
            name: conn.name.copy(alloc)?,
            value: copy_value(alloc, &conn.value)?,
        })?;
    }
    Ok(copies)
}

pub fn copy_conns(alloc: Global, conns: &Conns) -> Result<Conns, NoMemory>
    ensures { IfOk result (λ c. conns_of c ≡ conns_of conns.now) }
{
    match conns {
        Conns::Ordered(values) => Ok(Conns::Ordered(copy_ordered(alloc, values.as_slice())?)),
        Conns::Named(conns) => Ok(Conns::Named(copy_named(alloc, conns.as_slice())?)),
    }
}
