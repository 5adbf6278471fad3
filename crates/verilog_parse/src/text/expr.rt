//! Expressions and targets as text.
ghost use Rattle.std.specs.Prelude.{IfOk, map};
ghost use Rattle.verilog_parse.specs.Texts.{printed_expr, printed_target};
ghost use Rattle.verilog_parse.specs.Printed.{Adds, with_commas};

use crate::text::spelling::{binary_mark, part_mark, unary_mark};
use crate::text::token::{put_comma, put_mark, put_name, put_number};
use cdc_base::NoMemory;
use std::alloc::Global;
use verilog_ast::{Expr, Target};
use verilog_lex::MarkKind;

#[cycle(put)]
pub fn put_expr(alloc: Global, out: &mut Vec<u8>, expr: &Expr) -> Result<(), NoMemory>
    ensures { IfOk result (λ _. Adds out.old.items (printed_expr expr.now) out.new.items) }
{
    match expr {
        Expr::Number { value, width, size } => put_number(alloc, out, *value, *width, *size),
        Expr::Ident(name) => put_name(out, name),
        Expr::At { name, index } => {
            put_name(out, name)?;
            put_mark(out, MarkKind::BracketOpen)?;
            put_expr(alloc, out, index)?;
            put_mark(out, MarkKind::BracketClose)
        }
        Expr::Part {
            name,
            kind,
            left,
            right,
        } => {
            put_name(out, name)?;
            put_mark(out, MarkKind::BracketOpen)?;
            put_expr(alloc, out, left)?;
            put_mark(out, part_mark(*kind))?;
            put_expr(alloc, out, right)?;
            put_mark(out, MarkKind::BracketClose)
        }
        Expr::Unary { op, a } => {
            put_mark(out, unary_mark(*op))?;
            put_expr(alloc, out, a)
        }
        Expr::Binary { op, a, b } => {
            put_expr(alloc, out, a)?;
            put_mark(out, binary_mark(*op))?;
            put_expr(alloc, out, b)
        }
        Expr::Choose { cond, yes, other } => {
            put_expr(alloc, out, cond)?;
            put_mark(out, MarkKind::Question)?;
            put_expr(alloc, out, yes)?;
            put_mark(out, MarkKind::Colon)?;
            put_expr(alloc, out, other)
        }
        Expr::Join(parts) => {
            put_mark(out, MarkKind::BraceOpen)?;
            put_exprs(alloc, out, parts.as_slice())?;
            put_mark(out, MarkKind::BraceClose)
        }
        Expr::Repeat { count, parts } => {
            put_mark(out, MarkKind::BraceOpen)?;
            put_expr(alloc, out, count)?;
            put_mark(out, MarkKind::BraceOpen)?;
            put_exprs(alloc, out, parts.as_slice())?;
            put_mark(out, MarkKind::BraceClose)?;
            put_mark(out, MarkKind::BraceClose)
        }
        Expr::Paren(a) => {
            put_mark(out, MarkKind::ParenOpen)?;
            put_expr(alloc, out, a)?;
            put_mark(out, MarkKind::ParenClose)
        }
    }
}

/// The expressions with commas between them.
#[cycle(put)]
pub fn put_exprs(alloc: Global, out: &mut Vec<u8>, exprs: &[Expr]) -> Result<(), NoMemory>
    ensures { IfOk result (λ _. Adds out.old.items (with_commas (map printed_expr exprs.now)) out.new.items) }
{
    for (at, expr) in exprs.iter().enumerate() {
        put_comma(out, at)?;
        put_expr(alloc, out, expr)?;
    }
    Ok(())
}

#[cycle(put_target)]
pub fn put_target(alloc: Global, out: &mut Vec<u8>, target: &Target) -> Result<(), NoMemory>
    ensures { IfOk result (λ _. Adds out.old.items (printed_target target.now) out.new.items) }
{
    match target {
        Target::Whole(name) => put_name(out, name),
        Target::At { name, index } => {
            put_name(out, name)?;
            put_mark(out, MarkKind::BracketOpen)?;
            put_expr(alloc, out, index)?;
            put_mark(out, MarkKind::BracketClose)
        }
        Target::Part {
            name,
            kind,
            left,
            right,
        } => {
            put_name(out, name)?;
            put_mark(out, MarkKind::BracketOpen)?;
            put_expr(alloc, out, left)?;
            put_mark(out, part_mark(*kind))?;
            put_expr(alloc, out, right)?;
            put_mark(out, MarkKind::BracketClose)
        }
        Target::Join(parts) => {
            put_mark(out, MarkKind::BraceOpen)?;
            put_targets(alloc, out, parts.as_slice())?;
            put_mark(out, MarkKind::BraceClose)
        }
    }
}

#[cycle(put_target)]
fn put_targets(alloc: Global, out: &mut Vec<u8>, targets: &[Target]) -> Result<(), NoMemory>
    ensures { IfOk result (λ _. Adds out.old.items (with_commas (map printed_target targets.now)) out.new.items) }
{
    for (at, target) in targets.iter().enumerate() {
        put_comma(out, at)?;
        put_target(alloc, out, target)?;
    }
    Ok(())
}
