//! Copies of expressions, for the words of a memory that an index may choose.
ghost use Rattle.std.specs.Prelude.{◌≡◌, map, IfOk};
ghost use Rattle.flat_form.specs.View.{expr_of};
ghost use Rattle.flat_form.specs.Sizes.{kept_of};
ghost use Rattle.flat_form.specs.Copies.{wrapped, kept_wrapped};

use crate::flat::FExpr;
use crate::memory::{boxed, push};
use cdc_base::{List, NoMemory};
use std::alloc::Global;

/// A choice whose last part is still to be copied.
#[derive(Drop)]
struct Choice {
    cond: FExpr,
    yes: FExpr,
    width: u8,
}

/// A copy of an expression. A read of a large memory is a long chain of choices, which is walked without a recursion.
#[cycle(copy)]
pub fn copy(alloc: Global, expr: &FExpr) -> Result<FExpr, NoMemory>
    ensures same { IfOk result (λ e. expr_of e ≡ expr_of expr.now) }
    ensures kept { IfOk result (λ e. kept_of e ≡ kept_of expr.now) }
{
    let mut around = Vec::new(alloc);
    let mut inner = expr;
    loop {
        let whole = match inner {
            FExpr::Choose {
                cond,
                yes,
                other,
                width,
            } => {
                let cond = copy(alloc, cond)?;
                let yes = copy(alloc, yes)?;
                push(
                    &mut around,
                    Choice {
                        cond,
                        yes,
                        width: *width,
                    },
                )?;
                inner = other;
                continue;
            }
            FExpr::Number { value, width } => FExpr::Number {
                value: *value,
                width: *width,
            },
            FExpr::Read { sig, at, width } => FExpr::Read {
                sig: *sig,
                at: *at,
                width: *width,
            },
            FExpr::At { sig, index, width } => {
                let index = copy(alloc, index)?;
                FExpr::At {
                    sig: *sig,
                    index: boxed(alloc, index)?,
                    width: *width,
                }
            }
            FExpr::Unary { op, a, width } => {
                let a = copy(alloc, a)?;
                FExpr::Unary {
                    op: *op,
                    a: boxed(alloc, a)?,
                    width: *width,
                }
            }
            FExpr::Binary { op, a, b, width } => {
                let a = copy(alloc, a)?;
                let b = copy(alloc, b)?;
                FExpr::Binary {
                    op: *op,
                    a: boxed(alloc, a)?,
                    b: boxed(alloc, b)?,
                    width: *width,
                }
            }
            FExpr::Gate { op, inputs } => FExpr::Gate {
                op: *op,
                inputs: copy_all(alloc, inputs.as_slice())?,
            },
            FExpr::Join { parts, width } => FExpr::Join {
                parts: copy_all(alloc, parts.as_slice())?,
                width: *width,
            },
            FExpr::Repeat {
                count,
                parts,
                width,
            } => FExpr::Repeat {
                count: *count,
                parts: copy_all(alloc, parts.as_slice())?,
                width: *width,
            },
        };
        return chosen(alloc, around, whole);
    }
}

/// The choices around an expression, the last one of the list innermost.
fn chosen(alloc: Global, around: Vec<Choice>, innermost: FExpr) -> Result<FExpr, NoMemory>
    ensures same { IfOk result (λ e. expr_of e ≡ wrapped around.items (expr_of innermost)) }
    ensures kept { IfOk result (λ e. kept_of e ≡ kept_wrapped around.items (kept_of innermost)) }
{
    let mut around = around;
    let mut whole = innermost;
    while let Some(Choice { cond, yes, width }) = around.pop() {
        whole = FExpr::Choose {
            cond: boxed(alloc, cond)?,
            yes: boxed(alloc, yes)?,
            other: boxed(alloc, whole)?,
            width,
        };
    }
    Ok(whole)
}

#[cycle(copy)]
fn copy_all(alloc: Global, exprs: &[FExpr]) -> Result<List<FExpr>, NoMemory>
    ensures same { IfOk result (λ es. map expr_of es ≡ map expr_of exprs.now) }
    ensures kept { IfOk result (λ es. map kept_of es ≡ map kept_of exprs.now) }
{
    let mut copies = Vec::new(alloc);
    for expr in exprs {
        push(&mut copies, copy(alloc, expr)?)?;
    }
    Ok(List::from_vec(copies))
}
