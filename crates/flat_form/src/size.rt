//! The sizes at which operands are evaluated, and the own sizes of operators.
ghost use Rattle.std.specs.Prelude.{◌≡◌, ◌≤◌, true, not};
ghost use Rattle.flat_meaning.specs.Flat.{size, unary_size as unary_size_of, binary_size as binary_size_of};
ghost use Rattle.flat_meaning.specs.Meaning.{unary_at, left_at, right_at};
ghost use Rattle.flat_meaning.specs.Fits.{has_cell};
ghost use Rattle.flat_form.specs.View.{expr_of, unary_of, binary_of};
ghost use Rattle.flat_form.specs.Sizes.{kept_of, is_sized};
ghost use Rattle.flat_form.specs.Operators.{family};

use crate::flat::{FExpr, FUnaryOp};
use verilog_ast::BinaryOp;

/// The own size of an expression.
pub fn width_of(expr: &FExpr) -> u8
    ensures kept { result ≡ (kept_of expr.now).width }
    ensures size { is_sized expr.now ≡ true → result ≡ size (expr_of expr.now) }
    ensures some { is_sized expr.now ≡ true → 1 ≤ result }
    ensures most { is_sized expr.now ≡ true → result ≤ 64 }
{
    kept_width(expr)
}

fn kept_width(expr: &FExpr) -> u8
    ensures { result ≡ (kept_of expr.now).width }
{
    match expr {
        FExpr::Number { width, .. }
        | FExpr::Read { width, .. }
        | FExpr::At { width, .. }
        | FExpr::Unary { width, .. }
        | FExpr::Binary { width, .. }
        | FExpr::Choose { width, .. }
        | FExpr::Join { width, .. }
        | FExpr::Repeat { width, .. } => *width,
        FExpr::Gate { .. } => 1,
    }
}

/// The kinds of binary operators, by the sizes of their operands and of their result.
#[derive(Clone, Copy, PartialEq, Eq, Debug, Drop)]
pub enum Family {
    /// Both operands have the size of the whole.
    Arithmetic,
    /// The left operand has the size of the whole, the right one its own.
    Shift,
    /// Both operands have the larger of their sizes, and the result has one bit.
    Comparison,
    /// Each operand has its own size, and the result has one bit.
    Logic,
}

pub fn family_of(op: BinaryOp) -> Family
    ensures { result ≡ family op }
{
    match op {
        BinaryOp::Mul
        | BinaryOp::Div
        | BinaryOp::Mod
        | BinaryOp::Add
        | BinaryOp::Sub
        | BinaryOp::And
        | BinaryOp::Xor
        | BinaryOp::Xnor
        | BinaryOp::Or => Family::Arithmetic,
        BinaryOp::Shl | BinaryOp::Shr => Family::Shift,
        BinaryOp::Lt | BinaryOp::Le | BinaryOp::Gt | BinaryOp::Ge | BinaryOp::Eq | BinaryOp::Ne =>
            Family::Comparison,
        BinaryOp::LogicAnd | BinaryOp::LogicOr => Family::Logic,
    }
}

/// Whether the operator stands in whole expressions alone.
pub fn is_whole_only(op: BinaryOp) -> bool
    ensures { result ≡ not (has_cell (binary_of op)) }
{
    matches!(op, BinaryOp::Mul | BinaryOp::Div | BinaryOp::Mod)
}

/// The own size of a unary expression over an operand of size `a`.
pub fn unary_size(op: FUnaryOp, a: u8) -> u8
    ensures { result ≡ unary_size_of (unary_of op) a }
{
    if op == FUnaryOp::Not { a } else { 1 }
}

/// The own size of a binary expression over operands of sizes `a` and `b`.
pub fn binary_size(op: BinaryOp, a: u8, b: u8) -> u8
    ensures { result ≡ binary_size_of (binary_of op) a b }
{
    match family_of(op) {
        Family::Arithmetic => a.max(b),
        Family::Shift => a,
        Family::Comparison | Family::Logic => 1,
    }
}

/// The size at which the operand of a unary expression of size `size` is evaluated.
pub fn operand_size(op: FUnaryOp, size: u8, a: u8) -> u8
    ensures { result ≡ unary_at (unary_of op) size a }
{
    if op == FUnaryOp::Not { size } else { a }
}

/// The size at which the left operand of a binary expression of size `size` is evaluated.
pub fn left_size(op: BinaryOp, size: u8, a: u8, b: u8) -> u8
    ensures { result ≡ left_at (binary_of op) size a b }
{
    match family_of(op) {
        Family::Arithmetic | Family::Shift => size,
        Family::Comparison => a.max(b),
        Family::Logic => a,
    }
}

/// The size at which the right operand of a binary expression of size `size` is evaluated.
pub fn right_size(op: BinaryOp, size: u8, a: u8, b: u8) -> u8
    ensures { result ≡ right_at (binary_of op) size a b }
{
    match family_of(op) {
        Family::Arithmetic => size,
        Family::Comparison => a.max(b),
        Family::Shift | Family::Logic => b,
    }
}
