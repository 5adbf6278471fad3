//! Values of constant expressions of a flat design.
ghost use Rattle.std.specs.Prelude.{◌≡◌, ◌≢◌, ℕ, ◌+◌, ◌*◌, ◌<◌, ◌≤◌, ◌^◌, max, true, map};
ghost use Rattle.cell_graph.specs.Tree.{number};
ghost use Rattle.flat_meaning.specs.Values.{Word};
ghost use Rattle.flat_meaning.specs.Flat.{complement, sizes};
ghost use Rattle.flat_meaning.specs.Meaning.{unary, binary, unary_at, left_at, right_at, copies, value as value_of, joined, gated};
ghost use Rattle.flat_meaning.specs.Full.{is_const, are_const, nothing};
ghost use Rattle.flat_form.specs.View.{expr_of, exprs_of, unary_of, binary_of};
ghost use Rattle.flat_form.specs.Sizes.{kept_of, is_sized, sum, all_bits, all_right};
ghost use Rattle.flat_form.specs.Operators.{comparison};

use crate::bits::is_odd;
use crate::flat::{FExpr, FUnaryOp};
use crate::size::{left_size, operand_size, right_size, width_of};
use cell_graph::word::{low_bits, mask, shifted_left, shifted_right};
use verilog_ast::BinaryOp;

/// Whether the expression reads no signal.
#[cycle(constant)]
pub fn is_constant(expr: &FExpr) -> bool
    ensures { result ≡ is_const (expr_of expr.now) }
{
    match expr {
        FExpr::Number { .. } => true,
        FExpr::Read { .. } | FExpr::At { .. } => false,
        FExpr::Unary { a, .. } => is_constant(a),
        FExpr::Binary { a, b, .. } => is_constant(a) && is_constant(b),
        FExpr::Choose {
            cond,
            yes,
            other,
            ..
        } => is_constant(cond) && is_constant(yes) && is_constant(other),
        FExpr::Gate { inputs, .. } => are_constant(inputs.as_slice()),
        FExpr::Join { parts, .. } | FExpr::Repeat { parts, .. } => are_constant(parts.as_slice()),
    }
}

/// Whether none of the expressions reads a signal.
#[cycle(constant)]
pub fn are_constant(exprs: &[FExpr]) -> bool
    ensures { result ≡ are_const (exprs_of (map expr_of exprs.now)) }
{
    for expr in exprs {
        if !is_constant(expr) {
            return false;
        }
    }
    true
}

/// The value of a constant expression at `size` bits, which are no fewer than its own. A signal counts as 0.
#[cycle(value)]
pub fn value_at(expr: &FExpr, size: u8) -> u64
    ensures { is_sized expr.now ≡ true → (kept_of expr.now).width ≤ size → size ≤ 64
        → (result ≡ number (value_of nothing (expr_of expr.now) size) size) × (result < 2 ^ size) }
{
    match expr {
        FExpr::Number { value, .. } => *value,
        FExpr::Read { .. } => 0,
        FExpr::At { .. } => 0,
        FExpr::Unary { op, a, .. } => {
            let at = operand_size(*op, size, width_of(a));
            unary_value(*op, value_at(a, at), at)
        }
        FExpr::Binary { op, a, b, .. } => {
            let left = left_size(*op, size, width_of(a), width_of(b));
            let right = right_size(*op, size, width_of(a), width_of(b));
            binary_value(*op, value_at(a, left), value_at(b, right), size)
        }
        FExpr::Choose {
            cond,
            yes,
            other,
            ..
        } => {
            if value_at(cond, width_of(cond)) != 0 {
                value_at(yes, size)
            } else {
                value_at(other, size)
            }
        }
        FExpr::Gate { op, inputs } => gate_value(*op, inputs.as_slice(), size),
        FExpr::Join { parts, .. } => joined_value(parts.as_slice()),
        FExpr::Repeat { count, parts, .. } => {
            let once = width_of_all(parts.as_slice());
            repeated(joined_value(parts.as_slice()), once, *count)
        }
    }
}

/// The value of a constant expression at its own size.
pub fn own_value(expr: &FExpr) -> u64
    ensures { is_sized expr.now ≡ true
        → (result ≡ number (value_of nothing (expr_of expr.now) (kept_of expr.now).width) (kept_of expr.now).width) × (result < 2 ^ (kept_of expr.now).width) }
{
    value_at(expr, width_of(expr))
}

/// The value of a constant that is assigned to `width` bits.
pub fn assigned_value(expr: &FExpr, width: u8) -> u64
    ensures { is_sized expr.now ≡ true → width ≤ 64
        → (result ≡ number (value_of nothing (expr_of expr.now) (max width (kept_of expr.now).width)) width) × (result < 2 ^ width) }
{
    low_bits(value_at(expr, width.max(width_of(expr))), width)
}

/// The inputs of a gate, folded from the left.
#[cycle(value)]
fn gate_value(op: BinaryOp, inputs: &[FExpr], size: u8) -> u64
    ensures { all_right (map kept_of inputs.now) ≡ true → all_bits (map kept_of inputs.now) ≡ true → 1 ≤ size → size ≤ 64
        → result ≡ number (gated nothing (binary_of op) size (exprs_of (map expr_of inputs.now))) size }
{
    let Some((first, others)) = inputs.split_first() else {
        return 0;
    };
    let mut word = value_at(first, size);
    for input in others {
        word = binary_value(op, word, value_at(input, size), size);
    }
    word
}

/// The parts beside one another, the first one highest.
#[cycle(value)]
fn joined_value(parts: &[FExpr]) -> u64
    ensures { all_right (map kept_of parts.now) ≡ true → sum (map kept_of parts.now) ≤ 64
        → result ≡ number (joined nothing (exprs_of (map expr_of parts.now))) (sizes (exprs_of (map expr_of parts.now))) }
{
    let mut word = 0;
    for part in parts {
        let width = width_of(part);
        word = shifted_left(word, u64::from(width)) | value_at(part, width);
    }
    word
}

fn width_of_all(parts: &[FExpr]) -> u64
    ensures { sum (map kept_of parts.now) < 2 ^ 64 → result ≡ sum (map kept_of parts.now) }
{
    let mut width = 0u64;
    for part in parts {
        width = width.saturating_add(u64::from(width_of(part)));
    }
    width
}

/// Copies of a word of `width` bits beside one another.
fn repeated(word: u64, width: u64, count: u8) -> u64
    ensures { (f : Word) → count * width ≤ 64 → word ≡ number f width → result ≡ number (copies count width f) (count * width) }
{
    let mut all = 0;
    for _ in 0..count {
        all = shifted_left(all, width) | word;
    }
    all
}

/// The value of a unary operator over a word of `size` bits.
fn unary_value(op: FUnaryOp, a: u64, size: u8) -> u64
    ensures { (f : Word) (whole : ℕ) → size ≤ 64 → 1 ≤ whole → unary_at (unary_of op) whole size ≡ size → a ≡ number f size
        → result ≡ number (unary (unary_of op) size f) whole }
{
    match op {
        FUnaryOp::Not => low_bits(!a, size),
        _ => u64::from(reduced(op, a, size)),
    }
}

/// The value of `!` or of a reduction over a word of `size` bits.
pub fn reduced(op: FUnaryOp, a: u64, size: u8) -> bool
    ensures { (f : Word) → size ≤ 64 → unary_of op ≢ complement → a ≡ number f size → result ≡ unary (unary_of op) size f 0 }
{
    match op {
        FUnaryOp::Not | FUnaryOp::LogicNot | FUnaryOp::Nor => a == 0,
        FUnaryOp::And => a == mask(size),
        FUnaryOp::Nand => a != mask(size),
        FUnaryOp::Or => a != 0,
        FUnaryOp::Xor => is_odd(a),
        FUnaryOp::Xnor => !is_odd(a),
    }
}

/// The value of a binary operator at `size` bits.
fn binary_value(op: BinaryOp, a: u64, b: u64, size: u8) -> u64
    ensures { (f g : Word) (m n : ℕ) → 1 ≤ size → size ≤ 64 → left_at (binary_of op) size m n ≡ m → right_at (binary_of op) size m n ≡ n
        → a ≡ number f m → b ≡ number g n → result ≡ number (binary (binary_of op) m n f g) size }
{
    match op {
        BinaryOp::Mul => low_bits(a.wrapping_mul(b), size),
        BinaryOp::Div => a.checked_div(b).unwrap_or(0),
        BinaryOp::Mod => a.checked_rem(b).unwrap_or(a),
        BinaryOp::Add => low_bits(a.wrapping_add(b), size),
        BinaryOp::Sub => low_bits(a.wrapping_sub(b), size),
        BinaryOp::And => a & b,
        BinaryOp::Xor => a ^ b,
        BinaryOp::Xnor => low_bits(!(a ^ b), size),
        BinaryOp::Or => a | b,
        BinaryOp::Shl => low_bits(shifted_left(a, b), size),
        BinaryOp::Shr => shifted_right(a, b),
        _ => u64::from(compared(op, a, b)),
    }
}

/// The value of a comparison, `&&` or `||`.
pub fn compared(op: BinaryOp, a: u64, b: u64) -> bool
    ensures { result ≡ comparison op a b }
{
    match op {
        BinaryOp::Lt => a < b,
        BinaryOp::Le => a <= b,
        BinaryOp::Gt => a > b,
        BinaryOp::Ge => a >= b,
        BinaryOp::Eq => a == b,
        BinaryOp::Ne => a != b,
        BinaryOp::LogicAnd => a != 0 && b != 0,
        BinaryOp::LogicOr => a != 0 || b != 0,
        _ => false,
    }
}
