//! Whole expressions: plain numbers and counted parameters, taken as whole numbers. Each subresult is 0 to 2^31 - 1, and
//! 0 or 1 where its own size is 1. `None` stands for a subresult that breaks this.
ghost use Rattle.std.specs.Prelude.{◌≡◌, ℕ, ◌*◌, ◌-◌, ◌<◌, ◌≤◌, ◌^◌, Option, Some};
ghost use Rattle.std.specs.Option.{option_and_then};
ghost use Rattle.flat_form.specs.Whole.{judged, opposite, binary_number, unary_whole, binary_whole, choice_whole};

use crate::flat::FUnaryOp;
use crate::value::{compared, reduced};
use cell_graph::word::shifted_right;
use verilog_ast::BinaryOp;

/// The greatest whole number.
pub const MAX_WHOLE: u64 = 2_147_483_647;

/// A subresult of own size `size`, where it is within its bounds.
pub fn within(size: u8, value: u64) -> Option<u64>
    ensures { result ≡ judged size value }
{
    let greatest = if size == 1 { 1 } else { MAX_WHOLE };
    if value <= greatest { Some(value) } else { None }
}

/// A unary operator over `a`, whose own size is `size`. The complement is taken of a word of 32 bits.
pub fn whole_unary(op: FUnaryOp, a: Option<u64>, size: u8) -> Option<u64>
    ensures { size ≤ 64 → ((n : ℕ) → a ≡ Some n → n < 2 ^ size) → result ≡ unary_whole op size a }
{
    let a = a?;
    match op {
        FUnaryOp::Not => within(size, complement(a)),
        _ => Some(u64::from(reduced(op, a, size))),
    }
}

/// A binary operator over `a` and `b`, whose result has the own size `size`.
pub fn whole_binary(op: BinaryOp, a: Option<u64>, b: Option<u64>, size: u8) -> Option<u64>
    ensures { result ≡ binary_whole op size a b }
{
    let a = a?;
    let b = b?;
    within(size, whole_number(op, a, b)?)
}

/// A choice, of own size `size`. The chosen branch alone is judged.
pub fn whole_choice(
    cond: Option<u64>,
    yes: Option<u64>,
    other: Option<u64>,
    size: u8,
) -> Option<u64>
    ensures { result ≡ choice_whole size cond yes other }
{
    let chosen = if cond? != 0 { yes } else { other };
    within(size, chosen?)
}

fn complement(a: u64) -> u64
    ensures { result ≡ opposite a }
{
    u64::from(u32::MAX).saturating_sub(a)
}

/// The value of a binary operator, where it is no more than a word and no divisor is 0.
fn whole_number(op: BinaryOp, a: u64, b: u64) -> Option<u64>
    ensures { (w : ℕ) → option_and_then (judged w) result ≡ option_and_then (judged w) (binary_number op a b) }
{
    match op {
        BinaryOp::Mul => a.checked_mul(b),
        BinaryOp::Div => a.checked_div(b),
        BinaryOp::Mod => a.checked_rem(b),
        BinaryOp::Add => a.checked_add(b),
        BinaryOp::Sub => a.checked_sub(b),
        BinaryOp::And => Some(a & b),
        BinaryOp::Xor => Some(a ^ b),
        BinaryOp::Xnor => Some(complement(a ^ b)),
        BinaryOp::Or => Some(a | b),
        BinaryOp::Shl => moved_up(a, b),
        BinaryOp::Shr => Some(shifted_right(a, b)),
        _ => Some(u64::from(compared(op, a, b))),
    }
}

/// The number moved up. A number that isn't 0 breaks its bounds from 31 places on.
fn moved_up(a: u64, by: u64) -> Option<u64>
    ensures { (w : ℕ) → option_and_then (judged w) result ≡ judged w (a * 2 ^ by) }
{
    if a == 0 {
        Some(0)
    } else if by > 31 {
        None
    } else {
        a.checked_mul(1 << by)
    }
}
