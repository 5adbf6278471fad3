//! Operators of expressions.
ghost use Rattle.std.specs.Prelude.{◌≡◌, ◌<◌, length, IfSome, IfNone};
ghost use Rattle.verilog_exprs.specs.Next.{Takes, Lacks};
ghost use Rattle.verilog_reading.specs.Operators as reading;
ghost use Rattle.verilog_reading.specs.Operators.{Prefix, prefix_in, Joint, joint_in};

use verilog_ast::{BinaryOp, UnaryOp};
use verilog_lex::{MarkKind, Token, TokenKind};

/// How many levels of binary operators there are.
pub const LEVELS: u8 = 10;

fn unary_of(mark: MarkKind) -> Option<UnaryOp>
    ensures { result ≡ reading.unary_of mark }
{
    match mark {
        MarkKind::Minus => Some(UnaryOp::Minus),
        MarkKind::Tilde => Some(UnaryOp::Not),
        MarkKind::Bang => Some(UnaryOp::LogicNot),
        MarkKind::Ampersand => Some(UnaryOp::And),
        MarkKind::Bar => Some(UnaryOp::Or),
        MarkKind::Caret => Some(UnaryOp::Xor),
        MarkKind::TildeAmpersand => Some(UnaryOp::Nand),
        MarkKind::TildeBar => Some(UnaryOp::Nor),
        MarkKind::TildeCaret | MarkKind::CaretTilde => Some(UnaryOp::Xnor),
        _ => None,
    }
}

fn binary_of(mark: MarkKind) -> Option<BinaryOp>
    ensures { result ≡ reading.binary_of mark }
{
    match mark {
        MarkKind::Star => Some(BinaryOp::Mul),
        MarkKind::Slash => Some(BinaryOp::Div),
        MarkKind::Percent => Some(BinaryOp::Mod),
        MarkKind::Plus => Some(BinaryOp::Add),
        MarkKind::Minus => Some(BinaryOp::Sub),
        MarkKind::ShiftLeft | MarkKind::LessLessLess => Some(BinaryOp::Shl),
        MarkKind::ShiftRight => Some(BinaryOp::Shr),
        MarkKind::Less => Some(BinaryOp::Lt),
        MarkKind::LessEqual => Some(BinaryOp::Le),
        MarkKind::Greater => Some(BinaryOp::Gt),
        MarkKind::GreaterEqual => Some(BinaryOp::Ge),
        MarkKind::EqualEqual => Some(BinaryOp::Eq),
        MarkKind::BangEqual => Some(BinaryOp::Ne),
        MarkKind::Ampersand => Some(BinaryOp::And),
        MarkKind::Caret => Some(BinaryOp::Xor),
        MarkKind::TildeCaret | MarkKind::CaretTilde => Some(BinaryOp::Xnor),
        MarkKind::Bar => Some(BinaryOp::Or),
        MarkKind::AmpersandAmpersand => Some(BinaryOp::LogicAnd),
        MarkKind::BarBar => Some(BinaryOp::LogicOr),
        _ => None,
    }
}

/// How tight the operator binds, from 0 for the tightest.
fn level_of(op: BinaryOp) -> u8
    ensures { result ≡ reading.level_of op }
{
    match op {
        BinaryOp::Mul | BinaryOp::Div | BinaryOp::Mod => 0,
        BinaryOp::Add | BinaryOp::Sub => 1,
        BinaryOp::Shl | BinaryOp::Shr => 2,
        BinaryOp::Lt | BinaryOp::Le | BinaryOp::Gt | BinaryOp::Ge => 3,
        BinaryOp::Eq | BinaryOp::Ne => 4,
        BinaryOp::And => 5,
        BinaryOp::Xor | BinaryOp::Xnor => 6,
        BinaryOp::Or => 7,
        BinaryOp::LogicAnd => 8,
        BinaryOp::LogicOr => 9,
    }
}

/// The unary operator that stands next, and the tokens behind it.
pub fn after_unary(tokens: &[Token]) -> Option<(UnaryOp, &[Token])>
    ensures found { IfSome result (λ p. (q : Prefix) × Takes prefix_in q tokens.now p.1.now × (q.op ≡ p.0)) }
    ensures free { IfNone result (Lacks prefix_in tokens.now) }
    ensures shorter { IfSome result (λ p. length p.1.now < length tokens.now) }
{
    let (first, rest) = tokens.split_first()?;
    let TokenKind::Mark(mark) = first.kind else {
        return None;
    };
    match unary_of(mark) {
        Some(op) => Some((op, rest)),
        None => None,
    }
}

/// The binary operator of the level that stands next, and the tokens behind it.
pub fn after_binary(tokens: &[Token], level: u8) -> Option<(BinaryOp, &[Token])>
    ensures found { IfSome result (λ p. (j : Joint) × Takes (joint_in level) j tokens.now p.1.now × (j.op ≡ p.0)) }
    ensures free { IfNone result (Lacks (joint_in level) tokens.now) }
    ensures shorter { IfSome result (λ p. length p.1.now < length tokens.now) }
{
    let (first, rest) = tokens.split_first()?;
    let TokenKind::Mark(mark) = first.kind else {
        return None;
    };
    match binary_of(mark) {
        Some(op) if level_of(op) == level => Some((op, rest)),
        _ => None,
    }
}
