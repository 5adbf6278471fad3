//! What stands between the two ends of a part.
ghost use Rattle.std.specs.Prelude.{◌≡◌, ◌<◌, false, length, IfSome, IfNone, IfOk, IfErr};
ghost use Rattle.verilog_exprs.specs.Next.{Takes, Lacks};
ghost use Rattle.verilog_reading.specs.Lexemes.{Spot};
ghost use Rattle.verilog_reading.specs.Parts.{part_kind_of, divider_in};

use crate::halt::{Halt, refused};
use verilog_ast::PartKind;
use verilog_lex::{MarkKind, Token, TokenKind};

fn part_kind(mark: MarkKind) -> Option<PartKind>
    ensures { result ≡ part_kind_of mark }
{
    match mark {
        MarkKind::Colon => Some(PartKind::Range),
        MarkKind::PlusColon => Some(PartKind::Up),
        MarkKind::MinusColon => Some(PartKind::Down),
        _ => None,
    }
}

/// The kind of part that the next token makes, and the tokens behind it.
fn after_divider(tokens: &[Token]) -> Option<(PartKind, &[Token])>
    ensures found { IfSome result (λ p. (s : Spot) × Takes divider_in (record { kind = p.0; spot = s }) tokens.now p.1.now) }
    ensures free { IfNone result (Lacks divider_in tokens.now) }
    ensures shorter { IfSome result (λ p. length p.1.now < length tokens.now) }
{
    let (first, rest) = tokens.split_first()?;
    let TokenKind::Mark(mark) = first.kind else {
        return None;
    };
    match part_kind(mark) {
        Some(kind) => Some((kind, rest)),
        None => None,
    }
}

/// The kind of part that the next token has to make, and the tokens behind it.
pub fn past_divider(tokens: &[Token]) -> Result<(PartKind, &[Token]), Halt>
    ensures found { IfOk result (λ p. (s : Spot) × Takes divider_in (record { kind = p.0; spot = s }) tokens.now p.1.now) }
    ensures free { IfErr result (λ h. Lacks divider_in tokens.now) }
    ensures refused { IfErr result (λ h. h ≡ Halt.Refused false (length tokens.now)) }
    ensures shorter { IfOk result (λ p. length p.1.now < length tokens.now) }
{
    match after_divider(tokens) {
        Some(found) => Ok(found),
        None => Err(refused(tokens, false)),
    }
}
