//! Delays, which have no meaning: they are read and forgotten.
ghost use Rattle.std.specs.Prelude.{◌≡◌, ◌≤◌, ◌<◌, length, false, IfOk, IfErr};
ghost use Rattle.verilog_exprs.specs.Halts.{HaltsAs};
ghost use Rattle.verilog_exprs.specs.Next.{Takes, Lacks};
ghost use Rattle.verilog_reading.specs.ItemReader as reader;
ghost use Rattle.verilog_reading.specs.Lexemes.{Spot, Dval, dval_in};
ghost use Rattle.verilog_reading.specs.Outcome.{done};

use verilog_ast::DeclKind;
use verilog_exprs::halt::{Halt, refused};
use verilog_exprs::tokens::{after_ident, after_mark, after_number, past_mark};
use verilog_lex::{MarkKind, Token};

/// The tokens behind the delay of a declaration, which only a `wire` may have.
#[tactic(auto, using(crate::proofs::DelaySteps::kind_steps))]
pub fn past_delay_of(kind: DeclKind, tokens: &[Token]) -> Result<&[Token], Halt>
    ensures read { IfOk result (λ rest. reader.delay_of kind tokens.now ≡ done tt rest.now) }
    ensures halts { IfErr result (λ h. HaltsAs (reader.delay_of kind tokens.now) h) }
    ensures shorter { IfOk result (λ rest. length rest.now ≤ length tokens.now) }
{
    match kind {
        DeclKind::Wire => past_delay(tokens),
        _ => Ok(tokens),
    }
}

/// The tokens behind `[ # dval | # ( dval [ , dval ] ) ]`.
pub fn past_delay(tokens: &[Token]) -> Result<&[Token], Halt>
    ensures read { IfOk result (λ rest. reader.maybe_delay tokens.now ≡ done tt rest.now) }
    ensures halts { IfErr result (λ h. HaltsAs (reader.maybe_delay tokens.now) h) }
    ensures shorter { IfOk result (λ rest. length rest.now ≤ length tokens.now) }
{
    let Some(inner) = after_mark(tokens, MarkKind::Hash) else {
        return Ok(tokens);
    };
    let Some(values) = after_mark(inner, MarkKind::ParenOpen) else {
        let rest = past_value(inner)?;
        return Ok(rest);
    };
    let rest = past_values(values)?;
    Ok(rest)
}

/// The tokens behind `dval [ , dval ] )`.
fn past_values(tokens: &[Token]) -> Result<&[Token], Halt>
    ensures read { IfOk result (λ rest. (s : Spot) → reader.in_delays s tokens.now ≡ done tt rest.now) }
    ensures halts { IfErr result (λ h. (s : Spot) → HaltsAs (reader.in_delays s tokens.now) h) }
    ensures shorter { IfOk result (λ rest. length rest.now < length tokens.now) }
{
    let first = past_value(tokens)?;
    let Some(inner) = after_mark(first, MarkKind::Comma) else {
        let rest = past_mark(first, MarkKind::ParenClose)?;
        return Ok(rest);
    };
    let second = past_value(inner)?;
    let rest = past_mark(second, MarkKind::ParenClose)?;
    Ok(rest)
}

/// The tokens behind the number or name that has to stand next.
#[tactic(auto, using(crate::proofs::DelaySteps::value_steps))]
fn past_value(tokens: &[Token]) -> Result<&[Token], Halt>
    ensures found { IfOk result (λ rest. (d : Dval) × Takes dval_in d tokens.now rest.now) }
    ensures free { IfErr result (λ h. Lacks dval_in tokens.now) }
    ensures refused { IfErr result (λ h. h ≡ Halt.Refused false (length tokens.now)) }
    ensures shorter { IfOk result (λ rest. length rest.now < length tokens.now) }
{
    if let Some((_, rest)) = after_number(tokens) {
        return Ok(rest);
    }
    match after_ident(tokens) {
        Some((_, rest)) => Ok(rest),
        None => Err(refused(tokens, false)),
    }
}
