//! What stands between a target and the value that it takes.
ghost use Rattle.std.specs.Prelude.{◌≡◌, ◌≤◌, ◌<◌, length, IfOk, IfErr, IfSome, IfNone};
ghost use Rattle.verilog_exprs.specs.Halts.{HaltsAs};
ghost use Rattle.verilog_exprs.specs.Next.{Takes, Lacks};
ghost use Rattle.verilog_reading.specs.ExprTree.{TargetTree};
ghost use Rattle.verilog_reading.specs.Lexemes.{Numeral, numeral_in};
ghost use Rattle.verilog_reading.specs.Outcome.{done};
ghost use Rattle.verilog_reading.specs.StmtReader as reader;
ghost use Rattle.verilog_reading.specs.StmtReader.{Lower, at_assignment, in_value};

use std::alloc::Global;
use verilog_ast::Delay;
use verilog_exprs::halt::Halt;
use verilog_exprs::tokens::{Read, after_mark, past_ident, past_mark};
use verilog_lex::{MarkKind, Token, TokenKind};

/// How a target takes its value, and the tokens of the value.
#[derive(Drop)]
pub struct Assignment<'a> {
    pub blocking: bool,
    pub delay: Option<Delay>,
    pub rest: &'a [Token],
}

/// Whether a blocking assignment follows, or one that does not block, with its delay.
#[tactic(auto, using(crate::proofs::AssignmentSteps::assignment_steps))]
pub fn past_assignment<'a>(alloc: Global, tokens: &'a [Token]) -> Result<Assignment<'a>, Halt>
    ensures found { IfOk result (λ a. (l : Lower) (t : TargetTree) → at_assignment l t tokens.now ≡ in_value l t a.blocking a.delay a.rest.now) }
    ensures halts { IfErr result (λ h. (l : Lower) (t : TargetTree) → HaltsAs (at_assignment l t tokens.now) h) }
    ensures shorter { IfOk result (λ a. length a.rest.now < length tokens.now) }
{
    if let Some(rest) = after_mark(tokens, MarkKind::Equals) {
        return Ok(Assignment {
            blocking: true,
            delay: None,
            rest,
        });
    }
    let inner = past_mark(tokens, MarkKind::LessEqual)?;
    let later = read_later(alloc, inner)?;
    Ok(Assignment {
        blocking: false,
        delay: later.item,
        rest: later.rest,
    })
}

/// `[ # dval | # ( dval ) ]`
#[tactic(auto, using(crate::proofs::AssignmentSteps::later_steps))]
fn read_later<'a>(alloc: Global, tokens: &'a [Token]) -> Result<Read<'a, Option<Delay>>, Halt>
    ensures read { IfOk result (λ r. reader.later tokens.now ≡ done r.item r.rest.now) }
    ensures halts { IfErr result (λ h. HaltsAs (reader.later tokens.now) h) }
    ensures shorter { IfOk result (λ r. length r.rest.now ≤ length tokens.now) }
{
    let Some(inner) = after_mark(tokens, MarkKind::Hash) else {
        return Ok(Read {
            item: None,
            rest: tokens,
        });
    };
    let Some(held) = after_mark(inner, MarkKind::ParenOpen) else {
        let bare = read_delay(alloc, inner)?;
        return Ok(Read {
            item: Some(bare.item),
            rest: bare.rest,
        });
    };
    let delay = read_delay(alloc, held)?;
    let rest = past_mark(delay.rest, MarkKind::ParenClose)?;
    Ok(Read {
        item: Some(delay.item),
        rest,
    })
}

/// The number or name that has to stand next, as a delay.
#[tactic(auto, using(crate::proofs::AssignmentSteps::delay_steps))]
fn read_delay<'a>(alloc: Global, tokens: &'a [Token]) -> Result<Read<'a, Delay>, Halt>
    ensures read { IfOk result (λ r. reader.delay tokens.now ≡ done r.item r.rest.now) }
    ensures halts { IfErr result (λ h. HaltsAs (reader.delay tokens.now) h) }
    ensures shorter { IfOk result (λ r. length r.rest.now < length tokens.now) }
{
    if let Some((value, rest)) = after_value(tokens) {
        return Ok(Read {
            item: Delay::Number(value),
            rest,
        });
    }
    let (name, rest) = past_ident(tokens)?;
    Ok(Read {
        item: Delay::Name(name.copy(alloc)?),
        rest,
    })
}

/// The value of the number that stands next, and the tokens behind it.
fn after_value(tokens: &[Token]) -> Option<(u64, &[Token])>
    ensures found { IfSome result (λ p. (n : Numeral) × Takes numeral_in n tokens.now p.1.now × (n.value ≡ p.0)) }
    ensures free { IfNone result (Lacks numeral_in tokens.now) }
    ensures shorter { IfSome result (λ p. length p.1.now < length tokens.now) }
{
    let (first, rest) = tokens.split_first()?;
    let TokenKind::Number { value, .. } = first.kind else {
        return None;
    };
    Some((value, rest))
}
