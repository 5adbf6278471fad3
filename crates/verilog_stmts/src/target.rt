//! What is assigned.
ghost use Rattle.std.specs.Prelude.{List, ◌≡◌, ◌≤◌, ◌<◌, true, false, map, length, IfOk, IfErr};
ghost use Rattle.verilog_exprs.specs.Halts.{HaltsAs};
ghost use Rattle.verilog_exprs.specs.Next.{Takes, Lacks};
ghost use Rattle.verilog_lex.specs.declared.token.Token.{Token};
ghost use Rattle.verilog_reading.specs.ExprTree.{target_tree_of};
ghost use Rattle.verilog_reading.specs.Outcome.{done};
ghost use Rattle.verilog_reading.specs.StmtReader.{target_in};
ghost use Rattle.verilog_reading.specs.TargetReader.{read_target as target_reader, below};
ghost use Rattle.verilog_stmts.specs.Forms.{aimed_at, targets_at};
ghost use Rattle.verilog_stmts.specs.Levels.{below_in};

use crate::make::{make_aimed, make_targets, make_whole};
use cdc_base::{List, Name};
use std::alloc::Global;
use verilog_ast::Target;
use verilog_exprs::expr::read_select;
use verilog_exprs::halt::{Halt, deeper};
use verilog_exprs::tokens::{Read, after_ident, after_mark, past_mark};
use verilog_lex::{MarkKind, Token};

/// Whether a target begins with the next token.
pub fn starts_target(tokens: &[Token]) -> bool
    ensures starts { result ≡ true → (rest : List Token) × Takes target_in tt tokens.now rest }
    ensures free { result ≡ false → Lacks target_in tokens.now }
{
    after_ident(tokens).is_some() || after_mark(tokens, MarkKind::BraceOpen).is_some()
}

/// A name, a select of it, or targets in braces.
#[tactic(auto, using(crate::proofs::TargetSteps::target_steps))]
#[cycle(target)]
pub fn read_target<'a>(
    alloc: Global,
    tokens: &'a [Token],
    left: u32,
) -> Result<Read<'a, Target>, Halt>
    ensures read { IfOk result (λ r. target_reader left tokens.now ≡ done (target_tree_of r.item) r.rest.now) }
    ensures halts { IfErr result (λ h. HaltsAs (target_reader left tokens.now) h) }
    ensures shorter { IfOk result (λ r. length r.rest.now < length tokens.now) }
{
    if let Some((name, rest)) = after_ident(tokens) {
        return read_named(alloc, name, rest, left);
    }
    let inner = past_mark(tokens, MarkKind::BraceOpen)?;
    let below = deeper(left, 0, tokens)?;
    let parts = read_targets(alloc, inner, below)?;
    let rest = past_mark(parts.rest, MarkKind::BraceClose)?;
    Ok(Read {
        item: make_targets(parts.item),
        rest,
    })
}

/// One target or more, with commas between them.
#[tactic(auto, using(crate::proofs::TargetSteps::targets_steps))]
#[cycle(target)]
fn read_targets<'a>(
    alloc: Global,
    tokens: &'a [Token],
    left: u32,
) -> Result<Read<'a, List<Target>>, Halt>
    ensures read { IfOk result (λ r. targets_at (below left) tokens.now ≡ done (map target_tree_of r.item) r.rest.now) }
    ensures halts { IfErr result (λ h. HaltsAs (targets_at (below left) tokens.now) h) }
    ensures shorter { IfOk result (λ r. length r.rest.now < length tokens.now) }
{
    let first = read_target(alloc, tokens, left)?;
    let mut targets = List::new(alloc);
    targets.push(first.item)?;
    let mut rest = first.rest;
    while let Some(after) = after_mark(rest, MarkKind::Comma) {
        let next = read_target(alloc, after, left)?;
        targets.push(next.item)?;
        rest = next.rest;
    }
    Ok(Read {
        item: targets,
        rest,
    })
}

/// A name as a target, or a select of it. The tokens are those behind the name.
#[tactic(auto, using(crate::proofs::TargetSteps::aimed_steps))]
fn read_named<'a>(
    alloc: Global,
    name: &Name,
    tokens: &'a [Token],
    left: u32,
) -> Result<Read<'a, Target>, Halt>
    ensures read { IfOk result (λ r. aimed_at (below_in left) name.now tokens.now ≡ done (target_tree_of r.item) r.rest.now) }
    ensures halts { IfErr result (λ h. HaltsAs (aimed_at (below_in left) name.now tokens.now) h) }
    ensures shorter { IfOk result (λ r. length r.rest.now ≤ length tokens.now) }
{
    let name = name.copy(alloc)?;
    let Some(inner) = after_mark(tokens, MarkKind::BracketOpen) else {
        return Ok(Read {
            item: make_whole(name),
            rest: tokens,
        });
    };
    let below = deeper(left, 0, tokens)?;
    let selected = read_select(alloc, inner, below)?;
    Ok(Read {
        item: make_aimed(name, selected.index, selected.right),
        rest: selected.rest,
    })
}
