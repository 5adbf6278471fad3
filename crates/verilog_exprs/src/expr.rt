//! Expressions. `left` counts the levels that are left below the first of the form that is read, and a height counts
//! the levels that a tree has below its first.
ghost use Rattle.std.specs.Prelude.{List, ◌≡◌, ◌∷◌, ◌≤◌, ◌<◌, ◌+◌, ◌-◌, ◌^◌, map, length, IfOk, IfErr};
ghost use Rattle.verilog_exprs.specs.Forms.{named_at, operand_at, exprs_at};
ghost use Rattle.verilog_exprs.specs.Halts.{HaltsAs};
ghost use Rattle.verilog_exprs.specs.Selected.{selection_of};
ghost use Rattle.verilog_lex.specs.declared.marks.MarkKind.TheVariants.{Comma};
ghost use Rattle.verilog_reading.proofs.ExprComplete.{downs};
ghost use Rattle.verilog_reading.specs.ExprTree.{ExprTree, unary, tree_of, trees_of, height, heights};
ghost use Rattle.verilog_reading.specs.Lexemes.{mark_in};
ghost use Rattle.verilog_reading.specs.Lists.{more};
ghost use Rattle.verilog_reading.specs.Outcome.{done, then_read};
ghost use Rattle.verilog_reading.specs.Reader.{readers, select, select_height, onward, at_paren, behind_first, behind_part, in_join};

use crate::divider::past_divider;
use crate::halt::{Halt, deeper};
use crate::make::{
    PartEnd, make_binary, make_choice, make_join, make_name, make_paren, make_repeat, make_select,
    make_unary,
};
use crate::operators::{LEVELS, after_binary, after_unary};
use crate::tokens::{after_ident, after_mark, after_number, past_mark};
use cdc_base::limits::MAX_DEPTH;
use cdc_base::{List, Name};
use std::alloc::Global;
use verilog_ast::{Expr, UnaryOp};
use verilog_lex::{MarkKind, Token};

/// An expression that was read, its height, and the tokens behind it.
#[derive(Drop)]
pub struct Found<'a> {
    pub expr: Expr,
    pub height: u32,
    pub rest: &'a [Token],
}

/// Expressions that were read, the greatest of their heights, and the tokens behind them.
#[derive(Drop)]
pub struct Several<'a> {
    pub exprs: List<Expr>,
    pub height: u32,
    pub rest: &'a [Token],
}

/// What stands in the brackets behind a name: an index, or the two ends of a part.
#[derive(Drop)]
pub struct Selected<'a> {
    pub index: Expr,
    pub right: Option<PartEnd>,
    pub height: u32,
    pub rest: &'a [Token],
}

/// An expression that isn't inside another one.
pub fn read_whole<'a>(alloc: Global, tokens: &'a [Token]) -> Result<Found<'a>, Halt>
    ensures read { IfOk result (λ f. (readers 255).expr tokens.now ≡ done (tree_of f.expr) f.rest.now) }
    ensures halts { IfErr result (λ h. HaltsAs ((readers 255).expr tokens.now) h) }
    ensures shorter { IfOk result (λ f. length f.rest.now < length tokens.now) }
{
    read_expr(alloc, tokens, MAX_DEPTH - 1)
}

/// `expr`
#[tactic(auto, using(crate::proofs::ExprSteps::expr_steps))]
#[cycle(expr)]
pub fn read_expr<'a>(alloc: Global, tokens: &'a [Token], left: u32) -> Result<Found<'a>, Halt>
    ensures read { IfOk result (λ f. (readers left).expr tokens.now ≡ done (tree_of f.expr) f.rest.now) }
    ensures halts { IfErr result (λ h. HaltsAs ((readers left).expr tokens.now) h) }
    ensures tall { IfOk result (λ f. f.height ≡ height (tree_of f.expr)) }
    ensures high { IfOk result (λ f. f.height ≤ left) }
    ensures shorter { IfOk result (λ f. length f.rest.now < length tokens.now) }
{
    let cond = read_binary(alloc, tokens, left, LEVELS)?;
    let Some(inner) = after_mark(cond.rest, MarkKind::Question) else {
        return Ok(cond);
    };
    let below = deeper(left, cond.height, cond.rest)?;
    let yes = read_expr(alloc, inner, below)?;
    let rest = past_mark(yes.rest, MarkKind::Colon)?;
    let other = read_expr(alloc, rest, below)?;
    Ok(Found {
        expr: make_choice(alloc, cond.expr, yes.expr, other.expr)?,
        height: cond.height.max(yes.height).max(other.height) + 1,
        rest: other.rest,
    })
}

/// Unary expressions that operators of the first `levels` levels join.
#[tactic(auto, using(crate::proofs::ExprSteps::binary_steps))]
#[cycle(expr)]
fn read_binary<'a>(
    alloc: Global,
    tokens: &'a [Token],
    left: u32,
    levels: u8,
) -> Result<Found<'a>, Halt>
    ensures read { IfOk result (λ f. (readers left).binary levels tokens.now ≡ done (tree_of f.expr) f.rest.now) }
    ensures halts { IfErr result (λ h. HaltsAs ((readers left).binary levels tokens.now) h) }
    ensures tall { IfOk result (λ f. f.height ≡ height (tree_of f.expr)) }
    ensures high { IfOk result (λ f. f.height ≤ left) }
    ensures shorter { IfOk result (λ f. length f.rest.now < length tokens.now) }
{
    let mut found = read_unary(alloc, tokens, left)?;
    for level in 0..levels {
        found = read_operators(alloc, found, left, level)?;
    }
    Ok(found)
}

/// An expression that tighter operators join, and what operators of the level join to it, from the left.
#[tactic(auto, using(crate::proofs::ExprSteps::going_steps))]
#[cycle(expr)]
fn read_operators<'a>(
    alloc: Global,
    first: Found<'a>,
    left: u32,
    level: u8,
) -> Result<Found<'a>, Halt>
    requires tall { first.height ≡ height (tree_of first.expr) }
    requires high { first.height ≤ left }
    ensures read { IfOk result (λ f. onward level left (downs left) left (tree_of first.entry.expr) first.entry.rest.now ≡ done (tree_of f.expr) f.rest.now) }
    ensures halts { IfErr result (λ h. HaltsAs (onward level left (downs left) left (tree_of first.entry.expr) first.entry.rest.now) h) }
    ensures tall { IfOk result (λ f. f.height ≡ height (tree_of f.expr)) }
    ensures high { IfOk result (λ f. f.height ≤ left) }
    ensures shorter { IfOk result (λ f. length f.rest.now ≤ length first.entry.rest.now) }
{
    let mut expr = first.expr;
    let mut height = first.height;
    let mut rest = first.rest;
    while let Some((op, after)) = after_binary(rest, level) {
        let below = deeper(left, height, rest)?;
        let next = read_binary(alloc, after, below, level)?;
        height = height.max(next.height) + 1;
        rest = next.rest;
        expr = make_binary(alloc, op, expr, next.expr)?;
    }
    Ok(Found { expr, height, rest })
}

/// A number, a name or a select, or else what has a level of its own.
#[tactic(auto, using(crate::proofs::ExprSteps::unary_steps))]
#[cycle(expr)]
fn read_unary<'a>(alloc: Global, tokens: &'a [Token], left: u32) -> Result<Found<'a>, Halt>
    ensures read { IfOk result (λ f. (readers left).binary 0 tokens.now ≡ done (tree_of f.expr) f.rest.now) }
    ensures halts { IfErr result (λ h. HaltsAs ((readers left).binary 0 tokens.now) h) }
    ensures tall { IfOk result (λ f. f.height ≡ height (tree_of f.expr)) }
    ensures high { IfOk result (λ f. f.height ≤ left) }
    ensures shorter { IfOk result (λ f. length f.rest.now < length tokens.now) }
{
    if let Some((expr, rest)) = after_number(tokens) {
        return Ok(Found {
            expr,
            height: 0,
            rest,
        });
    }
    if let Some((name, rest)) = after_ident(tokens) {
        return read_named(alloc, name, rest, left);
    }
    read_operand(alloc, tokens, left)
}

/// A unary operator before a unary expression, parentheses or braces.
#[tactic(auto, using(crate::proofs::ExprSteps::operand_steps))]
#[cycle(expr)]
fn read_operand<'a>(alloc: Global, tokens: &'a [Token], left: u32) -> Result<Found<'a>, Halt>
    ensures read { IfOk result (λ f. operand_at (downs left) tokens.now ≡ done (tree_of f.expr) f.rest.now) }
    ensures halts { IfErr result (λ h. HaltsAs (operand_at (downs left) tokens.now) h) }
    ensures tall { IfOk result (λ f. f.height ≡ height (tree_of f.expr)) }
    ensures high { IfOk result (λ f. f.height ≤ left) }
    ensures shorter { IfOk result (λ f. length f.rest.now < length tokens.now) }
{
    if let Some((op, inner)) = after_unary(tokens) {
        let below = deeper(left, 0, tokens)?;
        return read_prefixed(alloc, op, inner, below);
    }
    if let Some(inner) = after_mark(tokens, MarkKind::ParenOpen) {
        let below = deeper(left, 0, tokens)?;
        return read_paren(alloc, inner, below);
    }
    let inner = past_mark(tokens, MarkKind::BraceOpen)?;
    let below = deeper(left, 0, tokens)?;
    read_braces(alloc, inner, below)
}

/// The operand of a unary operator.
#[tactic(auto, using(crate::proofs::ExprSteps::prefixed_steps))]
#[cycle(expr)]
fn read_prefixed<'a>(
    alloc: Global,
    op: UnaryOp,
    tokens: &'a [Token],
    left: u32,
) -> Result<Found<'a>, Halt>
    requires { left < 2 ^ 32 - 1 }
    ensures read { IfOk result (λ f. then_read ((readers left).binary 0 tokens.now) (λ a. done (unary op a)) ≡ done (tree_of f.expr) f.rest.now) }
    ensures halts { IfErr result (λ h. HaltsAs (then_read ((readers left).binary 0 tokens.now) (λ a. done (unary op a))) h) }
    ensures tall { IfOk result (λ f. f.height ≡ height (tree_of f.expr)) }
    ensures high { IfOk result (λ f. f.height ≤ left + 1) }
    ensures shorter { IfOk result (λ f. length f.rest.now < length tokens.now) }
{
    let a = read_unary(alloc, tokens, left)?;
    Ok(Found {
        expr: make_unary(alloc, op, a.expr)?,
        height: a.height + 1,
        rest: a.rest,
    })
}

/// What parentheses hold, and the closing one.
#[tactic(auto, using(crate::proofs::ExprSteps::paren_steps))]
#[cycle(expr)]
fn read_paren<'a>(alloc: Global, tokens: &'a [Token], left: u32) -> Result<Found<'a>, Halt>
    requires { left < 2 ^ 32 - 1 }
    ensures read { IfOk result (λ f. then_read ((readers left).expr tokens.now) at_paren ≡ done (tree_of f.expr) f.rest.now) }
    ensures halts { IfErr result (λ h. HaltsAs (then_read ((readers left).expr tokens.now) at_paren) h) }
    ensures tall { IfOk result (λ f. f.height ≡ height (tree_of f.expr)) }
    ensures high { IfOk result (λ f. f.height ≤ left + 1) }
    ensures shorter { IfOk result (λ f. length f.rest.now < length tokens.now) }
{
    let a = read_expr(alloc, tokens, left)?;
    let rest = past_mark(a.rest, MarkKind::ParenClose)?;
    Ok(Found {
        expr: make_paren(alloc, a.expr)?,
        height: a.height + 1,
        rest,
    })
}

/// A name, or a select of it. The tokens are those behind the name.
#[tactic(auto, using(crate::proofs::ExprSteps::named_steps))]
#[cycle(expr)]
fn read_named<'a>(
    alloc: Global,
    name: &Name,
    tokens: &'a [Token],
    left: u32,
) -> Result<Found<'a>, Halt>
    ensures read { IfOk result (λ f. named_at (downs left) name.now tokens.now ≡ done (tree_of f.expr) f.rest.now) }
    ensures halts { IfErr result (λ h. HaltsAs (named_at (downs left) name.now tokens.now) h) }
    ensures tall { IfOk result (λ f. f.height ≡ height (tree_of f.expr)) }
    ensures high { IfOk result (λ f. f.height ≤ left) }
    ensures shorter { IfOk result (λ f. length f.rest.now ≤ length tokens.now) }
{
    let name = name.copy(alloc)?;
    let Some(inner) = after_mark(tokens, MarkKind::BracketOpen) else {
        return Ok(Found {
            expr: make_name(name),
            height: 0,
            rest: tokens,
        });
    };
    let below = deeper(left, 0, tokens)?;
    let selected = read_select(alloc, inner, below)?;
    Ok(Found {
        expr: make_select(alloc, name, selected.index, selected.right)?,
        height: selected.height + 1,
        rest: selected.rest,
    })
}

/// An index, or the two ends of a part, and the closing bracket.
#[tactic(auto, using(crate::proofs::ExprSteps::select_steps))]
#[cycle(expr)]
pub fn read_select<'a>(alloc: Global, tokens: &'a [Token], left: u32) -> Result<Selected<'a>, Halt>
    ensures read { IfOk result (λ s. select (readers left) tokens.now ≡ done (selection_of s.index s.right) s.rest.now) }
    ensures halts { IfErr result (λ h. HaltsAs (select (readers left) tokens.now) h) }
    ensures tall { IfOk result (λ s. s.height ≡ select_height (selection_of s.index s.right)) }
    ensures high { IfOk result (λ s. s.height ≤ left) }
    ensures shorter { IfOk result (λ s. length s.rest.now < length tokens.now) }
{
    let index = read_expr(alloc, tokens, left)?;
    if let Some(rest) = after_mark(index.rest, MarkKind::BracketClose) {
        return Ok(Selected {
            index: index.expr,
            right: None,
            height: index.height,
            rest,
        });
    }
    let (kind, inner) = past_divider(index.rest)?;
    let right = read_expr(alloc, inner, left)?;
    let rest = past_mark(right.rest, MarkKind::BracketClose)?;
    Ok(Selected {
        index: index.expr,
        right: Some(PartEnd {
            kind,
            expr: right.expr,
        }),
        height: index.height.max(right.height),
        rest,
    })
}

/// A concatenation or a replication, whose tokens are those behind its first brace and whose parts have `left` levels
/// below their first.
#[tactic(auto, using(crate::proofs::ExprSteps::brace_steps))]
#[cycle(expr)]
fn read_braces<'a>(alloc: Global, tokens: &'a [Token], left: u32) -> Result<Found<'a>, Halt>
    requires { left < 2 ^ 32 - 1 }
    ensures read { IfOk result (λ f. then_read ((readers left).expr tokens.now) (behind_first (readers left)) ≡ done (tree_of f.expr) f.rest.now) }
    ensures halts { IfErr result (λ h. HaltsAs (then_read ((readers left).expr tokens.now) (behind_first (readers left))) h) }
    ensures tall { IfOk result (λ f. f.height ≡ height (tree_of f.expr)) }
    ensures high { IfOk result (λ f. f.height ≤ left + 1) }
    ensures shorter { IfOk result (λ f. length f.rest.now < length tokens.now) }
{
    let first = read_expr(alloc, tokens, left)?;
    match after_mark(first.rest, MarkKind::BraceOpen) {
        Some(inner) => read_repeat(alloc, first, inner, left),
        None => read_join(alloc, first, left),
    }
}

/// A concatenation behind its first part.
#[tactic(auto, using(crate::proofs::ExprSteps::join_steps))]
#[cycle(expr)]
fn read_join<'a>(alloc: Global, first: Found<'a>, left: u32) -> Result<Found<'a>, Halt>
    requires room { left < 2 ^ 32 - 1 }
    requires tall { first.height ≡ height (tree_of first.expr) }
    requires high { first.height ≤ left }
    ensures read { IfOk result (λ f. in_join (readers left) (tree_of first.entry.expr) first.entry.rest.now ≡ done (tree_of f.expr) f.rest.now) }
    ensures halts { IfErr result (λ h. HaltsAs (in_join (readers left) (tree_of first.entry.expr) first.entry.rest.now) h) }
    ensures tall { IfOk result (λ f. f.height ≡ height (tree_of f.expr)) }
    ensures high { IfOk result (λ f. f.height ≤ left + 1) }
    ensures shorter { IfOk result (λ f. length f.rest.now < length first.entry.rest.now) }
{
    let parts = read_more(alloc, first, left)?;
    let rest = past_mark(parts.rest, MarkKind::BraceClose)?;
    Ok(Found {
        expr: make_join(parts.exprs),
        height: parts.height + 1,
        rest,
    })
}

/// A replication behind its count and second brace, which the tokens stand behind.
#[tactic(auto, using(crate::proofs::ExprSteps::repeat_steps))]
#[cycle(expr)]
fn read_repeat<'a>(
    alloc: Global,
    count: Found<'a>,
    tokens: &'a [Token],
    left: u32,
) -> Result<Found<'a>, Halt>
    requires room { left < 2 ^ 32 - 1 }
    requires tall { count.height ≡ height (tree_of count.expr) }
    requires high { count.height ≤ left }
    ensures read { IfOk result (λ f. then_read ((readers left).expr tokens.now) (behind_part (readers left) (tree_of count.entry.expr)) ≡ done (tree_of f.expr) f.rest.now) }
    ensures halts { IfErr result (λ h. HaltsAs (then_read ((readers left).expr tokens.now) (behind_part (readers left) (tree_of count.entry.expr))) h) }
    ensures tall { IfOk result (λ f. f.height ≡ height (tree_of f.expr)) }
    ensures high { IfOk result (λ f. f.height ≤ left + 1) }
    ensures shorter { IfOk result (λ f. length f.rest.now < length tokens.now) }
{
    let parts = read_exprs(alloc, tokens, left)?;
    let last = past_mark(parts.rest, MarkKind::BraceClose)?;
    let rest = past_mark(last, MarkKind::BraceClose)?;
    Ok(Found {
        expr: make_repeat(alloc, count.expr, parts.exprs)?,
        height: count.height.max(parts.height) + 1,
        rest,
    })
}

/// One expression or more, with commas between them.
#[tactic(auto, using(crate::proofs::ExprSteps::exprs_steps))]
#[cycle(expr)]
pub fn read_exprs<'a>(alloc: Global, tokens: &'a [Token], left: u32) -> Result<Several<'a>, Halt>
    ensures read { IfOk result (λ s. exprs_at (readers left) tokens.now ≡ done (map tree_of s.exprs) s.rest.now) }
    ensures halts { IfErr result (λ h. HaltsAs (exprs_at (readers left) tokens.now) h) }
    ensures tall { IfOk result (λ s. heights (trees_of (map tree_of s.exprs)) ≡ s.height + 1) }
    ensures high { IfOk result (λ s. s.height ≤ left) }
    ensures shorter { IfOk result (λ s. length s.rest.now < length tokens.now) }
{
    let first = read_expr(alloc, tokens, left)?;
    read_more(alloc, first, left)
}

/// The first expression of a list and those that follow it.
#[tactic(auto, using(crate::proofs::ExprSteps::more_steps))]
#[cycle(expr)]
fn read_more<'a>(alloc: Global, first: Found<'a>, left: u32) -> Result<Several<'a>, Halt>
    requires tall { first.height ≡ height (tree_of first.expr) }
    requires high { first.height ≤ left }
    ensures read { IfOk result (λ s. (bs : List ExprTree) × (map tree_of s.exprs ≡ tree_of first.entry.expr ∷ bs)
        × (more (mark_in Comma) (readers left).expr first.entry.rest.now ≡ done bs s.rest.now)) }
    ensures halts { IfErr result (λ h. HaltsAs (more (mark_in Comma) (readers left).expr first.entry.rest.now) h) }
    ensures tall { IfOk result (λ s. heights (trees_of (map tree_of s.exprs)) ≡ s.height + 1) }
    ensures high { IfOk result (λ s. s.height ≤ left) }
    ensures shorter { IfOk result (λ s. length s.rest.now ≤ length first.entry.rest.now) }
{
    let mut exprs = List::new(alloc);
    exprs.push(first.expr)?;
    let mut height = first.height;
    let mut rest = first.rest;
    while let Some(after) = after_mark(rest, MarkKind::Comma) {
        let next = read_expr(alloc, after, left)?;
        exprs.push(next.expr)?;
        height = height.max(next.height);
        rest = next.rest;
    }
    Ok(Several {
        exprs,
        height,
        rest,
    })
}
