//! The labels of a `case`, which has `left` levels below its first.
ghost use Rattle.std.specs.Prelude.{◌≡◌, ◌<◌, map, length, IfOk, IfErr, IfSome, IfNone};
ghost use Rattle.verilog_exprs.specs.Halts.{HaltsAs};
ghost use Rattle.verilog_exprs.specs.Next.{Takes, Lacks};
ghost use Rattle.verilog_reading.specs.Lexemes.{Masked, mask_in};
ghost use Rattle.verilog_reading.specs.Outcome.{done};
ghost use Rattle.verilog_reading.specs.StmtReader as reader;
ghost use Rattle.verilog_reading.specs.StmtReader.{lower, value_label};
ghost use Rattle.verilog_reading.specs.StmtTree.{label_tree_of, by_mask};
ghost use Rattle.verilog_stmts.specs.Forms.{labels_at};

use crate::make::{make_mask, make_value};
use cdc_base::List;
use std::alloc::Global;
use verilog_ast::Label;
use verilog_exprs::expr::read_expr;
use verilog_exprs::halt::Halt;
use verilog_exprs::tokens::{Read, after_mark};
use verilog_lex::{MarkKind, Token, TokenKind};

/// One label or more, with commas between them.
#[tactic(auto, using(crate::proofs::LabelSteps::labels_steps))]
pub fn read_labels<'a>(
    alloc: Global,
    masks: bool,
    tokens: &'a [Token],
    left: u32,
) -> Result<Read<'a, List<Label>>, Halt>
    ensures read { IfOk result (λ r. labels_at (lower left) masks tokens.now ≡ done (map label_tree_of r.item) r.rest.now) }
    ensures halts { IfErr result (λ h. HaltsAs (labels_at (lower left) masks tokens.now) h) }
    ensures shorter { IfOk result (λ r. length r.rest.now < length tokens.now) }
{
    let first = read_label(alloc, masks, tokens, left)?;
    let mut labels = List::new(alloc);
    labels.push(first.item)?;
    let mut rest = first.rest;
    while let Some(after) = after_mark(rest, MarkKind::Comma) {
        let next = read_label(alloc, masks, after, left)?;
        labels.push(next.item)?;
        rest = next.rest;
    }
    Ok(Read { item: labels, rest })
}

/// A value, or a mask where masks may be among the labels.
#[tactic(auto, using(crate::proofs::LabelSteps::label_steps))]
fn read_label<'a>(
    alloc: Global,
    masks: bool,
    tokens: &'a [Token],
    left: u32,
) -> Result<Read<'a, Label>, Halt>
    ensures read { IfOk result (λ r. reader.label (lower left) masks tokens.now ≡ done (label_tree_of r.item) r.rest.now) }
    ensures halts { IfErr result (λ h. HaltsAs (reader.label (lower left) masks tokens.now) h) }
    ensures shorter { IfOk result (λ r. length r.rest.now < length tokens.now) }
{
    if !masks {
        return read_value(alloc, tokens, left);
    }
    match after_mask(tokens) {
        Some((item, rest)) => Ok(Read { item, rest }),
        None => read_value(alloc, tokens, left),
    }
}

/// A label that is an expression.
#[tactic(auto, using(crate::proofs::LabelSteps::value_steps))]
fn read_value<'a>(alloc: Global, tokens: &'a [Token], left: u32) -> Result<Read<'a, Label>, Halt>
    ensures read { IfOk result (λ r. value_label (lower left) tokens.now ≡ done (label_tree_of r.item) r.rest.now) }
    ensures halts { IfErr result (λ h. HaltsAs (value_label (lower left) tokens.now) h) }
    ensures shorter { IfOk result (λ r. length r.rest.now < length tokens.now) }
{
    let value = read_expr(alloc, tokens, left)?;
    Ok(Read {
        item: make_value(value.expr),
        rest: value.rest,
    })
}

/// The mask that stands next, and the tokens behind it.
fn after_mask(tokens: &[Token]) -> Option<(Label, &[Token])>
    ensures found { IfSome result (λ p. (n : Masked) × Takes mask_in n tokens.now p.1.now × (label_tree_of p.0 ≡ by_mask n.value n.opened n.width)) }
    ensures free { IfNone result (Lacks mask_in tokens.now) }
    ensures shorter { IfSome result (λ p. length p.1.now < length tokens.now) }
{
    let (first, rest) = tokens.split_first()?;
    let TokenKind::Mask { value, open, width } = first.kind else {
        return None;
    };
    Some((make_mask(value, open, width), rest))
}
