//! Statements as text.
ghost use Rattle.std.specs.Prelude.{◌≡◌, IfOk, map};
ghost use Rattle.verilog_parse.specs.Texts.{printed_stmt, printed_arm, printed_label, printed_row, printed_default};
ghost use Rattle.verilog_parse.specs.Pieces.{set_pieces, delay_pieces, opening};
ghost use Rattle.verilog_parse.specs.Printed.{Adds, with_commas, in_turn};
ghost use Rattle.verilog_reading.specs.ExprTree.{tree_of, target_tree_of};
ghost use Rattle.verilog_reading.specs.StmtReading as reading;
ghost use Rattle.verilog_reading.specs.StmtReading.{assign_mark};

use crate::text::expr::{put_expr, put_target};
use crate::text::token::{
    put_comma, put_line_end, put_mark, put_mask, put_name, put_number, put_word,
};
use cdc_base::{NoMemory, NumberSize};
use std::alloc::Global;
use verilog_ast::{CaseItem, Delay, Expr, Label, Stmt, Target};
use verilog_lex::{Keyword, MarkKind};

#[cycle(put)]
pub fn put_stmt(alloc: Global, out: &mut Vec<u8>, stmt: &Stmt) -> Result<(), NoMemory>
    ensures { IfOk result (λ _. Adds out.old.items (printed_stmt stmt.now) out.new.items) }
{
    match stmt {
        Stmt::Null => put_mark(out, MarkKind::Semicolon),
        Stmt::Set {
            blocking,
            delay,
            target,
            value,
        } => put_set(alloc, out, *blocking, delay, target, value),
        Stmt::If { cond, yes, other } => {
            put_opening(alloc, out, Keyword::If, cond)?;
            put_stmt(alloc, out, yes)?;
            match other {
                None => Ok(()),
                Some(other) => {
                    put_word(out, Keyword::Else)?;
                    put_stmt(alloc, out, other)
                }
            }
        }
        Stmt::Case {
            masks,
            subject,
            items,
            default,
        } => {
            put_opening(alloc, out, case_word(*masks), subject)?;
            put_line_end(out)?;
            put_case_items(alloc, out, items.as_slice())?;
            put_default(alloc, out, default)?;
            put_word(out, Keyword::EndCase)
        }
        Stmt::Block(stmts) => {
            put_word(out, Keyword::Begin)?;
            put_line_end(out)?;
            put_stmts(alloc, out, stmts.as_slice())?;
            put_word(out, Keyword::End)
        }
    }
}

fn put_set(
    alloc: Global,
    out: &mut Vec<u8>,
    blocking: bool,
    delay: &Option<Delay>,
    target: &Target,
    value: &Expr,
) -> Result<(), NoMemory>
    ensures { IfOk result (λ _. Adds out.old.items (set_pieces blocking delay.now (target_tree_of target.now) (tree_of value.now)) out.new.items) }
{
    put_target(alloc, out, target)?;
    put_mark(out, set_mark(blocking))?;
    put_delay(alloc, out, delay)?;
    put_expr(alloc, out, value)?;
    put_mark(out, MarkKind::Semicolon)
}

fn set_mark(blocking: bool) -> MarkKind
    ensures { result ≡ assign_mark blocking }
{
    if blocking {
        MarkKind::Equals
    } else {
        MarkKind::LessEqual
    }
}

fn put_delay(alloc: Global, out: &mut Vec<u8>, delay: &Option<Delay>) -> Result<(), NoMemory>
    ensures { IfOk result (λ _. Adds out.old.items (delay_pieces delay.now) out.new.items) }
{
    let Some(delay) = delay else {
        return Ok(());
    };
    put_mark(out, MarkKind::Hash)?;
    match delay {
        Delay::Number(value) => put_number(alloc, out, *value, 64, NumberSize::Sized),
        Delay::Name(name) => put_name(out, name),
    }
}

fn case_word(masks: bool) -> Keyword
    ensures { result ≡ reading.case_word masks }
{
    if masks { Keyword::CaseZ } else { Keyword::Case }
}

/// The word, and the expression in parentheses.
fn put_opening(alloc: Global, out: &mut Vec<u8>, word: Keyword, expr: &Expr) -> Result<(), NoMemory>
    ensures { IfOk result (λ _. Adds out.old.items (opening word (tree_of expr.now)) out.new.items) }
{
    put_word(out, word)?;
    put_mark(out, MarkKind::ParenOpen)?;
    put_expr(alloc, out, expr)?;
    put_mark(out, MarkKind::ParenClose)
}

#[cycle(put)]
fn put_default(
    alloc: Global,
    out: &mut Vec<u8>,
    default: &Option<Box<Stmt>>,
) -> Result<(), NoMemory>
    ensures { IfOk result (λ _. Adds out.old.items (printed_default «default».now) out.new.items) }
{
    let Some(body) = default else {
        return Ok(());
    };
    put_word(out, Keyword::Default)?;
    put_mark(out, MarkKind::Colon)?;
    put_stmt(alloc, out, body)?;
    put_line_end(out)
}

#[cycle(put)]
fn put_case_item(alloc: Global, out: &mut Vec<u8>, item: &CaseItem) -> Result<(), NoMemory>
    ensures { IfOk result (λ _. Adds out.old.items (printed_arm item.now) out.new.items) }
{
    put_labels(alloc, out, item.labels.as_slice())?;
    put_mark(out, MarkKind::Colon)?;
    put_stmt(alloc, out, &item.body)?;
    put_line_end(out)
}

fn put_labels(alloc: Global, out: &mut Vec<u8>, labels: &[Label]) -> Result<(), NoMemory>
    ensures { IfOk result (λ _. Adds out.old.items (with_commas (map printed_label labels.now)) out.new.items) }
{
    for (at, label) in labels.iter().enumerate() {
        put_comma(out, at)?;
        put_label(alloc, out, label)?;
    }
    Ok(())
}

fn put_label(alloc: Global, out: &mut Vec<u8>, label: &Label) -> Result<(), NoMemory>
    ensures { IfOk result (λ _. Adds out.old.items (printed_label label.now) out.new.items) }
{
    match label {
        Label::Value(value) => put_expr(alloc, out, value),
        Label::Mask { value, open, width } => put_mask(alloc, out, *value, *open, *width),
    }
}

#[cycle(put)]
fn put_case_items(alloc: Global, out: &mut Vec<u8>, items: &[CaseItem]) -> Result<(), NoMemory>
    ensures { IfOk result (λ _. Adds out.old.items (in_turn (map printed_arm items.now)) out.new.items) }
{
    for item in items {
        put_case_item(alloc, out, item)?;
    }
    Ok(())
}

#[cycle(put)]
fn put_stmts(alloc: Global, out: &mut Vec<u8>, stmts: &[Stmt]) -> Result<(), NoMemory>
    ensures { IfOk result (λ _. Adds out.old.items (in_turn (map printed_row stmts.now)) out.new.items) }
{
    for stmt in stmts {
        put_stmt(alloc, out, stmt)?;
        put_line_end(out)?;
    }
    Ok(())
}
