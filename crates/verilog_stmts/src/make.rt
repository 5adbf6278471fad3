//! Trees of parts that were read.
ghost use Rattle.std.specs.Prelude.{◌≡◌, map, IfOk};
ghost use Rattle.verilog_exprs.specs.Selected.{selection_of};
ghost use Rattle.verilog_reading.specs.ExprTree.{tree_of, target_tree_of, target_trees_of, whole, join_of};
ghost use Rattle.verilog_reading.specs.StmtTree.{stmt_tree_of, stmt_trees_of, null, set, when, either, switch, switch_else, block, label_tree_of, by_value, by_mask, arms_of};
ghost use Rattle.verilog_reading.specs.TargetReader.{aimed};
ghost use Rattle.verilog_stmts.specs.Forms.{subject_tree, arm_tree_of};

use cdc_base::{List, Name, NoMemory};
use std::alloc::Global;
use verilog_ast::{CaseItem, Delay, Expr, Label, Stmt, Target};
use verilog_exprs::make::PartEnd;

/// What a `case` compares, and whether masks may be among its labels.
#[derive(Drop)]
pub struct Subject {
    pub masks: bool,
    pub value: Expr,
}

pub fn make_whole(name: Name) -> Target
    ensures { target_tree_of result ≡ whole name }
{
    Target::Whole(name)
}

/// The bit at the index, or the part from the index to `right`.
pub fn make_aimed(name: Name, index: Expr, right: Option<PartEnd>) -> Target
    ensures { target_tree_of result ≡ aimed name (selection_of index right) }
{
    match right {
        None => Target::At { name, index },
        Some(right) => Target::Part {
            name,
            kind: right.kind,
            left: index,
            right: right.expr,
        },
    }
}

pub fn make_targets(parts: List<Target>) -> Target
    ensures { target_tree_of result ≡ join_of (target_trees_of (map target_tree_of parts)) }
{
    Target::Join(parts)
}

pub fn boxed_stmt(alloc: Global, stmt: Stmt) -> Result<Box<Stmt>, NoMemory>
    ensures { IfOk result (λ b. b.value ≡ stmt) }
{
    match Box::new(alloc, stmt) {
        Ok(boxed) => Ok(boxed),
        Err(_) => Err(NoMemory),
    }
}

pub fn make_null() -> Stmt
    ensures { stmt_tree_of result ≡ null }
{
    Stmt::Null
}

pub fn make_set(blocking: bool, delay: Option<Delay>, target: Target, value: Expr) -> Stmt
    ensures { stmt_tree_of result ≡ set blocking delay (target_tree_of target) (tree_of value) }
{
    Stmt::Set {
        blocking,
        delay,
        target,
        value,
    }
}

pub fn make_when(alloc: Global, cond: Expr, yes: Stmt) -> Result<Stmt, NoMemory>
    ensures { IfOk result (λ s. stmt_tree_of s ≡ when (tree_of cond) (stmt_tree_of yes)) }
{
    Ok(Stmt::If {
        cond,
        yes: boxed_stmt(alloc, yes)?,
        other: None,
    })
}

pub fn make_either(alloc: Global, cond: Expr, yes: Stmt, other: Stmt) -> Result<Stmt, NoMemory>
    ensures { IfOk result (λ s. stmt_tree_of s ≡ either (tree_of cond) (stmt_tree_of yes) (stmt_tree_of other)) }
{
    Ok(Stmt::If {
        cond,
        yes: boxed_stmt(alloc, yes)?,
        other: Some(boxed_stmt(alloc, other)?),
    })
}

pub fn make_value(value: Expr) -> Label
    ensures { label_tree_of result ≡ by_value (tree_of value) }
{
    Label::Value(value)
}

pub fn make_mask(value: u64, open: u64, width: u8) -> Label
    ensures { label_tree_of result ≡ by_mask value «open» width }
{
    Label::Mask { value, open, width }
}

pub fn make_arm(labels: List<Label>, body: Stmt) -> CaseItem
    ensures { arm_tree_of result ≡ record { labels = map label_tree_of labels; body = stmt_tree_of body } }
{
    CaseItem { labels, body }
}

/// A `case` without a `default`.
pub fn make_switch(subject: Subject, items: List<CaseItem>) -> Stmt
    ensures { stmt_tree_of result ≡ switch (subject_tree subject) (arms_of (map arm_tree_of items)) }
{
    Stmt::Case {
        masks: subject.masks,
        subject: subject.value,
        items,
        default: None,
    }
}

/// A `case` with a `default`.
pub fn make_switch_else(
    alloc: Global,
    subject: Subject,
    items: List<CaseItem>,
    body: Stmt,
) -> Result<Stmt, NoMemory>
    ensures { IfOk result (λ s. stmt_tree_of s ≡ switch_else (subject_tree subject) (arms_of (map arm_tree_of items)) (stmt_tree_of body)) }
{
    Ok(Stmt::Case {
        masks: subject.masks,
        subject: subject.value,
        items,
        default: Some(boxed_stmt(alloc, body)?),
    })
}

pub fn make_block(stmts: List<Stmt>) -> Stmt
    ensures { stmt_tree_of result ≡ block (stmt_trees_of (map stmt_tree_of stmts)) }
{
    Stmt::Block(stmts)
}
