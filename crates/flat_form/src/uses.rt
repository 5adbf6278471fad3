//! Which bits of signals expressions read and statements may assign.
ghost use Rattle.std.specs.Prelude.{◌≡◌, ℕ, ◌<◌, map, IfOk};
ghost use Rattle.cell_graph.specs.Tree.{bit_at};
ghost use Rattle.flat_meaning.specs.Flat.{no_items, is_target, are_targets, assigns, case_assigns, all_assign};
ghost use Rattle.flat_meaning.specs.Design.{width_in};
ghost use Rattle.flat_meaning.specs.Assigned.{is_within, reaches, reach, may_assign, may_assign_in, any_may_assign};
ghost use Rattle.flat_form.specs.View.{expr_of, exprs_of, target_of, targets_of, stmt_of, stmts_of, arm_of, items_of};
ghost use Rattle.flat_form.specs.Masks.{Adds, Lists};
ghost use Rattle.flat_meaning.specs.Law.{expr_reads};
ghost use Rattle.flat_form.specs.Uses.{exprs_read, target_reads, targets_read, stmt_reads, items_read, stmts_read};

use crate::bits::{bits, low_bits};
use crate::flat::{FCaseItem, FExpr, FStmt, FTarget};
use crate::masks::Masks;
use cdc_base::{NoMemory, Signal};

/// All bits of a signal.
pub fn all_bits(signals: &[Signal], sig: u32) -> u64
    ensures { (i : ℕ) → i < 64 → bit_at result i ≡ is_within 0 (width_in signals.now sig) i }
{
    match signals.get(usize::try_from(sig).unwrap_or(usize::MAX)) {
        Some(signal) => low_bits(signal.width),
        None => 0,
    }
}

/// Adds the bits that an expression reads. A variable index reads its whole signal. A read of a large memory is a long
/// chain of choices, which is walked without a recursion.
#[cycle(add_reads)]
pub fn add_reads(signals: &[Signal], expr: &FExpr, reads: &mut Masks) -> Result<(), NoMemory>
    ensures added { IfOk result (λ _. Adds reads.old reads.new (expr_reads (width_in signals.now) (expr_of expr.now))) }
{
    let mut inner = expr;
    loop {
        match inner {
            FExpr::Number { .. } => return Ok(()),
            FExpr::Read { sig, at, width } => return reads.add(*sig, bits(*at, *width)),
            FExpr::At { sig, index, .. } => {
                reads.add(*sig, all_bits(signals, *sig))?;
                inner = index;
            }
            FExpr::Unary { a, .. } => inner = a,
            FExpr::Binary { a, b, .. } => {
                add_reads(signals, b, reads)?;
                inner = a;
            }
            FExpr::Choose {
                cond,
                yes,
                other,
                ..
            } => {
                add_reads(signals, cond, reads)?;
                add_reads(signals, yes, reads)?;
                inner = other;
            }
            FExpr::Gate { inputs, .. } => return add_reads_of(signals, inputs.as_slice(), reads),
            FExpr::Join { parts, .. } => return add_reads_of(signals, parts.as_slice(), reads),
            FExpr::Repeat { parts, .. } => return add_reads_of(signals, parts.as_slice(), reads),
        }
    }
}

#[cycle(add_reads)]
pub fn add_reads_of(signals: &[Signal], exprs: &[FExpr], reads: &mut Masks) -> Result<(), NoMemory>
    ensures added { IfOk result (λ _. Adds reads.old reads.new (exprs_read (width_in signals.now) (exprs_of (map expr_of exprs.now)))) }
{
    for expr in exprs {
        add_reads(signals, expr, reads)?;
    }
    Ok(())
}

/// Adds the bits that the indices of a target read.
#[cycle(add_target_reads)]
pub fn add_target_reads(
    signals: &[Signal],
    target: &FTarget,
    reads: &mut Masks,
) -> Result<(), NoMemory>
    ensures added { IfOk result (λ _. Adds reads.old reads.new (target_reads (width_in signals.now) (target_of target.now))) }
{
    match target {
        FTarget::Whole { .. } | FTarget::Part { .. } => Ok(()),
        FTarget::At { index, .. } => add_reads(signals, index, reads),
        FTarget::Join(parts) => add_target_reads_of(signals, parts.as_slice(), reads),
    }
}

#[cycle(add_target_reads)]
fn add_target_reads_of(
    signals: &[Signal],
    targets: &[FTarget],
    reads: &mut Masks,
) -> Result<(), NoMemory>
    ensures added { IfOk result (λ _. Adds reads.old reads.new (targets_read (width_in signals.now) (targets_of (map target_of targets.now)))) }
{
    for target in targets {
        add_target_reads(signals, target, reads)?;
    }
    Ok(())
}

/// Adds the bits that the expressions of a statement read.
#[cycle(add_statement_reads)]
pub fn add_statement_reads(
    signals: &[Signal],
    stmt: &FStmt,
    reads: &mut Masks,
) -> Result<(), NoMemory>
    ensures added { IfOk result (λ _. Adds reads.old reads.new (stmt_reads (width_in signals.now) (stmt_of stmt.now))) }
{
    match stmt {
        FStmt::Null => Ok(()),
        FStmt::Set { target, value, .. } => {
            add_target_reads(signals, target, reads)?;
            add_reads(signals, value, reads)
        }
        FStmt::If { cond, yes, other } => {
            add_reads(signals, cond, reads)?;
            add_statement_reads(signals, yes, reads)?;
            match other {
                Some(other) => add_statement_reads(signals, other, reads),
                None => Ok(()),
            }
        }
        FStmt::Case {
            subject,
            items,
            default,
        } => {
            add_reads(signals, subject, reads)?;
            add_item_reads(signals, items.as_slice(), reads)?;
            match default {
                Some(default) => add_statement_reads(signals, default, reads),
                None => Ok(()),
            }
        }
        FStmt::Block(stmts) => add_block_reads(signals, stmts.as_slice(), reads),
    }
}

#[cycle(add_statement_reads)]
fn add_block_reads(signals: &[Signal], stmts: &[FStmt], reads: &mut Masks) -> Result<(), NoMemory>
    ensures added { IfOk result (λ _. Adds reads.old reads.new (stmts_read (width_in signals.now) (stmts_of (map stmt_of stmts.now)))) }
{
    for stmt in stmts {
        add_statement_reads(signals, stmt, reads)?;
    }
    Ok(())
}

#[cycle(add_statement_reads)]
fn add_item_reads(
    signals: &[Signal],
    items: &[FCaseItem],
    reads: &mut Masks,
) -> Result<(), NoMemory>
    ensures added { IfOk result (λ _. Adds reads.old reads.new (items_read (width_in signals.now) (items_of (map arm_of items.now) no_items))) }
{
    for item in items {
        add_reads_of(signals, item.labels.as_slice(), reads)?;
        add_statement_reads(signals, &item.body, reads)?;
    }
    Ok(())
}

/// Adds the bits that an assignment to the target may assign. A variable index may assign each bit of its signal.
#[cycle(add_assigned)]
pub fn add_assigned(
    signals: &[Signal],
    target: &FTarget,
    assigned: &mut Masks,
) -> Result<(), NoMemory>
    ensures added { IfOk result (λ _. Adds assigned.old assigned.new (reaches (width_in signals.now) (target_of target.now))) }
    ensures listed { IfOk result (λ _. Lists assigned.old assigned.new (is_target (target_of target.now))) }
{
    match target {
        FTarget::Whole { sig } | FTarget::At { sig, .. } => {
            assigned.add(*sig, all_bits(signals, *sig))
        }
        FTarget::Part { sig, at, width } => assigned.add(*sig, bits(*at, *width)),
        FTarget::Join(parts) => add_assigned_of(signals, parts.as_slice(), assigned),
    }
}

#[cycle(add_assigned)]
fn add_assigned_of(
    signals: &[Signal],
    targets: &[FTarget],
    assigned: &mut Masks,
) -> Result<(), NoMemory>
    ensures added { IfOk result (λ _. Adds assigned.old assigned.new (reach (width_in signals.now) (targets_of (map target_of targets.now)))) }
    ensures listed { IfOk result (λ _. Lists assigned.old assigned.new (are_targets (targets_of (map target_of targets.now)))) }
{
    for target in targets {
        add_assigned(signals, target, assigned)?;
    }
    Ok(())
}

/// Adds the bits that a statement may assign.
#[cycle(add_may_assign)]
pub fn add_may_assign(
    signals: &[Signal],
    stmt: &FStmt,
    assigned: &mut Masks,
) -> Result<(), NoMemory>
    ensures added { IfOk result (λ _. Adds assigned.old assigned.new (may_assign (width_in signals.now) (stmt_of stmt.now))) }
    ensures listed { IfOk result (λ _. Lists assigned.old assigned.new (assigns (stmt_of stmt.now))) }
{
    match stmt {
        FStmt::Null => Ok(()),
        FStmt::Set { target, .. } => add_assigned(signals, target, assigned),
        FStmt::If { yes, other, .. } => {
            add_may_assign(signals, yes, assigned)?;
            match other {
                Some(other) => add_may_assign(signals, other, assigned),
                None => Ok(()),
            }
        }
        FStmt::Case { items, default, .. } => {
            add_items_may_assign(signals, items.as_slice(), assigned)?;
            match default {
                Some(default) => add_may_assign(signals, default, assigned),
                None => Ok(()),
            }
        }
        FStmt::Block(stmts) => add_block_may_assign(signals, stmts.as_slice(), assigned),
    }
}

#[cycle(add_may_assign)]
fn add_block_may_assign(
    signals: &[Signal],
    stmts: &[FStmt],
    assigned: &mut Masks,
) -> Result<(), NoMemory>
    ensures added { IfOk result (λ _. Adds assigned.old assigned.new (any_may_assign (width_in signals.now) (stmts_of (map stmt_of stmts.now)))) }
    ensures listed { IfOk result (λ _. Lists assigned.old assigned.new (all_assign (stmts_of (map stmt_of stmts.now)))) }
{
    for stmt in stmts {
        add_may_assign(signals, stmt, assigned)?;
    }
    Ok(())
}

#[cycle(add_may_assign)]
fn add_items_may_assign(
    signals: &[Signal],
    items: &[FCaseItem],
    assigned: &mut Masks,
) -> Result<(), NoMemory>
    ensures added { IfOk result (λ _. Adds assigned.old assigned.new (may_assign_in (width_in signals.now) (items_of (map arm_of items.now) no_items))) }
    ensures listed { IfOk result (λ _. Lists assigned.old assigned.new (case_assigns (items_of (map arm_of items.now) no_items))) }
{
    for item in items {
        add_may_assign(signals, &item.body, assigned)?;
    }
    Ok(())
}
