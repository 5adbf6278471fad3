//! What the first branch of reset form alone assigns keeps its value.
ghost use Rattle.std.specs.Prelude.{◌≡◌, ℕ, true, false, map, slice_get, IfOk};
ghost use Rattle.std.specs.Option.{option_map_or};
ghost use Rattle.flat_meaning.specs.Flat.{Stmt as FlatStmt, Set, Read, Whole, Part, stmt as row, no_stmts};
ghost use Rattle.flat_form.specs.View.{stmt_of, stmts_of, target_of, targets_of};
ghost use Rattle.flat_unfolding.specs.Names as n;
ghost use Rattle.flat_unfolding.specs.Widths.{all_true, stmt_keeps_sizes, target_keeps_sizes};
ghost use Rattle.flat_unfolding.specs.Processes.{as_one, kept, all_kept, branch_kept, rows_kept, with_kept as with_kept_of};
ghost use Rattle.flat_names.specs.declared.design.Entry.{Entry};
ghost use Rattle.flat_names.specs.Looks.{Shows};
ghost use Rattle.flat_process.specs.Kept.{AreAssigned, in_front, Grew};

use cdc_base::{List, NoMemory};
use flat_form::flat::{FExpr, FStmt, FTarget};
use flat_form::masks::Masks;
use flat_form::memory::push;
use flat_form::uses::add_may_assign;
use flat_names::scope::Look;

/// A body behind what the first branch keeps: each of its targets gets its own value, where the body assigns nothing of
/// the signal.
pub fn with_kept(look: &Look, branch: &FStmt, body: FStmt) -> Result<FStmt, NoMemory>
    ensures same { (l : n.Look) → Shows look.now l → IfOk result (λ r. stmt_of r ≡ with_kept_of (n.width_at l.entries) (stmt_of body) (stmt_of branch.now)) }
    ensures sizes { (l : n.Look) → Shows look.now l → stmt_keeps_sizes body ≡ true → IfOk result (λ r. stmt_keeps_sizes r ≡ true) }
{
    let mut assigned = Masks::new(look.alloc);
    add_may_assign(look.signals, &body, &mut assigned)?;
    let mut rows = Vec::new(look.alloc);
    keep_branch(look, &assigned, branch, &mut rows)?;
    behind(rows, body)
}

/// The rows and the body as one statement.
fn behind(rows: Vec<FStmt>, body: FStmt) -> Result<FStmt, NoMemory>
    ensures same { IfOk result (λ r. stmt_of r ≡ as_one (in_front (map stmt_of rows.items) (row (stmt_of body) no_stmts))) }
    ensures sizes { all_true (map stmt_keeps_sizes rows.items) ≡ true → stmt_keeps_sizes body ≡ true → IfOk result (λ r. stmt_keeps_sizes r ≡ true) }
{
    if rows.as_slice().is_empty() {
        return Ok(body);
    }
    let mut all = rows;
    push(&mut all, body)?;
    Ok(FStmt::Block(List::from_vec(all)))
}

/// Keeps what the branch assigns, an assignment or a block of these.
#[cycle(keep_branch)]
fn keep_branch(
    look: &Look,
    assigned: &Masks,
    branch: &FStmt,
    rows: &mut Vec<FStmt>,
) -> Result<(), NoMemory>
    ensures { (l : n.Look) (body : FlatStmt) → Shows look.now l → AreAssigned body assigned.now
        → IfOk result (λ _. Grew (branch_kept (n.width_at l.entries) body (stmt_of branch.now)) rows.old.items rows.new.items) }
{
    match branch {
        FStmt::Null | FStmt::If { .. } | FStmt::Case { .. } => Ok(()),
        FStmt::Set { target, .. } => keep_target(look, assigned, target, rows),
        FStmt::Block(stmts) => keep_rows(look, assigned, stmts.as_slice(), rows),
    }
}

#[cycle(keep_branch)]
fn keep_rows(
    look: &Look,
    assigned: &Masks,
    stmts: &[FStmt],
    rows: &mut Vec<FStmt>,
) -> Result<(), NoMemory>
    ensures { (l : n.Look) (body : FlatStmt) → Shows look.now l → AreAssigned body assigned.now
        → IfOk result (λ _. Grew (rows_kept (n.width_at l.entries) body (stmts_of (map stmt_of stmts.now))) rows.old.items rows.new.items) }
{
    for stmt in stmts {
        keep_branch(look, assigned, stmt, rows)?;
    }
    Ok(())
}

#[cycle(keep_target)]
fn keep_target(
    look: &Look,
    assigned: &Masks,
    target: &FTarget,
    rows: &mut Vec<FStmt>,
) -> Result<(), NoMemory>
    ensures { (l : n.Look) (body : FlatStmt) → Shows look.now l → AreAssigned body assigned.now
        → IfOk result (λ _. Grew (kept (n.width_at l.entries) body (target_of target.now)) rows.old.items rows.new.items) }
{
    match target {
        FTarget::Whole { sig } => keep_whole(look, assigned, *sig, rows),
        FTarget::Part { sig, at, width } => keep_part(assigned, *sig, *at, *width, rows),
        FTarget::At { .. } => Ok(()),
        FTarget::Join(parts) => keep_targets(look, assigned, parts.as_slice(), rows),
    }
}

#[cycle(keep_target)]
fn keep_targets(
    look: &Look,
    assigned: &Masks,
    targets: &[FTarget],
    rows: &mut Vec<FStmt>,
) -> Result<(), NoMemory>
    ensures { (l : n.Look) (body : FlatStmt) → Shows look.now l → AreAssigned body assigned.now
        → IfOk result (λ _. Grew (all_kept (n.width_at l.entries) body (targets_of (map target_of targets.now))) rows.old.items rows.new.items) }
{
    for target in targets {
        keep_target(look, assigned, target, rows)?;
    }
    Ok(())
}

fn keep_whole(
    look: &Look,
    assigned: &Masks,
    sig: u32,
    rows: &mut Vec<FStmt>,
) -> Result<(), NoMemory>
    ensures { (l : n.Look) (body : FlatStmt) → Shows look.now l → AreAssigned body assigned.now
        → IfOk result (λ _. Grew (kept (n.width_at l.entries) body (Whole sig)) rows.old.items rows.new.items) }
{
    if assigned.has(sig) {
        return Ok(());
    }
    let width = width_at(look, sig);
    push(rows, own(FTarget::Whole { sig }, sig, 0, width))
}

fn keep_part(
    assigned: &Masks,
    sig: u32,
    at: u8,
    width: u8,
    rows: &mut Vec<FStmt>,
) -> Result<(), NoMemory>
    ensures { (wid : ℕ → ℕ) (body : FlatStmt) → AreAssigned body assigned.now
        → IfOk result (λ _. Grew (kept wid body (Part sig at width)) rows.old.items rows.new.items) }
{
    if assigned.has(sig) {
        return Ok(());
    }
    push(rows, own(FTarget::Part { sig, at, width }, sig, at, width))
}

/// The bits of a signal, assigned to a target.
fn own(target: FTarget, sig: u32, at: u8, width: u8) -> FStmt
    ensures same { stmt_of result ≡ Set false (target_of target) (Read sig at width) }
    ensures sizes { target_keeps_sizes target ≡ true → stmt_keeps_sizes result ≡ true }
{
    FStmt::Set {
        blocking: false,
        target,
        value: FExpr::Read { sig, at, width },
    }
}

/// The number of bits of a signal, none of one that isn't declared.
fn width_at(look: &Look, sig: u32) -> u8
    ensures { result ≡ option_map_or (λ (e : Entry). e.width) (slice_get look.now.entries.now sig) 0 }
{
    match look.entry(sig) {
        Some(entry) => entry.width,
        None => 0,
    }
}
