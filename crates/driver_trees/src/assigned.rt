//! The bits that a statement may assign.
ghost use Rattle.std.specs.Prelude.{◌≡◌, ℕ, ◌<◌, Bool, ◌&&◌, ◌==◌, map, OnOk, unwrap_or};
ghost use Rattle.std.specs.Ordering.{nat_cmp};
ghost use Rattle.std.specs.BTreeMap.{get};
ghost use Rattle.cell_graph.specs.Tree.{bit_at};
ghost use Rattle.flat_form.specs.View.{target_of, targets_of, stmt_of, stmts_of, arm_of, items_of};
ghost use Rattle.flat_meaning.specs.Flat.{no_items, is_target, are_targets, assigns, case_assigns, all_assign};
ghost use Rattle.flat_meaning.specs.Assigned.{reaches, reach, may_assign, may_assign_in, any_may_assign};
ghost use Rattle.driver_trees.specs.Presents.{width_in};
ghost use Rattle.driver_trees.specs.Collected.{Adds};
ghost use Rattle.driver_trees.specs.Statements.{other_of};

use crate::memory::insert;
use crate::present::Present;
use cdc_base::NoMemory;
use flat_form::bits::{bits, low_bits};
use flat_form::{FCaseItem, FStmt, FTarget};
use std::collections::BTreeMap;

/// For each signal the bits that may be assigned, bit i of the mask for bit i of the signal.
pub type Assigned = BTreeMap<u32, u64>;

/// Adds what the statement may assign.
#[cycle(collect)]
pub fn collect(
    present: &Present,
    statement: &FStmt,
    assigned: &mut Assigned,
) -> Result<(), NoMemory>
    ensures adds { (wid : ℕ → ℕ) → ((s : ℕ) → width_in present.now s ≡ wid s)
        → OnOk result (Adds assigned.old assigned.new (assigns (stmt_of statement.now)) (may_assign wid (stmt_of statement.now))) }
{
    match statement {
        FStmt::Null => Ok(()),
        FStmt::Set { target, .. } => collect_target(present, target, assigned),
        FStmt::If { yes, other, .. } => {
            collect(present, yes, assigned)?;
            collect_other(present, other, assigned)
        }
        FStmt::Case { items, default, .. } => {
            collect_items(present, items.as_slice(), assigned)?;
            collect_other(present, default, assigned)
        }
        FStmt::Block(parts) => collect_all(present, parts.as_slice(), assigned),
    }
}

#[cycle(collect)]
fn collect_other(
    present: &Present,
    other: &Option<Box<FStmt>>,
    assigned: &mut Assigned,
) -> Result<(), NoMemory>
    ensures adds { (wid : ℕ → ℕ) → ((s : ℕ) → width_in present.now s ≡ wid s)
        → OnOk result (Adds assigned.old assigned.new (assigns (other_of other.now)) (may_assign wid (other_of other.now))) }
{
    match other {
        Some(other) => collect(present, other, assigned),
        None => Ok(()),
    }
}

#[cycle(collect)]
fn collect_all(present: &Present, parts: &[FStmt], assigned: &mut Assigned) -> Result<(), NoMemory>
    ensures adds { (wid : ℕ → ℕ) → ((s : ℕ) → width_in present.now s ≡ wid s)
        → OnOk result (Adds assigned.old assigned.new (all_assign (stmts_of (map stmt_of parts.now))) (any_may_assign wid (stmts_of (map stmt_of parts.now)))) }
{
    for part in parts {
        collect(present, part, assigned)?;
    }
    Ok(())
}

#[cycle(collect)]
fn collect_items(
    present: &Present,
    items: &[FCaseItem],
    assigned: &mut Assigned,
) -> Result<(), NoMemory>
    ensures adds { (wid : ℕ → ℕ) → ((s : ℕ) → width_in present.now s ≡ wid s)
        → OnOk result (Adds assigned.old assigned.new (case_assigns (items_of (map arm_of items.now) no_items)) (may_assign_in wid (items_of (map arm_of items.now) no_items))) }
{
    for item in items {
        collect(present, &item.body, assigned)?;
    }
    Ok(())
}

/// Adds what an assignment to the target may assign. A variable index may name each bit of its signal.
#[cycle(collect_target)]
fn collect_target(
    present: &Present,
    target: &FTarget,
    assigned: &mut Assigned,
) -> Result<(), NoMemory>
    ensures adds { (wid : ℕ → ℕ) → ((s : ℕ) → width_in present.now s ≡ wid s)
        → OnOk result (Adds assigned.old assigned.new (is_target (target_of target.now)) (reaches wid (target_of target.now))) }
{
    match target {
        FTarget::Whole { sig } => include(assigned, *sig, low_bits(present.width(*sig))),
        FTarget::At { sig, .. } => include(assigned, *sig, low_bits(present.width(*sig))),
        FTarget::Part { sig, at, width } => include(assigned, *sig, bits(*at, *width)),
        FTarget::Join(parts) => collect_targets(present, parts.as_slice(), assigned),
    }
}

#[cycle(collect_target)]
fn collect_targets(
    present: &Present,
    parts: &[FTarget],
    assigned: &mut Assigned,
) -> Result<(), NoMemory>
    ensures adds { (wid : ℕ → ℕ) → ((s : ℕ) → width_in present.now s ≡ wid s)
        → OnOk result (Adds assigned.old assigned.new (are_targets (targets_of (map target_of parts.now))) (reach wid (targets_of (map target_of parts.now)))) }
{
    for part in parts {
        collect_target(present, part, assigned)?;
    }
    Ok(())
}

/// Adds bits of a signal.
fn include(assigned: &mut Assigned, sig: u32, bits: u64) -> Result<(), NoMemory>
    ensures adds { (set : ℕ → Bool) → ((i : ℕ) → i < 64 → bit_at bits i ≡ set i)
        → OnOk result (Adds assigned.old assigned.new (λ x. x == sig) (λ x i. (x == sig) && set i)) }
{
    let before = bits_of(assigned, sig);
    insert(assigned, sig, before | bits)
}

fn bits_of(assigned: &Assigned, sig: u32) -> u64
    ensures { result ≡ unwrap_or (get nat_cmp assigned.now sig) 0 }
{
    assigned.get(&sig).copied().unwrap_or(0)
}
