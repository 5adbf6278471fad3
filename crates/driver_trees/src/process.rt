//! Processes, executed on trees.
ghost use Rattle.std.specs.Prelude.{◌≡◌, ℕ, ◌≤◌, Bool, true, false, not, List, [], ◌∷◌, map, All, Option, Some, None, is_some, Box, IfOk, OnOk};
ghost use Rattle.std.specs.declared.alloc.Global.{Global as Alloc};
ghost use Rattle.cell_graph.specs.Tree.{Tree, Eq as EqTree};
ghost use Rattle.flat_form.specs.View.{expr_of, exprs_of, stmt_of, stmts_of, arm_of, items_of};
ghost use Rattle.flat_form.specs.Sizes.{is_stmt_sized, list_true, are_labels_sized};
ghost use Rattle.flat_meaning.specs.Flat.{Case, Items, assigns, all_assign, case_assigns, largest, largest_label, size as size_of_expr};
ghost use Rattle.flat_meaning.specs.Full.{is_full as takes_every};
ghost use Rattle.flat_meaning.specs.Assigned.{Done, FitStmts};
ghost use Rattle.flat_meaning.specs.Trees.{Selects, Trees, tree as tree_of_expr, label_tree, after, after_all};
ghost use Rattle.driver_trees.specs.Drafts.{AreDrafts};
ghost use Rattle.driver_trees.specs.Growth.{Grows, IsBuilt};
ghost use Rattle.driver_trees.specs.Presents.{Sees, IsWithin, IsRead, AreRead};
ghost use Rattle.driver_trees.specs.Changes.{IsSame, IsProcess, IsBranch, look_of};
ghost use Rattle.driver_trees.specs.Statements.{IsStmtRead, IsOtherRead, RunsTo, other_of, IsItemRead, IsCaseRead, case_of, IsDefault, IsWord, tried, IsRest, IsNoneOrEmpty};

use crate::draft::Drafts;
use crate::expr::{tree, truth};
use crate::present::{Changes, Present};
use crate::target::{assign_all, puts};
use cdc_base::NoMemory;
use cell_graph::{Cell, CellId};
use flat_form::cases::{case_size, is_full};
use flat_form::{FCaseItem, FExpr, FStmt};
use std::alloc::Global;
use std::collections::BTreeMap;

/// Executes the statement on the present trees.
#[cycle(statements)]
pub fn run(
    alloc: Global,
    drafts: &mut Drafts,
    present: &mut Present,
    statement: &FStmt,
) -> Result<(), NoMemory>
    ensures runs { (wid : ℕ → ℕ) (target : ℕ → Bool) (ts : Selects → Trees) → IsProcess wid drafts.old present.old target ts → IsStmtRead wid statement.now
        → ((x : ℕ) → assigns (stmt_of statement.now) x ≡ true → target x ≡ true)
        → OnOk result (RunsTo wid drafts.old drafts.new present.old present.new target (assigns (stmt_of statement.now))
        (λ sel. after wid (look_of wid present.old.blocking target sel) (stmt_of statement.now) (ts sel))) }
{
    match statement {
        FStmt::Null => Ok(()),
        FStmt::Set { target, value, .. } => {
            let puts = puts(alloc, drafts, present, target, value)?;
            assign_all(drafts, present, puts.as_slice())
        }
        FStmt::If { cond, yes, other } => {
            let cond = truth(alloc, drafts, present, cond)?;
            let yes = changes(alloc, drafts, present, yes)?;
            let other = other_changes(alloc, drafts, present, other)?;
            let merged = present.merged(alloc, drafts, cond, &yes, &other)?;
            present.set_all(&merged)
        }
        FStmt::Case {
            subject,
            items,
            default,
        } => {
            let last = default_changes(alloc, drafts, present, default)?;
            let merged = case_changes(alloc, drafts, present, items.as_slice(), subject, last)?;
            present.set_all(&merged)
        }
        FStmt::Block(parts) => run_all(alloc, drafts, present, parts.as_slice()),
    }
}

/// Executes the statements one after another.
#[cycle(statements)]
fn run_all(
    alloc: Global,
    drafts: &mut Drafts,
    present: &mut Present,
    parts: &[FStmt],
) -> Result<(), NoMemory>
    ensures runs { (wid : ℕ → ℕ) (target : ℕ → Bool) (ts : Selects → Trees) (done : Done) → IsProcess wid drafts.old present.old target ts
        → list_true wid (map (is_stmt_sized wid) parts.now) ≡ true → FitStmts wid (λ d. IsWithin wid) done (stmts_of (map stmt_of parts.now))
        → ((x : ℕ) → all_assign (stmts_of (map stmt_of parts.now)) x ≡ true → target x ≡ true)
        → OnOk result (RunsTo wid drafts.old drafts.new present.old present.new target (all_assign (stmts_of (map stmt_of parts.now)))
        (λ sel. after_all wid (look_of wid present.old.blocking target sel) (stmts_of (map stmt_of parts.now)) (ts sel))) }
{
    for part in parts {
        run(alloc, drafts, present, part)?;
    }
    Ok(())
}

/// What the statement assigns. The present trees stay.
#[cycle(statements)]
fn changes(
    alloc: Global,
    drafts: &mut Drafts,
    present: &mut Present,
    statement: &FStmt,
) -> Result<Changes, NoMemory>
    ensures branch { (wid : ℕ → ℕ) (target : ℕ → Bool) (ts : Selects → Trees) → IsProcess wid drafts.old present.old target ts → IsStmtRead wid statement.now
        → ((x : ℕ) → assigns (stmt_of statement.now) x ≡ true → target x ≡ true)
        → IfOk result (λ changes. Grows wid drafts.old drafts.new × IsSame present.old present.new
        × IsBranch wid drafts.new present.new changes (assigns (stmt_of statement.now))
        (λ sel. after wid (look_of wid present.old.blocking target sel) (stmt_of statement.now) (ts sel))) }
{
    let mark = present.mark();
    run(alloc, drafts, present, statement)?;
    present.take_back(alloc, mark)
}

/// What the statement assigns, where there is one.
#[cycle(statements)]
fn other_changes(
    alloc: Global,
    drafts: &mut Drafts,
    present: &mut Present,
    other: &Option<Box<FStmt>>,
) -> Result<Changes, NoMemory>
    ensures branch { (wid : ℕ → ℕ) (target : ℕ → Bool) (ts : Selects → Trees) → IsProcess wid drafts.old present.old target ts → IsOtherRead wid other.now
        → ((x : ℕ) → assigns (other_of other.now) x ≡ true → target x ≡ true)
        → IfOk result (λ changes. Grows wid drafts.old drafts.new × IsSame present.old present.new
        × IsBranch wid drafts.new present.new changes (assigns (other_of other.now))
        (λ sel. after wid (look_of wid present.old.blocking target sel) (other_of other.now) (ts sel))) }
{
    match other {
        Some(other) => changes(alloc, drafts, present, other),
        None => Ok(BTreeMap::new(alloc)),
    }
}

/// What the default of a case assigns, where there is one.
#[cycle(statements)]
fn default_changes(
    alloc: Global,
    drafts: &mut Drafts,
    present: &mut Present,
    default: &Option<Box<FStmt>>,
) -> Result<Option<Changes>, NoMemory>
    ensures branch { (wid : ℕ → ℕ) (target : ℕ → Bool) (ts : Selects → Trees) → IsProcess wid drafts.old present.old target ts → IsOtherRead wid default.now
        → ((x : ℕ) → assigns (other_of default.now) x ≡ true → target x ≡ true)
        → IfOk result (λ last. Grows wid drafts.old drafts.new × IsSame present.old present.new × IsDefault wid drafts.new present.new target ts default.now last) }
{
    match default {
        Some(body) => {
            let last = changes(alloc, drafts, present, body)?;
            Ok(Some(last))
        }
        None => Ok(None),
    }
}

/// What a case assigns, given what its default does. Its subject and its labels are compared at the size of the largest
/// of them.
#[cycle(statements)]
fn case_changes(
    alloc: Global,
    drafts: &mut Drafts,
    present: &mut Present,
    items: &[FCaseItem],
    subject: &FExpr,
    last: Option<Changes>,
) -> Result<Changes, NoMemory>
    ensures branch { (wid : ℕ → ℕ) (target : ℕ → Bool) (ts : Selects → Trees) (default : Option (Box FStmt Alloc)) → IsProcess wid drafts.old present.old target ts
        → IsCaseRead wid target subject.now items.now default → IsDefault wid drafts.old present.old target ts default last
        → IfOk result (λ changes. Grows wid drafts.old drafts.new × IsSame present.old present.new
        × IsBranch wid drafts.new present.new changes (case_assigns (case_of items.now default))
        (λ sel. after wid (look_of wid present.old.blocking target sel) (Case (expr_of subject.now) (case_of items.now default)) (ts sel))) }
{
    let size = case_size(subject, items);
    let word = tree(alloc, drafts, present, subject, size)?;
    let rest = behind(alloc, items, size, last)?;
    items_changes(alloc, drafts, present, word, size, items, rest)
}

/// What stands behind the items of a case: its default; without one nothing, or in a full case the last item's body once
/// more, which isn't known yet.
fn behind(
    alloc: Global,
    items: &[FCaseItem],
    size: u8,
    last: Option<Changes>,
) -> Result<Option<Changes>, NoMemory>
    ensures some { is_some last ≡ true → IfOk result (λ rest. rest ≡ last) }
    ensures full { is_some last ≡ false → are_labels_sized items.now ≡ true → largest_label (case_of items.now None) ≤ size → size ≤ 64
        → IfOk result (λ rest. (is_some rest ≡ not (takes_every size (case_of items.now None))) × IsNoneOrEmpty rest) }
{
    if last.is_some() {
        return Ok(last);
    }
    if is_full(alloc, items, size)? {
        Ok(None)
    } else {
        Ok(Some(BTreeMap::new(alloc)))
    }
}

/// What the items of a case assign, the first one tried first. Behind them stands `rest`.
#[cycle(statements)]
fn items_changes(
    alloc: Global,
    drafts: &mut Drafts,
    present: &mut Present,
    word: CellId,
    size: u8,
    items: &[FCaseItem],
    rest: Option<Changes>,
) -> Result<Changes, NoMemory>
    ensures branch { (wid : ℕ → ℕ) (target : ℕ → Bool) (full : Bool) (t : Selects → Tree) (ts : Selects → Trees) (behind : Items) → IsProcess wid drafts.old present.old target ts
        → All (IsItemRead wid target size) items.now → IsWord drafts.old word size t → size ≤ 64 → IsRest wid drafts.old present.old target full size t ts behind rest
        → IfOk result (λ changes. Grows wid drafts.old drafts.new × IsSame present.old present.new
        × IsBranch wid drafts.new present.new changes (case_assigns (items_of (map arm_of items.now) behind))
        (tried wid present.old.blocking target full size t ts ts (items_of (map arm_of items.now) behind))) }
{
    let mut rest = rest;
    let mut left = items;
    while let Some((item, before)) = left.split_last() {
        let changes = item_changes(alloc, drafts, present, word, size, item, &rest)?;
        rest = Some(changes);
        left = before;
    }
    match rest {
        Some(changes) => Ok(changes),
        None => Ok(BTreeMap::new(alloc)),
    }
}

/// What an item assigns where a label of it is met, and what the rest assigns where none is. The last item of a full case
/// has no rest: its body stands there once more.
#[cycle(statements)]
fn item_changes(
    alloc: Global,
    drafts: &mut Drafts,
    present: &mut Present,
    word: CellId,
    size: u8,
    item: &FCaseItem,
    rest: &Option<Changes>,
) -> Result<Changes, NoMemory>
    ensures rest { (wid : ℕ → ℕ) (target : ℕ → Bool) (full : Bool) (t : Selects → Tree) (ts : Selects → Trees) (behind : Items) → IsProcess wid drafts.old present.old target ts
        → IsItemRead wid target size item.now → IsWord drafts.old word size t → size ≤ 64 → IsRest wid drafts.old present.old target full size t ts behind rest.now
        → IfOk result (λ changes. Grows wid drafts.old drafts.new × IsSame present.old present.new
        × IsRest wid drafts.new present.new target full size t ts (items_of (arm_of item.now ∷ []) behind) (Some changes)) }
{
    let cond = condition(alloc, drafts, present, word, item.labels.as_slice(), size)?;
    let yes = changes(alloc, drafts, present, &item.body)?;
    match rest {
        Some(rest) => present.merged(alloc, drafts, cond, &yes, rest),
        None => present.merged(alloc, drafts, cond, &yes, &yes),
    }
}

/// Whether the word equals one of the labels.
fn condition(
    alloc: Global,
    drafts: &mut Drafts,
    present: &Present,
    word: CellId,
    labels: &[FExpr],
    size: u8,
) -> Result<CellId, NoMemory>
    ensures built { (wid : ℕ → ℕ) (look : Selects → Selects) (t : Selects → Tree) → AreDrafts wid drafts.old → Sees wid drafts.old present.now look → AreRead wid labels.now
        → largest (exprs_of (map expr_of labels.now)) ≤ size → size ≤ 64 → IsWord drafts.old word size t
        → IfOk result (λ id. IsBuilt wid drafts.old drafts.new id 1 (λ sel. label_tree wid (look sel) size (t sel) (exprs_of (map expr_of labels.now)))) }
{
    let Some((first, others)) = labels.split_first() else {
        return drafts.constant(1, 0);
    };
    let mut any = equals(alloc, drafts, present, word, first, size)?;
    for label in others {
        let equal = equals(alloc, drafts, present, word, label, size)?;
        any = drafts.add(Cell::Or { a: any, b: equal })?;
    }
    Ok(any)
}

/// Whether the word equals the label.
fn equals(
    alloc: Global,
    drafts: &mut Drafts,
    present: &Present,
    word: CellId,
    label: &FExpr,
    size: u8,
) -> Result<CellId, NoMemory>
    ensures built { (wid : ℕ → ℕ) (look : Selects → Selects) (t : Selects → Tree) → AreDrafts wid drafts.old → Sees wid drafts.old present.now look → IsRead wid label.now
        → size_of_expr (expr_of label.now) ≤ size → size ≤ 64 → IsWord drafts.old word size t
        → IfOk result (λ id. IsBuilt wid drafts.old drafts.new id 1 (λ sel. EqTree (t sel) (tree_of_expr wid (look sel) (expr_of label.now) size))) }
{
    let label = tree(alloc, drafts, present, label, size)?;
    drafts.add(Cell::Eq { a: word, b: label })
}
