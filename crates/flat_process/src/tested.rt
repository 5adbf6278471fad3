//! What the condition of a first branch tests, that of an `if` or of the first item of a `casez`.
ghost use Rattle.std.specs.Prelude.{◌≡◌, map, Some, option_map, IfOk};
ghost use Rattle.std.specs.List.{list_any};
ghost use Rattle.verilog_reading.specs.ExprTree.{tree_of};
ghost use Rattle.verilog_reading.specs.StmtTree.{arms_of};
ghost use Rattle.flat_unfolding.specs.Names as n;
ghost use Rattle.flat_unfolding.specs.Resets.{labels_met, tests_one as tests_one_of, tests_all as tests_all_of, tested, tested_with as tested_with_of, item_tested as item_tested_of};
ghost use Rattle.flat_unfolding.specs.Formed.{IsFormed, AreArmsFormed};
ghost use Rattle.flat_names.specs.Looks.{Shows, IsFit};
ghost use Rattle.flat_statements.specs.Statements.{arm_tree_of};
ghost use Rattle.flat_process.specs.Resets.{tested_of, items_if, look_at};

use crate::reset::{reset_signals, resets_in, tested_signals};
use cdc_base::NoMemory;
use flat_names::scope::Look;
use flat_statements::masks::first_labels_met;
use verilog_ast::{CaseItem, Expr};

/// The signals of the resets that a condition tests, and whether it tests these alone.
#[derive(Drop)]
pub struct Tested {
    pub signals: Vec<u32>,
    pub is_alone: bool,
}

/// What the condition of an `if` tests. `None` where it tests no reset.
pub fn condition_tested(look: &Look, cond: &Expr) -> Result<Option<Tested>, NoMemory>
    ensures { (l : n.Look) → Shows look.now l → IsFit l → IsFormed (tree_of cond.now) → IfOk result (λ o. option_map tested_of o ≡ tested l (tree_of cond.now)) }
{
    let Some(signals) = tested_signals(look, cond)? else {
        return Ok(None);
    };
    let is_alone = reset_signals(look, cond)?.is_some();
    Ok(Some(Tested { signals, is_alone }))
}

/// What the condition of the first item of a `casez` tests, the `||` of those of its labels. `None` where it tests no
/// reset.
pub fn item_tested(
    look: &Look,
    subject: &Expr,
    items: &[CaseItem],
) -> Result<Option<Tested>, NoMemory>
    ensures { (l : n.Look) → Shows look.now l → IsFit l → IsFormed (tree_of subject.now) → AreArmsFormed (arms_of (map arm_tree_of items.now))
        → IfOk result (λ o. option_map tested_of o ≡ item_tested_of l (tree_of subject.now) (arms_of (map arm_tree_of items.now))) }
{
    let Some(signals) = resets_in(look, subject)? else {
        return Ok(None);
    };
    let inactive = labels_met_at(look, subject, items, false)?;
    let active = labels_met_at(look, subject, items, true)?;
    Ok(tested_with(signals, inactive, active))
}

/// Which labels of its first item a subject over resets meets while they are at one of their levels.
fn labels_met_at(
    look: &Look,
    subject: &Expr,
    items: &[CaseItem],
    active: bool,
) -> Result<Option<Vec<bool>>, NoMemory>
    ensures { (l : n.Look) → Shows look.now l → IsFit l → IsFormed (tree_of subject.now) → AreArmsFormed (arms_of (map arm_tree_of items.now))
        → IfOk result (λ o. items_if o ≡ labels_met (look_at l active) (tree_of subject.now) (arms_of (map arm_tree_of items.now))) }
{
    let level = Look {
        alloc: look.alloc,
        names: look.names,
        signals: look.signals,
        entries: look.entries,
        active,
    };
    first_labels_met(&level, subject, items)
}

fn tested_with(
    signals: Vec<u32>,
    inactive: Option<Vec<bool>>,
    active: Option<Vec<bool>>,
) -> Option<Tested>
    ensures { (l : n.Look) → option_map tested_of result ≡ tested_with_of l (Some signals.items) (items_if inactive) (items_if active) }
{
    let Some(inactive) = inactive else {
        return None;
    };
    let Some(active) = active else {
        return None;
    };
    if !tests_one(inactive.as_slice(), active.as_slice()) {
        return None;
    }
    let is_alone = tests_all(inactive.as_slice(), active.as_slice());
    Some(Tested { signals, is_alone })
}

/// Whether some label is met at the active levels alone.
fn tests_one(inactive: &[bool], active: &[bool]) -> bool
    ensures { result ≡ tests_one_of inactive.now active.now }
{
    let mut left = active;
    for met in inactive {
        let Some((first, others)) = left.split_first() else {
            return false;
        };
        if !*met && *first {
            return true;
        }
        left = others;
    }
    false
}

/// Whether no label is met at the inactive levels, and some label at the active ones.
fn tests_all(inactive: &[bool], active: &[bool]) -> bool
    ensures { result ≡ tests_all_of inactive.now active.now }
{
    !is_any_met(inactive) && is_any_met(active)
}

fn is_any_met(labels: &[bool]) -> bool
    ensures { result ≡ list_any (λ met. met) labels.now }
{
    labels.iter().any(|met| *met)
}
