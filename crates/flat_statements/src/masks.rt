//! `casez`, which stands for a chain of `if`s: each asks whether the subject meets a label of its item.
ghost use Rattle.std.specs.Prelude.{◌≡◌, ◌∷◌, [], List, map, All, true, option_map, IfOk};
ghost use Rattle.verilog_reading.specs.ExprTree.{tree_of};
ghost use Rattle.verilog_reading.specs.StmtTree.{arms_of, label_tree_of};
ghost use Rattle.flat_form.specs.View.{expr_of};
ghost use Rattle.flat_form.specs.Sizes.{kept_of};
ghost use Rattle.flat_unfolding.specs.Names as n;
ghost use Rattle.flat_unfolding.specs.Formed.{IsFormed, IsLabelFormed, AreArmsFormed};
ghost use Rattle.flat_unfolding.specs.Expressions.{Term};
ghost use Rattle.flat_unfolding.specs.Statements.{Kind, clocked, Way, Done, mask_of, masks_broken, without_open, mask_test, way_test, chained as chained_of, ways};
ghost use Rattle.flat_unfolding.specs.Resets.{labels_broken, is_met, labels_met};
ghost use Rattle.flat_names.specs.Noting.{all_noted};
ghost use Rattle.flat_names.specs.Looks.{Shows, IsFit};
ghost use Rattle.flat_names.specs.Pieces.{IsRead};
ghost use Rattle.flat_statements.specs.Statements.{arm_tree_of, IsDone};
ghost use Rattle.flat_statements.specs.Masks.{IsMask, AreMasks, AreWays, labels_width, items_width, mask_in, AreRight, IsTest, IsLargest};

use crate::statement::chosen;
use cdc_base::NoMemory;
use flat_form::bits::low_bits;
use flat_form::copy::copy;
use flat_form::flat::{FExpr, FStmt};
use flat_form::memory::push;
use flat_form::size::width_of;
use flat_form::value::{own_value, value_at};
use flat_names::expr::{resolve, resolve_constant};
use flat_names::fault::{Faults, Order};
use flat_names::resolved::{Resolved, binary_expr, nothing};
use flat_names::scope::Look;
use std::alloc::Global;
use verilog_ast::{BinaryOp, CaseItem, Expr, Label};

/// A label: what the subject is compared with, and the bits that are left open.
#[derive(Drop)]
pub struct MaskLabel {
    pub expr: FExpr,
    pub opened: u64,
}

/// An item: its labels, and its body.
#[derive(Drop)]
pub struct MaskItem {
    pub labels: Vec<MaskLabel>,
    pub body: FStmt,
}

pub fn mask_labels(
    look: &Look,
    labels: &[Label],
    faults: &mut Faults,
) -> Result<Vec<MaskLabel>, NoMemory>
    ensures { (l : n.Look) (k : Kind) → Shows look.now l → IsFit l → All IsLabelFormed (map label_tree_of labels.now)
        → IfOk result (λ cs. AreMasks (map (mask_of l k) (map label_tree_of labels.now)) cs.items × (faults.new ≡ all_noted faults.old (masks_broken (map (mask_of l k) (map label_tree_of labels.now))))) }
{
    let mut all = Vec::new(look.alloc);
    for label in labels {
        let label = mask_label(look, label, faults)?;
        push(&mut all, label)?;
    }
    Ok(all)
}

/// A label, which is a mask or a constant.
fn mask_label(look: &Look, label: &Label, faults: &mut Faults) -> Result<MaskLabel, NoMemory>
    ensures { (l : n.Look) (k : Kind) → Shows look.now l → IsFit l → IsLabelFormed (label_tree_of label.now)
        → IfOk result (λ c. IsMask (mask_of l k (label_tree_of label.now)) c × (faults.new ≡ all_noted faults.old (mask_of l k (label_tree_of label.now)).term.broken)) }
{
    match label {
        Label::Value(value) => {
            let value = resolve_constant(look, value, faults)?;
            Ok(MaskLabel {
                expr: value.expr,
                opened: 0,
            })
        }
        Label::Mask { value, open, width } => Ok(MaskLabel {
            expr: FExpr::Number {
                value: *value,
                width: *width,
            },
            opened: *open,
        }),
    }
}

/// The statement that a `casez` with these items stands for. `last` is what no item precedes.
pub fn chained(
    alloc: Global,
    subject: Resolved,
    items: Vec<MaskItem>,
    last: FStmt,
) -> Result<FStmt, NoMemory>
    ensures { (t : Term) (ws : List Way) (d : Done) → IsRead t subject → AreWays ws items.items → IsDone d last → IfOk result (λ r. IsDone (chained_of t ws d) r) }
{
    let size = compared_size(&subject.expr, items.as_slice());
    let mut items = items;
    let mut chain = last;
    while let Some(MaskItem { labels, body }) = items.pop() {
        let test = item_test(alloc, &subject.expr, labels.as_slice(), size)?;
        chain = chosen(alloc, test, body, chain)?;
    }
    Ok(chain)
}

/// The largest size of the subject and all labels.
fn compared_size(subject: &FExpr, items: &[MaskItem]) -> u8
    ensures { result ≡ items_width (kept_of subject.now).width items.now }
{
    let mut size = width_of(subject);
    for item in items {
        size = largest(size, item.labels.as_slice());
    }
    size
}

fn largest(size: u8, labels: &[MaskLabel]) -> u8
    ensures { result ≡ labels_width size labels.now }
{
    let mut largest = size;
    for label in labels {
        largest = largest.max(width_of(&label.expr));
    }
    largest
}

/// Whether the subject meets a label of an item.
fn item_test(
    alloc: Global,
    subject: &FExpr,
    labels: &[MaskLabel],
    size: u8,
) -> Result<FExpr, NoMemory>
    ensures { IfOk result (IsTest (AreRight size subject.now labels.now) (way_test size (expr_of subject.now) (map mask_in labels.now))) }
{
    let Some((first, others)) = labels.split_first() else {
        return Ok(nothing());
    };
    let mut test = label_test(alloc, subject, first, size)?;
    for label in others {
        let other = label_test(alloc, subject, label, size)?;
        test = binary_expr(alloc, BinaryOp::LogicOr, test, other)?;
    }
    Ok(test)
}

/// Whether the subject meets a label: what isn't open equals the label's value.
fn label_test(
    alloc: Global,
    subject: &FExpr,
    label: &MaskLabel,
    size: u8,
) -> Result<FExpr, NoMemory>
    ensures { IfOk result (IsTest (AreRight size subject.now (label.now ∷ [])) (mask_test size (expr_of subject.now) (mask_in label.now))) }
{
    let subject = copy(alloc, subject)?;
    let compared = without(alloc, subject, label.opened, size)?;
    let value = FExpr::Number {
        value: value_at(&label.expr, size),
        width: size,
    };
    binary_expr(alloc, BinaryOp::Eq, compared, value)
}

/// The subject with 0 at its open bits.
fn without(alloc: Global, subject: FExpr, opened: u64, size: u8) -> Result<FExpr, NoMemory>
    ensures { IfOk result (IsTest (AreRight size subject []) (without_open size (expr_of subject) opened)) }
{
    if opened == 0 {
        return Ok(subject);
    }
    let kept = FExpr::Number {
        value: low_bits(size).saturating_sub(opened),
        width: size,
    };
    binary_expr(alloc, BinaryOp::And, subject, kept)
}

/// Whether the subject of a `casez` meets each label of the first item, in a look in which it reads no signal. `None`
/// where there is no item, or where the subject or a label of some item breaks a rule.
pub fn first_labels_met(
    look: &Look,
    subject: &Expr,
    items: &[CaseItem],
) -> Result<Option<Vec<bool>>, NoMemory>
    ensures { (l : n.Look) → Shows look.now l → IsFit l → IsFormed (tree_of subject.now) → AreArmsFormed (arms_of (map arm_tree_of items.now))
        → IfOk result (λ o. option_map (λ v. v.items) o ≡ labels_met l (tree_of subject.now) (arms_of (map arm_tree_of items.now))) }
{
    let Some((first, _)) = items.split_first() else {
        return Ok(None);
    };
    let mut faults = Faults::new(look.alloc, Order::Other);
    let subject = resolve(look, subject, &mut faults)?;
    let size = largest_of_all(look, width_of(&subject.expr), items, &mut faults)?;
    if faults.rule().is_some() {
        return Ok(None);
    }
    let labels = mask_labels(look, first.labels.as_slice(), &mut faults)?;
    let met = are_met(look.alloc, &subject.expr, labels.as_slice(), size)?;
    Ok(Some(met))
}

/// The largest of a width and those of the labels of all items.
fn largest_of_all(
    look: &Look,
    width: u8,
    items: &[CaseItem],
    faults: &mut Faults,
) -> Result<u8, NoMemory>
    ensures { (l : n.Look) → Shows look.now l → IsFit l → AreArmsFormed (arms_of (map arm_tree_of items.now))
        → IfOk result (λ w. IsLargest width (ways l clocked (arms_of (map arm_tree_of items.now))) w × (faults.new ≡ all_noted faults.old (labels_broken (ways l clocked (arms_of (map arm_tree_of items.now)))))) }
{
    let mut size = width;
    for item in items {
        let labels = mask_labels(look, item.labels.as_slice(), faults)?;
        size = largest(size, labels.as_slice());
    }
    Ok(size)
}

/// Whether the subject meets each of the labels.
fn are_met(
    alloc: Global,
    subject: &FExpr,
    labels: &[MaskLabel],
    size: u8,
) -> Result<Vec<bool>, NoMemory>
    ensures { AreRight size subject.now labels.now → IfOk result (λ v. v.items ≡ map (λ c. is_met size (expr_of subject.now) (mask_in c)) labels.now) }
{
    let mut met = Vec::new(alloc);
    for label in labels {
        let test = label_test(alloc, subject, label, size)?;
        push(&mut met, own_value(&test) != 0)?;
    }
    Ok(met)
}
