//! Full cases: those whose labels are constants that take every value of the size at which they are compared.
ghost use Rattle.std.specs.Prelude.{◌≡◌, ℕ, ◌≤◌, ◌<◌, ◌==◌, ◌||◌, ◌++◌, true, false, map, Option, Box, List, IfOk};
ghost use Rattle.std.specs.List.{list_all, list_any};
ghost use Rattle.std.specs.List.Sorted.{IsNonDecreasingBy};
ghost use Rattle.std.specs.declared.alloc.Global.{Global};
ghost use Rattle.flat_meaning.specs.Flat.{Stmt, largest, largest_label, case_size as size_of_case};
ghost use Rattle.flat_meaning.specs.Full.{has_label, is_full as takes_every};
ghost use Rattle.flat_form.specs.View.{expr_of, exprs_of, arm_of, items_of, last_of};
ghost use Rattle.flat_form.specs.Sizes.{is_sized, are_labels_sized};

use crate::flat::{FCaseItem, FExpr};
use crate::memory::push;
use crate::size::width_of;
use crate::value::{are_constant, value_at};
use cdc_base::NoMemory;
use cell_graph::word::mask;
use std::alloc::Global;

/// The size at which a `case` compares: the largest of its subject and its labels, whatever its default.
pub fn case_size(subject: &FExpr, items: &[FCaseItem]) -> u8
    ensures { (default : Option (Box Stmt Global)) → is_sized subject.now ≡ true → are_labels_sized items.now ≡ true
        → result ≡ size_of_case (expr_of subject.now) (items_of (map arm_of items.now) (last_of default)) }
{
    let mut size = width_of(subject);
    for item in items {
        size = size.max(largest_width(item.labels.as_slice()));
    }
    size
}

/// The largest of the sizes of expressions.
fn largest_width(exprs: &[FExpr]) -> u8
    ensures { list_all is_sized exprs.now ≡ true → result ≡ largest (exprs_of (map expr_of exprs.now)) }
{
    let mut width = 0;
    for expr in exprs {
        width = width.max(width_of(expr));
    }
    width
}

/// Whether the labels are constants that take every value of `size` bits, whatever the default.
pub fn is_full(alloc: Global, items: &[FCaseItem], size: u8) -> Result<bool, NoMemory>
    ensures { (default : Option (Box Stmt Global)) → are_labels_sized items.now ≡ true → largest_label (items_of (map arm_of items.now) (last_of default)) ≤ size → size ≤ 64
        → IfOk result (λ full. full ≡ takes_every size (items_of (map arm_of items.now) (last_of default))) }
{
    let mut values = Vec::new(alloc);
    for item in items {
        let labels = item.labels.as_slice();
        if !are_constant(labels) {
            return Ok(false);
        }
        add_values(&mut values, labels, size)?;
    }
    values.sort_unstable();
    Ok(least_absent(values.as_slice()) > mask(size))
}

fn add_values(values: &mut Vec<u64>, labels: &[FExpr], size: u8) -> Result<(), NoMemory>
    ensures { list_all is_sized labels.now ≡ true → largest (exprs_of (map expr_of labels.now)) ≤ size → size ≤ 64
        → IfOk result (λ _. (x : ℕ) → list_any (λ v. x == v) values.new.items ≡ (list_any (λ v. x == v) values.old.items || has_label size x (exprs_of (map expr_of labels.now)))) }
{
    for label in labels {
        push(values, value_at(label, size))?;
    }
    Ok(())
}

/// The least number that isn't among ascending ones.
fn least_absent(ascending: &[u64]) -> u64
    ensures below { (x : ℕ) → x < result → list_any (λ v. x == v) ascending.now ≡ true }
    ensures absent { IsNonDecreasingBy (λ v. v) ascending.now → list_any (λ v. result == v) ascending.now ≡ false }
{
    let mut next = 0;
    for value in ascending {
        if *value == next {
            next += 1;
        }
    }
    next
}
