//! Statements of processes, with their names resolved.
ghost use Rattle.std.specs.Prelude.{◌≡◌, ℕ, ◌+◌, ◌^◌, ◌<◌, ◌≤◌, ◌∷◌, ◌&&◌, ◌||◌, ◌++◌, Bool, true, false, [], map, All, IfOk, Some, None, is_some};
ghost use Rattle.verilog_reading.specs.ExprTree.{tree_of, target_tree_of, ExprTree, TargetTree};
ghost use Rattle.verilog_reading.specs.StmtTree.{stmt_tree_of, stmt_trees_of, arms_of, label_tree_of, set as set_tree, switch as switch_tree, subject_of, ArmTrees};
ghost use Rattle.flat_meaning.specs.Flat.{If as if_of, Case as case_of, Null as null_of, Set as set_of, Whole as whole_of, default_item, no_items, case_size as size_of_case};
ghost use Rattle.flat_meaning.specs.Full.{is_full as takes_every};
ghost use Rattle.flat_form.specs.View.{expr_of, stmt_of, items_of, arm_of};
ghost use Rattle.flat_form.specs.Sizes.{is_sized, kept_of, are_labels_sized};
ghost use Rattle.flat_unfolding.specs.Outcome.{breaks, breaks_if};
ghost use Rattle.flat_unfolding.specs.Names as n;
ghost use Rattle.flat_unfolding.specs.Expressions.{read, all_broken, is_index as is_index_of};
ghost use Rattle.flat_unfolding.specs.Statements.{Kind, done, done_all, arms, ways, ways_broken, label_term, read_list, unassigned as unassigned_of, is_stray as is_stray_of};
ghost use Rattle.flat_unfolding.specs.Targets.{first_name as first_name_of};
ghost use Rattle.flat_unfolding.specs.Memories.{memory_write as memory_write_of};
ghost use Rattle.flat_unfolding.specs.Widths.{keeps_sizes, stmt_keeps_sizes, all_true};
ghost use Rattle.flat_unfolding.specs.Formed.{IsFormed, IsTargetFormed, IsLabelFormed, IsStmtFormed, AreRowsFormed, AreArmsFormed};
ghost use Rattle.flat_names.specs.Noting.{all_noted};
ghost use Rattle.flat_names.specs.Looks.{Shows, IsFit, memory_of};
ghost use Rattle.flat_names.specs.Pieces.{IsRead, AreRead};
ghost use Rattle.flat_statements.specs.Masks.{AreWays};
ghost use Rattle.flat_statements.specs.Statements.{kind_of, arm_tree_of, arm_keeps_sizes, items_in, Builds, IsDone, AreDone, AreArms};

use crate::masks::{MaskItem, chained, mask_labels};
use cdc_base::{List, NoMemory};
use flat_form::cases::{case_size, is_full};
use flat_form::copy::copy;
use flat_form::flat::{FCaseItem, FExpr, FStmt, FTarget};
use flat_form::memory::{boxed_stmt, push};
use flat_form::size::width_of;
use flat_names::expr::resolve;
use flat_names::fault::{Faults, Rule};
use flat_names::resolved::{Parts, Resolved};
use flat_names::scope::{Look, Memory};
use flat_names::select::{index_values, is_index};
use flat_names::signs::Signs;
use flat_targets::target::{Aim, first_text, process_target};
use std::alloc::Global;
use verilog_ast::{CaseItem, Expr, Label, Stmt, Target};

/// The kind of process that a statement stands in: one with a clock takes nonblocking assignments alone.
#[derive(Clone, Copy, PartialEq, Eq, Debug, Drop)]
pub enum Mode {
    Wires,
    Clocked,
    Neither,
}

/// The statement with its names resolved. A `case` of the result that has no `default` takes every value: any other one
/// gets an empty `default` where the text has none.
#[cycle(statement)]
pub fn statement(
    look: &Look,
    stmt: &Stmt,
    mode: Mode,
    faults: &mut Faults,
) -> Result<FStmt, NoMemory>
    ensures { (l : n.Look) → Shows look.now l → IsFit l → IsStmtFormed (stmt_tree_of stmt.now)
        → IfOk result (λ r. IsDone (done l (kind_of mode) (stmt_tree_of stmt.now)) r × (faults.new ≡ all_noted faults.old (done l (kind_of mode) (stmt_tree_of stmt.now)).broken)) }
{
    match stmt {
        Stmt::Null => Ok(FStmt::Null),
        Stmt::Set {
            blocking,
            target,
            value,
            ..
        } => assignment(look, *blocking, target, value, mode, faults),
        Stmt::If { cond, yes, other } => {
            let cond = resolve(look, cond, faults)?;
            let yes = statement(look, yes, mode, faults)?;
            match other {
                Some(other) => {
                    let other = statement(look, other, mode, faults)?;
                    chosen(look.alloc, cond.expr, yes, other)
                }
                None => chosen_alone(look.alloc, cond.expr, yes),
            }
        }
        Stmt::Case {
            masks,
            subject,
            items,
            default,
        } => {
            let subject = resolve(look, subject, faults)?;
            if *masks {
                let items = mask_items(look, items.as_slice(), mode, faults)?;
                return match default {
                    Some(default) => {
                        let last = statement(look, default, mode, faults)?;
                        chained(look.alloc, subject, items, last)
                    }
                    None => chained(look.alloc, subject, items, FStmt::Null),
                };
            }
            let cases = case_items(look, items.as_slice(), mode, faults)?;
            match default {
                Some(default) => {
                    let default = statement(look, default, mode, faults)?;
                    case_with(look.alloc, subject.expr, cases.items, default)
                }
                None => case_without(look.alloc, subject, cases),
            }
        }
        Stmt::Block(stmts) => {
            let stmts = block(look, stmts.as_slice(), mode, faults)?;
            Ok(FStmt::Block(stmts))
        }
    }
}

#[cycle(statement)]
fn block(
    look: &Look,
    stmts: &[Stmt],
    mode: Mode,
    faults: &mut Faults,
) -> Result<List<FStmt>, NoMemory>
    ensures { (l : n.Look) → Shows look.now l → IsFit l → AreRowsFormed (stmt_trees_of (map stmt_tree_of stmts.now))
        → IfOk result (λ rs. AreDone (done_all l (kind_of mode) (stmt_trees_of (map stmt_tree_of stmts.now))) rs
        × (faults.new ≡ all_noted faults.old (done_all l (kind_of mode) (stmt_trees_of (map stmt_tree_of stmts.now))).broken)) }
{
    let mut all = Vec::new(look.alloc);
    for stmt in stmts {
        push(&mut all, statement(look, stmt, mode, faults)?)?;
    }
    Ok(List::from_vec(all))
}

/// An `if` with an `else`.
pub fn chosen(alloc: Global, cond: FExpr, yes: FStmt, other: FStmt) -> Result<FStmt, NoMemory>
    ensures { IfOk result (λ r. Builds r (if_of (expr_of cond) (stmt_of yes) (stmt_of other)) (keeps_sizes cond && (stmt_keeps_sizes yes && stmt_keeps_sizes other))) }
{
    Ok(FStmt::If {
        cond,
        yes: boxed_stmt(alloc, yes)?,
        other: Some(boxed_stmt(alloc, other)?),
    })
}

/// An `if` without one.
fn chosen_alone(alloc: Global, cond: FExpr, yes: FStmt) -> Result<FStmt, NoMemory>
    ensures { IfOk result (λ r. Builds r (if_of (expr_of cond) (stmt_of yes) null_of) (keeps_sizes cond && stmt_keeps_sizes yes)) }
{
    Ok(FStmt::If {
        cond,
        yes: boxed_stmt(alloc, yes)?,
        other: None,
    })
}

/// A `case` with a `default`.
fn case_with(
    alloc: Global,
    subject: FExpr,
    items: Vec<FCaseItem>,
    default: FStmt,
) -> Result<FStmt, NoMemory>
    ensures { IfOk result (λ r. Builds r (case_of (expr_of subject) (items_of (map arm_of items.items) (default_item (stmt_of default))))
        (keeps_sizes subject && (all_true (map arm_keeps_sizes items.items) && stmt_keeps_sizes default))) }
{
    Ok(FStmt::Case {
        subject,
        items: List::from_vec(items),
        default: Some(boxed_stmt(alloc, default)?),
    })
}

/// A `case` whose text has no `default`.
fn case_without(alloc: Global, subject: Resolved, cases: Cases) -> Result<FStmt, NoMemory>
    ensures { (l : n.Look) (k : Kind) (e : ExprTree) (rows : ArmTrees) → IsRead (read l e) subject → AreArms (arms l k rows) cases.items.items cases.is_sound cases.is_constant
        → IfOk result (λ r. IsDone (done l k (switch_tree (subject_of false e) rows)) r) }
{
    if takes_all(alloc, &subject, &cases)? {
        return Ok(FStmt::Case {
            subject: subject.expr,
            items: List::from_vec(cases.items),
            default: None,
        });
    }
    case_with(alloc, subject.expr, cases.items, FStmt::Null)
}

/// Items of a `casez`.
#[cycle(statement)]
fn mask_items(
    look: &Look,
    items: &[CaseItem],
    mode: Mode,
    faults: &mut Faults,
) -> Result<Vec<MaskItem>, NoMemory>
    ensures { (l : n.Look) → Shows look.now l → IsFit l → AreArmsFormed (arms_of (map arm_tree_of items.now))
        → IfOk result (λ is. AreWays (ways l (kind_of mode) (arms_of (map arm_tree_of items.now))) is.items
        × (faults.new ≡ all_noted faults.old (ways_broken (ways l (kind_of mode) (arms_of (map arm_tree_of items.now)))))) }
{
    let mut all = Vec::new(look.alloc);
    for item in items {
        let labels = mask_labels(look, item.labels.as_slice(), faults)?;
        let body = statement(look, &item.body, mode, faults)?;
        push(&mut all, MaskItem { labels, body })?;
    }
    Ok(all)
}

/// Items of a `case`, and what holds of all their labels.
#[derive(Drop)]
struct Cases {
    items: Vec<FCaseItem>,
    is_sound: bool,
    is_constant: bool,
}

#[cycle(statement)]
fn case_items(
    look: &Look,
    items: &[CaseItem],
    mode: Mode,
    faults: &mut Faults,
) -> Result<Cases, NoMemory>
    ensures { (l : n.Look) → Shows look.now l → IsFit l → AreArmsFormed (arms_of (map arm_tree_of items.now))
        → IfOk result (λ c. AreArms (arms l (kind_of mode) (arms_of (map arm_tree_of items.now))) c.items.items c.is_sound c.is_constant
        × (faults.new ≡ all_noted faults.old (arms l (kind_of mode) (arms_of (map arm_tree_of items.now))).broken)) }
{
    let mut cases = Cases {
        items: Vec::new(look.alloc),
        is_sound: true,
        is_constant: true,
    };
    for item in items {
        let labels = labels(look, item.labels.as_slice(), faults)?;
        let body = statement(look, &item.body, mode, faults)?;
        cases.add(labels, body)?;
    }
    Ok(cases)
}

impl Cases {
    /// Adds an item.
    fn add(&mut self, labels: Parts, body: FStmt) -> Result<(), NoMemory>
        ensures { IfOk result (λ _. (self.new.is_sound ≡ (self.old.is_sound && labels.is_sound)) × (self.new.is_constant ≡ (self.old.is_constant && labels.is_constant))
            × (self.new.items.items ≡ self.old.items.items ++ (record { labels = labels.items.items; body = body }) ∷ [])) }
    {
        self.is_sound = self.is_sound && labels.is_sound;
        self.is_constant = self.is_constant && labels.is_constant;
        let item = FCaseItem {
            labels: List::from_vec(labels.items),
            body,
        };
        push(&mut self.items, item)
    }
}

fn labels(look: &Look, labels: &[Label], faults: &mut Faults) -> Result<Parts, NoMemory>
    ensures { (l : n.Look) (k : Kind) → Shows look.now l → IsFit l → All IsLabelFormed (map label_tree_of labels.now)
        → IfOk result (λ p. AreRead (read_list l k (map label_tree_of labels.now)) p × (faults.new ≡ all_noted faults.old (all_broken (read_list l k (map label_tree_of labels.now))))) }
{
    let mut parts = Parts::new(look.alloc);
    for label in labels {
        let label = settled_label(look, label, faults)?;
        parts.add(label)?;
    }
    Ok(parts)
}

/// A label of a `case`, where a mask stands for its value.
fn settled_label(look: &Look, label: &Label, faults: &mut Faults) -> Result<Resolved, NoMemory>
    ensures { (l : n.Look) (k : Kind) → Shows look.now l → IsFit l → IsLabelFormed (label_tree_of label.now)
        → IfOk result (λ r. IsRead (label_term l k (label_tree_of label.now)) r × (faults.new ≡ all_noted faults.old (label_term l k (label_tree_of label.now)).broken)) }
{
    match label {
        Label::Value(value) => resolve(look, value, faults),
        Label::Mask { value, width, .. } => {
            let number = FExpr::Number {
                value: *value,
                width: *width,
            };
            Ok(Resolved::constant(number, Signs::none()))
        }
    }
}

/// Whether sound, constant labels take every value of the size of their `case`.
fn takes_all(alloc: Global, subject: &Resolved, cases: &Cases) -> Result<bool, NoMemory>
    ensures { (subject.now.is_sound ≡ true → is_sized subject.now.expr ≡ true) → (cases.now.is_sound ≡ true → are_labels_sized cases.now.items.items ≡ true)
        → IfOk result (λ t. t ≡ ((subject.now.is_sound && cases.now.is_sound && cases.now.is_constant)
        && takes_every (size_of_case (expr_of subject.now.expr) (items_in cases.now.items.items)) (items_in cases.now.items.items))) }
{
    if !is_plain(subject, cases) {
        return Ok(false);
    }
    let items = cases.items.as_slice();
    let size = case_size(&subject.expr, items);
    is_full(alloc, items, size)
}

/// Whether the labels of a `case` are constants, and no rule is broken.
fn is_plain(subject: &Resolved, cases: &Cases) -> bool
    ensures { result ≡ (subject.now.is_sound && cases.now.is_sound && cases.now.is_constant) }
{
    subject.is_sound && cases.is_sound && cases.is_constant
}

/// An assignment. Its form has to be that of its process, and its targets registers.
fn assignment(
    look: &Look,
    is_blocking: bool,
    target: &Target,
    value: &Expr,
    mode: Mode,
    faults: &mut Faults,
) -> Result<FStmt, NoMemory>
    ensures { (l : n.Look) → Shows look.now l → IsFit l → IsTargetFormed (target_tree_of target.now) → IsFormed (tree_of value.now)
        → IfOk result (λ r. IsDone (done l (kind_of mode) (set_tree is_blocking None (target_tree_of target.now) (tree_of value.now))) r
        × (faults.new ≡ all_noted faults.old (done l (kind_of mode) (set_tree is_blocking None (target_tree_of target.now) (tree_of value.now))).broken)) }
{
    let aim = process_target(look, target, faults)?;
    let value = resolve(look, value, faults)?;
    note_stray(mode, is_blocking, target, faults)?;
    match aim {
        Aim::Fixed(fixed) => Ok(FStmt::Set {
            blocking: is_blocking,
            target: fixed.target,
            value: value.expr,
        }),
        Aim::Word { memory, index } => {
            if is_blocking {
                note_blocking_word(target, faults)?;
                return unassigned(look.alloc, index, value.expr);
            }
            memory_write(look.alloc, memory, &index, &value.expr)
        }
    }
}

/// Notes a blocking assignment in a clocked process.
fn note_stray(
    mode: Mode,
    is_blocking: bool,
    target: &Target,
    faults: &mut Faults,
) -> Result<(), NoMemory>
    ensures { IsTargetFormed (target_tree_of target.now)
        → IfOk result (λ _. faults.new ≡ all_noted faults.old (breaks_if (is_stray_of (kind_of mode) is_blocking) 313 (first_name_of (target_tree_of target.now)))) }
{
    if is_stray(mode, is_blocking) {
        faults.note(Rule::WrongAssignment, first_text(target))?;
    }
    Ok(())
}

/// Notes a blocking assignment to a word that a variable index chooses.
fn note_blocking_word(target: &Target, faults: &mut Faults) -> Result<(), NoMemory>
    ensures { IsTargetFormed (target_tree_of target.now) → IfOk result (λ _. faults.new ≡ all_noted faults.old (breaks 319 (first_name_of (target_tree_of target.now)))) }
{
    faults.note(Rule::Memory, first_text(target))
}

/// Whether an assignment has another form than that of its process.
fn is_stray(mode: Mode, is_blocking: bool) -> bool
    ensures { result ≡ is_stray_of (kind_of mode) is_blocking }
{
    match mode {
        Mode::Clocked => is_blocking,
        Mode::Wires | Mode::Neither => false,
    }
}

/// A broken assignment, which reads and assigns nothing.
fn unassigned(alloc: Global, index: FExpr, value: FExpr) -> Result<FStmt, NoMemory>
    ensures { IfOk result (λ r. stmt_of r ≡ unassigned_of (expr_of index) (expr_of value)) }
{
    let mut parts = Vec::new(alloc);
    push(&mut parts, index)?;
    push(&mut parts, value)?;
    Ok(FStmt::Set {
        blocking: true,
        target: FTarget::Join(List::new(alloc)),
        value: FExpr::Join {
            parts: List::from_vec(parts),
            width: 1,
        },
    })
}

/// An assignment to the word that a variable index chooses: for each word that the index reaches, in order, if the index
/// is its own.
fn memory_write(
    alloc: Global,
    memory: Memory,
    index: &FExpr,
    value: &FExpr,
) -> Result<FStmt, NoMemory>
    ensures { is_sized index.now ≡ true → 2 ^ (kept_of index.now).width ≤ memory.words → memory.first + memory.words ≤ 2 ^ 32
        → IfOk result (λ r. (stmt_of r ≡ memory_write_of (memory_of memory) (expr_of index.now) (expr_of value.now)) × (is_sized value.now ≡ true → stmt_keeps_sizes r ≡ true)) }
{
    let mut writes = Vec::new(alloc);
    let words = index_values(width_of(index));
    for n in 0..words {
        let write = word_write(alloc, memory.first.saturating_add(n), index, n, value)?;
        push(&mut writes, write)?;
    }
    Ok(FStmt::Block(List::from_vec(writes)))
}

/// An assignment to a word, if the index is its own.
fn word_write(
    alloc: Global,
    word: u32,
    index: &FExpr,
    n: u32,
    value: &FExpr,
) -> Result<FStmt, NoMemory>
    ensures { is_sized index.now ≡ true → n < 2 ^ (kept_of index.now).width
        → IfOk result (λ r. (stmt_of r ≡ if_of (is_index_of (expr_of index.now) n) (set_of false (whole_of word) (expr_of value.now)) null_of) × (is_sized value.now ≡ true → stmt_keeps_sizes r ≡ true)) }
{
    let value = copy(alloc, value)?;
    let cond = is_index(alloc, index, n)?;
    let write = FStmt::Set {
        blocking: false,
        target: FTarget::Whole { sig: word },
        value,
    };
    chosen_alone(alloc, cond, write)
}
