//! The names in expressions, targets and statements, in textual order.
ghost use Rattle.std.specs.Prelude.{◌≡◌, ◌++◌, map, flat_map, IfOk};
ghost use Rattle.verilog_reading.specs.ExprTree.{tree_of, trees_of, target_tree_of, target_trees_of};
ghost use Rattle.verilog_reading.specs.StmtTree.{label_tree_of, stmt_trees_of, arms_of, stmt_tree_of};
ghost use Rattle.flat_unfolding.specs.Mentions.{names_in, all_names_in, index_names, all_index_names, aimed_names, all_aimed_names, label_names, read_names, all_read_names, arm_read_names, assigned_names, all_assigned_names, arm_assigned_names};
ghost use Rattle.process_names.specs.Forms.{arm_tree_of, test_of};

use cdc_base::NoMemory;
use flat_form::memory::push;
use verilog_ast::{CaseItem, Delay, Expr, Label, Stmt, Target};

/// Which assignments count: all, those by `=`, those by `<=`, or those with a delay.
#[derive(Clone, Copy, Debug, Drop)]
pub enum Form {
    Any,
    Blocking,
    Later,
    Delayed,
}

/// Adds the names in an expression.
#[cycle(add_expr_names)]
pub fn add_expr_names<'a>(expr: &'a Expr, names: &mut Vec<&'a str>) -> Result<(), NoMemory>
    ensures { IfOk result (λ _. map (λ n. n.now) names.new.items ≡ map (λ n. n.now) names.old.items ++ names_in (tree_of expr.now)) }
{
    match expr {
        Expr::Number { .. } => Ok(()),
        Expr::Ident(name) => push(names, name.as_str()),
        Expr::At { name, index } => {
            push(names, name.as_str())?;
            add_expr_names(index, names)
        }
        Expr::Part {
            name,
            left,
            right,
            ..
        } => {
            push(names, name.as_str())?;
            add_expr_names(left, names)?;
            add_expr_names(right, names)
        }
        Expr::Unary { a, .. } => add_expr_names(a, names),
        Expr::Binary { a, b, .. } => {
            add_expr_names(a, names)?;
            add_expr_names(b, names)
        }
        Expr::Choose { cond, yes, other } => {
            add_expr_names(cond, names)?;
            add_expr_names(yes, names)?;
            add_expr_names(other, names)
        }
        Expr::Join(parts) => add_all_expr_names(parts.as_slice(), names),
        Expr::Repeat { count, parts } => {
            add_expr_names(count, names)?;
            add_all_expr_names(parts.as_slice(), names)
        }
        Expr::Paren(inner) => add_expr_names(inner, names),
    }
}

#[cycle(add_expr_names)]
fn add_all_expr_names<'a>(exprs: &'a [Expr], names: &mut Vec<&'a str>) -> Result<(), NoMemory>
    ensures { IfOk result (λ _. map (λ n. n.now) names.new.items ≡ map (λ n. n.now) names.old.items ++ all_names_in (trees_of (map tree_of exprs.now))) }
{
    for expr in exprs {
        add_expr_names(expr, names)?;
    }
    Ok(())
}

/// Adds the names in the indices and bounds of a target.
#[cycle(add_index_names)]
pub fn add_index_names<'a>(target: &'a Target, names: &mut Vec<&'a str>) -> Result<(), NoMemory>
    ensures { IfOk result (λ _. map (λ n. n.now) names.new.items ≡ map (λ n. n.now) names.old.items ++ index_names (target_tree_of target.now)) }
{
    match target {
        Target::Whole(_) => Ok(()),
        Target::At { index, .. } => add_expr_names(index, names),
        Target::Part { left, right, .. } => {
            add_expr_names(left, names)?;
            add_expr_names(right, names)
        }
        Target::Join(parts) => add_all_index_names(parts.as_slice(), names),
    }
}

#[cycle(add_index_names)]
fn add_all_index_names<'a>(targets: &'a [Target], names: &mut Vec<&'a str>) -> Result<(), NoMemory>
    ensures { IfOk result (λ _. map (λ n. n.now) names.new.items ≡ map (λ n. n.now) names.old.items ++ all_index_names (target_trees_of (map target_tree_of targets.now))) }
{
    for target in targets {
        add_index_names(target, names)?;
    }
    Ok(())
}

/// Adds the names that a target assigns.
#[cycle(add_aimed_names)]
pub fn add_aimed_names<'a>(target: &'a Target, names: &mut Vec<&'a str>) -> Result<(), NoMemory>
    ensures { IfOk result (λ _. map (λ n. n.now) names.new.items ≡ map (λ n. n.now) names.old.items ++ aimed_names (target_tree_of target.now)) }
{
    match target {
        Target::Whole(name) => push(names, name.as_str()),
        Target::At { name, .. } => push(names, name.as_str()),
        Target::Part { name, .. } => push(names, name.as_str()),
        Target::Join(parts) => add_all_aimed_names(parts.as_slice(), names),
    }
}

#[cycle(add_aimed_names)]
fn add_all_aimed_names<'a>(targets: &'a [Target], names: &mut Vec<&'a str>) -> Result<(), NoMemory>
    ensures { IfOk result (λ _. map (λ n. n.now) names.new.items ≡ map (λ n. n.now) names.old.items ++ all_aimed_names (target_trees_of (map target_tree_of targets.now))) }
{
    for target in targets {
        add_aimed_names(target, names)?;
    }
    Ok(())
}

fn add_label_names<'a>(label: &'a Label, names: &mut Vec<&'a str>) -> Result<(), NoMemory>
    ensures { IfOk result (λ _. map (λ n. n.now) names.new.items ≡ map (λ n. n.now) names.old.items ++ label_names (label_tree_of label.now)) }
{
    match label {
        Label::Value(value) => add_expr_names(value, names),
        Label::Mask { .. } => Ok(()),
    }
}

fn add_all_label_names<'a>(labels: &'a [Label], names: &mut Vec<&'a str>) -> Result<(), NoMemory>
    ensures { IfOk result (λ _. map (λ n. n.now) names.new.items ≡ map (λ n. n.now) names.old.items ++ flat_map label_names (map label_tree_of labels.now)) }
{
    for label in labels {
        add_label_names(label, names)?;
    }
    Ok(())
}

/// Adds the names in the expressions of a statement.
#[cycle(add_read_names)]
pub fn add_read_names<'a>(stmt: &'a Stmt, names: &mut Vec<&'a str>) -> Result<(), NoMemory>
    ensures { IfOk result (λ _. map (λ n. n.now) names.new.items ≡ map (λ n. n.now) names.old.items ++ read_names (stmt_tree_of stmt.now)) }
{
    match stmt {
        Stmt::Null => Ok(()),
        Stmt::Set { target, value, .. } => {
            add_index_names(target, names)?;
            add_expr_names(value, names)
        }
        Stmt::If { cond, yes, other } => {
            add_expr_names(cond, names)?;
            add_read_names(yes, names)?;
            match other {
                Some(other) => add_read_names(other, names),
                None => Ok(()),
            }
        }
        Stmt::Case {
            subject,
            items,
            default,
            ..
        } => {
            add_expr_names(subject, names)?;
            add_item_read_names(items.as_slice(), names)?;
            match default {
                Some(default) => add_read_names(default, names),
                None => Ok(()),
            }
        }
        Stmt::Block(parts) => add_all_read_names(parts.as_slice(), names),
    }
}

#[cycle(add_read_names)]
fn add_all_read_names<'a>(stmts: &'a [Stmt], names: &mut Vec<&'a str>) -> Result<(), NoMemory>
    ensures { IfOk result (λ _. map (λ n. n.now) names.new.items ≡ map (λ n. n.now) names.old.items ++ all_read_names (stmt_trees_of (map stmt_tree_of stmts.now))) }
{
    for stmt in stmts {
        add_read_names(stmt, names)?;
    }
    Ok(())
}

#[cycle(add_read_names)]
fn add_item_read_names<'a>(items: &'a [CaseItem], names: &mut Vec<&'a str>) -> Result<(), NoMemory>
    ensures { IfOk result (λ _. map (λ n. n.now) names.new.items ≡ map (λ n. n.now) names.old.items ++ arm_read_names (arms_of (map arm_tree_of items.now))) }
{
    for item in items {
        add_all_label_names(item.labels.as_slice(), names)?;
        add_read_names(&item.body, names)?;
    }
    Ok(())
}

fn has_form(form: Form, blocking: bool, delay: &Option<Delay>) -> bool
    ensures { result ≡ test_of form blocking delay.now }
{
    match form {
        Form::Any => true,
        Form::Blocking => blocking,
        Form::Later => !blocking,
        Form::Delayed => delay.is_some(),
    }
}

/// Adds the names that the assignments of a form assign in a statement.
#[cycle(add_assigned_names)]
pub fn add_assigned_names<'a>(
    form: Form,
    stmt: &'a Stmt,
    names: &mut Vec<&'a str>,
) -> Result<(), NoMemory>
    ensures { IfOk result (λ _. map (λ n. n.now) names.new.items ≡ map (λ n. n.now) names.old.items ++ assigned_names (test_of form) (stmt_tree_of stmt.now)) }
{
    match stmt {
        Stmt::Null => Ok(()),
        Stmt::Set {
            blocking,
            delay,
            target,
            ..
        } => {
            if has_form(form, *blocking, delay) {
                add_aimed_names(target, names)?;
            }
            Ok(())
        }
        Stmt::If { yes, other, .. } => {
            add_assigned_names(form, yes, names)?;
            match other {
                Some(other) => add_assigned_names(form, other, names),
                None => Ok(()),
            }
        }
        Stmt::Case { items, default, .. } => {
            add_item_assigned_names(form, items.as_slice(), names)?;
            match default {
                Some(default) => add_assigned_names(form, default, names),
                None => Ok(()),
            }
        }
        Stmt::Block(parts) => add_all_assigned_names(form, parts.as_slice(), names),
    }
}

#[cycle(add_assigned_names)]
fn add_all_assigned_names<'a>(
    form: Form,
    stmts: &'a [Stmt],
    names: &mut Vec<&'a str>,
) -> Result<(), NoMemory>
    ensures { IfOk result (λ _. map (λ n. n.now) names.new.items ≡ map (λ n. n.now) names.old.items ++ all_assigned_names (test_of form) (stmt_trees_of (map stmt_tree_of stmts.now))) }
{
    for stmt in stmts {
        add_assigned_names(form, stmt, names)?;
    }
    Ok(())
}

#[cycle(add_assigned_names)]
fn add_item_assigned_names<'a>(
    form: Form,
    items: &'a [CaseItem],
    names: &mut Vec<&'a str>,
) -> Result<(), NoMemory>
    ensures { IfOk result (λ _. map (λ n. n.now) names.new.items ≡ map (λ n. n.now) names.old.items ++ arm_assigned_names (test_of form) (arms_of (map arm_tree_of items.now))) }
{
    for item in items {
        add_assigned_names(form, &item.body, names)?;
    }
    Ok(())
}
