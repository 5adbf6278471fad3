//! A walk over the paths of a statement.
ghost use Rattle.std.specs.Prelude.{◌≡◌, map, option_map, Some, None, if◌then◌else◌, IfOk};
ghost use Rattle.verilog_reading.specs.ExprTree.{target_tree_of};
ghost use Rattle.verilog_reading.specs.StmtTree.{stmt_tree_of, stmt_trees_of, arms_of};
ghost use Rattle.flat_unfolding.specs.Delays.{on_both, differ, assigned_with, walked, walked_all, walked_arms};
ghost use Rattle.flat_unfolding.specs.Mentions.{aimed_names};
ghost use Rattle.process_delays.specs.Paths.{under};
ghost use Rattle.process_delays.specs.Walks.{is_delayed, are_delayed, are_arms_delayed, is_other_delayed, arm_tree_of, other_of, walked_other};

use crate::names::add_names;
use crate::paths::{Paths, Ways};
use cdc_base::NoMemory;
use std::alloc::Global;
use verilog_ast::{CaseItem, Delay, Stmt, Target};

/// Whether there is a nonblocking assignment with a delay.
#[cycle(has_delay)]
pub fn has_delay(stmt: &Stmt) -> bool
    ensures { result ≡ is_delayed (stmt_tree_of stmt.now) }
{
    match stmt {
        Stmt::Null => false,
        Stmt::Set {
            blocking,
            delay,
            ..
        } => !*blocking && delay.is_some(),
        Stmt::If { yes, other, .. } => has_delay(yes) || other_has_delay(other),
        Stmt::Case { items, default, .. } => {
            items_have_delay(items.as_slice()) || other_has_delay(default)
        }
        Stmt::Block(parts) => have_delay(parts.as_slice()),
    }
}

#[cycle(has_delay)]
fn have_delay(stmts: &[Stmt]) -> bool
    ensures { result ≡ are_delayed (stmt_trees_of (map stmt_tree_of stmts.now)) }
{
    for stmt in stmts {
        if has_delay(stmt) {
            return true;
        }
    }
    false
}

#[cycle(has_delay)]
fn items_have_delay(items: &[CaseItem]) -> bool
    ensures { result ≡ are_arms_delayed (arms_of (map arm_tree_of items.now)) }
{
    for item in items {
        if has_delay(&item.body) {
            return true;
        }
    }
    false
}

#[cycle(has_delay)]
fn other_has_delay(other: &Option<Box<Stmt>>) -> bool
    ensures { result ≡ is_other_delayed (other_of other.now) }
{
    match other {
        Some(other) => has_delay(other),
        None => false,
    }
}

/// The first name that the statement gives two delays on one path. `paths` are those that lead to it, and then those
/// that lead from it.
#[cycle(walk)]
pub fn walk<'a>(
    alloc: Global,
    stmt: &'a Stmt,
    paths: &mut Paths<'a>,
) -> Result<Option<&'a str>, NoMemory>
    ensures { IfOk result (λ name. (under paths.new ≡ (walked (under paths.old) (stmt_tree_of stmt.now)).after)
        × (option_map (λ n. n.now) name ≡ (walked (under paths.old) (stmt_tree_of stmt.now)).clash)) }
{
    match stmt {
        Stmt::Null => Ok(None),
        Stmt::Set {
            blocking,
            delay,
            target,
            ..
        } => {
            if *blocking {
                Ok(None)
            } else {
                assign(alloc, target, delay, paths)
            }
        }
        Stmt::If { yes, other, .. } => {
            let mut chosen = paths.copy(alloc)?;
            let here = walk(alloc, yes, &mut chosen)?;
            let there = walk_other(alloc, other, paths)?;
            chosen.add_all(paths)?;
            *paths = chosen;
            Ok(here.or(there))
        }
        Stmt::Case { items, default, .. } => {
            let mut chosen = Paths::new(alloc);
            let here = walk_items(alloc, items.as_slice(), paths, &mut chosen)?;
            let there = walk_other(alloc, default, paths)?;
            chosen.add_all(paths)?;
            *paths = chosen;
            Ok(here.or(there))
        }
        Stmt::Block(parts) => walk_all(alloc, parts.as_slice(), paths),
    }
}

/// The same of what stands behind an `else` or a `default`.
#[cycle(walk)]
fn walk_other<'a>(
    alloc: Global,
    other: &'a Option<Box<Stmt>>,
    paths: &mut Paths<'a>,
) -> Result<Option<&'a str>, NoMemory>
    ensures { IfOk result (λ name. (under paths.new ≡ (walked_other (under paths.old) (other_of other.now)).after)
        × (option_map (λ n. n.now) name ≡ (walked_other (under paths.old) (other_of other.now)).clash)) }
{
    match other {
        Some(other) => walk(alloc, other, paths),
        None => Ok(None),
    }
}

#[cycle(walk)]
fn walk_all<'a>(
    alloc: Global,
    stmts: &'a [Stmt],
    paths: &mut Paths<'a>,
) -> Result<Option<&'a str>, NoMemory>
    ensures { IfOk result (λ name. (under paths.new ≡ (walked_all (under paths.old) (stmt_trees_of (map stmt_tree_of stmts.now))).after)
        × (option_map (λ n. n.now) name ≡ (walked_all (under paths.old) (stmt_trees_of (map stmt_tree_of stmts.now))).clash)) }
{
    let mut clash = None;
    for stmt in stmts {
        let here = walk(alloc, stmt, paths)?;
        clash = clash.or(here);
    }
    Ok(clash)
}

/// The same of the items of a `case`, each on paths of its own. It adds the paths that lead from them.
#[cycle(walk)]
fn walk_items<'a>(
    alloc: Global,
    items: &'a [CaseItem],
    before: &Paths<'a>,
    after: &mut Paths<'a>,
) -> Result<Option<&'a str>, NoMemory>
    ensures { IfOk result (λ name. (under after.new ≡ on_both (under after.old) (walked_arms (under before.now) (arms_of (map arm_tree_of items.now))).after)
        × (option_map (λ n. n.now) name ≡ (walked_arms (under before.now) (arms_of (map arm_tree_of items.now))).clash)) }
{
    let mut clash = None;
    for item in items {
        let mut chosen = before.copy(alloc)?;
        let found = walk(alloc, &item.body, &mut chosen)?;
        after.add_all(&chosen)?;
        clash = clash.or(found);
    }
    Ok(clash)
}

/// A nonblocking assignment.
fn assign<'a>(
    alloc: Global,
    target: &'a Target,
    delay: &'a Option<Delay>,
    paths: &mut Paths<'a>,
) -> Result<Option<&'a str>, NoMemory>
    ensures { IfOk result (λ name. (under paths.new ≡ (assigned_with delay.now (under paths.old) (aimed_names (target_tree_of target.now))).after)
        × (option_map (λ n. n.now) name ≡ (assigned_with delay.now (under paths.old) (aimed_names (target_tree_of target.now))).clash)) }
{
    let mut names = Vec::new(alloc);
    add_names(target, &mut names)?;
    assign_names(names.as_slice(), delay, paths)
}

fn assign_names<'a>(
    names: &[&'a str],
    delay: &'a Option<Delay>,
    paths: &mut Paths<'a>,
) -> Result<Option<&'a str>, NoMemory>
    ensures { IfOk result (λ name. (under paths.new ≡ (assigned_with delay.now (under paths.old) (map (λ n. n.now) names.now)).after)
        × (option_map (λ n. n.now) name ≡ (assigned_with delay.now (under paths.old) (map (λ n. n.now) names.now)).clash)) }
{
    let mut clash = None;
    for name in names {
        let own = clashing(name, delay, paths);
        paths.add(name, Ways::Always(delay))?;
        clash = clash.or(own);
    }
    Ok(clash)
}

/// The name, where it has another delay.
fn clashing<'a>(name: &'a str, delay: &Option<Delay>, paths: &Paths<'a>) -> Option<&'a str>
    ensures { option_map (λ n. n.now) result ≡ (if differ delay.now (under paths.now name.now) then Some name.now else None) }
{
    if paths.of(name).differ(delay) {
        Some(name)
    } else {
        None
    }
}
