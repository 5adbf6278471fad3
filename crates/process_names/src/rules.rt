//! The first name of a process of wires that is assigned both ways, and the names that a list of edges lacks.
ghost use Rattle.std.specs.Prelude.{◌≡◌, ◌++◌, map, not, filter, option_map, IfOk};
ghost use Rattle.verilog_ast.specs.declared.Edge.{Edge};
ghost use Rattle.verilog_reading.specs.StmtTree.{stmt_tree_of};
ghost use Rattle.flat_unfolding.specs.Mentions as mention;
ghost use Rattle.flat_unfolding.specs.Mentions.{read_names, blocking_names, later_names, delayed_names, target_names, first_named};
ghost use Rattle.process_names.specs.Sets as sets;

use crate::mentions::{Form, add_assigned_names, add_read_names};
use crate::sets::{has, name_set};
use cdc_base::NoMemory;
use flat_form::memory::push;
use indexmap::IndexSet;
use std::alloc::Global;
use verilog_ast::{Edge, Stmt};

/// The first name that a process of wires assigns by `<=` and also reads, or assigns by `=`, or with a delay.
pub fn first_mixed<'a>(alloc: Global, body: &'a Stmt) -> Result<Option<&'a str>, NoMemory>
    ensures { IfOk result (λ o. option_map (λ n. n.now) o ≡ mention.first_mixed (stmt_tree_of body.now)) }
{
    let mut others = Vec::new(alloc);
    add_read_names(body, &mut others)?;
    add_assigned_names(Form::Blocking, body, &mut others)?;
    add_assigned_names(Form::Delayed, body, &mut others)?;
    let mut later = Vec::new(alloc);
    add_assigned_names(Form::Later, body, &mut later)?;
    let others = name_set(alloc, others.as_slice())?;
    Ok(first_in(&others, later.as_slice()))
}

/// The first of these names that is in the set.
fn first_in<'a>(set: &IndexSet<&str>, names: &[&'a str]) -> Option<&'a str>
    ensures { option_map (λ n. n.now) result ≡ first_named (sets.has set.now.keys) (map (λ n. n.now) names.now) }
{
    for name in names {
        if has(set, name) {
            return Some(name);
        }
    }
    None
}

/// The names that a process reads, without those of its targets and those in a list of edges.
pub fn unlisted<'a>(
    alloc: Global,
    edges: &'a [Edge],
    body: &'a Stmt,
) -> Result<Vec<&'a str>, NoMemory>
    ensures { IfOk result (λ v. map (λ n. n.now) v.items ≡ mention.unlisted (map (λ (e : Edge). e.name) edges.now) (stmt_tree_of body.now)) }
{
    let mut read = Vec::new(alloc);
    add_read_names(body, &mut read)?;
    let mut named = Vec::new(alloc);
    add_edge_names(edges, &mut named)?;
    add_assigned_names(Form::Any, body, &mut named)?;
    let named = name_set(alloc, named.as_slice())?;
    without(alloc, &named, read.as_slice())
}

fn add_edge_names<'a>(edges: &'a [Edge], names: &mut Vec<&'a str>) -> Result<(), NoMemory>
    ensures { IfOk result (λ _. map (λ n. n.now) names.new.items ≡ map (λ n. n.now) names.old.items ++ map (λ (e : Edge). e.name) edges.now) }
{
    for edge in edges {
        push(names, edge.name.as_str())?;
    }
    Ok(())
}

/// Those of these names that the set lacks.
fn without<'a>(
    alloc: Global,
    set: &IndexSet<&str>,
    names: &[&'a str],
) -> Result<Vec<&'a str>, NoMemory>
    ensures { IfOk result (λ v. map (λ n. n.now) v.items ≡ filter (λ x. not (sets.has set.now.keys x)) (map (λ n. n.now) names.now)) }
{
    let mut left = Vec::new(alloc);
    for name in names {
        if !has(set, name) {
            push(&mut left, *name)?;
        }
    }
    Ok(left)
}
