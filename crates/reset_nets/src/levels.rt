//! Values while signals have levels: each read of a signal is the number of its level.
ghost use Rattle.std.specs.Prelude.{◌≡◌, true, map, is_some, IfOk, OnOk};
ghost use Rattle.driver_loops.specs.Links.{extended};
ghost use Rattle.flat_form.specs.View.{expr_of, exprs_of};
ghost use Rattle.flat_form.specs.Sizes.{kept_of, is_sized};
ghost use Rattle.reset_nets.specs.Nets.{reads_of, all_reads_of, with_levels, all_with_levels, value_at as value_of};
ghost use Rattle.reset_nets.specs.Finding.{known_in, levels_at, are_known as are_known_of, level_made as level_made_of};

use cdc_base::{List, NoMemory};
use driver_loops::Links;
use flat_form::flat::FExpr;
use flat_form::memory::{boxed, push};
use flat_form::value::assigned_value;
use std::alloc::Global;

/// The level of a signal that is known to be a net.
fn level(levels: &[Option<bool>], sig: u32) -> Option<bool>
    ensures { result ≡ known_in levels.now sig }
{
    levels.get(sig as usize).copied().flatten()
}

/// The inactive level of a signal, or its active one.
fn level_read(levels: &[Option<bool>], sig: u32, active: bool) -> bool
    ensures { result ≡ levels_at active (known_in levels.now) sig }
{
    let inactive = level(levels, sig).unwrap_or(false);
    if active { !inactive } else { inactive }
}

fn is_known(levels: &[Option<bool>], sig: u32) -> bool
    ensures { result ≡ is_some (known_in levels.now sig) }
{
    level(levels, sig).is_some()
}

/// Whether these are one signal or more, each of which is known to be a net.
fn are_known(levels: &[Option<bool>], signals: &[u32]) -> bool
    ensures { result ≡ are_known_of (known_in levels.now) signals.now }
{
    for sig in signals {
        if !is_known(levels, *sig) {
            return false;
        }
    }
    !signals.is_empty()
}

/// Adds the signals that an expression reads to what a graph's last vertex leads to.
#[cycle(add_reads)]
pub fn add_reads(expr: &FExpr, links: &mut Links) -> Result<(), NoMemory>
    ensures { OnOk result (links.new ≡ extended links.old (reads_of (expr_of expr.now))) }
{
    match expr {
        FExpr::Number { .. } => Ok(()),
        FExpr::Read { sig, .. } => links.add(*sig),
        FExpr::At { sig, index, .. } => {
            links.add(*sig)?;
            add_reads(index, links)
        }
        FExpr::Unary { a, .. } => add_reads(a, links),
        FExpr::Binary { a, b, .. } => {
            add_reads(a, links)?;
            add_reads(b, links)
        }
        FExpr::Choose {
            cond,
            yes,
            other,
            ..
        } => {
            add_reads(cond, links)?;
            add_reads(yes, links)?;
            add_reads(other, links)
        }
        FExpr::Gate { inputs, .. } => add_all_reads(inputs.as_slice(), links),
        FExpr::Join { parts, .. } | FExpr::Repeat { parts, .. } => {
            add_all_reads(parts.as_slice(), links)
        }
    }
}

#[cycle(add_reads)]
fn add_all_reads(exprs: &[FExpr], links: &mut Links) -> Result<(), NoMemory>
    ensures { OnOk result (links.new ≡ extended links.old (all_reads_of (exprs_of (map expr_of exprs.now)))) }
{
    for expr in exprs {
        add_reads(expr, links)?;
    }
    Ok(())
}

/// The expression with each read as the number of its signal's level.
#[cycle(at_levels)]
fn at_levels(
    alloc: Global,
    expr: &FExpr,
    levels: &[Option<bool>],
    active: bool,
) -> Result<FExpr, NoMemory>
    ensures levels { IfOk result (λ e. expr_of e ≡ with_levels (levels_at active (known_in levels.now)) (expr_of expr.now)) }
    ensures kept { IfOk result (λ e. kept_of e ≡ kept_of expr.now) }
{
    match expr {
        FExpr::Number { value, width } => Ok(FExpr::Number {
            value: *value,
            width: *width,
        }),
        FExpr::Read { sig, at, width } => Ok(FExpr::Number {
            value: u64::from(*at == 0 && level_read(levels, *sig, active)),
            width: *width,
        }),
        FExpr::At { sig, index, width } => {
            let index = at_levels(alloc, index, levels, active)?;
            Ok(FExpr::At {
                sig: *sig,
                index: boxed(alloc, index)?,
                width: *width,
            })
        }
        FExpr::Unary { op, a, width } => {
            let a = at_levels(alloc, a, levels, active)?;
            Ok(FExpr::Unary {
                op: *op,
                a: boxed(alloc, a)?,
                width: *width,
            })
        }
        FExpr::Binary { op, a, b, width } => {
            let a = at_levels(alloc, a, levels, active)?;
            let b = at_levels(alloc, b, levels, active)?;
            Ok(FExpr::Binary {
                op: *op,
                a: boxed(alloc, a)?,
                b: boxed(alloc, b)?,
                width: *width,
            })
        }
        FExpr::Choose {
            cond,
            yes,
            other,
            width,
        } => {
            let cond = at_levels(alloc, cond, levels, active)?;
            let yes = at_levels(alloc, yes, levels, active)?;
            let other = at_levels(alloc, other, levels, active)?;
            Ok(FExpr::Choose {
                cond: boxed(alloc, cond)?,
                yes: boxed(alloc, yes)?,
                other: boxed(alloc, other)?,
                width: *width,
            })
        }
        FExpr::Gate { op, inputs } => Ok(FExpr::Gate {
            op: *op,
            inputs: all_at_levels(alloc, inputs.as_slice(), levels, active)?,
        }),
        FExpr::Join { parts, width } => Ok(FExpr::Join {
            parts: all_at_levels(alloc, parts.as_slice(), levels, active)?,
            width: *width,
        }),
        FExpr::Repeat {
            count,
            parts,
            width,
        } => Ok(FExpr::Repeat {
            count: *count,
            parts: all_at_levels(alloc, parts.as_slice(), levels, active)?,
            width: *width,
        }),
    }
}

#[cycle(at_levels)]
fn all_at_levels(
    alloc: Global,
    exprs: &[FExpr],
    levels: &[Option<bool>],
    active: bool,
) -> Result<List<FExpr>, NoMemory>
    ensures levels { IfOk result (λ es. exprs_of (map expr_of es) ≡ all_with_levels (levels_at active (known_in levels.now)) (exprs_of (map expr_of exprs.now))) }
    ensures kept { IfOk result (λ es. map kept_of es ≡ map kept_of exprs.now) }
{
    let mut all = Vec::new(alloc);
    for expr in exprs {
        push(&mut all, at_levels(alloc, expr, levels, active)?)?;
    }
    Ok(List::from_vec(all))
}

/// The value of one bit that is assigned while signals have these levels.
fn value_at(
    alloc: Global,
    value: &FExpr,
    levels: &[Option<bool>],
    active: bool,
) -> Result<bool, NoMemory>
    ensures { is_sized value.now ≡ true → IfOk result (λ b. b ≡ value_of (levels_at active (known_in levels.now)) (expr_of value.now)) }
{
    let fixed = at_levels(alloc, value, levels, active)?;
    Ok(assigned_value(&fixed, 1) != 0)
}

/// The inactive level of a signal to which this value alone is assigned, where that makes it a net: it reads these
/// signals, all of them nets, and its value at their inactive levels isn't that at their active ones.
pub fn level_made(
    alloc: Global,
    value: &FExpr,
    reads: &[u32],
    levels: &[Option<bool>],
) -> Result<Option<bool>, NoMemory>
    ensures { is_sized value.now ≡ true → reads.now ≡ reads_of (expr_of value.now) → IfOk result (λ o. o ≡ level_made_of (known_in levels.now) (expr_of value.now)) }
{
    if !are_known(levels, reads) {
        return Ok(None);
    }
    let inactive = value_at(alloc, value, levels, false)?;
    let active = value_at(alloc, value, levels, true)?;
    Ok(if inactive == active {
        None
    } else {
        Some(inactive)
    })
}
