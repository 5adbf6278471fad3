//! The signals that something assigns.
ghost use Rattle.std.specs.Prelude.{◌≡◌, ℕ, map, IfOk};
ghost use Rattle.flat_form.specs.View.{reset_of};
ghost use Rattle.flat_form.specs.Masks.{has_signal, Lists};
ghost use Rattle.flat_drivers.specs.Driving.{assigned_in, wires_in, clocked_in};
ghost use Rattle.flat_drivers.specs.Driven.{are_targets_of, are_assigned_by, are_set_by, is_assigned_in};

use crate::registers::registers_of;
use cdc_base::{NoMemory, Signal};
use flat_form::flat::{FlatAssign, FlatClocked, FlatComb, FlatReset};
use flat_form::masks::Masks;
use flat_form::uses::{add_assigned, add_may_assign};
use std::alloc::Global;

/// The signals that assignments and processes assign, or the first branches of their resets.
pub fn driven_signals(
    alloc: Global,
    signals: &[Signal],
    assigns: &[FlatAssign],
    combs: &[FlatComb],
    clocked: &[FlatClocked],
    resets: &[FlatReset],
) -> Result<Masks, NoMemory>
    ensures { IfOk result (λ m. (s : ℕ)
        → has_signal m s ≡ is_assigned_in (assigned_in assigns.now) (wires_in combs.now) (map reset_of resets.now) (clocked_in clocked.now) s) }
{
    let mut driven = registers_of(alloc, signals, clocked)?;
    add_targets(signals, assigns, &mut driven)?;
    add_wires(signals, combs, &mut driven)?;
    add_branches(signals, resets, &mut driven)?;
    Ok(driven)
}

fn add_targets(
    signals: &[Signal],
    assigns: &[FlatAssign],
    driven: &mut Masks,
) -> Result<(), NoMemory>
    ensures { IfOk result (λ _. Lists driven.old driven.new (are_targets_of (assigned_in assigns.now))) }
{
    for assign in assigns {
        add_assigned(signals, &assign.target, driven)?;
    }
    Ok(())
}

fn add_wires(signals: &[Signal], combs: &[FlatComb], driven: &mut Masks) -> Result<(), NoMemory>
    ensures { IfOk result (λ _. Lists driven.old driven.new (are_assigned_by (wires_in combs.now))) }
{
    for process in combs {
        add_may_assign(signals, &process.body, driven)?;
    }
    Ok(())
}

fn add_branches(
    signals: &[Signal],
    resets: &[FlatReset],
    driven: &mut Masks,
) -> Result<(), NoMemory>
    ensures { IfOk result (λ _. Lists driven.old driven.new (are_set_by (map reset_of resets.now))) }
{
    for reset in resets {
        add_may_assign(signals, &reset.branch, driven)?;
    }
    Ok(())
}
