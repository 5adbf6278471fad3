//! The bits of a flat design that are read.
ghost use Rattle.std.specs.Prelude.{◌≡◌, ℕ, ◌<◌, IfOk};
ghost use Rattle.flat_meaning.specs.Deps.{union};
ghost use Rattle.flat_meaning.specs.Design.{width_in};
ghost use Rattle.flat_form.specs.View.{expr_of, target_of};
ghost use Rattle.flat_form.specs.Masks.{bits_in, Adds};
ghost use Rattle.flat_meaning.specs.Law.{expr_reads};
ghost use Rattle.flat_form.specs.Uses.{target_reads};
ghost use Rattle.flat_unfolding.specs.Drivers.{is_read};
ghost use Rattle.flat_drivers.specs.Driving.{design_of, assigned_in, wires_in, clocked_in, bodies_in, assigns_read, bodies_read, clocks_read};

use cdc_base::{NoMemory, Signal};
use flat_form::flat::{FlatAssign, FlatClocked, FlatComb};
use flat_form::masks::Masks;
use flat_form::uses::{add_reads, add_statement_reads, add_target_reads};
use std::alloc::Global;

/// The bits that an expression, an event or a connection reads.
pub fn reads_of(
    alloc: Global,
    signals: &[Signal],
    assigns: &[FlatAssign],
    combs: &[FlatComb],
    clocked: &[FlatClocked],
) -> Result<Masks, NoMemory>
    ensures { IfOk result (λ m. (s i : ℕ) → i < 64 → bits_in m s i ≡ is_read (design_of signals.now assigns.now combs.now clocked.now) s i) }
{
    let mut reads = Masks::new(alloc);
    add_all_assign_reads(signals, assigns, &mut reads)?;
    add_wires_reads(signals, combs, &mut reads)?;
    add_clocked_reads(signals, clocked, &mut reads)?;
    Ok(reads)
}

fn add_all_assign_reads(
    signals: &[Signal],
    assigns: &[FlatAssign],
    reads: &mut Masks,
) -> Result<(), NoMemory>
    ensures { IfOk result (λ _. Adds reads.old reads.new (assigns_read (width_in signals.now) (assigned_in assigns.now))) }
{
    for assign in assigns {
        add_assign_reads(signals, assign, reads)?;
    }
    Ok(())
}

fn add_assign_reads(
    signals: &[Signal],
    assign: &FlatAssign,
    reads: &mut Masks,
) -> Result<(), NoMemory>
    ensures { IfOk result (λ _. Adds reads.old reads.new (union (expr_reads (width_in signals.now) (expr_of assign.now.value)) (target_reads (width_in signals.now) (target_of assign.now.target)))) }
{
    add_reads(signals, &assign.value, reads)?;
    add_target_reads(signals, &assign.target, reads)
}

fn add_wires_reads(
    signals: &[Signal],
    combs: &[FlatComb],
    reads: &mut Masks,
) -> Result<(), NoMemory>
    ensures { IfOk result (λ _. Adds reads.old reads.new (bodies_read (width_in signals.now) (wires_in combs.now))) }
{
    for process in combs {
        add_statement_reads(signals, &process.body, reads)?;
    }
    Ok(())
}

/// A clocked process reads what its body does, and its clock.
fn add_clocked_reads(
    signals: &[Signal],
    clocked: &[FlatClocked],
    reads: &mut Masks,
) -> Result<(), NoMemory>
    ensures { IfOk result (λ _. Adds reads.old reads.new (union (bodies_read (width_in signals.now) (bodies_in clocked.now)) (clocks_read (clocked_in clocked.now)))) }
{
    for process in clocked {
        add_statement_reads(signals, &process.body, reads)?;
        reads.add(process.clock, 1)?;
    }
    Ok(())
}
