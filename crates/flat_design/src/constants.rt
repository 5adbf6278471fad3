//! Signals with a start value that no process assigns: the value is assigned to them.
ghost use Rattle.std.specs.Prelude.{◌≡◌, ◌||◌, ℕ, List, true, map, unwrap_or, option_map, slice_get, IfOk};
ghost use Rattle.cdc_base.specs.declared.signal.ResetPin as pin;
ghost use Rattle.cdc_base.specs.declared.signal.Signal.{Signal};
ghost use Rattle.flat_unfolding.specs.Design as grown;
ghost use Rattle.flat_unfolding.specs.Drivers.{is_from_outside};
ghost use Rattle.flat_unfolding.specs.Signals.{with_constants};
ghost use Rattle.flat_unfolding.specs.Widths.{KeepsSizes};
ghost use Rattle.flat_names.specs.Designs.{ShowsDesign, flat_so_far};
ghost use Rattle.flat_design.specs.Visiting.{IsFitDesign};
ghost use Rattle.flat_design.specs.StartValues.{is_processed_at, start_assigned, start_unless_held, starts_from, GrowsBy};

use crate::free::mark_driven;
use cdc_base::{NoMemory, SigKind, Signal};
use flat_drivers::driven::driven_signals;
use flat_form::bits::low_bits;
use flat_form::flat::{FExpr, FTarget, FlatAssign};
use flat_form::memory::push;
use flat_names::design::{Design, Entry};
use std::alloc::Global;

/// Assigns its start value to each signal that no process assigns and that doesn't come from outside.
pub fn add_constants(alloc: Global, design: &mut Design) -> Result<(), NoMemory>
    ensures exact { (pins : List pin.ResetPin) (d : grown.Design) → ShowsDesign pins design.old d → IsFitDesign d → IfOk result (λ _. ShowsDesign pins design.new (with_constants d)) }
    ensures sizes { KeepsSizes (flat_so_far design.old) → IfOk result (λ _. KeepsSizes (flat_so_far design.new)) }
{
    let held = held_marks(alloc, design)?;
    add_starts(
        held.as_slice(),
        design.entries.as_slice(),
        &mut design.assigns,
    )
}

/// Whether a process assigns each signal, or it comes from outside.
fn held_marks(alloc: Global, design: &Design) -> Result<Vec<bool>, NoMemory>
    ensures { IfOk result (λ marks. (s : ℕ)
        → slice_get marks.items s ≡ option_map (λ (y : Signal). is_from_outside y.kind || is_processed_at design.now s)
        (slice_get design.now.signals.items s)) }
{
    let processed = driven_signals(
        alloc,
        design.signals.as_slice(),
        &[],
        design.combs.as_slice(),
        design.clocked.as_slice(),
        design.resets.as_slice(),
    )?;
    let mut marks = outside_marks(alloc, design.signals.as_slice())?;
    mark_driven(processed.signals(), &mut marks);
    Ok(marks)
}

/// Whether each signal comes from outside.
fn outside_marks(alloc: Global, signals: &[Signal]) -> Result<Vec<bool>, NoMemory>
    ensures { IfOk result (λ marks. marks.items ≡ map (λ (y : Signal). is_from_outside y.kind) signals.now) }
{
    let mut marks = Vec::new(alloc);
    for signal in signals {
        push(&mut marks, comes_from_outside(signal))?;
    }
    Ok(marks)
}

fn comes_from_outside(signal: &Signal) -> bool
    ensures { result ≡ is_from_outside signal.now.kind }
{
    matches!(signal.kind, SigKind::Input)
}

/// Assigns their start values to the signals that aren't held.
fn add_starts(
    held: &[bool],
    entries: &[Entry],
    assigns: &mut Vec<FlatAssign>,
) -> Result<(), NoMemory>
    ensures { IfOk result (λ _. GrowsBy assigns.old.items assigns.new.items (starts_from held.now 0 entries.now)) }
{
    for (sig, entry) in entries.iter().enumerate() {
        add_unless_held(held, sig, entry, assigns)?;
    }
    Ok(())
}

fn add_unless_held(
    held: &[bool],
    sig: usize,
    entry: &Entry,
    assigns: &mut Vec<FlatAssign>,
) -> Result<(), NoMemory>
    ensures { IfOk result (λ _. GrowsBy assigns.old.items assigns.new.items (start_unless_held held.now sig entry.now)) }
{
    if is_held(held, sig) {
        return Ok(());
    }
    add_start(sig, entry, assigns)
}

/// A signal without a mark counts as held.
fn is_held(held: &[bool], sig: usize) -> bool
    ensures { result ≡ unwrap_or (slice_get held.now sig) true }
{
    held.get(sig).copied().unwrap_or(true)
}

/// Assigns its start value to a signal, if it has one.
fn add_start(sig: usize, entry: &Entry, assigns: &mut Vec<FlatAssign>) -> Result<(), NoMemory>
    ensures { IfOk result (λ _. GrowsBy assigns.old.items assigns.new.items (start_assigned sig entry.now.width entry.now.start)) }
{
    let Some(start) = entry.start else {
        return Ok(());
    };
    let Ok(sig) = u32::try_from(sig) else {
        // No design has that many signals.
        return Err(NoMemory);
    };
    let width = entry.width;
    let value = start & low_bits(width);
    push(
        assigns,
        FlatAssign {
            target: FTarget::Whole { sig },
            value: FExpr::Number { value, width },
        },
    )
}
