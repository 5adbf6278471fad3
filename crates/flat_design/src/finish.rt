//! The end of the work: the rules of resets, free signals, constants, the trial of drivers, which signals are registers, and their start values.
ghost use Rattle.std.specs.Prelude.{◌≡◌, ◌==◌, ℕ, List, option_map, slice_get, IfOk, IfErr};
ghost use Rattle.refusals.specs.Numbers.{HasNumberIn, unfolding_numbers};
ghost use Rattle.cdc_base.specs.declared.signal.ResetPin as pin;
ghost use Rattle.flat_form.specs.View.{flat_of};
ghost use Rattle.flat_unfolding.specs.Design as grown;
ghost use Rattle.flat_unfolding.specs.Signals.{flat_design};
ghost use Rattle.flat_unfolding.specs.Unfolding as law;
ghost use Rattle.flat_unfolding.specs.Unfolding.{IsUnfolding};
ghost use Rattle.flat_unfolding.specs.Widths.{KeepsSizes};
ghost use Rattle.flat_drivers.specs.Driving.{is_among};
ghost use Rattle.flat_drivers.specs.Registers.{HasStarts};
ghost use Rattle.flat_names.specs.Designs.{ShowsDesign, flat_so_far, Ends};
ghost use Rattle.flat_design.specs.Visiting.{IsFitDesign};
ghost use Rattle.flat_design.specs.Finishing.{HasKept, AreKept, finished_at};

use crate::constants::add_constants;
use crate::free::mark_free;
use cdc_base::{List, Name, NoMemory, ResetPin, Signal, Stop};
use flat_drivers::drivers::try_drivers;
use flat_drivers::registers::{Starts, make_register, registers_of};
use flat_form::bits::low_bits;
use flat_form::flat::Flat;
use flat_names::design::{Design, Entry};
use std::alloc::Global;

/// The flat design, where no rule of resets is broken, free signals come from outside, registers that nothing writes keep
/// their start values, and each bit has its driver.
pub fn checked(
    alloc: Global,
    named: &[Name],
    pins: &[ResetPin],
    design: Design,
) -> Result<Flat, Stop>
    ensures exact { (d : grown.Design) → ShowsDesign pins.now design d → IsFitDesign d → IsUnfolding (law.finished named.now d) result }
    ensures sizes { (d : grown.Design) → ShowsDesign pins.now design d → IfOk result (λ f. KeepsSizes f) }
    ensures numbered { IfErr result (HasNumberIn unfolding_numbers) }
{
    let mut design = design;
    raise_late(&mut design)?;
    mark_free(alloc, named, pins, &mut design)?;
    add_constants(alloc, &mut design)?;
    try_drivers(
        alloc,
        design.signals.as_slice(),
        design.assigns.as_slice(),
        design.combs.as_slice(),
        design.clocked.as_slice(),
        design.resets.as_slice(),
    )?;
    Ok(finished(alloc, design)?)
}

/// Refuses the first process whose resets break a rule.
fn raise_late(design: &mut Design) -> Result<(), Stop>
    ensures exact { (pins : List pin.ResetPin) (d : grown.Design) → ShowsDesign pins design.old d → Ends (λ (u : Unit {0}). ShowsDesign pins design.new d) d.late result }
    ensures numbered { IfErr result (HasNumberIn unfolding_numbers) }
{
    match design.late.take() {
        Some(late) => late.faults.raise(late.place),
        None => Ok(()),
    }
}

/// The flat design.
fn finished(alloc: Global, design: Design) -> Result<Flat, NoMemory>
    ensures exact { (pins : List pin.ResetPin) (d : grown.Design) → ShowsDesign pins design d → IsFitDesign d → IfOk result (λ f. flat_of f ≡ flat_design d) }
    ensures sizes { KeepsSizes (flat_so_far design) → IfOk result (λ f. KeepsSizes f) }
{
    let mut signals = design.signals;
    let registers = registers_of(alloc, signals.as_slice(), design.clocked.as_slice())?;
    mark_registers(registers.signals(), design.entries.as_slice(), &mut signals);
    Ok(Flat {
        signals: List::from_vec(signals),
        assigns: List::from_vec(design.assigns),
        combs: List::from_vec(design.combs),
        clocked: List::from_vec(design.clocked),
        outputs: List::from_vec(design.outputs),
    })
}

/// Makes registers of these signals.
fn mark_registers(registers: &[u32], entries: &[Entry], signals: &mut Vec<Signal>)
    ensures { (d : grown.Design) → AreKept d entries.now signals.old.items
        → (s : ℕ) → slice_get signals.new.items s ≡ option_map (finished_at d s (is_among registers.now s)) (slice_get signals.old.items s) }
{
    for sig in registers {
        mark_register(*sig, entries, signals);
    }
}

/// Makes a register of a signal, with the start values that its entry has.
fn mark_register(sig: u32, entries: &[Entry], signals: &mut Vec<Signal>)
    ensures { (d : grown.Design) → AreKept d entries.now signals.old.items
        → (s : ℕ) → slice_get signals.new.items s ≡ option_map (finished_at d s (s == sig)) (slice_get signals.old.items s) }
{
    let place = usize::try_from(sig).unwrap_or(usize::MAX);
    if let (Some(signal), Some(entry)) = (signals.get_mut(place), entries.get(place)) {
        make_register(signal, starts_of(entry));
    }
}

/// The start values of the bits that a signal has.
fn starts_of(entry: &Entry) -> Starts
    ensures { (d : grown.Design) (s : ℕ) → HasKept d s entry.now → HasStarts d s entry.now.width result }
{
    let bits = low_bits(entry.width);
    Starts {
        start: entry.start.map(|start| start & bits),
        reset_known: entry.reset_known & bits,
        reset_start: entry.reset_start & bits,
    }
}
