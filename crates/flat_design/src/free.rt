//! Free signals: the constraints name them, and nothing drives them. They count as inputs of the top.
ghost use Rattle.std.specs.Prelude.{◌≡◌, ◌==◌, ◌||◌, ℕ, not, true, map, is_some, unwrap_or, option_map, slice_get, IfOk};
ghost use Rattle.std.specs.Cmp.Lexicographic.{pointwise};
ghost use Rattle.indexmap.specs.IndexSet.{contains_by};
ghost use Rattle.flat_names.specs.declared.design.Entry.{Entry};
ghost use Rattle.flat_unfolding.specs.Outcome.{Text};
ghost use Rattle.flat_unfolding.specs.Design as grown;
ghost use Rattle.flat_unfolding.specs.Signals.{with_free};
ghost use Rattle.flat_names.specs.Designs.{ShowsDesign};
ghost use Rattle.flat_drivers.specs.Driving.{is_among};
ghost use Rattle.flat_design.specs.Freeing.{are_named, is_assigned_at, mark_if, free_if};

use crate::instance::name_set;
use cdc_base::{Name, NoMemory, ResetPin, SigKind, Signal};
use flat_drivers::driven::driven_signals;
use flat_form::memory::push;
use flat_names::design::{Design, Entry};
use indexmap::IndexSet;
use std::alloc::Global;

/// A signal that nothing drives, with one of these names or that of a reset, comes from outside.
pub fn mark_free(
    alloc: Global,
    named: &[Name],
    pins: &[ResetPin],
    design: &mut Design,
) -> Result<(), NoMemory>
    ensures { (d : grown.Design) → ShowsDesign pins.now design.old d → IfOk result (λ _. ShowsDesign pins.now design.new (with_free named.now d)) }
{
    let names = all_names(alloc, named, pins)?;
    let driven = driven_marks(alloc, design)?;
    set_free(&names, driven.as_slice(), &mut design.signals);
    Ok(())
}

/// The names with those of the resets.
fn all_names(alloc: Global, named: &[Name], pins: &[ResetPin]) -> Result<IndexSet<Name>, NoMemory>
    ensures { IfOk result (λ set. (x : Text) → contains_by (pointwise ◌==◌ x) set ≡ are_named named.now pins.now x) }
{
    let mut names = name_set(alloc, named)?;
    for pin in pins {
        if names.insert(pin.name.copy(alloc)?).is_err() {
            return Err(NoMemory);
        }
    }
    Ok(names)
}

/// Whether each signal has a driver or a start value.
fn driven_marks(alloc: Global, design: &Design) -> Result<Vec<bool>, NoMemory>
    ensures { IfOk result (λ marks. (s : ℕ)
        → slice_get marks.items s ≡ option_map (λ (e : Entry). is_some e.start || is_assigned_at design.now s)
        (slice_get design.now.entries.items s)) }
{
    let driven = driven_signals(
        alloc,
        design.signals.as_slice(),
        design.assigns.as_slice(),
        design.combs.as_slice(),
        design.clocked.as_slice(),
        design.resets.as_slice(),
    )?;
    let mut marks = start_marks(alloc, design.entries.as_slice())?;
    mark_driven(driven.signals(), &mut marks);
    Ok(marks)
}

/// Whether each signal has a start value.
fn start_marks(alloc: Global, entries: &[Entry]) -> Result<Vec<bool>, NoMemory>
    ensures { IfOk result (λ marks. marks.items ≡ map (λ (e : Entry). is_some e.start) entries.now) }
{
    let mut marks = Vec::new(alloc);
    for entry in entries {
        push(&mut marks, entry.start.is_some())?;
    }
    Ok(marks)
}

/// Marks these signals.
pub fn mark_driven(driven: &[u32], marks: &mut Vec<bool>)
    ensures { (s : ℕ) → slice_get marks.new.items s ≡ option_map (mark_if (is_among driven.now s)) (slice_get marks.old.items s) }
{
    for sig in driven {
        mark(*sig, marks);
    }
}

fn mark(sig: u32, marks: &mut Vec<bool>)
    ensures { (s : ℕ) → slice_get marks.new.items s ≡ option_map (mark_if (s == sig)) (slice_get marks.old.items s) }
{
    if let Some(mark) = marks.get_mut(usize::try_from(sig).unwrap_or(usize::MAX)) {
        *mark = true;
    }
}

/// The signals that are named and not driven come from outside.
fn set_free(names: &IndexSet<Name>, driven: &[bool], signals: &mut Vec<Signal>)
    ensures { (s : ℕ) → slice_get signals.new.items s ≡ option_map (free_if names.now (not (unwrap_or (slice_get driven.now s) true)))
        (slice_get signals.old.items s) }
{
    for (sig, is_driven) in driven.iter().enumerate() {
        if !*is_driven {
            set_named(names, sig, signals);
        }
    }
}

/// A signal comes from outside if it is named.
fn set_named(names: &IndexSet<Name>, sig: usize, signals: &mut Vec<Signal>)
    ensures { (s : ℕ) → slice_get signals.new.items s ≡ option_map (free_if names.now (s == sig)) (slice_get signals.old.items s) }
{
    if let Some(signal) = signals.get_mut(sig) {
        if names.contains(&signal.name) {
            signal.kind = SigKind::Input;
        }
    }
}
