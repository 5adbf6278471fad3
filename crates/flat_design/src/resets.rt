//! The resets that are declared: a signal of one bit with the printed name of a reset is that reset, in any module.
ghost use Rattle.std.specs.Prelude.{◌≡◌, ◌==◌, ℕ, cond, List, Some, None, is_some, option_map, slice_get, IfOk};
ghost use Rattle.std.specs.Cmp.Lexicographic.{pointwise};
ghost use Rattle.cdc_base.specs.declared.signal.ResetPin as pin;
ghost use Rattle.cdc_base.specs.declared.signal.Signal.{Signal};
ghost use Rattle.flat_names.specs.declared.design.Entry.{Entry};
ghost use Rattle.flat_unfolding.specs.Outcome.{Text};
ghost use Rattle.flat_unfolding.specs.Design as grown;
ghost use Rattle.flat_unfolding.specs.Design.{Stage, change_entry};
ghost use Rattle.flat_unfolding.specs.Unfolding as law;
ghost use Rattle.flat_unfolding.specs.Unfolding.{with_resets};
ghost use Rattle.flat_names.specs.Designs.{ShowsDesign};
ghost use Rattle.flat_design.specs.Visiting.{pin_in, ShowsPins, resolved_if};

use cdc_base::{Name, NoMemory, ResetPin};
use flat_names::design::{Design, Entry, Reset};
use indexmap::IndexMap;
use std::alloc::Global;

/// The resets by name.
pub type Pins = IndexMap<Name, Reset>;

/// The first pin of each name. More pins than numbers count as want of memory.
pub fn pins_by_name(alloc: Global, resets: &[ResetPin]) -> Result<Pins, NoMemory>
    ensures { IfOk result (λ table. ShowsPins table resets.now) }
{
    let mut pins = IndexMap::new(alloc);
    for (number, pin) in resets.iter().enumerate() {
        let Ok(number) = u32::try_from(number) else {
            return Err(NoMemory);
        };
        let reset = Reset {
            pin: number,
            is_high: pin.high,
        };
        add_pin(alloc, &mut pins, &pin.name, reset)?;
    }
    Ok(pins)
}

/// Adds a pin, unless one of that name is there.
fn add_pin(alloc: Global, pins: &mut Pins, name: &Name, reset: Reset) -> Result<(), NoMemory>
    ensures { IfOk result (λ _. (x : Text) → pin_in pins.new x ≡ cond (is_some (pin_in pins.old name.now)) (pin_in pins.old x) (cond (pointwise ◌==◌ name.now x) (Some reset) (pin_in pins.old x))) }
{
    if pins.contains_key(name) {
        return Ok(());
    }
    match pins.insert(name.copy(alloc)?, reset) {
        Ok(_) => Ok(()),
        Err(_) => Err(NoMemory),
    }
}

/// Gives the signals from number `first` on the resets that they are declared as.
pub fn resolve_resets(pins: &Pins, first: usize, design: &mut Design)
    ensures { (resets : List pin.ResetPin) (s : Stage) → ShowsPins pins.now resets → ShowsDesign resets design.old s.design → ShowsDesign resets design.new (with_resets first s).design }
{
    for sig in first..design.entries.len() {
        resolve_reset(pins, sig, design);
    }
}

fn resolve_reset(pins: &Pins, sig: usize, design: &mut Design)
    ensures { (resets : List pin.ResetPin) (d : grown.Design) → ShowsPins pins.now resets → ShowsDesign resets design.old d
        → ShowsDesign resets design.new (record d { entries = change_entry (law.declared_reset d.pins) sig d.entries }) }
{
    let reset = declared_reset(pins, sig, design);
    set_reset(&mut design.entries, sig, reset);
}

fn set_reset(entries: &mut Vec<Entry>, sig: usize, reset: Option<Reset>)
    ensures { (s : ℕ) → slice_get entries.new.items s ≡ option_map (resolved_if reset (s == sig)) (slice_get entries.old.items s) }
{
    if let Some(entry) = entries.get_mut(sig) {
        entry.reset = reset;
    }
}

/// The reset that a signal is declared as.
fn declared_reset(pins: &Pins, sig: usize, design: &Design) -> Option<Reset>
    ensures { (x : Entry) (y : Signal) → slice_get design.now.entries.items sig ≡ Some x → slice_get design.now.signals.items sig ≡ Some y → result ≡ cond (x.width == 1) (pin_in pins.now y.name) None }
{
    let entry = design.entries.get(sig)?;
    let signal = design.signals.get(sig)?;
    reset_named(&signal.name, entry.width, pins)
}

/// The reset of a name, for a signal of one bit.
pub fn reset_named(name: &Name, width: u8, pins: &Pins) -> Option<Reset>
    ensures { result ≡ cond (width == 1) (pin_in pins.now name.now) None }
{
    if width != 1 {
        return None;
    }
    pins.get(name).copied()
}
