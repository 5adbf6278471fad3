//! The ports of the top: what comes from outside, and its outputs.
ghost use Rattle.std.specs.Prelude.{◌≡◌, ◌==◌, ℕ, List, length, Some, option_map, option_copied, option_and_then, slice_get, IfOk};
ghost use Rattle.cdc_base.specs.declared.signal.ResetPin as pin;
ghost use Rattle.cdc_base.specs.declared.signal.Signal.{Signal};
ghost use Rattle.flat_names.specs.declared.design.Entry.{Entry};
ghost use Rattle.verilog_reading.specs.SourceTree.{module_of};
ghost use Rattle.flat_unfolding.specs.Names as meanings;
ghost use Rattle.flat_unfolding.specs.Declarations.{header_of};
ghost use Rattle.flat_unfolding.specs.Design as grown;
ghost use Rattle.flat_unfolding.specs.Design.{Stage};
ghost use Rattle.flat_unfolding.specs.Targets.{is_input as is_inward};
ghost use Rattle.flat_unfolding.specs.Unfolding.{top_ports, top_port};
ghost use Rattle.flat_names.specs.Looks.{meaning_of};
ghost use Rattle.flat_names.specs.Designs.{ShowsNames, ShowsDesign, ShowsStage};
ghost use Rattle.flat_design.specs.Visiting.{if_signal, outside_if, AreFitNames};

use cdc_base::{Name, NoMemory, SigKind, Signal};
use flat_form::memory::push;
use flat_names::design::{Design, Entry, Role};
use flat_names::scope::{Meaning, Names};
use verilog_ast::Module;

/// The inputs of the top come from outside. Its outputs are listed in the order of its header.
pub fn set_top_ports(module: &Module, names: &Names, design: &mut Design) -> Result<(), NoMemory>
    ensures { (resets : List pin.ResetPin) (s : Stage) → ShowsStage resets names.now design.old s → AreFitNames s.names (length s.design.entries)
        → IfOk result (λ _. ShowsStage resets names.now design.new (top_ports (header_of (module_of «module».now)) s)) }
{
    for port in module.ports.as_slice() {
        if let Some(sig) = port_signal(names, &port.name) {
            set_top_port(sig, design)?;
        }
    }
    Ok(())
}

/// The signal of a port, where it is declared.
fn port_signal(names: &Names, name: &Name) -> Option<u32>
    ensures { (s : meanings.Names) → ShowsNames names.now s → result ≡ if_signal (meanings.meaning_in s name.now) }
{
    match names.get(name) {
        Some(meaning) => signal_of(*meaning),
        None => None,
    }
}

fn signal_of(meaning: Meaning) -> Option<u32>
    ensures { result ≡ if_signal (option_and_then meanings.as_value (Some (meaning_of meaning))) }
{
    match meaning {
        Meaning::Signal(sig) => Some(sig),
        _ => None,
    }
}

fn set_top_port(sig: u32, design: &mut Design) -> Result<(), NoMemory>
    ensures { (resets : List pin.ResetPin) (d : grown.Design) → ShowsDesign resets design.old d
        → IfOk result (λ _. ShowsDesign resets design.new (top_port d (Some (meanings.a_signal sig)))) }
{
    if is_input(design, sig) {
        set_outside(&mut design.signals, sig);
        return Ok(());
    }
    push(&mut design.outputs, sig)
}

fn is_input(design: &Design, sig: u32) -> bool
    ensures { (resets : List pin.ResetPin) (d : grown.Design) → ShowsDesign resets design.now d → result ≡ is_inward (meanings.direction_at d.entries sig) }
{
    match entry(design, sig) {
        Some(entry) => entry.role == Role::Input,
        None => false,
    }
}

fn entry(design: &Design, sig: u32) -> Option<&Entry>
    ensures { option_copied result ≡ slice_get design.now.entries.items sig }
{
    design
        .entries
        .get(usize::try_from(sig).unwrap_or(usize::MAX))
}

/// An input of the top comes from outside.
fn set_outside(signals: &mut Vec<Signal>, sig: u32)
    ensures { (s : ℕ) → slice_get signals.new.items s ≡ option_map (outside_if (s == sig)) (slice_get signals.old.items s) }
{
    if let Some(signal) = signals.get_mut(usize::try_from(sig).unwrap_or(usize::MAX)) {
        signal.kind = SigKind::Input;
    }
}
