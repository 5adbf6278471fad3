//! Which signals are registers, and their start values.
ghost use Rattle.std.specs.Prelude.{◌≡◌, true, ℕ, ◌-◌, ◌^◌, ◌≤◌, min, cond, is_some, IfOk};
ghost use Rattle.std.specs.List.{list_any};
ghost use Rattle.flat_meaning.specs.Flat.{Stmt, assigns as is_assigned};
ghost use Rattle.flat_form.specs.Masks.{has_signal};
ghost use Rattle.flat_unfolding.specs.Design.{Design};
ghost use Rattle.flat_unfolding.specs.Signals.{known_bits, start_bits};
ghost use Rattle.flat_drivers.specs.Driving.{clocked_in};
ghost use Rattle.flat_drivers.specs.Registers.{HasStarts};

use cdc_base::{NoMemory, SigKind, Signal};
use flat_form::bits::low_bits;
use flat_form::flat::FlatClocked;
use flat_form::masks::Masks;
use flat_form::uses::add_may_assign;
use std::alloc::Global;

/// The start values of a register. `start` is that of its declaration or of `initial`; `reset_known` masks the bits to
/// which a reset gives one, and `reset_start` has these.
#[derive(Clone, Copy, Debug, Drop)]
pub struct Starts {
    pub start: Option<u64>,
    pub reset_known: u64,
    pub reset_start: u64,
}

/// The signals that clocked processes assign.
pub fn registers_of(
    alloc: Global,
    signals: &[Signal],
    clocked: &[FlatClocked],
) -> Result<Masks, NoMemory>
    ensures { IfOk result (λ m. (s : ℕ) → has_signal m s ≡ list_any (λ (p : ℕ × Stmt). is_assigned p.1 s) (clocked_in clocked.now)) }
{
    let mut registers = Masks::new(alloc);
    for process in clocked {
        add_may_assign(signals, &process.body, &mut registers)?;
    }
    Ok(registers)
}

/// A register starts with the value of its declaration or of `initial`, over which that of a reset wins.
pub fn make_register(signal: &mut Signal, starts: Starts)
    ensures { (d : Design) (s : ℕ) → signal.old.width ≤ 64 → HasStarts d s signal.old.width starts
        → signal.new ≡ record signal.old { kind = SigKind.Register; known = known_bits d s signal.old.width true; start = start_bits d s signal.old.width true } }
{
    let known = declared_bits(starts.start, signal.width);
    let start = starts.start.unwrap_or(0);
    signal.kind = SigKind::Register;
    signal.known = known | starts.reset_known;
    signal.start = (start & !starts.reset_known) | starts.reset_start;
}

/// All bits, where there is a start value.
fn declared_bits(start: Option<u64>, width: u8) -> u64
    ensures { result ≡ cond (is_some start) (2 ^ min width 64 - 1) 0 }
{
    match start {
        Some(_) => low_bits(width),
        None => 0,
    }
}
