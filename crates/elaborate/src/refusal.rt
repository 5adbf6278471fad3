//! Refusals of elaboration, and the limit that is tried first.
ghost use Rattle.std.specs.Prelude.{◌≡◌, ◌<◌, ◌↔◌, IsTrue};
ghost use Rattle.refusals.specs.Numbers.{HasNumberIn, elaboration_numbers};
ghost use Rattle.elaborate.specs.Limits.{state_bits, own_bits as bits_of};
ghost use Rattle.refusals.specs.Limits.{Tells};
ghost use Rattle.elaborate.specs.Refusals.{NamesSignal};

use cdc_base::limits::MAX_STATE_BITS;
use cdc_base::{Fault, Name, NoMemory, SigKind, Signal, Stop};
use std::alloc::Global;

/// The signal leads back to itself through logic alone.
pub fn combinational_loop(alloc: Global, signal: &Signal) -> Stop
    ensures numbered { HasNumberIn elaboration_numbers result }
    ensures told { Tells (NamesSignal signal.now) result }
{
    match signal.name.copy(alloc) {
        Ok(name) => Stop::Refused(Fault {
            number: 312,
            place: Some(signal.place),
            name,
        }),
        Err(NoMemory) => Stop::Memory,
    }
}

/// Whether the bits of registers and top inputs together pass their limit.
pub fn has_too_many_state_bits(signals: &[Signal]) -> bool
    ensures { IsTrue result ↔ (MAX_STATE_BITS < state_bits signals.now) }
{
    let mut bits = 0u32;
    for signal in signals {
        bits += own_bits(signal);
        if bits > MAX_STATE_BITS {
            return true;
        }
    }
    false
}

/// The bits of a register or a top input, and none of a wire.
fn own_bits(signal: &Signal) -> u32
    ensures exact { result ≡ bits_of signal.now.kind signal.now.width }
    ensures small { result < 256 }
{
    match signal.kind {
        SigKind::Input | SigKind::Register => u32::from(signal.width),
        SigKind::Wire => 0,
    }
}
