//! The state of a design.
ghost use Rattle.std.specs.Prelude.{◌≡◌, ◌≤◌, ◌^◌, length, IfOk};
ghost use Rattle.std.specs.List.Sorted.{IsStrictlyIncreasing};
ghost use Rattle.selftest_command.specs.Counts.{state_bits};

use cdc_base::NoMemory;
use cell_graph::Net;
use domains::Domains;
use settling_sim::is_state_signal;

/// How many bits hold the state of the design: those of registers, of clocked inputs and of static inputs.
pub fn state_bits(net: &Net, domains: &Domains) -> Result<u64, NoMemory>
    ensures { length net.now.graph.signals ≤ 2 ^ 32 → IsStrictlyIncreasing domains.now.statics → IfOk result (λ bits. bits ≡ state_bits net.now domains.now) }
{
    let mut bits: u64 = 0;
    for (place, signal) in net.graph.signals().iter().enumerate() {
        let Ok(sig) = u32::try_from(place) else {
            return Err(NoMemory);
        };
        if is_state_signal(net, domains, sig) {
            match bits.checked_add(u64::from(signal.width)) {
                Some(more) => bits = more,
                None => return Err(NoMemory),
            }
        }
    }
    Ok(bits)
}
