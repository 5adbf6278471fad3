//! Which signals hold the state of a run.
ghost use Rattle.std.specs.Prelude.{◌≡◌, option_map, slice_get};
ghost use Rattle.std.specs.List.Sorted.{IsStrictlyIncreasing};
ghost use Rattle.domains.specs.Nets.{is_register};
ghost use Rattle.settling_sim.specs.State.{has_kind, is_clocked_input, is_static, is_state_signal};

use cdc_base::{Bit, SigKind, Signal};
use cell_graph::Net;
use domains::Domains;

fn signal_at(net: &Net, sig: u32) -> Option<&Signal>
    ensures { option_map (λ s. s.now) result ≡ slice_get net.now.graph.signals sig }
{
    net.graph.signals().get(sig as usize)
}

/// Whether the signal is a register.
pub fn is_register(net: &Net, sig: u32) -> bool
    ensures { result ≡ has_kind net.now is_register sig }
{
    match signal_at(net, sig) {
        Some(signal) => signal.kind == SigKind::Register,
        None => false,
    }
}

/// Whether the signal is an input of the top that changes at the edges of a clock.
pub fn is_clocked_input(net: &Net, domains: &Domains, sig: u32) -> bool
    ensures { result ≡ is_clocked_input net.now domains.now sig }
{
    match signal_at(net, sig) {
        Some(signal) => {
            signal.kind == SigKind::Input && domains.clock_of(Bit { sig, at: 0 }).is_some()
        }
        None => false,
    }
}

fn is_static(domains: &Domains, sig: u32) -> bool
    ensures { IsStrictlyIncreasing domains.now.statics → result ≡ is_static domains.now sig }
{
    domains.statics.as_slice().binary_search(&sig).is_ok()
}

/// Whether the signal's bits are the state of a run: it is a register, a clocked input or a static input.
pub fn is_state_signal(net: &Net, domains: &Domains, sig: u32) -> bool
    ensures { IsStrictlyIncreasing domains.now.statics → result ≡ is_state_signal net.now domains.now sig }
{
    is_register(net, sig) || is_clocked_input(net, domains, sig) || is_static(domains, sig)
}
