//! The clocks that tick in a step.
ghost use Rattle.std.specs.Prelude.{◌≡◌, length, replicate, false};
ghost use Rattle.domains.specs.Assignment.{clock_of};
ghost use Rattle.settling_sim.specs.Edges.{mark_in, is_marked};

use cdc_base::Bit;
use domains::Domains;

/// Marks the clocks of the edges, and no others.
pub fn mark(ticking: &mut [bool], edges: &[u32])
    ensures { ticking.new ≡ mark_in (replicate (length ticking.old) false) edges.now }
{
    ticking.fill(false);
    for edge in edges {
        let clock = *edge as usize;
        if clock < ticking.len() {
            ticking[clock] = true;
        }
    }
}

/// Whether the bit has a clock, and it ticks.
pub fn ticks(domains: &Domains, ticking: &[bool], bit: Bit) -> bool
    ensures { result ≡ is_marked ticking.now (clock_of domains.now bit) }
{
    match domains.clock_of(bit) {
        Some(clock) => ticking.get(clock as usize).copied().unwrap_or(false),
        None => false,
    }
}
