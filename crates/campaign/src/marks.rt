//! The settling flops of a design, as a mask for each signal.
ghost use Rattle.std.specs.Prelude.{◌≡◌, ◌||◌, true, length, IfOk};
ghost use Rattle.std.specs.List.{Contains};
ghost use Rattle.cdc_base.specs.declared.bit.Bit.{Bit};
ghost use Rattle.cell_graph.specs.Values.{reading_of};
ghost use Rattle.cdc_model.specs.declared.scheme.Sync.{Sync};
ghost use Rattle.cdc_model.specs.Schemes.{in_first};
ghost use Rattle.campaign.specs.Planned.{HavePlaces, settles_in, is_settling_in};

use cdc_base::{Bit, NoMemory};
use cdc_model::Sync;
use cdc_model::view::settle_of;
use cell_graph::Net;
use domains::Domains;
use settling_sim::moment::zeros;
use settling_sim::word::put_bit;
use std::alloc::Global;

/// Marks the first flops.
fn mark_first(count: u8, flops: &[Bit], marks: &mut [u64])
    ensures counted { length marks.new ≡ length marks.old }
    ensures marked { HavePlaces (length marks.old) flops.now → (x : Bit) → reading_of marks.new x ≡ (reading_of marks.old x || in_first count x flops.now) }
{
    let mut left = count;
    for flop in flops {
        if left == 0 {
            return;
        }
        put_bit(marks, *flop, true);
        left -= 1;
    }
}

/// How many flops of a chain are settling ones: as many as the chain's clock needs cycles to settle.
fn settling_count(domains: &Domains, flops: &[Bit]) -> u8
    ensures { (x : Bit) → settles_in domains.now x flops.now ≡ in_first result x flops.now }
{
    match flops {
        [first, ..] => settle_of(domains, *first),
        [] => 0,
    }
}

/// Marks the settling flops of the synchronizers.
fn mark_chains(domains: &Domains, syncs: &[Sync], marks: &mut [u64])
    ensures counted { length marks.new ≡ length marks.old }
    ensures marked { ((s : Sync) → Contains syncs.now s → HavePlaces (length marks.old) s.flops) → (x : Bit) →
        reading_of marks.new x ≡ (reading_of marks.old x || is_settling_in domains.now syncs.now x) }
{
    for sync in syncs {
        let flops = sync.flops.as_slice();
        let count = settling_count(domains, flops);
        mark_first(count, flops, marks);
    }
}

/// The settling flops of the synchronizers, for each signal a mask of its bits. Each flop is looked at once.
pub fn settling_flops(
    alloc: Global,
    net: &Net,
    domains: &Domains,
    syncs: &[Sync],
) -> Result<Vec<u64>, NoMemory>
    ensures { IfOk result (λ marks. ((s : Sync) → Contains syncs.now s → HavePlaces (length net.now.graph.signals) s.flops) →
        (x : Bit) → reading_of marks.items x ≡ is_settling_in domains.now syncs.now x) }
{
    let mut marks = zeros(alloc, net.graph.signals().len())?;
    mark_chains(domains, syncs, &mut marks);
    Ok(marks)
}
