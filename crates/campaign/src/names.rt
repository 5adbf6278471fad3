//! Signals by their names.
ghost use Rattle.std.specs.Prelude.{◌≡◌, IfOk};
ghost use Rattle.std.specs.List.Sorted.{IsPermutation, IsSortedByKey};
ghost use Rattle.std.specs.Ordering.{nat_cmp};
ghost use Rattle.std.specs.Cmp.Lexicographic.{slice_cmp};
ghost use Rattle.campaign.specs.Names.{name_of};

use cdc_base::NoMemory;
use cell_graph::Net;
use std::alloc::Global;
use std::cmp::Ordering;

/// The name of a signal; empty where the net has no such signal.
pub fn name_of(net: &Net, sig: u32) -> &[u8]
    ensures { result.now ≡ name_of net.now.graph.signals sig }
{
    match net.graph.signals().get(sig as usize) {
        Some(signal) => signal.name.as_bytes(),
        None => &[],
    }
}

/// How the names of two signals stand in byte order.
pub fn compare(net: &Net, sig: u32, other: u32) -> Ordering
    ensures { result ≡ slice_cmp nat_cmp (name_of net.now.graph.signals sig) (name_of net.now.graph.signals other) }
{
    name_of(net, sig).cmp(name_of(net, other))
}

/// The signals in the byte order of their names.
pub fn by_name(alloc: Global, net: &Net, sigs: &[u32]) -> Result<Vec<u32>, NoMemory>
    ensures same { IfOk result (λ named. IsPermutation sigs.now named.items) }
    ensures sorted { IfOk result (λ named. IsSortedByKey (name_of net.now.graph.signals) (slice_cmp nat_cmp) named.items) }
{
    let Ok(mut named) = Vec::from_slice(alloc, sigs) else {
        return Err(NoMemory);
    };
    named.sort_unstable_by(|sig, other| compare(net, *sig, *other));
    Ok(named)
}
