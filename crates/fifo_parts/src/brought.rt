//! The synchronizers that bring a code to another clock.
ghost use Rattle.std.specs.Prelude.{◌≡◌, ◌↔◌, ◌++◌, [], ◌∷◌, true, false, List, filter, map, option_map, slice_get, IfOk};
ghost use Rattle.cdc_base.specs.declared.bit.Bit.{Bit as BitOf};
ghost use Rattle.cell_graph.specs.Reading.{bit_eq};
ghost use Rattle.cdc_model.specs.Listed.{sync_entry};
ghost use Rattle.cdc_model.specs.Nets.{bit_count, design_of};
ghost use Rattle.cdc_model.specs.Schemes.{Sync as SyncOf};
ghost use Rattle.fifo_laws.specs.Sides.{syncs_on};
ghost use Rattle.fifo_parts.specs.Brought.{AreSources, at_places, is_on, IsArrival, IsOnly, IsOver, places_at, tested};
ghost use Rattle.fifo_parts.specs.Sides.{AllStartAtZero};

use crate::side::Side;
use cdc_base::{Bit, List, NoMemory};
use cdc_model::Sync;
use cdc_model::view::{start_value, width_of};
use cell_graph::Net;
use domains::Domains;
use std::alloc::Global;
use std::collections::HashMap;

/// The listed synchronizers by their sources, as places in the list.
#[derive(Drop)]
pub struct Sources {
    pub places: HashMap<Bit, Vec<usize>>,
}

impl Sources {
    pub fn of(alloc: Global, syncs: &[Sync]) -> Result<Sources, NoMemory>
        ensures { IfOk result (λ sources. (meant : List SyncOf) → syncs.now ≡ map sync_entry meant → AreSources meant sources.places) }
    {
        let mut places = HashMap::new(alloc);
        for (place, sync) in syncs.iter().enumerate() {
            add_place(alloc, &mut places, sync.from, place)?;
        }
        Ok(Sources { places })
    }

    /// The only synchronizer from a bit to a clock. None where there is none, or several.
    fn only<'a>(
        &self,
        net: &Net,
        domains: &Domains,
        syncs: &'a [Sync],
        from: Bit,
        clock: u32,
    ) -> Option<&'a Sync>
        ensures { (meant : List SyncOf) → syncs.now ≡ map sync_entry meant → AreSources meant self.now.places →
            IsOnly (syncs_on (design_of net.now domains.now) meant clock from) (option_map (λ s. s.now) result) }
    {
        match self.places.get(&from) {
            Some(there) => only_on(net, domains, syncs, there.as_slice(), clock),
            None => None,
        }
    }
}

/// The only one of the synchronizers at these places whose first flop is on a clock. None where there is none, or several.
fn only_on<'a>(
    net: &Net,
    domains: &Domains,
    syncs: &'a [Sync],
    places: &[usize],
    clock: u32,
) -> Option<&'a Sync>
    ensures { (meant : List SyncOf) → syncs.now ≡ map sync_entry meant →
        IsOnly (filter (is_on net.now domains.now clock) (at_places meant places.now)) (option_map (λ s. s.now) result) }
{
    let mut found = None;
    for place in places {
        let Some(sync) = sync_on(net, domains, syncs, *place, clock) else {
            continue;
        };
        if found.is_some() {
            return None;
        }
        found = Some(sync);
    }
    found
}

/// The synchronizer at the place, where its first flop is on a clock.
fn sync_on<'a>(
    net: &Net,
    domains: &Domains,
    syncs: &'a [Sync],
    place: usize,
    clock: u32,
) -> Option<&'a Sync>
    ensures { (meant : List SyncOf) → syncs.now ≡ map sync_entry meant →
        option_map (λ s. s.now) result ≡ option_map sync_entry (tested (is_on net.now domains.now clock) (slice_get meant place)) }
{
    let sync = syncs.get(place)?;
    if is_on(net, domains, sync, clock) {
        Some(sync)
    } else {
        None
    }
}

/// Adds a place to those at a key.
pub fn add_place(
    alloc: Global,
    places: &mut HashMap<Bit, Vec<usize>>,
    key: Bit,
    place: usize,
) -> Result<(), NoMemory>
    ensures added { IfOk result (λ _. places_at places.new key ≡ places_at places.old key ++ place ∷ []) }
    ensures kept { IfOk result (λ _. (other : BitOf) → bit_eq key other ≡ false → places_at places.new other ≡ places_at places.old other) }
{
    if let Some(there) = places.get_mut(&key) {
        return there.push(place).map_err(|_| NoMemory);
    }
    let mut first = Vec::new(alloc);
    first.push(place).map_err(|_| NoMemory)?;
    places.insert(key, first).map_err(|_| NoMemory)?;
    Ok(())
}

/// Whether the first flop of a synchronizer is on a clock.
fn is_on(net: &Net, domains: &Domains, sync: &Sync, clock: u32) -> bool
    ensures { (s : SyncOf) → sync.now ≡ sync_entry s → result ≡ is_on net.now domains.now clock s }
{
    match sync.flops.as_slice() {
        [first, ..] => {
            first.at < width_of(net, first.sig) && domains.clock_of(*first) == Some(clock)
        }
        [] => false,
    }
}

/// The last flop of a synchronizer, and how many flops it has.
#[derive(Clone, Copy, Debug, Drop)]
struct Arrival {
    last: Bit,
    flops: usize,
}

/// That of the only synchronizer from a bit to a clock, if all its flops start at 0.
fn arrival_of(
    net: &Net,
    domains: &Domains,
    sources: &Sources,
    syncs: &[Sync],
    from: Bit,
    clock: u32,
) -> Option<Arrival>
    ensures { (meant : List SyncOf) → syncs.now ≡ map sync_entry meant → AreSources meant sources.now.places →
        IsArrival net.now (syncs_on (design_of net.now domains.now) meant clock from) result }
{
    let sync = sources.only(net, domains, syncs, from, clock)?;
    let flops = sync.flops.as_slice();
    if !start_at_zero(net, flops) {
        return None;
    }
    let last = flops.last()?;
    Some(Arrival {
        last: *last,
        flops: flops.len(),
    })
}

/// The last flops of the synchronizers, one from each bit of a side's code to a clock. None where some bit hasn't exactly
/// one, some have more flops than others, or some flop doesn't start at 0.
pub fn brought(
    alloc: Global,
    net: &Net,
    domains: &Domains,
    sources: &Sources,
    syncs: &[Sync],
    side: &Side,
    clock: u32,
) -> Result<Option<List<Bit>>, NoMemory>
    ensures { IfOk result (λ over. (meant : List SyncOf) → syncs.now ≡ map sync_entry meant → AreSources meant sources.now.places →
        bit_count net.now.graph.signals side.entry.now.reg.gray ≡ side.entry.now.width → IsOver net.now domains.now meant side.entry.now.reg.gray clock over) }
{
    let mut over = List::new(alloc);
    let mut flops = None;
    for at in 0..side.width {
        let from = Bit {
            sig: side.reg.gray,
            at,
        };
        let Some(arrival) = arrival_of(net, domains, sources, syncs, from, clock) else {
            return Ok(None);
        };
        if flops.unwrap_or(arrival.flops) != arrival.flops {
            return Ok(None);
        }
        flops = Some(arrival.flops);
        over.push(arrival.last)?;
    }
    Ok(Some(over))
}

/// Whether each of the bits starts at 0.
fn start_at_zero(net: &Net, bits: &[Bit]) -> bool
    ensures { (result ≡ true) ↔ AllStartAtZero net.now.graph.signals bits.now }
{
    for bit in bits {
        if start_value(net, *bit) != Some(false) {
            return false;
        }
    }
    true
}
