//! Whether listed rings are rings over the listed synchronizers.
ghost use Rattle.std.specs.Prelude.{◌≡◌, ◌↔◌, Bool, true, [], List, map, Contains, IfOk, MatchOption, option_and_then, slice_get};
ghost use Rattle.std.specs.HashMap as hash;
ghost use Rattle.cdc_base.specs.declared.bit.Bit.{Bit};
ghost use Rattle.cdc_base.specs.contracts.bit.BitPartialEq.TheImpl as equality;
ghost use Rattle.cell_graph.specs.Cofactor.{reads};
ghost use Rattle.domains.specs.Fit.{Fit};
ghost use Rattle.domains.specs.Nets.{IsNet};
ghost use Rattle.cdc_model.specs.declared.scheme.GrayReg.{GrayReg};
ghost use Rattle.cdc_model.specs.declared.scheme.Sync.{Sync as SyncEntry};
ghost use Rattle.cdc_model.specs.Listed.{sync_entry};
ghost use Rattle.cdc_model.specs.Nets.{HasNextCells, design_of, is_register_bit, net_trees, next_tree};
ghost use Rattle.cdc_model.specs.Schemes.{Sync as SyncOf, AreSyncs, IsRing};
ghost use Rattle.cdc_model.specs.Tables.{ShowsNet};
ghost use Rattle.cert_check.specs.Certified.{IsRingItem};
ghost use Rattle.cert_check.specs.Items.{IsFirstFailing};
ghost use Rattle.cert_check.specs.Rings.{AreParts, HaveOwnFirsts, IsFirstOf, place_after};

use cdc_base::{Bit, NoMemory};
use cdc_model::view::bits_read;
use cdc_model::{Ring, Sync};
use cell_graph::Net;
use cofactor::Table;
use domains::Domains;
use handshake::candidates::{last_flop, may_turn};
use handshake::turns;
use std::alloc::Global;
use std::collections::HashMap;

/// The bits of a ring by their parts: the request, the flops there, the acknowledgement and the flops back.
#[derive(Clone, Copy, Drop)]
struct Parts<'a> {
    request: Bit,
    there: &'a [Bit],
    acknowledge: Bit,
    back: &'a [Bit],
}

/// The places of listed synchronizers by their first flops.
type Firsts = HashMap<Bit, usize>;

/// The place of the first listed ring that is none over the listed synchronizers, which are synchronizers. The table is
/// one without a cube.
pub fn first_bad_ring(
    alloc: Global,
    net: &Net,
    domains: &Domains,
    plain: &mut Table,
    syncs: &[Sync],
    rings: &[Ring],
) -> Result<Option<usize>, NoMemory>
    ensures exact { IfOk result (λ place. IsNet net.now → HasNextCells net.now → Fit net.now domains.now → ShowsNet net.now [] plain.old → (grays : GrayReg → Bool) (ss : List SyncOf) →
        syncs.now ≡ map sync_entry ss → AreSyncs (design_of net.now domains.now) (net_trees net.now grays) ss →
        IsFirstFailing (IsRingItem (design_of net.now domains.now) (net_trees net.now grays) syncs.now) rings.now place) }
    ensures unchanged { plain.new ≡ plain.old }
{
    let firsts = firsts_of(alloc, syncs)?;
    for place in 0..rings.len() {
        if !is_ring_item(alloc, net, domains, plain, syncs, &firsts, &rings[place])? {
            return Ok(Some(place));
        }
    }
    Ok(None)
}

/// The places of the synchronizers by their first flops.
fn firsts_of(alloc: Global, syncs: &[Sync]) -> Result<HashMap<Bit, usize>, NoMemory>
    ensures { IfOk result (λ firsts. (b : Bit) → IsFirstOf syncs.now b (hash.get equality.ghosts.eq firsts b)) }
{
    let mut firsts = HashMap::new(alloc);
    for place in 0..syncs.len() {
        add_first(&syncs[place], place, &mut firsts)?;
    }
    Ok(firsts)
}

/// Adds the place of a synchronizer by its first flop.
fn add_first(sync: &Sync, place: usize, firsts: &mut HashMap<Bit, usize>) -> Result<(), NoMemory>
    ensures { IfOk result (λ _. (b : Bit) → hash.get equality.ghosts.eq firsts.new b ≡ place_after (slice_get sync.now.flops 0) place b (hash.get equality.ghosts.eq firsts.old b)) }
{
    let Some(first) = sync.flops.as_slice().first() else {
        return Ok(());
    };
    match firsts.insert(*first, place) {
        Ok(_) => Ok(()),
        Err(_) => Err(NoMemory),
    }
}

/// The parts of a ring, whose acknowledgement stands right behind its end; None where a part is missing.
fn parts_of(ring: &Ring) -> Option<Parts<'_>>
    ensures { AreParts ring.now result }
{
    let bits = ring.bits.as_slice();
    let end = ring.end as usize;
    let ack = ring.ack as usize;
    if end == 0 || ack != end.saturating_add(1) || ack.saturating_add(1) >= bits.len() {
        return None;
    }
    Some(Parts {
        request: bits[0],
        there: &bits[1..ack],
        acknowledge: bits[ack],
        back: &bits[ack + 1..],
    })
}

/// Whether the line is that of a ring over the listed synchronizers.
fn is_ring_item(
    alloc: Global,
    net: &Net,
    domains: &Domains,
    plain: &mut Table,
    syncs: &[Sync],
    firsts: &Firsts,
    ring: &Ring,
) -> Result<bool, NoMemory>
    ensures exact { IfOk result (λ yes. IsNet net.now → HasNextCells net.now → Fit net.now domains.now → ShowsNet net.now [] plain.old → (grays : GrayReg → Bool) (ss : List SyncOf) →
        syncs.now ≡ map sync_entry ss → AreSyncs (design_of net.now domains.now) (net_trees net.now grays) ss → ((b : Bit) → IsFirstOf syncs.now b (hash.get equality.ghosts.eq firsts.now b)) →
        (yes ≡ true) ↔ IsRingItem (design_of net.now domains.now) (net_trees net.now grays) syncs.now ring.now) }
    ensures unchanged { plain.new ≡ plain.old }
{
    let Some(parts) = parts_of(ring) else {
        return Ok(false);
    };
    let Some(there) = listed(syncs, firsts, parts.request, parts.there) else {
        return Ok(false);
    };
    let Some(back) = listed(syncs, firsts, parts.acknowledge, parts.back) else {
        return Ok(false);
    };
    is_ring(alloc, net, domains, plain, there, back)
}

/// The listed synchronizer from the source with these flops.
fn listed<'a>(syncs: &'a [Sync], firsts: &Firsts, from: Bit, flops: &[Bit]) -> Option<&'a Sync>
    ensures { MatchOption result
        (HaveOwnFirsts syncs.now → ((b : Bit) → IsFirstOf syncs.now b (hash.get equality.ghosts.eq firsts.now b)) →
        (e : SyncEntry) → Contains syncs.now e → e.from ≡ from → e.flops ≡ flops.now → ⊥)
        (λ sync. Contains syncs.now sync.now × (sync.now.from ≡ from) × (sync.now.flops ≡ flops.now)) }
{
    let Some(place) = first_place(firsts, flops) else {
        return None;
    };
    let Some(sync) = syncs.get(place) else {
        return None;
    };
    if is_with(sync, from, flops) {
        Some(sync)
    } else {
        None
    }
}

/// The place of a synchronizer with the first of these flops.
fn first_place(firsts: &Firsts, flops: &[Bit]) -> Option<usize>
    ensures { result ≡ option_and_then (hash.get equality.ghosts.eq firsts.now) (slice_get flops.now 0) }
{
    match flops.first() {
        Some(first) => firsts.get(first).copied(),
        None => None,
    }
}

/// Whether the synchronizer is from the source and has these flops.
fn is_with(sync: &Sync, from: Bit, flops: &[Bit]) -> bool
    ensures { (result ≡ true) ↔ ((sync.now.from ≡ from) × (sync.now.flops ≡ flops.now)) }
{
    sync.from == from && sync.flops.as_slice() == flops
}

/// Whether two listed synchronizers make a ring.
fn is_ring(
    alloc: Global,
    net: &Net,
    domains: &Domains,
    plain: &mut Table,
    there: &Sync,
    back: &Sync,
) -> Result<bool, NoMemory>
    ensures exact { IfOk result (λ yes. IsNet net.now → HasNextCells net.now → Fit net.now domains.now → ShowsNet net.now [] plain.old → (grays : GrayReg → Bool) (ss : List SyncOf) →
        AreSyncs (design_of net.now domains.now) (net_trees net.now grays) ss → (s b : SyncOf) → there.now ≡ sync_entry s → back.now ≡ sync_entry b → Contains ss s → Contains ss b →
        (yes ≡ true) ↔ IsRing (design_of net.now domains.now) (net_trees net.now grays) ss (record { there = s; back = b })) }
    ensures unchanged { plain.new ≡ plain.old }
{
    if !may_turn(net, domains, there, back) {
        return Ok(false);
    }
    if !reads_bit(alloc, net, plain, there.from, last_flop(back))? {
        return Ok(false);
    }
    turns(alloc, net, there, back)
}

/// Whether a register bit reads another bit. The table is one without a cube.
pub fn reads_bit(
    alloc: Global,
    net: &Net,
    plain: &mut Table,
    bit: Bit,
    read: Bit,
) -> Result<bool, NoMemory>
    ensures exact { IfOk result (λ yes. IsNet net.now → HasNextCells net.now → ShowsNet net.now [] plain.old → is_register_bit net.now bit ≡ true →
        yes ≡ reads [] (next_tree net.now bit.sig) bit.at read) }
    ensures unchanged { plain.new ≡ plain.old }
{
    let reads = bits_read(alloc, net, plain, bit)?;
    Ok(reads.as_slice().contains(&read))
}
