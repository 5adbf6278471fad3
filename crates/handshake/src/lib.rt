//! Rings of request and acknowledgement.
#![tactic(auto)]

ghost use Rattle.std.specs.Prelude.{◌≡◌, ◌++◌, ◌∷◌, [], true, false, not, Bool, Option, Some, is_some, List, length, map, IfOk, ◌≤◌};
ghost use Rattle.cdc_base.specs.declared.bit.Bit.{Bit};
ghost use Rattle.cofactor.specs.Cubes.{fixings};
ghost use Rattle.domains.specs.Fit.{Fit};
ghost use Rattle.domains.specs.Nets.{IsNet};
ghost use Rattle.cdc_model.specs.Listed.{sync_entry, ring_entry};
ghost use Rattle.cdc_model.specs.Nets.{HasNextCells, is_register_bit};
ghost use Rattle.cdc_model.specs.Schemes.{Sync as SyncOf, Ring as RingOf, flops, request, acknowledge};
ghost use Rattle.cdc_model.specs.Syncs.{syncs_of};
ghost use Rattle.cdc_model.specs.Tables.{ShowsNet};
ghost use Rattle.handshake.specs.Pairs.{AreShort, is_known, waits_at, waits, answers_at, answers, turns, ring_at, ring_from};
ghost use Rattle.handshake.specs.Rings.{AreRingsOf};

pub mod candidates;

use crate::candidates::{Pair, is_value, last_flop, pairs};
use cdc_base::{Bit, List, NoMemory};
use cdc_model::view::{known_value, next_node, pair_table, plain_table};
use cdc_model::{Ring, Sync};
use cell_graph::Net;
use cofactor::{Fixed, Table};
use domains::Domains;
use std::alloc::Global;

/// All rings of the net over these synchronizers: by the request, the first flop there, the acknowledgement and the
/// first flop back.
pub fn rings(
    alloc: Global,
    net: &Net,
    domains: &Domains,
    syncs: &[Sync],
) -> Result<List<Ring>, NoMemory>
    ensures exact { IfOk result (λ rings. IsNet net.now → HasNextCells net.now → Fit net.now domains.now → syncs.now ≡ map sync_entry (syncs_of net.now domains.now) →
        AreRingsOf net.now domains.now rings) }
{
    let mut plain = plain_table(alloc, net)?;
    rings_with(alloc, net, domains, syncs, &mut plain)
}

/// `rings` by the net's table without a cube.
pub fn rings_with(
    alloc: Global,
    net: &Net,
    domains: &Domains,
    syncs: &[Sync],
    plain: &mut Table,
) -> Result<List<Ring>, NoMemory>
    ensures exact { IfOk result (λ rings. IsNet net.now → HasNextCells net.now → Fit net.now domains.now → ShowsNet net.now [] plain.old →
        syncs.now ≡ map sync_entry (syncs_of net.now domains.now) → AreRingsOf net.now domains.now rings) }
    ensures unchanged { plain.new ≡ plain.old }
{
    let candidates = pairs(alloc, net, domains, plain, syncs)?;
    let mut rings = List::new(alloc);
    for pair in candidates.as_slice() {
        add_ring(alloc, net, syncs, *pair, &mut rings)?;
    }
    Ok(rings)
}

/// Adds the ring of a pair of synchronizers, if they make one.
fn add_ring(
    alloc: Global,
    net: &Net,
    syncs: &[Sync],
    pair: Pair,
    rings: &mut List<Ring>,
) -> Result<(), NoMemory>
    ensures { IfOk result (λ _. IsNet net.now → HasNextCells net.now → (ss : List SyncOf) → syncs.now ≡ map sync_entry ss → AreShort ss →
        ((r : RingOf) → ring_at ss pair.there pair.back ≡ Some r → (is_register_bit net.now (request r) ≡ true) × (is_register_bit net.now (acknowledge r) ≡ true)) →
        rings.new ≡ rings.old ++ map ring_entry (ring_from net.now ss pair)) }
{
    let Some(there) = syncs.get(pair.there) else {
        return Ok(());
    };
    let Some(back) = syncs.get(pair.back) else {
        return Ok(());
    };
    if turns(alloc, net, there, back)? {
        rings.push(ring_of(alloc, there, back)?)?;
    }
    Ok(())
}

/// Whether the request waits for the acknowledgement, and the acknowledgement answers it.
pub fn turns(alloc: Global, net: &Net, there: &Sync, back: &Sync) -> Result<bool, NoMemory>
    ensures { IfOk result (λ yes. IsNet net.now → HasNextCells net.now → (s b : SyncOf) → there.now ≡ sync_entry s → back.now ≡ sync_entry b →
        is_register_bit net.now s.from ≡ true → is_register_bit net.now b.from ≡ true → yes ≡ turns net.now (record { there = s; back = b })) }
{
    if waits(alloc, net, there, back)? {
        answers(alloc, net, there, back)
    } else {
        Ok(false)
    }
}

/// Whether the request stays as long as the last flop back differs from it.
fn waits(alloc: Global, net: &Net, there: &Sync, back: &Sync) -> Result<bool, NoMemory>
    ensures { IfOk result (λ yes. IsNet net.now → HasNextCells net.now → (s b : SyncOf) → there.now ≡ sync_entry s → back.now ≡ sync_entry b →
        is_register_bit net.now s.from ≡ true → yes ≡ waits net.now (record { there = s; back = b })) }
{
    if waits_at(alloc, net, there, back, false)? {
        waits_at(alloc, net, there, back, true)
    } else {
        Ok(false)
    }
}

/// Whether the request stays at a value as long as the last flop back has the other.
fn waits_at(
    alloc: Global,
    net: &Net,
    there: &Sync,
    back: &Sync,
    value: bool,
) -> Result<bool, NoMemory>
    ensures { IfOk result (λ yes. IsNet net.now → HasNextCells net.now → (s b : SyncOf) → there.now ≡ sync_entry s → back.now ≡ sync_entry b →
        is_register_bit net.now s.from ≡ true → yes ≡ waits_at net.now (record { there = s; back = b }) value) }
{
    let request = fixed(there.from, value);
    let back = fixed(last_flop(back), !value);
    is_known(alloc, net, request, back, request)
}

/// Whether the acknowledgement stays as long as the last flop there equals it.
fn answers(alloc: Global, net: &Net, there: &Sync, back: &Sync) -> Result<bool, NoMemory>
    ensures { IfOk result (λ yes. IsNet net.now → HasNextCells net.now → (s b : SyncOf) → there.now ≡ sync_entry s → back.now ≡ sync_entry b →
        is_register_bit net.now b.from ≡ true → yes ≡ answers net.now (record { there = s; back = b })) }
{
    if answers_at(alloc, net, there, back, false)? {
        answers_at(alloc, net, there, back, true)
    } else {
        Ok(false)
    }
}

/// Whether the acknowledgement stays at a value as long as the last flop there has it too.
fn answers_at(
    alloc: Global,
    net: &Net,
    there: &Sync,
    back: &Sync,
    value: bool,
) -> Result<bool, NoMemory>
    ensures { IfOk result (λ yes. IsNet net.now → HasNextCells net.now → (s b : SyncOf) → there.now ≡ sync_entry s → back.now ≡ sync_entry b →
        is_register_bit net.now b.from ≡ true → yes ≡ answers_at net.now (record { there = s; back = b }) value) }
{
    let there = fixed(last_flop(there), value);
    let acknowledge = fixed(back.from, value);
    is_known(alloc, net, there, acknowledge, acknowledge)
}

/// Whether the next value of `next.bit` is known to be `next.value` while two bits are fixed.
fn is_known(
    alloc: Global,
    net: &Net,
    one: Fixed,
    another: Fixed,
    next: Fixed,
) -> Result<bool, NoMemory>
    ensures { IfOk result (λ yes. IsNet net.now → HasNextCells net.now → is_register_bit net.now next.bit ≡ true →
        yes ≡ is_known net.now (fixings (one ∷ another ∷ [])) next.bit next.value) }
{
    let Some(node) = next_node(net, next.bit) else {
        return Ok(false);
    };
    let table = pair_table(alloc, net, one, another, &[next.bit])?;
    Ok(is_value(known_value(&table, node), next.value))
}

fn fixed(bit: Bit, value: bool) -> Fixed
    ensures { result ≡ record { bit = bit; value = value } }
{
    Fixed { bit, value }
}

/// The ring of two synchronizers.
fn ring_of(alloc: Global, there: &Sync, back: &Sync) -> Result<Ring, NoMemory>
    ensures { IfOk result (λ ring. (s b : SyncOf) → there.now ≡ sync_entry s → back.now ≡ sync_entry b → length (flops s) ≤ 4 →
        ring ≡ ring_entry (record { there = s; back = b })) }
{
    let mut bits = List::new(alloc);
    bits.push(there.from)?;
    add_all(there.flops.as_slice(), &mut bits)?;
    let end = u32::try_from(there.flops.len()).unwrap_or(u32::MAX);
    let ack = end.saturating_add(1);
    bits.push(back.from)?;
    add_all(back.flops.as_slice(), &mut bits)?;
    Ok(Ring { bits, end, ack })
}

fn add_all(flops: &[Bit], bits: &mut List<Bit>) -> Result<(), NoMemory>
    ensures { IfOk result (λ _. bits.new ≡ bits.old ++ flops.now) }
{
    for flop in flops {
        bits.push(*flop)?;
    }
    Ok(())
}
