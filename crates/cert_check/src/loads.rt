//! Whether listed loads are loads under the listed rings.
ghost use Rattle.std.specs.Prelude.{◌≡◌, ◌↔◌, Bool, true, Some, not, [], List, Contains, map, IfOk};
ghost use Rattle.cdc_base.specs.declared.bit.Bit.{Bit};
ghost use Rattle.cell_graph.specs.Cofactor.{reads};
ghost use Rattle.domains.specs.Fit.{Fit};
ghost use Rattle.domains.specs.Nets.{IsNet};
ghost use Rattle.cdc_model.specs.declared.scheme.GrayReg.{GrayReg};
ghost use Rattle.cdc_model.specs.Listed.{ring_entry};
ghost use Rattle.cdc_model.specs.Nets.{HasNextCells, design_of, is_register_bit, net_trees, next_tree};
ghost use Rattle.cdc_model.specs.Schemes.{Sync as SyncOf, Ring as RingOf, IsRing};
ghost use Rattle.cdc_model.specs.Tables.{ShowsNet, ShowsNext};
ghost use Rattle.mux_recirc.specs.Blind.{reads_shut};
ghost use Rattle.mux_recirc.specs.Held.{keeps_between};
ghost use Rattle.mux_recirc.specs.Shown.{differing, equal, keeps};
ghost use Rattle.cert_check.specs.Certified.{IsLoadItem};
ghost use Rattle.cert_check.specs.Items.{IsFirstFailing};
ghost use Rattle.cert_check.specs.Loads.{IsGateAt, ends_of, is_between, is_guarded};

use crate::rings::reads_bit;
use crate::syncs::is_register;
use cdc_base::{Bit, NoMemory};
use cdc_model::view::{are_apart, are_together, pair_table};
use cdc_model::{Load, Ring};
use cell_graph::Net;
use cofactor::{Fixed, Table};
use domains::Domains;
use mux_recirc::shown::{bits_read_under, keeps_value};
use std::alloc::Global;
use two_flop::is_copy;

/// The bits of a ring that a load is held by: the request, the acknowledgement and the last flop back.
#[derive(Clone, Copy, Debug, Drop)]
struct Ends {
    request: Bit,
    acknowledge: Bit,
    last: Bit,
}

/// Two adjacent bits of a ring.
#[derive(Clone, Copy, Debug, Drop)]
struct Gate {
    one: Bit,
    next: Bit,
}

/// The place of the first listed load that is none under the listed rings, which are rings. The table is one without a
/// cube.
pub fn first_bad_load(
    alloc: Global,
    net: &Net,
    domains: &Domains,
    plain: &mut Table,
    rings: &[Ring],
    loads: &[Load],
) -> Result<Option<usize>, NoMemory>
    ensures exact { IfOk result (λ place. IsNet net.now → HasNextCells net.now → Fit net.now domains.now → ShowsNet net.now [] plain.old → (grays : GrayReg → Bool) (ss : List SyncOf) (rs : List RingOf) →
        rings.now ≡ map ring_entry rs → ((r : RingOf) → Contains rs r → IsRing (design_of net.now domains.now) (net_trees net.now grays) ss r) →
        IsFirstFailing (IsLoadItem (design_of net.now domains.now) (net_trees net.now grays) rings.now) loads.now place) }
    ensures unchanged { plain.new ≡ plain.old }
{
    for place in 0..loads.len() {
        if !is_load_item(alloc, net, domains, plain, rings, loads[place])? {
            return Ok(Some(place));
        }
    }
    Ok(None)
}

/// Whether the line is that of a load under the listed rings.
fn is_load_item(
    alloc: Global,
    net: &Net,
    domains: &Domains,
    plain: &mut Table,
    rings: &[Ring],
    load: Load,
) -> Result<bool, NoMemory>
    ensures exact { IfOk result (λ yes. IsNet net.now → HasNextCells net.now → Fit net.now domains.now → ShowsNet net.now [] plain.old → (grays : GrayReg → Bool) (ss : List SyncOf) (rs : List RingOf) →
        rings.now ≡ map ring_entry rs → ((r : RingOf) → Contains rs r → IsRing (design_of net.now domains.now) (net_trees net.now grays) ss r) →
        (yes ≡ true) ↔ IsLoadItem (design_of net.now domains.now) (net_trees net.now grays) rings.now load) }
    ensures unchanged { plain.new ≡ plain.old }
{
    let Some(ring) = rings.get(load.ring as usize) else {
        return Ok(false);
    };
    let Some(ends) = ends_of(ring) else {
        return Ok(false);
    };
    if !is_between(net, domains, ends, load) {
        return Ok(false);
    }
    let Some(gate) = gate_of(ring, load.gate) else {
        return Ok(false);
    };
    is_guarded(alloc, net, plain, ends, gate, load)
}

/// The ends of a ring.
fn ends_of(ring: &Ring) -> Option<Ends>
    ensures { (r : RingOf) → ring.now ≡ ring_entry r → result ≡ Some (ends_of r) }
{
    let bits = ring.bits.as_slice();
    match (bits.first(), bits.get(ring.ack as usize), bits.last()) {
        (Some(request), Some(acknowledge), Some(last)) => Some(Ends {
            request: *request,
            acknowledge: *acknowledge,
            last: *last,
        }),
        _ => None,
    }
}

/// The gate at a place of a ring: from the second flop on, and in front of the acknowledgement.
fn gate_of(ring: &Ring, place: u32) -> Option<Gate>
    ensures { IsGateAt ring.now place result }
{
    if place < 2 {
        return None;
    }
    if place >= ring.ack {
        return None;
    }
    let bits = ring.bits.as_slice();
    let Some(one) = bits.get(place as usize) else {
        return None;
    };
    let Some(next) = bits.get((place as usize).saturating_add(1)) else {
        return None;
    };
    Some(Gate {
        one: *one,
        next: *next,
    })
}

/// Whether the load leads from a register bit of the requesting group to one of the acknowledging group, which is
/// another.
fn is_between(net: &Net, domains: &Domains, ends: Ends, load: Load) -> bool
    ensures { IsNet net.now → result ≡ is_between net.now domains.now ends load }
{
    is_register(net, load.from)
        && is_register(net, load.to)
        && are_apart(domains, load.from, load.to)
        && are_together(domains, load.from, ends.request)
        && are_together(domains, load.to, ends.acknowledge)
}

/// Whether a load between register bits reads its source, but is no plain copy of it, the source is held, and the load is
/// blind at the gate.
fn is_guarded(
    alloc: Global,
    net: &Net,
    plain: &mut Table,
    ends: Ends,
    gate: Gate,
    load: Load,
) -> Result<bool, NoMemory>
    ensures exact { IfOk result (λ yes. IsNet net.now → HasNextCells net.now → ShowsNet net.now [] plain.old → is_register_bit net.now load.from ≡ true → is_register_bit net.now load.to ≡ true →
        yes ≡ is_guarded net.now ends gate load) }
    ensures unchanged { plain.new ≡ plain.old }
{
    if is_copy(net, plain, load.to, load.from) {
        return Ok(false);
    }
    if !reads_bit(alloc, net, plain, load.to, load.from)? {
        return Ok(false);
    }
    if !is_held(alloc, net, ends, load.from)? {
        return Ok(false);
    }
    is_blind(alloc, net, gate, load)
}

/// Whether the bit keeps its value while the request and the ring's last flop differ.
fn is_held(alloc: Global, net: &Net, ends: Ends, bit: Bit) -> Result<bool, NoMemory>
    ensures { IfOk result (λ yes. IsNet net.now → HasNextCells net.now → is_register_bit net.now bit ≡ true → yes ≡ keeps_between net.now ends.request ends.last bit) }
{
    if keeps(alloc, net, ends, true, bit)? {
        keeps(alloc, net, ends, false, bit)
    } else {
        Ok(false)
    }
}

/// Whether the bit keeps its value while the request has a value and the last flop the other.
fn keeps(alloc: Global, net: &Net, ends: Ends, value: bool, bit: Bit) -> Result<bool, NoMemory>
    ensures { IfOk result (λ yes. IsNet net.now → HasNextCells net.now → is_register_bit net.now bit ≡ true → yes ≡ keeps net.now (differing ends.request ends.last value) bit) }
{
    let table = differing(alloc, net, ends, value, &[bit])?;
    Ok(keeps_value(net, &table, bit))
}

/// The table in which the request has a value and the last flop the other.
fn differing(
    alloc: Global,
    net: &Net,
    ends: Ends,
    value: bool,
    bits: &[Bit],
) -> Result<Table, NoMemory>
    ensures { IfOk result (λ table. IsNet net.now → HasNextCells net.now → ShowsNext net.now (differing ends.request ends.last value) table bits.now) }
{
    let request = Fixed {
        bit: ends.request,
        value,
    };
    let last = Fixed {
        bit: ends.last,
        value: !value,
    };
    pair_table(alloc, net, request, last, bits)
}

/// Whether the load's end doesn't read its source while the gate's bits are equal.
fn is_blind(alloc: Global, net: &Net, gate: Gate, load: Load) -> Result<bool, NoMemory>
    ensures { IfOk result (λ yes. IsNet net.now → HasNextCells net.now → is_register_bit net.now load.to ≡ true → yes ≡ not (reads_shut net.now gate.one gate.next load.to load.from)) }
{
    if reads_at(alloc, net, gate, false, load)? {
        Ok(false)
    } else {
        Ok(!reads_at(alloc, net, gate, true, load)?)
    }
}

/// Whether the load's end reads its source while both bits of the gate have a value.
fn reads_at(alloc: Global, net: &Net, gate: Gate, value: bool, load: Load) -> Result<bool, NoMemory>
    ensures { IfOk result (λ yes. IsNet net.now → HasNextCells net.now → is_register_bit net.now load.to ≡ true →
        yes ≡ reads (equal gate.one gate.next value) (next_tree net.now load.to.sig) load.to.at load.from) }
{
    let mut table = equal(alloc, net, gate, value, &[load.to])?;
    let reads = bits_read_under(alloc, net, &mut table, load.to)?;
    Ok(reads.as_slice().contains(&load.from))
}

/// The table in which both bits of the gate have a value.
fn equal(alloc: Global, net: &Net, gate: Gate, value: bool, bits: &[Bit]) -> Result<Table, NoMemory>
    ensures { IfOk result (λ table. IsNet net.now → HasNextCells net.now → ShowsNext net.now (equal gate.one gate.next value) table bits.now) }
{
    let one = Fixed {
        bit: gate.one,
        value,
    };
    let next = Fixed {
        bit: gate.next,
        value,
    };
    pair_table(alloc, net, one, next, bits)
}
