//! Pairs of synchronizers that may make a ring.
ghost use Rattle.std.specs.Prelude.{◌≡◌, ◌⊎◌, ◌↔◌, ℕ, Option, Some, is_some, List, [], map, Contains, IfOk};
ghost use Rattle.std.specs.HashMap as hash;
ghost use Rattle.cdc_base.specs.declared.bit.Bit.{Bit};
ghost use Rattle.cdc_base.specs.contracts.bit.BitPartialEq.TheImpl as equality;
ghost use Rattle.domains.specs.Nets.{IsNet};
ghost use Rattle.cdc_model.specs.Listed.{sync_entry};
ghost use Rattle.cdc_model.specs.Nets.{HasNextCells, next_cell};
ghost use Rattle.cdc_model.specs.Ordered.{IsAscending};
ghost use Rattle.cdc_model.specs.Schemes.{Sync as SyncOf, last_flop};
ghost use Rattle.cdc_model.specs.Tables.{ShowsNet};
ghost use Rattle.handshake.specs.declared.candidates.Pair.{Pair as PairOf};
ghost use Rattle.handshake.specs.Pairs.{IsPlaceOf, HaveOwnEnds, AreSourcesWithin, IsPairAt, IsPairFrom, pair_of, may_turn, are_closed, are_registers, are_apart, are_crossed, start_alike, all_start, starts_at, is_value, pair_key};

use cdc_base::{Bit, NoMemory};
use cdc_model::Sync;
use cdc_model::view::{are_together, bits_read, next_node, start_value};
use cell_graph::Net;
use cofactor::Table;
use domains::Domains;
use std::alloc::Global;
use std::collections::HashMap;

/// A synchronizer and one back, whose last flop the source of the first reads. `there` and `back` are their places in
/// the list, which is in the order of first flops.
#[derive(Clone, Copy, PartialEq, Eq, PartialOrd, Ord, Debug, Drop)]
pub struct Pair {
    pub request: Bit,
    pub there: usize,
    pub acknowledge: Bit,
    pub back: usize,
}

/// All pairs that meet each condition of a ring but those on known next values, in order. The table is one without a
/// cube.
pub fn pairs(
    alloc: Global,
    net: &Net,
    domains: &Domains,
    table: &mut Table,
    syncs: &[Sync],
) -> Result<Vec<Pair>, NoMemory>
    ensures exact { IfOk result (λ pairs. IsNet net.now → HasNextCells net.now → ShowsNet net.now [] table.old → (ss : List SyncOf) → syncs.now ≡ map sync_entry ss →
        HaveOwnEnds ss → AreSourcesWithin net.now ss → (p : PairOf) → Contains pairs.items p ↔ IsPairFrom net.now domains.now ss p.there p) }
    ensures ordered { IfOk result (λ pairs. IsAscending pair_key pairs.items) }
    ensures unchanged { table.new ≡ table.old }
{
    let ends = ends(alloc, syncs)?;
    let mut found = Vec::new(alloc);
    for there in 0..syncs.len() {
        add_pairs(alloc, net, domains, table, syncs, &ends, there, &mut found)?;
    }
    Ok(into_order(found))
}

/// The pairs in their order, each once.
fn into_order(pairs: Vec<Pair>) -> Vec<Pair>
    ensures same { (p : PairOf) → Contains result.items p ↔ Contains pairs.items p }
    ensures ordered { IsAscending pair_key result.items }
{
    let mut pairs = pairs;
    pairs.sort_unstable();
    pairs.dedup();
    pairs
}

/// The places of the synchronizers by their last flops. No two have the same one.
fn ends(alloc: Global, syncs: &[Sync]) -> Result<HashMap<Bit, usize>, NoMemory>
    ensures { IfOk result (λ ends. (ss : List SyncOf) → syncs.now ≡ map sync_entry ss → (b : Bit) → IsPlaceOf ss b (hash.get equality.ghosts.eq ends b)) }
{
    let mut ends = HashMap::new(alloc);
    for place in 0..syncs.len() {
        let last = last_flop(&syncs[place]);
        ends.insert(last, place).map_err(|_| NoMemory)?;
    }
    Ok(ends)
}

/// The last flop of a synchronizer.
pub fn last_flop(sync: &Sync) -> Bit
    ensures { (s : SyncOf) → sync.now ≡ sync_entry s → result ≡ last_flop s }
{
    match sync.flops.as_slice().last() {
        Some(last) => *last,
        None => sync.from,
    }
}

/// Adds the pairs with this synchronizer on the way there.
fn add_pairs(
    alloc: Global,
    net: &Net,
    domains: &Domains,
    table: &mut Table,
    syncs: &[Sync],
    ends: &HashMap<Bit, usize>,
    there: usize,
    found: &mut Vec<Pair>,
) -> Result<(), NoMemory>
    ensures added { IfOk result (λ _. IsNet net.now → HasNextCells net.now → ShowsNet net.now [] table.old → (ss : List SyncOf) → syncs.now ≡ map sync_entry ss →
        HaveOwnEnds ss → AreSourcesWithin net.now ss → ((b : Bit) → IsPlaceOf ss b (hash.get equality.ghosts.eq ends.now b)) →
        (p : PairOf) → Contains found.new.items p ↔ (Contains found.old.items p ⊎ IsPairFrom net.now domains.now ss there p)) }
    ensures unchanged { table.new ≡ table.old }
{
    let Some(sync) = syncs.get(there) else {
        return Ok(());
    };
    let reads = bits_read(alloc, net, table, sync.from)?;
    for bit in reads.as_slice() {
        add_pair(net, domains, syncs, ends, there, *bit, found)?;
    }
    Ok(())
}

/// Adds the pair of a synchronizer there and the one back that ends with the bit, if they make one.
fn add_pair(
    net: &Net,
    domains: &Domains,
    syncs: &[Sync],
    ends: &HashMap<Bit, usize>,
    there: usize,
    last_back: Bit,
    found: &mut Vec<Pair>,
) -> Result<(), NoMemory>
    ensures { IfOk result (λ _. IsNet net.now → (ss : List SyncOf) → syncs.now ≡ map sync_entry ss → HaveOwnEnds ss →
        ((b : Bit) → IsPlaceOf ss b (hash.get equality.ghosts.eq ends.now b)) →
        (p : PairOf) → Contains found.new.items p ↔ (Contains found.old.items p ⊎ IsPairAt net.now domains.now ss there last_back p)) }
{
    let Some(back) = ends.get(&last_back).copied() else {
        return Ok(());
    };
    if let Some(pair) = pair_of(net, domains, syncs, there, back) {
        found.push(pair).map_err(|_| NoMemory)?;
    }
    Ok(())
}

/// The pair of two synchronizers, where they may make a ring.
fn pair_of(net: &Net, domains: &Domains, syncs: &[Sync], there: usize, back: usize) -> Option<Pair>
    ensures { IsNet net.now → (ss : List SyncOf) → syncs.now ≡ map sync_entry ss → result ≡ pair_of net.now domains.now ss there back }
{
    let to = syncs.get(there)?;
    let fro = syncs.get(back)?;
    if !may_turn(net, domains, to, fro) {
        return None;
    }
    Some(Pair {
        request: to.from,
        there,
        acknowledge: fro.from,
        back,
    })
}

/// Whether two synchronizers meet each condition of a ring but those on next values.
pub fn may_turn(net: &Net, domains: &Domains, there: &Sync, back: &Sync) -> bool
    ensures { IsNet net.now → (s b : SyncOf) → there.now ≡ sync_entry s → back.now ≡ sync_entry b →
        result ≡ may_turn net.now domains.now (record { there = s; back = b }) }
{
    are_closed(net, domains, there, back) && start_alike(net, there, back)
}

/// Whether both sources are register bits, the acknowledgement is a bit of its own, and each is in the group that the
/// other's synchronizer enters.
fn are_closed(net: &Net, domains: &Domains, there: &Sync, back: &Sync) -> bool
    ensures { IsNet net.now → (s b : SyncOf) → there.now ≡ sync_entry s → back.now ≡ sync_entry b →
        result ≡ are_closed net.now domains.now (record { there = s; back = b }) }
{
    are_registers(net, there, back) && are_apart(there, back) && are_crossed(domains, there, back)
}

fn are_registers(net: &Net, there: &Sync, back: &Sync) -> bool
    ensures { IsNet net.now → (s b : SyncOf) → there.now ≡ sync_entry s → back.now ≡ sync_entry b →
        result ≡ are_registers net.now (record { there = s; back = b }) }
{
    is_register(net, there.from) && is_register(net, back.from)
}

fn is_register(net: &Net, bit: Bit) -> bool
    ensures { IsNet net.now → result ≡ is_some (next_cell net.now.regs bit.sig) }
{
    next_node(net, bit).is_some()
}

/// Whether the acknowledgement is not the last flop there.
fn are_apart(there: &Sync, back: &Sync) -> bool
    ensures { (s b : SyncOf) → there.now ≡ sync_entry s → back.now ≡ sync_entry b → result ≡ are_apart (record { there = s; back = b }) }
{
    back.from != last_flop(there)
}

/// Whether each source is in the group that the other's synchronizer enters.
fn are_crossed(domains: &Domains, there: &Sync, back: &Sync) -> bool
    ensures { (s b : SyncOf) → there.now ≡ sync_entry s → back.now ≡ sync_entry b → result ≡ are_crossed domains.now (record { there = s; back = b }) }
{
    are_together(domains, back.from, last_flop(there))
        && are_together(domains, last_flop(back), there.from)
}

/// Whether all bits of the ring have one known start value.
fn start_alike(net: &Net, there: &Sync, back: &Sync) -> bool
    ensures { (s b : SyncOf) → there.now ≡ sync_entry s → back.now ≡ sync_entry b → result ≡ start_alike net.now (record { there = s; back = b }) }
{
    let Some(value) = start_value(net, there.from) else {
        return false;
    };
    starts_at(net, back.from, value)
        && all_start(net, there.flops.as_slice(), value)
        && all_start(net, back.flops.as_slice(), value)
}

fn all_start(net: &Net, bits: &[Bit], value: bool) -> bool
    ensures { result ≡ all_start net.now bits.now value }
{
    for bit in bits {
        if !starts_at(net, *bit, value) {
            return false;
        }
    }
    true
}

/// Whether a bit is known to start with the value.
fn starts_at(net: &Net, bit: Bit, value: bool) -> bool
    ensures { result ≡ starts_at net.now bit value }
{
    is_value(start_value(net, bit), value)
}

/// Whether a value is known and is this one.
pub fn is_value(known: Option<bool>, value: bool) -> bool
    ensures { result ≡ is_value known value }
{
    match known {
        Some(known) => known == value,
        None => false,
    }
}
