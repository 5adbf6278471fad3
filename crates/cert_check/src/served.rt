//! The crossings that items of a certificate serve.
ghost use Rattle.std.specs.Prelude.{◌≡◌, ◌↔◌, ◌<◌, ◌+◌, [], ◌∷◌, ◌++◌, true, Contains, IfOk};
ghost use Rattle.std.specs.List.Sorted.{IsSorted};
ghost use Rattle.domains.specs.Fit.{Fit};
ghost use Rattle.domains.specs.Nets.{IsNet};
ghost use Rattle.cdc_model.specs.Found.{crossings_from, crossings_into, crossings_of};
ghost use Rattle.cdc_model.specs.Nets.{HasNextCells, bit_count};
ghost use Rattle.cdc_model.specs.Tables.{ShowsNet};
ghost use Rattle.crossings.specs.Groups.{ShowsGroups};
ghost use Rattle.cert_check.specs.contracts.served.PassageOrd.TheImpl as passage_order;
ghost use Rattle.cert_check.specs.declared.served.Passage.{Passage as PassageOf};
ghost use Rattle.cert_check.specs.Served.{passages_into, sync_passages, load_passages, crossing_passages, passages, HasPassage, IsWalked};

use cdc_base::{Bit, NoMemory};
use cdc_model::view::{are_apart, bits_read, register_bits};
use cdc_model::{Below, Crossing, Load, Sync};
use cell_graph::Net;
use cofactor::Table;
use crossings::{groups_below, may_cross};
use domains::Domains;
use std::alloc::Global;

/// A crossing, by its end and then its source.
#[derive(Clone, Copy, PartialEq, Eq, PartialOrd, Ord, Debug, Drop)]
pub struct Passage {
    pub to: Bit,
    pub from: Bit,
}

/// The crossings of first flops, of loads and of others, ascending.
pub fn served(
    alloc: Global,
    syncs: &[Sync],
    loads: &[Load],
    extra: &[Crossing],
) -> Result<Vec<Passage>, NoMemory>
    ensures listed { IfOk result (λ served. (p : PassageOf) → Contains served.items p ↔ Contains (passages syncs.now loads.now extra.now) p) }
    ensures sorted { IfOk result (λ served. IsSorted passage_order.ghosts.cmp served.items) }
{
    let mut served = Vec::new(alloc);
    add_first_flops(syncs, &mut served)?;
    add_loads(loads, &mut served)?;
    add_crossings(extra, &mut served)?;
    served.sort_unstable();
    Ok(served)
}

fn add_first_flops(syncs: &[Sync], served: &mut Vec<Passage>) -> Result<(), NoMemory>
    ensures { IfOk result (λ _. served.new.items ≡ served.old.items ++ sync_passages syncs.now) }
{
    for sync in syncs {
        add_first_flop(sync, served)?;
    }
    Ok(())
}

fn add_first_flop(sync: &Sync, served: &mut Vec<Passage>) -> Result<(), NoMemory>
    ensures { IfOk result (λ _. served.new.items ≡ served.old.items ++ passages_into sync.now.from sync.now.flops) }
{
    match sync.flops.as_slice() {
        [first, ..] => add(served, sync.from, *first),
        [] => Ok(()),
    }
}

fn add_loads(loads: &[Load], served: &mut Vec<Passage>) -> Result<(), NoMemory>
    ensures { IfOk result (λ _. served.new.items ≡ served.old.items ++ load_passages loads.now) }
{
    for load in loads {
        add(served, load.from, load.to)?;
    }
    Ok(())
}

fn add_crossings(crossings: &[Crossing], served: &mut Vec<Passage>) -> Result<(), NoMemory>
    ensures { IfOk result (λ _. served.new.items ≡ served.old.items ++ crossing_passages crossings.now) }
{
    for crossing in crossings {
        add(served, crossing.from, crossing.to)?;
    }
    Ok(())
}

fn add(served: &mut Vec<Passage>, from: Bit, to: Bit) -> Result<(), NoMemory>
    ensures { IfOk result (λ _. served.new.items ≡ served.old.items ++ record { to = to; from = from } ∷ []) }
{
    served.push(Passage { to, from }).map_err(|_| NoMemory)
}

/// The first crossing of a net that isn't served, or how many there are, which all are.
#[derive(Clone, Copy, Debug, Drop)]
pub enum Walked {
    Bare(Crossing),
    Served(u32),
}

/// Goes over all crossings of the net once, by their ends and then their sources. The table is one without a cube.
pub fn first_bare(
    alloc: Global,
    net: &Net,
    domains: &Domains,
    plain: &mut Table,
    served: &[Passage],
) -> Result<Walked, NoMemory>
    ensures { IfOk result (λ walked. IsNet net.now → HasNextCells net.now → Fit net.now domains.now → ShowsNet net.now [] plain.old →
        IsSorted passage_order.ghosts.cmp served.now →
        IsWalked served.now (crossings_of net.now domains.now) walked) }
{
    let below = groups_below(alloc, net, domains)?;
    let bits = register_bits(alloc, net)?;
    let mut count = 0u32;
    for to in bits.as_slice() {
        let walked = first_bare_into(alloc, net, domains, &below, plain, served, *to)?;
        match walked {
            Walked::Bare(crossing) => return Ok(Walked::Bare(crossing)),
            Walked::Served(more) => count = counted(count, more)?,
        }
    }
    Ok(Walked::Served(count))
}

/// The same for the crossings into one register bit.
fn first_bare_into(
    alloc: Global,
    net: &Net,
    domains: &Domains,
    below: &Below,
    plain: &mut Table,
    served: &[Passage],
    to: Bit,
) -> Result<Walked, NoMemory>
    ensures walked { IfOk result (λ walked. IsNet net.now → HasNextCells net.now → Fit net.now domains.now → ShowsNet net.now [] plain.old →
        ShowsGroups net.now domains.now below.now →
        to.at < bit_count net.now.graph.signals to.sig → IsSorted passage_order.ghosts.cmp served.now →
        IsWalked served.now (crossings_into net.now domains.now to) walked) }
    ensures unchanged { plain.new ≡ plain.old }
{
    if !may_cross(net, domains, below, to) {
        return Ok(Walked::Served(0));
    }
    let reads = bits_read(alloc, net, plain, to)?;
    first_bare_from(domains, reads.as_slice(), to, served)
}

/// The same for the crossings into one register bit, of which `reads` are all that it reads.
fn first_bare_from(
    domains: &Domains,
    reads: &[Bit],
    to: Bit,
    served: &[Passage],
) -> Result<Walked, NoMemory>
    ensures { IfOk result (λ walked. IsSorted passage_order.ghosts.cmp served.now →
        IsWalked served.now (crossings_from domains.now to reads.now) walked) }
{
    let mut count = 0u32;
    for from in reads {
        match walked_from(domains, *from, to, served) {
            Walked::Bare(crossing) => return Ok(Walked::Bare(crossing)),
            Walked::Served(more) => count = counted(count, more)?,
        }
    }
    Ok(Walked::Served(count))
}

/// The same for one bit that the register bit reads.
fn walked_from(domains: &Domains, from: Bit, to: Bit, served: &[Passage]) -> Walked
    ensures { IsSorted passage_order.ghosts.cmp served.now → IsWalked served.now (crossings_from domains.now to (from ∷ [])) result }
{
    if !are_apart(domains, from, to) {
        return Walked::Served(0);
    }
    let crossing = Crossing { from, to };
    if is_served(served, &crossing) {
        Walked::Served(1)
    } else {
        Walked::Bare(crossing)
    }
}

/// So many crossings and more. No memory holds so many as would be too many.
fn counted(count: u32, more: u32) -> Result<u32, NoMemory>
    ensures { IfOk result (λ sum. sum ≡ count + more) }
{
    count.checked_add(more).ok_or(NoMemory)
}

fn is_served(served: &[Passage], crossing: &Crossing) -> bool
    ensures { IsSorted passage_order.ghosts.cmp served.now → (result ≡ true) ↔ HasPassage served.now crossing.now }
{
    let passage = Passage {
        to: crossing.to,
        from: crossing.from,
    };
    served.binary_search(&passage).is_ok()
}
