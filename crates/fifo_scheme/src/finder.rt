//! The search for FIFOs.
ghost use Rattle.std.specs.Prelude.{◌≡◌, ◌↔◌, ◌≤◌, ◌^◌, ◌==◌, ℕ, true, [], List, length, Contains, IfOk};
ghost use Rattle.std.specs.BTreeMap.{IsOrdered};
ghost use Rattle.std.specs.HashSet as set;
ghost use Rattle.cdc_model.specs.declared.scheme.Crossing.{Crossing as CrossingOf};
ghost use Rattle.cdc_model.specs.declared.scheme.GrayReg.{GrayReg as GrayRegOf};
ghost use Rattle.cdc_model.specs.Nets.{design_of, next_tree};
ghost use Rattle.cdc_model.specs.Ordered.{IsAll};
ghost use Rattle.cdc_model.specs.Schemes.{Ring as RingOf, Sync as SyncOf, Trees};
ghost use Rattle.cdc_model.specs.Tables.{ShowsNet};
ghost use Rattle.fifo_laws.specs.Laws.{AreLists};
ghost use Rattle.fifo_scheme.specs.contracts.finder.KeyOrd.TheImpl as order;
ghost use Rattle.fifo_scheme.specs.contracts.found.FifoPairPartialEq.TheImpl as equality;
ghost use Rattle.fifo_scheme.specs.declared.found.Fifo.{Fifo as Entry};
ghost use Rattle.fifo_scheme.specs.declared.found.FifoPair.{FifoPair as PairOf};
ghost use Rattle.fifo_scheme.specs.Candidates.{AreAt, AreBy, AreKept, AreLookedUp, AreMade, Grows, IsAt, IsFirst, IsJudgedAt, IsReadTo, IsThere, IsWordTo, OfOne, WordSays, is_code_word, is_left, is_returned, way_of, ways_of};
ghost use Rattle.fifo_scheme.specs.Entries.{IsCrossingOfOne, IsListedFifo, fifo_key};
ghost use Rattle.fifo_scheme.specs.Found.{HasOrder, IsFoundFor};
ghost use Rattle.fifo_scheme.specs.Given.{AreGiven};
ghost use Rattle.fifo_scheme.specs.Indexed.{IsIndex};
ghost use Rattle.fifo_scheme.specs.Pairs.{DoesFit, fifos_in, GuardsThose, IsAnswer, IsStoodFor};
ghost use Rattle.fifo_parts.specs.Tellers.{IsShown};

use crate::found::{Fifo, FifoPair, Fifos, FifosOf};
use crate::index::Index;
use crate::judge::fifo_of;
use cdc_base::{Bit, List, NoMemory};
use cdc_model::view::plain_table;
use cdc_model::{GrayReg, Sync};
use cell_graph::Net;
use cofactor::Table;
use domains::Domains;
use fifo_parts::pair::Shown;
use fifo_parts::reads::Read;
use fifo_parts::words::counts_said;
use std::alloc::Global;
use std::collections::{BTreeMap, HashSet};

/// All FIFOs of the net over these synchronizers and Gray registers, each once, by the counter and the Gray register of
/// the side that writes, then those of the side that reads.
pub fn fifos<'a>(
    alloc: Global,
    net: &'a Net,
    domains: &'a Domains,
    syncs: &'a [Sync],
    grays: &'a [GrayReg],
) -> Result<Fifos<'a>, NoMemory>
    ensures sound { IfOk result (λ found. (meant : List SyncOf) → AreGiven net.now domains.now syncs.now meant →
        (e : Entry) → Contains found.fifos e → IsListedFifo net.now domains.now meant grays.now e) }
    ensures exact { IfOk result (λ found. (meant : List SyncOf) (t : Trees) → AreGiven net.now domains.now syncs.now meant →
        AreLists (design_of net.now domains.now) (next_tree net.now) t meant grays.now →
        IsAll (IsListedFifo net.now domains.now meant grays.now) fifo_key found.fifos) }
    ensures fits { IfOk result (λ found. (meant : List SyncOf) (t : Trees) → AreGiven net.now domains.now syncs.now meant →
        AreLists (design_of net.now domains.now) (next_tree net.now) t meant grays.now →
        IsFoundFor found (design_of net.now domains.now) t meant grays.now) }
    ensures order { IfOk result (λ found. (meant : List SyncOf) (t : Trees) → AreGiven net.now domains.now syncs.now meant →
        AreLists (design_of net.now domains.now) (next_tree net.now) t meant grays.now → (rings : List RingOf) →
        (e : Entry) → Contains found.fifos e → HasOrder net.now domains.now meant grays.now rings e) }
    ensures guards { IfOk result (λ found. (c : CrossingOf) → Contains found.crossings c ↔ IsCrossingOfOne found.fifos c) }
{
    let mut table = plain_table(alloc, net)?;
    let found = fifos_with(alloc, net, domains, &mut table, syncs, grays)?;
    Ok(found)
}

/// `fifos` by the net's table without a cube.
pub fn fifos_with<'a>(
    alloc: Global,
    net: &'a Net,
    domains: &'a Domains,
    table: &mut Table,
    syncs: &'a [Sync],
    grays: &'a [GrayReg],
) -> Result<Fifos<'a>, NoMemory>
    ensures sound { IfOk result (λ found. (meant : List SyncOf) → AreGiven net.now domains.now syncs.now meant → ShowsNet net.now [] table.old →
        (e : Entry) → Contains found.fifos e → IsListedFifo net.now domains.now meant grays.now e) }
    ensures exact { IfOk result (λ found. (meant : List SyncOf) (t : Trees) → AreGiven net.now domains.now syncs.now meant → ShowsNet net.now [] table.old →
        AreLists (design_of net.now domains.now) (next_tree net.now) t meant grays.now →
        IsAll (IsListedFifo net.now domains.now meant grays.now) fifo_key found.fifos) }
    ensures fits { IfOk result (λ found. (meant : List SyncOf) (t : Trees) → AreGiven net.now domains.now syncs.now meant → ShowsNet net.now [] table.old →
        AreLists (design_of net.now domains.now) (next_tree net.now) t meant grays.now →
        IsFoundFor found (design_of net.now domains.now) t meant grays.now) }
    ensures order { IfOk result (λ found. (meant : List SyncOf) (t : Trees) → AreGiven net.now domains.now syncs.now meant → ShowsNet net.now [] table.old →
        AreLists (design_of net.now domains.now) (next_tree net.now) t meant grays.now → (rings : List RingOf) →
        (e : Entry) → Contains found.fifos e → HasOrder net.now domains.now meant grays.now rings e) }
    ensures guards { IfOk result (λ found. (c : CrossingOf) → Contains found.crossings c ↔ IsCrossingOfOne found.fifos c) }
    ensures unchanged { table.new ≡ table.old }
{
    let fifos = search(alloc, net, domains, table, syncs, grays)?;
    let found = Fifos::of(alloc, net, domains, syncs, grays, fifos)?;
    Ok(found)
}

/// The clocks between which a synchronizer brings a bit of a Gray register.
#[derive(Clone, Copy, Debug, Drop)]
struct Way {
    from: u32,
    to: u32,
}

/// Whether codes are brought to a clock from which codes are brought. Without that there is no FIFO, and nothing to search.
fn are_codes_returned(
    alloc: Global,
    domains: &Domains,
    syncs: &[Sync],
    grays: &[GrayReg],
) -> Result<bool, NoMemory>
    ensures { IfOk result (λ is. is ≡ is_returned (ways_of domains.now syncs.now grays.now)) }
{
    let ways = ways(alloc, domains, syncs, grays)?;
    let is = is_returned(alloc, ways.as_slice())?;
    Ok(is)
}

/// The ways of all synchronizers that bring a bit of a Gray register.
fn ways(
    alloc: Global,
    domains: &Domains,
    syncs: &[Sync],
    grays: &[GrayReg],
) -> Result<List<Way>, NoMemory>
    ensures { IfOk result (λ ways. ways ≡ ways_of domains.now syncs.now grays.now) }
{
    let codes = code_words(alloc, grays)?;
    let mut ways = List::new(alloc);
    for sync in syncs {
        if codes.contains(&sync.from.sig) {
            if let Some(way) = way_of(domains, sync) {
                ways.push(way)?;
            }
        }
    }
    Ok(ways)
}

/// The clocks of the source and of the first flop.
fn way_of(domains: &Domains, sync: &Sync) -> Option<Way>
    ensures { result ≡ way_of domains.now sync.now }
{
    let first = sync.flops.as_slice().first()?;
    let from = domains.clock_of(sync.from)?;
    let to = domains.clock_of(*first)?;
    Some(Way { from, to })
}

/// The Gray registers, by signal.
fn code_words(alloc: Global, grays: &[GrayReg]) -> Result<HashSet<u32>, NoMemory>
    ensures { IfOk result (λ words. (sig : ℕ) → set.contains ◌==◌ words sig ≡ is_code_word grays.now sig) }
{
    let mut words = HashSet::new(alloc);
    for gray in grays {
        words.insert(gray.gray).map_err(|_| NoMemory)?;
    }
    Ok(words)
}

/// Whether some way leads to a clock from which one leads.
fn is_returned(alloc: Global, ways: &[Way]) -> Result<bool, NoMemory>
    ensures { IfOk result (λ is. is ≡ is_returned ways.now) }
{
    let clocks = clocks_left(alloc, ways)?;
    for way in ways {
        if clocks.contains(&way.to) {
            return Ok(true);
        }
    }
    Ok(false)
}

/// The clocks from which the ways lead.
fn clocks_left(alloc: Global, ways: &[Way]) -> Result<HashSet<u32>, NoMemory>
    ensures { IfOk result (λ clocks. (clock : ℕ) → set.contains ◌==◌ clocks clock ≡ is_left ways.now clock) }
{
    let mut clocks = HashSet::new(alloc);
    for way in ways {
        clocks.insert(way.from).map_err(|_| NoMemory)?;
    }
    Ok(clocks)
}

/// All FIFOs over the lists, by all sides that reads lead to.
fn search(
    alloc: Global,
    net: &Net,
    domains: &Domains,
    table: &mut Table,
    syncs: &[Sync],
    grays: &[GrayReg],
) -> Result<List<Fifo>, NoMemory>
    ensures sound { IfOk result (λ fifos. (meant : List SyncOf) → AreGiven net.now domains.now syncs.now meant → ShowsNet net.now [] table.old →
        (e : Entry) → Contains fifos e → IsListedFifo net.now domains.now meant grays.now e) }
    ensures exact { IfOk result (λ fifos. (meant : List SyncOf) (t : Trees) → AreGiven net.now domains.now syncs.now meant → ShowsNet net.now [] table.old →
        AreLists (design_of net.now domains.now) (next_tree net.now) t meant grays.now →
        IsAll (IsListedFifo net.now domains.now meant grays.now) fifo_key fifos) }
    ensures unchanged { table.new ≡ table.old }
{
    if !are_codes_returned(alloc, domains, syncs, grays)? {
        return Ok(List::new(alloc));
    }
    let index = Index::of(alloc, net, domains, table, syncs, grays)?;
    let shown = Shown {
        net,
        domains,
        table,
    };
    let candidates = candidates(alloc, net, &index)?;
    let fifos = judged(alloc, shown, &index, syncs, candidates)?;
    Ok(fifos)
}

/// The FIFOs for which the pairs stand, each once and in the order of `fifos`; or the first pair that stands for none.
/// The signals of the pairs are of the net, and there are at most 2^31 pairs.
pub fn fifos_of<'a>(
    alloc: Global,
    net: &'a Net,
    domains: &'a Domains,
    syncs: &'a [Sync],
    grays: &'a [GrayReg],
    pairs: &[FifoPair],
) -> Result<FifosOf<'a>, NoMemory>
    ensures sound { IfOk result (λ answer. (meant : List SyncOf) → AreGiven net.now domains.now syncs.now meant →
        (e : Entry) → Contains (fifos_in answer) e → IsListedFifo net.now domains.now meant grays.now e × IsStoodFor pairs.now e) }
    ensures exact { IfOk result (λ answer. (meant : List SyncOf) (t : Trees) → AreGiven net.now domains.now syncs.now meant →
        AreLists (design_of net.now domains.now) (next_tree net.now) t meant grays.now → length pairs.now ≤ 2 ^ 31 →
        IsAnswer net.now domains.now meant grays.now pairs.now answer) }
    ensures fits { IfOk result (λ answer. (meant : List SyncOf) (t : Trees) → AreGiven net.now domains.now syncs.now meant →
        AreLists (design_of net.now domains.now) (next_tree net.now) t meant grays.now →
        DoesFit answer (design_of net.now domains.now) t meant grays.now) }
    ensures order { IfOk result (λ answer. (meant : List SyncOf) (t : Trees) → AreGiven net.now domains.now syncs.now meant →
        AreLists (design_of net.now domains.now) (next_tree net.now) t meant grays.now → (rings : List RingOf) →
        (e : Entry) → Contains (fifos_in answer) e → HasOrder net.now domains.now meant grays.now rings e) }
    ensures guards { IfOk result GuardsThose }
{
    let mut table = plain_table(alloc, net)?;
    let index = Index::of(alloc, net, domains, &mut table, syncs, grays)?;
    let shown = Shown {
        net,
        domains,
        table: &table,
    };
    let candidates = candidates_of(alloc, &index, pairs)?;
    let fifos = judged(alloc, shown, &index, syncs, candidates)?;
    match missing(alloc, fifos.as_slice(), pairs)? {
        Some(place) => Ok(FifosOf::Missing { place }),
        None => {
            let fifos = Fifos::of(alloc, net, domains, syncs, grays, fifos)?;
            Ok(FifosOf::Found { fifos })
        }
    }
}

/// The counters and Gray registers of two sides. FIFOs go by them.
#[derive(Clone, Copy, PartialEq, Eq, PartialOrd, Ord, Debug, Drop)]
struct Key {
    wb: u32,
    wg: u32,
    rb: u32,
    rg: u32,
}

/// The places of two sides.
#[derive(Clone, Copy, Debug, Drop)]
struct Sides {
    write: usize,
    read: usize,
}

/// The sides that may make FIFOs, in their order.
type Candidates = BTreeMap<Key, Sides>;

/// The sides that reads lead to: each FIFO has a read, by the count of the side that reads, of words whose terms say the
/// count of the side that writes.
fn candidates(alloc: Global, net: &Net, index: &Index) -> Result<Candidates, NoMemory>
    ensures { IfOk result (λ found. AreLookedUp index.now → AreAt index.now.sides.items (OfOne (IsReadTo net.now index.now) index.now.reads) found) }
{
    let mut candidates = BTreeMap::new(alloc);
    for read in index.reads.as_slice() {
        add_read(alloc, net, index, read, &mut candidates)?;
    }
    Ok(candidates)
}

/// The sides with the counters of the pairs.
fn candidates_of(alloc: Global, index: &Index, pairs: &[FifoPair]) -> Result<Candidates, NoMemory>
    ensures { IfOk result (λ found. AreLookedUp index.now → AreAt index.now.sides.items (OfOne (λ (p : PairOf) k. AreBy index.now.sides.items p.wb p.rb k) pairs.now) found) }
{
    let mut candidates = BTreeMap::new(alloc);
    for pair in pairs {
        add_sides(index, pair.wb, pair.rb, &mut candidates)?;
    }
    Ok(candidates)
}

/// Adds the sides that a read leads to, by its count and its first word.
fn add_read(
    alloc: Global,
    net: &Net,
    index: &Index,
    read: &Read,
    candidates: &mut Candidates,
) -> Result<(), NoMemory>
    ensures { IfOk result (λ _. AreLookedUp index.now → Grows index.now.sides.items (IsReadTo net.now index.now read.now) candidates.old candidates.new) }
{
    match read.words.as_slice().first() {
        Some(word) => add_word(alloc, net, index, read.count, *word, candidates),
        None => Ok(()),
    }
}

/// Adds the sides that a read by a count leads to, by its first word.
fn add_word(
    alloc: Global,
    net: &Net,
    index: &Index,
    rb: u32,
    word: Bit,
    candidates: &mut Candidates,
) -> Result<(), NoMemory>
    ensures { IfOk result (λ _. AreLookedUp index.now → Grows index.now.sides.items (IsWordTo net.now index.now rb word) candidates.old candidates.new) }
{
    let counts = counts_of(alloc, net, index, word)?;
    add_counts(index, counts.as_slice(), rb, candidates)
}

/// The counts of which the terms of a register bit say bit 0.
fn counts_of(alloc: Global, net: &Net, index: &Index, bit: Bit) -> Result<List<u32>, NoMemory>
    ensures { IfOk result (λ counts. (wb : ℕ) → Contains counts wb ↔ WordSays net.now index.now bit wb) }
{
    match index.taking(bit) {
        Some(taking) => counts_said(alloc, net, taking.taken.under.as_slice()),
        None => Ok(List::new(alloc)),
    }
}

/// Adds the sides that write by one of these counts and read by another.
fn add_counts(
    index: &Index,
    counts: &[u32],
    rb: u32,
    candidates: &mut Candidates,
) -> Result<(), NoMemory>
    ensures { IfOk result (λ _. AreLookedUp index.now →
        Grows index.now.sides.items (OfOne (λ wb k. AreBy index.now.sides.items wb rb k) counts.now) candidates.old candidates.new) }
{
    for wb in counts {
        add_sides(index, *wb, rb, candidates)?;
    }
    Ok(())
}

/// Adds each pair of sides with these counters.
fn add_sides(index: &Index, wb: u32, rb: u32, candidates: &mut Candidates) -> Result<(), NoMemory>
    ensures { IfOk result (λ _. AreLookedUp index.now → Grows index.now.sides.items (AreBy index.now.sides.items wb rb) candidates.old candidates.new) }
{
    let writes = index.sides_of(wb);
    let reads = index.sides_of(rb);
    for write in writes {
        add_reads(index, *write, reads, candidates)?;
    }
    Ok(())
}

/// Adds a side that writes with each of these that read.
fn add_reads(
    index: &Index,
    write: usize,
    reads: &[usize],
    candidates: &mut Candidates,
) -> Result<(), NoMemory>
    ensures { IfOk result (λ _. Grows index.now.sides.items (OfOne (IsAt index.now.sides.items write) reads.now) candidates.old candidates.new) }
{
    for read in reads {
        let sides = Sides { write, read: *read };
        add_pair(index, sides, candidates)?;
    }
    Ok(())
}

fn add_pair(index: &Index, sides: Sides, candidates: &mut Candidates) -> Result<(), NoMemory>
    ensures { IfOk result (λ _. Grows index.now.sides.items (IsAt index.now.sides.items sides.write sides.read) candidates.old candidates.new) }
{
    let (Some(write), Some(read)) = (index.sides.get(sides.write), index.sides.get(sides.read))
    else {
        return Ok(());
    };
    let key = Key {
        wb: write.reg.count,
        wg: write.reg.gray,
        rb: read.reg.count,
        rg: read.reg.gray,
    };
    candidates.insert(key, sides).map_err(|_| NoMemory)?;
    Ok(())
}

/// The FIFOs that the candidates make, in their order.
fn judged(
    alloc: Global,
    shown: Shown<'_>,
    index: &Index,
    syncs: &[Sync],
    candidates: Candidates,
) -> Result<List<Fifo>, NoMemory>
    ensures made { IfOk result (λ fifos. (meant : List SyncOf) (grays : List GrayRegOf) → AreGiven shown.entry.net.now shown.entry.domains.now syncs.now meant →
        IsShown shown.entry.net.now shown.entry.table.now → IsIndex shown.entry.net.now shown.entry.domains.now meant grays index.now → AreKept index.now.sides.items candidates →
        AreMade shown.entry.net.now shown.entry.domains.now meant grays index.now.sides.items candidates.entries fifos) }
    ensures ordered { IfOk result (λ _. IsOrdered order.ghosts.cmp candidates) }
{
    let mut fifos = List::new(alloc);
    for (_, sides) in candidates {
        if let Some(fifo) = fifo_at(alloc, shown, index, syncs, sides)? {
            fifos.push(fifo)?;
        }
    }
    Ok(fifos)
}

/// The FIFO that the sides at two places make, if they do.
fn fifo_at(
    alloc: Global,
    shown: Shown<'_>,
    index: &Index,
    syncs: &[Sync],
    sides: Sides,
) -> Result<Option<Fifo>, NoMemory>
    ensures { IfOk result (λ found. (meant : List SyncOf) (grays : List GrayRegOf) → AreGiven shown.entry.net.now shown.entry.domains.now syncs.now meant →
        IsShown shown.entry.net.now shown.entry.table.now → IsIndex shown.entry.net.now shown.entry.domains.now meant grays index.now →
        IsJudgedAt shown.entry.net.now shown.entry.domains.now meant grays index.now.sides.items sides found) }
{
    match (index.sides.get(sides.write), index.sides.get(sides.read)) {
        (Some(write), Some(read)) => fifo_of(alloc, shown, index, syncs, write, read),
        _ => Ok(None),
    }
}

/// The place of the first pair that stands for none of the FIFOs.
fn missing(alloc: Global, fifos: &[Fifo], pairs: &[FifoPair]) -> Result<Option<u32>, NoMemory>
    ensures { IfOk result (λ found. IsFirst fifos.now pairs.now found) }
{
    let there = stood_for(alloc, fifos)?;
    for (place, pair) in pairs.iter().enumerate() {
        if !there.contains(pair) {
            return match u32::try_from(place) {
                Ok(place) => Ok(Some(place)),
                Err(_) => Err(NoMemory),
            };
        }
    }
    Ok(None)
}

/// The pairs that stand for FIFOs.
fn stood_for(alloc: Global, fifos: &[Fifo]) -> Result<HashSet<FifoPair>, NoMemory>
    ensures { IfOk result (λ there. (p : PairOf) → (set.contains equality.ghosts.eq there p ≡ true) ↔ IsThere fifos.now p) }
{
    let mut there = HashSet::new(alloc);
    for fifo in fifos {
        let pair = FifoPair {
            wb: fifo.wb,
            rb: fifo.rb,
        };
        there.insert(pair).map_err(|_| NoMemory)?;
    }
    Ok(there)
}
