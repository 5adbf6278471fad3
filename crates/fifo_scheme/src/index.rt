//! What a search for FIFOs looks up, made once for a net.
ghost use Rattle.std.specs.Prelude.{◌≡◌, ◌↔◌, ◌<◌, ℕ, [], List, map, option_and_then, filter, slice_get, Contains, IfOk};
ghost use Rattle.std.specs.HashMap as hash;
ghost use Rattle.std.specs.Option.{option_copied};
ghost use Rattle.cdc_base.specs.contracts.bit.BitPartialEq.TheImpl as equality;
ghost use Rattle.cdc_base.specs.declared.bit.Bit.{Bit as BitOf};
ghost use Rattle.domains.specs.Fit.{Fit};
ghost use Rattle.domains.specs.Nets.{IsNet};
ghost use Rattle.crossings.specs.Groups.{ShowsGroups};
ghost use Rattle.cell_graph.specs.Shared.{IsShared};
ghost use Rattle.cdc_model.specs.Listed.{sync_entry};
ghost use Rattle.cdc_model.specs.Nets.{HasNextCells, bit_count};
ghost use Rattle.cdc_model.specs.Schemes.{Sync as SyncOf};
ghost use Rattle.cdc_model.specs.Tables.{ShowsNet};
ghost use Rattle.fifo_scheme.specs.declared.index.Reading.{Reading as ReadingOf};
ghost use Rattle.fifo_parts.specs.declared.reads.Read.{Read as ReadOf};
ghost use Rattle.fifo_parts.specs.declared.side.Side.{Side as SideOf};
ghost use Rattle.fifo_parts.specs.Brought.{places_at};
ghost use Rattle.fifo_parts.specs.Comparisons.{AreComparisons};
ghost use Rattle.fifo_parts.specs.Words.{lowest};
ghost use Rattle.fifo_scheme.specs.Indexed.{AddsAt, AreSides, is_apart, IsFoundFrom, IsIndex, IsPlaceOf, IsReading};
ghost use Rattle.fifo_scheme.specs.Judged.{AreReadings, ArePlaces};
ghost use Rattle.fifo_parts.specs.Tellers.{IsShown};

use cdc_base::{Bit, List, NoMemory};
use cdc_model::view::{are_apart, bits_read, register_bits};
use cdc_model::{Below, GrayReg, Sync};
use cell_graph::Net;
use cofactor::Table;
use crossings::{groups_below, may_cross};
use domains::Domains;
use fifo_parts::brought::{Sources, add_place};
use fifo_parts::flags::Comparisons;
use fifo_parts::pair::Shown;
use fifo_parts::reads::{Read, reads};
use fifo_parts::side::{Side, side_of};
use fifo_parts::vars::Vars;
use fifo_parts::words::{Taking, counts_said, takings};
use std::alloc::Global;
use std::collections::{HashMap, HashSet};

/// A register bit, and the bits of other groups that it reads, ascending.
#[derive(Drop)]
pub struct Reading {
    pub bit: Bit,
    pub reads: List<Bit>,
}

/// The synchronizers by their sources, what may be flags, the sides, what register bits take, the reads, and the register bits that read bits of
/// other groups; each with its places by what it is looked up by.
#[derive(Drop)]
pub struct Index {
    pub sources: Sources,
    pub comparisons: Comparisons,
    pub sides: Vec<Side>,
    pub takings: List<Taking>,
    pub reads: List<Read>,
    pub readings: List<Reading>,
    sides_by_count: HashMap<Bit, Vec<usize>>,
    takings_by_count: HashMap<Bit, Vec<usize>>,
    taking_by_bit: HashMap<Bit, usize>,
    reads_by_count: HashMap<Bit, Vec<usize>>,
    readings_by_word: HashMap<Bit, Vec<usize>>,
}

/// The places at a key.
fn places_at(places: &HashMap<Bit, Vec<usize>>, key: Bit) -> &[usize]
    ensures { result.now ≡ places_at places.now key }
{
    match places.get(&key) {
        Some(there) => there.as_slice(),
        None => &[],
    }
}

/// The lowest bit of a signal.
fn lowest(sig: u32) -> Bit
    ensures { result ≡ lowest sig }
{
    Bit { sig, at: 0 }
}

impl Index {
    /// The table is the net's without a cube.
    pub fn of(
        alloc: Global,
        net: &Net,
        domains: &Domains,
        table: &mut Table,
        syncs: &[Sync],
        grays: &[GrayReg],
    ) -> Result<Index, NoMemory>
        ensures found { IfOk result (λ index. (meant : List SyncOf) → IsNet net.now → HasNextCells net.now → Fit net.now domains.now → IsShared net.now.graph → ShowsNet net.now [] table.old →
            syncs.now ≡ map sync_entry meant → IsIndex net.now domains.now meant grays.now index) }
        ensures unchanged { table.new ≡ table.old }
    {
        let sources = Sources::of(alloc, syncs)?;
        let comparisons = comparisons(alloc, net, domains, table)?;
        let sides = sides(alloc, net, domains, table, grays)?;
        let sides_by_count = by_count(alloc, sides.as_slice())?;
        let takings = takings(alloc, net, table)?;
        let takings_by_count = by_said(alloc, net, takings.as_slice(), &sides_by_count)?;
        let taking_by_bit = by_bit(alloc, takings.as_slice())?;
        let reads = reads(alloc, net, table)?;
        let reads_by_count = by_read_count(alloc, reads.as_slice())?;
        let readings = readings(alloc, net, domains, table)?;
        let readings_by_word = by_word(alloc, readings.as_slice())?;
        Ok(Index {
            sources,
            comparisons,
            sides,
            takings,
            reads,
            readings,
            sides_by_count,
            takings_by_count,
            taking_by_bit,
            reads_by_count,
            readings_by_word,
        })
    }

    /// The places of the sides whose counter it is.
    pub fn sides_of(&self, count: u32) -> &[usize]
        ensures { result.now ≡ places_at self.now.sides_by_count (lowest count) }
    {
        places_at(&self.sides_by_count, lowest(count))
    }

    /// The places of the register bits whose terms say bit 0 of a count, some of them twice.
    pub fn takings_of(&self, count: u32) -> &[usize]
        ensures { result.now ≡ places_at self.now.takings_by_count (lowest count) }
    {
        places_at(&self.takings_by_count, lowest(count))
    }

    /// What a register bit takes.
    pub fn taking(&self, bit: Bit) -> Option<&Taking>
        ensures { option_copied result ≡ option_and_then (slice_get self.now.takings) (hash.get equality.ghosts.eq self.now.taking_by_bit bit) }
    {
        let place = self.taking_by_bit.get(&bit)?;
        self.takings.as_slice().get(*place)
    }

    /// The places of the reads by a count.
    pub fn reads_of(&self, count: u32) -> &[usize]
        ensures { result.now ≡ places_at self.now.reads_by_count (lowest count) }
    {
        places_at(&self.reads_by_count, lowest(count))
    }

    /// The places of the register bits that read a word.
    pub fn readings_of(&self, word: Bit) -> &[usize]
        ensures { result.now ≡ places_at self.now.readings_by_word word }
    {
        places_at(&self.readings_by_word, word)
    }
}

fn comparisons(
    alloc: Global,
    net: &Net,
    domains: &Domains,
    table: &Table,
) -> Result<Comparisons, NoMemory>
    ensures { IfOk result (λ found. IsShown net.now table.now → AreComparisons net.now domains.now found.by_bit found.by_clock) }
{
    let shown = Shown {
        net,
        domains,
        table,
    };
    Comparisons::find(alloc, shown)
}

/// A Gray register and its counter, by signal.
#[derive(Clone, Copy, PartialEq, Eq, Hash, Debug, Drop)]
struct Names {
    gray: u32,
    count: u32,
}

/// The sides that the Gray registers are, those that are listed several times once.
fn sides(
    alloc: Global,
    net: &Net,
    domains: &Domains,
    table: &Table,
    grays: &[GrayReg],
) -> Result<Vec<Side>, NoMemory>
    ensures { IfOk result (λ sides. IsShown net.now table.now → AreSides net.now domains.now grays.now sides.items) }
{
    let vars = Vars::find(alloc, net)?;
    let mut met = HashSet::new(alloc);
    let mut sides = Vec::new(alloc);
    for gray in grays {
        let names = Names {
            gray: gray.gray,
            count: gray.count,
        };
        let is_new = met.insert(names).map_err(|_| NoMemory)?;
        if is_new {
            if let Some(side) = side_of(alloc, net, domains, table, &vars, *gray)? {
                sides.push(side).map_err(|_| NoMemory)?;
            }
        }
    }
    Ok(sides)
}

/// The places of the sides by their counters.
fn by_count(alloc: Global, sides: &[Side]) -> Result<HashMap<Bit, Vec<usize>>, NoMemory>
    ensures { IfOk result (λ places. (count : ℕ) → ArePlaces (λ (s : SideOf). s.reg.count ≡ count) sides.now (places_at places (lowest count))) }
{
    let mut places = HashMap::new(alloc);
    for place in 0..sides.len() {
        let key = lowest(sides[place].reg.count);
        add_place(alloc, &mut places, key, place)?;
    }
    Ok(places)
}

/// The places of reads by their counts.
fn by_read_count(alloc: Global, reads: &[Read]) -> Result<HashMap<Bit, Vec<usize>>, NoMemory>
    ensures { IfOk result (λ places. (count : ℕ) → ArePlaces (λ (r : ReadOf). r.count ≡ count) reads.now (places_at places (lowest count))) }
{
    let mut places = HashMap::new(alloc);
    for place in 0..reads.len() {
        let key = lowest(reads[place].count);
        add_place(alloc, &mut places, key, place)?;
    }
    Ok(places)
}

/// The places of what register bits take, by the counters of sides of which their terms say bit 0.
fn by_said(
    alloc: Global,
    net: &Net,
    takings: &[Taking],
    sides: &HashMap<Bit, Vec<usize>>,
) -> Result<HashMap<Bit, Vec<usize>>, NoMemory>
    ensures { IfOk result (λ places. (count : ℕ) → ArePlaces (IsFoundFrom net.now sides.now count) takings.now (places_at places (lowest count))) }
{
    let mut places = HashMap::new(alloc);
    for place in 0..takings.len() {
        let counters = counters_said(alloc, net, &takings[place], sides)?;
        add_at_each(alloc, &mut places, counters.as_slice(), place)?;
    }
    Ok(places)
}

/// The lowest bits of the counters of sides that the terms say.
fn counters_said(
    alloc: Global,
    net: &Net,
    taking: &Taking,
    sides: &HashMap<Bit, Vec<usize>>,
) -> Result<List<Bit>, NoMemory>
    ensures { IfOk result (λ bits. (b : BitOf) → Contains bits b ↔ ((count : ℕ) × (b ≡ lowest count) × IsFoundFrom net.now sides.now count taking.now)) }
{
    let counts = counts_said(alloc, net, taking.taken.under.as_slice())?;
    let mut bits = List::new(alloc);
    for count in counts.as_slice() {
        let bit = lowest(*count);
        if sides.contains_key(&bit) {
            bits.push(bit)?;
        }
    }
    Ok(bits)
}

/// Adds a place to those at each of the keys.
fn add_at_each(
    alloc: Global,
    places: &mut HashMap<Bit, Vec<usize>>,
    keys: &[Bit],
    place: usize,
) -> Result<(), NoMemory>
    ensures { IfOk result (λ _. AddsAt (Contains keys.now) place places.old places.new) }
{
    for key in keys {
        add_place(alloc, places, *key, place)?;
    }
    Ok(())
}

/// The places of what register bits take, by the bits.
fn by_bit(alloc: Global, takings: &[Taking]) -> Result<HashMap<Bit, usize>, NoMemory>
    ensures { IfOk result (λ places. (b : BitOf) → IsPlaceOf takings.now b (hash.get equality.ghosts.eq places b)) }
{
    let mut places = HashMap::new(alloc);
    for place in 0..takings.len() {
        places
            .insert(takings[place].bit, place)
            .map_err(|_| NoMemory)?;
    }
    Ok(places)
}

/// The register bits that read bits of other groups.
fn readings(
    alloc: Global,
    net: &Net,
    domains: &Domains,
    table: &mut Table,
) -> Result<List<Reading>, NoMemory>
    ensures found { IfOk result (λ readings. IsNet net.now → HasNextCells net.now → Fit net.now domains.now → ShowsNet net.now [] table.old →
        AreReadings net.now domains.now readings) }
    ensures unchanged { table.new ≡ table.old }
{
    let groups = groups_below(alloc, net, domains)?;
    let bits = register_bits(alloc, net)?;
    let mut readings = List::new(alloc);
    for bit in bits.as_slice() {
        if let Some(reading) = reading_of(alloc, net, domains, table, &groups, *bit)? {
            readings.push(reading)?;
        }
    }
    Ok(readings)
}

/// The register bit with the bits of other groups that it reads, if it reads any.
fn reading_of(
    alloc: Global,
    net: &Net,
    domains: &Domains,
    table: &mut Table,
    groups: &Below,
    bit: Bit,
) -> Result<Option<Reading>, NoMemory>
    ensures found { IfOk result (λ found. IsNet net.now → HasNextCells net.now → Fit net.now domains.now → ShowsNet net.now [] table.old →
        ShowsGroups net.now domains.now groups.now → bit.at < bit_count net.now.graph.signals bit.sig → IsReading net.now domains.now bit found) }
    ensures unchanged { table.new ≡ table.old }
{
    if !may_cross(net, domains, groups, bit) {
        return Ok(None);
    }
    let all = bits_read(alloc, net, table, bit)?;
    let reads = of_other_groups(alloc, domains, all.as_slice(), bit)?;
    if reads.len() > 0 {
        Ok(Some(Reading { bit, reads }))
    } else {
        Ok(None)
    }
}

/// Those of the bits that are of another group than a bit.
fn of_other_groups(
    alloc: Global,
    domains: &Domains,
    bits: &[Bit],
    bit: Bit,
) -> Result<List<Bit>, NoMemory>
    ensures { IfOk result (λ found. found ≡ filter (is_apart domains.now bit) bits.now) }
{
    let mut found = List::new(alloc);
    for other in bits {
        if are_apart(domains, *other, bit) {
            found.push(*other)?;
        }
    }
    Ok(found)
}

/// The places of register bits by the bits that they read.
fn by_word(alloc: Global, readings: &[Reading]) -> Result<HashMap<Bit, Vec<usize>>, NoMemory>
    ensures { IfOk result (λ places. (b : BitOf) → ArePlaces (λ (r : ReadingOf). Contains r.reads b) readings.now (places_at places b)) }
{
    let mut places = HashMap::new(alloc);
    for place in 0..readings.len() {
        let words = readings[place].reads.as_slice();
        add_at_each(alloc, &mut places, words, place)?;
    }
    Ok(places)
}
