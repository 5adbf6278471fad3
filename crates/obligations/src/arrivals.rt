//! Synchronized copies, and the register bits that read several families of them.
ghost use Rattle.std.specs.Prelude.{◌≡◌, ◌++◌, ◌⊎◌, ◌≤◌, ◌<◌, ℕ, true, Bool, List, [], ◌∷◌, map, take, length, Contains, IfOk};
ghost use Rattle.std.specs.List.{flat_map};
ghost use Rattle.std.specs.Option.{option_to_list};
ghost use Rattle.cdc_base.specs.declared.bit.Bit.{Bit};
ghost use Rattle.domains.specs.Nets.{IsNet};
ghost use Rattle.cdc_model.specs.declared.scheme.Arrival.{Arrival};
ghost use Rattle.cdc_model.specs.declared.scheme.GrayReg.{GrayReg};
ghost use Rattle.cdc_model.specs.Listed.{sync_entry};
ghost use Rattle.cdc_model.specs.Nets.{HasNextCells, bits_of_registers, is_register_bit};
ghost use Rattle.cdc_model.specs.Ordered.{IsAll, IsAscending};
ghost use Rattle.cdc_model.specs.Readers.{IsMarked, ShowsBelow};
ghost use Rattle.cdc_model.specs.Schemes.{Ring, Sync as Synchronizer};
ghost use Rattle.cdc_model.specs.Syncs.{on_one_clock};
ghost use Rattle.cdc_model.specs.Tables.{ShowsNet};
ghost use Rattle.cdc_model.specs.Verdict.{gray_key};
ghost use Rattle.obligations.specs.Arrivals.{IsCopying, copying_of, copying_key, copyings_at, IsArrival, arrival_key, first_arrival, copy_of, copies_of, by_bit, family_as, family_at, IsArrivalAt, AreReadsIn, group_key, of_one_group, has_several_families, arrival_of, v6_of, AreMarked, AddsReaders};
ghost use Rattle.obligations.specs.Findings.{AddsFindings};
ghost use Rattle.obligations.specs.Given.{AreFound, design_in, syncs_in};
ghost use Rattle.obligations.specs.Lots.{AreInLots, lots_of};
ghost use Rattle.obligations.specs.contracts.arrivals.FamilyPartialEq.TheImpl as families;
ghost use Rattle.obligations.specs.declared.arrivals.Read.{Read as ReadOf};

use crate::Found;
use crate::covers::{first_flop, is_code};
use cdc_base::{Bit, List, NoMemory};
use cdc_model::view::{copied_bit, mark, marked_bits_read, reads_marked, register_bits, unmarked};
use cdc_model::{Arrival, Below, Finding, Sync};
use cell_graph::Net;
use cofactor::Table;
use domains::Domains;
use std::alloc::Global;

/// A register bit that plainly copies a bit of its own clock.
#[derive(Clone, Copy, PartialEq, Eq, PartialOrd, Ord, Debug, Drop)]
pub struct Copying {
    pub from: Bit,
    pub to: Bit,
}

/// Whose copies belong together: those of one Gray code, else those of one bit.
#[derive(Clone, Copy, PartialEq, Eq, Debug, Drop)]
pub enum Source {
    Code(u32),
    Bit(Bit),
}

/// A family of arrivals: their source, and the group that it entered.
#[derive(Clone, Copy, PartialEq, Eq, Debug, Drop)]
pub struct Family {
    pub source: Source,
    pub entered: Option<u32>,
}

/// An arrival that a register bit reads, with the group that it came from.
#[derive(Clone, Copy, Debug, Drop)]
pub struct Read {
    pub group: u32,
    pub family: Family,
    pub arrival: Arrival,
}

/// All plain copies of a bit of the copy's own clock, by that bit.
fn copyings(
    alloc: Global,
    found: &Found<'_>,
    table: &Table,
    bits: &[Bit],
) -> Result<Vec<Copying>, NoMemory>
    ensures { IfOk result (λ copyings. IsNet found.now.net.now → HasNextCells found.now.net.now → ShowsNet found.now.net.now [] table.now →
        bits.now ≡ bits_of_registers found.now.net.now.graph.signals found.now.net.now.regs →
        IsAll (IsCopying found.now.net.now found.now.domains.now) copying_key copyings.items) }
{
    let mut copyings = Vec::new(alloc);
    for to in bits {
        add_copying(found.net, found.domains, table, *to, &mut copyings)?;
    }
    copyings.sort_unstable();
    Ok(copyings)
}

/// Adds the plain copy that a register bit is, if it is one.
fn add_copying(
    net: &Net,
    domains: &Domains,
    table: &Table,
    to: Bit,
    copyings: &mut Vec<Copying>,
) -> Result<(), NoMemory>
    ensures { IfOk result (λ _. IsNet net.now → HasNextCells net.now → ShowsNet net.now [] table.now → is_register_bit net.now to ≡ true →
        copyings.new.items ≡ copyings.old.items ++ option_to_list (copying_of net.now domains.now to)) }
{
    if let Some(copying) = copying_of(net, domains, table, to) {
        copyings.push(copying).map_err(|_| NoMemory)?;
    }
    Ok(())
}

/// The plain copy that a register bit is, if it copies a bit of its own clock.
fn copying_of(net: &Net, domains: &Domains, table: &Table, to: Bit) -> Option<Copying>
    ensures { IsNet net.now → HasNextCells net.now → ShowsNet net.now [] table.now → is_register_bit net.now to ≡ true → result ≡ copying_of net.now domains.now to }
{
    match copied_bit(net, table, to) {
        Some(from) => {
            if on_one_clock(domains, to, from) {
                Some(Copying { from, to })
            } else {
                None
            }
        }
        None => None,
    }
}

/// Whether both bits have a clock, and it is one.
fn on_one_clock(domains: &Domains, one: Bit, another: Bit) -> bool
    ensures { result ≡ on_one_clock domains.now one another }
{
    match (domains.clock_of(one), domains.clock_of(another)) {
        (Some(clock), Some(other)) => clock == other,
        _ => false,
    }
}

/// The copyings of one bit, among copyings in their order.
fn copyings_of(copyings: &[Copying], bit: Bit) -> &[Copying]
    ensures { IsAscending copying_key copyings.now → result.now ≡ copyings_at copyings.now bit }
{
    let start = copyings.partition_point(|copying| copying.from < bit);
    let end = copyings.partition_point(|copying| copying.from <= bit);
    copyings.get(start..end).unwrap_or(&[])
}

/// The first flops, as arrivals.
fn first_arrivals(alloc: Global, syncs: &[Sync]) -> Result<Vec<Arrival>, NoMemory>
    ensures { IfOk result (λ arrivals. (ss : List Synchronizer) → syncs.now ≡ map sync_entry ss → arrivals.items ≡ map first_arrival ss) }
{
    let mut arrivals = Vec::new(alloc);
    for sync in syncs {
        if let Some(bit) = first_flop(sync) {
            arrivals
                .push(Arrival {
                    bit,
                    source: sync.from,
                    depth: 1,
                })
                .map_err(|_| NoMemory)?;
        }
    }
    Ok(arrivals)
}

/// Adds the copies of an arrival, one flop deeper. The copyings are in their order.
fn add_copies(
    copyings: &[Copying],
    arrival: &Arrival,
    arrivals: &mut Vec<Arrival>,
) -> Result<(), NoMemory>
    ensures { IfOk result (λ _. IsAscending copying_key copyings.now → arrivals.new.items ≡ arrivals.old.items ++ copies_of copyings.now arrival.now) }
{
    let depth = arrival.depth.checked_add(1).ok_or(NoMemory)?;
    for copying in copyings_of(copyings, arrival.bit) {
        arrivals
            .push(Arrival {
                bit: copying.to,
                source: arrival.source,
                depth,
            })
            .map_err(|_| NoMemory)?;
    }
    Ok(())
}

/// Adds the copies of all arrivals, the added ones too, or of as many as asked. The copyings are in their order.
fn follow(copyings: &[Copying], most: usize, arrivals: &mut Vec<Arrival>) -> Result<(), NoMemory>
    ensures { IfOk result (λ _. IsAscending copying_key copyings.now →
        (n : ℕ) × (arrivals.new.items ≡ arrivals.old.items ++ flat_map (copies_of copyings.now) (take n arrivals.new.items)) × ((length arrivals.new.items ≤ n) ⊎ (n ≡ most))) }
{
    for place in 0..most {
        if place >= arrivals.len() {
            return Ok(());
        }
        let arrival = arrivals[place];
        add_copies(copyings, &arrival, arrivals)?;
    }
    Ok(())
}

/// All arrivals, by their bits. A register bit plainly copies one bit at most, and a first flop none of its own clock, so
/// each bit is met once, and a ring of copies never.
fn arrivals(
    alloc: Global,
    found: &Found<'_>,
    table: &Table,
    bits: &[Bit],
) -> Result<Vec<Arrival>, NoMemory>
    ensures { IfOk result (λ arrivals. (grays : GrayReg → Bool) (rings : List Ring) → AreFound grays rings found.now → ShowsNet found.now.net.now [] table.now →
        bits.now ≡ bits_of_registers found.now.net.now.graph.signals found.now.net.now.regs →
        IsAll (IsArrival (design_in found.now) (syncs_in found.now)) arrival_key arrivals.items) }
{
    let copyings = copyings(alloc, found, table, bits)?;
    let mut arrivals = first_arrivals(alloc, found.syncs)?;
    follow(copyings.as_slice(), bits.len(), &mut arrivals)?;
    arrivals.sort_unstable_by_key(|arrival| arrival.bit);
    Ok(arrivals)
}

/// The family of an arrival, by its source and the group that it entered.
fn family_of(found: &Found<'_>, arrival: &Arrival) -> Family
    ensures { IsAscending gray_key found.now.grays.now → family_as result ≡ family_at found.now.domains.now found.now.grays.now arrival.now }
{
    let source = if is_code(found.grays, arrival.source.sig) {
        Source::Code(arrival.source.sig)
    } else {
        Source::Bit(arrival.source)
    };
    Family {
        source,
        entered: found.domains.group_of(arrival.bit),
    }
}

/// The arrival at a bit, among arrivals in their order.
fn arrival_at(arrivals: &[Arrival], bit: Bit) -> Option<Arrival>
    ensures { IsAscending arrival_key arrivals.now → IsArrivalAt arrivals.now bit result }
{
    match arrivals.binary_search_by_key(&bit, |arrival| arrival.bit) {
        Ok(place) => Some(arrivals[place]),
        Err(_) => None,
    }
}

/// Adds the arrival at a bit, if there is one, with its family and the group that it came from.
fn add_read(
    found: &Found<'_>,
    arrivals: &[Arrival],
    bit: Bit,
    reads: &mut Vec<Read>,
) -> Result<(), NoMemory>
    ensures { IfOk result (λ _. (grays : GrayReg → Bool) (rings : List Ring) → AreFound grays rings found.now →
        IsAll (IsArrival (design_in found.now) (syncs_in found.now)) arrival_key arrivals.now →
        (added : List ReadOf) × (reads.new.items ≡ reads.old.items ++ added) × AreReadsIn (design_in found.now) found.now.grays.now (syncs_in found.now) (bit ∷ []) added) }
{
    if let Some(arrival) = arrival_at(arrivals, bit) {
        if let Some(group) = found.domains.group_of(arrival.source) {
            let family = family_of(found, &arrival);
            let read = Read {
                group,
                family,
                arrival,
            };
            reads.push(read).map_err(|_| NoMemory)?;
        }
    }
    Ok(())
}

/// The arrivals among the bits, in the order of the bits.
fn reads_at(
    alloc: Global,
    found: &Found<'_>,
    arrivals: &[Arrival],
    bits: &[Bit],
) -> Result<Vec<Read>, NoMemory>
    ensures { IfOk result (λ reads. (grays : GrayReg → Bool) (rings : List Ring) → AreFound grays rings found.now →
        IsAll (IsArrival (design_in found.now) (syncs_in found.now)) arrival_key arrivals.now → IsAscending by_bit bits.now →
        AreReadsIn (design_in found.now) found.now.grays.now (syncs_in found.now) bits.now reads.items) }
{
    let mut reads = Vec::new(alloc);
    for bit in bits {
        add_read(found, arrivals, *bit, &mut reads)?;
    }
    Ok(reads)
}

/// The arrivals by the groups that they came from, each such lot in its order.
fn by_group(reads: Vec<Read>) -> Result<Vec<Read>, NoMemory>
    ensures { IfOk result (λ sorted. AreInLots of_one_group group_key reads.items sorted.items) }
{
    let mut sorted = reads;
    sorted.sort_by_key(|read| read.group).map_err(|_| NoMemory)?;
    Ok(sorted)
}

fn came_from_one_group(read: &Read, next: &Read) -> bool
    ensures { result ≡ of_one_group read.now next.now }
{
    read.group == next.group
}

/// Whether a lot that begins with this arrival has several families.
fn has_several_families(first: &Read, lot: &[Read]) -> bool
    ensures { result ≡ has_several_families families.ghosts.eq first.now lot.now }
{
    lot.iter().any(|read| read.family != first.family)
}

fn arrivals_of(alloc: Global, lot: &[Read]) -> Result<List<Arrival>, NoMemory>
    ensures { IfOk result (λ arrivals. arrivals ≡ map arrival_of lot.now) }
{
    let mut arrivals = List::new(alloc);
    for read in lot {
        arrivals.push(read.arrival)?;
    }
    Ok(arrivals)
}

/// Adds the lot of a group, which the register bit reads, where it has several families.
fn add_lot(
    alloc: Global,
    to: Bit,
    lot: &[Read],
    findings: &mut List<Finding>,
) -> Result<(), NoMemory>
    ensures { IfOk result (λ _. findings.new ≡ findings.old ++ v6_of families.ghosts.eq to lot.now) }
{
    let Some(read) = lot.first() else {
        return Ok(());
    };
    if has_several_families(read, lot) {
        findings.push(Finding::V6 {
            to,
            group: read.group,
            arrivals: arrivals_of(alloc, lot)?,
        })?;
    }
    Ok(())
}

/// Adds the findings of one register bit, which reads these arrivals.
fn add_lots(
    alloc: Global,
    to: Bit,
    reads: &[Read],
    findings: &mut List<Finding>,
) -> Result<(), NoMemory>
    ensures { IfOk result (λ _. findings.new ≡ findings.old ++ flat_map (v6_of families.ghosts.eq to) (lots_of of_one_group reads.now)) }
{
    for lot in reads.chunk_by(came_from_one_group) {
        add_lot(alloc, to, lot, findings)?;
    }
    Ok(())
}

/// The marks of the signals of all arrivals.
fn marks_of(alloc: Global, net: &Net, arrivals: &[Arrival]) -> Result<Vec<Option<u32>>, NoMemory>
    ensures { IfOk result (λ marks. (a : Arrival) → Contains arrivals.now a → a.bit.sig < length net.now.graph.signals → IsMarked marks.items a.bit.sig) }
{
    let mut marks = unmarked(alloc, net)?;
    for arrival in arrivals {
        mark(&mut marks, arrival.bit);
    }
    Ok(marks)
}

/// Adds the findings of one register bit.
fn add_reader(
    alloc: Global,
    found: &Found<'_>,
    plain: &mut Table,
    arrivals: &[Arrival],
    marks: &[Option<u32>],
    below: &Below,
    to: Bit,
    findings: &mut List<Finding>,
) -> Result<(), NoMemory>
    ensures added { IfOk result (λ _. (grays : GrayReg → Bool) (rings : List Ring) (is_extra : Bit → Bit → Bool) → AreFound grays rings found.now →
        ShowsNet found.now.net.now [] plain.old → IsAll (IsArrival (design_in found.now) (syncs_in found.now)) arrival_key arrivals.now →
        AreMarked (arrivals.now) marks.now → ShowsBelow found.now.net.now marks.now below.now → is_register_bit found.now.net.now to ≡ true →
        AddsReaders grays rings is_extra found.now (to ∷ []) findings.old findings.new) }
    ensures unchanged { plain.new ≡ plain.old }
{
    if !reads_marked(found.net, below, to) || copied_bit(found.net, plain, to).is_some() {
        return Ok(());
    }
    let bits = marked_bits_read(alloc, found.net, plain, to, marks)?;
    let reads = reads_at(alloc, found, arrivals, bits.as_slice())?;
    add_lots(alloc, to, by_group(reads)?.as_slice(), findings)
}

/// Adds each register bit that is no plain copy, and reads arrivals of two or more families from one group.
pub fn add_v6(
    alloc: Global,
    found: &Found<'_>,
    plain: &mut Table,
    findings: &mut List<Finding>,
) -> Result<(), NoMemory>
    ensures added { IfOk result (λ _. (grays : GrayReg → Bool) (rings : List Ring) (is_extra : Bit → Bit → Bool) → AreFound grays rings found.now →
        ShowsNet found.now.net.now [] plain.old → AddsFindings grays rings is_extra found.now 6 findings.old findings.new) }
    ensures unchanged { plain.new ≡ plain.old }
{
    let bits = register_bits(alloc, found.net)?;
    let arrivals = arrivals(alloc, found, plain, bits.as_slice())?;
    let marks = marks_of(alloc, found.net, arrivals.as_slice())?;
    let below = Below::find(alloc, &found.net.graph, marks.as_slice())?;
    for to in bits.as_slice() {
        add_reader(
            alloc,
            found,
            plain,
            arrivals.as_slice(),
            marks.as_slice(),
            &below,
            *to,
            findings,
        )?;
    }
    Ok(())
}
