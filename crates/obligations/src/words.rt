//! Words and bits that enter a group by several first flops.
ghost use Rattle.std.specs.Prelude.{◌≡◌, ◌++◌, Bool, List, map, IfOk};
ghost use Rattle.cdc_base.specs.declared.bit.Bit.{Bit};
ghost use Rattle.cdc_model.specs.declared.scheme.GrayReg.{GrayReg};
ghost use Rattle.cdc_model.specs.declared.scheme.Load.{Load};
ghost use Rattle.cdc_model.specs.Design.{Design};
ghost use Rattle.cdc_model.specs.Listed.{sync_entry};
ghost use Rattle.cdc_model.specs.Ordered.{IsAscending};
ghost use Rattle.cdc_model.specs.Schemes.{Ring, Sync as Synchronizer, Trees};
ghost use Rattle.cdc_model.specs.Verdict.{gray_key};
ghost use Rattle.obligations.specs.Findings.{AddsFindings, AreAdded};
ghost use Rattle.obligations.specs.Given.{AreFound, design_in, syncs_in};
ghost use Rattle.obligations.specs.Lots.{AreInLots};
ghost use Rattle.obligations.specs.Words.{AreEntries, entry_of, word_key, entry_key, of_one_word, of_one_bit, has_several_bits, has_several_flops, has_several_clocks, crossing_of, v3_of, v4_of, v5_of};

use crate::Found;
use crate::covers::{first_flop, is_code};
use cdc_base::{Bit, List, NoMemory};
use cdc_model::{Crossing, Finding, GrayReg, Sync};
use domains::Domains;
use std::alloc::Global;

/// A first flop: the bit that it copies, and the group and the clock that this bit enters.
#[derive(Clone, Copy, PartialEq, Eq, Debug, Drop)]
pub struct Entry {
    pub from: Bit,
    pub to: Bit,
    pub group: u32,
    pub clock: u32,
}

/// All first flops, ascending.
pub fn entries(alloc: Global, found: &Found<'_>) -> Result<Vec<Entry>, NoMemory>
    ensures { IfOk result (λ entries. (grays : GrayReg → Bool) (rings : List Ring) → AreFound grays rings found.now → AreEntries (design_in found.now) (syncs_in found.now) entries.items) }
{
    let mut entries = Vec::new(alloc);
    for sync in found.syncs {
        if let Some(entry) = entry_of(found.domains, sync) {
            entries.push(entry).map_err(|_| NoMemory)?;
        }
    }
    Ok(entries)
}

/// The first flop of a synchronizer.
fn entry_of(domains: &Domains, sync: &Sync) -> Option<Entry>
    ensures { (s : Synchronizer) → sync.now ≡ sync_entry s → result ≡ entry_of domains.now s }
{
    let to = first_flop(sync)?;
    let group = domains.group_of(to)?;
    let clock = domains.clock_of(to)?;
    let from = sync.from;
    Some(Entry {
        from,
        to,
        group,
        clock,
    })
}

/// The first flops by source word and group, each such lot ascending.
fn by_word(alloc: Global, entries: &[Entry]) -> Result<Vec<Entry>, NoMemory>
    ensures { IfOk result (λ sorted. AreInLots of_one_word word_key entries.now sorted.items) }
{
    let mut sorted = entries.to_vec(alloc).map_err(|_| NoMemory)?;
    sorted
        .sort_by_key(|entry| (entry.from.sig, entry.group))
        .map_err(|_| NoMemory)?;
    Ok(sorted)
}

/// The first flops by source bit and group, each such lot ascending.
fn by_bit(alloc: Global, entries: &[Entry]) -> Result<Vec<Entry>, NoMemory>
    ensures { IfOk result (λ sorted. AreInLots of_one_bit entry_key entries.now sorted.items) }
{
    let mut sorted = entries.to_vec(alloc).map_err(|_| NoMemory)?;
    sorted
        .sort_by_key(|entry| (entry.from, entry.group))
        .map_err(|_| NoMemory)?;
    Ok(sorted)
}

fn have_one_word(entry: &Entry, next: &Entry) -> bool
    ensures { result ≡ of_one_word entry.now next.now }
{
    entry.from.sig == next.from.sig && entry.group == next.group
}

fn have_one_bit(entry: &Entry, next: &Entry) -> bool
    ensures { result ≡ of_one_bit entry.now next.now }
{
    entry.from == next.from && entry.group == next.group
}

/// Whether a lot that begins with this first flop copies several bits.
fn has_several_bits(first: &Entry, lot: &[Entry]) -> bool
    ensures { result ≡ has_several_bits first.now lot.now }
{
    lot.iter().any(|entry| entry.from != first.from)
}

/// Whether a lot that begins with this first flop has several.
fn has_several_flops(first: &Entry, lot: &[Entry]) -> bool
    ensures { result ≡ has_several_flops first.now lot.now }
{
    lot.iter().any(|entry| entry.to != first.to)
}

/// Whether a lot that begins with this first flop has several clocks.
fn has_several_clocks(first: &Entry, lot: &[Entry]) -> bool
    ensures { result ≡ has_several_clocks first.now lot.now }
{
    lot.iter().any(|entry| entry.clock != first.clock)
}

fn crossings_of(alloc: Global, lot: &[Entry]) -> Result<List<Crossing>, NoMemory>
    ensures { IfOk result (λ crossings. crossings ≡ map crossing_of lot.now) }
{
    let mut crossings = List::new(alloc);
    for entry in lot {
        crossings.push(Crossing {
            from: entry.from,
            to: entry.to,
        })?;
    }
    Ok(crossings)
}

/// Adds each word, two or more of whose bits enter a group, and which is no Gray code.
pub fn add_v3(
    alloc: Global,
    found: &Found<'_>,
    entries: &[Entry],
    findings: &mut List<Finding>,
) -> Result<(), NoMemory>
    ensures { IfOk result (λ _. (grays : GrayReg → Bool) (rings : List Ring) (is_extra : Bit → Bit → Bool) → AreFound grays rings found.now →
        AreEntries (design_in found.now) (syncs_in found.now) entries.now → AddsFindings grays rings is_extra found.now 3 findings.old findings.new) }
{
    let sorted = by_word(alloc, entries)?;
    for lot in sorted.as_slice().chunk_by(have_one_word) {
        add_word(alloc, found.grays, lot, findings)?;
    }
    Ok(())
}

/// Adds the lot of a word, where it copies several bits and the word is no Gray code.
fn add_word(
    alloc: Global,
    grays: &[GrayReg],
    lot: &[Entry],
    findings: &mut List<Finding>,
) -> Result<(), NoMemory>
    ensures { IfOk result (λ _. IsAscending gray_key grays.now → findings.new ≡ findings.old ++ v3_of grays.now lot.now) }
{
    let Some(entry) = lot.first() else {
        return Ok(());
    };
    if has_several_bits(entry, lot) && !is_code(grays, entry.from.sig) {
        findings.push(Finding::V3 {
            word: entry.from.sig,
            group: entry.group,
            flops: crossings_of(alloc, lot)?,
        })?;
    }
    Ok(())
}

/// Adds each bit that enters a group by two or more first flops.
pub fn add_v4(
    alloc: Global,
    entries: &[Entry],
    findings: &mut List<Finding>,
) -> Result<(), NoMemory>
    ensures { IfOk result (λ _. (d : Design) (t : Trees) (grays : List GrayReg) (syncs : List Synchronizer) (rings : List Ring) (loads : List Load) (is_extra : Bit → Bit → Bool) →
        AreEntries d syncs entries.now → AreAdded d t grays syncs rings loads is_extra 4 findings.old findings.new) }
{
    let sorted = by_bit(alloc, entries)?;
    for lot in sorted.as_slice().chunk_by(have_one_bit) {
        add_bit(alloc, lot, findings)?;
    }
    Ok(())
}

/// Adds the lot of a bit, where it has several first flops.
fn add_bit(alloc: Global, lot: &[Entry], findings: &mut List<Finding>) -> Result<(), NoMemory>
    ensures { IfOk result (λ _. findings.new ≡ findings.old ++ v4_of lot.now) }
{
    let Some(entry) = lot.first() else {
        return Ok(());
    };
    if has_several_flops(entry, lot) {
        findings.push(Finding::V4 {
            from: entry.from,
            group: entry.group,
            flops: crossings_of(alloc, lot)?,
        })?;
    }
    Ok(())
}

/// Adds each word that enters a group by first flops of two or more clocks.
pub fn add_v5(
    alloc: Global,
    entries: &[Entry],
    findings: &mut List<Finding>,
) -> Result<(), NoMemory>
    ensures { IfOk result (λ _. (d : Design) (t : Trees) (grays : List GrayReg) (syncs : List Synchronizer) (rings : List Ring) (loads : List Load) (is_extra : Bit → Bit → Bool) →
        AreEntries d syncs entries.now → AreAdded d t grays syncs rings loads is_extra 5 findings.old findings.new) }
{
    let sorted = by_word(alloc, entries)?;
    for lot in sorted.as_slice().chunk_by(have_one_word) {
        add_clocked_word(alloc, lot, findings)?;
    }
    Ok(())
}

/// Adds the lot of a word, where it has several clocks.
fn add_clocked_word(
    alloc: Global,
    lot: &[Entry],
    findings: &mut List<Finding>,
) -> Result<(), NoMemory>
    ensures { IfOk result (λ _. findings.new ≡ findings.old ++ v5_of lot.now) }
{
    let Some(entry) = lot.first() else {
        return Ok(());
    };
    if has_several_clocks(entry, lot) {
        findings.push(Finding::V5 {
            word: entry.from.sig,
            group: entry.group,
            flops: crossings_of(alloc, lot)?,
        })?;
    }
    Ok(())
}
