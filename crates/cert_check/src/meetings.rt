//! Words that enter a group by several synchronizers.
ghost use Rattle.std.specs.Prelude.{◌≡◌, ◌++◌, Bool, List, map, IfOk};
ghost use Rattle.std.specs.List.Sorted.{IsPermutation, IsSorted};
ghost use Rattle.cell_graph.specs.declared.net.Net.{Net};
ghost use Rattle.domains.specs.Fit.{Fit};
ghost use Rattle.domains.specs.Nets.{IsNet};
ghost use Rattle.cdc_model.specs.declared.scheme.GrayReg.{GrayReg as GrayRegOf};
ghost use Rattle.cdc_model.specs.Listed.{sync_entry};
ghost use Rattle.cdc_model.specs.Nets.{HasNextCells, design_of, net_trees};
ghost use Rattle.cdc_model.specs.Schemes.{Sync as SyncOf, AreSyncs};
ghost use Rattle.cdc_model.specs.Verdict.{is_code};
ghost use Rattle.cert_check.specs.contracts.meetings.EntryOrd.TheImpl as order;
ghost use Rattle.cert_check.specs.Checked.{IsFoundMeeting};
ghost use Rattle.cert_check.specs.Meetings.{AreCodes, IsFirstPair, entries_of, entry_of, entry_there, meet};

use cdc_base::{Bit, NoMemory};
use cdc_model::{GrayReg, Sync};
use domains::Domains;
use std::alloc::Global;

/// A synchronizer by its source's word, the group that it enters, and the bit of the word.
#[derive(Clone, Copy, PartialEq, Eq, PartialOrd, Ord, Debug, Drop)]
struct Entry {
    word: u32,
    group: u32,
    at: u8,
}

/// The first word and group where two synchronizers lead from the word into the group: from one bit, or from two though
/// no listed Gray register has the word as its code.
pub fn first_meeting(
    alloc: Global,
    domains: &Domains,
    syncs: &[Sync],
    grays: &[GrayReg],
) -> Result<Option<(u32, u32)>, NoMemory>
    ensures { IfOk result (λ found. (net : Net) (is_gray : GrayRegOf → Bool) (ss : List SyncOf) → IsNet net → HasNextCells net → Fit net domains.now → syncs.now ≡ map sync_entry ss →
        AreSyncs (design_of net domains.now) (net_trees net is_gray) ss → IsFoundMeeting (design_of net domains.now) ss grays.now found) }
{
    let codes = codes(alloc, grays)?;
    let entries = entries(alloc, domains, syncs)?;
    Ok(first_pair(codes.as_slice(), entries.as_slice()))
}

/// The word and group of the first entry that meets the one behind it.
fn first_pair(codes: &[u32], entries: &[Entry]) -> Option<(u32, u32)>
    ensures { (grays : List GrayRegOf) → AreCodes grays codes.now → IsFirstPair grays entries.now result }
{
    for place in 1..entries.len() {
        let one = entries[place - 1];
        if meet(codes, one, entries[place]) {
            return Some((one.word, one.group));
        }
    }
    None
}

/// Whether both lead from one word into one group, and from one bit of it or the word is no code.
fn meet(codes: &[u32], one: Entry, next: Entry) -> bool
    ensures { (grays : List GrayRegOf) → AreCodes grays codes.now → result ≡ meet grays one next }
{
    one.word == next.word
        && one.group == next.group
        && (one.at == next.at || !is_code(codes, one.word))
}

fn is_code(codes: &[u32], word: u32) -> bool
    ensures { (grays : List GrayRegOf) → AreCodes grays codes.now → result ≡ is_code grays word }
{
    codes.binary_search(&word).is_ok()
}

/// The codes of the Gray registers, ascending.
fn codes(alloc: Global, grays: &[GrayReg]) -> Result<Vec<u32>, NoMemory>
    ensures { IfOk result (λ codes. AreCodes grays.now codes.items) }
{
    let mut codes = each_code(alloc, grays)?;
    codes.sort_unstable();
    Ok(codes)
}

fn each_code(alloc: Global, grays: &[GrayReg]) -> Result<Vec<u32>, NoMemory>
    ensures { IfOk result (λ codes. codes.items ≡ map (λ (y : GrayRegOf). y.gray) grays.now) }
{
    let mut codes = Vec::new(alloc);
    for gray in grays {
        codes.push(gray.gray).map_err(|_| NoMemory)?;
    }
    Ok(codes)
}

/// The synchronizers by word, group and bit.
fn entries(alloc: Global, domains: &Domains, syncs: &[Sync]) -> Result<Vec<Entry>, NoMemory>
    ensures all { IfOk result (λ entries. IsPermutation (entries_of domains.now syncs.now) entries.items) }
    ensures sorted { IfOk result (λ entries. IsSorted order.ghosts.cmp entries.items) }
{
    let mut entries = each_entry(alloc, domains, syncs)?;
    entries.sort_unstable();
    Ok(entries)
}

fn each_entry(alloc: Global, domains: &Domains, syncs: &[Sync]) -> Result<Vec<Entry>, NoMemory>
    ensures { IfOk result (λ entries. entries.items ≡ entries_of domains.now syncs.now) }
{
    let mut entries = Vec::new(alloc);
    for sync in syncs {
        add_entry(domains, sync, &mut entries)?;
    }
    Ok(entries)
}

/// Adds a synchronizer, if its first flop has a group.
fn add_entry(domains: &Domains, sync: &Sync, entries: &mut Vec<Entry>) -> Result<(), NoMemory>
    ensures { IfOk result (λ _. entries.new.items ≡ entries.old.items ++ entry_there (entry_of domains.now sync.now)) }
{
    match entry_of(domains, sync) {
        Some(entry) => entries.push(entry).map_err(|_| NoMemory),
        None => Ok(()),
    }
}

fn entry_of(domains: &Domains, sync: &Sync) -> Option<Entry>
    ensures { result ≡ entry_of domains.now sync.now }
{
    let first = sync.flops.as_slice().first()?;
    let group = domains.group_of(*first)?;
    let Bit { sig, at } = sync.from;
    Some(Entry {
        word: sig,
        group,
        at,
    })
}
