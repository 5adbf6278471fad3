//! Which crossings the schemes guard.
ghost use Rattle.std.specs.Prelude.{◌≡◌, ◌++◌, Some, Bool, List, map, length, ◌≤◌, slice_get, IfOk, OnOk};
ghost use Rattle.cdc_model.specs.declared.scheme.GrayReg.{GrayReg as GrayRegOf};
ghost use Rattle.cdc_model.specs.Listed.{sync_entry};
ghost use Rattle.cdc_model.specs.Ordered.{IsAll, IsAscending};
ghost use Rattle.cdc_model.specs.Schemes.{Sync as SyncOf, Ring as RingOf, flops};
ghost use Rattle.cdc_model.specs.Verdict.{IsCover, cover_key, gray_key, is_code};
ghost use Rattle.obligations.specs.Covers.{cover_by_load, cover_by_sync, AreFew};
ghost use Rattle.obligations.specs.Given.{AreFound, syncs_in};

use crate::Found;
use cdc_base::{Bit, List, NoMemory};
use cdc_model::{Cover, GrayReg, Load, Scheme, Sync};
use std::alloc::Global;

/// Whether the word is the code of a Gray register. The registers ascend by it.
pub fn is_code(grays: &[GrayReg], word: u32) -> bool
    ensures { IsAscending gray_key grays.now → result ≡ is_code grays.now word }
{
    grays
        .binary_search_by_key(&word, |register| register.gray)
        .is_ok()
}

pub fn first_flop(sync: &Sync) -> Option<Bit>
    ensures { result ≡ slice_get sync.now.flops 0 }
{
    sync.flops.as_slice().first().copied()
}

/// The cover of a synchronizer's first flop.
fn cover_of_sync(grays: &[GrayReg], sync: &Sync) -> Option<Cover>
    ensures { (s : SyncOf) → IsAscending gray_key grays.now → sync.now ≡ sync_entry s → length (flops s) ≤ 255 → result ≡ Some (cover_by_sync grays.now s) }
{
    let stages = u8::try_from(sync.flops.len()).unwrap_or(u8::MAX);
    let scheme = if is_code(grays, sync.from.sig) {
        Scheme::Gray { stages }
    } else {
        Scheme::TwoFlop { stages }
    };
    let to = first_flop(sync)?;
    Some(Cover {
        from: sync.from,
        to,
        scheme,
    })
}

fn cover_of_load(load: &Load) -> Cover
    ensures { result ≡ cover_by_load load.now }
{
    let ring = load.ring;
    let scheme = if load.recirculating {
        Scheme::Recirc { ring }
    } else {
        Scheme::Handshake { ring }
    };
    Cover {
        from: load.from,
        to: load.to,
        scheme,
    }
}

/// Adds the covers of synchronizers.
fn add_sync_covers(
    syncs: &[Sync],
    grays: &[GrayReg],
    covers: &mut Vec<Cover>,
) -> Result<(), NoMemory>
    ensures { OnOk result ((list : List SyncOf) → syncs.now ≡ map sync_entry list → IsAscending gray_key grays.now → AreFew list →
        covers.new.items ≡ covers.old.items ++ map (cover_by_sync grays.now) list) }
{
    for sync in syncs {
        if let Some(cover) = cover_of_sync(grays, sync) {
            covers.push(cover).map_err(|_| NoMemory)?;
        }
    }
    Ok(())
}

/// Adds the covers of loads.
fn add_load_covers(loads: &[Load], covers: &mut Vec<Cover>) -> Result<(), NoMemory>
    ensures { OnOk result (covers.new.items ≡ covers.old.items ++ map cover_by_load loads.now) }
{
    for load in loads {
        covers.push(cover_of_load(load)).map_err(|_| NoMemory)?;
    }
    Ok(())
}

/// The crossings that synchronizers and rings guard, by `to`, then `from`.
pub fn covers(alloc: Global, found: &Found<'_>) -> Result<List<Cover>, NoMemory>
    ensures exact { IfOk result (λ covers. (grays : GrayRegOf → Bool) (rings : List RingOf) → AreFound grays rings found.now →
        IsAll (IsCover found.now.grays.now (syncs_in found.now) found.now.loads.now) cover_key covers) }
{
    let mut covers = Vec::new(alloc);
    add_sync_covers(found.syncs, found.grays, &mut covers)?;
    add_load_covers(found.loads, &mut covers)?;
    covers.sort_unstable_by_key(|cover| (cover.to, cover.from));
    Ok(List::from_vec(covers))
}
