//! Crossings that no scheme guards.
ghost use Rattle.std.specs.Prelude.{◌≡◌, ◌≢◌, true, [], Some, Bool, List, length, map, Contains, ◌↔◌, slice_get, IfOk};
ghost use Rattle.cdc_base.specs.declared.bit.Bit.{Bit};
ghost use Rattle.cdc_model.specs.declared.scheme.Cover.{Cover as CoverOf};
ghost use Rattle.cdc_model.specs.declared.scheme.Crossing.{Crossing as CrossingOf};
ghost use Rattle.cdc_model.specs.declared.scheme.GrayReg.{GrayReg};
ghost use Rattle.cdc_model.specs.Listed.{sync_entry};
ghost use Rattle.cdc_model.specs.Nets.{is_register_bit};
ghost use Rattle.cdc_model.specs.Ordered.{IsAll, IsAscending};
ghost use Rattle.cdc_model.specs.Schemes.{Sync as SyncOf, Ring};
ghost use Rattle.cdc_model.specs.Tables.{ShowsNet};
ghost use Rattle.cdc_model.specs.Verdict.{IsOpen, cover_key, crossing_key, sync_key};
ghost use Rattle.obligations.specs.declared.bare.Lack.{Lack as LackOf};
ghost use Rattle.obligations.specs.declared.bare.Uncovered.{Uncovered as UncoveredOf};
ghost use Rattle.obligations.specs.Bare.{AddsCrossings, AreHanded, CanWalk, ReadsSource, finding_at, finding_by, uncovered_key};
ghost use Rattle.obligations.specs.Findings.{HasPath, HavePaths, IsFindingIn, finding_of, number_of};
ghost use Rattle.obligations.specs.Given.{AreFound, design_in, syncs_in, trees_in};

use crate::Found;
use crate::covers::first_flop;
use cdc_base::{List, NoMemory};
use cdc_model::view::copied_bit;
use cdc_model::{Cover, Crossing, Finding, Sync};
use cofactor::Table;
use crossings::Paths;
use std::alloc::Global;

/// What a crossing lacks.
#[derive(Clone, Copy, PartialEq, Eq, Debug, Drop)]
pub enum Lack {
    /// It is a plain copy that begins no synchronizer.
    Flops,
    /// A ring gates it, and doesn't hold its data.
    Hold { ring: u64 },
    /// A ring holds its data, and doesn't gate it.
    Gate { ring: u64 },
    /// It has no part of a scheme.
    Scheme,
}

/// A crossing that no scheme guards.
#[derive(Clone, Copy, PartialEq, Eq, Debug, Drop)]
pub struct Uncovered {
    pub crossing: Crossing,
    pub lack: Lack,
}

/// Whether the crossing is covered. The covers are ordered as crossings are.
fn is_covered(covers: &[Cover], crossing: &Crossing) -> bool
    ensures { IsAscending cover_key covers.now → (result ≡ true) ↔ ((c : CoverOf) × Contains covers.now c × (c.from ≡ crossing.now.from) × (c.to ≡ crossing.now.to)) }
{
    covers
        .binary_search_by_key(
            &(crossing.to, crossing.from),
            |cover| (cover.to, cover.from),
        )
        .is_ok()
}

/// Whether the crossing is one of these, which are in order.
fn is_extra(extra: &[Crossing], crossing: &Crossing) -> bool
    ensures { IsAscending crossing_key extra.now → (result ≡ true) ↔ Contains extra.now crossing.now }
{
    extra
        .binary_search_by_key(
            &(crossing.to, crossing.from),
            |other| (other.to, other.from),
        )
        .is_ok()
}

/// Whether the crossing ends in a plain copy that is no first flop.
fn is_bare_copy(found: &Found<'_>, table: &Table, crossing: &Crossing) -> bool
    ensures { (grays : GrayReg → Bool) (rings : List Ring) → AreFound grays rings found.now → ShowsNet found.now.net.now [] table.now → is_register_bit found.now.net.now crossing.now.to ≡ true →
        (result ≡ true) ↔ (((design_in found.now).copied crossing.now.to ≡ Some crossing.now.from) × ((s : SyncOf) → Contains (syncs_in found.now) s → s.first ≢ crossing.now.to)) }
{
    copied_bit(found.net, table, crossing.to) == Some(crossing.from)
        && !is_first_flop(found.syncs, crossing)
}

/// Whether the crossing ends in a first flop. The synchronizers are ordered by these.
fn is_first_flop(syncs: &[Sync], crossing: &Crossing) -> bool
    ensures { (list : List SyncOf) → syncs.now ≡ map sync_entry list → IsAscending sync_key list → (result ≡ true) ↔ ((s : SyncOf) × Contains list s × (s.first ≡ crossing.now.to)) }
{
    syncs
        .binary_search_by_key(&Some(crossing.to), first_flop)
        .is_ok()
}

/// What the crossing at a place of the list lacks, where no scheme guards it and it is no bare copy.
fn lack_of(found: &Found<'_>, place: usize, crossing: &Crossing) -> Lack
    ensures { (grays : GrayReg → Bool) (rings : List Ring) (is_extra : Bit → Bit → Bool) → AreFound grays rings found.now → slice_get found.now.crossings.now place ≡ Some crossing.now →
        IsOpen (design_in found.now) (trees_in grays found.now) found.now.grays.now (syncs_in found.now) rings found.now.loads.now is_extra crossing.now.from crossing.now.to →
        (lack : LackOf) → (result ≡ lack) ↔ IsFindingIn grays rings is_extra found.now (finding_by crossing.now lack) }
{
    if let Some(ring) = found.guards.first_blind(place) {
        return Lack::Hold { ring };
    }
    match found.guards.first_held(found.domains, crossing) {
        Some(ring) => Lack::Gate { ring },
        None => Lack::Scheme,
    }
}

/// What the crossing at a place of the list lacks; None where it is covered or extra.
fn find_lack(
    found: &Found<'_>,
    table: &Table,
    covers: &[Cover],
    extra: &[Crossing],
    place: usize,
    crossing: &Crossing,
) -> Option<Lack>
    ensures { (grays : GrayReg → Bool) (rings : List Ring) (is_extra : Bit → Bit → Bool) → AreHanded grays rings is_extra found.now covers.now extra.now → ShowsNet found.now.net.now [] table.now →
        slice_get found.now.crossings.now place ≡ Some crossing.now → (lack : LackOf) → (result ≡ Some lack) ↔ IsFindingIn grays rings is_extra found.now (finding_by crossing.now lack) }
{
    if is_covered(covers, crossing) {
        return None;
    }
    if is_bare_copy(found, table, crossing) {
        return Some(Lack::Flops);
    }
    if is_extra(extra, crossing) {
        return None;
    }
    Some(lack_of(found, place, crossing))
}

/// All crossings that neither a scheme nor anything else guards, in their order. `covers` and `extra` are ordered as
/// crossings are.
pub fn find_uncovered(
    alloc: Global,
    found: &Found<'_>,
    covers: &[Cover],
    extra: &[Crossing],
    plain: &Table,
) -> Result<Vec<Uncovered>, NoMemory>
    ensures exact { IfOk result (λ uncovered. (grays : GrayReg → Bool) (rings : List Ring) (is_extra : Bit → Bit → Bool) → AreHanded grays rings is_extra found.now covers.now extra.now →
        ShowsNet found.now.net.now [] plain.now → IsAll (λ u. IsFindingIn grays rings is_extra found.now (finding_at u)) uncovered_key uncovered.items) }
{
    let mut uncovered = Vec::new(alloc);
    for (place, crossing) in found.crossings.iter().enumerate() {
        if let Some(lack) = find_lack(found, plain, covers, extra, place, crossing) {
            uncovered
                .push(Uncovered {
                    crossing: *crossing,
                    lack,
                })
                .map_err(|_| NoMemory)?;
        }
    }
    Ok(uncovered)
}

/// The number of the finding of a crossing that lacks this.
fn number_of(lack: Lack) -> u8
    ensures { (crossing : CrossingOf) → result ≡ number_of (finding_by crossing lack) }
{
    match lack {
        Lack::Scheme => 1,
        Lack::Flops => 2,
        Lack::Hold { .. } => 7,
        Lack::Gate { .. } => 8,
    }
}

/// The finding of an uncovered crossing, with the crossing's path.
fn finding_of(
    alloc: Global,
    found: &Found<'_>,
    paths: &mut Paths,
    plain: &Table,
    uncovered: &Uncovered,
) -> Result<Finding, NoMemory>
    ensures finding { IfOk result (λ finding. finding_of finding ≡ finding_at uncovered.now) }
    ensures path { IfOk result (λ finding. CanWalk found.now.net.now plain.now paths.old → ReadsSource found.now.net.now uncovered.now.crossing → HasPath found.now.net.now finding) }
    ensures kept { length paths.new ≡ length paths.old }
{
    let Crossing { from, to } = uncovered.crossing;
    let path = paths.path(alloc, found.net, plain, &uncovered.crossing)?;
    Ok(match uncovered.lack {
        Lack::Scheme => Finding::V1 { from, to, path },
        Lack::Flops => Finding::V2 { from, to, path },
        Lack::Hold { ring } => Finding::V7 {
            from,
            to,
            ring,
            path,
        },
        Lack::Gate { ring } => Finding::V8 {
            from,
            to,
            ring,
            path,
        },
    })
}

/// Adds the findings of uncovered crossings that have this number: 1, 2, 7 or 8.
pub fn add_crossings(
    alloc: Global,
    found: &Found<'_>,
    paths: &mut Paths,
    plain: &Table,
    uncovered: &[Uncovered],
    number: u8,
    findings: &mut List<Finding>,
) -> Result<(), NoMemory>
    ensures added { IfOk result (λ _. AddsCrossings number uncovered.now findings.old findings.new) }
    ensures paths { IfOk result (λ _. CanWalk found.now.net.now plain.now paths.old → ((u : UncoveredOf) → Contains uncovered.now u → ReadsSource found.now.net.now u.crossing) →
        HavePaths found.now.net.now findings.old → HavePaths found.now.net.now findings.new) }
    ensures kept { length paths.new ≡ length paths.old }
{
    for uncovered in uncovered {
        if number_of(uncovered.lack) == number {
            findings.push(finding_of(alloc, found, paths, plain, uncovered)?)?;
        }
    }
    Ok(())
}
