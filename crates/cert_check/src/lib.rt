//! Certificates: read, written and checked.
#![tactic(auto)]

ghost use Rattle.std.specs.Prelude.{◌≡◌, ◌↔◌, ◌<◌, ◌+◌, ◌^◌, Bool, true, List, [], map, length, Contains, IfOk};
ghost use Rattle.cdc_base.specs.declared.bit.Bit.{Bit};
ghost use Rattle.cdc_model.specs.Found.{crossings_of};
ghost use Rattle.cdc_model.specs.Listed.{sync_entry};
ghost use Rattle.cdc_model.specs.Nets.{design_of};
ghost use Rattle.cdc_model.specs.Schemes.{Sync as SyncOf, AreSyncs};
ghost use Rattle.cdc_model.specs.Tables.{ShowsNet};
ghost use Rattle.cert_check.specs.Checked.{AreCrossingsChecked, CanCheck, DoesHold};
ghost use Rattle.cert_check.specs.OnNets.{AreGoodOn, IsCertifiedOn, IsCheckedOn, IsFoundBadOn, trees_by};
ghost use Rattle.cert_check.specs.Promised.{IsSoundBy, IsTogetherBy, KeepOrder};

mod grays;
pub mod laws;
mod loads;
mod meetings;
mod rings;
mod served;
mod syncs;

use crate::grays::first_bad_gray;
use crate::loads::first_bad_load;
use crate::meetings::first_meeting;
use crate::rings::first_bad_ring;
use crate::served::{Walked, first_bare, served};
use crate::syncs::first_bad_sync;
use cdc_base::NoMemory;
use cdc_model::view::plain_table;
use cdc_model::{Crossing, Extra};
use cell_graph::Net;
pub use cert_text::{Certificate, FifoPair, read, write};
use cofactor::Table;
use domains::Domains;
use fifo_scheme::{FifosOf, fifos_of};
use std::alloc::Global;

/// The answer to a certificate: it holds, of so many crossings; or the line of the first item that isn't what it is
/// listed as, counted from 1; or the first crossing that nothing serves; or the first word, by its signal, and group,
/// which the word enters by several synchronizers that no Gray register excuses.
#[derive(Clone, Copy, PartialEq, Eq, Debug, Drop)]
pub enum Checked {
    Holds { crossings: u32 },
    BadItem { line: u32 },
    Bare { crossing: Crossing },
    Word { word: u32, group: u32 },
}

/// Checks a certificate, without a search for schemes. A pair of counts stands for each FIFO between them over the listed
/// synchronizers and Gray registers, and for one at least; the crossings of these FIFOs are served.
pub fn check(
    alloc: Global,
    net: &Net,
    domains: &Domains,
    certificate: &Certificate,
) -> Result<Checked, NoMemory>
    ensures exact { IfOk result (λ checked. CanCheck net.now domains.now certificate.now → IsCheckedOn net.now domains.now certificate.now checked) }
    ensures certified { IfOk result (λ checked. CanCheck net.now domains.now certificate.now → IsCertifiedOn net.now domains.now certificate.now → DoesHold checked) }
    ensures sound { IfOk result (λ checked. CanCheck net.now domains.now certificate.now → DoesHold checked → IsSoundBy net.now domains.now certificate.now) }
    ensures together { IfOk result (λ checked. CanCheck net.now domains.now certificate.now → DoesHold checked → IsTogetherBy net.now domains.now certificate.now) }
    ensures order { IfOk result (λ checked. CanCheck net.now domains.now certificate.now → DoesHold checked → KeepOrder net.now domains.now certificate.now) }
{
    let checked = answer(alloc, net, domains, certificate)?;
    Ok(checked)
}

/// What `check` answers.
fn answer(
    alloc: Global,
    net: &Net,
    domains: &Domains,
    certificate: &Certificate,
) -> Result<Checked, NoMemory>
    ensures { IfOk result (λ checked. CanCheck net.now domains.now certificate.now → IsCheckedOn net.now domains.now certificate.now checked) }
{
    let mut plain = plain_table(alloc, net)?;
    let bad = bad_line(alloc, net, domains, certificate, &mut plain)?;
    match bad {
        Some(line) => Ok(Checked::BadItem { line }),
        None => check_fifos(alloc, net, domains, certificate, &mut plain),
    }
}

/// The line of the first synchronizer, Gray register, ring or load that isn't what it is listed as. The table is one
/// without a cube.
fn bad_line(
    alloc: Global,
    net: &Net,
    domains: &Domains,
    certificate: &Certificate,
    plain: &mut Table,
) -> Result<Option<u32>, NoMemory>
    ensures exact { IfOk result (λ line. CanCheck net.now domains.now certificate.now → ShowsNet net.now [] plain.old → IsFoundBadOn net.now domains.now certificate.now line) }
    ensures unchanged { plain.new ≡ plain.old }
{
    let syncs = certificate.syncs.as_slice();
    let grays = certificate.grays.as_slice();
    let rings = certificate.rings.as_slice();
    let loads = certificate.loads.as_slice();
    let sync = first_bad_sync(alloc, net, domains, plain, syncs)?;
    if let Some(place) = sync {
        return Ok(Some(line_of(FIRST_LINE, place)));
    }
    let gray_lines = FIRST_LINE.saturating_add(syncs.len());
    let gray = first_bad_gray(alloc, net, domains, plain, grays)?;
    if let Some(place) = gray {
        return Ok(Some(line_of(gray_lines, place)));
    }
    let ring_lines = gray_lines.saturating_add(grays.len());
    let ring = first_bad_ring(alloc, net, domains, plain, syncs, rings)?;
    if let Some(place) = ring {
        return Ok(Some(line_of(ring_lines, place)));
    }
    let load_lines = ring_lines.saturating_add(rings.len());
    let load = first_bad_load(alloc, net, domains, plain, rings, loads)?;
    match load {
        Some(place) => Ok(Some(line_of(load_lines, place))),
        None => Ok(None),
    }
}

/// The line of the first item.
const FIRST_LINE: usize = 2;

/// The line of an item, by the line of its kind's first one.
fn line_of(first: usize, place: usize) -> u32
    ensures { first + place < 2 ^ 32 → result ≡ first + place }
{
    u32::try_from(first.saturating_add(place)).unwrap_or(u32::MAX)
}

/// Checks what items that are all good leave: the pairs of counts, the crossings, and the words. The table is one without
/// a cube.
fn check_fifos(
    alloc: Global,
    net: &Net,
    domains: &Domains,
    certificate: &Certificate,
    plain: &mut Table,
) -> Result<Checked, NoMemory>
    ensures { IfOk result (λ checked. CanCheck net.now domains.now certificate.now → ShowsNet net.now [] plain.old → AreGoodOn net.now domains.now certificate.now →
        IsCheckedOn net.now domains.now certificate.now checked) }
{
    let pairs = certificate.fifos.as_slice();
    if pairs.is_empty() {
        return check_crossings(alloc, net, domains, certificate, &[], plain);
    }
    let syncs = certificate.syncs.as_slice();
    let grays = certificate.grays.as_slice();
    let found = fifos_of(alloc, net, domains, syncs, grays, pairs)?;
    match found {
        FifosOf::Missing { place } => {
            let line = fifo_line(certificate, place);
            Ok(Checked::BadItem { line })
        }
        FifosOf::Found { fifos } => {
            check_crossings(alloc, net, domains, certificate, fifos.covers(), plain)
        }
    }
}

/// The line of a pair of counts, by its place.
fn fifo_line(certificate: &Certificate, place: u32) -> u32
    ensures { 2 + (length certificate.now.syncs + (length certificate.now.grays + (length certificate.now.rings + (length certificate.now.loads + place)))) < 2 ^ 32 →
        result ≡ 2 + (length certificate.now.syncs + (length certificate.now.grays + (length certificate.now.rings + (length certificate.now.loads + place)))) }
{
    let gray_lines = FIRST_LINE.saturating_add(certificate.syncs.len());
    let ring_lines = gray_lines.saturating_add(certificate.grays.len());
    let load_lines = ring_lines.saturating_add(certificate.rings.len());
    let fifo_lines = load_lines.saturating_add(certificate.loads.len());
    line_of(fifo_lines, place as usize)
}

/// Checks the crossings, of which the further ones are served, and the words, where all items are good. The table is one
/// without a cube.
fn check_crossings(
    alloc: Global,
    net: &Net,
    domains: &Domains,
    certificate: &Certificate,
    extra: &[Crossing],
    plain: &mut Table,
) -> Result<Checked, NoMemory>
    ensures { IfOk result (λ checked. CanCheck net.now domains.now certificate.now → ShowsNet net.now [] plain.old →
        (syncs : List SyncOf) (is_extra : Bit → Bit → Bool) →
        certificate.now.syncs ≡ map sync_entry syncs → AreSyncs (design_of net.now domains.now) (trees_by net.now certificate.now) syncs →
        ((b x : Bit) → (is_extra b x ≡ true) ↔ Contains extra.now (record { from = b; to = x })) →
        AreCrossingsChecked (design_of net.now domains.now) (trees_by net.now certificate.now) (crossings_of net.now domains.now)
        syncs is_extra certificate.now checked) }
{
    let syncs = certificate.syncs.as_slice();
    let served = served(alloc, syncs, certificate.loads.as_slice(), extra)?;
    let walked = first_bare(alloc, net, domains, plain, served.as_slice())?;
    match walked {
        Walked::Bare(crossing) => Ok(Checked::Bare { crossing }),
        Walked::Served(crossings) => {
            let meeting = first_meeting(alloc, domains, syncs, certificate.grays.as_slice())?;
            match meeting {
                Some((word, group)) => Ok(Checked::Word { word, group }),
                None => Ok(Checked::Holds { crossings }),
            }
        }
    }
}
