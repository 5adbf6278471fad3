//! The verdict on a net.
#![tactic(auto)]

ghost use Rattle.std.specs.Prelude.{◌≡◌, ◌<◌, ℕ, [], Bool, true, List, length, map, IfOk, IfErr};
ghost use Rattle.cdc_base.specs.declared.bit.Bit.{Bit};
ghost use Rattle.cdc_base.specs.declared.limits.TheConstants.{MAX_CROSSINGS};
ghost use Rattle.refusals.specs.Limits.{HasCause};
ghost use Rattle.cdc_model.specs.declared.scheme.GrayReg.{GrayReg as GrayRegOf};
ghost use Rattle.cdc_model.specs.declared.scheme.Ring.{Ring as RingEntry};
ghost use Rattle.cdc_model.specs.Facts.{none_extra};
ghost use Rattle.cdc_model.specs.Found.{crossings_of};
ghost use Rattle.cdc_model.specs.Listed.{IsVerdictOf};
ghost use Rattle.cdc_model.specs.Nets.{design_of, is_register_bit, net_trees};
ghost use Rattle.cdc_model.specs.Runs.{Trace, IsRun};
ghost use Rattle.cdc_model.specs.Schemes.{Ring as RingOf};
ghost use Rattle.cdc_model.specs.Sound.{Sound};
ghost use Rattle.cdc_model.specs.Tables.{ShowsNet};
ghost use Rattle.cdc_model.specs.Together.{IsTogether};
ghost use Rattle.obligations.specs.Bare.{AreHanded};
ghost use Rattle.obligations.specs.Findings.{AreFindingsIn, HavePaths};
ghost use Rattle.obligations.specs.Judged.{CanAudit};
ghost use Rattle.obligations.specs.Schemes.{AreSchemes};
ghost use Rattle.refusals.specs.Numbers.{HasNumberIn, crossing_numbers};

pub mod arrivals;
pub mod bare;
pub mod covers;
pub mod schemes;
pub mod words;

use arrivals::add_v6;
use bare::{add_crossings, find_uncovered};
use cdc_base::{List, NoMemory, Stop};
use cdc_model::laws::clean_net_is_sound;
use cdc_model::view::plain_table;
use cdc_model::{Cover, Crossing, Extra, Finding, GrayReg, Load, NoExtra, Sync, Verdict};
use cell_graph::Net;
use cofactor::Table;
use covers::covers;
use crossings::Paths;
use domains::Domains;
use mux_recirc::Guards;
use schemes::{Schemes, copied};
use std::alloc::Global;
use words::{add_v3, add_v4, add_v5, entries};

/// A design and what was found in it.
#[derive(Clone, Copy, Drop)]
pub struct Found<'a> {
    pub net: &'a Net,
    pub domains: &'a Domains,
    pub crossings: &'a [Crossing],
    pub syncs: &'a [Sync],
    pub grays: &'a [GrayReg],
    pub guards: &'a Guards,
    pub loads: &'a [Load],
}

/// All findings of the design, by their numbers.
fn findings(
    alloc: Global,
    found: &Found<'_>,
    covers: &[Cover],
    extra: &[Crossing],
    plain: &mut Table,
) -> Result<List<Finding>, NoMemory>
    ensures exact { IfOk result (λ findings. (grays : GrayRegOf → Bool) (rings : List RingOf) (is_extra : Bit → Bit → Bool) → AreHanded grays rings is_extra found.now covers.now extra.now →
        ShowsNet found.now.net.now [] plain.old → AreFindingsIn grays rings is_extra found.now findings × HavePaths found.now.net.now findings) }
{
    let uncovered = find_uncovered(alloc, found, covers, extra, plain)?;
    let entries = entries(alloc, found)?;
    let mut paths = Paths::open(alloc, found.net)?;
    let mut findings = List::new(alloc);
    add_crossings(
        alloc,
        found,
        &mut paths,
        plain,
        uncovered.as_slice(),
        1,
        &mut findings,
    )?;
    add_crossings(
        alloc,
        found,
        &mut paths,
        plain,
        uncovered.as_slice(),
        2,
        &mut findings,
    )?;
    add_v3(alloc, found, entries.as_slice(), &mut findings)?;
    add_v4(alloc, entries.as_slice(), &mut findings)?;
    add_v5(alloc, entries.as_slice(), &mut findings)?;
    add_v6(alloc, found, plain, &mut findings)?;
    add_crossings(
        alloc,
        found,
        &mut paths,
        plain,
        uncovered.as_slice(),
        7,
        &mut findings,
    )?;
    add_crossings(
        alloc,
        found,
        &mut paths,
        plain,
        uncovered.as_slice(),
        8,
        &mut findings,
    )?;
    Ok(findings)
}

/// The verdict on the net, whose schemes these are, by its table without a cube. A crossing of `extra` is guarded by
/// something beside the schemes, so it needs none.
pub fn audit_with<E: Extra>(
    alloc: Global,
    net: &Net,
    domains: &Domains,
    schemes: &Schemes,
    plain: &mut Table,
    extra: &E,
) -> Result<Verdict, NoMemory>
    ensures exact { IfOk result (λ verdict. CanAudit net.now domains.now → AreSchemes net.now domains.now schemes.now → ShowsNet net.now [] plain.old →
        IsVerdictOf net.now domains.now (E.is_extra extra.now) verdict) }
    ensures sound { IfOk result (λ verdict. CanAudit net.now domains.now → (is : IsVerdictOf net.now domains.now (E.is_extra extra.now) verdict) →
        E.fits extra.now (design_of net.now domains.now) (net_trees net.now is.grays) is.syncs verdict.grays → verdict.findings ≡ [] →
        Sound (design_of net.now domains.now) verdict.covers (map (λ (r : RingEntry). r.bits) verdict.rings) (E.is_extra extra.now)) }
    ensures together { IfOk result (λ verdict. CanAudit net.now domains.now → (is : IsVerdictOf net.now domains.now (E.is_extra extra.now) verdict) →
        E.fits extra.now (design_of net.now domains.now) (net_trees net.now is.grays) is.syncs verdict.grays → verdict.findings ≡ [] →
        (run : Trace) → IsRun (design_of net.now domains.now) run → (x : Bit) → is_register_bit net.now x ≡ true → (group depth : ℕ) →
        IsTogether (design_of net.now domains.now) (net_trees net.now is.grays) is.syncs run x group depth) }
{
    clean_net_is_sound(extra);
    let crossings = schemes.crossings.as_slice();
    let syncs = schemes.syncs.as_slice();
    let grays = schemes.grays.as_slice();
    let rings = handshake::rings_with(alloc, net, domains, syncs, plain)?;
    let guards = Guards::find(alloc, net, domains, crossings, rings.as_slice(), plain)?;
    let loads = guards.loads(alloc, crossings)?;
    let found = Found {
        net,
        domains,
        crossings,
        syncs,
        grays,
        guards: &guards,
        loads: loads.as_slice(),
    };
    let covers = covers(alloc, &found)?;
    let findings = findings(alloc, &found, covers.as_slice(), extra.covers(), plain)?;
    let crossings = copied(alloc, crossings)?;
    let grays = copied(alloc, grays)?;
    Ok(Verdict {
        crossings,
        grays,
        rings,
        covers,
        findings,
    })
}

/// The verdict on the net. Refused with E603 where the net has too many crossings.
pub fn audit(alloc: Global, net: &Net, domains: &Domains) -> Result<Verdict, Stop>
    ensures numbered { IfErr result (HasNumberIn crossing_numbers) }
    ensures full { IfErr result (HasCause 603 (CanAudit net.now domains.now → MAX_CROSSINGS < length (crossings_of net.now domains.now))) }
    ensures exact { IfOk result (λ verdict. CanAudit net.now domains.now → IsVerdictOf net.now domains.now none_extra verdict) }
    ensures sound { IfOk result (λ verdict. CanAudit net.now domains.now → verdict.findings ≡ [] →
        Sound (design_of net.now domains.now) verdict.covers (map (λ (r : RingEntry). r.bits) verdict.rings) none_extra) }
    ensures together { IfOk result (λ verdict. CanAudit net.now domains.now → (is : IsVerdictOf net.now domains.now none_extra verdict) → verdict.findings ≡ [] →
        (run : Trace) → IsRun (design_of net.now domains.now) run → (x : Bit) → is_register_bit net.now x ≡ true → (group depth : ℕ) →
        IsTogether (design_of net.now domains.now) (net_trees net.now is.grays) is.syncs run x group depth) }
{
    let mut plain = plain_table(alloc, net)?;
    let schemes = Schemes::find(alloc, net, domains, &mut plain)?;
    let verdict = audit_with(alloc, net, domains, &schemes, &mut plain, &NoExtra)?;
    Ok(verdict)
}
