//! The verdict on a net with its FIFOs.
#![tactic(auto)]

ghost use Rattle.std.specs.Prelude.{◌≡◌, ◌<◌, [], length, map, IfOk, IfErr};
ghost use Rattle.cdc_base.specs.declared.limits.TheConstants.{MAX_CROSSINGS};
ghost use Rattle.refusals.specs.Limits.{HasCause};
ghost use Rattle.cdc_model.specs.Found.{crossings_of};
ghost use Rattle.cdc_model.specs.Tables.{ShowsNet};
ghost use Rattle.net_verdict.specs.Judged.{IsJudged, IsJudgedBy, pair_of};
ghost use Rattle.obligations.specs.Judged.{CanAudit};
ghost use Rattle.obligations.specs.Schemes.{AreSchemes};
ghost use Rattle.refusals.specs.Numbers.{HasNumberIn, crossing_numbers};

use cdc_base::{List, Name, NoMemory, Stop};
use cdc_model::view::plain_table;
use cdc_model::{Sync, Verdict};
use cell_graph::Net;
use cofactor::Table;
use domains::Domains;
use fifo_laws::clean_nets_run_soundly;
use fifo_scheme::{Fifo, FifoPair, fifo_lines, fifos_with};
use obligations::audit_with;
use obligations::schemes::Schemes;
use std::alloc::Global;

/// The verdict on a net, whose FIFOs guard their crossings, with its synchronizers, and the counts and the text lines of
/// its FIFOs.
#[derive(Drop)]
pub struct Judged {
    pub verdict: Verdict,
    pub syncs: List<Sync>,
    pub counts: List<FifoPair>,
    pub lines: List<Name>,
}

/// The counts of each FIFO.
fn counts_of(alloc: Global, fifos: &[Fifo]) -> Result<List<FifoPair>, NoMemory>
    ensures { IfOk result (λ counts. counts ≡ map pair_of fifos.now) }
{
    let mut counts = List::new(alloc);
    for fifo in fifos {
        counts.push(FifoPair {
            wb: fifo.wb,
            rb: fifo.rb,
        })?;
    }
    Ok(counts)
}

/// The verdict by these schemes over all FIFOs of the net, with the counts and the lines of the FIFOs. The table is the
/// net's without a cube.
fn judged_by(
    alloc: Global,
    net: &Net,
    domains: &Domains,
    schemes: &Schemes,
    plain: &mut Table,
) -> Result<(Verdict, List<FifoPair>, List<Name>), NoMemory>
    ensures { IfOk result (λ by. CanAudit net.now domains.now → AreSchemes net.now domains.now schemes.now → ShowsNet net.now [] plain.old →
        IsJudgedBy net.now domains.now by.0 by.1 by.2) }
{
    let fifos = fifos_with(
        alloc,
        net,
        domains,
        plain,
        schemes.syncs.as_slice(),
        schemes.grays.as_slice(),
    )?;
    clean_nets_run_soundly(&fifos);
    let verdict = audit_with(alloc, net, domains, schemes, plain, &fifos)?;
    let counts = counts_of(alloc, fifos.as_slice())?;
    let lines = fifo_lines(alloc, net, &fifos)?;
    Ok((verdict, counts, lines))
}

/// The verdict over all FIFOs of the net, with its synchronizers and the FIFOs' counts and lines. Refused with E603 where
/// the net has too many crossings.
pub fn judge(alloc: Global, net: &Net, domains: &Domains) -> Result<Judged, Stop>
    ensures numbered { IfErr result (HasNumberIn crossing_numbers) }
    ensures full { IfErr result (HasCause 603 (CanAudit net.now domains.now → MAX_CROSSINGS < length (crossings_of net.now domains.now))) }
    ensures exact { IfOk result (λ judged. CanAudit net.now domains.now → IsJudged net.now domains.now judged) }
{
    let mut plain = plain_table(alloc, net)?;
    let schemes = Schemes::find(alloc, net, domains, &mut plain)?;
    let (verdict, counts, lines) = judged_by(alloc, net, domains, &schemes, &mut plain)?;
    Ok(Judged {
        verdict,
        syncs: schemes.syncs,
        counts,
        lines,
    })
}
